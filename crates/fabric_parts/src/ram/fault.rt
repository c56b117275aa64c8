// Why RAMs aren't taken.
ghost use Rattle.std.specs.Prelude.{◌≡◌};

use std::alloc::AllocError;

/// Why the RAMs of an image aren't taken: the first cause that holds, with the first RAM that has it. RAMs are ordered by row, then by
/// column, and a RAM is named by its lower tile.
#[derive(Clone, Copy, Debug, PartialEq, Eq)]
pub enum RamFault {
    /// The RAM at (x, y) is cascaded.
    Cascade { x: u8, y: u8 },
    /// Out of memory. It may come in place of any other answer.
    Memory(AllocError),
}

impl From<AllocError> for RamFault {
    ghost use Rattle.fabric_parts.specs.declared.ram.fault.RamFault.TheVariants.{Memory};

    ghost from_gives = { λ e fault. fault ≡ Memory e };

    fn from(e: AllocError) -> RamFault {
        RamFault::Memory(e)
    }
}
