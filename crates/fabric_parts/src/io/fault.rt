// Why pins aren't taken.
ghost use Rattle.std.specs.Prelude.{◌≡◌};

use std::alloc::AllocError;

/// Why the pins of an image aren't taken: the first pin that isn't. Tiles are ordered by row, then by column.
#[derive(Clone, Copy, Debug, PartialEq, Eq)]
pub enum PinFault {
    /// Pin `pio` of the io tile at (x, y) isn't taken. Its PIN_TYPE is `pintype`.
    PinMode { x: u8, y: u8, pio: u8, pintype: u8 },
    /// Out of memory. It may come in place of any other answer.
    Memory(AllocError),
}

impl From<AllocError> for PinFault {
    ghost use Rattle.fabric_parts.specs.declared.io.fault.PinFault.TheVariants.{Memory};

    ghost from_gives = { λ e fault. fault ≡ Memory e };

    fn from(e: AllocError) -> PinFault {
        PinFault::Memory(e)
    }
}
