// Why PLLs aren't taken.
ghost use Rattle.std.specs.Prelude.{◌≡◌};

use std::alloc::AllocError;

/// Why the PLLs of an image aren't taken.
#[derive(Clone, Copy, Debug, PartialEq, Eq)]
pub enum PllFault {
    /// The least tile with such a PLL, or with a function that no PLL names. The tile of a PLL may be outside of the grid.
    Pll { x: u32, y: u32 },
    /// Out of memory. It may come in place of any other answer.
    Memory(AllocError),
}

impl From<AllocError> for PllFault {
    ghost use Rattle.fabric_plls.specs.declared.fault.PllFault.TheVariants.{Memory};

    ghost from_gives = { λ e fault. fault ≡ Memory e };

    fn from(e: AllocError) -> PllFault {
        PllFault::Memory(e)
    }
}
