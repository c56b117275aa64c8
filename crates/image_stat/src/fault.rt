// Why a database and an image are not counted.
ghost use Rattle.std.specs.Prelude.{◌≡◌};

use fabric_model::LinkFault;
use fabric_parts::{PinFault, RamFault};
use fabric_plls::PllFault;
use std::alloc::AllocError;

/// Why a database and an image are not counted. If there are several causes, the first in this list is reported.
#[derive(Clone, Copy, Debug, PartialEq, Eq)]
pub enum StatFault {
    /// The database is for another device than the image.
    Device,
    /// A PLL is refused. Out of memory is never reported here.
    Plls(PllFault),
    /// A pin is refused. Out of memory is never reported here.
    Pins(PinFault),
    /// A RAM is refused. Out of memory is never reported here.
    Rams(RamFault),
    /// Out of memory. It may come in place of any other answer.
    Memory(AllocError),
}

impl From<AllocError> for StatFault {
    ghost use Rattle.image_stat.specs.declared.fault.StatFault.TheVariants.{Memory};

    ghost from_gives = { λ e fault. fault ≡ Memory e };

    fn from(e: AllocError) -> StatFault {
        StatFault::Memory(e)
    }
}

impl From<LinkFault> for StatFault {
    ghost use Rattle.image_stat.specs.Causes.{of_links};

    ghost from_gives = { λ e fault. fault ≡ of_links e };

    fn from(e: LinkFault) -> StatFault {
        match e {
            LinkFault::Device => StatFault::Device,
            LinkFault::Memory(e) => StatFault::Memory(e),
        }
    }
}

impl From<PllFault> for StatFault {
    ghost use Rattle.image_stat.specs.Causes.{of_plls};

    ghost from_gives = { λ e fault. fault ≡ of_plls e };

    fn from(e: PllFault) -> StatFault {
        match e {
            PllFault::Memory(e) => StatFault::Memory(e),
            PllFault::Pll { .. } => StatFault::Plls(e),
        }
    }
}

impl From<PinFault> for StatFault {
    ghost use Rattle.image_stat.specs.Causes.{of_pins};

    ghost from_gives = { λ e fault. fault ≡ of_pins e };

    fn from(e: PinFault) -> StatFault {
        match e {
            PinFault::Memory(e) => StatFault::Memory(e),
            PinFault::PinMode { .. } => StatFault::Pins(e),
        }
    }
}

impl From<RamFault> for StatFault {
    ghost use Rattle.image_stat.specs.Causes.{of_rams};

    ghost from_gives = { λ e fault. fault ≡ of_rams e };

    fn from(e: RamFault) -> StatFault {
        match e {
            RamFault::Memory(e) => StatFault::Memory(e),
            RamFault::Cascade { .. } => StatFault::Rams(e),
        }
    }
}
