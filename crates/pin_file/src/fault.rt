// What can be wrong with a pin file.
ghost use Rattle.std.specs.Prelude.{◌≡◌};
ghost use Rattle.pin_file.specs.declared.fault.PinFileFault.TheVariants.{Memory};

use std::alloc::AllocError;
use thiserror::Error;

/// Why a line of a pin file is refused. If a line has several faults, the one that comes first in this list is reported.
#[derive(Clone, Copy, Debug, PartialEq, Eq, Error)]
pub enum PinFileCause {
    /// The line is neither `set_io OPTIONS NAME PIN` nor a `set_frequency` line.
    #[error("it isn't `set_io NAME PIN`")]
    Statement,
    /// The database doesn't list the package.
    #[error("the database doesn't have the package")]
    Package,
    /// The package doesn't have the pin.
    #[error("the package doesn't have the pin")]
    Pin,
}

/// Why a pin file is refused.
#[derive(Clone, Copy, Debug, PartialEq, Eq, Error)]
pub enum PinFileFault {
    /// The first faulty line, counted from 1, and the first of its causes.
    #[error("line {line}: {cause}")]
    At { line: u64, cause: PinFileCause },
    /// Out of memory. It may come in place of any other answer.
    #[error(transparent)]
    Memory(AllocError),
}

impl From<AllocError> for PinFileFault {
    ghost from_gives = { λ e fault. fault ≡ Memory e };

    fn from(e: AllocError) -> PinFileFault {
        PinFileFault::Memory(e)
    }
}
