// Why the links that an image sets can't be found.
ghost use Rattle.std.specs.Prelude.{◌≡◌};
ghost use Rattle.fabric_model.specs.declared.fault.LinkFault.TheVariants.{Memory};

use std::alloc::AllocError;
use thiserror::Error;

/// Why the links that an image sets can't be found.
#[derive(Clone, Copy, Debug, PartialEq, Eq, Error)]
pub enum LinkFault {
    /// The database is for another device than the image.
    #[error("the database is of another device than the image")]
    Device,
    /// Out of memory. It may come in place of any other answer.
    #[error(transparent)]
    Memory(AllocError),
}

impl From<AllocError> for LinkFault {
    ghost from_gives = { λ e fault. fault ≡ Memory e };

    fn from(e: AllocError) -> LinkFault {
        LinkFault::Memory(e)
    }
}
