// Why two images are not compared.
ghost use Rattle.std.specs.Prelude.{◌≡◌};
ghost use Rattle.image_diff.specs.declared.fault.DiffFault.TheVariants.{Memory};

use std::alloc::AllocError;
use thiserror::Error;

/// Why two images are not compared.
#[derive(Clone, Copy, Debug, PartialEq, Eq, Error)]
pub enum DiffFault {
    /// The database is for another device than the first image.
    #[error("the database is that of another device")]
    Database,
    /// The second image is for another device than the first.
    #[error("the images are for different devices")]
    Images,
    /// Out of memory. It may come in place of any other answer.
    #[error(transparent)]
    Memory(AllocError),
}

impl From<AllocError> for DiffFault {
    ghost from_gives = { λ e fault. fault ≡ Memory e };

    fn from(e: AllocError) -> DiffFault {
        DiffFault::Memory(e)
    }
}
