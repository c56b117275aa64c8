// Why an image is not explained.
ghost use Rattle.std.specs.Prelude.{◌≡◌};
ghost use Rattle.image_explain.specs.declared.fault.ExplainFault.TheVariants.{Memory};

use std::alloc::AllocError;
use thiserror::Error;

/// Why an image is not explained.
#[derive(Clone, Copy, Debug, PartialEq, Eq, Error)]
pub enum ExplainFault {
    /// The database is for another device than the image.
    #[error("the database is that of another device")]
    Device,
    /// There is no tile at that column and row of the grid.
    #[error("there is no tile at {x} {y}")]
    NoTile { x: u32, y: u32 },
    /// Out of memory. It may come in place of any other answer.
    #[error(transparent)]
    Memory(AllocError),
}

impl From<AllocError> for ExplainFault {
    ghost from_gives = { λ e fault. fault ≡ Memory e };

    fn from(e: AllocError) -> ExplainFault {
        ExplainFault::Memory(e)
    }
}
