// Why a text is refused.
ghost use Rattle.std.specs.Prelude.{◌≡◌};
ghost use Rattle.asc_text.specs.declared.fault.AscFault.TheVariants.{Memory};

use plane_map::TileKind;
use std::alloc::AllocError;
use thiserror::Error;

/// The column and the row of the grid that a statement names; there need not be a tile.
#[derive(Clone, Copy, Debug, PartialEq, Eq)]
pub struct TileXy {
    pub x: u32,
    pub y: u32,
}

/// What is wrong with a line.
#[derive(Clone, Copy, Debug, PartialEq, Eq, Error)]
pub enum AscCause {
    /// An unknown keyword, a wrong number of words, or a word that is not a number where one is needed.
    #[error("not a valid statement")]
    Statement,
    /// A statement that needs the device comes before it, or the text names none.
    #[error("no device has been named")]
    NoDevice,
    /// A device other than `384`, `1k` and `8k`.
    #[error("unknown device")]
    Device,
    /// There is no tile.
    #[error("there is no tile")]
    Coordinates,
    /// The tile there is of another kind than the statement says: of the kind `expected`.
    #[error("the tile there is of kind {expected:?}")]
    Kind { expected: TileKind },
    /// Not a row of the tile: a character other than `0` and `1`, or the wrong number of them for the tile's columns.
    #[error("expected a row of 0 and 1")]
    Row,
    /// The text has given this tile, RAM, device or setting before.
    #[error("given before")]
    Repeated,
    /// Not a line of 64 hexadecimal digits.
    #[error("expected 64 hexadecimal digits")]
    Hex,
    /// A place outside the configuration planes, or the place of a bit that belongs to a tile.
    #[error("the place is outside the planes or belongs to a tile")]
    ExtraPlace,
    /// A word that is not a value of the setting.
    #[error("unknown value of the setting")]
    Setting,
    /// A line that isn't blank, is not a statement and does not belong to one.
    #[error("the line belongs to no statement")]
    StrayData,
    /// A byte outside 0x20 to 0x7E in a comment.
    #[error("the comment has a byte outside 0x20 to 0x7E")]
    CommentByte,
}

impl AscCause {
    /// The fault at a line and a tile.
    pub(crate) fn at(self, line: u64, tile: Option<TileXy>) -> AscFault
        ensures { result ≡ AscFault.At line tile self }
    {
        AscFault::At {
            line,
            tile,
            cause: self,
        }
    }
}

/// Why a text is refused.
#[derive(Clone, Copy, Debug, PartialEq, Eq, Error)]
pub enum AscFault {
    /// The first faulty line, counted from 1, the tile or RAM to which it belongs, and what is wrong there. If something is missing
    /// at the end of the text, the line is the number of lines plus 1.
    #[error("line {line}: {cause}")]
    At {
        line: u64,
        tile: Option<TileXy>,
        cause: AscCause,
    },
    /// Out of memory, which may come in place of any other answer.
    #[error(transparent)]
    Memory(AllocError),
}

impl From<AllocError> for AscFault {
    ghost from_gives = { λ e fault. fault ≡ Memory e };

    fn from(e: AllocError) -> AscFault {
        AscFault::Memory(e)
    }
}
