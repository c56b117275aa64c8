// Why a line is refused.
ghost use Rattle.std.specs.Prelude.{◌≡◌};

use std::alloc::AllocError;
use thiserror::Error;

/// What is wrong with a line. If a line has several faults, the one that comes first in this list is reported.
#[derive(Clone, Copy, Debug, PartialEq, Eq, Error)]
pub enum DbCause {
    /// A statement before `.device`, or a text without a `.device`.
    #[error("no device is given before it")]
    NoDevice,
    /// A second `.device`, an unknown device, a grid of the wrong size, or too many nets.
    #[error("the device is given twice, isn't known, or hasn't that size")]
    Device,
    /// The wrong number of words, a word that isn't a number where one belongs, or a number that is too large.
    #[error("another number of words, or a word that isn't such a number")]
    Number,
    /// There is no tile of that kind at the place, or tiles of that kind have another size.
    #[error("no tile of the kind stands there, or tiles of the kind have another size")]
    TileKind,
    /// A net number that the device doesn't have.
    #[error("the device has fewer nets")]
    NetRange,
    /// An earlier `.net` statement has the same net.
    #[error("the net stands in an earlier statement")]
    NetTwice,
    /// An earlier line gives the same name at the same place of the grid.
    #[error("an earlier line gives the name at that place")]
    NameTwice,
    /// A word that isn't a bit `B<row>[<column>]`.
    #[error("no bit is written so")]
    BitName,
    /// A bit outside of the tile, or a place outside of the configuration planes.
    #[error("the bit is outside of the tile or of the planes")]
    BitRange,
    /// A logic cell whose number of bits isn't 20, or a line with more than 64 bits.
    #[error("a cell has 20 bits, and no line more than 64")]
    CellBits,
    /// The values aren't one `0` or `1` for each bit of the statement.
    #[error("there isn't one value for each bit")]
    ValueLength,
    /// An earlier line of the statement has the same values, but another net.
    #[error("the same values choose another net before")]
    ValuesTwice,
}

/// Why a line is refused: what is wrong with it, or out of memory.
#[derive(Clone, Copy, Debug, PartialEq, Eq)]
pub enum DbLineRefusal {
    Cause(DbCause),
    Memory(AllocError),
}

impl From<AllocError> for DbLineRefusal {
    ghost use Rattle.chipdb_lines.specs.declared.cause.DbLineRefusal.TheVariants.{Memory};

    ghost from_gives = { λ e refusal. refusal ≡ Memory e };

    fn from(e: AllocError) -> DbLineRefusal {
        DbLineRefusal::Memory(e)
    }
}
