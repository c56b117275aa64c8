// Why a file of words isn't read, or the RAMs of a text aren't replaced.
ghost use Rattle.std.specs.Prelude.{◌≡◌};

use asc_text::AscFault;
use std::alloc::AllocError;

/// Why a file of words isn't read. The first faulty line is reported, on one line `Digit` before `Width`, and `Depth` only if no line is
/// faulty.
#[derive(Clone, Copy, Debug, PartialEq, Eq)]
pub enum HexFault {
    /// This line, counted from 1, has something other than words of hexadecimal digits.
    Digit { line: u64 },
    /// This line has a word with another number of digits than the first word, or the first word has more than 64.
    Width { line: u64 },
    /// The number of words is 0 or no multiple of 256.
    Depth,
    /// Out of memory. It may come in place of any other answer.
    Memory(AllocError),
}

impl From<AllocError> for HexFault {
    ghost use Rattle.bram_replace.specs.declared.fault.HexFault.TheVariants.{Memory};

    ghost from_gives = { λ e fault. fault ≡ Memory e };

    fn from(e: AllocError) -> HexFault {
        HexFault::Memory(e)
    }
}

/// Why the RAMs of a text aren't replaced. If there are several causes, the first in this list is reported.
#[derive(Clone, Copy, Debug, PartialEq, Eq)]
pub enum BramFault {
    /// The two files differ in the number of digits or of words.
    Shape,
    /// The first column of the first file that is equal to a later one, and the first such later one.
    SameColumns { first: u32, second: u32 },
    /// What is wrong with the text; never out of memory.
    Asc(AscFault),
    /// Out of memory. It may come in place of any other answer.
    Memory(AllocError),
}

impl From<AllocError> for BramFault {
    ghost use Rattle.bram_replace.specs.declared.fault.BramFault.TheVariants.{Memory};

    ghost from_gives = { λ e fault. fault ≡ Memory e };

    fn from(e: AllocError) -> BramFault {
        BramFault::Memory(e)
    }
}
