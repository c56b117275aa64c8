// The first draw that is taken.
ghost use Rattle.std.specs.Prelude.{◌≡◌, ◌≤◌, Some, length, IfOk, IfErr};
ghost use Rattle.bram_replace.specs.HexText.{contents_of};
ghost use Rattle.random_words.specs.Taken.{HasSize, IsTaken, TellsDraws, is_taken, random_words};

use crate::drawing::drawn;
use crate::fault::DrawFault;
use crate::size::MemorySize;
use bram_replace::{HexFault, HexFile, are_different};
use std::alloc::{AllocError, Global};

/// How many draws there are at most.
const DRAWS: u32 = 16;

/// Whether `icebram` takes a text as FROM.
fn is_taken(alloc: Global, text: &[u8]) -> Result<bool, AllocError>
    requires { length text.now ≤ 16777216 }
    ensures { IfOk result (λ taken. taken ≡ is_taken text.now) }
{
    match HexFile::read(alloc, text) {
        Ok(file) => are_different(alloc, &file),
        Err(HexFault::Memory(e)) => Err(e),
        Err(_) => Ok(false),
    }
}

/// A text of random words: a line for each word, in lower-case hexadecimal digits. Equal sizes and equal seeds always give equal texts.
/// `icebram` takes the text as FROM: where a draw has two equal columns, the next one takes its place.
///
/// # Errors
/// `DrawFault::Draws` if each of sixteen draws has two equal columns; `DrawFault::Memory` if memory is out.
pub fn random_words(alloc: Global, size: MemorySize, seed: u64) -> Result<Vec<u8>, DrawFault>
    ensures words { IfOk result (λ text. random_words size.width size.depth seed ≡ Some text.items) }
    ensures taken { IfOk result (λ text. IsTaken text.items) }
    ensures size { IfOk result (λ text. HasSize size.width size.depth (contents_of text.items)) }
    ensures refused { IfErr result (TellsDraws (random_words size.width size.depth seed)) }
{
    for draw in 0..DRAWS {
        let text = drawn(alloc, size, seed, draw)?;
        if is_taken(alloc, text.as_slice())? {
            return Ok(text);
        }
    }
    Err(DrawFault::Draws)
}
