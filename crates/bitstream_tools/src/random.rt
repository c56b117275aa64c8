// `icebram -g`: writes random words for a memory.
ghost use Rattle.std.specs.Prelude.{◌≡◌};
ghost use Rattle.tool_run.specs.Needs.{text_of};
ghost use Rattle.bitstream_tools.specs.Bram.{generate_sized, generate_task_for, generate_task_of, number_in, seed_given};

use random_words::{DrawFault, MemorySize, random_words};
use seeds::seed_of;
use std::alloc::Global;
use text_lines::number;
use tool_inputs::whole;
use tool_run::{Stop, Tool};

/// Writes random words, from their size and a seed. It loads nothing.
#[derive(Clone, Copy, Debug, PartialEq, Eq)]
pub(crate) struct Generating {
    size: MemorySize,
    seed: u64,
}

impl Tool for Generating {
    ghost use Rattle.random_words.specs.Taken.{random_words};
    ghost use Rattle.bitstream_tools.specs.Bram.{words_answer};

    ghost answer_of = { λ tool texts. words_answer (random_words tool.size.width tool.size.depth tool.seed) };

    type Made = Vec<u8>;

    fn answer(&self, alloc: Global, _loaded: &Vec<Vec<u8>>) -> Result<Vec<u8>, Stop<'_>> {
        match random_words(alloc, self.size, self.seed) {
            Ok(text) => Ok(text),
            Err(DrawFault::Draws) => Err(Stop::Refused(whole(
                "all draws have equal columns: take another seed",
            ))),
            Err(DrawFault::Memory(_)) => Err(Stop::Memory),
        }
    }
}

/// The seed that is taken if none is given.
const FIRST_SEED: u64 = 1;

// The number that a word writes, if the word is there and writes one.
fn number_in(word: Option<&str>) -> Option<u32>
    ensures { result ≡ number_in (text_of word.entry) }
{
    match word {
        Some(word) => number(word.as_bytes()),
        None => None,
    }
}

// The seed of the option, or the first one if the option is missing.
fn seed_given(word: Option<&str>) -> Option<u64>
    ensures { result ≡ seed_given (text_of word.entry) }
{
    match word {
        Some(word) => seed_of(word.as_bytes()),
        None => Some(FIRST_SEED),
    }
}

// Random words of this size, if the size is taken.
fn sized(width: u32, depth: u32, seed: u64) -> Option<Generating>
    ensures { generate_task_for result ≡ generate_sized width depth seed }
{
    match MemorySize::of(width, depth) {
        Some(size) => Some(Generating { size, seed }),
        None => None,
    }
}

// Random words, if the width, the depth and the seed are numbers.
fn numbered(width: Option<u32>, depth: Option<u32>, seed: Option<u64>) -> Option<Generating>
    ensures { generate_task_for result ≡ generate_task_of width depth seed }
{
    match (width, depth, seed) {
        (Some(width), Some(depth), Some(seed)) => sized(width, depth, seed),
        _ => None,
    }
}

/// Random words, from the words of the command line.
pub(crate) fn words_wanted(
    width: Option<&str>,
    depth: Option<&str>,
    seed: Option<&str>,
) -> Option<Generating>
    ensures { generate_task_for result ≡ generate_task_of (number_in (text_of width.entry)) (number_in (text_of depth.entry)) (seed_given (text_of seed.entry)) }
{
    numbered(number_in(width), number_in(depth), seed_given(seed))
}
