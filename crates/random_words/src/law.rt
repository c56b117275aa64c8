// The law of the draws.
ghost use Rattle.std.specs.Prelude.{◌≡◌, ℕ, None};
ghost use Rattle.bram_replace.specs.HexText.{contents_of, hex_fault_of};
ghost use Rattle.random_words.specs.Draws.{drawn};
ghost use Rattle.random_words.specs.Taken.{HasSize};

use crate::size::MemorySize;

/// Each draw is a file of memory words of its size, and nothing is wrong with its lines: only equal columns make [`random_words`] draw
/// again. The call does nothing: its clauses are the law. No code of this project calls it: it is for users of the library.
///
/// [`random_words`]: crate::random_words
pub fn draws_are_memory_words(size: MemorySize)
    ensures faultless { (seed draw : ℕ) → hex_fault_of (drawn size.width size.depth seed draw) ≡ None }
    ensures size { (seed draw : ℕ) → HasSize size.width size.depth (contents_of (drawn size.width size.depth seed draw)) }
{
    let _size = size;
}
