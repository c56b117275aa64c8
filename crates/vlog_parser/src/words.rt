// Sets of words of memories.
ghost use Rattle.std.specs.Prelude.{◌≡◌, [], OnOk};
ghost use Rattle.vlog_parser.specs.Kept.{has_word, with_word};

use indexmap::IndexSet;
use std::alloc::{AllocError, Global};
use std::marker::Model;

/// A word of a memory, by its address.
#[derive(Clone, Copy, PartialEq, Eq, Hash)]
pub(crate) struct MemoryWord<'a> {
    memory: &'a [u8],
    place: u8,
}

/// Words of memories, each once, in the order in which they were added.
#[derive(Drop)]
pub(crate) struct WordSet<'a> {
    words: IndexSet<MemoryWord<'a>>,
}

impl<'a> Model for WordSet<'a> {
    ghost use Rattle.std.specs.Prelude.{List, ℕ, map};

    ghost Value = { List (List ℕ × ℕ) };

    ghost view = { λ set. map (λ word. (word.memory.now, word.place)) set.words.keys };
}

impl<'a> WordSet<'a> {
    /// No words.
    pub(crate) fn new(alloc: Global) -> WordSet<'a>
        ensures { result ≡ [] }
    {
        WordSet {
            words: IndexSet::new(alloc),
        }
    }

    /// Adds the word at an address, if it isn't there yet.
    pub(crate) fn push(&mut self, memory: &'a [u8], place: u8) -> Result<(), AllocError>
        ensures { OnOk result (self.new ≡ with_word self.old memory.now place) }
    {
        self.words.insert(MemoryWord { memory, place })?;
        Ok(())
    }

    /// Whether the word at an address is among them.
    pub(crate) fn contains(&self, memory: &[u8], place: u8) -> bool
        ensures { result ≡ has_word self.now memory.now place }
    {
        self.words.contains(&MemoryWord { memory, place })
    }
}
