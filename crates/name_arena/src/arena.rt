// Names: their bytes in chunks, and where each name is.
ghost use Rattle.std.specs.Prelude.{◌≡◌, ◌+◌, ◌-◌, ◌^◌, ◌<◌, ◌++◌, ◌∷◌, [], length, slice_index_or, ◌↔◌, IsTrue, IfOk, OnErr};

use crate::chunks::{Chunks, Span};
use std::alloc::{AllocError, Global};
use std::marker::Model;

/// The id of a name in an arena. In contracts it is the place of the name, counted from 0.
#[derive(Clone, Copy, Debug, PartialEq, Eq, PartialOrd, Ord)]
pub struct NameId {
    place: u32,
}

impl Model for NameId {
    ghost use Rattle.std.specs.Prelude.{ℕ};

    ghost Value = { ℕ };

    ghost view = { λ id. id.place };

    ghost inverse = { λ place. record { place = place } };
}

impl NameId {
    /// The id of the name at a place.
    pub(crate) fn at(place: u32) -> NameId
        ensures { result ≡ place }
    {
        NameId { place }
    }

    /// The place of the name.
    pub fn place(self) -> usize
        ensures { result ≡ self }
    {
        self.place as usize
    }
}

/// Byte strings in the order in which they were added; in contracts, the list of them. The bytes are in chunks of memory that never grow or
/// move, and that are freed together with the arena.
#[derive(Drop)]
pub struct NameArena {
    chunks: Chunks,
    spans: Vec<Span>,
}

impl Model for NameArena {
    ghost use Rattle.std.specs.Prelude.{List, ℕ, ◌^◌, ◌<◌, length, map, All};
    ghost use Rattle.name_arena.specs.Names.{name_at, IsSpanOf};

    ghost Value = { List (List ℕ) };

    ghost view = { λ arena. map (λ span. name_at arena.chunks span) arena.spans.items };

    ghost invariant = { λ arena. (length arena.spans.items < 2 ^ 32) × All (λ span. IsSpanOf arena.chunks span) arena.spans.items };
}

impl NameArena {
    /// An arena without names. It takes no memory yet.
    pub fn new(alloc: Global) -> NameArena
        ensures { result ≡ [] }
    {
        NameArena {
            chunks: Chunks::new(alloc),
            spans: Vec::new(alloc),
        }
    }

    /// Adds a name at the end, and returns its id.
    ///
    /// # Errors
    /// `AllocError` if memory is out. Then no name was added.
    pub fn push(&mut self, name: &[u8]) -> Result<NameId, AllocError>
        requires { length self.old < 2 ^ 32 - 1 }
        ensures pushed { IfOk result (λ id. self.new ≡ self.old ++ name.now ∷ []) }
        ensures last { IfOk result (λ id. id ≡ length self.old) }
        ensures unchanged { OnErr result (self.new ≡ self.old) }
    {
        let place = self.spans.len() as u32;
        // Reserve first, so that no bytes are kept of a name that isn't added.
        self.spans.reserve(1)?;
        let span = self.chunks.keep(name)?;
        let _fits = self.spans.push(span);
        Ok(NameId { place })
    }

    /// The bytes of a name. The id must be one of this arena.
    pub fn get(&self, id: NameId) -> &[u8]
        requires { id < length self.now }
        ensures { result.now ≡ slice_index_or self.now id [] }
    {
        self.name(id.place as usize)
    }

    /// The bytes of the name at a place.
    pub(crate) fn name(&self, place: usize) -> &[u8]
        requires { place < length self.now }
        ensures { result.now ≡ slice_index_or self.now place [] }
    {
        self.chunks.name(self.spans[place])
    }

    /// Whether the arena has a name with that id; it has one for each id that it gave.
    pub fn has(&self, id: NameId) -> bool
        ensures { IsTrue result ↔ (id < length self.now) }
    {
        (id.place as usize) < self.spans.len()
    }

    /// How many names there are.
    pub fn len(&self) -> usize
        ensures { result ≡ length self.now }
    {
        self.spans.len()
    }
}
