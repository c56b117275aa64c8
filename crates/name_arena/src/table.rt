// Names that can be found by their bytes.
ghost use Rattle.std.specs.Prelude.{◌≡◌, ◌-◌, ◌^◌, ◌<◌, ◌++◌, ◌∷◌, [], length, slice_index_or, ◌↔◌, IsTrue, IfOk, MatchOption, OnErr};
ghost use Rattle.name_arena.specs.Buckets.{HasAt, Lacks};

use crate::arena::{NameArena, NameId};
use crate::chains::Chains;
use std::alloc::{AllocError, Global};
use std::marker::Model;

/// Names in the order in which they were added, and an index from their bytes to their ids. The bytes are kept once. In contracts, the list
/// of the names.
#[derive(Drop)]
pub struct NameTable {
    alloc: Global,
    names: NameArena,
    chains: Chains,
}

impl Model for NameTable {
    ghost use Rattle.std.specs.Prelude.{◌≡◌, ℕ, ◌<◌, ◌^◌, List, length, vec_len};
    ghost use Rattle.name_arena.specs.Buckets.{IsChained};

    ghost Value = { List (List ℕ) };

    ghost view = { λ table. table.names };

    ghost invariant = { λ table. IsChained table.names table.chains × (length table.chains.before.items ≡ length table.names) × (0 < length table.names → 0 < length table.chains.last.items) };
}

impl NameTable {
    /// A table without names. It takes no memory yet.
    pub fn new(alloc: Global) -> NameTable
        ensures { result ≡ [] }
    {
        NameTable {
            alloc,
            names: NameArena::new(alloc),
            chains: Chains::new(alloc),
        }
    }

    /// Adds a name at the end, and returns its id.
    ///
    /// # Errors
    /// `AllocError` if memory is out. Then no name was added.
    pub fn push(&mut self, name: &[u8]) -> Result<NameId, AllocError>
        requires { length self.old < 2 ^ 32 - 1 }
        ensures pushed { IfOk result (λ id. self.new ≡ self.old ++ name.now ∷ []) }
        ensures last { IfOk result (λ id. id ≡ length self.old) }
        ensures unchanged { OnErr result (self.new ≡ self.old) }
    {
        self.chains.widen(self.alloc, &self.names)?;
        self.chains.reserve()?;
        let id = self.names.push(name)?;
        self.chains.push(name);
        Ok(id)
    }

    /// The id of a name, or `None` if the table hasn't that name.
    pub fn find(&self, name: &[u8]) -> Option<NameId>
        ensures { MatchOption result (Lacks self.now name.now) (HasAt self.now name.now) }
    {
        match self.chains.find(&self.names, name) {
            None => None,
            Some(place) => Some(NameId::at(place)),
        }
    }

    /// The bytes of a name. The id must be one of this table.
    pub fn get(&self, id: NameId) -> &[u8]
        requires { id < length self.now }
        ensures { result.now ≡ slice_index_or self.now id [] }
    {
        self.names.get(id)
    }

    /// Whether the table has a name with that id; it has one for each id that it gave.
    pub fn has(&self, id: NameId) -> bool
        ensures { IsTrue result ↔ (id < length self.now) }
    {
        self.names.has(id)
    }

    /// How many names there are. No tool of this project needs it: it is for users of the library.
    pub fn len(&self) -> usize
        ensures { result ≡ length self.now }
    {
        self.names.len()
    }
}
