// The names of a database, each kept once.
ghost use Rattle.std.specs.Prelude.{◌≡◌, ◌-◌, ◌^◌, ◌<◌, [], bytes_eq, length, position, slice_index_or, None, IfOk};
ghost use Rattle.chipdb_reader.specs.Texts.{text_at};

use name_arena::{NameId, NameTable};
use std::alloc::{AllocError, Global};

/// Interned names: each is kept once, and known by its id and by its bytes.
#[derive(Drop)]
pub(crate) struct Texts {
    arena: NameTable,
}

impl Texts {
    ghost use Rattle.chipdb_reader.specs.Texts.{Interns, IsIndexed};

    /// No names yet. It takes no memory.
    pub(crate) fn new(alloc: Global) -> Texts
        ensures empty { result.arena ≡ [] }
        ensures indexed { IsIndexed result }
    {
        Texts {
            arena: NameTable::new(alloc),
        }
    }

    /// The bytes of a name. Empty if the id is one of another database and has no place in this one.
    pub(crate) fn get(&self, id: NameId) -> &[u8]
        ensures { result.now ≡ text_at self.now.arena id }
    {
        if self.arena.has(id) {
            self.arena.get(id)
        } else {
            &[]
        }
    }

    /// The id of a name, if it is kept.
    pub(crate) fn find(&self, text: &[u8]) -> Option<NameId>
        requires { IsIndexed self.now }
        ensures { result ≡ position (bytes_eq text.now) self.now.arena }
    {
        self.arena.find(text)
    }

    /// Interns a name: its id, after adding it if it wasn't kept yet.
    pub(crate) fn intern(&mut self, text: &[u8]) -> Result<NameId, AllocError>
        requires indexed { IsIndexed self.old }
        requires room { length self.old.arena < 2 ^ 32 - 1 }
        ensures { IfOk result (Interns self.old self.new text.now) }
    {
        match self.find(text) {
            Some(id) => Ok(id),
            None => self.add(text),
        }
    }

    /// Adds a name that isn't kept yet.
    fn add(&mut self, text: &[u8]) -> Result<NameId, AllocError>
        requires indexed { IsIndexed self.old }
        requires absent { position (bytes_eq text.now) self.old.arena ≡ None }
        requires room { length self.old.arena < 2 ^ 32 - 1 }
        ensures { IfOk result (Interns self.old self.new text.now) }
    {
        self.arena.push(text)
    }
}
