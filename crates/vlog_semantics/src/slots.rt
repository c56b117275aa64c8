// Slots of names.
ghost use Rattle.std.specs.Prelude.{◌≡◌, List, ℕ, ◌++◌, ◌∷◌, [], None, bytes_eq, OnOk};
ghost use Rattle.std.specs.Map.{lookup};

use indexmap::IndexMap;
use std::alloc::{AllocError, Global};

/// The slots of names. A name that is added twice keeps its first slot.
#[derive(Drop)]
pub struct Slots {
    by_name: IndexMap<Vec<u8>, usize>,
    alloc: Global,
}

impl Slots {
    ghost use Rattle.vlog_semantics.specs.Slots.{Finds, slot_of};

    /// An empty table. It takes no memory yet.
    pub(crate) fn new(alloc: Global) -> Slots
        ensures { Finds result [] }
    {
        Slots {
            by_name: IndexMap::new(alloc),
            alloc,
        }
    }

    /// Gives a name its slot.
    pub(crate) fn add(&mut self, name: &[u8], slot: usize) -> Result<(), AllocError>
        ensures { (entries : List (List ℕ × ℕ)) → Finds self.old entries → OnOk result (Finds self.new (entries ++ (name.now, slot) ∷ [])) }
    {
        if self.slot(name).is_some() {
            return Ok(());
        }
        let name = Vec::from_slice(self.alloc, name)?;
        insert(&mut self.by_name, name, slot)
    }

    /// The slot of a name, if it has one.
    pub fn slot(&self, name: &[u8]) -> Option<usize>
        ensures { result ≡ slot_of self.now name.now }
    {
        self.by_name.get(name).copied()
    }
}

/// Gives a name a slot, if it has none yet.
fn insert(
    by_name: &mut IndexMap<Vec<u8>, usize>,
    name: Vec<u8>,
    slot: usize,
) -> Result<(), AllocError>
    requires { lookup (λ key. bytes_eq name.items key.items) by_name.old.entries ≡ None }
    ensures { OnOk result (by_name.new.entries ≡ by_name.old.entries ++ (name, slot) ∷ []) }
{
    match by_name.insert(name, slot) {
        Ok(_) => Ok(()),
        Err(e) => Err(AllocError::from(e)),
    }
}
