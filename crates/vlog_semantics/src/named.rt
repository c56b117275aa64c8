// Names with values, by slots.
ghost use Rattle.std.specs.Prelude.{◌≡◌, List, ℕ, ◌++◌, ◌∷◌, [], slice_set, OnOk};

use crate::slots::Slots;
use std::alloc::{AllocError, Global};

/// Names in their order, each with a value in the slot of its index.
#[derive(Drop)]
pub(crate) struct Named<T: Drop> {
    pub(crate) slots: Slots,
    pub(crate) values: Vec<T>,
}

impl<T: Drop> Named<T> {
    ghost use Rattle.vlog_semantics.specs.Held.{Holds};
    ghost use Rattle.vlog_semantics.specs.Entries.{put};

    /// An empty list. It takes no memory yet.
    pub(crate) fn new(alloc: Global) -> Named<T>
        ensures { Holds result [] }
    {
        Named {
            slots: Slots::new(alloc),
            values: Vec::new(alloc),
        }
    }

    /// Adds a name and its value.
    pub(crate) fn add(&mut self, name: &[u8], value: T) -> Result<(), AllocError>
        ensures { (entries : List (List ℕ × T)) → Holds self.old entries → OnOk result (Holds self.new (entries ++ (name.now, value) ∷ [])) }
    {
        self.slots.add(name, self.values.len())?;
        self.values.push(value)?;
        Ok(())
    }

    /// Gives a name a new value, if the name is there.
    pub(crate) fn put(&mut self, name: &[u8], value: T)
        ensures { (entries : List (List ℕ × T)) → Holds self.old entries → Holds self.new (put entries name.now value) }
    {
        match self.slots.slot(name) {
            Some(slot) => set(&mut self.values, slot, value),
            None => {}
        }
    }
}

/// Sets the value of a slot, if there is such a slot.
fn set<T: Drop>(values: &mut Vec<T>, slot: usize, value: T)
    ensures { values.new.items ≡ slice_set values.old.items slot value }
{
    if slot < values.len() {
        values[slot] = value;
    }
}
