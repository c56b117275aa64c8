// Sets of names.
ghost use Rattle.std.specs.Prelude.{◌≡◌, ◌||◌, ℕ, List, [], bytes_eq, map, OnOk};
ghost use Rattle.std.specs.List.{list_any};
ghost use Rattle.pin_file.specs.PortNames.{has_name};

use indexmap::IndexSet;
use std::alloc::{AllocError, Global};
use std::marker::Model;

/// Names, each once.
#[derive(Drop)]
pub(crate) struct NameSet {
    names: IndexSet<Vec<u8>>,
}

impl Model for NameSet {
    ghost use Rattle.std.specs.Prelude.{List, ℕ, map};

    ghost Value = { List (List ℕ) };

    ghost view = { λ set. map (λ name. name.items) set.names.keys };
}

impl NameSet {
    /// A set without names. It takes no memory yet.
    pub(crate) fn new(alloc: Global) -> NameSet
        ensures { result ≡ [] }
    {
        NameSet {
            names: IndexSet::new(alloc),
        }
    }

    /// Adds a name.
    fn insert(&mut self, name: Vec<u8>) -> Result<(), AllocError>
        ensures { OnOk result ((other : List ℕ) → has_name self.new other ≡ (has_name self.old other || bytes_eq other name.items)) }
    {
        self.names.insert(name)?;
        Ok(())
    }

    /// Adds names.
    pub(crate) fn insert_all(&mut self, names: Vec<Vec<u8>>) -> Result<(), AllocError>
        ensures { OnOk result ((other : List ℕ) → has_name self.new other ≡ (has_name self.old other || has_name (map (λ name. name.items) names.items) other)) }
    {
        for name in names {
            self.insert(name)?;
        }
        Ok(())
    }

    /// Whether a name is in the set.
    fn contains(&self, name: &[u8]) -> bool
        ensures { result ≡ has_name self.now name.now }
    {
        self.names.contains(name)
    }

    /// Whether one of the names is in the set.
    pub(crate) fn has_any(&self, names: &[Vec<u8>]) -> bool
        ensures { result ≡ list_any (λ name. has_name self.now name.items) names.now }
    {
        names.iter().any(|name| self.contains(name))
    }
}
