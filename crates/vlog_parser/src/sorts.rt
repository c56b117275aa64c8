// Names and what they are declared as.
ghost use Rattle.std.specs.Prelude.{◌≡◌, ◌++◌, [], ◌∷◌, None, OnOk};
ghost use Rattle.vlog_module.specs.WellFormed.{sort_in};
ghost use Rattle.vlog_parser.specs.Kept.{with_sort};

use indexmap::IndexMap;
use std::alloc::{AllocError, Global};
use std::marker::Model;
use vlog_module::Sort;

/// Names and what they are declared as, each once, in the order in which they were added.
#[derive(Drop)]
pub(crate) struct SortMap<'a> {
    sorts: IndexMap<&'a [u8], Sort>,
}

impl<'a> Model for SortMap<'a> {
    ghost use Rattle.std.specs.Prelude.{List, ℕ, map};
    ghost use Rattle.vlog_module.specs.declared.sort.Sort.{Sort};

    ghost Value = { List (List ℕ × Sort) };

    ghost view = { λ declared. map (λ entry. (entry.0.now, entry.1)) declared.sorts.entries };
}

impl<'a> SortMap<'a> {
    /// No names.
    pub(crate) fn new(alloc: Global) -> SortMap<'a>
        ensures { result ≡ [] }
    {
        SortMap {
            sorts: IndexMap::new(alloc),
        }
    }

    /// Adds a name, if it isn't there yet.
    pub(crate) fn push(&mut self, name: &'a [u8], sort: Sort) -> Result<(), AllocError>
        ensures { OnOk result (self.new ≡ with_sort self.old name.now sort) }
    {
        match self.get(name) {
            Some(_) => Ok(()),
            None => self.push_new(name, sort),
        }
    }

    /// Adds a name that isn't there yet.
    fn push_new(&mut self, name: &'a [u8], sort: Sort) -> Result<(), AllocError>
        requires { sort_in self.old name.now ≡ None }
        ensures { OnOk result (self.new ≡ self.old ++ (name.now, sort) ∷ []) }
    {
        self.sorts.insert(name, sort)?;
        Ok(())
    }

    /// What a name is declared as, if it is.
    pub(crate) fn get(&self, name: &[u8]) -> Option<Sort>
        ensures { result ≡ sort_in self.now name.now }
    {
        self.sorts.get(name).copied()
    }
}
