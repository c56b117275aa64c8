// Old names, and the new names that they get.
ghost use Rattle.std.specs.Prelude.{◌≡◌, List, ℕ, ◌++◌, ◌∷◌, [], None, bytes_eq, is_some, IfOk, OnOk};
ghost use Rattle.std.specs.Map.{lookup};

use indexmap::IndexMap;
use std::alloc::{AllocError, Global};
use vlog_module::Name;

/// Old names, each with its new name. An old name that is added twice keeps its first new name.
#[derive(Drop)]
pub(crate) struct Renaming {
    by_name: IndexMap<Vec<u8>, Name>,
    alloc: Global,
}

impl Renaming {
    ghost use Rattle.port_names.specs.Listed.{Lists, given_by, listed_in};
    ghost use Rattle.port_names.specs.Fresh.{AreNames};
    ghost use Rattle.vlog_module.specs.Names.{IsName};

    /// The renaming with these pairs of an old name and its new one.
    pub(crate) fn of(alloc: Global, pairs: &[(Name, Name)]) -> Result<Renaming, AllocError>
        ensures lists { IfOk result (λ renaming. Lists renaming pairs.now) }
        ensures named { OnOk result (AreNames pairs.now) }
    {
        let mut renaming = Renaming {
            by_name: IndexMap::new(alloc),
            alloc,
        };
        for pair in pairs {
            renaming.add(pair)?;
        }
        Ok(renaming)
    }

    /// Adds an old name with its new one.
    fn add(&mut self, pair: &(Name, Name)) -> Result<(), AllocError>
        ensures lists { (pairs : List (List ℕ × List ℕ)) → Lists self.old pairs → OnOk result (Lists self.new (pairs ++ pair.now ∷ [])) }
        ensures old_named { IsName pair.now.0 }
        ensures new_named { IsName pair.now.1 }
    {
        let old = pair.0.bytes();
        let new = pair.1.bytes();
        if self.lists(&pair.0) {
            return Ok(());
        }
        let key = Vec::from_slice(self.alloc, old)?;
        let name = Name::new(self.alloc, new)?;
        insert(&mut self.by_name, key, name)
    }

    /// The allocator from which the memory for new names comes.
    pub(crate) fn alloc(&self) -> Global {
        self.alloc
    }

    /// Whether a name has a new one.
    pub(crate) fn lists(&self, name: &Name) -> bool
        ensures { result ≡ is_some (listed_in self.now name.now) }
    {
        self.by_name.get(name.bytes()).is_some()
    }

    /// The new name of a name, or a copy of the name if it has none.
    pub(crate) fn given(&self, name: &Name) -> Result<Name, AllocError>
        ensures { IfOk result (λ given. given ≡ given_by self.now name.now) }
    {
        match self.by_name.get(name.bytes()) {
            Some(new) => Name::new(self.alloc, new.bytes()),
            None => Name::new(self.alloc, name.bytes()),
        }
    }

    /// Replaces a name by its new one, if it has one.
    pub(crate) fn rename(&self, name: &mut Name) -> Result<(), AllocError>
        ensures { OnOk result (name.new ≡ given_by self.now name.old) }
    {
        if self.lists(name) {
            *name = self.given(name)?;
        }
        Ok(())
    }
}

/// Gives a new name to a name that has none yet.
fn insert(by_name: &mut IndexMap<Vec<u8>, Name>, key: Vec<u8>, name: Name) -> Result<(), AllocError>
    requires { lookup (λ other. bytes_eq key.items other.items) by_name.old.entries ≡ None }
    ensures { OnOk result (by_name.new.entries ≡ by_name.old.entries ++ (key, name) ∷ []) }
{
    match by_name.insert(key, name) {
        Ok(_) => Ok(()),
        Err(e) => Err(AllocError::from(e)),
    }
}
