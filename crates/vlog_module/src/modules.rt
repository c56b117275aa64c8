// Modules, which are always well-formed.
ghost use Rattle.std.specs.Prelude.{◌≡◌};

use crate::item::Item;
use crate::name::Name;
use std::marker::Model;

/// A port: an input, or an output.
#[derive(Drop)]
pub struct Port {
    pub name: Name,
    pub output: bool,
}

/// A well-formed module.
#[derive(Drop)]
pub struct Module {
    name: Name,
    ports: Vec<Port>,
    items: Vec<Item>,
}

impl Model for Module {
    ghost use Rattle.vlog_module.specs.Parts.{Parts};

    ghost Value = { Parts };

    ghost use Rattle.vlog_module.specs.WellFormed.{IsWellFormed};

    ghost view = { λ whole. record { name = whole.name; ports = whole.ports.items; items = whole.items.items } };

    ghost invariant = { λ whole. IsWellFormed whole.name whole.ports.items whole.items.items };
}

impl Module {
    ghost use Rattle.vlog_module.specs.WellFormed.{IsWellFormed, IsModule};

    /// Makes a module of its name, ports and items, which have to be well-formed.
    pub fn of(name: Name, ports: Vec<Port>, items: Vec<Item>) -> Module
        requires { IsWellFormed name ports.items items.items }
        ensures name { result.name ≡ name }
        ensures ports { result.ports ≡ ports.items }
        ensures items { result.items ≡ items.items }
    {
        Module { name, ports, items }
    }

    /// The module's name.
    pub fn name(&self) -> &Name
        ensures name { result.now ≡ self.now.name }
        ensures well_formed { IsModule self.now }
    {
        &self.name
    }

    /// The ports, in the order of the header.
    pub fn ports(&self) -> &[Port]
        ensures ports { result.now ≡ self.now.ports }
        ensures well_formed { IsModule self.now }
    {
        &self.ports
    }

    /// The items, in the order of the text. The declarations of the ports aren't among them.
    pub fn items(&self) -> &[Item]
        ensures items { result.now ≡ self.now.items }
        ensures well_formed { IsModule self.now }
    {
        &self.items
    }

    /// The name, the ports and the items.
    pub fn into_parts(self) -> (Name, Vec<Port>, Vec<Item>)
        ensures name { result.0 ≡ self.name }
        ensures ports { result.1.items ≡ self.ports }
        ensures items { result.2.items ≡ self.items }
        ensures well_formed { IsModule self }
    {
        (self.name, self.ports, self.items)
    }
}
