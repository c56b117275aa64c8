// Wires that get names one after the other.
ghost use Rattle.std.specs.Prelude.{◌≡◌, ◌++◌, ◌∷◌, [], ℕ, List, None, IfOk, OnOk};
ghost use Rattle.vlog_module.specs.Parts.{Parts};

use crate::fault::WireNamesCause;
use crate::line::is_label;
use crate::wire_names::WireNames;
use name_set::NameSet;
use std::alloc::{AllocError, Global};
use vlog_module::{Item, Module, Name, Port};

/// The wires of a module, and those of them that have names so far.
///
/// # Example
/// ```ignore
/// let mut naming = Naming::new(alloc, &module)?; // with the wires `n_3` and `n_4`
/// naming.offer(b"n_3", b"uart.busy")?;
/// naming.offer(b"n_3", b"busy")?; // it has a name already
/// naming.offer(b"n_4", b"uart.busy")?; // the name is taken
/// let text = naming.finish().text()?; // `n_3 uart.busy`
/// ```
#[derive(Drop)]
pub struct Naming<'a> {
    wires: NameSet<'a>,
    /// The names that the module declares, and those that wires have got.
    taken: NameSet<'a>,
    names: WireNames,
}

impl<'a> Naming<'a> {
    ghost use Rattle.std.specs.Prelude.{IfNone, flat_map};
    ghost use Rattle.vlog_module.specs.Maps.{value_in};
    ghost use Rattle.vlog_semantics.specs.ModuleSlots.{wire_names};
    ghost use Rattle.wire_names.specs.Faults.{cause_for};
    ghost use Rattle.wire_names.specs.Lists.{with_free};
    ghost use Rattle.wire_names.specs.Names.{declared_by, names_of_ports};
    ghost use Rattle.wire_names.specs.Naming.{Declares, Names};

    /// No wire of the module has got a name yet.
    ///
    /// # Errors
    /// `AllocError` if memory is out, and for no other cause.
    pub fn new(alloc: Global, module: &'a Module) -> Result<Naming<'a>, AllocError>
        ensures { IfOk result (Names «module».now []) }
    {
        let mut naming = Naming {
            wires: NameSet::new(alloc),
            taken: NameSet::new(alloc),
            names: WireNames::none(alloc),
        };
        naming.declare_ports(module.ports())?;
        naming.declare_items(module.items())?;
        Ok(naming)
    }

    /// Takes the names that ports declare.
    fn declare_ports(&mut self, ports: &'a [Port]) -> Result<(), AllocError>
        ensures { OnOk result (Declares (names_of_ports ports.now) [] self.old self.new) }
    {
        for port in ports {
            self.declare_name(&port.name)?;
        }
        Ok(())
    }

    /// Takes the names that items declare.
    fn declare_items(&mut self, items: &'a [Item]) -> Result<(), AllocError>
        ensures { OnOk result (Declares (flat_map declared_by items.now) (wire_names items.now) self.old self.new) }
    {
        for item in items {
            self.declare_item(item)?;
        }
        Ok(())
    }

    /// Takes the name that an item declares, if it declares one.
    fn declare_item(&mut self, item: &'a Item) -> Result<(), AllocError>
        ensures { OnOk result (Declares (declared_by item.now) (wire_names (item.now ∷ [])) self.old self.new) }
    {
        match item {
            Item::Register { name, start: _ } => self.declare_name(name),
            Item::Word { name, start: _ } => self.declare_name(name),
            Item::Memory { name } => self.declare_name(name),
            Item::Wire { name, right: _ } => self.declare_wire(name),
            _ => Ok(()),
        }
    }

    /// Takes a name that isn't that of a wire.
    fn declare_name(&mut self, name: &'a Name) -> Result<(), AllocError>
        ensures { OnOk result (Declares (name.now ∷ []) [] self.old self.new) }
    {
        self.taken.push(name.bytes())
    }

    /// Takes the name of a wire.
    fn declare_wire(&mut self, name: &'a Name) -> Result<(), AllocError>
        ensures { OnOk result (Declares (name.now ∷ []) (name.now ∷ []) self.old self.new) }
    {
        self.wires.push(name.bytes())?;
        self.taken.push(name.bytes())
    }

    /// Why a wire can't get a name, or `None` if it can.
    pub(crate) fn cause_for(&self, wire: &[u8], name: &[u8]) -> Option<WireNamesCause>
        ensures nameless { IfNone result (value_in self.now.names wire.now ≡ None) }
        ensures cause { (m : Parts) (earlier : List (List ℕ × List ℕ)) → Names m earlier self.now → result ≡ cause_for m earlier wire.now name.now }
    {
        if !self.wires.contains(wire) {
            Some(WireNamesCause::Wire)
        } else if self.names.name_of(wire).is_some() {
            Some(WireNamesCause::WireTwice)
        } else if self.taken.contains(name) {
            Some(WireNamesCause::NameTwice)
        } else {
            None
        }
    }

    /// Gives a wire a name; it must have none yet.
    pub(crate) fn give(&mut self, wire: &[u8], name: &'a [u8]) -> Result<(), AllocError>
        requires { value_in self.old.names wire.now ≡ None }
        ensures { OnOk result ((m : Parts) (earlier : List (List ℕ × List ℕ)) → Names m earlier self.old → Names m (earlier ++ (wire.now, name.now) ∷ []) self.new) }
    {
        self.names.push(wire, name)?;
        self.taken.push(name)
    }

    /// Gives a wire a name if it can get it: it is a wire of the module that has no name yet, and the name is one or more printable bytes
    /// without spaces, and free.
    ///
    /// # Errors
    /// `AllocError` if memory is out, and for no other cause.
    pub fn offer(&mut self, wire: &[u8], name: &'a [u8]) -> Result<(), AllocError>
        ensures { OnOk result ((m : Parts) (earlier : List (List ℕ × List ℕ)) → Names m earlier self.old → Names m (with_free m earlier (wire.now, name.now)) self.new) }
    {
        if is_label(name) && self.cause_for(wire, name).is_none() {
            self.give(wire, name)
        } else {
            Ok(())
        }
    }

    /// The wires that have names.
    pub fn finish(self) -> WireNames
        ensures { (m : Parts) (earlier : List (List ℕ × List ℕ)) → Names m earlier self.entry → result ≡ earlier }
    {
        let Naming { names, .. } = self;
        names
    }
}
