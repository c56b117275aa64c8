// Wires and their names.
ghost use Rattle.std.specs.Prelude.{◌≡◌, ◌++◌, ◌∷◌, [], None, bytes_eq, option_map, IfOk, OnOk};
ghost use Rattle.std.specs.Map.{lookup};
ghost use Rattle.vlog_module.specs.Maps.{value_in};
ghost use Rattle.wire_names.specs.Lists.{name_line, names_text};
ghost use Rattle.text_lines.specs.Written.{text_of};

use indexmap::IndexMap;
use std::alloc::{AllocError, Global};
use std::marker::Model;

/// Names for wires: each wire once, with its name, in the order in which they got them. Contracts see the list of them.
#[derive(Drop)]
pub struct WireNames {
    by_wire: IndexMap<Vec<u8>, Vec<u8>>,
    alloc: Global,
}

impl Model for WireNames {
    ghost use Rattle.std.specs.Prelude.{List, ℕ, map};

    ghost Value = { List (List ℕ × List ℕ) };

    ghost view = { λ names. map (λ entry. (entry.0.items, entry.1.items)) names.by_wire.entries };
}

impl WireNames {
    /// No wire has a name. It takes no memory yet.
    pub fn none(alloc: Global) -> WireNames
        ensures { result ≡ [] }
    {
        WireNames {
            by_wire: IndexMap::new(alloc),
            alloc,
        }
    }

    /// The name of a wire, if it has one.
    pub fn name_of(&self, wire: &[u8]) -> Option<&[u8]>
        ensures { option_map (λ name. name.now) result ≡ value_in self.now wire.now }
    {
        match self.by_wire.get(wire) {
            Some(name) => Some(name),
            None => None,
        }
    }

    /// Gives a wire a name, if it has none yet.
    pub(crate) fn push(&mut self, wire: &[u8], name: &[u8]) -> Result<(), AllocError>
        requires { value_in self.old wire.now ≡ None }
        ensures { OnOk result (self.new ≡ self.old ++ (wire.now, name.now) ∷ []) }
    {
        let wire = Vec::from_slice(self.alloc, wire)?;
        let name = Vec::from_slice(self.alloc, name)?;
        insert(&mut self.by_wire, wire, name)
    }

    /// The text of the list: a line for each wire, with the wire, a space and the name.
    ///
    /// # Errors
    /// `AllocError` if memory is out, and for no other cause.
    pub fn text(&self) -> Result<Vec<u8>, AllocError>
        ensures { IfOk result (λ text. text.items ≡ names_text self.now) }
    {
        let mut text = Vec::new(self.alloc);
        let entries = self.by_wire.as_slice();
        for place in 0..entries.len() {
            if let Some((wire, name)) = entries.get_index(place) {
                push_line(&mut text, wire, name)?;
            }
        }
        Ok(text)
    }
}

/// Gives a wire a name, if it has none yet.
fn insert(
    by_wire: &mut IndexMap<Vec<u8>, Vec<u8>>,
    wire: Vec<u8>,
    name: Vec<u8>,
) -> Result<(), AllocError>
    requires { lookup (λ key. bytes_eq wire.items key.items) by_wire.old.entries ≡ None }
    ensures { OnOk result (by_wire.new.entries ≡ by_wire.old.entries ++ (wire, name) ∷ []) }
{
    match by_wire.insert(wire, name) {
        Ok(_) => Ok(()),
        Err(e) => Err(AllocError::from(e)),
    }
}

/// Adds the line of a wire and its name.
fn push_line(text: &mut Vec<u8>, wire: &[u8], name: &[u8]) -> Result<(), AllocError>
    ensures { OnOk result (text.new.items ≡ text.old.items ++ text_of (name_line (wire.now, name.now) ∷ [])) }
{
    text.extend_from_slice(wire)?;
    text.push(b' ')?;
    text.extend_from_slice(name)?;
    text.push(b'\n')?;
    Ok(())
}
