// Atoms: the operands of right sides and of clocked items.
ghost use Rattle.std.specs.Prelude.{◌≡◌, ◌<◌, ◌++◌, ◌∷◌, [], length, slice_get, Some, IfOk, OnOk, OnErr};

use crate::name::Name;
use std::alloc::{AllocError, Global};
use std::marker::Model;

/// An operand of one bit.
#[derive(Drop)]
pub enum Atom {
    /// `1'b0` or `1'b1`.
    Bit(bool),
    /// An input, a register of one bit or a wire.
    Whole(Name),
    /// Bit `k` of a register of 16 bits; bit 0 is the lowest.
    Part { name: Name, k: u8 },
}

/// A list of atoms. Index 0 is the lowest bit, which Verilog's concatenation has last.
#[derive(Drop)]
pub struct Atoms {
    atoms: Vec<Atom>,
}

impl Model for Atoms {
    ghost use Rattle.std.specs.Prelude.{List};
    ghost use Rattle.vlog_module.specs.declared.atoms.Atom.{Atom};

    ghost Value = { List Atom };

    ghost view = { λ list. list.atoms.items };
}

impl Atoms {
    /// An empty list. It takes no memory yet.
    pub fn new(alloc: Global) -> Atoms
        ensures { result ≡ [] }
    {
        Atoms {
            atoms: Vec::new(alloc),
        }
    }

    /// Adds an atom at the end.
    ///
    /// # Errors
    /// `AllocError` if memory is out, and for no other cause. Then the atom is dropped, and the list stays as it is.
    pub fn push(&mut self, atom: Atom) -> Result<(), AllocError>
        ensures pushed { OnOk result (self.new ≡ self.old ++ atom ∷ []) }
        ensures unchanged { OnErr result (self.new ≡ self.old) }
    {
        self.atoms.push(atom)?;
        Ok(())
    }

    /// How many atoms there are.
    pub fn len(&self) -> usize
        ensures { result ≡ length self.now }
    {
        self.atoms.len()
    }

    /// The atom at an index, from 0.
    pub fn get(&self, place: usize) -> &Atom
        requires { place < length self.now }
        ensures { slice_get self.now place ≡ Some result.now }
    {
        &self.atoms[place]
    }
}
