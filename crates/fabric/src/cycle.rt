// A cycle of classes of joined nets.
ghost use Rattle.std.specs.Prelude.{◌≡◌};

use std::marker::Model;

/// A cycle of classes of joined nets, each named by its least net: of logic alone, or also of registers that are clocks. Each class depends on
/// the next, and the last one on the first.
#[derive(Drop)]
pub struct Cycle {
    pub(crate) nets: Vec<u32>,
}

impl Model for Cycle {
    ghost use Rattle.std.specs.Prelude.{List, ℕ};

    ghost Value = { List ℕ };

    ghost view = { λ cycle. cycle.nets.items };
}

impl Cycle {
    /// The classes of joined nets on the cycle, each by its least net. It allocates no memory. No tool of this project needs it: it is for
    /// users of the library.
    pub fn nets(&self) -> &[u32]
        ensures { result.now ≡ self.now }
    {
        &self.nets
    }
}
