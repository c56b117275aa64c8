// A text that comes piece by piece, collected.
ghost use Rattle.std.specs.Prelude.{◌≡◌, ◌++◌, [], ℕ, List, IfOk};

use std::alloc::{AllocError, Global};

/// A text that comes piece by piece, and is collected whole. That there was no memory for it is kept too, and told at the end.
#[derive(Drop)]
pub struct Collected {
    // None if there was no memory.
    bytes: Option<Vec<u8>>,
}

impl Collected {
    ghost use Rattle.tool_run.specs.Collected.{Collects};

    /// No byte yet. It takes no memory.
    pub fn new(alloc: Global) -> Collected
        ensures { Collects [] result }
    {
        Collected {
            bytes: Some(Vec::new(alloc)),
        }
    }

    /// Puts the next piece after those before.
    pub fn push(&mut self, piece: &[u8])
        ensures { (text : List ℕ) → Collects text self.old → Collects (text ++ piece.now) self.new }
    {
        let is_kept = match &mut self.bytes {
            Some(bytes) => bytes.extend_from_slice(piece).is_ok(),
            None => false,
        };
        if !is_kept {
            self.bytes = None;
        }
    }

    /// The text.
    ///
    /// # Errors
    /// `AllocError` if there was no memory for it.
    pub fn text(&self) -> Result<&[u8], AllocError>
        ensures { IfOk result (λ bytes. (text : List ℕ) → Collects text self.now → bytes.now ≡ text) }
    {
        match &self.bytes {
            Some(bytes) => Ok(bytes),
            None => Err(AllocError),
        }
    }
}
