// What a tool makes of what it loaded.
ghost use Rattle.std.specs.Prelude.{◌≡◌, ℕ, List, map, vec_items, IfOk, IfErr};
ghost use Rattle.tool_run.specs.Tasks.{Answer, Done};
ghost use Rattle.tool_run.specs.Stops.{StopsWith};

use crate::line::Refusal;
use ice_io::Content;
use std::alloc::{AllocError, Global};

/// Why a tool gives no bytes.
#[derive(Clone, Copy, Debug, PartialEq, Eq)]
pub enum Stop<'a> {
    /// The tool refuses what it was given.
    Refused(Refusal<'a>),
    /// The tool refuses what it was given, and says nothing.
    Quiet,
    /// The command line isn't taken.
    UsageError(Refusal<'a>),
    /// Out of memory.
    Memory,
}

impl From<AllocError> for Stop<'_> {
    ghost use Rattle.tool_run.specs.declared.tool.Stop.TheVariants.{Memory};

    ghost from_gives = { λ _ stop. stop ≡ Memory };

    fn from(_: AllocError) -> Self {
        Stop::Memory
    }
}

/// A tool with its options: a function from the bytes that it loaded to the bytes for its target. It makes no file beside that.
pub trait Tool {
    /// What the tool makes of the bytes of its needs, in their order.
    ghost answer_of: { Self → List (List ℕ) → Answer };

    /// The bytes for the target, as the tool gives them.
    type Made: Content;

    /// The bytes for the target, or why there are none.
    fn answer(&self, alloc: Global, loaded: &Vec<Vec<u8>>) -> Result<Self::Made, Stop<'_>>
        ensures bytes { IfOk result (λ made. answer_of self.now (map vec_items loaded.now.items) ≡ Done (Self.Made.bytes made)) }
        ensures stops { IfErr result (StopsWith (answer_of self.now (map vec_items loaded.now.items))) };
}
