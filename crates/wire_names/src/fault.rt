// What can be wrong with a list of names.
ghost use Rattle.std.specs.Prelude.{◌≡◌};
ghost use Rattle.wire_names.specs.declared.fault.WireNamesFault.TheVariants.{Memory};

use std::alloc::AllocError;
use thiserror::Error;

/// Why a line of a list of names is refused. If a line has several faults, the one that comes first here is reported.
#[derive(Clone, Copy, Debug, PartialEq, Eq, Error)]
pub enum WireNamesCause {
    /// The line isn't `WIRE NAME`.
    #[error("it isn't `WIRE NAME`")]
    Form,
    /// The module doesn't have the wire.
    #[error("the module doesn't have the wire")]
    Wire,
    /// An earlier line names the same wire.
    #[error("an earlier line names the same wire")]
    WireTwice,
    /// The name is that of another wire, or is declared in the module.
    #[error("the name is taken")]
    NameTwice,
}

/// Why a list of names is refused.
#[derive(Clone, Copy, Debug, PartialEq, Eq, Error)]
pub enum WireNamesFault {
    /// The first faulty line, counted from 1, and the first of its causes.
    #[error("line {line}: {cause}")]
    At { line: u64, cause: WireNamesCause },
    /// Out of memory. It may come in place of any other answer.
    #[error(transparent)]
    Memory(AllocError),
}

impl From<AllocError> for WireNamesFault {
    ghost from_gives = { λ e fault. fault ≡ Memory e };

    fn from(e: AllocError) -> WireNamesFault {
        WireNamesFault::Memory(e)
    }
}
