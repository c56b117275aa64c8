// Why a list of events is refused.

ghost use Rattle.std.specs.Prelude.{◌≡◌};

use std::alloc::AllocError;

/// Why a list of events is refused: the first faulty line. Lines count from 1.
#[derive(Clone, Copy, Debug, PartialEq, Eq)]
pub enum EventFault {
    /// The line isn't a name, one space, and `0` or `1`.
    Form { line: u64 },
    /// The name isn't an input of the module.
    Pin { line: u64 },
    /// Out of memory. It may come in place of any other answer.
    Memory(AllocError),
}

impl From<AllocError> for EventFault {
    ghost use Rattle.vlog_run.specs.declared.event.EventFault.TheVariants.{Memory};

    ghost from_gives = { λ e fault. fault ≡ Memory e };

    fn from(e: AllocError) -> EventFault {
        EventFault::Memory(e)
    }
}
