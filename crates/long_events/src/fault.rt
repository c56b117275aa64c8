// Why a list of events of the long form is refused.
ghost use Rattle.std.specs.Prelude.{◌≡◌};

use std::alloc::AllocError;
use vlog_run::EventFault;

/// Why a list of events of the long form is refused. Lines count from 1.
#[derive(Clone, Copy, Debug, PartialEq, Eq)]
pub enum LongFault {
    /// What a plain list of events may be refused for: a line has none of the forms, or names no input, or memory is out.
    Event(EventFault),
    /// The line is an `end` without a `repeat`, a `repeat` inside eight others, or a `repeat` without an `end`.
    Repeat { line: u64 },
    /// The text stands for 2^64 - 1 events or more.
    Long,
}

impl From<AllocError> for LongFault {
    ghost use Rattle.vlog_run.specs.declared.event.EventFault.TheVariants.{Memory};
    ghost use Rattle.long_events.specs.declared.fault.LongFault.TheVariants.{Event};

    ghost from_gives = { λ e fault. fault ≡ Event (Memory e) };

    fn from(e: AllocError) -> LongFault {
        LongFault::Event(EventFault::Memory(e))
    }
}
