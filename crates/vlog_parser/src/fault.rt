// Why a text is refused.
ghost use Rattle.std.specs.Prelude.{◌≡◌};
ghost use Rattle.vlog_parser.specs.Answers.{refusal_of};

use crate::name_faults::Fault;
use std::alloc::AllocError;
use vlog_form_parser::ReadStop;
use vlog_forms::VlogCause;

/// Why a text is refused.
#[derive(Debug, Drop)]
pub enum VlogFault {
    /// The text spells no module. This is the cause of its first fault, and the offset of the token at fault (the length of the text if it
    /// ends there).
    At { offset: u64, cause: VlogCause },
    /// Out of memory.
    Memory(AllocError),
}

/// Why a part of the text is refused.
#[derive(Clone, Copy, Debug)]
pub(crate) enum ParseRefusal {
    /// A fault of the text.
    Fault(Fault),
    /// Out of memory.
    Memory(AllocError),
}

/// The refusal for a reading that stopped.
pub(crate) fn refusal_of(stop: ReadStop) -> ParseRefusal
    ensures { result ≡ refusal_of stop }
{
    match stop {
        ReadStop::Stuck(offset) => ParseRefusal::Fault(Fault {
            offset,
            cause: VlogCause::Syntax,
        }),
        ReadStop::Memory(refused) => ParseRefusal::Memory(refused),
    }
}
