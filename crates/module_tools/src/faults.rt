// The messages for faults of a module's text, of lists of events and of lists of names.
ghost use Rattle.std.specs.Prelude.{◌≡◌, ◌++◌, codes};
ghost use Rattle.tool_run.specs.Lines.{refusal_text};
ghost use Rattle.vlog_forms.specs.Outcome.{fault};
ghost use Rattle.wire_names.specs.declared.fault.WireNamesFault.TheVariants.{At};
ghost use Rattle.module_tools.specs.Faults.{event_fault_text, file_fault_text, list_fault_text, names_cause_text, names_fault_text, vlog_cause_text, vlog_fault_text};

use long_events::LongFault;
use tool_inputs::{refusal, whole};
use tool_run::{Refusal, decimal, text};
use vlog_parser::VlogCause;
use vlog_run::EventFault;
use wire_names::WireNamesCause;

// What is wrong with the text of a module, after a colon.
fn vlog_cause_text(cause: VlogCause) -> &'static str
    ensures { result.now ≡ codes ": " ++ vlog_cause_text cause }
{
    match cause {
        VlogCause::Syntax => ": Syntax",
        VlogCause::Order => ": Order",
        VlogCause::Undeclared => ": Undeclared",
        VlogCause::AssignedTwice => ": AssignedTwice",
    }
}

/// The refusal of the text of a module: the offset and the cause.
pub(crate) fn vlog_refusal(offset: u64, cause: VlogCause) -> Refusal<'static>
    ensures { refusal_text result ≡ vlog_fault_text (fault offset cause) }
{
    refusal(decimal("offset ", offset), text(vlog_cause_text(cause)))
}

/// The refusal of a list of events: the line and the cause.
pub(crate) fn list_refusal(fault: LongFault) -> Refusal<'static>
    ensures { refusal_text result ≡ list_fault_text fault }
{
    match fault {
        LongFault::Event(fault) => event_refusal(fault),
        LongFault::Repeat { line } => refusal(decimal("line ", line), text(": Repeat")),
        LongFault::Long => whole("Long"),
    }
}

// The refusal of a line that is no event.
fn event_refusal(fault: EventFault) -> Refusal<'static>
    ensures { refusal_text result ≡ event_fault_text fault }
{
    match fault {
        EventFault::Form { line } => refusal(decimal("line ", line), text(": Form")),
        EventFault::Pin { line } => refusal(decimal("line ", line), text(": Pin")),
        EventFault::Memory(_) => whole("out of memory"),
    }
}

/// The refusal of a list of events with the name of its file before it.
pub(crate) fn file_refusal(name: &str, fault: LongFault) -> Refusal<'_>
    ensures { refusal_text result ≡ file_fault_text name.now fault }
{
    let (told, cause) = match fault {
        LongFault::Event(EventFault::Form { line }) => (decimal("line ", line), ": Form"),
        LongFault::Event(EventFault::Pin { line }) => (decimal("line ", line), ": Pin"),
        LongFault::Event(EventFault::Memory(_)) => (text("out of memory"), ""),
        LongFault::Repeat { line } => (decimal("line ", line), ": Repeat"),
        LongFault::Long => (text("Long"), ""),
    };
    Refusal {
        file: None,
        first: text(name),
        second: text(" "),
        third: told,
        fourth: text(cause),
    }
}

// Why a line of a list of names is refused, after a colon.
fn names_cause_text(cause: WireNamesCause) -> &'static str
    ensures { result.now ≡ names_cause_text cause }
{
    match cause {
        WireNamesCause::Form => ": Form",
        WireNamesCause::Wire => ": Wire",
        WireNamesCause::WireTwice => ": WireTwice",
        WireNamesCause::NameTwice => ": NameTwice",
    }
}

/// The refusal of a list of names: the line and the cause.
pub(crate) fn names_refusal(line: u64, cause: WireNamesCause) -> Refusal<'static>
    ensures { refusal_text result ≡ names_fault_text (At line cause) }
{
    refusal(decimal("names line ", line), text(names_cause_text(cause)))
}
