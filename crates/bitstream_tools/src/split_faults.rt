// The messages for faults of a boot file.
ghost use Rattle.std.specs.Prelude.{◌≡◌, Option};
ghost use Rattle.boot_file.specs.declared.split_fault.SplitFault.{SplitFault as Fault};
ghost use Rattle.boot_file.specs.Reading.{Tells};
ghost use Rattle.tool_run.specs.Lines.{refusal_text};
ghost use Rattle.bitstream_tools.specs.SplitFaults.{StopsSplit, split_fault_text};

use boot_file::{BinFault, SplitFault};
use tool_inputs::{bin_cause, refusal, whole};
use tool_run::{Refusal, Stop, decimal, text};

/// The stop for a boot file with this fault.
pub(crate) fn split_stop(fault: SplitFault) -> Stop<'static>
    ensures { (found : Option Fault) → Tells found fault → StopsSplit found result }
{
    match fault {
        SplitFault::Memory(_) => Stop::Memory,
        fault => Stop::Refused(split_refusal(fault)),
    }
}

// The refusal for a fault.
fn split_refusal(fault: SplitFault) -> Refusal<'static>
    ensures { refusal_text result ≡ split_fault_text fault }
{
    match fault {
        SplitFault::Short { length } => refusal(decimal("Short ", length), text("")),
        SplitFault::Header { index, offset } => refusal(
            decimal("header ", u64::from(index)),
            decimal(": offset ", offset),
        ),
        SplitFault::Address { index, .. } => {
            refusal(decimal("Address ", u64::from(index)), text(""))
        }
        SplitFault::PowerOn { .. } => whole("PowerOn"),
        SplitFault::Image {
            index,
            fault: BinFault::At { offset, cause },
        } => Refusal {
            file: None,
            first: decimal("image ", u64::from(index)),
            second: decimal(": offset ", offset),
            third: bin_cause(cause),
            fourth: text(""),
        },
        SplitFault::Image {
            fault: BinFault::Memory(_),
            ..
        } => whole("out of memory"),
        SplitFault::Memory(_) => whole("out of memory"),
    }
}
