// The messages for faults of explaining, of comparing and of counting.
ghost use Rattle.std.specs.Prelude.{◌≡◌};
ghost use Rattle.tool_run.specs.Lines.{refusal_text};
ghost use Rattle.design_answers.specs.Faults.{told_fault, StopsFor};
ghost use Rattle.fabric_tools.specs.Faults.{diff_fault_text, explain_fault_text, of_counts};

use design_answers::design_stop;
use fabric::FabricFault;
use image_diff::DiffFault;
use image_explain::ExplainFault;
use image_stat::StatFault;
use tool_inputs::whole;
use tool_run::{Refusal, Stop, decimal, text};

/// The refusal to explain an image.
pub(crate) fn explain_refusal(fault: ExplainFault) -> Refusal<'static>
    ensures { refusal_text result ≡ explain_fault_text fault }
{
    match fault {
        ExplainFault::Device => whole("Device"),
        ExplainFault::NoTile { x, y } => Refusal {
            file: None,
            first: decimal("tile ", u64::from(x)),
            second: decimal(" ", u64::from(y)),
            third: text(": NoTile"),
            fourth: text(""),
        },
        ExplainFault::Memory(_) => whole("out of memory"),
    }
}

/// The refusal to compare two images.
pub(crate) fn diff_refusal(fault: DiffFault) -> Refusal<'static>
    ensures { refusal_text result ≡ diff_fault_text fault }
{
    match fault {
        DiffFault::Database => whole("Device"),
        DiffFault::Images => whole("Images"),
        DiffFault::Memory(_) => whole("out of memory"),
    }
}

/// The stop if nothing is counted, with the message that the same fault has for a design.
pub(crate) fn stat_stop(fault: StatFault) -> Stop<'static>
    ensures { StopsFor (told_fault (of_counts fault)) result }
{
    design_stop(&design_fault(fault))
}

// The same fault as a fault of a design.
fn design_fault(fault: StatFault) -> FabricFault
    ensures { result ≡ of_counts fault }
{
    match fault {
        StatFault::Device => FabricFault::Device,
        StatFault::Plls(fault) => FabricFault::from(fault),
        StatFault::Pins(fault) => FabricFault::from(fault),
        StatFault::Rams(fault) => FabricFault::from(fault),
        StatFault::Memory(failed) => FabricFault::Memory(failed),
    }
}
