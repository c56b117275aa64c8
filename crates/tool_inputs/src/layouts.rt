// Layouts for a tool that takes `--layout FILE`.
ghost use Rattle.std.specs.Prelude.{◌≡◌, Ok, IfOk, IfErr};
ghost use Rattle.layout_file.specs.Layouts.{AreLayouts};
ghost use Rattle.tool_run.specs.Lines.{refusal_text};
ghost use Rattle.tool_run.specs.Needs.{text_of};
ghost use Rattle.tool_inputs.specs.Layouts.{layout_fault_text, layouts_for, layouts_read, StopsLayouts};

use crate::refusals::refusal;
use layout_file::{LayoutCause, LayoutFault, Layouts};
use tool_run::{Refusal, Stop, decimal, text};

/// The layouts for a tool: those of the layout file if one is named, and else the standard layouts.
///
/// # Errors
/// `Stop::Refused` with the first faulty line of the layout file, as `layout line N: CAUSE`, and for no other cause.
pub fn layouts_for(layout: Option<&[u8]>) -> Result<Layouts, Stop<'static>>
    ensures layouts { IfOk result (λ layouts. layouts_for (text_of layout.entry) ≡ Ok layouts) }
    ensures devices { IfOk result AreLayouts }
    ensures stops { IfErr result (StopsLayouts (layouts_for (text_of layout.entry))) }
{
    match layout {
        Some(bytes) => layouts_in(bytes),
        None => Ok(Layouts::standard()),
    }
}

/// The layouts that a layout file gives, or `Stop::Refused` with its first faulty line.
#[tactic(auto, unfolding(crate::specs::Layouts::layouts_read))]
fn layouts_in(bytes: &[u8]) -> Result<Layouts, Stop<'static>>
    ensures layouts { IfOk result (λ layouts. layouts_read bytes.now ≡ Ok layouts) }
    ensures devices { IfOk result AreLayouts }
    ensures stops { IfErr result (StopsLayouts (layouts_read bytes.now)) }
{
    match Layouts::read(bytes) {
        Ok(layouts) => Ok(layouts),
        Err(fault) => Err(Stop::Refused(layout_refusal(fault))),
    }
}

// The refusal of a layout file: the line and the cause.
fn layout_refusal(fault: LayoutFault) -> Refusal<'static>
    ensures { refusal_text result ≡ layout_fault_text fault }
{
    let cause = match fault.cause {
        LayoutCause::Statement => ": Statement",
        LayoutCause::Device => ": Device",
        LayoutCause::Repeated => ": Repeated",
        LayoutCause::Width => ": Width",
        LayoutCause::Place => ": Place",
    };
    refusal(decimal("layout line ", fault.line), text(cause))
}
