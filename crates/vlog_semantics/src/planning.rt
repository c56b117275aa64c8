// The items of a module over its slots.
ghost use Rattle.std.specs.Prelude.{◌≡◌, IfOk};
ghost use Rattle.vlog_semantics.specs.Found.{places_in};
ghost use Rattle.vlog_semantics.specs.ModuleSlots.{IsPlan, places_of};

use crate::build::{assign_outputs, blank_outputs};
use crate::gates::Gate;
use crate::places::{Places, clocks_of, flips_of, reads_of, settles_of, writes_of};
use crate::plan::Plan;
use std::alloc::{AllocError, Global};
use vlog_module::Module;

/// The items of a module over its slots.
pub(crate) fn plan_of(
    alloc: Global,
    module: &Module,
    places: &Places,
    gates: Vec<Gate>,
) -> Result<Plan, AllocError>
    requires { places_in places.now ≡ places_of «module».now }
    ensures gates { IfOk result (λ plan. plan.gates.items ≡ gates.items) }
    ensures plan { IfOk result (IsPlan «module».now) }
{
    let items = module.items();
    let mut outputs = blank_outputs(alloc, module.ports())?;
    assign_outputs(&mut outputs, &places.bits, &places.words, items);
    Ok(Plan {
        gates,
        outputs: outputs.values,
        flips: flips_of(alloc, places, items)?,
        settles: settles_of(alloc, places, items)?,
        reads: reads_of(alloc, places, items)?,
        writes: writes_of(alloc, places, items)?,
        clocks: clocks_of(alloc, places, items)?,
    })
}
