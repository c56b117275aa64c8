// The write order of classes of joined nets.
ghost use Rattle.std.specs.Prelude.{◌≡◌, ◌≤◌, length, IfOk, IfErr, OnOk, None};
ghost use Rattle.fabric_model.specs.Fabric.{Fabric};
ghost use Rattle.fabric_model.specs.Tiles.{first_of};
ghost use Rattle.graph_order.specs.Wiring.{Wiring, IsWriteOrder};
ghost use Rattle.fabric_model.specs.Wiring.{wiring_of as wiring_of_fabric, clocked_wiring};
ghost use Rattle.graph_order.specs.Rows.{wiring_of, ReadsWithin, ReadsByDriven};
ghost use Rattle.graph_order.specs.Alike.{AreAlike};
ghost use Rattle.fabric_model.specs.Faults.{loop_faults};
ghost use Rattle.fabric_wiring.specs.Parts.{ArePartsOf};
ghost use Rattle.fabric_wiring.specs.DriverLists.{AreDriversOf};
ghost use Rattle.fabric_wiring.specs.Ends.{AreEndsOf};
ghost use Rattle.fabric.specs.Faults.{IsLoopOf};

use crate::cycle::Cycle;
use crate::fault::FabricFault;
use fabric_wiring::{ClockEnd, Drivers, Parts, clocked_wires, has_register_clocks, wires};
use graph_order::{least_cycle, write_order};
use std::alloc::Global;

/// Finds the order in which the classes of joined nets of a fabric are written, from what they read. If there is none, it finds a cycle
/// that begins with the least class on any cycle.
fn order_of(alloc: Global, driven: &[bool], reads: &[Vec<u32>]) -> Result<Vec<u32>, FabricFault>
    ghost wiring: { Wiring }
    requires few { length driven.now ≤ u32.MAX }
    requires rows { length reads.now ≡ length driven.now }
    requires within { ReadsWithin (wiring_of driven.now reads.now) }
    requires by_driven { ReadsByDriven (wiring_of driven.now reads.now) }
    requires alike { AreAlike (wiring_of driven.now reads.now) wiring }
    ensures order { IfOk result (λ order. IsWriteOrder wiring order.items) }
    ensures taken { OnOk result (first_of (loop_faults wiring) ≡ None) }
    ensures refused { IfErr result (IsLoopOf wiring) }
{
    match write_order(alloc, driven, reads)? {
        Some(order) => Ok(order),
        None => match least_cycle(alloc, driven, reads)? {
            Some(nets) => Err(FabricFault::Loop {
                net: nets[0],
                cycle: Cycle { nets },
            }),
            // This never happens: if there is no order, some class of joined nets lies on a cycle.
            None => Ok(Vec::new(alloc)),
        },
    }
}

/// Finds the order in which the classes of joined nets of a fabric are written if clocks are left out, or a cycle that begins with the least
/// class on any cycle.
pub(crate) fn order(
    alloc: Global,
    parts: &Parts,
    drivers: &Drivers,
) -> Result<Vec<u32>, FabricFault>
    ghost fabric: { Fabric }
    requires parts { ArePartsOf fabric parts.now }
    requires drivers { AreDriversOf fabric drivers.now }
    ensures few { OnOk result (fabric.nets ≤ u32.MAX) }
    ensures order { IfOk result (λ order. IsWriteOrder (wiring_of_fabric fabric) order.items) }
    ensures taken { OnOk result (first_of (loop_faults (wiring_of_fabric fabric)) ≡ None) }
    ensures refused { IfErr result (IsLoopOf (wiring_of_fabric fabric)) }
{
    let wires = wires(alloc, parts, drivers)?;
    order_of(alloc, &wires.driven, &wires.reads)
}

/// Finds the order in which the classes of joined nets of a fabric are written, or a cycle that begins with the least class on any cycle. If
/// no register is a clock, as where registers may not be clocks, it is the given order, which leaves clocks out.
pub(crate) fn clocked_order(
    alloc: Global,
    parts: &Parts,
    drivers: &Drivers,
    ends: &[ClockEnd],
    order: Vec<u32>,
) -> Result<Vec<u32>, FabricFault>
    ghost fabric: { Fabric }
    requires parts { ArePartsOf fabric parts.now }
    requires drivers { AreDriversOf fabric drivers.now }
    requires ends { AreEndsOf fabric ends.now }
    requires order { IsWriteOrder (wiring_of_fabric fabric) order.items }
    requires taken { first_of (loop_faults (wiring_of_fabric fabric)) ≡ None }
    ensures order { IfOk result (λ order. IsWriteOrder (clocked_wiring fabric) order.items) }
    ensures taken { OnOk result (first_of (loop_faults (clocked_wiring fabric)) ≡ None) }
    ensures refused { IfErr result (IsLoopOf (clocked_wiring fabric)) }
{
    if has_register_clocks(parts, ends) {
        let wires = clocked_wires(alloc, parts, drivers, ends)?;
        order_of(alloc, &wires.driven, &wires.reads)
    } else {
        Ok(order)
    }
}
