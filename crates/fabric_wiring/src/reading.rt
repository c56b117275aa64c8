// Which classes of joined nets have a driver, and which classes each reads.
ghost use Rattle.std.specs.Prelude.{◌≡◌, ℕ, ◌<◌, ◌≤◌, true, is_some, length, map, flat_map, option_to_list, [], if◌then◌else◌, IfOk, IfSome};
ghost use Rattle.fabric_model.specs.Fabric.{Fabric};
ghost use Rattle.fabric_model.specs.Wiring.{wiring_of};
ghost use Rattle.fabric_model.specs.Drivers.{nets_read};
ghost use Rattle.fabric_model.specs.Signals.{signal_nets};
ghost use Rattle.graph_order.specs.Wiring.{has};
ghost use Rattle.graph_order.specs.Rows.{is_marked, row_at};
ghost use Rattle.fabric_model.specs.Links.{class_in};
ghost use Rattle.fabric_wiring.specs.Drives.{rule_of};
ghost use Rattle.fabric_wiring.specs.Parts.{ArePartsOf};
ghost use Rattle.fabric_wiring.specs.DriverLists.{AreDriversOf, driver_in};
ghost use Rattle.fabric_wiring.specs.Reading.{classes_read, row_in};
ghost use Rattle.fabric_wiring.specs.Wires.{AreWiresOf};

use crate::wires_type::Wires;
use crate::{Drive, Drivers, Parts, Rule};
use fabric_model::{Links, Register, Signal};
use std::alloc::{AllocError, Global};

/// Finds what the classes of joined nets of a fabric read. It gives each class, in ascending order, a mark, whether it has a driver, and a
/// row, the fan-in of its driver.
///
/// # Errors
/// `AllocError` if memory is out, or if there are more classes than 32 bits can count.
pub fn wires(alloc: Global, parts: &Parts, drivers: &Drivers) -> Result<Wires, AllocError>
    ghost fabric: { Fabric }
    requires parts { ArePartsOf fabric parts.now }
    requires drivers { AreDriversOf fabric drivers.now }
    ensures wires { IfOk result (AreWiresOf (wiring_of fabric)) }
    ensures few { IfOk result (λ wires. length wires.driven.items ≤ u32.MAX) }
{
    let count = count_of(drivers)?;
    let driven = marks_of(alloc, drivers, count)?;
    let reads = rows_of(alloc, &parts.links, drivers, count)?;
    Ok(Wires { driven, reads })
}

/// How many classes of joined nets there are. It is an error if 32 bits can't count them.
pub(crate) fn count_of(drivers: &Drivers) -> Result<u32, AllocError>
    ensures { IfOk result (λ count. count ≡ length drivers.now.places) }
{
    u32::try_from(drivers.len()).map_err(|_| AllocError)
}

/// For each class of joined nets, whether it has a driver.
pub(crate) fn marks_of(
    alloc: Global,
    drivers: &Drivers,
    count: u32,
) -> Result<Vec<bool>, AllocError>
    requires { count ≤ length drivers.now.places }
    ensures length { IfOk result (λ marks. length marks.items ≡ count) }
    ensures marks { IfOk result (λ marks. (class : ℕ) → class < count → is_marked marks.items class ≡ is_some (driver_in drivers.now class)) }
{
    let mut marks = Vec::new(alloc);
    for class in 0..count {
        marks.push(drivers.of_class(class).is_some())?;
    }
    Ok(marks)
}

/// For each class of joined nets, the classes that its driver reads.
fn rows_of(
    alloc: Global,
    links: &Links,
    drivers: &Drivers,
    count: u32,
) -> Result<Vec<Vec<u32>>, AllocError>
    requires count { count ≤ length drivers.now.places }
    requires nets { (class : ℕ) → class < count → IfSome (driver_in drivers.now class) (λ drive. (net : ℕ) → has (nets_read (rule_of drive.rule)) net ≡ true → net < length links.now.classes) }
    ensures length { IfOk result (λ rows. length rows.items ≡ count) }
    ensures rows { IfOk result (λ rows. (class : ℕ) → class < count → row_at rows.items class ≡ row_in links.now (driver_in drivers.now class)) }
{
    let mut rows = Vec::new(alloc);
    for class in 0..count {
        let row = row_of(alloc, links, drivers.of_class(class))?;
        rows.push(row).map_err(AllocError::from)?;
    }
    Ok(rows)
}

/// The classes of joined nets that a driver reads, and none if there is no driver.
pub(crate) fn row_of(
    alloc: Global,
    links: &Links,
    drive: Option<Drive>,
) -> Result<Vec<u32>, AllocError>
    requires { IfSome drive (λ drive. (net : ℕ) → has (nets_read (rule_of drive.rule)) net ≡ true → net < length links.now.classes) }
    ensures { IfOk result (λ row. row.items ≡ row_in links.now drive) }
{
    match drive {
        None => Ok(Vec::new(alloc)),
        Some(drive) => row_by(alloc, links, drive.rule),
    }
}

/// The classes of joined nets that a driver with that rule reads.
#[tactic(auto, unfolding(fabric_model::specs::Drivers::nets_read))]
fn row_by(alloc: Global, links: &Links, rule: Rule) -> Result<Vec<u32>, AllocError>
    requires { (net : ℕ) → has (nets_read (rule_of rule)) net ≡ true → net < length links.now.classes }
    ensures { IfOk result (λ row. row.items ≡ classes_read links.now rule) }
{
    match rule {
        Rule::Input(source) => classes_of_signals(alloc, links, &[source]),
        Rule::TableEntry(table) => classes_of_signals(alloc, links, &table.ins),
        Rule::MajorityOf(a, b, c) => classes_of(alloc, links, &[a, b, c]),
        Rule::RegisterBit { register, .. } => classes_of_reset(alloc, links, &register),
        Rule::Copied(net) => classes_of(alloc, links, &[Some(net)]),
        Rule::PinBit(_) | Rule::Constant(_) | Rule::ReadBit { .. } => Ok(Vec::new(alloc)),
    }
}

/// The class of joined nets of the set or reset of a register, if that is asynchronous; else the register reads none.
fn classes_of_reset(
    alloc: Global,
    links: &Links,
    register: &Register,
) -> Result<Vec<u32>, AllocError>
    requires { (net : ℕ) → has (if register.now.is_async then option_to_list register.now.sr else []) net ≡ true → net < length links.now.classes }
    ensures { IfOk result (λ row. row.items ≡ map (class_in links.now) (if register.now.is_async then option_to_list register.now.sr else [])) }
{
    if register.is_async {
        classes_of(alloc, links, &[register.sr])
    } else {
        Ok(Vec::new(alloc))
    }
}

/// The net that an input reads, if it reads one.
fn net_of(source: Signal) -> Option<u32>
    ensures { option_to_list result ≡ signal_nets source }
{
    match source {
        Signal::Net { net, .. } => net,
        Signal::Input(_) | Signal::Register(_) => None,
    }
}

/// The classes of joined nets that inputs read.
fn classes_of_signals(alloc: Global, links: &Links, ins: &[Signal]) -> Result<Vec<u32>, AllocError>
    requires { (net : ℕ) → has (flat_map signal_nets ins.now) net ≡ true → net < length links.now.classes }
    ensures { IfOk result (λ row. row.items ≡ map (class_in links.now) (flat_map signal_nets ins.now)) }
{
    let mut row = Vec::new(alloc);
    for source in ins {
        if let Some(net) = net_of(*source) {
            row.push(links.class_of(net))?;
        }
    }
    Ok(row)
}

/// The classes of joined nets of some nets, of which some may be missing.
fn classes_of(alloc: Global, links: &Links, nets: &[Option<u32>]) -> Result<Vec<u32>, AllocError>
    requires { (net : ℕ) → has (flat_map option_to_list nets.now) net ≡ true → net < length links.now.classes }
    ensures { IfOk result (λ row. row.items ≡ map (class_in links.now) (flat_map option_to_list nets.now)) }
{
    let mut row = Vec::new(alloc);
    for net in nets {
        if let Some(net) = net {
            row.push(links.class_of(*net))?;
        }
    }
    Ok(row)
}
