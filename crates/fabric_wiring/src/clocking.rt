// Which classes of joined nets read which if registers that are clocks count.
ghost use Rattle.std.specs.Prelude.{◌≡◌, ℕ, ◌<◌, ◌≤◌, ◌++◌, true, is_some, length, flat_map, option_to_list, slice_get, Some, IfOk, IfSome, OnOk};
ghost use Rattle.std.specs.List.{list_any};
ghost use Rattle.fabric_model.specs.Fabric.{Fabric};
ghost use Rattle.fabric_model.specs.Within.{IsNetIn};
ghost use Rattle.graph_order.specs.Wiring.{has};
ghost use Rattle.graph_order.specs.Rows.{row_at};
ghost use Rattle.fabric_model.specs.Clocks.{clock_class};
ghost use Rattle.fabric_model.specs.Wiring.{clocked_wiring, read_clock, signal_clocks, clocks_of_value};
ghost use Rattle.fabric_model.specs.Steps.{is_on_register};
ghost use Rattle.fabric_wiring.specs.Drives.{rule_of};
ghost use Rattle.fabric_wiring.specs.Parts.{ArePartsOf};
ghost use Rattle.fabric_wiring.specs.DriverLists.{AreDriversOf};
ghost use Rattle.fabric_wiring.specs.Ends.{AreEndsOf};
ghost use Rattle.fabric_wiring.specs.Clocking.{clock_classes, clocking_row, has_register_clocks};
ghost use Rattle.fabric_wiring.specs.Wires.{AreWiresOf};

use crate::ends::end_at;
use crate::reading::{count_of, marks_of, row_of};
use crate::wires_type::Wires;
use crate::{ClockEnd, Drive, Drivers, Parts, Rule};
use fabric_model::Signal;
use std::alloc::{AllocError, Global};

/// Whether a register is the clock of some register, or of the read port of some RAM. If none is, no class of joined nets reads more in
/// [`clocked_wires`] than in [`wires`](crate::wires). It goes over the registers and the RAMs once, and allocates no memory.
pub fn has_register_clocks(parts: &Parts, ends: &[ClockEnd]) -> bool
    ghost fabric: { Fabric }
    requires parts { ArePartsOf fabric parts.now }
    requires ends { AreEndsOf fabric ends.now }
    ensures { result ≡ has_register_clocks fabric }
{
    clocks_register(parts, ends) || clocks_ram(parts, ends)
}

/// Whether a register is the clock of some register.
fn clocks_register(parts: &Parts, ends: &[ClockEnd]) -> bool
    ghost fabric: { Fabric }
    requires parts { ArePartsOf fabric parts.now }
    requires ends { AreEndsOf fabric ends.now }
    ensures { result ≡ list_any (λ register. is_on_register fabric register.clk) fabric.registers }
{
    for register in &parts.registers {
        if clock_class(parts, ends, register.clk).is_some() {
            return true;
        }
    }
    false
}

/// Whether a register is the clock of the read port of some RAM.
fn clocks_ram(parts: &Parts, ends: &[ClockEnd]) -> bool
    ghost fabric: { Fabric }
    requires parts { ArePartsOf fabric parts.now }
    requires ends { AreEndsOf fabric ends.now }
    ensures { result ≡ list_any (λ ram. is_on_register fabric ram.rclk) fabric.rams }
{
    for ram in &parts.rams {
        if clock_class(parts, ends, ram.rclk).is_some() {
            return true;
        }
    }
    false
}

/// The class of joined nets of the register that is the clock of a net, if one is.
fn clock_class(parts: &Parts, ends: &[ClockEnd], net: Option<u32>) -> Option<u32>
    ghost fabric: { Fabric }
    requires parts { ArePartsOf fabric parts.now }
    requires ends { AreEndsOf fabric ends.now }
    requires net { IsNetIn fabric.nets net }
    ensures { result ≡ clock_class fabric net }
{
    match net {
        None => None,
        Some(net) => end_at(ends, parts.links.class_of(net)).register_class(),
    }
}

/// Finds what the classes of joined nets of a fabric read if registers that are clocks count. The marks are those of
/// [`wires`](crate::wires). The row of each class has the fan-in of its driver, and then the classes of the registers that are clocks of what
/// the driver's value is computed from.
///
/// # Errors
/// `AllocError` if memory is out, or if there are more classes than 32 bits can count.
pub fn clocked_wires(
    alloc: Global,
    parts: &Parts,
    drivers: &Drivers,
    ends: &[ClockEnd],
) -> Result<Wires, AllocError>
    ghost fabric: { Fabric }
    requires parts { ArePartsOf fabric parts.now }
    requires drivers { AreDriversOf fabric drivers.now }
    requires ends { AreEndsOf fabric ends.now }
    ensures wires { IfOk result (AreWiresOf (clocked_wiring fabric)) }
    ensures few { IfOk result (λ wires. length wires.driven.items ≤ u32.MAX) }
{
    let count = count_of(drivers)?;
    let driven = marks_of(alloc, drivers, count)?;
    let reads = clocked_rows(alloc, parts, drivers, ends, count)?;
    Ok(Wires { driven, reads })
}

/// For each class of joined nets, what it reads.
fn clocked_rows(
    alloc: Global,
    parts: &Parts,
    drivers: &Drivers,
    ends: &[ClockEnd],
    count: u32,
) -> Result<Vec<Vec<u32>>, AllocError>
    ghost fabric: { Fabric }
    requires parts { ArePartsOf fabric parts.now }
    requires drivers { AreDriversOf fabric drivers.now }
    requires ends { AreEndsOf fabric ends.now }
    requires count { count ≤ length drivers.now.places }
    ensures length { IfOk result (λ rows. length rows.items ≡ count) }
    ensures rows { IfOk result (λ rows. (class : ℕ) → class < count → row_at rows.items class ≡ (clocked_wiring fabric).reads class) }
{
    let mut rows = Vec::new(alloc);
    for class in 0..count {
        let row = clocked_row(alloc, parts, drivers, ends, class)?;
        rows.push(row).map_err(AllocError::from)?;
    }
    Ok(rows)
}

/// What a class of joined nets reads.
fn clocked_row(
    alloc: Global,
    parts: &Parts,
    drivers: &Drivers,
    ends: &[ClockEnd],
    class: u32,
) -> Result<Vec<u32>, AllocError>
    ghost fabric: { Fabric }
    requires parts { ArePartsOf fabric parts.now }
    requires drivers { AreDriversOf fabric drivers.now }
    requires ends { AreEndsOf fabric ends.now }
    requires class { class < length drivers.now.places }
    ensures { IfOk result (λ row. row.items ≡ (clocked_wiring fabric).reads class) }
{
    let drive = drivers.of_class(class);
    let mut row = row_of(alloc, &parts.links, drive)?;
    append_clocks(&mut row, parts, ends, drive)?;
    Ok(row)
}

/// Appends the classes of the registers that are clocks of what the value of a driver is computed from, and none if there is no driver.
fn append_clocks(
    row: &mut Vec<u32>,
    parts: &Parts,
    ends: &[ClockEnd],
    drive: Option<Drive>,
) -> Result<(), AllocError>
    ghost fabric: { Fabric }
    requires parts { ArePartsOf fabric parts.now }
    requires ends { AreEndsOf fabric ends.now }
    requires nets { IfSome drive (λ drive. (net : ℕ) → has (clocks_of_value fabric (rule_of drive.rule)) net ≡ true → net < fabric.nets) }
    ensures { OnOk result (row.new.items ≡ row.old.items ++ clocking_row fabric drive) }
{
    match drive {
        None => Ok(()),
        Some(drive) => append_clocks_by(row, parts, ends, drive.rule),
    }
}

/// Appends the classes of the registers that are clocks of what the value of a driver with that rule is computed from.
#[tactic(auto, unfolding(fabric_model::specs::Wiring::clocks_of_value))]
fn append_clocks_by(
    row: &mut Vec<u32>,
    parts: &Parts,
    ends: &[ClockEnd],
    rule: Rule,
) -> Result<(), AllocError>
    ghost fabric: { Fabric }
    requires parts { ArePartsOf fabric parts.now }
    requires ends { AreEndsOf fabric ends.now }
    requires nets { (net : ℕ) → has (clocks_of_value fabric (rule_of rule)) net ≡ true → net < fabric.nets }
    ensures { OnOk result (row.new.items ≡ row.old.items ++ clock_classes fabric (clocks_of_value fabric (rule_of rule))) }
{
    match rule {
        Rule::Input(source) => append_clocks_of(row, parts, ends, &[source]),
        Rule::TableEntry(table) => append_clocks_of(row, parts, ends, &table.ins),
        Rule::RegisterBit { register, .. } => append_clock(row, parts, ends, register.clk),
        Rule::ReadBit { ram, .. } => append_clock(row, parts, ends, read_clock(parts, ram)),
        Rule::PinBit(_) | Rule::Constant(_) | Rule::MajorityOf(..) | Rule::Copied(_) => Ok(()),
    }
}

/// Appends the classes of the registers that are clocks of the registers that inputs read.
fn append_clocks_of(
    row: &mut Vec<u32>,
    parts: &Parts,
    ends: &[ClockEnd],
    ins: &[Signal],
) -> Result<(), AllocError>
    ghost fabric: { Fabric }
    requires parts { ArePartsOf fabric parts.now }
    requires ends { AreEndsOf fabric ends.now }
    requires nets { (net : ℕ) → has (flat_map (signal_clocks fabric) ins.now) net ≡ true → net < fabric.nets }
    ensures { OnOk result (row.new.items ≡ row.old.items ++ clock_classes fabric (flat_map (signal_clocks fabric) ins.now)) }
{
    for source in ins {
        append_clock(row, parts, ends, signal_clock(parts, *source))?;
    }
    Ok(())
}

/// Appends the class of the register that is the clock of a net, if one is.
fn append_clock(
    row: &mut Vec<u32>,
    parts: &Parts,
    ends: &[ClockEnd],
    net: Option<u32>,
) -> Result<(), AllocError>
    ghost fabric: { Fabric }
    requires parts { ArePartsOf fabric parts.now }
    requires ends { AreEndsOf fabric ends.now }
    requires net { (other : ℕ) → has (option_to_list net) other ≡ true → other < fabric.nets }
    ensures { OnOk result (row.new.items ≡ row.old.items ++ clock_classes fabric (option_to_list net)) }
{
    match clock_class(parts, ends, net) {
        None => Ok(()),
        Some(class) => {
            row.push(class)?;
            Ok(())
        }
    }
}

/// The clock net of the register that an input reads, if it reads a register with a clock.
fn signal_clock(parts: &Parts, source: Signal) -> Option<u32>
    ghost fabric: { Fabric }
    requires { ArePartsOf fabric parts.now }
    ensures { option_to_list result ≡ signal_clocks fabric source }
{
    match source {
        Signal::Register(place) => match parts.registers.get(place as usize) {
            None => None,
            Some(register) => register.clk,
        },
        Signal::Net { .. } | Signal::Input(_) => None,
    }
}

/// The clock net of the read port of the RAM with that index, if the port has a clock.
fn read_clock(parts: &Parts, ram: u32) -> Option<u32>
    ghost fabric: { Fabric }
    requires { ArePartsOf fabric parts.now }
    ensures { option_to_list result ≡ read_clock (slice_get fabric.rams ram) }
{
    match parts.rams.get(ram as usize) {
        None => None,
        Some(ram) => ram.rclk,
    }
}
