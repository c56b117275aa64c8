// The right-hand sides of wires.
ghost use Rattle.std.specs.Prelude.{◌≡◌, ◌<◌, length, IfOk};
ghost use Rattle.fabric_model.specs.Within.{IsNetIn};
ghost use Rattle.fabric_wiring.specs.Drives.{rule_of};
ghost use Rattle.fabric.specs.Design.{IsDesign};
ghost use Rattle.fabric_module.specs.Names.{register_name};
ghost use Rattle.fabric_module.specs.Rights.{atom_or_0, signal_atom, read_at, setting_wire, register_right, right_alone, right_of, class_right};
ghost use Rattle.vlog_emit.specs.Each.{EachFabric, IsSignalIn, IsRuleIn, nets_in};

use crate::atoms::{input_atom, input_name, lut_of, setting_wire, signal_atom};
use fabric::Design;
use fabric_model::{Register, Signal, net_or_0};
use fabric_module::{read_name, register_name};
use fabric_wiring::Rule;
use std::alloc::{AllocError, Global};
use vlog_module::{Atom, Name, Right};

/// The name of the read register of the used RAM with an index.
fn read_at(alloc: Global, design: &Design, ram: usize) -> Result<Name, AllocError>
    requires { ram < length design.now.parts.rams.items }
    ensures { IfOk result (λ name. EachFabric design.now (λ fabric. name ≡ read_at fabric ram)) }
{
    let rams = design.rams();
    read_name(alloc, &rams[ram])
}

/// An atom as a right-hand side.
fn right_alone(atom: Atom) -> Right
    ensures { result ≡ right_alone atom }
{
    match atom {
        Atom::Bit(bit) => Right::Bit(bit),
        Atom::Whole(name) => Right::Whole(name),
        Atom::Part { name, k } => Right::Part { name, k },
    }
}

/// The value of what an input reads.
fn right_of_signal(alloc: Global, design: &Design, source: Signal) -> Result<Right, AllocError>
    requires { IsSignalIn design.now source }
    ensures { IfOk result (λ right. EachFabric design.now (λ fabric. right ≡ right_alone (signal_atom fabric source))) }
{
    let atom = signal_atom(alloc, design, source)?;
    Ok(right_alone(atom))
}

/// The majority of three inputs.
fn right_of_majority(
    alloc: Global,
    design: &Design,
    a: Option<u32>,
    b: Option<u32>,
    c: Option<u32>,
) -> Result<Right, AllocError>
    requires a { IsNetIn (nets_in design.now) a }
    requires b { IsNetIn (nets_in design.now) b }
    requires c { IsNetIn (nets_in design.now) c }
    ensures { IfOk result (λ right. EachFabric design.now (λ fabric. right ≡ Right.Majority (atom_or_0 fabric a) (atom_or_0 fabric b) (atom_or_0 fabric c))) }
{
    let a = input_atom(alloc, design, false, a)?;
    let b = input_atom(alloc, design, false, b)?;
    let c = input_atom(alloc, design, false, c)?;
    Ok(Right::Majority { a, b, c })
}

/// The value of a register, which may have a wire that is its asynchronous set or reset.
fn right_of_register(
    alloc: Global,
    design: &Design,
    register: &Register,
) -> Result<Right, AllocError>
    requires { IsNetIn (nets_in design.now) register.now.sr }
    ensures { IfOk result (λ right. EachFabric design.now (λ fabric. right ≡ register_right register.now (setting_wire fabric register.now))) }
{
    let wire = setting_wire(alloc, design, register)?;
    let target = register_name(alloc, register)?;
    Ok(register_right(register, wire, target))
}

/// The value of the register `target`: while `wire` sets or resets it asynchronously, it is the set bit, else what the register holds.
fn register_right(register: &Register, wire: Option<Name>, target: Name) -> Right
    requires { target ≡ register_name register.now }
    ensures { result ≡ register_right register.now wire }
{
    match wire {
        Some(reset) => Right::Choose {
            reset,
            set: register.set,
            target,
        },
        None => Right::Whole(target),
    }
}

/// The right-hand side that has the value of a driver.
#[tactic(auto, unfolding(fabric_module::specs::Rights::right_of))]
fn right_of(alloc: Global, design: &Design, rule: Rule) -> Result<Right, AllocError>
    requires { IsRuleIn design.now rule }
    ensures { IfOk result (λ right. EachFabric design.now (λ fabric. right ≡ right_of fabric (rule_of rule))) }
{
    match rule {
        Rule::PinBit(place) => Ok(Right::Whole(input_name(alloc, design, place as usize)?)),
        Rule::Constant(bit) => Ok(Right::Bit(bit)),
        Rule::Input(source) => right_of_signal(alloc, design, source),
        Rule::TableEntry(table) => Ok(Right::Lut(lut_of(alloc, design, &table)?)),
        Rule::MajorityOf(a, b, c) => right_of_majority(alloc, design, a, b, c),
        Rule::RegisterBit { register, .. } => right_of_register(alloc, design, &register),
        Rule::ReadBit { ram, bit } => Ok(Right::Part {
            name: read_at(alloc, design, ram as usize)?,
            k: bit,
        }),
        Rule::Copied(net) => right_of_signal(alloc, design, net_or_0(Some(net))),
    }
}

/// The right-hand side of the wire of a class of joined nets.
pub(crate) fn class_right(alloc: Global, design: &Design, class: u32) -> Result<Right, AllocError>
    requires design { IsDesign design.now }
    requires within { class < nets_in design.now }
    ensures { IfOk result (λ right. EachFabric design.now (λ fabric. right ≡ class_right fabric class)) }
{
    match design.drive(class) {
        None => Ok(Right::Bit(false)),
        Some(drive) => right_of(alloc, design, drive.rule),
    }
}
