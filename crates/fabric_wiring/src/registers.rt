// Registers, and what they drive.
ghost use Rattle.std.specs.Prelude.{◌≡◌, ◌++◌, length, map, filter, flat_map, IfOk, OnOk, Some};
ghost use Rattle.fabric_model.specs.Fabric.{numbered};
ghost use Rattle.fabric_model.specs.Registers.{table_of, register_of, registers_of};
ghost use Rattle.fabric_model.specs.Drivers.{drives_by, flip_drives, input_drives, second_drives};
ghost use Rattle.fabric_wiring.specs.Drives.{drive_of};

use crate::drive::{Drive, Rule};
use crate::push::push_if;
use fabric_model::{
    Driver, LogicCell, LutInputs, LutTable, PinRegister, Register, RegisterKind, inputs_read,
    net_or_0, net_or_1, place_of,
};
use std::alloc::{AllocError, Global};

/// The LUT of a cell, with the inputs that it reads.
pub(crate) fn table_of(inputs: LutInputs, lc: &LogicCell) -> LutTable
    ensures { result ≡ table_of inputs lc.now }
{
    let ins = inputs_read(inputs, lc.lut, &lc.ins);
    LutTable {
        word: lc.lut,
        ins: [
            net_or_0(ins[0]),
            net_or_0(ins[1]),
            net_or_0(ins[2]),
            net_or_0(ins[3]),
        ],
    }
}

/// The flip-flop of a cell.
#[tactic(auto, unfolding(fabric_model::specs::Registers::register_of))]
fn register_of(inputs: LutInputs, lc: &LogicCell) -> Register
    ensures { result ≡ register_of inputs lc.now }
{
    Register {
        x: lc.x,
        y: lc.y,
        kind: RegisterKind::FlipFlop { i: lc.i },
        out: lc.out,
        clk: lc.clk,
        neg: lc.neg,
        enable: net_or_1(lc.cen),
        sr: lc.sr,
        set: lc.set,
        is_async: lc.is_async,
        table: table_of(inputs, lc),
    }
}

/// The registers of cells whose LUTs read these inputs: the flip-flops, in the order of the cells.
///
/// # Errors
/// `AllocError` if memory is out, and for no other cause.
#[tactic(auto, unfolding(fabric_model::specs::Registers::registers_of))]
pub fn registers_of(
    alloc: Global,
    inputs: LutInputs,
    lcs: &[LogicCell],
) -> Result<Vec<Register>, AllocError>
    ensures { IfOk result (λ registers. registers.items ≡ registers_of inputs lcs.now) }
{
    let mut registers = Vec::new(alloc);
    for lc in lcs {
        if lc.flip {
            registers.push(register_of(inputs, lc))?;
        }
    }
    Ok(registers)
}

/// The number of cells with a flip-flop.
pub(crate) fn flip_count(lcs: &[LogicCell]) -> usize
    ensures { result ≡ length (filter (λ lc. lc.flip) lcs.now) }
{
    lcs.iter().filter(|lc| lc.flip).count()
}

/// Appends what a register drives, given its index among the registers and which driver it is.
fn append_register(
    drives: &mut Vec<Drive>,
    driver: Driver,
    place: u32,
    register: &Register,
) -> Result<(), AllocError>
    ensures { OnOk result (map drive_of drives.new.items ≡ map drive_of drives.old.items ++ drives_by (place, register.now) (Some driver)) }
{
    let rule = Rule::RegisterBit {
        place,
        register: *register,
    };
    push_if(drives, driver, rule, register.out)
}

/// Appends what a register drives if it is the flip-flop of a cell.
fn append_flip(drives: &mut Vec<Drive>, place: u32, register: &Register) -> Result<(), AllocError>
    ensures { OnOk result (map drive_of drives.new.items ≡ map drive_of drives.old.items ++ flip_drives (place, register.now)) }
{
    let (x, y) = (register.x, register.y);
    match register.kind {
        RegisterKind::FlipFlop { i } => {
            append_register(drives, Driver::FlipFlop { x, y, i }, place, register)
        }
        RegisterKind::OfPin { .. } => Ok(()),
    }
}

/// Appends what flip-flops drive.
pub(crate) fn append_flips(
    drives: &mut Vec<Drive>,
    registers: &[Register],
) -> Result<(), AllocError>
    ensures { OnOk result (map drive_of drives.new.items ≡ map drive_of drives.old.items ++ flat_map flip_drives (numbered registers.now)) }
{
    for (i, register) in registers.iter().enumerate() {
        append_flip(drives, place_of(i)?, register)?;
    }
    Ok(())
}

/// Appends what a register drives if it is that of `io_n/D_IN_0`.
fn append_input(drives: &mut Vec<Drive>, place: u32, register: &Register) -> Result<(), AllocError>
    ensures { OnOk result (map drive_of drives.new.items ≡ map drive_of drives.old.items ++ input_drives (place, register.now)) }
{
    let (x, y) = (register.x, register.y);
    match register.kind {
        RegisterKind::OfPin {
            n,
            register: PinRegister::Input,
        } => append_register(drives, Driver::PinReg { x, y, n }, place, register),
        _ => Ok(()),
    }
}

/// Appends what registers of `io_n/D_IN_0` drive.
pub(crate) fn append_inputs(
    drives: &mut Vec<Drive>,
    registers: &[Register],
) -> Result<(), AllocError>
    ensures { OnOk result (map drive_of drives.new.items ≡ map drive_of drives.old.items ++ flat_map input_drives (numbered registers.now)) }
{
    for (i, register) in registers.iter().enumerate() {
        append_input(drives, place_of(i)?, register)?;
    }
    Ok(())
}

/// Appends what a register drives if it is that of `io_n/D_IN_1`.
fn append_second(drives: &mut Vec<Drive>, place: u32, register: &Register) -> Result<(), AllocError>
    ensures { OnOk result (map drive_of drives.new.items ≡ map drive_of drives.old.items ++ second_drives (place, register.now)) }
{
    let (x, y) = (register.x, register.y);
    match register.kind {
        RegisterKind::OfPin {
            n,
            register: PinRegister::SecondInput,
        } => append_register(drives, Driver::PinReg1 { x, y, n }, place, register),
        _ => Ok(()),
    }
}

/// Appends what registers of `io_n/D_IN_1` drive.
pub(crate) fn append_seconds(
    drives: &mut Vec<Drive>,
    registers: &[Register],
) -> Result<(), AllocError>
    ensures { OnOk result (map drive_of drives.new.items ≡ map drive_of drives.old.items ++ flat_map second_drives (numbered registers.now)) }
{
    for (i, register) in registers.iter().enumerate() {
        append_second(drives, place_of(i)?, register)?;
    }
    Ok(())
}
