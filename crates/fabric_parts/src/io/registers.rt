// Registers of pins.
ghost use Rattle.std.specs.Prelude.{◌≡◌, ◌++◌, not, map, flat_map, IfOk, OnOk, if◌then◌else◌};
ghost use Rattle.fabric_model.specs.Registers.{registers_in, is_of_inputs, is_at_other_edge, driven_net, clock_enable, taken_by, table_as, pin_register, pin_registers_of};

use fabric_model::{
    LutTable, Pin, PinRegister, PinSignals, Register, RegisterKind, Signal, net_or_0, net_or_1,
    registers_in,
};
use std::alloc::{AllocError, Global};

/// The entries of the LUT whose value is that of its input in_0.
const SAME: u16 = 0xAAAA;

/// The registers of pins, by pin. `flips` is the number of flip-flops of cells, which come before them.
///
/// # Errors
/// `AllocError` if memory is out, or if there are so many registers or input ports that an index needs more than 32 bits.
pub fn pin_registers(alloc: Global, flips: usize, pins: &[Pin]) -> Result<Vec<Register>, AllocError>
    ensures { IfOk result (λ registers. registers.items ≡ pin_registers_of flips pins.now) }
{
    let signals = PinSignals::new(alloc, flips, pins, &[])?;
    registers(alloc, &signals, pins)
}

/// The registers of these pins.
fn registers(
    alloc: Global,
    signals: &PinSignals<'_>,
    pins: &[Pin],
) -> Result<Vec<Register>, AllocError>
    ensures { IfOk result (λ registers. registers.items ≡ flat_map (λ pin. map (pin_register signals.now.flips signals.now.pins pin) (registers_in pin)) pins.now) }
{
    let mut registers = Vec::new(alloc);
    for pin in pins {
        append_registers(&mut registers, alloc, signals, *pin)?;
    }
    Ok(registers)
}

/// Appends the registers of a pin.
fn append_registers(
    registers: &mut Vec<Register>,
    alloc: Global,
    signals: &PinSignals<'_>,
    pin: Pin,
) -> Result<(), AllocError>
    ensures { OnOk result (registers.new.items ≡ registers.old.items ++ map (pin_register signals.now.flips signals.now.pins pin) (registers_in pin)) }
{
    let of_pin = registers_in(alloc, pin)?;
    for register in &of_pin {
        registers.push(pin_register(signals, pin, *register)?)?;
    }
    Ok(())
}

/// A register of a pin.
#[tactic(auto, unfolding(fabric_model::specs::Registers::pin_register))]
fn pin_register(
    signals: &PinSignals<'_>,
    pin: Pin,
    register: PinRegister,
) -> Result<Register, AllocError>
    ensures { IfOk result (λ made. made ≡ pin_register signals.now.flips signals.now.pins pin register) }
{
    let enable = clock_enable(signals, pin, register)?;
    let taken = taken_by(signals, pin, register)?;
    Ok(Register {
        x: pin.x,
        y: pin.y,
        kind: RegisterKind::OfPin { n: pin.n, register },
        out: driven_net(pin, register),
        clk: clock(pin, register),
        neg: is_falling(pin, register),
        enable,
        sr: None,
        set: false,
        is_async: false,
        table: table_as(taken),
    })
}

/// The net of the clock of a register.
fn clock(pin: Pin, register: PinRegister) -> Option<u32>
    ensures { result ≡ (if is_of_inputs register then pin.inclk else pin.outclk) }
{
    if register.is_of_inputs() {
        pin.inclk
    } else {
        pin.outclk
    }
}

/// Whether a register takes its value at the other edge of the clock.
fn is_at_other_edge(register: PinRegister) -> bool
    ensures { result ≡ is_at_other_edge register }
{
    match register {
        PinRegister::SecondInput | PinRegister::SecondOutput => true,
        PinRegister::Input
        | PinRegister::InputClockEnable
        | PinRegister::Output
        | PinRegister::OutputClockEnable
        | PinRegister::OutputEnable => false,
    }
}

/// Whether a register takes its value at falling clock edges.
fn is_falling(pin: Pin, register: PinRegister) -> bool
    ensures { result ≡ (if is_at_other_edge register then not pin.neg else pin.neg) }
{
    if is_at_other_edge(register) {
        !pin.neg
    } else {
        pin.neg
    }
}

/// The net that a register drives.
fn driven_net(pin: Pin, register: PinRegister) -> Option<u32>
    ensures { result ≡ driven_net pin register }
{
    match register {
        PinRegister::Input => pin.din_0,
        PinRegister::SecondInput => pin.din_1,
        PinRegister::InputClockEnable
        | PinRegister::Output
        | PinRegister::SecondOutput
        | PinRegister::OutputClockEnable
        | PinRegister::OutputEnable => None,
    }
}

/// The clock enable of a register.
fn clock_enable(
    signals: &PinSignals<'_>,
    pin: Pin,
    register: PinRegister,
) -> Result<Signal, AllocError>
    ensures { IfOk result (λ signal. signal ≡ clock_enable signals.now.flips signals.now.pins pin register) }
{
    match register {
        PinRegister::SecondInput => signals.register_in(pin, PinRegister::InputClockEnable),
        PinRegister::SecondOutput => signals.register_in(pin, PinRegister::OutputClockEnable),
        PinRegister::InputClockEnable | PinRegister::OutputClockEnable => Ok(net_or_1(None)),
        PinRegister::Input | PinRegister::Output | PinRegister::OutputEnable => {
            Ok(net_or_1(pin.cen))
        }
    }
}

/// What a register becomes.
fn taken_by(signals: &PinSignals<'_>, pin: Pin, register: PinRegister) -> Result<Signal, AllocError>
    ensures { IfOk result (λ signal. signal ≡ taken_by signals.now.flips signals.now.pins pin register) }
{
    match register {
        PinRegister::Input | PinRegister::SecondInput => signals.pad_signal(pin),
        PinRegister::InputClockEnable | PinRegister::OutputClockEnable => Ok(net_or_1(pin.cen)),
        PinRegister::Output => Ok(net_or_0(pin.dout_0)),
        PinRegister::SecondOutput => Ok(net_or_0(pin.dout_1)),
        PinRegister::OutputEnable => Ok(net_or_1(pin.enable)),
    }
}

/// The LUT whose value is that of its input in_0.
fn table_as(source: Signal) -> LutTable
    ensures { result ≡ table_as source }
{
    LutTable {
        word: SAME,
        ins: [source, net_or_0(None), net_or_0(None), net_or_0(None)],
    }
}
