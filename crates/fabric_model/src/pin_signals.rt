// What pins drive their pads with, their pads, when they drive them, and where their registers are.
ghost use Rattle.std.specs.Prelude.{◌≡◌, ◌+◌, ◌++◌, map, length, position, unwrap_or, IfOk, OnOk};
ghost use Rattle.fabric_model.specs.PinTypes.{takes_by_register, has_register, is_double, is_by_register};
ghost use Rattle.fabric_model.specs.Tiles.{item_if};
ghost use Rattle.fabric_model.specs.InputPorts.{input_place, pll_place};
ghost use Rattle.fabric_model.specs.Registers.{registers_in, pin_keys, key_in, kind_number, is_same_key, register_in, data_signal, pad_signal, enable_signal};
ghost use Rattle.fabric_model.specs.PinKeys.{key_of, input_registers_in, output_registers_in};

use crate::input_port::InputPort;
use crate::input_ports::{input_place, inputs, output_place};
use crate::on::place_of;
use crate::pin::{PadData, PadDrive, PadInput, Pin};
use crate::pll::{PllOutput, PllSource};
use crate::register::PinRegister;
use crate::signal::{Signal, net_or_0, net_or_1};
use std::alloc::{AllocError, Global};
use std::marker::Model;

// ---- the registers of a pin

/// Whether `D_IN_0` takes the pad by a register.
fn takes_by_register(takes: PadInput) -> bool
    ensures { result ≡ takes_by_register takes }
{
    matches!(takes, PadInput::Registered)
}

/// Whether what a pin drives its pad with is made of registers.
fn has_register(sends: PadData) -> bool
    ensures { result ≡ has_register sends }
{
    match sends {
        PadData::Plain => false,
        PadData::Registered | PadData::Inverted | PadData::Double => true,
    }
}

/// Whether it is made of two registers in turn.
fn is_double(sends: PadData) -> bool
    ensures { result ≡ is_double sends }
{
    matches!(sends, PadData::Double)
}

/// Whether a pin drives its pad if a register is 1.
fn is_by_register(drive: PadDrive) -> bool
    ensures { result ≡ is_by_register drive }
{
    matches!(drive, PadDrive::ByRegister)
}

/// Appends a register if it is there.
fn append_if(
    registers: &mut Vec<PinRegister>,
    is_there: bool,
    register: PinRegister,
) -> Result<(), AllocError>
    ensures { OnOk result (registers.new.items ≡ registers.old.items ++ item_if is_there register) }
{
    if is_there {
        registers.push(register)?;
    }
    Ok(())
}

/// Appends the registers of the inputs of a pin.
fn append_of_inputs(registers: &mut Vec<PinRegister>, pin: Pin) -> Result<(), AllocError>
    ensures { OnOk result (registers.new.items ≡ registers.old.items ++ input_registers_in pin) }
{
    let first = pin.reads_0 && takes_by_register(pin.takes);
    append_if(registers, first, PinRegister::Input)?;
    append_if(registers, pin.reads_1, PinRegister::SecondInput)?;
    append_if(registers, pin.reads_1, PinRegister::InputClockEnable)
}

/// Appends the registers of the outputs of a pin.
fn append_of_outputs(registers: &mut Vec<PinRegister>, pin: Pin) -> Result<(), AllocError>
    ensures { OnOk result (registers.new.items ≡ registers.old.items ++ output_registers_in pin) }
{
    let first = pin.drives() && has_register(pin.sends);
    let second = pin.drives() && is_double(pin.sends);
    append_if(registers, first, PinRegister::Output)?;
    append_if(registers, second, PinRegister::SecondOutput)?;
    append_if(registers, second, PinRegister::OutputClockEnable)?;
    append_if(
        registers,
        is_by_register(pin.drive),
        PinRegister::OutputEnable,
    )
}

/// The registers of a pin, in their order.
///
/// # Errors
/// `AllocError` if memory is out, and for no other cause.
pub fn registers_in(alloc: Global, pin: Pin) -> Result<Vec<PinRegister>, AllocError>
    ensures { IfOk result (λ registers. registers.items ≡ registers_in pin) }
{
    let mut registers = Vec::new(alloc);
    append_of_inputs(&mut registers, pin)?;
    append_of_outputs(&mut registers, pin)?;
    Ok(registers)
}

// ---- the registers of pins

/// A register of pin `n` of the io tile at (x, y).
#[derive(Clone, Copy, Debug, PartialEq, Eq)]
struct PinKey {
    x: u8,
    y: u8,
    n: u8,
    register: PinRegister,
}

/// The register of a pin as a key.
fn key_in(pin: Pin, register: PinRegister) -> PinKey
    ensures { key_of result ≡ key_in pin register }
{
    PinKey {
        x: pin.x,
        y: pin.y,
        n: pin.n,
        register,
    }
}

/// The kind of a register as a number.
fn kind_number(register: PinRegister) -> u8
    ensures { result ≡ kind_number register }
{
    match register {
        PinRegister::Input => 0,
        PinRegister::SecondInput => 1,
        PinRegister::InputClockEnable => 2,
        PinRegister::Output => 3,
        PinRegister::SecondOutput => 4,
        PinRegister::OutputClockEnable => 5,
        PinRegister::OutputEnable => 6,
    }
}

/// Whether two keys are the same.
fn is_same_key(key: PinKey, other: PinKey) -> bool
    ensures { result ≡ is_same_key (key_of key) (key_of other) }
{
    (key.x == other.x && (key.y == other.y && key.n == other.n))
        && kind_number(key.register) == kind_number(other.register)
}

/// Appends the keys of the registers of a pin.
fn append_keys(keys: &mut Vec<PinKey>, alloc: Global, pin: Pin) -> Result<(), AllocError>
    ensures { OnOk result (map key_of keys.new.items ≡ map key_of keys.old.items ++ map (key_in pin) (registers_in pin)) }
{
    let registers = registers_in(alloc, pin)?;
    for register in &registers {
        keys.push(key_in(pin, *register))?;
    }
    Ok(())
}

/// The keys of the registers of pins, by pin.
fn pin_keys(alloc: Global, pins: &[Pin]) -> Result<Vec<PinKey>, AllocError>
    ensures { IfOk result (λ keys. map key_of keys.items ≡ pin_keys pins.now) }
{
    let mut keys = Vec::new(alloc);
    for pin in pins {
        append_keys(&mut keys, alloc, *pin)?;
    }
    Ok(keys)
}

/// The index of a key, or `None` if it isn't one of them.
fn place_in(keys: &[PinKey], key: PinKey) -> Option<usize>
    ensures { result ≡ position (λ other. is_same_key (key_of key) (key_of other)) keys.now }
{
    keys.iter().position(|other| is_same_key(key, *other))
}

/// The index of a key, or the number of keys if it isn't one of them.
fn key_place(keys: &[PinKey], key: PinKey) -> usize
    ensures { result ≡ unwrap_or (position (λ other. is_same_key (key_of key) (key_of other)) keys.now) (length keys.now) }
{
    place_in(keys, key).unwrap_or(keys.len())
}

/// An index that is that far after another, as it is kept.
///
/// # Errors
/// `AllocError` if it needs more than 32 bits.
fn index_after(first: usize, place: usize) -> Result<u32, AllocError>
    ensures { IfOk result (λ index. index ≡ first + place) }
{
    place_of(first.checked_add(place).ok_or(AllocError)?)
}

// ---- signals

/// What the signals of pins and PLLs are found by. Contracts see the number of flip-flops, which come before the registers of pins, the pins,
/// and the outputs of PLLs that are input ports.
#[derive(Drop)]
pub struct PinSignals<'a> {
    flips: usize,
    pins: &'a [Pin],
    plls: &'a [PllSource],
    /// The input ports of the pins.
    inputs: Vec<InputPort>,
    /// The registers of the pins.
    keys: Vec<PinKey>,
}

impl<'a> Model for PinSignals<'a> {
    ghost use Rattle.std.specs.Prelude.{map};
    ghost use Rattle.fabric_model.specs.PinKeys.{SignalsOf, AreSignals, key_of};

    ghost Value = { SignalsOf };

    ghost view = { λ signals. record { flips = signals.flips; pins = signals.pins.now; plls = signals.plls.now } };

    ghost invariant = { λ signals. AreSignals signals.pins.now signals.inputs.items (map key_of signals.keys.items) };
}

impl<'a> PinSignals<'a> {
    /// What the signals of these pins and PLLs are found by. `flips` is the number of flip-flops.
    ///
    /// # Errors
    /// `AllocError` if memory is out, and for no other cause.
    pub fn new(
        alloc: Global,
        flips: usize,
        pins: &'a [Pin],
        plls: &'a [PllSource],
    ) -> Result<PinSignals<'a>, AllocError>
        ensures flips { IfOk result (λ signals. signals.flips ≡ flips) }
        ensures pins { IfOk result (λ signals. signals.pins ≡ pins.now) }
        ensures plls { IfOk result (λ signals. signals.plls ≡ plls.now) }
    {
        let inputs = inputs(alloc, pins)?;
        let keys = pin_keys(alloc, pins)?;
        Ok(PinSignals {
            flips,
            pins,
            plls,
            inputs,
            keys,
        })
    }

    /// A register of a pin.
    ///
    /// # Errors
    /// `AllocError` if its index needs more than 32 bits.
    pub fn register_in(&self, pin: Pin, register: PinRegister) -> Result<Signal, AllocError>
        ensures { IfOk result (λ signal. signal ≡ register_in self.now.flips self.now.pins pin register) }
    {
        let place = key_place(&self.keys, key_in(pin, register));
        Ok(Signal::Register(index_after(self.flips, place)?))
    }

    /// What a pin drives its pad with.
    ///
    /// # Errors
    /// `AllocError` if an index needs more than 32 bits.
    pub fn data_signal(&self, pin: Pin) -> Result<Signal, AllocError>
        ensures { IfOk result (λ signal. signal ≡ data_signal self.now.flips self.now.pins pin) }
    {
        match pin.sends {
            PadData::Plain => Ok(net_or_0(pin.dout_0)),
            PadData::Registered => self.register_in(pin, PinRegister::Output),
            PadData::Inverted | PadData::Double => Ok(net_or_0(pin.data_net)),
        }
    }

    /// The index of an input port among those of the pins.
    ///
    /// # Errors
    /// `AllocError` if it needs more than 32 bits.
    pub fn input_place(&self, port: InputPort) -> Result<u32, AllocError>
        ensures { IfOk result (λ place. place ≡ input_place self.now.pins port) }
    {
        place_of(input_place(&self.inputs, port))
    }

    /// The index of an output of a PLL among all input ports.
    ///
    /// # Errors
    /// `AllocError` if it needs more than 32 bits.
    pub fn pll_place(&self, x: u32, y: u32, output: PllOutput) -> Result<u32, AllocError>
        ensures { IfOk result (λ place. place ≡ pll_place self.now.pins self.now.plls x y output) }
    {
        index_after(self.inputs.len(), output_place(self.plls, x, y, output))
    }

    /// The pad of a pin.
    ///
    /// # Errors
    /// `AllocError` if an index needs more than 32 bits.
    pub fn pad_signal(&self, pin: Pin) -> Result<Signal, AllocError>
        ensures { IfOk result (λ signal. signal ≡ pad_signal self.now.flips self.now.pins pin) }
    {
        match pin.drive {
            PadDrive::Never => {
                let (x, y, n) = (pin.x, pin.y, pin.n);
                Ok(Signal::Input(self.input_place(InputPort::Pad { x, y, n })?))
            }
            PadDrive::Always => self.data_signal(pin),
            PadDrive::ByNet | PadDrive::ByRegister => Ok(net_or_0(pin.pad_net)),
        }
    }

    /// When a pin that drives its pad at times does.
    ///
    /// # Errors
    /// `AllocError` if an index needs more than 32 bits.
    pub fn enable_signal(&self, pin: Pin) -> Result<Signal, AllocError>
        ensures { IfOk result (λ signal. signal ≡ enable_signal self.now.flips self.now.pins pin) }
    {
        if is_by_register(pin.drive) {
            self.register_in(pin, PinRegister::OutputEnable)
        } else {
            Ok(net_or_1(pin.enable))
        }
    }
}
