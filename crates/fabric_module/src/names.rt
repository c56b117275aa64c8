// The names of a module that is written for a design.
ghost use Rattle.std.specs.Prelude.{◌≡◌, ◌≤◌, ◌+◌, ◌++◌, length, IfOk};
ghost use Rattle.fabric_module.specs.Names.{two_numbers, three_numbers, pad_name, port_name, enable_name, outside_name, output_word, pll_name, input_port_name, pin_prefix, register_prefix, register_number, register_name, read_name, memory_name, wire_name};

use fabric_model::{
    InputPort, Pin, PinRegister, PllOutput, RamCell, Register, RegisterKind, ShortText,
};
use std::alloc::{AllocError, Global};
use vlog_module::Name;

/// The name of the port of pin `n` of the tile at (x, y): `io_X_Y_N`.
#[tactic(auto, unfolding(crate::specs::Names::pad_name))]
fn pad_name(alloc: Global, x: u8, y: u8, n: u8) -> Result<Name, AllocError>
    ensures { IfOk result (λ name. name ≡ pad_name x y n) }
{
    let text = three_numbers(b"io_", x, y, n);
    Name::new(alloc, text.bytes())
}

/// The name of the port of a pin that is an output: `io_X_Y_N`.
///
/// # Errors
/// `AllocError` if memory is out, and for no other cause.
pub fn port_name(alloc: Global, pin: &Pin) -> Result<Name, AllocError>
    ensures { IfOk result (λ name. name ≡ port_name pin.now) }
{
    pad_name(alloc, pin.x, pin.y, pin.n)
}

/// The name of the port that is the output enable of a pin: `io_X_Y_N_en`.
///
/// # Errors
/// `AllocError` if memory is out, and for no other cause.
#[tactic(auto, unfolding(crate::specs::Names::enable_name, crate::specs::Names::pad_name))]
pub fn enable_name(alloc: Global, pin: &Pin) -> Result<Name, AllocError>
    ensures { IfOk result (λ name. name ≡ enable_name pin.now) }
{
    let (x, y, n) = (pin.x, pin.y, pin.n);
    let mut text = three_numbers(b"io_", x, y, n);
    text.push(b"_en");
    Name::new(alloc, text.bytes())
}

/// The name of the port at which a pin gets what the outside puts on its pad: `io_X_Y_N_in`.
#[tactic(auto, unfolding(crate::specs::Names::outside_name, crate::specs::Names::pad_name))]
fn outside_name(alloc: Global, x: u8, y: u8, n: u8) -> Result<Name, AllocError>
    ensures { IfOk result (λ name. name ≡ outside_name x y n) }
{
    let mut text = three_numbers(b"io_", x, y, n);
    text.push(b"_in");
    Name::new(alloc, text.bytes())
}

/// The last part of the name of an output of a PLL.
fn output_word(output: PllOutput) -> &'static [u8]
    ensures word { result.now ≡ output_word output }
    ensures short { length result.now ≤ 4 }
{
    match output {
        PllOutput::A => b"a",
        PllOutput::B => b"b",
        PllOutput::Lock => b"lock",
        PllOutput::Sdo => b"sdo",
    }
}

/// The name of the port of an output of the PLL at (x, y): `pll_X_Y_a`, `pll_X_Y_b`, `pll_X_Y_lock` or `pll_X_Y_sdo`.
#[tactic(auto, unfolding(crate::specs::Names::pll_name))]
fn pll_name(alloc: Global, x: u32, y: u32, output: PllOutput) -> Result<Name, AllocError>
    ensures { IfOk result (λ name. name ≡ pll_name x y output) }
{
    let mut text = ShortText::of(b"pll_");
    text.push_number(x);
    text.push(b"_");
    text.push_number(y);
    text.push(b"_");
    text.push(output_word(output));
    Name::new(alloc, text.bytes())
}

/// The name of an input port: `io_X_Y_N`, `io_X_Y_N_in` for what the outside puts on the pad of a pin that drives it at times, or that of an
/// output of a PLL.
///
/// # Errors
/// `AllocError` if memory is out, and for no other cause.
pub fn input_port_name(alloc: Global, port: &InputPort) -> Result<Name, AllocError>
    ensures { IfOk result (λ name. name ≡ input_port_name port.now) }
{
    match *port {
        InputPort::Pad { x, y, n } => pad_name(alloc, x, y, n),
        InputPort::Outside { x, y, n } => outside_name(alloc, x, y, n),
        InputPort::Pll { x, y, output } => pll_name(alloc, x, y, output),
    }
}

/// The name of a register: `ff_X_Y_I` for a cell; for a pin `pi_X_Y_N`, `pj_X_Y_N`, `ci_X_Y_N`, `po_X_Y_N`, `pq_X_Y_N`, `co_X_Y_N` or
/// `pe_X_Y_N`, by what it is.
///
/// # Errors
/// `AllocError` if memory is out, and for no other cause.
#[tactic(auto, unfolding(crate::specs::Names::register_name))]
pub fn register_name(alloc: Global, register: &Register) -> Result<Name, AllocError>
    ensures { IfOk result (λ name. name ≡ register_name register.now) }
{
    let (x, y, n) = (register.x, register.y, register_number(register.kind));
    let text = three_numbers(register_prefix(register.kind), x, y, n);
    Name::new(alloc, text.bytes())
}

/// The beginning of a register's name.
fn register_prefix(kind: RegisterKind) -> &'static [u8]
    ensures { result.now ≡ register_prefix kind }
{
    match kind {
        RegisterKind::FlipFlop { .. } => b"ff_",
        RegisterKind::OfPin { register, .. } => pin_prefix(register),
    }
}

/// The beginning of the name of a register of a pin.
fn pin_prefix(register: PinRegister) -> &'static [u8]
    ensures { result.now ≡ pin_prefix register }
{
    match register {
        PinRegister::Input => b"pi_",
        PinRegister::SecondInput => b"pj_",
        PinRegister::InputClockEnable => b"ci_",
        PinRegister::Output => b"po_",
        PinRegister::SecondOutput => b"pq_",
        PinRegister::OutputClockEnable => b"co_",
        PinRegister::OutputEnable => b"pe_",
    }
}

/// The number of a register in its tile.
fn register_number(kind: RegisterKind) -> u8
    ensures { result ≡ register_number kind }
{
    match kind {
        RegisterKind::FlipFlop { i } => i,
        RegisterKind::OfPin { n, .. } => n,
    }
}

/// The name of the read register of a RAM: `rd_X_Y`.
///
/// # Errors
/// `AllocError` if memory is out, and for no other cause.
#[tactic(auto, unfolding(crate::specs::Names::read_name))]
pub fn read_name(alloc: Global, ram: &RamCell) -> Result<Name, AllocError>
    ensures { IfOk result (λ name. name ≡ read_name ram.now) }
{
    let (x, y) = (ram.x, ram.y);
    let text = two_numbers(b"rd_", x, y);
    Name::new(alloc, text.bytes())
}

/// The name of the memory of a RAM: `mem_X_Y`.
///
/// # Errors
/// `AllocError` if memory is out, and for no other cause.
#[tactic(auto, unfolding(crate::specs::Names::memory_name))]
pub fn memory_name(alloc: Global, ram: &RamCell) -> Result<Name, AllocError>
    ensures { IfOk result (λ name. name ≡ memory_name ram.now) }
{
    let (x, y) = (ram.x, ram.y);
    let text = two_numbers(b"mem_", x, y);
    Name::new(alloc, text.bytes())
}

/// The name of the wire of a class of joined nets: `n_K`.
///
/// # Errors
/// `AllocError` if memory is out, and for no other cause.
#[tactic(auto, unfolding(crate::specs::Names::wire_name))]
pub fn wire_name(alloc: Global, class: u32) -> Result<Name, AllocError>
    ensures { IfOk result (λ name. name ≡ wire_name class) }
{
    let mut text = ShortText::of(b"n_");
    text.push_number(class);
    Name::new(alloc, text.bytes())
}

/// Two numbers after a short text.
#[tactic(auto, unfolding(crate::specs::Names::two_numbers))]
fn two_numbers(before: &[u8], x: u8, y: u8) -> ShortText
    requires { length before.now ≤ 4 }
    ensures { result ≡ before.now ++ two_numbers x y }
{
    let mut text = ShortText::of(before);
    text.push_small(x);
    text.push(b"_");
    text.push_small(y);
    text
}

/// Three numbers after a short text.
#[tactic(auto, unfolding(crate::specs::Names::three_numbers))]
fn three_numbers(before: &[u8], x: u8, y: u8, n: u8) -> ShortText
    requires { length before.now ≤ 4 }
    ensures text { result ≡ before.now ++ three_numbers x y n }
    ensures short { length result ≤ length before.now + 11 }
{
    let mut text = ShortText::of(before);
    text.push_small(x);
    text.push(b"_");
    text.push_small(y);
    text.push(b"_");
    text.push_small(n);
    text
}
