// Input ports and their indexes.
ghost use Rattle.std.specs.Prelude.{◌≡◌, ◌++◌, length, map, position, unwrap_or, IfOk, OnOk};
ghost use Rattle.fabric_model.specs.Pins.{is_pad_read, has_input, has_outside};
ghost use Rattle.fabric_model.specs.InputPorts.{pin_inputs, inputs_among, inputs_with, pll_input, is_same_port, is_same_place, is_output_of};

use crate::input_port::InputPort;
use crate::pin::{PadInput, Pin};
use crate::pll::{PllOutput, PllSource};
use std::alloc::{AllocError, Global};

/// Whether the pad of a pin is read.
fn is_pad_read(pin: Pin) -> bool
    ensures { result ≡ is_pad_read pin }
{
    pin.reads_0 || pin.reads_1 || pin.is_global
}

/// Whether a pin is an input: it never drives its pad, and takes the pad as it is, or the pad is read.
pub fn has_input(pin: Pin) -> bool
    ensures { result ≡ has_input pin }
{
    !pin.drives() && (matches!(pin.takes, PadInput::Plain) || is_pad_read(pin))
}

/// Whether a pin drives its pad at times, and the pad is read.
pub fn has_outside(pin: Pin) -> bool
    ensures { result ≡ has_outside pin }
{
    pin.is_switched() && is_pad_read(pin)
}

/// Appends the input ports of a pin.
fn append_inputs(inputs: &mut Vec<InputPort>, pin: Pin) -> Result<(), AllocError>
    ensures { OnOk result (inputs.new.items ≡ inputs.old.items ++ pin_inputs pin) }
{
    let (x, y, n) = (pin.x, pin.y, pin.n);
    if has_input(pin) {
        inputs.push(InputPort::Pad { x, y, n })?;
    }
    if has_outside(pin) {
        inputs.push(InputPort::Outside { x, y, n })?;
    }
    Ok(())
}

/// The input ports of pins, in the order of the pins.
///
/// # Errors
/// `AllocError` if memory is out, and for no other cause.
pub fn inputs(alloc: Global, pins: &[Pin]) -> Result<Vec<InputPort>, AllocError>
    ensures { IfOk result (λ inputs. inputs.items ≡ inputs_among pins.now) }
{
    let mut inputs = Vec::new(alloc);
    for pin in pins {
        append_inputs(&mut inputs, *pin)?;
    }
    Ok(inputs)
}

/// The input port of an output of a PLL.
pub fn pll_input(port: PllSource) -> InputPort
    ensures { result ≡ pll_input port }
{
    InputPort::Pll {
        x: port.x,
        y: port.y,
        output: port.output,
    }
}

/// All input ports: those of pins, then those of PLLs.
///
/// # Errors
/// `AllocError` if memory is out, and for no other cause.
pub fn inputs_with(
    alloc: Global,
    pins: &[Pin],
    plls: &[PllSource],
) -> Result<Vec<InputPort>, AllocError>
    ensures { IfOk result (λ inputs. inputs.items ≡ inputs_with pins.now plls.now) }
{
    let mut inputs = inputs(alloc, pins)?;
    for port in plls {
        inputs.push(pll_input(*port))?;
    }
    Ok(inputs)
}

/// Whether a port is that output of the PLL at (x, y).
fn is_output_of(x: u32, y: u32, output: PllOutput, port: PllSource) -> bool
    ensures { result ≡ is_output_of x y output port }
{
    x == port.x && (y == port.y && output.number() == port.output.number())
}

/// The index of an output of a PLL, or `None` if it isn't one of them.
fn output_place_in(plls: &[PllSource], x: u32, y: u32, output: PllOutput) -> Option<usize>
    ensures { result ≡ position (is_output_of x y output) plls.now }
{
    plls.iter()
        .position(|port| is_output_of(x, y, output, *port))
}

/// The index of an output of a PLL among those that are input ports, or their number if it isn't one of them.
pub fn output_place(plls: &[PllSource], x: u32, y: u32, output: PllOutput) -> usize
    ensures { result ≡ unwrap_or (position (is_output_of x y output) plls.now) (length plls.now) }
{
    output_place_in(plls, x, y, output).unwrap_or(plls.len())
}

/// Whether two input ports are the same.
fn is_same_port(port: InputPort, other: InputPort) -> bool
    ensures { result ≡ is_same_port port other }
{
    match port {
        InputPort::Pad { x, y, n } => match other {
            InputPort::Pad {
                x: other_x,
                y: other_y,
                n: other_n,
            } => x == other_x && y == other_y && n == other_n,
            InputPort::Outside { .. } | InputPort::Pll { .. } => false,
        },
        InputPort::Outside { x, y, n } => match other {
            InputPort::Outside {
                x: other_x,
                y: other_y,
                n: other_n,
            } => x == other_x && y == other_y && n == other_n,
            InputPort::Pad { .. } | InputPort::Pll { .. } => false,
        },
        InputPort::Pll { x, y, output } => match other {
            InputPort::Pll {
                x: other_x,
                y: other_y,
                output: of_other,
            } => x == other_x && y == other_y && output.number() == of_other.number(),
            InputPort::Pad { .. } | InputPort::Outside { .. } => false,
        },
    }
}

/// The index of an input port, or `None` if it isn't one of them.
fn place_in(inputs: &[InputPort], port: InputPort) -> Option<usize>
    ensures { result ≡ position (is_same_port port) inputs.now }
{
    inputs.iter().position(|other| is_same_port(port, *other))
}

/// The index of an input port, or the number of input ports if it isn't one of them.
pub fn input_place(inputs: &[InputPort], port: InputPort) -> usize
    ensures { result ≡ unwrap_or (position (is_same_port port) inputs.now) (length inputs.now) }
{
    place_in(inputs, port).unwrap_or(inputs.len())
}
