// Pins and their ports.
ghost use Rattle.std.specs.Prelude.{◌≡◌, IfOk};
ghost use Rattle.port_names.specs.Named.{place_of, port_pin, port_pins};

use fabric::Design;
use fabric_model::{Pin, has_outside};
use pin_file::{PinPlace, PortPin};
use std::alloc::{AllocError, Global};

/// The place of a pin.
pub(crate) fn place_of(pin: &Pin) -> PinPlace
    ensures { result ≡ place_of pin.now }
{
    let (x, y, n) = (pin.x, pin.y, pin.n);
    PinPlace {
        x: u32::from(x),
        y: u32::from(y),
        pio: u32::from(n),
    }
}

/// A pin with its ports.
fn port_pin(pin: &Pin) -> PortPin
    ensures { result ≡ port_pin pin.now }
{
    PortPin {
        place: place_of(pin),
        enable: pin.is_switched(),
        outside: has_outside(*pin),
    }
}

/// These pins with their ports.
fn port_pins_among(alloc: Global, pins: &[Pin]) -> Result<Vec<PortPin>, AllocError>
    ensures { IfOk result (λ ports. ports.items ≡ port_pins pins.now) }
{
    let mut ports = Vec::new(alloc);
    for pin in pins {
        ports.push(port_pin(pin))?;
    }
    Ok(ports)
}

/// The pins of a design, in its order, each with its place, whether it has an output enable, and whether it has an input from outside.
/// Each pin of a design has a port.
///
/// # Errors
/// `AllocError` if memory is out, and for no other cause.
pub fn port_pins(alloc: Global, design: &Design) -> Result<Vec<PortPin>, AllocError>
    ensures { IfOk result (λ ports. ports.items ≡ port_pins design.now.parts.pins.items) }
{
    port_pins_among(alloc, design.pins())
}
