// Reads a pin file line by line.
ghost use Rattle.std.specs.Prelude.{◌≡◌, None, IfOk, IfErr, OnOk};
ghost use Rattle.pin_file.specs.Faults.{Tells, cause_of, fault_with, name_by, pin_fault_of, place_by, ports_of};
ghost use Rattle.pin_file.specs.Feeding.{kept_in};
ghost use Rattle.pin_file.specs.Lines.{line_of};
ghost use Rattle.pin_file.specs.PortNames.{AreSafe};
ghost use Rattle.pin_file.specs.inside.Reading.{Grows};

use crate::fault::PinFileFault;
use crate::package_pins::PackagePins;
use crate::pin_name::PinName;
use crate::place::PortPin;
use crate::port_pins::PortPins;
use crate::ports::Ports;
use std::alloc::Global;
use text_lines::first_line;

/// Reads a pin file: the names that it gives to ports at the pins of a package, in the order of its lines. `ports` are the design's pins
/// that have a port.
///
/// A line is `set_io OPTIONS NAME PIN`, and words after PIN don't count. A line whose first word is `set_frequency` is skipped, and so is an
/// empty one. `#` begins a comment. Options begin with `-`; `-pullup` and `-pullup_resistor` take the next word as their value.
///
/// A line gives no name if its pin has no port, or if an earlier line names the same pin, or one at the same place. In the name of a port
/// `_` stands for each byte of NAME that isn't a letter, a digit or `_`, and any `_` at its end is dropped. `p_` comes before it if the
/// result isn't a name of the Verilog subset, or has the form of a name that a module uses itself. The other ports of the pin have that name
/// with `_en` or `_in` after it. If one of these names was given by an earlier line, the line gives none.
///
/// # Errors
/// `PinFileFault::At` with the first faulty line and the first of its causes. `PinFileFault::Memory` if memory is out; it may come in place of any
/// other answer.
///
/// # Example
/// ```ignore
/// use pin_file::{PinPlace, PinReader, PortPin, pin_names};
///
/// let mut reader = PinReader::new(alloc, b"tq144")?;
/// reader.feed(database)?; // the bytes of the chip database, whole or in pieces
/// let pins = reader.finish()?;
/// let place = PinPlace { x: 13, y: 12, pio: 1 }; // that of pin 96
/// let ports = [PortPin { place, enable: false, outside: false }];
/// let named = pin_names(alloc, b"set_io led[3] 96\n", &pins, &ports)?;
/// // named[0].name is `led_3`, and named[0].place is the place
/// ```
pub fn pin_names(
    alloc: Global,
    text: &[u8],
    pins: &PackagePins,
    ports: &[PortPin],
) -> Result<Vec<PinName>, PinFileFault>
    ensures names { IfOk result (λ names. names.items ≡ ports_of (kept_in pins.now) ports.now text.now) }
    ensures safe { IfOk result (λ names. AreSafe ports.now names.items) }
    ensures accepted { OnOk result (pin_fault_of (kept_in pins.now) text.now ≡ None) }
    ensures refused { IfErr result (Tells (pin_fault_of (kept_in pins.now) text.now)) }
{
    let mut named = Ports::new(alloc, PortPins::of(alloc, ports)?);
    let mut left = text;
    let mut count = 0;
    while let Some(line) = first_line(left) {
        take_line(&mut named, count + 1, pins, line.content)?;
        count += 1;
        left = line.rest;
    }
    Ok(named.finish())
}

/// Takes the next line, which is line `number` of the file.
fn take_line(
    named: &mut Ports,
    number: u64,
    pins: &PackagePins,
    line: &[u8],
) -> Result<(), PinFileFault>
    ensures taken { OnOk result (Grows named.old named.new (place_by (kept_in pins.now) (line_of line.now))
        (λ ports earlier given. name_by (kept_in pins.now) ports earlier given (line_of line.now))) }
    ensures fits { OnOk result (cause_of (kept_in pins.now) (line_of line.now) ≡ None) }
    ensures refused { IfErr result (Tells (fault_with number (cause_of (kept_in pins.now) (line_of line.now)))) }
{
    match named.accept(pins, line) {
        Ok(()) => Ok(()),
        Err(refusal) => Err(refusal.of_line(number)),
    }
}
