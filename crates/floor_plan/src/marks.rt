// The marks of what is used.
ghost use Rattle.std.specs.Prelude.{◌≡◌, ◌++◌, ◌<◌, All, OnOk, map};
ghost use Rattle.fabric_model.specs.PinTypes.{is_double, has_register};
ghost use Rattle.floor_plan.specs.Marks.{cell_mark, is_registered, lower_mark, pin_mark, ram_part, sends_inverse, upper_mark};

use fabric_model::{LogicCell, PadData, PadDrive, PadInput, Pin, RamCell, has_input, has_outside};
use plan_marks::{CellPart, Mark, Part, PinPart, RamPart};
use std::alloc::AllocError;

/// The mark of a used cell.
fn cell_mark(lc: &LogicCell) -> Mark
    ensures { result ≡ cell_mark lc.now }
{
    Mark {
        x: lc.x,
        y: lc.y,
        part: Part::Cell(CellPart {
            i: lc.i,
            lut: lc.lut,
            carry: lc.carry,
            flip: lc.flip,
            set: lc.set,
            is_async: lc.is_async,
            neg: lc.neg,
        }),
    }
}

/// The modes of a used RAM.
fn ram_part(ram: &RamCell) -> RamPart
    ensures { result ≡ ram_part ram.now }
{
    RamPart {
        read: ram.read,
        write: ram.write,
    }
}

/// Whether a pin drives its pad with the inverse of its register.
fn sends_inverse(sends: PadData) -> bool
    ensures { result ≡ sends_inverse sends }
{
    matches!(sends, PadData::Inverted)
}

/// Whether a pin drives its pad with two registers in turn.
fn is_double(sends: PadData) -> bool
    ensures { result ≡ is_double sends }
{
    matches!(sends, PadData::Double)
}

/// Whether a pin drives its pad with what is made of registers.
fn has_register(sends: PadData) -> bool
    ensures { result ≡ has_register sends }
{
    !matches!(sends, PadData::Plain)
}

/// Whether a pin has a register: of its first or its second input, of its output, or of its output enable.
fn is_registered(pin: &Pin) -> bool
    ensures { result ≡ is_registered pin.now }
{
    let input = pin.reads_0 && matches!(pin.takes, PadInput::Registered);
    let output = pin.drives() && has_register(pin.sends);
    input || pin.reads_1 || output || matches!(pin.drive, PadDrive::ByRegister)
}

/// The mark of a pin that is a port.
fn pin_mark(pin: &Pin) -> Mark
    ensures { result ≡ pin_mark pin.now }
{
    Mark {
        x: pin.x,
        y: pin.y,
        part: Part::Pin(PinPart {
            n: pin.n,
            is_input: has_input(*pin) || has_outside(*pin),
            is_output: pin.drives(),
            is_switched: pin.is_switched(),
            has_register: is_registered(pin),
            is_double: (pin.drives() && is_double(pin.sends)) || pin.reads_1,
            is_inverted: pin.drives() && sends_inverse(pin.sends),
            is_global: pin.is_global,
        }),
    }
}

/// Appends the marks of used cells.
pub(crate) fn push_cells(marks: &mut Vec<Mark>, cells: &[LogicCell]) -> Result<(), AllocError>
    ensures { OnOk result (marks.new.items ≡ marks.old.items ++ map cell_mark cells.now) }
{
    for lc in cells {
        marks.push(cell_mark(lc))?;
    }
    Ok(())
}

/// Appends the marks of the lower tiles of used RAMs.
pub(crate) fn push_lower(marks: &mut Vec<Mark>, rams: &[RamCell]) -> Result<(), AllocError>
    ensures { OnOk result (marks.new.items ≡ marks.old.items ++ map lower_mark rams.now) }
{
    for ram in rams {
        marks.push(Mark {
            x: ram.x,
            y: ram.y,
            part: Part::Lower(ram_part(ram)),
        })?;
    }
    Ok(())
}

/// Appends the marks of the upper tiles of used RAMs.
pub(crate) fn push_upper(marks: &mut Vec<Mark>, rams: &[RamCell]) -> Result<(), AllocError>
    requires { All (λ ram. ram.y < 255) rams.now }
    ensures { OnOk result (marks.new.items ≡ marks.old.items ++ map upper_mark rams.now) }
{
    for ram in rams {
        marks.push(Mark {
            x: ram.x,
            y: ram.y + 1,
            part: Part::Upper(ram_part(ram)),
        })?;
    }
    Ok(())
}

/// Appends the marks of pins that are ports.
pub(crate) fn push_pins(marks: &mut Vec<Mark>, pins: &[Pin]) -> Result<(), AllocError>
    ensures { OnOk result (marks.new.items ≡ marks.old.items ++ map pin_mark pins.now) }
{
    for pin in pins {
        marks.push(pin_mark(pin))?;
    }
    Ok(())
}
