// Items from values.
ghost use Rattle.std.specs.Prelude.{◌≡◌, ◌<◌, ◌^◌, IfOk};
ghost use Rattle.vlog_forms.specs.Items.{following, item_of, lut_in};
ghost use Rattle.vlog_forms.specs.Reading.{values_of};
ghost use Rattle.vlog_form_parser.specs.Found.{all_found};
ghost use Rattle.vlog_form_parser.specs.Named.{AreNamed};

use crate::Found;
use crate::values::{atom_at, atoms_at, bit_at, edge_at, index_at, name_at, word_at};
use std::alloc::{AllocError, Global};
use vlog_forms::Form;
use vlog_module::{Item, Lut, Right};

/// The item of a form and its values. Where a value is missing or of another kind, some value of the right kind takes its place; a form
/// that is no item's counts as `Form::Start`.
///
/// # Errors
/// `AllocError` if memory is out, and for no other cause.
pub fn item_of(alloc: Global, form: Form, values: &[Found<'_>]) -> Result<Item, AllocError>
    requires { AreNamed (values_of (all_found values.now)) }
    ensures { IfOk result (λ item. item ≡ item_of form (values_of (all_found values.now))) }
{
    match form {
        Form::Register => register_of(alloc, values),
        Form::Word => word_register_of(alloc, values),
        Form::Memory => memory_of(alloc, values),
        Form::WireBit => wire_bit_of(alloc, values),
        Form::WireWhole => wire_whole_of(alloc, values),
        Form::WirePart => wire_part_of(alloc, values),
        Form::WireLut => wire_lut_of(alloc, values),
        Form::WireMajority => wire_majority_of(alloc, values),
        Form::WireChoose => wire_choose_of(alloc, values),
        Form::Assign => assign_of(alloc, values),
        Form::FlipFlop => flip_of(alloc, values),
        Form::AsyncFlipFlop => flip_at_once_of(alloc, values),
        Form::AsyncReset => set_at_once_of(alloc, values),
        Form::Read => read_of(alloc, values),
        Form::ReadNarrow => read_narrow_of(alloc, values),
        Form::Write => write_of(alloc, values),
        Form::WriteNarrow => write_narrow_of(alloc, values),
        Form::Start => start_of(alloc, values),
        Form::Input => start_of(alloc, values),
        Form::Output => start_of(alloc, values),
        Form::End => start_of(alloc, values),
    }
}

/// A register of one bit.
fn register_of(alloc: Global, values: &[Found<'_>]) -> Result<Item, AllocError>
    requires { AreNamed (values_of (all_found values.now)) }
    ensures { IfOk result (λ item. item ≡ item_of Form.Register (values_of (all_found values.now))) }
{
    let name = name_at(alloc, values, 0)?;
    Ok(Item::Register {
        name,
        start: bit_at(values, 1),
    })
}

/// A register of 16 bits.
fn word_register_of(alloc: Global, values: &[Found<'_>]) -> Result<Item, AllocError>
    requires { AreNamed (values_of (all_found values.now)) }
    ensures { IfOk result (λ item. item ≡ item_of Form.Word (values_of (all_found values.now))) }
{
    let name = name_at(alloc, values, 0)?;
    Ok(Item::Word {
        name,
        start: word_at(values, 1),
    })
}

/// A memory.
fn memory_of(alloc: Global, values: &[Found<'_>]) -> Result<Item, AllocError>
    requires { AreNamed (values_of (all_found values.now)) }
    ensures { IfOk result (λ item. item ≡ item_of Form.Memory (values_of (all_found values.now))) }
{
    let name = name_at(alloc, values, 0)?;
    Ok(Item::Memory { name })
}

/// A wire that is a constant bit.
fn wire_bit_of(alloc: Global, values: &[Found<'_>]) -> Result<Item, AllocError>
    requires { AreNamed (values_of (all_found values.now)) }
    ensures { IfOk result (λ item. item ≡ item_of Form.WireBit (values_of (all_found values.now))) }
{
    let name = name_at(alloc, values, 0)?;
    let right = Right::Bit(bit_at(values, 1));
    Ok(Item::Wire { name, right })
}

/// A wire that copies a name of one bit.
fn wire_whole_of(alloc: Global, values: &[Found<'_>]) -> Result<Item, AllocError>
    requires { AreNamed (values_of (all_found values.now)) }
    ensures { IfOk result (λ item. item ≡ item_of Form.WireWhole (values_of (all_found values.now))) }
{
    let name = name_at(alloc, values, 0)?;
    let source = name_at(alloc, values, 1)?;
    let right = Right::Whole(source);
    Ok(Item::Wire { name, right })
}

/// A wire that copies a bit of a register of 16 bits.
fn wire_part_of(alloc: Global, values: &[Found<'_>]) -> Result<Item, AllocError>
    requires { AreNamed (values_of (all_found values.now)) }
    ensures { IfOk result (λ item. item ≡ item_of Form.WirePart (values_of (all_found values.now))) }
{
    let name = name_at(alloc, values, 0)?;
    let source = name_at(alloc, values, 1)?;
    let right = Right::Part {
        name: source,
        k: index_at(values, 2),
    };
    Ok(Item::Wire { name, right })
}

/// A wire that is a LUT of four atoms.
fn wire_lut_of(alloc: Global, values: &[Found<'_>]) -> Result<Item, AllocError>
    requires { AreNamed (values_of (all_found values.now)) }
    ensures { IfOk result (λ item. item ≡ item_of Form.WireLut (values_of (all_found values.now))) }
{
    let name = name_at(alloc, values, 0)?;
    let lut = lut_at(alloc, values, 1)?;
    let right = Right::Lut(lut);
    Ok(Item::Wire { name, right })
}

/// A wire that is the majority of three atoms: a carry-out.
fn wire_majority_of(alloc: Global, values: &[Found<'_>]) -> Result<Item, AllocError>
    requires { AreNamed (values_of (all_found values.now)) }
    ensures { IfOk result (λ item. item ≡ item_of Form.WireMajority (values_of (all_found values.now))) }
{
    let name = name_at(alloc, values, 0)?;
    let a = atom_at(alloc, values, 1)?;
    let b = atom_at(alloc, values, 2)?;
    let c = atom_at(alloc, values, 3)?;
    let right = Right::Majority { a, b, c };
    Ok(Item::Wire { name, right })
}

/// A wire that reads a register by way of its asynchronous set or reset.
fn wire_choose_of(alloc: Global, values: &[Found<'_>]) -> Result<Item, AllocError>
    requires { AreNamed (values_of (all_found values.now)) }
    ensures { IfOk result (λ item. item ≡ item_of Form.WireChoose (values_of (all_found values.now))) }
{
    let name = name_at(alloc, values, 0)?;
    let reset = name_at(alloc, values, 1)?;
    let target = name_at(alloc, values, 3)?;
    let right = Right::Choose {
        reset,
        set: bit_at(values, 2),
        target,
    };
    Ok(Item::Wire { name, right })
}

/// The assignment of an output.
fn assign_of(alloc: Global, values: &[Found<'_>]) -> Result<Item, AllocError>
    requires { AreNamed (values_of (all_found values.now)) }
    ensures { IfOk result (λ item. item ≡ item_of Form.Assign (values_of (all_found values.now))) }
{
    let name = name_at(alloc, values, 0)?;
    let value = atom_at(alloc, values, 1)?;
    Ok(Item::Assign { name, value })
}

/// A LUT, whose word is the value at an index; its atoms follow.
fn lut_at(alloc: Global, values: &[Found<'_>], place: usize) -> Result<Lut, AllocError>
    requires named { AreNamed (values_of (all_found values.now)) }
    requires small { place < 2 ^ 32 }
    ensures { IfOk result (λ lut. lut ≡ lut_in (following place (values_of (all_found values.now)))) }
{
    let ins = atoms_at(alloc, values, place + 1, 4)?;
    Ok(Lut {
        word: word_at(values, place),
        ins,
    })
}

/// A flip-flop with synchronous set or reset.
fn flip_of(alloc: Global, values: &[Found<'_>]) -> Result<Item, AllocError>
    requires { AreNamed (values_of (all_found values.now)) }
    ensures { IfOk result (λ item. item ≡ item_of Form.FlipFlop (values_of (all_found values.now))) }
{
    let clock = name_at(alloc, values, 1)?;
    let enable = atom_at(alloc, values, 2)?;
    let reset = atom_at(alloc, values, 3)?;
    let target = name_at(alloc, values, 4)?;
    let lut = lut_at(alloc, values, 6)?;
    Ok(Item::FlipFlop {
        falling: edge_at(values, 0),
        clock,
        enable,
        reset,
        set: bit_at(values, 5),
        target,
        lut,
    })
}

/// A flip-flop with asynchronous set or reset.
fn flip_at_once_of(alloc: Global, values: &[Found<'_>]) -> Result<Item, AllocError>
    requires { AreNamed (values_of (all_found values.now)) }
    ensures { IfOk result (λ item. item ≡ item_of Form.AsyncFlipFlop (values_of (all_found values.now))) }
{
    let clock = name_at(alloc, values, 1)?;
    let reset = name_at(alloc, values, 2)?;
    let target = name_at(alloc, values, 3)?;
    let enable = atom_at(alloc, values, 5)?;
    let lut = lut_at(alloc, values, 6)?;
    Ok(Item::AsyncFlipFlop {
        falling: edge_at(values, 0),
        clock,
        reset,
        set: bit_at(values, 4),
        target,
        enable,
        lut,
    })
}

/// A register that has only an asynchronous set or reset, and no clock.
fn set_at_once_of(alloc: Global, values: &[Found<'_>]) -> Result<Item, AllocError>
    requires { AreNamed (values_of (all_found values.now)) }
    ensures { IfOk result (λ item. item ≡ item_of Form.AsyncReset (values_of (all_found values.now))) }
{
    let reset = name_at(alloc, values, 0)?;
    let target = name_at(alloc, values, 1)?;
    Ok(Item::AsyncReset {
        reset,
        set: bit_at(values, 2),
        target,
    })
}

/// A read of a memory, 16 bits wide.
fn read_of(alloc: Global, values: &[Found<'_>]) -> Result<Item, AllocError>
    requires { AreNamed (values_of (all_found values.now)) }
    ensures { IfOk result (λ item. item ≡ item_of Form.Read (values_of (all_found values.now))) }
{
    let clock = name_at(alloc, values, 1)?;
    let clock_enable = atom_at(alloc, values, 2)?;
    let enable = atom_at(alloc, values, 3)?;
    let target = name_at(alloc, values, 4)?;
    let memory = name_at(alloc, values, 5)?;
    let address = atoms_at(alloc, values, 6, 8)?;
    Ok(Item::Read {
        falling: edge_at(values, 0),
        clock,
        clock_enable,
        enable,
        target,
        memory,
        address,
    })
}

/// A read of a memory, 8, 4 or 2 bits wide.
fn read_narrow_of(alloc: Global, values: &[Found<'_>]) -> Result<Item, AllocError>
    requires { AreNamed (values_of (all_found values.now)) }
    ensures { IfOk result (λ item. item ≡ item_of Form.ReadNarrow (values_of (all_found values.now))) }
{
    let clock = name_at(alloc, values, 1)?;
    let clock_enable = atom_at(alloc, values, 2)?;
    let enable = atom_at(alloc, values, 3)?;
    let target = name_at(alloc, values, 4)?;
    let memory = name_at(alloc, values, 5)?;
    let address = atoms_at(alloc, values, 6, 8)?;
    let shift = atoms_at(alloc, values, 14, 3)?;
    Ok(Item::ReadNarrow {
        falling: edge_at(values, 0),
        clock,
        clock_enable,
        enable,
        target,
        memory,
        address,
        shift,
        pattern: word_at(values, 17),
    })
}

/// A write to a memory, 16 bits wide.
fn write_of(alloc: Global, values: &[Found<'_>]) -> Result<Item, AllocError>
    requires { AreNamed (values_of (all_found values.now)) }
    ensures { IfOk result (λ item. item ≡ item_of Form.Write (values_of (all_found values.now))) }
{
    let clock = name_at(alloc, values, 1)?;
    let clock_enable = atom_at(alloc, values, 2)?;
    let enable = atom_at(alloc, values, 3)?;
    let memory = name_at(alloc, values, 4)?;
    let address = atoms_at(alloc, values, 5, 8)?;
    let mask = atoms_at(alloc, values, 13, 16)?;
    let bits = atoms_at(alloc, values, 29, 16)?;
    Ok(Item::Write {
        falling: edge_at(values, 0),
        clock,
        clock_enable,
        enable,
        memory,
        address,
        mask,
        bits,
    })
}

/// A write to a memory, 8, 4 or 2 bits wide.
fn write_narrow_of(alloc: Global, values: &[Found<'_>]) -> Result<Item, AllocError>
    requires { AreNamed (values_of (all_found values.now)) }
    ensures { IfOk result (λ item. item ≡ item_of Form.WriteNarrow (values_of (all_found values.now))) }
{
    let clock = name_at(alloc, values, 1)?;
    let clock_enable = atom_at(alloc, values, 2)?;
    let enable = atom_at(alloc, values, 3)?;
    let memory = name_at(alloc, values, 4)?;
    let address = atoms_at(alloc, values, 5, 8)?;
    let shift = atoms_at(alloc, values, 14, 3)?;
    let bits = atoms_at(alloc, values, 17, 16)?;
    Ok(Item::WriteNarrow {
        falling: edge_at(values, 0),
        clock,
        clock_enable,
        enable,
        memory,
        address,
        pattern: word_at(values, 13),
        shift,
        bits,
    })
}

/// The start value of a word of a memory.
fn start_of(alloc: Global, values: &[Found<'_>]) -> Result<Item, AllocError>
    requires { AreNamed (values_of (all_found values.now)) }
    ensures { IfOk result (λ item. item ≡ item_of Form.Start (values_of (all_found values.now))) }
{
    let memory = name_at(alloc, values, 0)?;
    Ok(Item::Start {
        memory,
        k: index_at(values, 1),
        word: word_at(values, 2),
    })
}
