// The values of an item, in the order of the text.
ghost use Rattle.std.specs.Prelude.{◌≡◌, ◌++◌, [], ◌∷◌, IfOk, OnOk};
ghost use Rattle.vlog_forms.specs.Values.{seen};
ghost use Rattle.vlog_forms.specs.Values.{Value as value};
ghost use Rattle.vlog_forms.specs.Items.{atoms_values, item_form, item_values, lut_values, right_values, wire_form};
ghost use Rattle.vlog_print.specs.Rest.{all_seen};

use std::alloc::{AllocError, Global};
use vlog_forms::{Form, Role, Value};
use vlog_module::{Atom, Atoms, Item, Lut, Name, Right, Sort};

/// The form of an item.
pub(crate) fn item_form(item: &Item) -> Form
    ensures { result ≡ item_form item.now }
{
    match item {
        Item::Register { .. } => Form::Register,
        Item::Word { .. } => Form::Word,
        Item::Memory { .. } => Form::Memory,
        Item::Wire { right, .. } => wire_form(right),
        Item::Assign { .. } => Form::Assign,
        Item::FlipFlop { .. } => Form::FlipFlop,
        Item::AsyncFlipFlop { .. } => Form::AsyncFlipFlop,
        Item::AsyncReset { .. } => Form::AsyncReset,
        Item::Read { .. } => Form::Read,
        Item::ReadNarrow { .. } => Form::ReadNarrow,
        Item::Write { .. } => Form::Write,
        Item::WriteNarrow { .. } => Form::WriteNarrow,
        Item::Start { .. } => Form::Start,
    }
}

/// The form of a wire.
fn wire_form(right: &Right) -> Form
    ensures { result ≡ wire_form right.now }
{
    match right {
        Right::Bit(_) => Form::WireBit,
        Right::Whole(_) => Form::WireWhole,
        Right::Part { .. } => Form::WirePart,
        Right::Lut(_) => Form::WireLut,
        Right::Majority { .. } => Form::WireMajority,
        Right::Choose { .. } => Form::WireChoose,
    }
}

/// The values of an item, in the order of the text.
pub(crate) fn item_values(alloc: Global, item: &Item) -> Result<Vec<Value<'_>>, AllocError>
    ensures { IfOk result (λ values. all_seen values.items ≡ item_values item.now) }
{
    let mut values = Vec::new(alloc);
    push_item(&mut values, item)?;
    Ok(values)
}

/// Adds the values of an item.
fn push_item<'a>(values: &mut Vec<Value<'a>>, item: &'a Item) -> Result<(), AllocError>
    ensures { OnOk result (all_seen values.new.items ≡ all_seen values.old.items ++ item_values item.now) }
{
    match item {
        Item::Register { name, start } => {
            push_name(values, Role::Declares(Sort::Register), name)?;
            push(values, Value::Bit(*start))
        }
        Item::Word { name, start } => {
            push_name(values, Role::Declares(Sort::Word), name)?;
            push(values, Value::Word(*start))
        }
        Item::Memory { name } => push_name(values, Role::Declares(Sort::Memory), name),
        Item::Wire { name, right } => {
            push_name(values, Role::Declares(Sort::Wire), name)?;
            push_right(values, right)
        }
        Item::Assign { name, value } => {
            push_name(values, Role::Assigns(Sort::Output), name)?;
            push_atom(values, value)
        }
        Item::FlipFlop {
            falling,
            clock,
            enable,
            reset,
            set,
            target,
            lut,
        } => {
            push_clocked(values, *falling, clock, enable, reset)?;
            push_name(values, Role::Assigns(Sort::Register), target)?;
            push(values, Value::Bit(*set))?;
            push_lut(values, lut)
        }
        Item::AsyncFlipFlop {
            falling,
            clock,
            reset,
            set,
            target,
            enable,
            lut,
        } => {
            push(values, Value::Edge(*falling))?;
            push_name(values, Role::Clocks, clock)?;
            push_at_once(values, reset, *set, target)?;
            push_atom(values, enable)?;
            push_lut(values, lut)
        }
        Item::AsyncReset { reset, set, target } => push_at_once(values, reset, *set, target),
        Item::Read {
            falling,
            clock,
            clock_enable,
            enable,
            target,
            memory,
            address,
        } => {
            push_clocked(values, *falling, clock, clock_enable, enable)?;
            push_name(values, Role::Assigns(Sort::Word), target)?;
            push_name(values, Role::Takes(Sort::Memory), memory)?;
            push_atoms(values, address)
        }
        Item::ReadNarrow {
            falling,
            clock,
            clock_enable,
            enable,
            target,
            memory,
            address,
            shift,
            pattern,
        } => {
            push_clocked(values, *falling, clock, clock_enable, enable)?;
            push_name(values, Role::Assigns(Sort::Word), target)?;
            push_name(values, Role::Takes(Sort::Memory), memory)?;
            push_atoms(values, address)?;
            push_atoms(values, shift)?;
            push(values, Value::Word(*pattern))
        }
        Item::Write {
            falling,
            clock,
            clock_enable,
            enable,
            memory,
            address,
            mask,
            bits,
        } => {
            push_clocked(values, *falling, clock, clock_enable, enable)?;
            push_name(values, Role::Assigns(Sort::Memory), memory)?;
            push_atoms(values, address)?;
            push_atoms(values, mask)?;
            push_atoms(values, bits)
        }
        Item::WriteNarrow {
            falling,
            clock,
            clock_enable,
            enable,
            memory,
            address,
            pattern,
            shift,
            bits,
        } => {
            push_clocked(values, *falling, clock, clock_enable, enable)?;
            push_name(values, Role::Assigns(Sort::Memory), memory)?;
            push_atoms(values, address)?;
            push(values, Value::Word(*pattern))?;
            push_atoms(values, shift)?;
            push_atoms(values, bits)
        }
        Item::Start { memory, k, word } => {
            push_name(values, Role::Starts, memory)?;
            push(values, Value::Index(*k))?;
            push(values, Value::Word(*word))
        }
    }
}

/// Adds the values with which items on an edge begin.
fn push_clocked<'a>(
    values: &mut Vec<Value<'a>>,
    falling: bool,
    clock: &'a Name,
    first: &'a Atom,
    second: &'a Atom,
) -> Result<(), AllocError>
    ensures { OnOk result (all_seen values.new.items ≡ all_seen values.old.items
        ++ value.Edge falling ∷ value.Name Role.Clocks clock.now ∷ value.AnAtom first.now ∷ value.AnAtom second.now ∷ []) }
{
    push(values, Value::Edge(falling))?;
    push_name(values, Role::Clocks, clock)?;
    push_atom(values, first)?;
    push_atom(values, second)
}

/// Adds the values of an asynchronous set or reset: the wire, the register and the bit.
fn push_at_once<'a>(
    values: &mut Vec<Value<'a>>,
    reset: &'a Name,
    set: bool,
    target: &'a Name,
) -> Result<(), AllocError>
    ensures { OnOk result (all_seen values.new.items ≡ all_seen values.old.items
        ++ value.Name (Role.Takes Sort.Wire) reset.now ∷ value.Name Role.AssignsAsync target.now ∷ value.Bit set ∷ []) }
{
    push_name(values, Role::Takes(Sort::Wire), reset)?;
    push_name(values, Role::AssignsAsync, target)?;
    push(values, Value::Bit(set))
}

/// Adds the values of a right side.
fn push_right<'a>(values: &mut Vec<Value<'a>>, right: &'a Right) -> Result<(), AllocError>
    ensures { OnOk result (all_seen values.new.items ≡ all_seen values.old.items ++ right_values right.now) }
{
    match right {
        Right::Bit(bit) => push(values, Value::Bit(*bit)),
        Right::Whole(name) => push_name(values, Role::Reads, name),
        Right::Part { name, k } => {
            push_name(values, Role::ReadsBit, name)?;
            push(values, Value::Index(*k))
        }
        Right::Lut(lut) => push_lut(values, lut),
        Right::Majority { a, b, c } => {
            push_atom(values, a)?;
            push_atom(values, b)?;
            push_atom(values, c)
        }
        Right::Choose { reset, set, target } => {
            push_name(values, Role::Takes(Sort::Wire), reset)?;
            push(values, Value::Bit(*set))?;
            push_name(values, Role::Chooses, target)
        }
    }
}

/// Adds the values of a LUT.
fn push_lut<'a>(values: &mut Vec<Value<'a>>, lut: &'a Lut) -> Result<(), AllocError>
    ensures { OnOk result (all_seen values.new.items ≡ all_seen values.old.items ++ lut_values lut.now) }
{
    push(values, Value::Word(lut.word))?;
    push_atoms(values, &lut.ins)
}

/// Adds a list of atoms, the highest index first.
fn push_atoms<'a>(values: &mut Vec<Value<'a>>, atoms: &'a Atoms) -> Result<(), AllocError>
    ensures { OnOk result (all_seen values.new.items ≡ all_seen values.old.items ++ atoms_values atoms.now) }
{
    let mut place = atoms.len();
    while 0 < place {
        place -= 1;
        push_atom(values, atoms.get(place))?;
    }
    Ok(())
}

/// Adds an atom.
fn push_atom<'a>(values: &mut Vec<Value<'a>>, atom: &'a Atom) -> Result<(), AllocError>
    ensures { OnOk result (all_seen values.new.items ≡ all_seen values.old.items ++ value.AnAtom atom.now ∷ []) }
{
    match atom {
        Atom::Bit(bit) => push(values, Value::AtomBit(*bit)),
        Atom::Whole(name) => push(values, Value::AtomName(name.bytes())),
        Atom::Part { name, k } => push(values, Value::AtomPart(name.bytes(), *k)),
    }
}

/// Adds a name and how it is used.
fn push_name<'a>(values: &mut Vec<Value<'a>>, role: Role, name: &'a Name) -> Result<(), AllocError>
    ensures { OnOk result (all_seen values.new.items ≡ all_seen values.old.items ++ value.Name role name.now ∷ []) }
{
    push(values, Value::Name(role, name.bytes()))
}

/// Adds a value.
fn push<'a>(values: &mut Vec<Value<'a>>, value: Value<'a>) -> Result<(), AllocError>
    ensures { OnOk result (all_seen values.new.items ≡ all_seen values.old.items ++ seen value.entry ∷ []) }
{
    values.push(value)?;
    Ok(())
}
