// Prints slots that are filled with values.
ghost use Rattle.std.specs.Prelude.{◌≡◌, ◌≤◌, ◌<◌, ◌+◌, ◌^◌, ◌++◌, List, [], ◌∷◌, true, flat_map, take, drop, length, IfOk, OnOk};
ghost use Rattle.vlog_tokens.specs.Fixed.{fixed_text};
ghost use Rattle.vlog_forms.specs.Layout.{again_slots, atom_slots, first_again_slots, more_slots, parts_of, takes_value};
ghost use Rattle.vlog_forms.specs.Values.{edge_sign, seen, tokens_at, value_tokens};
ghost use Rattle.vlog_forms.specs.Printed.{decimal_text, tokens_text};
ghost use Rattle.vlog_print.specs.Rest.{all_seen, with_rest};

use crate::bytes::{push_bit, push_number, push_text, push_word};
use std::alloc::AllocError;
use vlog_forms::{Slot, Value};
use vlog_tokens::Fixed;

/// Adds what slots and values make. The first `next` values filled earlier slots.
pub(crate) fn write_slots(
    out: &mut Vec<u8>,
    slots: &[Slot],
    values: &[Value<'_>],
    next: usize,
) -> Result<(), AllocError>
    requires { next ≤ length values.now }
    ensures { OnOk result (out.new.items ≡ with_rest out.old.items (flat_map parts_of slots.now) values.now next) }
{
    match slots {
        [] => Ok(()),
        [slot, rest @ ..] => {
            let next = write_slot(out, *slot, values, next)?;
            write_slots(out, rest, values, next)
        }
    }
}

/// Adds what a slot makes, and returns how many values are used up after it.
fn write_slot(
    out: &mut Vec<u8>,
    slot: Slot,
    values: &[Value<'_>],
    next: usize,
) -> Result<usize, AllocError>
    requires { next ≤ length values.now }
    ensures within { IfOk result (λ after. after ≤ length values.now) }
    ensures text { IfOk result (λ after. (more : List Slot) →
        with_rest out.old.items (parts_of slot ++ more) values.now next ≡ with_rest out.new.items more values.now after) }
{
    match slot {
        Slot::Space => {
            push_text(out, b" ")?;
            Ok(next)
        }
        Slot::Fixed(fixed) => {
            push_text(out, fixed.text())?;
            Ok(next)
        }
        Slot::Literal(number) => {
            push_number(out, number)?;
            Ok(next)
        }
        Slot::Again(place) => {
            write_again(out, values, next, usize::from(place))?;
            Ok(next)
        }
        Slot::AtomsAgain(first, count) => {
            write_atoms_again(out, values, next, usize::from(first), usize::from(count))?;
            Ok(next)
        }
        Slot::Atoms(count) => write_atoms(out, values, next, usize::from(count)),
        Slot::Name(_) => write_next(out, values, next),
        Slot::Edge => write_next(out, values, next),
        Slot::Bit => write_next(out, values, next),
        Slot::Word => write_next(out, values, next),
        Slot::Index(_) => write_next(out, values, next),
        Slot::Atom => write_next(out, values, next),
    }
}

/// Adds the next value, if there is one, and returns how many values are used up after it.
fn write_next(out: &mut Vec<u8>, values: &[Value<'_>], next: usize) -> Result<usize, AllocError>
    requires { next ≤ length values.now }
    ensures within { IfOk result (λ after. after ≤ length values.now) }
    ensures text { IfOk result (λ after. (slot : Slot) (more : List Slot) → takes_value slot ≡ true →
        with_rest out.old.items (slot ∷ more) values.now next ≡ with_rest out.new.items more values.now after) }
{
    if next < values.len() {
        write_value(out, values[next])?;
        Ok(next + 1)
    } else {
        Ok(next)
    }
}

/// Adds the value at an index again, if it filled an earlier slot.
fn write_again(
    out: &mut Vec<u8>,
    values: &[Value<'_>],
    next: usize,
    place: usize,
) -> Result<(), AllocError>
    requires { next ≤ length values.now }
    ensures { OnOk result (out.new.items ≡ out.old.items ++ tokens_text (tokens_at (take next (all_seen values.now)) place)) }
{
    if place < next {
        write_value(out, values[place])
    } else {
        Ok(())
    }
}

/// Adds a value.
fn write_value(out: &mut Vec<u8>, value: Value<'_>) -> Result<(), AllocError>
    ensures { OnOk result (out.new.items ≡ out.old.items ++ tokens_text (value_tokens (seen value.entry))) }
{
    match value {
        Value::Name(_, name) => push_text(out, name),
        Value::Edge(falling) => push_edge(out, falling),
        Value::Bit(bit) => push_bit(out, bit),
        Value::Word(word) => push_word(out, word),
        Value::Index(index) => push_number(out, index),
        Value::AtomBit(bit) => push_bit(out, bit),
        Value::AtomName(name) => push_text(out, name),
        Value::AtomPart(name, k) => push_part(out, name, k),
    }
}

/// Adds the word of an edge.
fn push_edge(out: &mut Vec<u8>, falling: bool) -> Result<(), AllocError>
    ensures { OnOk result (out.new.items ≡ out.old.items ++ fixed_text (edge_sign falling)) }
{
    if falling {
        push_text(out, b"negedge")
    } else {
        push_text(out, b"posedge")
    }
}

/// Adds `NAME[k]`.
fn push_part(out: &mut Vec<u8>, name: &[u8], k: u8) -> Result<(), AllocError>
    ensures { OnOk result (out.new.items ≡ out.old.items ++ name.now ++ 91 ∷ [] ++ decimal_text k ++ 93 ∷ []) }
{
    push_text(out, name)?;
    push_text(out, b"[")?;
    push_number(out, k)?;
    push_text(out, b"]")
}

/// Adds this many atoms in braces, and returns how many values are used up after them.
fn write_atoms(
    out: &mut Vec<u8>,
    values: &[Value<'_>],
    next: usize,
    count: usize,
) -> Result<usize, AllocError>
    requires { next ≤ length values.now }
    ensures within { IfOk result (λ after. after ≤ length values.now) }
    ensures text { IfOk result (λ after. (more : List Slot) →
        with_rest out.old.items (Slot.Fixed Fixed.OpenBrace ∷ (atom_slots count ++ more)) values.now next ≡ with_rest out.new.items more values.now after) }
{
    push_text(out, b"{")?;
    if count == 0 {
        push_text(out, b"}")?;
        return Ok(next);
    }
    let next = write_next(out, values, next)?;
    write_more(out, values, next, count - 1)
}

/// Adds this many further atoms, each after a comma, and the closing brace.
fn write_more(
    out: &mut Vec<u8>,
    values: &[Value<'_>],
    next: usize,
    count: usize,
) -> Result<usize, AllocError>
    requires { next ≤ length values.now }
    ensures within { IfOk result (λ after. after ≤ length values.now) }
    ensures text { IfOk result (λ after. (more : List Slot) →
        with_rest out.old.items (more_slots count ++ more) values.now next ≡ with_rest out.new.items more values.now after) }
{
    if count == 0 {
        push_text(out, b"}")?;
        return Ok(next);
    }
    push_text(out, b", ")?;
    let next = write_next(out, values, next)?;
    write_more(out, values, next, count - 1)
}

/// Adds the atoms at the indexes from the first one on, as many as `count`, again in braces.
fn write_atoms_again(
    out: &mut Vec<u8>,
    values: &[Value<'_>],
    next: usize,
    first: usize,
    count: usize,
) -> Result<(), AllocError>
    requires within { next ≤ length values.now }
    requires fits { first + count < 2 ^ 64 }
    ensures { (more : List Slot) → OnOk result
        (with_rest out.old.items (Slot.Fixed Fixed.OpenBrace ∷ (first_again_slots first count ++ more)) values.now next ≡ with_rest out.new.items more values.now next) }
{
    push_text(out, b"{")?;
    if count == 0 {
        return push_text(out, b"}");
    }
    write_again(out, values, next, first)?;
    write_more_again(out, values, next, first + 1, count - 1)
}

/// Adds the atoms at this many further indexes again, each after a comma, and the closing brace.
fn write_more_again(
    out: &mut Vec<u8>,
    values: &[Value<'_>],
    next: usize,
    first: usize,
    count: usize,
) -> Result<(), AllocError>
    requires within { next ≤ length values.now }
    requires fits { first + count < 2 ^ 64 }
    ensures { (more : List Slot) → OnOk result
        (with_rest out.old.items (again_slots first count ++ more) values.now next ≡ with_rest out.new.items more values.now next) }
{
    if count == 0 {
        return push_text(out, b"}");
    }
    push_text(out, b", ")?;
    write_again(out, values, next, first)?;
    write_more_again(out, values, next, first + 1, count - 1)
}
