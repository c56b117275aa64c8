// The lines of the values that an event changed. The clauses `room` and `full` say that the text's capacity doesn't get less, and that
// adding fails only if the text has too little room.
ghost use Rattle.std.specs.Prelude.{◌≡◌, ◌+◌, ◌<◌, ◌≤◌, ◌^◌, [], ◌∷◌, ◌++◌, length, map, vec_len, vec_capacity, OnOk, OnErr, if◌then◌else◌};
ghost use Rattle.text_lines.specs.Written.{text_of};
ghost use Rattle.vlog_waves.specs.Variables.Value.{one_bit, sixteen_bits};
ghost use Rattle.vlog_waves.specs.Waves.{changed_lines, is_same, time_line, value_line};
ghost use Rattle.vlog_waves.specs.inside.Values.{AreAlike, event_room, values_held};

use crate::lines::{push_bit, push_time, push_word};
use crate::values::Values;
use std::alloc::AllocError;

/// Adds the line of a bit, if it changed.
fn push_changed_bit(
    text: &mut Vec<u8>,
    number: usize,
    old: bool,
    new: bool,
) -> Result<(), AllocError>
    ensures text { OnOk result (text.new.items ≡ text.old.items ++ text_of (changed_lines number (one_bit old ∷ []) (one_bit new ∷ []))) }
    ensures room { vec_capacity text.old ≤ vec_capacity text.new }
    ensures full { OnErr result (vec_capacity text.old < vec_len text.old + length (text_of (changed_lines number (one_bit old ∷ []) (one_bit new ∷ [])))) }
{
    if old == new {
        Ok(())
    } else {
        push_bit(text, number, new)
    }
}

/// Adds the line of a word, if it changed.
fn push_changed_word(
    text: &mut Vec<u8>,
    number: usize,
    old: u16,
    new: u16,
) -> Result<(), AllocError>
    ensures text { OnOk result (text.new.items ≡ text.old.items ++ text_of (changed_lines number (sixteen_bits old ∷ []) (sixteen_bits new ∷ []))) }
    ensures room { vec_capacity text.old ≤ vec_capacity text.new }
    ensures full { OnErr result (vec_capacity text.old < vec_len text.old + length (text_of (changed_lines number (sixteen_bits old ∷ []) (sixteen_bits new ∷ [])))) }
{
    if old == new {
        Ok(())
    } else {
        push_word(text, number, new)
    }
}

/// Adds the lines of the bits that changed. The numbers of their variables begin with this one.
fn push_changed_bits(
    text: &mut Vec<u8>,
    number: usize,
    before: &[bool],
    after: &[bool],
) -> Result<(), AllocError>
    requires few { number + length before.now < 2 ^ 64 }
    requires alike { length before.now ≡ length after.now }
    ensures text { OnOk result (text.new.items ≡ text.old.items ++ text_of (changed_lines number (map one_bit before.now) (map one_bit after.now))) }
    ensures room { vec_capacity text.old ≤ vec_capacity text.new }
    ensures full { OnErr result (vec_capacity text.old < vec_len text.old + length (text_of (changed_lines number (map one_bit before.now) (map one_bit after.now)))) }
{
    for place in 0..before.len() {
        push_changed_bit(text, number + place, before[place], after[place])?;
    }
    Ok(())
}

/// Adds the lines of the words that changed. The numbers of their variables begin with this one.
fn push_changed_words(
    text: &mut Vec<u8>,
    number: usize,
    before: &[u16],
    after: &[u16],
) -> Result<(), AllocError>
    requires few { number + length before.now < 2 ^ 64 }
    requires alike { length before.now ≡ length after.now }
    ensures text { OnOk result (text.new.items ≡ text.old.items ++ text_of (changed_lines number (map sixteen_bits before.now) (map sixteen_bits after.now))) }
    ensures room { vec_capacity text.old ≤ vec_capacity text.new }
    ensures full { OnErr result (vec_capacity text.old < vec_len text.old + length (text_of (changed_lines number (map sixteen_bits before.now) (map sixteen_bits after.now)))) }
{
    for place in 0..before.len() {
        push_changed_word(text, number + place, before[place], after[place])?;
    }
    Ok(())
}

/// Adds the lines of the values that changed.
fn push_changes(text: &mut Vec<u8>, before: &Values, after: &Values) -> Result<(), AllocError>
    requires { AreAlike before.now after.now }
    ensures text { OnOk result (text.new.items ≡ text.old.items ++ text_of (changed_lines 0 (values_held before.now) (values_held after.now))) }
    ensures room { vec_capacity text.old ≤ vec_capacity text.new }
    ensures full { OnErr result (vec_capacity text.old < vec_len text.old + length (text_of (changed_lines 0 (values_held before.now) (values_held after.now)))) }
{
    push_changed_bits(text, 0, &before.ports, &after.ports)?;
    push_changed_bits(
        text,
        before.first_register(),
        &before.registers,
        &after.registers,
    )?;
    push_changed_words(text, before.first_word(), &before.words, &after.words)?;
    push_changed_bits(text, before.first_wire(), &before.wires, &after.wires)
}

/// Adds the time of an event and the lines of the values that it changed. This doesn't fail if the text has enough room for them.
pub(crate) fn push_event(
    text: &mut Vec<u8>,
    time: u64,
    before: &Values,
    after: &Values,
) -> Result<(), AllocError>
    requires { AreAlike before.now after.now }
    ensures text { OnOk result (text.new.items ≡ text.old.items ++ text_of (time_line time ∷ changed_lines 0 (values_held before.now) (values_held after.now))) }
    ensures room { vec_capacity text.old ≤ vec_capacity text.new }
    ensures full { OnErr result (vec_capacity text.old < vec_len text.old + event_room before.now) }
    ensures most { OnOk result (vec_len text.new ≤ vec_len text.old + event_room before.now) }
{
    push_time(text, time)?;
    push_changes(text, before, after)
}
