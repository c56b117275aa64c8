// Finds the form that fits the tokens of a text.
ghost use Rattle.std.specs.Prelude.{◌≡◌, ◌≤◌, ◌∷◌, drop, flat_map, length, IfOk, IfSome, OnOk};
ghost use Rattle.vlog_tokens.specs.Tokens.{seen, spot, spots_at};
ghost use Rattle.vlog_forms.specs.Layout.{parts_of, slots_of};
ghost use Rattle.vlog_forms.specs.Reading.{all_forms, port_forms, read_forms, read_slots};
ghost use Rattle.vlog_form_parser.specs.Found.{all_found};
ghost use Rattle.vlog_form_parser.specs.Readings.{ReadsForm, ReadsTo, further};

use crate::found::Found;
use crate::slots::read_slots;
use crate::stop::ReadStop;
use crate::token::is_fixed;
use std::alloc::AllocError;
use vlog_forms::{Form, Slot, slots};
use vlog_tokens::{Fixed, Spot, next_token};

/// An item that fits a form: the form, and the offset after the item.
#[derive(Clone, Copy, Debug)]
pub struct Whole {
    pub form: Form,
    pub end: usize,
}

/// All forms, in the order in which they are tried.
pub fn all_forms() -> &'static [Form]
    ensures { result.now ≡ all_forms }
{
    &[
        Form::Input,
        Form::Output,
        Form::Register,
        Form::Word,
        Form::Memory,
        Form::WireBit,
        Form::WireWhole,
        Form::WirePart,
        Form::WireLut,
        Form::WireMajority,
        Form::WireChoose,
        Form::Assign,
        Form::FlipFlop,
        Form::AsyncFlipFlop,
        Form::AsyncReset,
        Form::Read,
        Form::ReadNarrow,
        Form::Write,
        Form::WriteNarrow,
        Form::Start,
        Form::End,
    ]
}

/// The forms of a port's declaration.
pub fn port_forms() -> &'static [Form]
    ensures { result.now ≡ port_forms }
{
    &[Form::Input, Form::Output]
}

/// Reads the first of these forms that fits, and leaves its values in `values`. The values that the forms repeat are given.
///
/// # Errors
/// [`ReadStop::Stuck`] if no form fits, with the offset of the token at which the form that got furthest stopped (the length of the text if
/// that ends there). [`ReadStop::Memory`] if memory is out.
pub fn read_forms<'a>(
    bytes: &'a [u8],
    from: usize,
    given: &[Found<'a>],
    forms: &[Form],
    values: &mut Vec<Found<'a>>,
) -> Result<Whole, ReadStop>
    requires { from ≤ length bytes.now }
    ensures reads { ReadsForm (read_forms (length bytes.now) (all_found given.now) forms.now (spots_at bytes.now from)) bytes.now (all_found values.new.items) result }
    ensures within { IfOk result (λ whole. whole.end ≤ length bytes.now) }
{
    read_each(bytes, from, next_token(bytes, from), given, forms, values)
}

/// Tries one form after another; `first` is the token at their front, which is read only once.
fn read_each<'a>(
    bytes: &'a [u8],
    from: usize,
    first: Option<Spot<'a>>,
    given: &[Found<'a>],
    forms: &[Form],
    values: &mut Vec<Found<'a>>,
) -> Result<Whole, ReadStop>
    requires within { from ≤ length bytes.now }
    requires first { IfSome first (λ found. spots_at bytes.now from ≡ spot found.at (seen found.token) ∷ spots_at bytes.now found.end) }
    requires following { IfSome first (λ found. found.end ≤ length bytes.now) }
    ensures reads { ReadsForm (read_forms (length bytes.now) (all_found given.now) forms.now (spots_at bytes.now from)) bytes.now (all_found values.new.items) result }
    ensures within { IfOk result (λ whole. whole.end ≤ length bytes.now) }
{
    match forms {
        [] => Err(ReadStop::Stuck(0)),
        [form, rest @ ..] => match read_form(bytes, from, first, given, *form, values) {
            Ok(end) => Ok(Whole { form: *form, end }),
            Err(ReadStop::Memory(refused)) => Err(ReadStop::Memory(refused)),
            Err(ReadStop::Stuck(stuck)) => {
                further(stuck, read_each(bytes, from, first, given, rest, values))
            }
        },
    }
}

/// Reads a form after the values that are given. If there is a first token, it isn't read again.
fn read_form<'a>(
    bytes: &'a [u8],
    from: usize,
    first: Option<Spot<'a>>,
    given: &[Found<'a>],
    form: Form,
    values: &mut Vec<Found<'a>>,
) -> Result<usize, ReadStop>
    requires within { from ≤ length bytes.now }
    requires first { IfSome first (λ found. spots_at bytes.now from ≡ spot found.at (seen found.token) ∷ spots_at bytes.now found.end) }
    requires following { IfSome first (λ found. found.end ≤ length bytes.now) }
    ensures reads { ReadsTo (read_slots (length bytes.now) (slots_of form) (all_found given.now) (spots_at bytes.now from)) bytes.now (all_found values.new.items) result }
    ensures within { IfOk result (λ end. end ≤ length bytes.now) }
{
    match first {
        None => read_after(bytes, from, given, slots(form), values),
        Some(spot) => read_begun(bytes, from, spot, given, slots(form), values),
    }
}

/// Reads slots after the values that are given, if the first token is known.
fn read_begun<'a>(
    bytes: &'a [u8],
    from: usize,
    first: Spot<'a>,
    given: &[Found<'a>],
    slots: &[Slot],
    values: &mut Vec<Found<'a>>,
) -> Result<usize, ReadStop>
    requires within { from ≤ length bytes.now }
    requires first { spots_at bytes.now from ≡ spot first.at (seen first.token) ∷ spots_at bytes.now first.end }
    requires following { first.end ≤ length bytes.now }
    ensures reads { ReadsTo (read_slots (length bytes.now) (flat_map parts_of slots.now) (all_found given.now) (spots_at bytes.now from)) bytes.now (all_found values.new.items) result }
    ensures within { IfOk result (λ end. end ≤ length bytes.now) }
{
    match first_sign(slots) {
        None => read_after(bytes, from, given, slots, values),
        Some(fixed) => {
            if is_fixed(fixed, first.token) {
                read_after(bytes, first.end, given, &slots[1..], values)
            } else {
                Err(ReadStop::Stuck(first.at))
            }
        }
    }
}

/// The sign or reserved word with which slots begin, if they begin with one.
fn first_sign(slots: &[Slot]) -> Option<Fixed>
    ensures { IfSome result (λ fixed. slots.now ≡ Slot.Fixed fixed ∷ drop 1 slots.now) }
{
    match slots {
        [] => None,
        [slot, ..] => match *slot {
            Slot::Fixed(fixed) => Some(fixed),
            _ => None,
        },
    }
}

/// Reads slots after the values that are given.
fn read_after<'a>(
    bytes: &'a [u8],
    from: usize,
    given: &[Found<'a>],
    slots: &[Slot],
    values: &mut Vec<Found<'a>>,
) -> Result<usize, ReadStop>
    requires { from ≤ length bytes.now }
    ensures reads { ReadsTo (read_slots (length bytes.now) (flat_map parts_of slots.now) (all_found given.now) (spots_at bytes.now from)) bytes.now (all_found values.new.items) result }
    ensures within { IfOk result (λ end. end ≤ length bytes.now) }
{
    match start_with(values, given) {
        Err(refused) => Err(ReadStop::Memory(refused)),
        Ok(()) => read_slots(bytes, from, slots, values),
    }
}

/// Makes the list hold exactly these values.
fn start_with<'a>(values: &mut Vec<Found<'a>>, given: &[Found<'a>]) -> Result<(), AllocError>
    ensures { OnOk result (values.new.items ≡ given.now) }
{
    values.clear();
    values.extend_from_slice(given)
}

/// The answer of the other forms, after one form stopped at an offset: the first that fits, else the offset of the one that got furthest.
fn further(stuck: usize, others: Result<Whole, ReadStop>) -> Result<Whole, ReadStop>
    ensures { result ≡ further stuck others }
{
    match others {
        Ok(whole) => Ok(whole),
        Err(ReadStop::Memory(refused)) => Err(ReadStop::Memory(refused)),
        Err(ReadStop::Stuck(other)) => Err(ReadStop::Stuck(stuck.max(other))),
    }
}
