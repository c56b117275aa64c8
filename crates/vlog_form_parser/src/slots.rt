// Slots of a form, one after another.
ghost use Rattle.std.specs.Prelude.{◌≡◌, suc, ◌≤◌, ◌<◌, ◌+◌, ◌^◌, ◌++◌, List, [], ◌∷◌, Option, flat_map, length, true, false, IfOk, MatchResult};
ghost use Rattle.std.specs.Option.{option_map};
ghost use Rattle.vlog_tokens.specs.Tokens.{spots_at};
ghost use Rattle.vlog_tokens.specs.Tokens as tokens;
ghost use Rattle.vlog_tokens.specs.Tokens.{TokenValue as value};
ghost use Rattle.vlog_forms.specs.Layout.{again_slots, atom_slots, first_again_slots, more_slots, parts_of, takes_value};
ghost use Rattle.vlog_forms.specs.Values.{edge_sign, seen, tokens_at, value_tokens};
ghost use Rattle.vlog_forms.specs.Reading.{edge_of, read_single, read_slots, read_tokens, single, values_of};
ghost use Rattle.vlog_form_parser.specs.Found.{all_found};
ghost use Rattle.vlog_form_parser.specs.Readings.{ReadsOver, ReadsTo, ReadsTokens};

use crate::atom::read_atom;
use crate::found::{Found, push_found};
use crate::stop::ReadStop;
use crate::token::{expect_token, is_fixed};
use vlog_forms::{Role, Slot, Value};
use vlog_tokens::{Fixed, Token, next_token};

/// Reads slots one after another, and adds their values to `values`.
///
/// # Errors
/// [`ReadStop::Stuck`] with the offset of the first token that doesn't fit its slot, or the length of the text if that ends before the slots
/// do. [`ReadStop::Memory`] if memory is out.
pub fn read_slots<'a>(
    bytes: &'a [u8],
    from: usize,
    slots: &[Slot],
    values: &mut Vec<Found<'a>>,
) -> Result<usize, ReadStop>
    requires { from ≤ length bytes.now }
    ensures reads { ReadsTo (read_slots (length bytes.now) (flat_map parts_of slots.now) (all_found values.old.items) (spots_at bytes.now from)) bytes.now (all_found values.new.items) result }
    ensures within { IfOk result (λ end. end ≤ length bytes.now) }
{
    match slots {
        [] => Ok(from),
        [slot, rest @ ..] => match read_slot(bytes, from, *slot, values) {
            Ok(end) => read_slots(bytes, end, rest, values),
            Err(stop) => Err(stop),
        },
    }
}

/// Reads a slot, and adds its value if it has one.
fn read_slot<'a>(
    bytes: &'a [u8],
    from: usize,
    slot: Slot,
    values: &mut Vec<Found<'a>>,
) -> Result<usize, ReadStop>
    requires { from ≤ length bytes.now }
    ensures reads { ReadsTo (read_slots (length bytes.now) (parts_of slot) (all_found values.old.items) (spots_at bytes.now from)) bytes.now (all_found values.new.items) result }
    ensures within { IfOk result (λ end. end ≤ length bytes.now) }
{
    match slot {
        Slot::Space => Ok(from),
        Slot::Fixed(fixed) => stop_at(expect_token(bytes, from, Token::Fixed(fixed))),
        Slot::Literal(number) => {
            stop_at(expect_token(bytes, from, Token::Number(u16::from(number))))
        }
        Slot::Again(place) => stop_at(read_again(
            bytes,
            from,
            values.as_slice(),
            usize::from(place),
        )),
        Slot::AtomsAgain(first, count) => stop_at(read_atoms_again(
            bytes,
            from,
            values.as_slice(),
            usize::from(first),
            usize::from(count),
        )),
        Slot::Atoms(count) => read_atoms(bytes, from, values, usize::from(count)),
        Slot::Atom => read_atom(bytes, from, values),
        Slot::Name(_) => read_single(bytes, from, slot, values),
        Slot::Edge => read_single(bytes, from, slot, values),
        Slot::Bit => read_single(bytes, from, slot, values),
        Slot::Word => read_single(bytes, from, slot, values),
        Slot::Index(_) => read_single(bytes, from, slot, values),
    }
}

/// The answer of a reading that keeps no value, with the error type of one that does.
fn stop_at(reading: Result<usize, usize>) -> Result<usize, ReadStop>
    ensures { MatchResult reading (λ end. result ≡ Ok end) (λ stuck. result ≡ Err (ReadStop.Stuck stuck)) }
{
    match reading {
        Ok(end) => Ok(end),
        Err(stuck) => Err(ReadStop::Stuck(stuck)),
    }
}

/// Reads a token that is a value, and adds it.
fn read_single<'a>(
    bytes: &'a [u8],
    from: usize,
    slot: Slot,
    values: &mut Vec<Found<'a>>,
) -> Result<usize, ReadStop>
    requires { from ≤ length bytes.now }
    ensures reads { ReadsTo (read_single (length bytes.now) slot (all_found values.old.items) (spots_at bytes.now from)) bytes.now (all_found values.new.items) result }
    ensures within { IfOk result (λ end. end ≤ length bytes.now) }
{
    match next_token(bytes, from) {
        None => Err(ReadStop::Stuck(bytes.len())),
        Some(spot) => match single(slot, spot.token) {
            None => Err(ReadStop::Stuck(spot.at)),
            Some(value) => match push_found(values, spot.at, value) {
                Ok(()) => Ok(spot.end),
                Err(refused) => Err(ReadStop::Memory(refused)),
            },
        },
    }
}

/// The value that a token is in a slot, if it fits.
fn single<'a>(slot: Slot, token: Token<'a>) -> Option<Value<'a>>
    ensures { option_map seen result ≡ single slot (tokens.seen token.entry) }
{
    match slot {
        Slot::Name(role) => single_name(role, token),
        Slot::Edge => single_edge(token),
        Slot::Bit => single_bit(token),
        Slot::Word => single_word(token),
        Slot::Index(limit) => single_index(limit, token),
        Slot::Space => None,
        Slot::Fixed(_) => None,
        Slot::Literal(_) => None,
        Slot::Again(_) => None,
        Slot::AtomsAgain(_, _) => None,
        Slot::Atom => None,
        Slot::Atoms(_) => None,
    }
}

/// The name that a token is, if it is one.
fn single_name<'a>(role: Role, token: Token<'a>) -> Option<Value<'a>>
    ensures { option_map seen result ≡ single (Slot.Name role) (tokens.seen token.entry) }
{
    match token {
        Token::Name(name) => Some(Value::Name(role, name)),
        Token::Fixed(_) => None,
        Token::Bit(_) => None,
        Token::Word(_) => None,
        Token::Number(_) => None,
        Token::Stray => None,
    }
}

/// The edge that a token is, if it is one.
fn single_edge<'a>(token: Token<'a>) -> Option<Value<'a>>
    ensures { option_map seen result ≡ edge_of (tokens.seen token.entry) }
{
    if is_fixed(Fixed::Posedge, token) {
        Some(Value::Edge(false))
    } else if is_fixed(Fixed::Negedge, token) {
        Some(Value::Edge(true))
    } else {
        None
    }
}

/// The bit that a token is, if it is one.
fn single_bit<'a>(token: Token<'a>) -> Option<Value<'a>>
    ensures { option_map seen result ≡ single Slot.Bit (tokens.seen token.entry) }
{
    match token {
        Token::Bit(bit) => Some(Value::Bit(bit)),
        Token::Fixed(_) => None,
        Token::Name(_) => None,
        Token::Word(_) => None,
        Token::Number(_) => None,
        Token::Stray => None,
    }
}

/// The word that a token is, if it is one.
fn single_word<'a>(token: Token<'a>) -> Option<Value<'a>>
    ensures { option_map seen result ≡ single Slot.Word (tokens.seen token.entry) }
{
    match token {
        Token::Word(word) => Some(Value::Word(word)),
        Token::Fixed(_) => None,
        Token::Name(_) => None,
        Token::Bit(_) => None,
        Token::Number(_) => None,
        Token::Stray => None,
    }
}

/// The number that a token is, if it is one up to this limit.
fn single_index<'a>(limit: u8, token: Token<'a>) -> Option<Value<'a>>
    ensures { option_map seen result ≡ single (Slot.Index limit) (tokens.seen token.entry) }
{
    match token {
        Token::Number(number) => {
            if number <= u16::from(limit) {
                Some(Value::Index(number as u8))
            } else {
                None
            }
        }
        Token::Fixed(_) => None,
        Token::Name(_) => None,
        Token::Bit(_) => None,
        Token::Word(_) => None,
        Token::Stray => None,
    }
}

/// Reads the tokens of the value at an index again.
fn read_again(bytes: &[u8], from: usize, values: &[Found<'_>], place: usize) -> Result<usize, usize>
    requires { from ≤ length bytes.now }
    ensures reads { ReadsTokens (read_tokens (length bytes.now) (tokens_at (values_of (all_found values.now)) place) (spots_at bytes.now from)) bytes.now result }
    ensures within { IfOk result (λ end. end ≤ length bytes.now) }
{
    if place < values.len() {
        read_value(bytes, from, values[place].value)
    } else {
        expect_token(bytes, from, Token::Stray)
    }
}

/// Reads the tokens of a value.
fn read_value(bytes: &[u8], from: usize, given: Value<'_>) -> Result<usize, usize>
    requires { from ≤ length bytes.now }
    ensures reads { ReadsTokens (read_tokens (length bytes.now) (value_tokens (seen given.entry)) (spots_at bytes.now from)) bytes.now result }
    ensures within { IfOk result (λ end. end ≤ length bytes.now) }
{
    match given {
        Value::Name(_, name) => expect_token(bytes, from, Token::Name(name)),
        Value::Edge(falling) => expect_edge(bytes, from, falling),
        Value::Bit(bit) => expect_token(bytes, from, Token::Bit(bit)),
        Value::Word(word) => expect_token(bytes, from, Token::Word(word)),
        Value::Index(index) => expect_token(bytes, from, Token::Number(u16::from(index))),
        Value::AtomBit(bit) => expect_token(bytes, from, Token::Bit(bit)),
        Value::AtomName(name) => expect_token(bytes, from, Token::Name(name)),
        Value::AtomPart(name, k) => expect_part(bytes, from, name, k),
    }
}

/// Reads the reserved word of an edge.
fn expect_edge(bytes: &[u8], from: usize, falling: bool) -> Result<usize, usize>
    requires { from ≤ length bytes.now }
    ensures reads { ReadsTokens (read_tokens (length bytes.now) (value.fixed (edge_sign falling) ∷ []) (spots_at bytes.now from)) bytes.now result }
    ensures within { IfOk result (λ end. end ≤ length bytes.now) }
{
    if falling {
        expect_token(bytes, from, Token::Fixed(Fixed::Negedge))
    } else {
        expect_token(bytes, from, Token::Fixed(Fixed::Posedge))
    }
}

/// Reads `NAME[k]`.
fn expect_part(bytes: &[u8], from: usize, name: &[u8], k: u8) -> Result<usize, usize>
    requires { from ≤ length bytes.now }
    ensures reads { ReadsTokens (read_tokens (length bytes.now)
        (value.name name.now ∷ value.fixed Fixed.OpenBracket ∷ value.number k ∷ value.fixed Fixed.CloseBracket ∷ []) (spots_at bytes.now from)) bytes.now result }
    ensures within { IfOk result (λ end. end ≤ length bytes.now) }
{
    match expect_token(bytes, from, Token::Name(name)) {
        Err(stuck) => Err(stuck),
        Ok(end) => match expect_token(bytes, end, Token::Fixed(Fixed::OpenBracket)) {
            Err(stuck) => Err(stuck),
            Ok(end) => match expect_token(bytes, end, Token::Number(u16::from(k))) {
                Err(stuck) => Err(stuck),
                Ok(end) => expect_token(bytes, end, Token::Fixed(Fixed::CloseBracket)),
            },
        },
    }
}

/// Reads this many atoms in braces, and adds them.
fn read_atoms<'a>(
    bytes: &'a [u8],
    from: usize,
    values: &mut Vec<Found<'a>>,
    count: usize,
) -> Result<usize, ReadStop>
    requires { from ≤ length bytes.now }
    ensures reads { ReadsTo (read_slots (length bytes.now) (Slot.Fixed Fixed.OpenBrace ∷ atom_slots count) (all_found values.old.items) (spots_at bytes.now from)) bytes.now (all_found values.new.items) result }
    ensures within { IfOk result (λ end. end ≤ length bytes.now) }
{
    match expect_token(bytes, from, Token::Fixed(Fixed::OpenBrace)) {
        Err(stuck) => Err(ReadStop::Stuck(stuck)),
        Ok(end) => {
            if count == 0 {
                stop_at(expect_token(bytes, end, Token::Fixed(Fixed::CloseBrace)))
            } else {
                read_next_atom(bytes, end, values, count - 1)
            }
        }
    }
}

/// Reads an atom and this many further ones, up to the closing brace, and adds them.
fn read_next_atom<'a>(
    bytes: &'a [u8],
    from: usize,
    values: &mut Vec<Found<'a>>,
    count: usize,
) -> Result<usize, ReadStop>
    requires { from ≤ length bytes.now }
    ensures reads { ReadsTo (read_slots (length bytes.now) (Slot.Atom ∷ more_slots count) (all_found values.old.items) (spots_at bytes.now from)) bytes.now (all_found values.new.items) result }
    ensures within { IfOk result (λ end. end ≤ length bytes.now) }
{
    match read_atom(bytes, from, values) {
        Err(stop) => Err(stop),
        Ok(end) => {
            if count == 0 {
                stop_at(expect_token(bytes, end, Token::Fixed(Fixed::CloseBrace)))
            } else {
                match expect_token(bytes, end, Token::Fixed(Fixed::Comma)) {
                    Err(stuck) => Err(ReadStop::Stuck(stuck)),
                    Ok(end) => read_next_atom(bytes, end, values, count - 1),
                }
            }
        }
    }
}

/// Reads the atoms at the indexes from the first one on, as many as `count`, again in braces.
fn read_atoms_again(
    bytes: &[u8],
    from: usize,
    values: &[Found<'_>],
    first: usize,
    count: usize,
) -> Result<usize, usize>
    requires place { from ≤ length bytes.now }
    requires fits { first + count < 2 ^ 63 }
    ensures reads { ReadsOver (read_slots (length bytes.now) (Slot.Fixed Fixed.OpenBrace ∷ first_again_slots first count) (all_found values.now) (spots_at bytes.now from)) bytes.now (all_found values.now) result }
    ensures within { IfOk result (λ end. end ≤ length bytes.now) }
{
    match expect_token(bytes, from, Token::Fixed(Fixed::OpenBrace)) {
        Err(stuck) => Err(stuck),
        Ok(end) => {
            if count == 0 {
                expect_token(bytes, end, Token::Fixed(Fixed::CloseBrace))
            } else {
                read_next_again(bytes, end, values, first, count - 1)
            }
        }
    }
}

/// Reads the atom at an index and those at this many further indexes again, up to the closing brace.
fn read_next_again(
    bytes: &[u8],
    from: usize,
    values: &[Found<'_>],
    first: usize,
    count: usize,
) -> Result<usize, usize>
    requires place { from ≤ length bytes.now }
    requires fits { first + count < 2 ^ 63 }
    ensures reads { ReadsOver (read_slots (length bytes.now) (Slot.Again first ∷ again_slots (suc first) count) (all_found values.now) (spots_at bytes.now from)) bytes.now (all_found values.now) result }
    ensures within { IfOk result (λ end. end ≤ length bytes.now) }
{
    match read_again(bytes, from, values, first) {
        Err(stuck) => Err(stuck),
        Ok(end) => {
            if count == 0 {
                expect_token(bytes, end, Token::Fixed(Fixed::CloseBrace))
            } else {
                match expect_token(bytes, end, Token::Fixed(Fixed::Comma)) {
                    Err(stuck) => Err(stuck),
                    Ok(end) => read_next_again(bytes, end, values, first + 1, count - 1),
                }
            }
        }
    }
}
