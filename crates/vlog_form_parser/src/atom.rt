// Atoms: a bit, a name or `NAME[k]`.
ghost use Rattle.std.specs.Prelude.{◌≡◌, ◌≤◌, ◌++◌, [], ◌∷◌, true, false, length, IfOk, IfSome, MatchOption, MatchResult};
ghost use Rattle.vlog_tokens.specs.Tokens.{spots_at};
ghost use Rattle.vlog_tokens.specs.Tokens.{TokenValue as token};
ghost use Rattle.vlog_forms.specs.Values.{seen};
ghost use Rattle.vlog_forms.specs.Reading.{atom_from, after_open, close_part, found_at, opens, read_atom, read_part};
ghost use Rattle.vlog_form_parser.specs.Found.{all_found};
ghost use Rattle.vlog_form_parser.specs.Readings.{IsMemory, ReadsIndex, ReadsTo};

use crate::found::{Found, push_found};
use crate::stop::ReadStop;
use crate::token::{expect_token, is_fixed};
use vlog_forms::Value;
use vlog_tokens::{Fixed, Token, next_token};

/// Reads an atom, and adds it to the values.
pub fn read_atom<'a>(
    bytes: &'a [u8],
    from: usize,
    values: &mut Vec<Found<'a>>,
) -> Result<usize, ReadStop>
    requires { from ≤ length bytes.now }
    ensures reads { ReadsTo (read_atom (length bytes.now) (all_found values.old.items) (spots_at bytes.now from)) bytes.now (all_found values.new.items) result }
    ensures within { IfOk result (λ end. end ≤ length bytes.now) }
{
    match next_token(bytes, from) {
        None => Err(ReadStop::Stuck(bytes.len())),
        Some(spot) => match spot.token {
            Token::Bit(bit) => keep_atom(values, spot.at, Value::AtomBit(bit), spot.end),
            Token::Name(name) => read_named(bytes, spot.at, name, spot.end, values),
            Token::Fixed(_) => Err(ReadStop::Stuck(spot.at)),
            Token::Word(_) => Err(ReadStop::Stuck(spot.at)),
            Token::Number(_) => Err(ReadStop::Stuck(spot.at)),
            Token::Stray => Err(ReadStop::Stuck(spot.at)),
        },
    }
}

/// Reads what follows the name of an atom: `[k]`, or nothing.
fn read_named<'a>(
    bytes: &'a [u8],
    at: usize,
    name: &'a [u8],
    from: usize,
    values: &mut Vec<Found<'a>>,
) -> Result<usize, ReadStop>
    requires { from ≤ length bytes.now }
    ensures reads { ReadsTo (atom_from (length bytes.now) (all_found values.old.items) at (token.name name.now) (spots_at bytes.now from)) bytes.now (all_found values.new.items) result }
    ensures within { IfOk result (λ end. end ≤ length bytes.now) }
{
    match after_open(bytes, from) {
        None => keep_atom(values, at, Value::AtomName(name), from),
        Some(following) => match read_part(bytes, following) {
            Err(stuck) => Err(ReadStop::Stuck(stuck)),
            Ok((k, end)) => keep_atom(values, at, Value::AtomPart(name, k), end),
        },
    }
}

/// Adds an atom that ends at an offset to the values.
fn keep_atom<'a>(
    values: &mut Vec<Found<'a>>,
    at: usize,
    value: Value<'a>,
    end: usize,
) -> Result<usize, ReadStop>
    ensures { MatchResult result (λ following. (following ≡ end) × (all_found values.new.items ≡ all_found values.old.items ++ found_at at (seen value.entry) ∷ []))
        (λ stop. IsMemory stop) }
{
    match push_found(values, at, value) {
        Ok(()) => Ok(end),
        Err(refused) => Err(ReadStop::Memory(refused)),
    }
}

/// The offset after `[`, if that is the next token.
fn after_open(bytes: &[u8], from: usize) -> Option<usize>
    requires { from ≤ length bytes.now }
    ensures opens { MatchOption result (opens (spots_at bytes.now from) ≡ false)
        (λ end. (opens (spots_at bytes.now from) ≡ true) × (after_open (spots_at bytes.now from) ≡ spots_at bytes.now end)) }
    ensures within { IfSome result (λ end. end ≤ length bytes.now) }
{
    match next_token(bytes, from) {
        None => None,
        Some(spot) => {
            if is_fixed(Fixed::OpenBracket, spot.token) {
                Some(spot.end)
            } else {
                None
            }
        }
    }
}

/// Reads the index of a bit in a register of 16 bits, and `]`.
fn read_part(bytes: &[u8], from: usize) -> Result<(u8, usize), usize>
    requires { from ≤ length bytes.now }
    ensures reads { ReadsIndex (read_part (length bytes.now) (spots_at bytes.now from)) bytes.now result }
    ensures within { IfOk result (λ part. part.1 ≤ length bytes.now) }
{
    match next_token(bytes, from) {
        None => Err(bytes.len()),
        Some(spot) => match spot.token {
            Token::Number(k) => {
                if k <= 15 {
                    close_part(bytes, spot.end, k as u8)
                } else {
                    Err(spot.at)
                }
            }
            Token::Fixed(_) => Err(spot.at),
            Token::Name(_) => Err(spot.at),
            Token::Bit(_) => Err(spot.at),
            Token::Word(_) => Err(spot.at),
            Token::Stray => Err(spot.at),
        },
    }
}

/// Reads `]` after the index of a bit.
fn close_part(bytes: &[u8], from: usize, k: u8) -> Result<(u8, usize), usize>
    requires { from ≤ length bytes.now }
    ensures reads { ReadsIndex (close_part (length bytes.now) k (spots_at bytes.now from)) bytes.now result }
    ensures within { IfOk result (λ part. part.1 ≤ length bytes.now) }
{
    match expect_token(bytes, from, Token::Fixed(Fixed::CloseBracket)) {
        Ok(end) => Ok((k, end)),
        Err(stuck) => Err(stuck),
    }
}
