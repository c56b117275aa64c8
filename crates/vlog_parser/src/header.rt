// The header.
ghost use Rattle.std.specs.Prelude.{◌≡◌, ◌<◌, ◌≤◌, [], ◌∷◌, length, IfOk};
ghost use Rattle.vlog_tokens.specs.Tokens.{seen, spots_at, spots_of};
ghost use Rattle.vlog_forms.specs.Outcome.{header_slots, may_close, port_names, port_step, read_header, sign_step, wants_name};
ghost use Rattle.vlog_form_parser.specs.Found.{all_found};
ghost use Rattle.vlog_form_parser.specs.Readings.{ReadsTo};
ghost use Rattle.vlog_parser.specs.Headers.{ReadsHeader, ReadsTurn, seen_step, turn_of};

use vlog_form_parser::{Found, ReadStop, expect_token, is_fixed, push_found, read_slots};
use vlog_forms::{Role, Slot, Value};
use vlog_module::Sort;
use vlog_tokens::{Fixed, Token, next_token};

/// `module NAME (`.
fn header_slots() -> &'static [Slot]
    ensures { result.now ≡ header_slots }
{
    &[
        Slot::Fixed(Fixed::Module),
        Slot::Name(Role::Declares(Sort::Input)),
        Slot::Fixed(Fixed::OpenParen),
    ]
}

/// Reads the header. The module's name is added to `head`, the names of the ports to `names`.
pub(crate) fn read_header<'a>(
    bytes: &'a [u8],
    head: &mut Vec<Found<'a>>,
    names: &mut Vec<Found<'a>>,
) -> Result<usize, ReadStop>
    requires head { head.old.items ≡ [] }
    requires names { names.old.items ≡ [] }
    ensures reads { ReadsHeader (read_header (length bytes.now) (spots_of bytes.now)) bytes.now (all_found head.new.items) (all_found names.new.items) result }
    ensures within { IfOk result (λ end. end ≤ length bytes.now) }
{
    match read_slots(bytes, 0, header_slots(), head) {
        Err(stop) => Err(stop),
        Ok(listed) => match read_names(bytes, listed, names) {
            Err(stop) => Err(stop),
            Ok(closed) => match expect_token(bytes, closed, Token::Fixed(Fixed::Semicolon)) {
                Err(stuck) => Err(ReadStop::Stuck(stuck)),
                Ok(end) => Ok(end),
            },
        },
    }
}

/// What the list of ports had last.
#[derive(Clone, Copy, Debug)]
pub(crate) enum Turn {
    /// `(`: a name or `)` may follow.
    Opened,
    /// A name: a comma or `)` may follow.
    Named,
    /// A comma: a name may follow.
    Parted,
}

/// What a token does in the list of ports.
#[derive(Clone, Copy, Debug)]
pub(crate) enum Step<'a> {
    /// The next name.
    TakesName(&'a [u8]),
    /// A comma between two names.
    Parts,
    /// The `)` that ends the list.
    Closes,
    /// A token that doesn't fit.
    Stops,
}

/// Reads the names of the ports, up to `)`, and adds them.
fn read_names<'a>(
    bytes: &'a [u8],
    from: usize,
    names: &mut Vec<Found<'a>>,
) -> Result<usize, ReadStop>
    requires { from ≤ length bytes.now }
    ensures reads { ReadsTo (port_names (length bytes.now) (turn_of Turn.Opened) (all_found names.old.items) (spots_at bytes.now from)) bytes.now (all_found names.new.items) result }
    ensures within { IfOk result (λ end. end ≤ length bytes.now) }
{
    let mut turn = Turn::Opened;
    let mut from = from;
    loop {
        match read_turn(bytes, from, turn, names) {
            Err(stop) => return Err(stop),
            Ok((None, end)) => return Ok(end),
            Ok((Some(next), end)) => {
                turn = next;
                from = end;
            }
        }
    }
}

/// Reads the next token of the list of ports. Returns what the list had last (none after `)`), and the offset after the token.
fn read_turn<'a>(
    bytes: &'a [u8],
    from: usize,
    turn: Turn,
    names: &mut Vec<Found<'a>>,
) -> Result<(Option<Turn>, usize), ReadStop>
    requires { from ≤ length bytes.now }
    ensures reads { ReadsTurn (port_names (length bytes.now) (turn_of turn) (all_found names.old.items) (spots_at bytes.now from)) bytes.now (all_found names.new.items) result }
    ensures within { IfOk result (λ read. (from < read.1) × (read.1 ≤ length bytes.now)) }
{
    match next_token(bytes, from) {
        None => Err(ReadStop::Stuck(bytes.len())),
        Some(spot) => match step_of(turn, spot.token) {
            Step::TakesName(name) => {
                let value = Value::Name(Role::Declares(Sort::Input), name);
                match push_found(names, spot.at, value) {
                    Ok(()) => Ok((Some(Turn::Named), spot.end)),
                    Err(refused) => Err(ReadStop::Memory(refused)),
                }
            }
            Step::Parts => Ok((Some(Turn::Parted), spot.end)),
            Step::Closes => Ok((None, spot.end)),
            Step::Stops => Err(ReadStop::Stuck(spot.at)),
        },
    }
}

/// What a token does in the list of ports.
fn step_of<'a>(turn: Turn, token: Token<'a>) -> Step<'a>
    ensures { seen_step result ≡ port_step (turn_of turn) (seen token.entry) }
{
    match token {
        Token::Name(name) => {
            if wants_name(turn) {
                Step::TakesName(name)
            } else {
                Step::Stops
            }
        }
        Token::Fixed(_) => sign_step(turn, token),
        Token::Bit(_) => sign_step(turn, token),
        Token::Word(_) => sign_step(turn, token),
        Token::Number(_) => sign_step(turn, token),
        Token::Stray => sign_step(turn, token),
    }
}

/// What a token that is no name does in the list of ports.
fn sign_step<'a>(turn: Turn, token: Token<'a>) -> Step<'a>
    ensures { seen_step result ≡ sign_step (turn_of turn) (seen token.entry) }
{
    if is_fixed(Fixed::Comma, token) {
        if wants_name(turn) {
            Step::Stops
        } else {
            Step::Parts
        }
    } else if is_fixed(Fixed::CloseParen, token) {
        if may_close(turn) {
            Step::Closes
        } else {
            Step::Stops
        }
    } else {
        Step::Stops
    }
}

/// Whether a name may follow.
fn wants_name(turn: Turn) -> bool
    ensures { result ≡ wants_name (turn_of turn) }
{
    match turn {
        Turn::Opened => true,
        Turn::Named => false,
        Turn::Parted => true,
    }
}

/// Whether `)` may follow.
fn may_close(turn: Turn) -> bool
    ensures { result ≡ may_close (turn_of turn) }
{
    match turn {
        Turn::Opened => true,
        Turn::Named => true,
        Turn::Parted => false,
    }
}
