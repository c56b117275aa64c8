// The tokens of a text, one after another.
ghost use Rattle.std.specs.Prelude.{◌≡◌, ◌+◌, ◌-◌, ◌<◌, ◌≤◌, [], ◌∷◌, length, drop, false, MatchOption, IfSome};
ghost use Rattle.vlog_tokens.specs.Bytes.{is_blank, is_bit_text, is_word_text, word_value, number_length, number_value, byte_at};
ghost use Rattle.vlog_tokens.specs.Spellings.{IsLongest};
ghost use Rattle.vlog_tokens.specs.Tokens.{seen, spot, spots_at, front_token, front_length, name_or_word, sign_token, sign_length, digits_token, digits_length};

use crate::bytes::{
    blank_length, byte_at, digit_value, hex_value, is_digit, is_hex_digit, is_letter, name_length,
    rest_from,
};
use crate::fixed::{Fixed, fixed_pair, fixed_sign, fixed_word};

/// A token.
#[derive(Clone, Copy, Debug)]
pub enum Token<'a> {
    /// A sign or a reserved word.
    Fixed(Fixed),
    /// A name that isn't reserved.
    Name(&'a [u8]),
    /// `1'b0` or `1'b1`.
    Bit(bool),
    /// `16'h` and four hexadecimal digits.
    Word(u16),
    /// One to three decimal digits.
    Number(u16),
    /// A byte at which no token begins.
    Stray,
}

/// A token, the offset of its first byte, and the offset after its last byte.
#[derive(Clone, Copy, Debug)]
pub struct Spot<'a> {
    pub token: Token<'a>,
    pub at: usize,
    pub end: usize,
}

/// The first token from an offset on, the longest that begins there. None if only white space follows.
pub fn next_token(bytes: &[u8], from: usize) -> Option<Spot<'_>>
    requires { from ≤ length bytes.now }
    ensures spots { MatchOption result (spots_at bytes.now from ≡ [])
        (λ found. spots_at bytes.now from ≡ spot found.at (seen found.token) ∷ spots_at bytes.now found.end) }
    ensures within { IfSome result (λ found. (from ≤ found.at) × (found.at < found.end) × (found.end ≤ length bytes.now)) }
    ensures end { IfSome result (λ found. found.end ≡ found.at + front_length (drop found.at bytes.now)) }
    ensures longest { IfSome result (λ found. IsLongest (drop found.at bytes.now) (seen found.token) (found.end - found.at)) }
{
    let at = skip_blanks(bytes, from);
    if at == bytes.len() {
        return None;
    }
    let (token, length) = front_token(rest_from(bytes, at));
    Some(Spot {
        token,
        at,
        end: at + length,
    })
}

/// The offset of the first byte from an offset on that isn't white space, or the end of the text.
fn skip_blanks(bytes: &[u8], from: usize) -> usize
    requires { from ≤ length bytes.now }
    ensures same { spots_at bytes.now from ≡ spots_at bytes.now result }
    ensures within { (from ≤ result) × (result ≤ length bytes.now) }
    ensures stops { result < length bytes.now → is_blank (byte_at bytes.now result) ≡ false }
{
    from + blank_length(rest_from(bytes, from))
}

/// The token at the front and its length. The first byte isn't white space.
#[tactic(auto, using(crate::proofs::Lengths::front_within), unfolding(crate::specs::Tokens::front_token, crate::specs::Tokens::front_length))]
fn front_token(bytes: &[u8]) -> (Token<'_>, usize)
    requires { 0 < length bytes.now }
    ensures token { seen result.0 ≡ front_token bytes.now }
    ensures length { result.1 ≡ front_length bytes.now }
    ensures within { (0 < result.1) × (result.1 ≤ length bytes.now) }
{
    let first = bytes[0];
    if is_letter(first) {
        let length = name_length(bytes);
        (name_or_word(&bytes[..length]), length)
    } else if is_digit(first) {
        digits_token(bytes)
    } else {
        sign_token(bytes)
    }
}

/// The reserved word with this spelling, else a name.
#[tactic(auto, unfolding(crate::specs::Tokens::name_or_word))]
fn name_or_word(text: &[u8]) -> Token<'_>
    ensures { seen result ≡ name_or_word text.now }
{
    match fixed_word(text) {
        Some(word) => Token::Fixed(word),
        None => Token::Name(text),
    }
}

/// The token at the front and its length, if the first byte is a digit.
#[tactic(auto, unfolding(crate::specs::Tokens::digits_token, crate::specs::Tokens::digits_length))]
fn digits_token(bytes: &[u8]) -> (Token<'_>, usize)
    ensures token { seen result.0 ≡ digits_token bytes.now }
    ensures length { result.1 ≡ digits_length bytes.now }
{
    if is_bit_text(bytes) {
        (Token::Bit(byte_at(bytes, 3) == b'1'), 4)
    } else if is_word_text(bytes) {
        (Token::Word(word_value(bytes)), 8)
    } else {
        (Token::Number(number_value(bytes)), number_length(bytes))
    }
}

/// The token at the front and its length, if the first byte is neither a letter nor a digit.
#[tactic(auto, unfolding(crate::specs::Tokens::sign_token, crate::specs::Tokens::sign_length))]
fn sign_token(bytes: &[u8]) -> (Token<'_>, usize)
    ensures token { seen result.0 ≡ sign_token bytes.now }
    ensures length { result.1 ≡ sign_length bytes.now }
{
    if let Some(sign) = fixed_pair(byte_at(bytes, 0), byte_at(bytes, 1)) {
        (Token::Fixed(sign), 2)
    } else if let Some(sign) = fixed_sign(byte_at(bytes, 0)) {
        (Token::Fixed(sign), 1)
    } else {
        (Token::Stray, 1)
    }
}

/// Whether the text begins with `1'b0` or `1'b1`.
fn is_bit_text(bytes: &[u8]) -> bool
    ensures { result ≡ is_bit_text bytes.now }
{
    byte_at(bytes, 0) == b'1'
        && byte_at(bytes, 1) == b'\''
        && byte_at(bytes, 2) == b'b'
        && (byte_at(bytes, 3) == b'0' || byte_at(bytes, 3) == b'1')
}

/// Whether the text begins with `16'h` and four hexadecimal digits.
fn is_word_text(bytes: &[u8]) -> bool
    ensures { result ≡ is_word_text bytes.now }
{
    byte_at(bytes, 0) == b'1'
        && byte_at(bytes, 1) == b'6'
        && byte_at(bytes, 2) == b'\''
        && byte_at(bytes, 3) == b'h'
        && is_hex_digit(byte_at(bytes, 4))
        && is_hex_digit(byte_at(bytes, 5))
        && is_hex_digit(byte_at(bytes, 6))
        && is_hex_digit(byte_at(bytes, 7))
}

/// The word at the front, after `16'h`.
fn word_value(bytes: &[u8]) -> u16
    ensures { result ≡ word_value bytes.now }
{
    let high = 16 * u16::from(hex_value(byte_at(bytes, 4)))
        + u16::from(hex_value(byte_at(bytes, 5)));
    let low = 16 * u16::from(hex_value(byte_at(bytes, 6)))
        + u16::from(hex_value(byte_at(bytes, 7)));
    256 * high + low
}

/// How many digits the number at the front has: three at most.
fn number_length(bytes: &[u8]) -> usize
    ensures { result ≡ number_length bytes.now }
{
    if !is_digit(byte_at(bytes, 1)) {
        1
    } else if !is_digit(byte_at(bytes, 2)) {
        2
    } else {
        3
    }
}

/// The value of the number at the front, which has at most three digits.
fn number_value(bytes: &[u8]) -> u16
    ensures { result ≡ number_value bytes.now }
{
    let first = u16::from(digit_value(byte_at(bytes, 0)));
    if !is_digit(byte_at(bytes, 1)) {
        first
    } else if !is_digit(byte_at(bytes, 2)) {
        10 * first + u16::from(digit_value(byte_at(bytes, 1)))
    } else {
        10 * (10 * first + u16::from(digit_value(byte_at(bytes, 1))))
            + u16::from(digit_value(byte_at(bytes, 2)))
    }
}
