// Tokens that have to come next.
ghost use Rattle.std.specs.Prelude.{◌≡◌, ◌≤◌, [], ◌∷◌, length, IfOk};
ghost use Rattle.vlog_tokens.specs.Tokens.{seen, spots_at};
ghost use Rattle.vlog_tokens.specs.Tokens.{TokenValue as value};
ghost use Rattle.vlog_forms.specs.Values.{is_same_bit, is_same_token};
ghost use Rattle.vlog_forms.specs.Reading.{read_tokens};
ghost use Rattle.vlog_form_parser.specs.Readings.{ReadsTokens};

use vlog_tokens::{Fixed, Token, next_token};

/// The offset after a token that has to come next.
///
/// # Errors
/// The offset of the next token if it is another one, or the length of the text if there is none.
pub fn expect_token(bytes: &[u8], from: usize, wanted: Token<'_>) -> Result<usize, usize>
    requires { from ≤ length bytes.now }
    ensures reads { ReadsTokens (read_tokens (length bytes.now) (seen wanted.entry ∷ []) (spots_at bytes.now from)) bytes.now result }
    ensures within { IfOk result (λ end. end ≤ length bytes.now) }
{
    match next_token(bytes, from) {
        None => Err(bytes.len()),
        Some(spot) => {
            if is_same_token(wanted, spot.token) {
                Ok(spot.end)
            } else {
                Err(spot.at)
            }
        }
    }
}

/// Whether two tokens have the same value; a stray byte equals no token.
fn is_same_token(one: Token<'_>, other: Token<'_>) -> bool
    ensures { result ≡ is_same_token (seen one.entry) (seen other.entry) }
{
    match one {
        Token::Fixed(fixed) => is_fixed(fixed, other),
        Token::Name(name) => is_name(name, other),
        Token::Bit(bit) => is_bit(bit, other),
        Token::Word(word) => is_word(word, other),
        Token::Number(number) => is_number(number, other),
        Token::Stray => false,
    }
}

/// Whether a token is this sign or reserved word.
pub fn is_fixed(fixed: Fixed, token: Token<'_>) -> bool
    ensures { result ≡ is_same_token (value.fixed fixed) (seen token.entry) }
{
    match token {
        Token::Fixed(other) => fixed == other,
        Token::Name(_) => false,
        Token::Bit(_) => false,
        Token::Word(_) => false,
        Token::Number(_) => false,
        Token::Stray => false,
    }
}

/// Whether a token is this name.
fn is_name(name: &[u8], token: Token<'_>) -> bool
    ensures { result ≡ is_same_token (value.name name.now) (seen token.entry) }
{
    match token {
        Token::Fixed(_) => false,
        Token::Name(other) => name == other,
        Token::Bit(_) => false,
        Token::Word(_) => false,
        Token::Number(_) => false,
        Token::Stray => false,
    }
}

/// Whether a token is this bit.
fn is_bit(bit: bool, token: Token<'_>) -> bool
    ensures { result ≡ is_same_token (value.bit bit) (seen token.entry) }
{
    match token {
        Token::Fixed(_) => false,
        Token::Name(_) => false,
        Token::Bit(other) => is_same_bit(bit, other),
        Token::Word(_) => false,
        Token::Number(_) => false,
        Token::Stray => false,
    }
}

/// Whether two bits are the same.
fn is_same_bit(one: bool, other: bool) -> bool
    ensures { result ≡ is_same_bit one other }
{
    if one { other } else { !other }
}

/// Whether a token is this word.
fn is_word(word: u16, token: Token<'_>) -> bool
    ensures { result ≡ is_same_token (value.word word) (seen token.entry) }
{
    match token {
        Token::Fixed(_) => false,
        Token::Name(_) => false,
        Token::Bit(_) => false,
        Token::Word(other) => word == other,
        Token::Number(_) => false,
        Token::Stray => false,
    }
}

/// Whether a token is this number.
fn is_number(number: u16, token: Token<'_>) -> bool
    ensures { result ≡ is_same_token (value.number number) (seen token.entry) }
{
    match token {
        Token::Fixed(_) => false,
        Token::Name(_) => false,
        Token::Bit(_) => false,
        Token::Word(_) => false,
        Token::Number(other) => number == other,
        Token::Stray => false,
    }
}
