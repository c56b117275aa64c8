// Decimal numbers.
ghost use Rattle.std.specs.Prelude.{◌≡◌, ℕ, List, ◌<◌, false, IfSome, MatchOption};
ghost use Rattle.std.specs.Char.{is_ascii_digit};
ghost use Rattle.text_lines.specs.Words.{number_of};
ghost use Rattle.text_lines.specs.Numbers.{Leads, StartsWithNumber};

/// The number that a word of one to nine decimal digits writes, the most significant digit first. `None` for any other word. Leading zeros
/// count as digits.
pub fn number(word: &[u8]) -> Option<u32>
    ensures is { result ≡ number_of word.now }
    ensures small { IfSome result (λ value. value < 1000000000) }
{
    let Leading { number, digits } = leading_number(word);
    if 0 < digits && digits == word.len() {
        Some(number)
    } else {
        None
    }
}

/// The number at the front of a text, and what follows the byte `end`. `None` if the text doesn't begin with one to nine digits and then
/// that byte.
pub fn number_before(end: u8, text: &[u8]) -> Option<(u32, &[u8])>
    ensures is { MatchOption result
        (is_ascii_digit end ≡ false → (number : ℕ) (rest : List ℕ) → StartsWithNumber end text.now number rest → ⊥)
        (λ found. StartsWithNumber end text.now found.0 found.1.now) }
    ensures small { IfSome result (λ found. found.0 < 1000000000) }
{
    let Leading { number, digits } = leading_number(text);
    if 0 < digits && digits < text.len() && text[digits] == end {
        Some((number, &text[digits + 1..]))
    } else {
        None
    }
}

/// A number at the front of a text, and how many digits write it.
#[derive(Clone, Copy)]
struct Leading {
    number: u32,
    digits: usize,
}

/// The number that the digits at the front of a text write, at most nine of them. It looks at each digit once.
fn leading_number(text: &[u8]) -> Leading
    ensures { Leads text.now result.digits result.number }
{
    let mut number = 0;
    let mut digits = 0;
    while digits < text.len() && digits < 9 && text[digits].is_ascii_digit() {
        number = 10 * number + u32::from(text[digits] - b'0');
        digits += 1;
    }
    Leading { number, digits }
}
