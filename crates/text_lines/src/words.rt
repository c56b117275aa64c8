// Words of a line, and the numbers that they write.
ghost use Rattle.std.specs.Prelude.{◌≡◌, List, ◌∷◌, [], ℕ, ◌<◌, ◌≢◌, not, length, position, IfSome, MatchOption};
ghost use Rattle.std.specs.List.{position_or_len};
ghost use Rattle.text_lines.specs.Words.{after_word, first_word, from_word, is_separator, numbers_of, with_number, words_of};

use crate::decimal::number;
use crate::lines::is_blank;

/// The bytes that separate words; one or more of them come between two words.
#[derive(Clone, Copy, Debug, PartialEq, Eq)]
pub enum Separators {
    /// Spaces only: a tab is a byte of its word.
    Spaces,
    /// Spaces and tabs.
    SpacesAndTabs,
    /// Spaces, tabs and CR.
    Whitespace,
}

impl Separators {
    /// Whether the byte is a separator.
    fn has(self, byte: u8) -> bool
        ensures { result ≡ is_separator self byte }
    {
        match self {
            Separators::Spaces => byte == b' ',
            Separators::SpacesAndTabs => is_blank(byte),
            Separators::Whitespace => is_blank(byte) || byte == b'\r',
        }
    }
}

/// The first word and what follows it, separators included. `None` if there is no word.
pub fn split_word(separators: Separators, line: &[u8]) -> Option<(&[u8], &[u8])>
    ensures words { MatchOption result (words_of separators line.now ≡ [])
        (λ found. words_of separators line.now ≡ found.0.now ∷ words_of separators found.1.now) }
    ensures places { MatchOption result (first_word separators line.now ≡ [])
        (λ found. (found.0.now ≡ first_word separators line.now) × (found.1.now ≡ after_word separators line.now)) }
    ensures shorter { IfSome result (λ found. length found.1.now < length line.now) }
{
    let line = from_word(separators, line);
    if line.is_empty() {
        return None;
    }
    let end = length_of_word(separators, line);
    Some((&line[..end], &line[end..]))
}

/// The word of a line that has exactly one. `None` for any other line.
pub fn one_word(separators: Separators, line: &[u8]) -> Option<&[u8]>
    ensures { MatchOption result (length (words_of separators line.now) ≢ 1) (λ word. words_of separators line.now ≡ word.now ∷ []) }
{
    let (word, following) = split_word(separators, line)?;
    match split_word(separators, following) {
        None => Some(word),
        Some(_) => None,
    }
}

/// The numbers of a line of exactly two words, if each word writes one.
pub fn two_numbers(separators: Separators, line: &[u8]) -> Option<(u32, u32)>
    ensures { MatchOption result ((x y : ℕ) → numbers_of (words_of separators line.now) ≢ Some (x ∷ y ∷ []))
        (λ found. numbers_of (words_of separators line.now) ≡ Some (found.0 ∷ found.1 ∷ [])) }
{
    let (first, following) = split_number(separators, line)?;
    let second = one_number(separators, following)?;
    Some((first, second))
}

/// The numbers of a line of exactly three words, if each word writes one.
pub fn three_numbers(separators: Separators, line: &[u8]) -> Option<(u32, u32, u32)>
    ensures { MatchOption result ((x y z : ℕ) → numbers_of (words_of separators line.now) ≢ Some (x ∷ y ∷ z ∷ []))
        (λ found. numbers_of (words_of separators line.now) ≡ Some (found.0 ∷ found.1 ∷ found.2 ∷ [])) }
{
    let (first, following) = split_number(separators, line)?;
    let (second, third) = two_numbers(separators, following)?;
    Some((first, second, third))
}

/// The numbers of a line of exactly four words, if each word writes one.
pub fn four_numbers(separators: Separators, line: &[u8]) -> Option<(u32, u32, u32, u32)>
    ensures { MatchOption result ((w x y z : ℕ) → numbers_of (words_of separators line.now) ≢ Some (w ∷ x ∷ y ∷ z ∷ []))
        (λ found. numbers_of (words_of separators line.now) ≡ Some (found.0 ∷ found.1 ∷ found.2 ∷ found.3 ∷ [])) }
{
    let (first, following) = split_number(separators, line)?;
    let (second, third, fourth) = three_numbers(separators, following)?;
    Some((first, second, third, fourth))
}

/// The number that the first word writes, and what follows that word.
fn split_number(separators: Separators, line: &[u8]) -> Option<(u32, &[u8])>
    ensures { MatchOption result ((x : ℕ) (xs : List ℕ) → numbers_of (words_of separators line.now) ≢ Some (x ∷ xs))
        (λ found. numbers_of (words_of separators line.now) ≡ with_number (Some found.0) (numbers_of (words_of separators found.1.now))) }
{
    let (word, following) = split_word(separators, line)?;
    let first = number(word)?;
    Some((first, following))
}

/// The number of a line of exactly one word, if the word writes one.
pub fn one_number(separators: Separators, line: &[u8]) -> Option<u32>
    ensures { MatchOption result ((x : ℕ) → numbers_of (words_of separators line.now) ≢ Some (x ∷ []))
        (λ found. numbers_of (words_of separators line.now) ≡ Some (found ∷ [])) }
{
    number(one_word(separators, line)?)
}

/// The line from its first word on.
fn from_word(separators: Separators, line: &[u8]) -> &[u8]
    ensures { result.now ≡ from_word separators line.now }
{
    match offset_of_word(separators, line) {
        Some(offset) => &line[offset..],
        None => &[],
    }
}

/// The offset of the first byte that is not a separator.
fn offset_of_word(separators: Separators, line: &[u8]) -> Option<usize>
    ensures { result ≡ position (λ byte. not (is_separator separators byte)) line.now }
{
    line.iter().position(|byte| !separators.has(*byte))
}

/// How many bytes come before the first separator; all of them if there is none.
fn length_of_word(separators: Separators, line: &[u8]) -> usize
    ensures { result ≡ position_or_len (is_separator separators) line.now }
{
    match first_separator(separators, line) {
        Some(offset) => offset,
        None => line.len(),
    }
}

/// The offset of the first separator.
fn first_separator(separators: Separators, line: &[u8]) -> Option<usize>
    ensures { result ≡ position (is_separator separators) line.now }
{
    line.iter().position(|byte| separators.has(*byte))
}
