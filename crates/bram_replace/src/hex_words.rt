// Words of hexadecimal digits.
ghost use Rattle.std.specs.Prelude.{◌≡◌, ◌++◌, ◌+◌, ◌*◌, ◌/◌, ◌%◌, ◌≤◌, ◌<◌, ◌∷◌, [], ◌&&◌, ◌||◌, ◌==◌, ℕ, List, None, Some, filter, flat_map, reverse, length, nat_le, unwrap_or, IfOk, IfErr, OnOk, true, false, if◌then◌else◌};
ghost use Rattle.std.specs.List.{list_all, list_any};
ghost use Rattle.hex.specs.Hex.{hex_digit_value, is_hex_digit};
ghost use Rattle.text_lines.specs.Words.{words_of};
ghost use Rattle.bram_replace.specs.HexText.{before_comment, begins_comment, bits_in, byte_bits, digit_bits, digits_in, digits_set, is_misfit, is_word, TellsHex, words_cause};
ghost use Rattle.bram_replace.specs.Collected.{Holds};

use crate::fault::HexFault;
use std::alloc::{AllocError, Global};
use text_lines::{Separators, split_word};

/// The most digits that a word may have.
const MOST_DIGITS: usize = 64;

/// Words that were read, all with one number of digits.
#[derive(Drop)]
pub(crate) struct Words {
    /// How many digits each word has, or `None` before the first word.
    pub(crate) digits: Option<usize>,
    /// The bits of the words, one word after the other, the lowest bit of each first.
    pub(crate) bits: Vec<bool>,
}

impl Words {
    ghost use Rattle.text_lines.specs.declared.words.Separators.TheVariants.{Whitespace};
    ghost use Rattle.bram_replace.specs.declared.fault.HexFault.TheVariants.{Width};

    /// No words.
    pub(crate) fn new(alloc: Global) -> Words
        ensures { Holds [] result.digits result.bits.items }
    {
        Words {
            digits: None,
            bits: Vec::new(alloc),
        }
    }

    /// Takes the words of the next line, which has this line number.
    pub(crate) fn take_line(&mut self, number: u64, line: &[u8]) -> Result<(), HexFault>
        ensures taken { (words : List (List ℕ)) → Holds words self.old.digits self.old.bits.items
            → OnOk result (Holds (words ++ words_of Whitespace line.now) self.new.digits self.new.bits.items) }
        ensures accepted { (words : List (List ℕ)) → Holds words self.old.digits self.old.bits.items
            → OnOk result (words_cause (digits_set (words ++ words_of Whitespace line.now)) (words_of Whitespace line.now) number ≡ None) }
        ensures refused { (words : List (List ℕ)) → Holds words self.old.digits self.old.bits.items
            → IfErr result (TellsHex (words_cause (digits_set (words ++ words_of Whitespace line.now)) (words_of Whitespace line.now) number)) }
        ensures room { OnOk result (length self.new.bits.items ≤ length self.old.bits.items + 4 * length line.now) }
    {
        if are_words(line) {
            self.take_words(number, line)
        } else {
            Err(HexFault::Digit { line: number })
        }
    }

    /// Takes the words of a line, each of them written in digits.
    fn take_words(&mut self, number: u64, line: &[u8]) -> Result<(), HexFault>
        requires { list_all is_word (words_of Whitespace line.now) ≡ true }
        ensures taken { (words : List (List ℕ)) → Holds words self.old.digits self.old.bits.items
            → OnOk result (Holds (words ++ words_of Whitespace line.now) self.new.digits self.new.bits.items) }
        ensures accepted { (words : List (List ℕ)) → Holds words self.old.digits self.old.bits.items
            → OnOk result (words_cause (digits_set (words ++ words_of Whitespace line.now)) (words_of Whitespace line.now) number ≡ None) }
        ensures refused { (words : List (List ℕ)) → Holds words self.old.digits self.old.bits.items
            → IfErr result (TellsHex (words_cause (digits_set (words ++ words_of Whitespace line.now)) (words_of Whitespace line.now) number)) }
        ensures room { OnOk result (length self.new.bits.items ≤ length self.old.bits.items + 4 * length line.now) }
    {
        let mut rest = line;
        while let Some((word, after)) = split_word(Separators::Whitespace, rest) {
            self.take_word(number, word)?;
            rest = after;
        }
        Ok(())
    }

    /// Takes a word of the line of this number.
    fn take_word(&mut self, number: u64, word: &[u8]) -> Result<(), HexFault>
        requires { is_word word.now ≡ true }
        ensures taken { (words : List (List ℕ)) → Holds words self.old.digits self.old.bits.items
            → OnOk result (Holds (words ++ word.now ∷ []) self.new.digits self.new.bits.items) }
        ensures fits { (words : List (List ℕ)) → Holds words self.old.digits self.old.bits.items
            → OnOk result (is_misfit (digits_set (words ++ word.now ∷ [])) word.now ≡ false) }
        ensures refused { (words : List (List ℕ)) → Holds words self.old.digits self.old.bits.items
            → IfErr result (TellsHex (if is_misfit (digits_set (words ++ word.now ∷ [])) word.now then Some (Width number) else None)) }
        ensures room { OnOk result (length self.new.bits.items ≤ length self.old.bits.items + 4 * length word.now) }
    {
        let digits = digit_count(word);
        if self.has_width(digits) {
            self.digits = Some(digits);
            push_bits(&mut self.bits, word)?;
            Ok(())
        } else {
            Err(HexFault::Width { line: number })
        }
    }

    /// Whether the next word may have this number of digits.
    fn has_width(&self, digits: usize) -> bool
        ensures { result ≡ (nat_le digits 64 && (digits == unwrap_or self.now.digits digits)) }
    {
        digits <= MOST_DIGITS && digits == self.digits.unwrap_or(digits)
    }
}

/// The line up to the two slashes that begin a comment.
pub(crate) fn before_comment(line: &[u8]) -> &[u8]
    ensures { result.now ≡ before_comment line.now }
{
    for index in 0..line.len() {
        if begins_comment(&line[index..]) {
            return &line[..index];
        }
    }
    line
}

/// Whether a text begins with two slashes.
fn begins_comment(text: &[u8]) -> bool
    ensures { result ≡ begins_comment text.now }
{
    matches!(text, [b'/', b'/', ..])
}

/// Whether each word of a line is written in digits.
fn are_words(line: &[u8]) -> bool
    ensures { result ≡ list_all is_word (words_of Separators.Whitespace line.now) }
{
    let mut rest = line;
    while let Some((word, after)) = split_word(Separators::Whitespace, rest) {
        if !is_word(word) {
            return false;
        }
        rest = after;
    }
    true
}

/// Whether a word has nothing but digits and underscores, and at least one digit.
fn is_word(word: &[u8]) -> bool
    ensures { result ≡ is_word word.now }
{
    are_of_word(word) && has_digit(word)
}

/// Whether there is nothing but digits and underscores.
fn are_of_word(word: &[u8]) -> bool
    ensures { result ≡ list_all (λ byte. is_hex_digit byte || (byte == 95)) word.now }
{
    word.iter().all(|byte| is_hex_digit(*byte) || *byte == b'_')
}

/// Whether there is a digit.
fn has_digit(word: &[u8]) -> bool
    ensures { result ≡ list_any is_hex_digit word.now }
{
    word.iter().any(|byte| is_hex_digit(*byte))
}

/// How many digits there are.
fn digit_count(word: &[u8]) -> usize
    ensures { result ≡ length (digits_in word.now) }
{
    word.iter().filter(|byte| is_hex_digit(**byte)).count()
}

/// Appends the bits of a word, the lowest first.
fn push_bits(bits: &mut Vec<bool>, word: &[u8]) -> Result<(), AllocError>
    ensures { OnOk result (bits.new.items ≡ bits.old.items ++ bits_in word.now) }
{
    for index in (0..word.len()).rev() {
        push_digit(bits, word[index])?;
    }
    Ok(())
}

/// Appends the bits of a digit, and none of an underscore.
fn push_digit(bits: &mut Vec<bool>, byte: u8) -> Result<(), AllocError>
    ensures { OnOk result (bits.new.items ≡ bits.old.items ++ byte_bits byte) }
{
    match digit_value(byte) {
        None => Ok(()),
        Some(value) => bits.extend_from_slice(&digit_bits(value)),
    }
}

/// The four bits of a digit, the lowest first.
fn digit_bits(value: u8) -> [bool; 4]
    ensures { result ≡ digit_bits value }
{
    [
        value % 2 == 1,
        value / 2 % 2 == 1,
        value / 4 % 2 == 1,
        value / 8 % 2 == 1,
    ]
}

/// Whether the byte is a hexadecimal digit in either case.
fn is_hex_digit(byte: u8) -> bool
    ensures { result ≡ is_hex_digit byte }
{
    digit_value(byte).is_some()
}

/// The value of a hexadecimal digit in either case.
fn digit_value(byte: u8) -> Option<u8>
    ensures { result ≡ hex_digit_value byte }
{
    match byte {
        b'A'..=b'F' => Some(byte - b'A' + 10),
        b'a'..=b'f' => Some(byte - b'a' + 10),
        b'0'..=b'9' => Some(byte - b'0'),
        _ => None,
    }
}
