// What a line of a pin file says.
ghost use Rattle.std.specs.Prelude.{◌≡◌, ◌≤◌, ◌<◌, false, length, map, position, IfOk, IfSome};
ghost use Rattle.std.specs.List.{before_first};
ghost use Rattle.text_lines.specs.declared.words.Separators.TheVariants.{Spaces};
ghost use Rattle.text_lines.specs.Words.{words_of};
ghost use Rattle.pin_file.specs.Lines.{begins_remark, after_options, is_blank, is_option, line_of_words, plain_byte, plain_line, port_line, takes_word};
ghost use Rattle.pin_file.specs.inside.Reading.{said_by};

use std::alloc::{AllocError, Global};
use text_lines::{Separators, split_word};

/// What a line is.
#[derive(Clone, Copy)]
pub(crate) enum LineKind<'a> {
    /// It is skipped.
    Passed,
    /// It gives the name of a port, and its pin.
    Port { name: &'a [u8], pin: &'a [u8] },
    /// It isn't a line of a pin file.
    Unknown,
}

/// A line without `#` and what follows it, and with a space for each blank.
#[tactic(auto, unfolding(crate::specs::Lines::plain_line))]
pub(crate) fn plain_line(alloc: Global, line: &[u8]) -> Result<Vec<u8>, AllocError>
    ensures { IfOk result (λ plain. plain.items ≡ plain_line line.now) }
{
    plain_bytes(alloc, before_remark(line))
}

/// What comes before the first `#`.
fn before_remark(line: &[u8]) -> &[u8]
    ensures { result.now ≡ before_first begins_remark line.now }
{
    match remark_in(line) {
        Some(offset) => &line[..offset],
        None => line,
    }
}

/// The offset of the first `#`.
fn remark_in(line: &[u8]) -> Option<usize>
    ensures offset { result ≡ position begins_remark line.now }
    ensures within { IfSome result (λ offset. offset < length line.now) }
{
    line.iter().position(|byte| *byte == b'#')
}

/// The bytes with a space for each blank.
fn plain_bytes(alloc: Global, bytes: &[u8]) -> Result<Vec<u8>, AllocError>
    ensures { IfOk result (λ plain. plain.items ≡ map plain_byte bytes.now) }
{
    let mut plain = Vec::new(alloc);
    for byte in bytes {
        plain.push(plain_byte(*byte))?;
    }
    Ok(plain)
}

/// A space for a blank, and any other byte unchanged.
fn plain_byte(byte: u8) -> u8
    ensures { result ≡ plain_byte byte }
{
    if is_blank(byte) { b' ' } else { byte }
}

/// Whether the byte is a space, a tab, a vertical tab, a form feed or a CR.
fn is_blank(byte: u8) -> bool
    ensures { result ≡ is_blank byte }
{
    byte == b' ' || byte == b'\t' || byte == 0x0B || byte == 0x0C || byte == b'\r'
}

/// What a plain line says.
pub(crate) fn line_kind(line: &[u8]) -> LineKind<'_>
    ensures { said_by result ≡ line_of_words (words_of Spaces line.now) }
{
    match split_word(Separators::Spaces, line) {
        None => LineKind::Passed,
        Some((word, following)) => {
            if word == b"set_io".as_slice() {
                port_kind(after_options(following))
            } else if word == b"set_frequency".as_slice() {
                LineKind::Passed
            } else {
                LineKind::Unknown
            }
        }
    }
}

/// The words after the options at the front.
fn after_options(words: &[u8]) -> &[u8]
    ensures { words_of Spaces result.now ≡ after_options false (words_of Spaces words.now) }
{
    let mut left = words;
    while let Some((word, following)) = split_word(Separators::Spaces, left) {
        if is_option(word) {
            left = after_option(word, following);
        } else {
            return left;
        }
    }
    left
}

/// The words after an option and its value, if it takes one.
fn after_option<'a>(option: &[u8], words: &'a [u8]) -> &'a [u8]
    ensures options { after_options false (words_of Spaces result.now) ≡ after_options (takes_word option.now) (words_of Spaces words.now) }
    ensures shorter { length result.now ≤ length words.now }
{
    if takes_word(option) {
        match split_word(Separators::Spaces, words) {
            None => words,
            Some((_, following)) => following,
        }
    } else {
        words
    }
}

/// Whether a word is an option.
fn is_option(word: &[u8]) -> bool
    ensures { result ≡ is_option word.now }
{
    matches!(word, [b'-', ..])
}

/// Whether an option takes the next word as its value.
fn takes_word(option: &[u8]) -> bool
    ensures { result ≡ takes_word option.now }
{
    option == b"-pullup".as_slice() || option == b"-pullup_resistor".as_slice()
}

/// What a line says after `set_io` and its options. Words after PIN don't count.
fn port_kind(words: &[u8]) -> LineKind<'_>
    ensures { said_by result ≡ port_line (words_of Spaces words.now) }
{
    match split_word(Separators::Spaces, words) {
        None => LineKind::Unknown,
        Some((name, after)) => match split_word(Separators::Spaces, after) {
            None => LineKind::Unknown,
            Some((pin, _)) => LineKind::Port { name, pin },
        },
    }
}
