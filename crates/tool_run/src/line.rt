// The lines for standard error, in pieces that take no memory.
ghost use Rattle.std.specs.Prelude.{◌≡◌, ◌++◌, ◌<◌, ◌≤◌, length, take, codes, OnOk, OnErr};
ghost use Rattle.std.specs.Io.KnownBytes.{Appends};
ghost use Rattle.ice_io.specs.Faults.{Rose};
ghost use Rattle.ice_io.specs.Put.{ForWritten};
ghost use Rattle.tool_run.specs.Effects.{Writes};
ghost use Rattle.tool_run.specs.Lines.{four_digits, six_digits, line_of, number_text, numbered, part_text, parts_text, phrase_text, phrases_text, plain, refusal_text};

use ice_io::{PutFault, Sink, write_whole};
use itoa::Buffer;

/// A number in a line.
#[derive(Clone, Copy, Debug, PartialEq, Eq)]
pub enum Number {
    /// No number, and no byte.
    Missing,
    /// In decimal digits.
    Decimal(u64),
    /// As four hexadecimal digits in lower case.
    Hexadecimal(u16),
    /// As six binary digits, of a number below 64.
    Binary(u8),
}

/// A text of a line, and the number after it.
#[derive(Clone, Copy, Debug, PartialEq, Eq)]
pub struct Phrase<'a> {
    pub text: &'a str,
    pub number: Number,
}

/// Why a tool refuses what it was given: the phrases of the line after the tool's name.
#[derive(Clone, Copy, Debug, PartialEq, Eq)]
pub struct Refusal<'a> {
    /// The file that is refused, if a tool has several of a kind. Its name stands before the phrases, with a space between.
    pub file: Option<&'a str>,
    pub first: Phrase<'a>,
    pub second: Phrase<'a>,
    pub third: Phrase<'a>,
    pub fourth: Phrase<'a>,
}

/// A part of a line: a text or a number.
#[derive(Clone, Copy)]
enum Part<'a> {
    Text(&'a str),
    Number(Number),
}

/// A text without a number.
pub const fn text(text: &str) -> Phrase<'_>
    ensures { result ≡ plain text.entry }
{
    Phrase {
        text,
        number: Number::Missing,
    }
}

/// A text and a number in decimal digits.
pub const fn decimal(text: &str, number: u64) -> Phrase<'_>
    ensures { result ≡ numbered text.entry number }
{
    Phrase {
        text,
        number: Number::Decimal(number),
    }
}
// Four hexadecimal digits.
fn format_hexadecimal(n: u16, digits: &mut [u8; 4])
    ensures { digits.new ≡ four_digits n }
{
    // Two bytes have four digits.
    let _ = hex::encode_to_slice(n.to_be_bytes(), digits);
}

// Six binary digits.
fn format_binary(n: u8, digits: &mut [u8; 6])
    ensures { digits.new ≡ six_digits n }
{
    *digits = [
        b'0' + n / 32 % 2,
        b'0' + n / 16 % 2,
        b'0' + n / 8 % 2,
        b'0' + n / 4 % 2,
        b'0' + n / 2 % 2,
        b'0' + n % 2,
    ];
}

// Writes one number.
fn write_number<E: Sink>(errors: &mut E, number: Number) -> Result<(), PutFault>
    ensures whole { OnOk result (Appends (E.held errors.old) (E.held errors.new) (number_text number)) }
    ensures part { ForWritten result (λ written. Appends (E.held errors.old) (E.held errors.new) (take written (number_text number))) }
    ensures short { ForWritten result (λ written. written < length (number_text number)) }
    ensures never_falls { E.faults errors.old ≤ E.faults errors.new }
    ensures failed { OnErr result (Rose (E.faults errors.old) (E.faults errors.new)) }
{
    match number {
        Number::Missing => write_whole(errors, &[]),
        Number::Decimal(n) => {
            let mut digits = Buffer::new();
            write_whole(errors, digits.format(n).as_bytes())
        }
        Number::Hexadecimal(n) => {
            let mut digits = [0; 4];
            format_hexadecimal(n, &mut digits);
            write_whole(errors, &digits)
        }
        Number::Binary(n) => {
            let mut digits = [0; 6];
            format_binary(n, &mut digits);
            write_whole(errors, &digits)
        }
    }
}

// Writes one part.
fn write_part<E: Sink>(errors: &mut E, part: Part<'_>) -> Result<(), PutFault>
    ensures whole { OnOk result (Appends (E.held errors.old) (E.held errors.new) (part_text part.entry)) }
    ensures part { ForWritten result (λ written. Appends (E.held errors.old) (E.held errors.new) (take written (part_text part.entry))) }
    ensures short { ForWritten result (λ written. written < length (part_text part.entry)) }
    ensures never_falls { E.faults errors.old ≤ E.faults errors.new }
    ensures failed { OnErr result (Rose (E.faults errors.old) (E.faults errors.new)) }
{
    match part {
        Part::Text(text) => write_whole(errors, text.as_bytes()),
        Part::Number(number) => write_number(errors, number),
    }
}

// Writes parts one after the other, and stops at the first that can't be written whole.
fn write_parts<E: Sink>(errors: &mut E, parts: &[Part<'_>])
    ensures { Writes (parts_text parts.now) (E.held errors.old) (E.held errors.new) (E.faults errors.old) (E.faults errors.new) }
{
    for part in parts {
        match write_part(errors, *part) {
            Ok(()) => {}
            Err(_) => return,
        }
    }
}

/// Writes the line of a tool_name who refuses.
pub(crate) fn write_refusal<'a, E: Sink>(errors: &mut E, tool_name: &'a str, refusal: Refusal<'a>)
    ensures { Writes (line_of tool_name.now (refusal_text refusal.entry)) (E.held errors.old) (E.held errors.new) (E.faults errors.old) (E.faults errors.new) }
{
    match refusal.file {
        None => write_phrases(errors, tool_name, "", "", refusal),
        Some(name) => write_phrases(errors, tool_name, name, " ", refusal),
    }
}

// Writes such a line, with a name and what stands after it before the phrases.
fn write_phrases<'a, E: Sink>(
    errors: &mut E,
    tool_name: &'a str,
    name: &'a str,
    space: &'a str,
    refusal: Refusal<'a>,
)
    ensures { Writes (line_of tool_name.now (name.now ++ space.now ++ phrases_text refusal.entry)) (E.held errors.old) (E.held errors.new) (E.faults errors.old) (E.faults errors.new) }
{
    let parts = [
        Part::Text(tool_name),
        Part::Text(": "),
        Part::Text(name),
        Part::Text(space),
        Part::Text(refusal.first.text),
        Part::Number(refusal.first.number),
        Part::Text(refusal.second.text),
        Part::Number(refusal.second.number),
        Part::Text(refusal.third.text),
        Part::Number(refusal.third.number),
        Part::Text(refusal.fourth.text),
        Part::Number(refusal.fourth.number),
        Part::Text("\n"),
    ];
    write_parts(errors, &parts);
}

/// Writes the line of a tool_name: a text, a name, and a phrase after it.
pub(crate) fn write_named<'a, E: Sink>(
    errors: &mut E,
    tool_name: &'a str,
    what: &'a str,
    name: &'a str,
    after: Phrase<'a>,
)
    ensures { Writes (line_of tool_name.now (what.now ++ name.now ++ phrase_text after.entry)) (E.held errors.old) (E.held errors.new) (E.faults errors.old) (E.faults errors.new) }
{
    let parts = [
        Part::Text(tool_name),
        Part::Text(": "),
        Part::Text(what),
        Part::Text(name),
        Part::Text(after.text),
        Part::Number(after.number),
        Part::Text("\n"),
    ];
    write_parts(errors, &parts);
}
