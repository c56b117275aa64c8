// The text of a run.
ghost use Rattle.std.specs.Prelude.{◌≡◌, ◌+◌, ◌*◌, ◌++◌, ◌<◌, ◌≤◌, ◌∷◌, [], All, flat_map, length, map, vec_len, vec_capacity, IfOk, OnErr, OnOk, if◌then◌else◌};
ghost use Rattle.vlog_module.specs.Parts.{Parts};
ghost use Rattle.vlog_semantics.specs.Entries.{Entry};
ghost use Rattle.vlog_semantics.specs.Run.{input_names, run_from};
ghost use Rattle.vlog_run.specs.Showing.{Shows};
ghost use Rattle.vlog_run.specs.Text.{bit_digit, entry_line, hex_digit, registers_text, run_text, word_text};

use crate::runner::Runner;
use std::alloc::{AllocError, Global};
use vlog_module::Module;
use vlog_semantics::Event;

/// The text of a run: one line after the start, and one after each event. A line has the bits of the outputs in the order of the ports.
/// With `registers` there follow one space and the registers of one bit in the order of their declarations, then one space and four
/// lower-case hexadecimal digits for each register of 16 bits.
///
/// # Errors
/// `AllocError` if memory is out, and for no other cause.
pub fn run_text(
    alloc: Global,
    module: &Module,
    events: &[Event],
    registers: bool,
) -> Result<Vec<u8>, AllocError>
    requires { All (λ event. event.pin < length (input_names «module».now.ports)) events.now }
    ensures { IfOk result (λ text. text.items ≡ run_text «module».now events.now registers) }
{
    let mut runner = Runner::new(alloc, module)?;
    let mut text = Vec::new(alloc);
    push_line(&mut text, &runner, registers)?;
    for event in events {
        runner.event(event.pin, event.bit);
        push_line(&mut text, &runner, registers)?;
    }
    Ok(text)
}

/// Adds the line of a runner's state. The clauses `room` and `full` of this call and of those below say that the text's capacity doesn't get
/// less, and that adding fails only if the text has too little room.
///
/// # Errors
/// `AllocError` if memory is out, and for no other cause.
pub fn push_line(text: &mut Vec<u8>, runner: &Runner, registers: bool) -> Result<(), AllocError>
    ensures text { (m : Parts) (entry : Entry) → Shows runner.now m entry → OnOk result (text.new.items ≡ text.old.items ++ entry_line registers entry) }
    ensures room { vec_capacity text.old ≤ vec_capacity text.new }
    ensures full { (m : Parts) (entry : Entry) → Shows runner.now m entry → OnErr result (vec_capacity text.old < vec_len text.old + length (entry_line registers entry)) }
{
    push_bits(text, runner.outputs())?;
    push_registers(text, runner, registers)?;
    push_byte(text, b'\n')
}

/// Adds the registers, if they are asked for.
fn push_registers(text: &mut Vec<u8>, runner: &Runner, registers: bool) -> Result<(), AllocError>
    ensures text { (m : Parts) (entry : Entry) → Shows runner.now m entry
        → OnOk result (text.new.items ≡ text.old.items ++ (if registers then registers_text entry else [])) }
    ensures room { vec_capacity text.old ≤ vec_capacity text.new }
    ensures full { (m : Parts) (entry : Entry) → Shows runner.now m entry
        → OnErr result (vec_capacity text.old < vec_len text.old + length (if registers then registers_text entry else [])) }
{
    if registers {
        push_byte(text, b' ')?;
        push_bits(text, runner.registers())?;
        push_words(text, runner.words())
    } else {
        Ok(())
    }
}

/// Adds a byte.
pub fn push_byte(text: &mut Vec<u8>, byte: u8) -> Result<(), AllocError>
    ensures text { OnOk result (text.new.items ≡ text.old.items ++ byte ∷ []) }
    ensures room { vec_capacity text.old ≤ vec_capacity text.new }
    ensures full { OnErr result (vec_capacity text.old < vec_len text.old + 1) }
{
    text.push(byte)?;
    Ok(())
}

/// Adds a digit for each bit.
fn push_bits(text: &mut Vec<u8>, bits: &[bool]) -> Result<(), AllocError>
    ensures text { OnOk result (text.new.items ≡ text.old.items ++ map bit_digit bits.now) }
    ensures room { vec_capacity text.old ≤ vec_capacity text.new }
    ensures full { OnErr result (vec_capacity text.old < vec_len text.old + length bits.now) }
{
    for bit in bits {
        push_byte(text, bit_digit(*bit))?;
    }
    Ok(())
}

/// `0` or `1`.
pub fn bit_digit(bit: bool) -> u8
    ensures { result ≡ bit_digit bit }
{
    if bit { b'1' } else { b'0' }
}

/// Adds a space and four digits for each word.
fn push_words(text: &mut Vec<u8>, words: &[u16]) -> Result<(), AllocError>
    ensures text { OnOk result (text.new.items ≡ text.old.items ++ flat_map word_text words.now) }
    ensures room { vec_capacity text.old ≤ vec_capacity text.new }
    ensures full { OnErr result (vec_capacity text.old < vec_len text.old + 5 * length words.now) }
{
    for word in words {
        push_word(text, *word)?;
    }
    Ok(())
}

/// Adds a space and the four digits of a word.
fn push_word(text: &mut Vec<u8>, word: u16) -> Result<(), AllocError>
    ensures text { OnOk result (text.new.items ≡ text.old.items ++ word_text word) }
    ensures room { vec_capacity text.old ≤ vec_capacity text.new }
    ensures full { OnErr result (vec_capacity text.old < vec_len text.old + 5) }
{
    let digits = [
        b' ',
        hex_digit(word / 4096 % 16),
        hex_digit(word / 256 % 16),
        hex_digit(word / 16 % 16),
        hex_digit(word % 16),
    ];
    text.extend_from_slice(&digits)
}

/// A digit below 16, in lower case.
fn hex_digit(digit: u16) -> u8
    requires { digit < 16 }
    ensures { result ≡ hex_digit digit }
{
    if digit < 10 {
        48 + digit as u8
    } else {
        87 + digit as u8
    }
}
