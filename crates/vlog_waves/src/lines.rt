// Lines that are added to a text. The clauses `room` and `full` say that the text's capacity doesn't get less, and that adding fails only
// if the text has too little room.
ghost use Rattle.std.specs.Prelude.{◌≡◌, ◌+◌, ◌<◌, ◌≤◌, [], ◌∷◌, ◌++◌, length, vec_len, vec_capacity, OnOk, OnErr};
ghost use Rattle.text_lines.specs.Written.{text_of};
ghost use Rattle.vlog_run.specs.Text.{bit_digit};
ghost use Rattle.vlog_waves.specs.Variables.Value.{one_bit, sixteen_bits};
ghost use Rattle.vlog_waves.specs.Waves.{identifier, time_line, value_line, word_digits};

use run_pieces::push_number;
use std::alloc::AllocError;
use vlog_run::bit_digit;
pub(crate) use vlog_run::push_byte;

/// Adds the identifier code of a variable: its number in base 94 with the digits from `!` to `~`, the lowest digit first.
#[tactic(auto, using(crate::proofs::Identifiers::identifier_step))]
pub(crate) fn push_identifier(text: &mut Vec<u8>, number: usize) -> Result<(), AllocError>
    ensures text { OnOk result (text.new.items ≡ text.old.items ++ identifier number) }
    ensures room { vec_capacity text.old ≤ vec_capacity text.new }
    ensures full { OnErr result (vec_capacity text.old < vec_len text.old + length (identifier number)) }
{
    push_byte(text, b'!' + (number % 94) as u8)?;
    if number < 94 {
        Ok(())
    } else {
        push_identifier(text, number / 94)
    }
}

/// Adds the line that gives a variable this bit.
pub(crate) fn push_bit(text: &mut Vec<u8>, number: usize, bit: bool) -> Result<(), AllocError>
    ensures text { OnOk result (text.new.items ≡ text.old.items ++ text_of (value_line number (one_bit bit) ∷ [])) }
    ensures room { vec_capacity text.old ≤ vec_capacity text.new }
    ensures full { OnErr result (vec_capacity text.old < vec_len text.old + length (text_of (value_line number (one_bit bit) ∷ []))) }
{
    push_byte(text, bit_digit(bit))?;
    push_identifier(text, number)?;
    push_byte(text, b'\n')
}

/// Adds the bits of a word as digits, the highest first.
fn push_digits(text: &mut Vec<u8>, word: u16) -> Result<(), AllocError>
    ensures text { OnOk result (text.new.items ≡ text.old.items ++ word_digits 16 word) }
    ensures room { vec_capacity text.old ≤ vec_capacity text.new }
    ensures full { OnErr result (vec_capacity text.old < vec_len text.old + 16) }
{
    for place in 0..16_u32 {
        push_byte(text, b'0' + ((word >> (15 - place)) % 2) as u8)?;
    }
    Ok(())
}

/// Adds the line that gives a variable this word.
#[tactic(auto, using(crate::proofs::Texts::text_of_one))]
pub(crate) fn push_word(text: &mut Vec<u8>, number: usize, word: u16) -> Result<(), AllocError>
    ensures text { OnOk result (text.new.items ≡ text.old.items ++ text_of (value_line number (sixteen_bits word) ∷ [])) }
    ensures room { vec_capacity text.old ≤ vec_capacity text.new }
    ensures full { OnErr result (vec_capacity text.old < vec_len text.old + length (text_of (value_line number (sixteen_bits word) ∷ []))) }
{
    push_byte(text, b'b')?;
    push_digits(text, word)?;
    push_byte(text, b' ')?;
    push_identifier(text, number)?;
    push_byte(text, b'\n')
}

/// Adds the line of a time.
pub(crate) fn push_time(text: &mut Vec<u8>, time: u64) -> Result<(), AllocError>
    ensures text { OnOk result (text.new.items ≡ text.old.items ++ text_of (time_line time ∷ [])) }
    ensures room { vec_capacity text.old ≤ vec_capacity text.new }
    ensures full { OnErr result (vec_capacity text.old < vec_len text.old + length (text_of (time_line time ∷ []))) }
{
    push_byte(text, b'#')?;
    push_number(text, time)?;
    push_byte(text, b'\n')
}
