// The values at the start.
ghost use Rattle.std.specs.Prelude.{◌≡◌, ◌+◌, ◌<◌, ◌^◌, ◌++◌, length, map, OnOk};
ghost use Rattle.text_lines.specs.Written.{text_of};
ghost use Rattle.vlog_waves.specs.Variables.Value.{one_bit, sixteen_bits};
ghost use Rattle.vlog_waves.specs.Waves.{value_lines};
ghost use Rattle.vlog_waves.specs.inside.Values.{values_held};

use crate::lines::{push_bit, push_word};
use crate::values::Values;
use std::alloc::AllocError;

/// Adds a line for each bit. The numbers of their variables begin with this one.
fn push_bits(text: &mut Vec<u8>, number: usize, bits: &[bool]) -> Result<(), AllocError>
    requires { number + length bits.now < 2 ^ 64 }
    ensures { OnOk result (text.new.items ≡ text.old.items ++ text_of (value_lines number (map one_bit bits.now))) }
{
    for place in 0..bits.len() {
        push_bit(text, number + place, bits[place])?;
    }
    Ok(())
}

/// Adds a line for each word. The numbers of their variables begin with this one.
fn push_words(text: &mut Vec<u8>, number: usize, words: &[u16]) -> Result<(), AllocError>
    requires { number + length words.now < 2 ^ 64 }
    ensures { OnOk result (text.new.items ≡ text.old.items ++ text_of (value_lines number (map sixteen_bits words.now))) }
{
    for place in 0..words.len() {
        push_word(text, number + place, words[place])?;
    }
    Ok(())
}

/// Adds a line for each value.
pub(crate) fn push_values(text: &mut Vec<u8>, values: &Values) -> Result<(), AllocError>
    ensures { OnOk result (text.new.items ≡ text.old.items ++ text_of (value_lines 0 (values_held values.now))) }
{
    push_bits(text, 0, &values.ports)?;
    push_bits(text, values.first_register(), &values.registers)?;
    push_words(text, values.first_word(), &values.words)?;
    push_bits(text, values.first_wire(), &values.wires)
}
