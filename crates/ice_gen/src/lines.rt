// Lines that are appended to a text, word by word.
ghost use Rattle.std.specs.Prelude.{◌≡◌, [], ◌∷◌, ◌++◌, OnOk, decimal};
ghost use Rattle.text_lines.specs.Written.{text_of};
ghost use Rattle.ice_gen.specs.Database.{bit_word};

use itoa::Buffer;
use std::alloc::AllocError;

/// Appends a whole line.
#[tactic(auto, unfolding(text_lines::specs::Written::text_of))]
pub(crate) fn append_line(text: &mut Vec<u8>, line: &[u8]) -> Result<(), AllocError>
    ensures { OnOk result (text.new.items ≡ text.old.items ++ text_of (line.now ∷ [])) }
{
    text.extend_from_slice(line)?;
    end_line(text)
}

/// Appends a number.
pub(crate) fn append_decimal(text: &mut Vec<u8>, number: u32) -> Result<(), AllocError>
    ensures { OnOk result (text.new.items ≡ text.old.items ++ decimal number) }
{
    let mut digits = Buffer::new();
    text.extend_from_slice(digits.format(number).as_bytes())?;
    Ok(())
}

/// Appends a space and a number.
pub(crate) fn append_number(text: &mut Vec<u8>, number: u32) -> Result<(), AllocError>
    ensures { OnOk result (text.new.items ≡ text.old.items ++ 32 ∷ decimal number) }
{
    text.push(b' ')?;
    append_decimal(text, number)
}

/// Appends a space and the word of a bit.
pub(crate) fn append_bit(text: &mut Vec<u8>, row: u32, col: u32) -> Result<(), AllocError>
    ensures { OnOk result (text.new.items ≡ text.old.items ++ 32 ∷ bit_word row col) }
{
    text.extend_from_slice(b" B")?;
    append_decimal(text, row)?;
    text.push(b'[')?;
    append_decimal(text, col)?;
    text.push(b']')?;
    Ok(())
}

/// Ends a line.
pub(crate) fn end_line(text: &mut Vec<u8>) -> Result<(), AllocError>
    ensures { OnOk result (text.new.items ≡ text.old.items ++ 10 ∷ []) }
{
    text.push(b'\n')?;
    Ok(())
}
