// Lines that are appended to a text, whole or word by word. For lines of bounded length, the clauses `room`, `most` and `full` say
// that the text's capacity doesn't fall, how many bytes are added at most, and that a call fails only if there is no room for that many.
ghost use Rattle.std.specs.Prelude.{◌≡◌, ◌+◌, ◌<◌, ◌≤◌, [], ◌∷◌, ◌++◌, length, vec_len, vec_capacity, OnOk, OnErr, decimal};
ghost use Rattle.text_lines.specs.Written.{text_of};
ghost use Rattle.asc_text.specs.Canonical.{grid_line};

use itoa::Buffer;
use std::alloc::AllocError;

/// Appends a line.
#[tactic(auto, unfolding(text_lines::specs::Written::text_of))]
pub(crate) fn append_line(text: &mut Vec<u8>, line: &[u8]) -> Result<(), AllocError>
    ensures { OnOk result (text.new.items ≡ text.old.items ++ text_of (line.now ∷ [])) }
{
    text.extend_from_slice(line)?;
    end_line(text)
}

/// Appends a line of a keyword and a word.
#[tactic(auto, unfolding(text_lines::specs::Written::text_of))]
pub(crate) fn append_setting(
    text: &mut Vec<u8>,
    keyword: &[u8],
    word: &[u8],
) -> Result<(), AllocError>
    ensures { OnOk result (text.new.items ≡ text.old.items ++ text_of ((keyword.now ++ 32 ∷ word.now) ∷ [])) }
{
    text.extend_from_slice(keyword)?;
    text.push(b' ')?;
    text.extend_from_slice(word)?;
    end_line(text)
}

/// Appends a line of a keyword, and the column and the row of the grid.
///
/// # Errors
/// `AllocError` if memory is out. The text may have a part of the line then.
#[tactic(auto, unfolding(text_lines::specs::Written::text_of))]
pub fn append_grid_line(text: &mut Vec<u8>, keyword: &[u8], x: u8, y: u8) -> Result<(), AllocError>
    ensures text { OnOk result (text.new.items ≡ text.old.items ++ text_of (grid_line keyword.now x y ∷ [])) }
    ensures room { vec_capacity text.old ≤ vec_capacity text.new }
    ensures most { vec_len text.new ≤ vec_len text.old + (length keyword.now + 23) }
    ensures full { OnErr result (vec_capacity text.old < vec_len text.old + (length keyword.now + 23)) }
{
    text.extend_from_slice(keyword)?;
    append_number(text, u32::from(x))?;
    append_number(text, u32::from(y))?;
    end_line(text)
}

/// Appends a space and a number in decimal digits.
///
/// # Errors
/// `AllocError` if memory is out. The text may have a part of it then.
pub fn append_number(text: &mut Vec<u8>, number: u32) -> Result<(), AllocError>
    ensures text { OnOk result (text.new.items ≡ text.old.items ++ 32 ∷ decimal number) }
    ensures room { vec_capacity text.old ≤ vec_capacity text.new }
    ensures most { vec_len text.new ≤ vec_len text.old + 11 }
    ensures full { OnErr result (vec_capacity text.old < vec_len text.old + 11) }
{
    let mut digits = Buffer::new();
    text.push(b' ')?;
    text.extend_from_slice(digits.format(number).as_bytes())?;
    Ok(())
}

/// Ends a line.
///
/// # Errors
/// `AllocError` if memory is out, and for no other cause.
pub fn end_line(text: &mut Vec<u8>) -> Result<(), AllocError>
    ensures text { OnOk result (text.new.items ≡ text.old.items ++ 10 ∷ []) }
    ensures room { vec_capacity text.old ≤ vec_capacity text.new }
    ensures most { vec_len text.new ≤ vec_len text.old + 1 }
    ensures full { OnErr result (vec_capacity text.old < vec_len text.old + 1) }
{
    text.push(b'\n')?;
    Ok(())
}
