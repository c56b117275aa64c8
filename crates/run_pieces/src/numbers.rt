// Numbers that are added to a text.
ghost use Rattle.std.specs.Prelude.{◌≡◌, ◌+◌, ◌<◌, ◌≤◌, ◌++◌, decimal, length, vec_len, vec_capacity, OnOk, OnErr};

use itoa::Buffer;
use std::alloc::AllocError;

/// Adds a number in decimal digits. This doesn't fail if the text has enough room for them.
///
/// # Errors
/// `AllocError` if memory is out, and for no other cause.
pub fn push_number(text: &mut Vec<u8>, number: u64) -> Result<(), AllocError>
    ensures text { OnOk result (text.new.items ≡ text.old.items ++ decimal number) }
    ensures room { vec_capacity text.old ≤ vec_capacity text.new }
    ensures full { OnErr result (vec_capacity text.old < vec_len text.old + length (decimal number)) }
{
    let mut digits = Buffer::new();
    text.extend_from_slice(digits.format(number).as_bytes())
}
