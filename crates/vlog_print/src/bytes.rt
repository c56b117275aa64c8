// Texts, numbers and words that are added to a text.
ghost use Rattle.std.specs.Prelude.{◌≡◌, ◌++◌, ◌<◌, OnOk};
ghost use Rattle.vlog_forms.specs.Printed.{bit_text, decimal_text, hex_digit, word_text};

use std::alloc::AllocError;

/// Adds a text.
pub(crate) fn push_text(out: &mut Vec<u8>, text: &[u8]) -> Result<(), AllocError>
    ensures { OnOk result (out.new.items ≡ out.old.items ++ text.now) }
{
    out.extend_from_slice(text)
}

/// Adds `1'b0` or `1'b1`.
pub(crate) fn push_bit(out: &mut Vec<u8>, bit: bool) -> Result<(), AllocError>
    ensures { OnOk result (out.new.items ≡ out.old.items ++ bit_text bit) }
{
    if bit {
        push_text(out, b"1'b1")
    } else {
        push_text(out, b"1'b0")
    }
}

/// Adds a number in decimal digits.
pub(crate) fn push_number(out: &mut Vec<u8>, number: u8) -> Result<(), AllocError>
    ensures { OnOk result (out.new.items ≡ out.old.items ++ decimal_text number) }
{
    if number < 10 {
        push_text(out, &[b'0' + number])
    } else if number < 100 {
        push_text(out, &[b'0' + number / 10, b'0' + number % 10])
    } else {
        push_text(
            out,
            &[
                b'0' + number / 100,
                b'0' + number / 10 % 10,
                b'0' + number % 10,
            ],
        )
    }
}

/// Adds a word in four hexadecimal digits.
pub(crate) fn push_word(out: &mut Vec<u8>, word: u16) -> Result<(), AllocError>
    ensures { OnOk result (out.new.items ≡ out.old.items ++ word_text word) }
{
    push_text(
        out,
        &[
            b'1',
            b'6',
            b'\'',
            b'h',
            hex_digit((word / 4096) as u8),
            hex_digit((word / 256 % 16) as u8),
            hex_digit((word / 16 % 16) as u8),
            hex_digit((word % 16) as u8),
        ],
    )
}

/// A hexadecimal digit in lower case.
fn hex_digit(value: u8) -> u8
    requires { value < 16 }
    ensures { result ≡ hex_digit value }
{
    if value < 10 {
        b'0' + value
    } else {
        b'a' - 10 + value
    }
}
