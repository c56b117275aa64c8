// Kinds of bytes, and the values of digits.
ghost use Rattle.std.specs.Prelude.{◌≡◌, ◌<◌, ◌≤◌, ◌+◌, length, drop, position, not};
ghost use Rattle.std.specs.List.{position_or_len};
ghost use Rattle.vlog_tokens.specs.Bytes.{is_blank, is_letter, is_digit, is_name_byte, is_hex_digit, hex_value, digit_value, byte_at};

/// Whether the byte is white space: a space, a tab, CR or LF.
pub(crate) fn is_blank(byte: u8) -> bool
    ensures { result ≡ is_blank byte }
{
    byte == b' ' || byte == b'\t' || byte == b'\r' || byte == b'\n'
}

/// Whether a name may begin with the byte: a letter or an underscore.
pub(crate) fn is_letter(byte: u8) -> bool
    ensures { result ≡ is_letter byte }
{
    byte.is_ascii_alphabetic() || byte == b'_'
}

/// Whether the byte is a decimal digit.
pub(crate) fn is_digit(byte: u8) -> bool
    ensures { result ≡ is_digit byte }
{
    byte.is_ascii_digit()
}

/// Whether a name may have the byte after its first: a letter, an underscore or a digit.
fn is_name_byte(byte: u8) -> bool
    ensures { result ≡ is_name_byte byte }
{
    is_letter(byte) || is_digit(byte)
}

/// Whether the byte is a hexadecimal digit in either case.
pub(crate) fn is_hex_digit(byte: u8) -> bool
    ensures { result ≡ is_hex_digit byte }
{
    is_digit(byte) || (b'a' <= byte && byte <= b'f') || (b'A' <= byte && byte <= b'F')
}

/// The value of a hexadecimal digit, and 0 of any other byte.
pub(crate) fn hex_value(byte: u8) -> u8
    ensures value { result ≡ hex_value byte }
    ensures below { result < 16 }
{
    if is_digit(byte) {
        byte - b'0'
    } else if b'a' <= byte && byte <= b'f' {
        byte - b'a' + 10
    } else if b'A' <= byte && byte <= b'F' {
        byte - b'A' + 10
    } else {
        0
    }
}

/// The value of a decimal digit, and 0 of any other byte.
pub(crate) fn digit_value(byte: u8) -> u8
    ensures value { result ≡ digit_value byte }
    ensures below { result < 10 }
{
    if is_digit(byte) { byte - b'0' } else { 0 }
}

/// The byte at an index, and 0 past the end.
pub(crate) fn byte_at(bytes: &[u8], place: usize) -> u8
    ensures { result ≡ byte_at bytes.now place }
{
    if place < bytes.len() { bytes[place] } else { 0 }
}

/// How many bytes at the front a name may have after its first: the index of the first other byte.
pub(crate) fn name_length(bytes: &[u8]) -> usize
    ensures { result ≡ position_or_len (λ byte. not (is_name_byte byte)) bytes.now }
{
    match first_other(bytes) {
        Some(place) => place,
        None => bytes.len(),
    }
}

/// The index of the first byte that no name has, if there is one.
fn first_other(bytes: &[u8]) -> Option<usize>
    ensures { result ≡ position (λ byte. not (is_name_byte byte)) bytes.now }
{
    bytes.iter().position(|byte| !is_name_byte(*byte))
}

/// How many bytes at the front are white space.
pub(crate) fn blank_length(bytes: &[u8]) -> usize
    ensures place { result ≡ position_or_len (λ byte. not (is_blank byte)) bytes.now }
    ensures within { result ≤ length bytes.now }
{
    match first_unblank(bytes) {
        Some(place) => place,
        None => bytes.len(),
    }
}

/// The index of the first byte that isn't white space, if there is one.
fn first_unblank(bytes: &[u8]) -> Option<usize>
    ensures { result ≡ position (λ byte. not (is_blank byte)) bytes.now }
{
    bytes.iter().position(|byte| !is_blank(*byte))
}

/// The bytes from an index on.
pub(crate) fn rest_from(bytes: &[u8], from: usize) -> &[u8]
    requires { from ≤ length bytes.now }
    ensures rest { result.now ≡ drop from bytes.now }
    ensures len { length result.now + from ≡ length bytes.now }
{
    &bytes[from..]
}
