// The check value of bytes, which is the CRC of the bitstream documentation: one register, which eight bytes enter at a time. The
// remaining bytes enter two at a time and then one at a time.
ghost use Rattle.std.specs.Prelude.{◌≡◌, ◌%◌, length, slice_index};
ghost use Rattle.bit_plane.specs.BitList.{bits_of, byte_bits};
ghost use Rattle.bin_stream.specs.CheckValue.{check_value};
ghost use Rattle.bin_stream.specs.inside.Register.{entered_all};

mod tables;

use tables::REMAINDERS;

/// The value of the register before the first bit.
pub(crate) const START: u16 = 0xFFFF;

/// The CRC of bytes, the most significant bit of each byte first. The CRC of the text `123456789` is 29B1 (hexadecimal).
pub fn check_value(bytes: &[u8]) -> u16
    ensures { result ≡ check_value (bits_of bytes.now) }
{
    enter_bytes(START, bytes)
}

/// The register after bytes have entered.
pub(crate) fn enter_bytes(value: u16, bytes: &[u8]) -> u16
    ensures { result ≡ entered_all value (bits_of bytes.now) }
{
    let whole = bytes.len() / 8 * 8;
    enter_pairs(enter_eights(value, &bytes[..whole]), &bytes[whole..])
}

/// The register after bytes have entered, eight at a time.
fn enter_eights(value: u16, bytes: &[u8]) -> u16
    requires { length bytes.now % 8 ≡ 0 }
    ensures { result ≡ entered_all value (bits_of bytes.now) }
{
    let mut value = value;
    for index in 0..bytes.len() / 8 {
        value = enter_eight(value, &bytes[8 * index..8 * index + 8]);
    }
    value
}

/// The register after eight bytes have entered. Only the first two bytes are combined with its old value, so the other six look-ups
/// needn't wait for it.
fn enter_eight(value: u16, bytes: &[u8]) -> u16
    requires { length bytes.now ≡ 8 }
    ensures { result ≡ entered_all value (bits_of bytes.now) }
{
    let [high, low] = value.to_be_bytes();
    entry_of(&REMAINDERS[0], bytes[7])
        ^ entry_of(&REMAINDERS[1], bytes[6])
        ^ entry_of(&REMAINDERS[2], bytes[5])
        ^ entry_of(&REMAINDERS[3], bytes[4])
        ^ entry_of(&REMAINDERS[4], bytes[3])
        ^ entry_of(&REMAINDERS[5], bytes[2])
        ^ entry_of(&REMAINDERS[6], low ^ bytes[1])
        ^ entry_of(&REMAINDERS[7], high ^ bytes[0])
}

/// The register after bytes have entered, two at a time.
fn enter_pairs(value: u16, bytes: &[u8]) -> u16
    ensures { result ≡ entered_all value (bits_of bytes.now) }
{
    let mut value = value;
    for pair in 0..bytes.len() / 2 {
        value = enter_pair(value, bytes[2 * pair], bytes[2 * pair + 1]);
    }
    if bytes.len() % 2 == 1 {
        enter_byte(value, bytes[bytes.len() - 1])
    } else {
        value
    }
}

/// The register after two bytes have entered.
fn enter_pair(value: u16, first: u8, second: u8) -> u16
    ensures { result ≡ entered_all (entered_all value (byte_bits first)) (byte_bits second) }
{
    let [high, low] = value.to_be_bytes();
    entry_of(&REMAINDERS[1], high ^ first) ^ entry_of(&REMAINDERS[0], low ^ second)
}

/// The register after a byte has entered.
fn enter_byte(value: u16, byte: u8) -> u16
    ensures { result ≡ entered_all value (byte_bits byte) }
{
    let [high, _] = value.to_be_bytes();
    value << 8 ^ entry_of(&REMAINDERS[0], high ^ byte)
}

/// The entry of a byte in a table.
fn entry_of(table: &[u16; 256], byte: u8) -> u16
    ensures { result ≡ slice_index table.now byte }
{
    table[usize::from(byte)]
}
