// The two orders in which numbers hold bits, over slices of words. Bit p of such a slice is bit p % 64 of word p / 64.
// A slice has at least one bit more than those that are read or written, so the word at a position exists even if no bit of it is used.
ghost use Rattle.std.specs.Prelude.{◌≡◌, ◌+◌, ◌*◌, ◌/◌, ◌%◌, ◌^◌, ◌<◌, ◌≤◌, ◌↔◌, IsTrue, length, take, drop};
ghost use Rattle.bit_plane.specs.BitList.{word_bits, word_of, byte_bits, byte_of, bits_of, bytes_of, gained, placed};
ghost use Rattle.std.specs.Int.{w8, reverse_bits};
ghost use Rattle.bit_plane.specs.inside.Packed.{packed};

use crate::reversal::reversed;

/// Each byte with its bits in reverse order.
static TURNED: [u8; 256] = [
    0x00, 0x80, 0x40, 0xC0, 0x20, 0xA0, 0x60, 0xE0, 0x10, 0x90, 0x50, 0xD0, 0x30, 0xB0, 0x70, 0xF0,
    0x08, 0x88, 0x48, 0xC8, 0x28, 0xA8, 0x68, 0xE8, 0x18, 0x98, 0x58, 0xD8, 0x38, 0xB8, 0x78, 0xF8,
    0x04, 0x84, 0x44, 0xC4, 0x24, 0xA4, 0x64, 0xE4, 0x14, 0x94, 0x54, 0xD4, 0x34, 0xB4, 0x74, 0xF4,
    0x0C, 0x8C, 0x4C, 0xCC, 0x2C, 0xAC, 0x6C, 0xEC, 0x1C, 0x9C, 0x5C, 0xDC, 0x3C, 0xBC, 0x7C, 0xFC,
    0x02, 0x82, 0x42, 0xC2, 0x22, 0xA2, 0x62, 0xE2, 0x12, 0x92, 0x52, 0xD2, 0x32, 0xB2, 0x72, 0xF2,
    0x0A, 0x8A, 0x4A, 0xCA, 0x2A, 0xAA, 0x6A, 0xEA, 0x1A, 0x9A, 0x5A, 0xDA, 0x3A, 0xBA, 0x7A, 0xFA,
    0x06, 0x86, 0x46, 0xC6, 0x26, 0xA6, 0x66, 0xE6, 0x16, 0x96, 0x56, 0xD6, 0x36, 0xB6, 0x76, 0xF6,
    0x0E, 0x8E, 0x4E, 0xCE, 0x2E, 0xAE, 0x6E, 0xEE, 0x1E, 0x9E, 0x5E, 0xDE, 0x3E, 0xBE, 0x7E, 0xFE,
    0x01, 0x81, 0x41, 0xC1, 0x21, 0xA1, 0x61, 0xE1, 0x11, 0x91, 0x51, 0xD1, 0x31, 0xB1, 0x71, 0xF1,
    0x09, 0x89, 0x49, 0xC9, 0x29, 0xA9, 0x69, 0xE9, 0x19, 0x99, 0x59, 0xD9, 0x39, 0xB9, 0x79, 0xF9,
    0x05, 0x85, 0x45, 0xC5, 0x25, 0xA5, 0x65, 0xE5, 0x15, 0x95, 0x55, 0xD5, 0x35, 0xB5, 0x75, 0xF5,
    0x0D, 0x8D, 0x4D, 0xCD, 0x2D, 0xAD, 0x6D, 0xED, 0x1D, 0x9D, 0x5D, 0xDD, 0x3D, 0xBD, 0x7D, 0xFD,
    0x03, 0x83, 0x43, 0xC3, 0x23, 0xA3, 0x63, 0xE3, 0x13, 0x93, 0x53, 0xD3, 0x33, 0xB3, 0x73, 0xF3,
    0x0B, 0x8B, 0x4B, 0xCB, 0x2B, 0xAB, 0x6B, 0xEB, 0x1B, 0x9B, 0x5B, 0xDB, 0x3B, 0xBB, 0x7B, 0xFB,
    0x07, 0x87, 0x47, 0xC7, 0x27, 0xA7, 0x67, 0xE7, 0x17, 0x97, 0x57, 0xD7, 0x37, 0xB7, 0x77, 0xF7,
    0x0F, 0x8F, 0x4F, 0xCF, 0x2F, 0xAF, 0x6F, 0xEF, 0x1F, 0x9F, 0x5F, 0xDF, 0x3F, 0xBF, 0x7F, 0xFF,
];

/// The byte with its bits in reverse order.
fn turned(byte: u8) -> u8
    ensures { result ≡ reverse_bits w8 byte }
{
    TURNED[usize::from(byte)]
}

/// The low `count` bits of a word, as a number.
fn low(word: u64, count: usize) -> u64
    requires { count ≤ 64 }
    ensures { result ≡ word % 2 ^ count }
{
    if count < 64 {
        word % (1 << count)
    } else {
        word
    }
}

/// `count` bits of a word from bit `at` on, as a number.
fn part(word: u64, at: usize, count: usize) -> u64
    requires at { at < 64 }
    requires count { at + count ≤ 64 }
    ensures { result ≡ word_of (take count (drop at (word_bits 64 word))) }
{
    low(word >> at, count)
}

/// The word with its `count` bits from bit `at` on set to the low bits of `bits`.
fn replaced(word: u64, at: usize, count: usize, bits: u64) -> u64
    requires at { at < 64 }
    requires count { at + count ≤ 64 }
    ensures { word_bits 64 result ≡ placed at (word_bits count bits) (word_bits 64 word) }
{
    word ^ low(word >> at ^ bits, count) << at
}

/// The word with the low `count` bits of `bits` ORed into it from bit `at` on.
fn gained(word: u64, at: usize, count: usize, bits: u64) -> u64
    requires at { at < 64 }
    requires count { at + count ≤ 64 }
    ensures { word_bits 64 result ≡ gained at count bits (word_bits 64 word) }
{
    word | low(bits, count) << at
}

/// `count` bits from a position on, as a number. The first one is its lowest bit.
pub fn take_word(words: &[u64], position: usize, count: usize) -> u64
    requires count { count ≤ 64 }
    requires words { position + count < 64 * length words.now }
    ensures { result ≡ word_of (take count (drop position (packed words.now))) }
{
    let place = position / 64;
    let at = position % 64;
    let here = 64 - at;
    if count <= here {
        part(words[place], at, count)
    } else {
        part(words[place], at, here) | part(words[place + 1], 0, count - here) << here
    }
}

/// Sets `count` bits from a position on to the low bits of `bits`. The first one gets the lowest bit.
pub fn put_word(words: &mut [u64], position: usize, count: usize, bits: u64)
    requires count { count ≤ 64 }
    requires words { position + count < 64 * length words.old }
    ensures { packed words.new ≡ placed position (word_bits count bits) (packed words.old) }
{
    let place = position / 64;
    let at = position % 64;
    let here = 64 - at;
    if count <= here {
        words[place] = replaced(words[place], at, count, bits);
    } else {
        words[place] = replaced(words[place], at, here, bits);
        words[place + 1] = replaced(words[place + 1], 0, count - here, bits >> here);
    }
}

/// ORs the low `count` bits of `bits` into the bits from a position on. The first one gets the lowest bit.
pub fn gain_word(words: &mut [u64], position: usize, count: usize, bits: u64)
    requires count { count ≤ 64 }
    requires words { position + count < 64 * length words.old }
    ensures { packed words.new ≡ gained position count bits (packed words.old) }
{
    let place = position / 64;
    let at = position % 64;
    let here = 64 - at;
    if count <= here {
        words[place] = gained(words[place], at, count, bits);
    } else {
        words[place] = gained(words[place], at, here, bits);
        words[place + 1] = gained(words[place + 1], 0, count - here, bits >> here);
    }
}

/// Sets the eight bits from a position on to the bits of a byte, the most significant first.
pub fn put_byte(words: &mut [u64], position: usize, byte: u8)
    requires { position + 8 < 64 * length words.old }
    ensures { packed words.new ≡ placed position (byte_bits byte) (packed words.old) }
{
    put_word(words, position, 8, u64::from(turned(byte)));
}

/// The byte of the eight bits from a position on, the first the most significant.
pub fn take_byte(words: &[u64], position: usize) -> u8
    requires { position + 8 < 64 * length words.now }
    ensures { result ≡ byte_of (take 8 (drop position (packed words.now))) }
{
    turned(take_word(words, position, 8) as u8)
}

/// The word of the bits of eight bytes: the first bit of the first byte is its lowest bit.
fn word_of_bytes(bytes: &[u8]) -> u64
    requires { length bytes.now ≡ 8 }
    ensures { word_bits 64 result ≡ bits_of bytes.now }
{
    reversed(u64::from_be_bytes([
        bytes[0], bytes[1], bytes[2], bytes[3], bytes[4], bytes[5], bytes[6], bytes[7],
    ]))
}

/// The eight bytes of the bits of a word, its lowest bit first.
fn bytes_of_word(word: u64) -> [u8; 8]
    ensures { result ≡ bytes_of 8 (word_bits 64 word) }
{
    reversed(word).to_be_bytes()
}

/// Sets the bits from a position on to the bits of the bytes, eight bytes at once.
fn put_eights(words: &mut [u64], position: usize, bytes: &[u8])
    requires whole { length bytes.now % 8 ≡ 0 }
    requires words { position + 8 * length bytes.now < 64 * length words.old }
    requires fits { position + 8 * length bytes.now < 2 ^ 64 }
    ensures { packed words.new ≡ placed position (bits_of bytes.now) (packed words.old) }
{
    for index in 0..bytes.len() / 8 {
        let eight = word_of_bytes(&bytes[8 * index..8 * index + 8]);
        put_word(words, position + 64 * index, 64, eight);
    }
}

/// Sets the bits from a position on to the bits of the bytes, one byte after the other.
fn put_each(words: &mut [u64], position: usize, bytes: &[u8])
    requires words { position + 8 * length bytes.now < 64 * length words.old }
    requires fits { position + 8 * length bytes.now < 2 ^ 64 }
    ensures { packed words.new ≡ placed position (bits_of bytes.now) (packed words.old) }
{
    for (index, byte) in bytes.iter().enumerate() {
        put_byte(words, position + 8 * index, *byte);
    }
}

/// Sets the bits from a position on to the bits of the bytes.
pub fn put_bytes(words: &mut [u64], position: usize, bytes: &[u8])
    requires words { position + 8 * length bytes.now < 64 * length words.old }
    requires fits { position + 8 * length bytes.now < 2 ^ 64 }
    ensures { packed words.new ≡ placed position (bits_of bytes.now) (packed words.old) }
{
    let whole = bytes.len() / 8 * 8;
    put_eights(words, position, &bytes[..whole]);
    put_each(words, position + 8 * whole, &bytes[whole..]);
}

/// Sets eight bytes from index `at` on.
fn set_eight(bytes: &mut [u8], at: usize, eight: [u8; 8])
    requires { at + 8 ≤ length bytes.old }
    ensures { bytes.new ≡ placed at eight bytes.old }
{
    bytes[at..at + 8].copy_from_slice(&eight);
}

/// Fills all whole groups of eight bytes with the bits from a position on.
fn take_eights(words: &[u64], position: usize, bytes: &mut [u8])
    requires words { position + 8 * length bytes.old < 64 * length words.now }
    requires fits { position + 8 * length bytes.old < 2 ^ 64 }
    ensures { take (length bytes.old / 8 * 8) bytes.new ≡ bytes_of (length bytes.old / 8 * 8) (drop position (packed words.now)) }
{
    for index in 0..bytes.len() / 8 {
        let eight = take_word(words, position + 64 * index, 64);
        set_eight(bytes, 8 * index, bytes_of_word(eight));
    }
}

/// Fills the bytes from index `first` on with their bits, if the bytes before it are filled.
fn take_each(words: &[u64], position: usize, bytes: &mut [u8], first: usize)
    requires first { first ≤ length bytes.old }
    requires filled { take first bytes.old ≡ bytes_of first (drop position (packed words.now)) }
    requires words { position + 8 * length bytes.old < 64 * length words.now }
    requires fits { position + 8 * length bytes.old < 2 ^ 64 }
    ensures { bytes.new ≡ bytes_of (length bytes.old) (drop position (packed words.now)) }
{
    for index in first..bytes.len() {
        bytes[index] = take_byte(words, position + 8 * index);
    }
}

/// Fills the bytes with the bits from a position on.
pub fn take_bytes(words: &[u64], position: usize, bytes: &mut [u8])
    requires words { position + 8 * length bytes.old < 64 * length words.now }
    requires fits { position + 8 * length bytes.old < 2 ^ 64 }
    ensures { bytes.new ≡ bytes_of (length bytes.old) (drop position (packed words.now)) }
{
    take_eights(words, position, bytes);
    take_each(words, position, bytes, bytes.len() / 8 * 8);
}

/// Whether all bits are equal.
pub fn same(words: &[u64], other: &[u64]) -> bool
    requires { length words.now ≡ length other.now }
    ensures { IsTrue result ↔ (packed words.now ≡ packed other.now) }
{
    for index in 0..words.len() {
        if words[index] != other[index] {
            return false;
        }
    }
    true
}
