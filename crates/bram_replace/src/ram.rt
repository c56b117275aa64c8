// One RAM of a text: sixteen lines of sixteen words of sixteen bits.
ghost use Rattle.std.specs.Prelude.{◌≡◌, ◌≢◌, ◌≤◌, ◌<◌, [], ◌∷◌, ◌+◌, ◌*◌, ◌^◌, ◌++◌, ◌/◌, ◌%◌, ◌==◌, ℕ, true, length, get_or, drop, IfOk, OnOk, if◌then◌else◌};
ghost use Rattle.hex.specs.Hex.{encode_lower};
ghost use Rattle.text_lines.specs.Lines.{line_at, lines_of, whole_lines_of};
ghost use Rattle.index_search.specs.Places.{gathered_below};
ghost use Rattle.asc_text.specs.Canonical.{two_bytes};
ghost use Rattle.asc_text.specs.Rows.{is_memory_line, memory_bit, ram_line_bytes};
ghost use Rattle.bram_replace.specs.Columns.{column_bit, column_count};
ghost use Rattle.bram_replace.specs.ReadModes.{by_columns};
ghost use Rattle.bram_replace.specs.Replaced.{bits_after, changes, column_found, columns_found, digits_with, memory_line_with, ram_bits};
ghost use Rattle.asc_text.specs.Rams.{BeginsWithRam};
ghost use Rattle.bram_replace.specs.Rams.{AreAlike, columns_after, listed};

use crate::columns::{Columns, column_of, word_of};
use crate::hex_file::HexFile;
use crate::order::{by_columns, from_columns};
use std::alloc::AllocError;
use text_lines::{FirstLine, first_line, trimmed};

/// How many lines a RAM has, how many words a line has and how many bits a word has.
pub(crate) const SIXTEEN: usize = 16;

/// How many bits a line has.
const LINE_BITS: usize = 256;

/// How many digits a line has.
const LINE_DIGITS: usize = 64;

/// The bits of a RAM, one word after the other, the lowest bit of each first.
pub(crate) type RamBits = [bool; 4096];

/// The bits of the RAM whose lines begin the text.
pub(crate) fn ram_bits(text: &[u8]) -> RamBits
    requires { BeginsWithRam (lines_of text.now) }
    ensures { AreAlike 256 (listed result) (ram_bits (lines_of text.now)) }
{
    let mut bits = [false; 4096];
    let mut left = text;
    for row in 0..SIXTEEN {
        let line = next_line(left);
        put_line(&mut bits, row, trimmed(line.content));
        left = line.rest;
    }
    bits
}

/// The first line of a text, which isn't empty.
fn next_line(text: &[u8]) -> FirstLine<'_>
    requires { text.now ≢ [] }
    ensures lines { lines_of text.now ≡ result.content.now ∷ lines_of result.rest.now }
    ensures whole_lines { whole_lines_of text.now ≡ result.whole.now ∷ whole_lines_of result.rest.now }
{
    match first_line(text) {
        Some(line) => line,
        None => unreachable!(),
    }
}

/// Sets the sixteen words of line `row` to the words of a memory line.
fn put_line(bits: &mut RamBits, row: usize, line: &[u8])
    requires row { row < 16 }
    requires digits { is_memory_line line.now ≡ true }
    ensures there { (index bit : ℕ) → index < 16 → bit < 16 → listed bits.new (16 * row + index) bit ≡ memory_bit line.now index bit }
    ensures before { AreAlike (16 * row) (listed bits.new) (listed bits.old) }
{
    let bytes = ram_line_bytes(line);
    for index in 0..SIXTEEN {
        let high = u16::from(bytes[30 - 2 * index]);
        let low = u16::from(bytes[31 - 2 * index]);
        put_word(bits, SIXTEEN * row + index, 256 * high + low);
    }
}

/// Sets a word to the bits of `value`.
fn put_word(bits: &mut RamBits, word: usize, value: u16)
    requires { word < 256 }
    ensures there { (bit : ℕ) → bit < 16 → listed bits.new word bit ≡ (value / 2 ^ bit % 2 == 1) }
    ensures before { AreAlike word (listed bits.new) (listed bits.old) }
{
    let mut rest = value;
    for bit in 0..SIXTEEN {
        bits[SIXTEEN * word + bit] = rest % 2 == 1;
        rest /= 2;
    }
}

/// The bytes of a memory line.
fn ram_line_bytes(line: &[u8]) -> [u8; 32]
    requires { is_memory_line line.now ≡ true }
    ensures { result ≡ ram_line_bytes line.now }
{
    let mut bytes = [0; 32];
    match hex::decode_to_slice(line, &mut bytes) {
        Ok(()) => bytes,
        Err(_) => unreachable!(),
    }
}

/// Replaces each column of a RAM in this mode that is equal to a column of the first file by the column of the same index of the second
/// file, and counts it at that index.
pub(crate) fn replace_in_mode(
    bits: &mut RamBits,
    mode: u8,
    columns: &Columns,
    to: &HexFile,
    found: &mut [u32],
)
    requires mode { mode < 4 }
    requires counts { length found.old ≡ column_count columns.now.file.now }
    requires same { column_count to.now ≡ column_count columns.now.file.now }
    requires room { (column : ℕ) → get_or found.old column 0 < 2 ^ 31 }
    ensures bits { AreAlike 256 (listed bits.new) (bits_after columns.now.file.now to.now mode (listed bits.old)) }
    ensures found { (column : ℕ) → column < column_count columns.now.file.now
        → get_or found.new column 0 ≡ get_or found.old column 0 + length (columns_found columns.now.file.now (by_columns mode (listed bits.old)) column) }
{
    if mode == 0 {
        replace_columns(bits, columns, to, found);
        return;
    }
    let mut own = by_columns(bits, mode);
    replace_columns(&mut own, columns, to, found);
    *bits = from_columns(&own, mode);
}

/// Replaces columns whose bits are sixteen apart: each that is equal to a column of the first file by the column of the same index of the
/// second file. Counts it at that index.
fn replace_columns(bits: &mut RamBits, columns: &Columns, to: &HexFile, found: &mut [u32])
    requires counts { length found.old ≡ column_count columns.now.file.now }
    requires same { column_count to.now ≡ column_count columns.now.file.now }
    requires room { (column : ℕ) → get_or found.old column 0 < 2 ^ 31 }
    ensures bits { AreAlike 256 (listed bits.new) (columns_after columns.now.file.now to.now (listed bits.old)) }
    ensures found { (column : ℕ) → column < column_count columns.now.file.now
        → get_or found.new column 0 ≡ get_or found.old column 0 + length (columns_found columns.now.file.now (listed bits.old) column) }
{
    for bit in 0..SIXTEEN {
        replace_column(bits, bit, columns, to, found);
    }
}

/// Replaces one of these columns if it is equal to a column of the first file, and counts it at the index of that column.
fn replace_column(
    bits: &mut RamBits,
    bit: usize,
    columns: &Columns,
    to: &HexFile,
    found: &mut [u32],
)
    requires bit { bit < 16 }
    requires counts { length found.old ≡ column_count columns.now.file.now }
    requires same { column_count to.now ≡ column_count columns.now.file.now }
    requires room { (column : ℕ) → get_or found.old column 0 < 2 ^ 31 + 16 }
    ensures bits { AreAlike 256 (listed bits.new)
        (λ word place. if place == bit then columns_after columns.now.file.now to.now (listed bits.old) word place else listed bits.old word place) }
    ensures found { (column : ℕ) → column < column_count columns.now.file.now
        → get_or found.new column 0 ≡ get_or found.old column 0 + length (column_found columns.now.file.now (listed bits.old) column bit) }
{
    let Some(place) = columns.place(column_of(bits.as_slice(), bit, SIXTEEN)) else {
        return;
    };
    found[place] += 1;
    put_column(bits, bit, to, place);
}

/// Sets bit `bit` of each word of a RAM to the bit of a column.
fn put_column(bits: &mut RamBits, bit: usize, to: &HexFile, column: usize)
    requires bit { bit < 16 }
    requires column { column < column_count to.now }
    ensures { AreAlike 256 (listed bits.new)
        (λ word place. if place == bit then column_bit to.now column word else listed bits.old word place) }
{
    for word in 0..256 {
        bits[SIXTEEN * word + bit] = to.column_bit(column, word);
    }
}

/// Appends the lines of a RAM that begin the text, with the new bits, and returns the text after them.
pub(crate) fn append_lines<'a>(
    bytes: &mut Vec<u8>,
    text: &'a [u8],
    old: &RamBits,
    new: &RamBits,
) -> Result<&'a [u8], AllocError>
    requires { BeginsWithRam (lines_of text.now) }
    ensures bytes { OnOk result (bytes.new.items ≡ bytes.old.items
        ++ gathered_below 16 (λ row. memory_line_with (listed old.now) (listed new.now) row (line_at (whole_lines_of text.now) row))) }
    ensures lines { IfOk result (λ left. lines_of left.now ≡ drop 16 (lines_of text.now)) }
    ensures whole_lines { IfOk result (λ left. whole_lines_of left.now ≡ drop 16 (whole_lines_of text.now)) }
{
    let mut left = text;
    for row in 0..SIXTEEN {
        let line = next_line(left);
        append_line(bytes, line.whole, old, new, row)?;
        left = line.rest;
    }
    Ok(left)
}

/// Appends a line of a RAM: unchanged if its words stay, or else with the new digits.
fn append_line(
    bytes: &mut Vec<u8>,
    whole: &[u8],
    old: &RamBits,
    new: &RamBits,
    row: usize,
) -> Result<(), AllocError>
    requires row { row < 16 }
    requires size { 64 ≤ length whole.now }
    ensures { OnOk result (bytes.new.items ≡ bytes.old.items ++ memory_line_with (listed old.now) (listed new.now) row whole.now) }
{
    if !changes(old, new, row) {
        return bytes.extend_from_slice(whole);
    }
    append_digits(bytes, new, row)?;
    bytes.extend_from_slice(&whole[LINE_DIGITS..])?;
    Ok(())
}

/// Whether a word of a line changes.
fn changes(old: &RamBits, new: &RamBits, row: usize) -> bool
    requires { row < 16 }
    ensures { result ≡ changes (listed old.now) (listed new.now) row }
{
    for place in LINE_BITS * row..LINE_BITS * (row + 1) {
        if old[place] != new[place] {
            return true;
        }
    }
    false
}

/// Appends the digits of a line, in lower case, the first word at the right.
fn append_digits(bytes: &mut Vec<u8>, bits: &RamBits, row: usize) -> Result<(), AllocError>
    requires { row < 16 }
    ensures { OnOk result (bytes.new.items ≡ bytes.old.items ++ digits_with (listed bits.now) row) }
{
    for place in 0..SIXTEEN {
        let word = word_of(
            bits.as_slice(),
            SIXTEEN * (SIXTEEN * row + (15 - place)),
            1,
            SIXTEEN,
        );
        append_word(bytes, word as u16)?;
    }
    Ok(())
}

/// Appends the four digits of a word.
fn append_word(bytes: &mut Vec<u8>, word: u16) -> Result<(), AllocError>
    ensures { OnOk result (bytes.new.items ≡ bytes.old.items ++ encode_lower (two_bytes word)) }
{
    let mut digits = [0; 4];
    hex::encode_to_slice(word.to_be_bytes(), &mut digits).unwrap();
    bytes.extend_from_slice(&digits)
}
