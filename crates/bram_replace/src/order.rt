// The bits of a RAM in the order of its columns, in any read mode.
ghost use Rattle.std.specs.Prelude.{◌≡◌, ◌<◌, ◌+◌, ◌*◌, ◌^◌, ℕ};
ghost use Rattle.bram_replace.specs.ReadModes.{address_of, by_columns, column_in, from_columns, mode_width, place_in, reversed};
ghost use Rattle.bram_replace.specs.Rams.{AreAlike, kept_at, listed};

use crate::ram::{RamBits, SIXTEEN};
use narrow_words::share;

/// How many bits a RAM has.
const RAM_BITS: usize = 4096;

/// How many words a block has.
const BLOCK_WORDS: usize = 256;

/// The bits of the columns of a RAM in this mode: place by place, one bit of each column.
pub(crate) fn by_columns(bits: &RamBits, mode: u8) -> RamBits
    requires { mode < 4 }
    ensures { AreAlike 256 (listed result) (by_columns mode (listed bits.now)) }
{
    let mut columns = [false; RAM_BITS];
    for index in 0..RAM_BITS {
        columns[index] = bits[kept_at(mode, index / SIXTEEN, index % SIXTEEN)];
    }
    columns
}

/// The bits of a RAM in this mode from the bits of its columns.
pub(crate) fn from_columns(columns: &RamBits, mode: u8) -> RamBits
    requires { mode < 4 }
    ensures { AreAlike 256 (listed result) (from_columns mode (listed columns.now)) }
{
    let mut bits = [false; RAM_BITS];
    for index in 0..RAM_BITS {
        bits[index] = columns[stands_at(mode, index / SIXTEEN, index % SIXTEEN)];
    }
    bits
}

/// The index in a RAM in this mode at which the bit of a column at a place is.
fn kept_at(mode: u8, place: usize, column: usize) -> usize
    requires mode { mode < 4 }
    requires place { place < 256 }
    requires column { column < 16 }
    ensures is { result ≡ kept_at mode place column }
    ensures within { result < 4096 }
{
    let words = usize::from(share(mode));
    let width = SIXTEEN / words;
    let address = BLOCK_WORDS * (column / width) + place;
    let bit = words * (column % width) + reversed(mode, address % words);
    SIXTEEN * (address / words) + bit
}

/// The index among the bits of the columns at which a bit of a word of a RAM in this mode is.
fn stands_at(mode: u8, word: usize, bit: usize) -> usize
    requires mode { mode < 4 }
    requires word { word < 256 }
    requires bit { bit < 16 }
    ensures is { result ≡ 16 * place_in mode word bit + column_in mode word bit }
    ensures within { result < 4096 }
{
    let words = usize::from(share(mode));
    let address = words * word + reversed(mode, bit % words);
    let column = address / BLOCK_WORDS * (SIXTEEN / words) + bit / words;
    SIXTEEN * (address % BLOCK_WORDS) + column
}

/// The low `mode` bits of a number, in reverse order.
fn reversed(mode: u8, number: usize) -> usize
    requires { mode < 4 }
    ensures is { result ≡ reversed mode number }
    ensures small { result < 2 ^ mode }
{
    match mode {
        0 => 0,
        1 => number % 2,
        2 => 2 * (number % 2) + number / 2 % 2,
        _ => 4 * (number % 2) + 2 * (number / 2 % 2) + number / 4 % 2,
    }
}
