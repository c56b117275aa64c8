// A tile of the fabric: sixteen rows of bits.
ghost use Rattle.std.specs.Prelude.{◌≡◌, ◌<◌, ◌≤◌, ◌^◌};
ghost use Rattle.bit_plane.specs.BitList.{word_bits, word_of};
ghost use Rattle.bit_plane.specs.Rows.{IsGrid, row_at, bit_at, with_row, with_bit, blank};

use std::marker::Model;

/// Sixteen rows of C bits, C at most 64.
///
/// Column c of a row is the bit of value 2^c in the row's word.
#[derive(Drop)]
pub struct Tile<const C: usize> {
    words: [u64; 16],
}

impl<const C: usize> Model for Tile<C> {
    ghost use Rattle.std.specs.Prelude.{◌<◌, ◌≤◌, ◌^◌, map, All};
    ghost use Rattle.bit_plane.specs.BitList.{word_bits};
    ghost use Rattle.bit_plane.specs.Rows.{Rows};

    ghost Value = { Rows };

    ghost view = { λ tile. map (word_bits C) tile.words };

    ghost invariant = { λ tile. (C ≤ 64) × All (λ word. word < 2 ^ C) tile.words };
}

impl<const C: usize> Tile<C> {
    /// All bits 0.
    pub fn new() -> Tile<C>
        requires { C ≤ 64 }
        ensures { result ≡ blank C 16 }
    {
        Tile { words: [0; 16] }
    }

    /// The bit of a column in a row.
    pub fn get(&self, row: usize, col: usize) -> bool
        requires row { row < 16 }
        requires col { col < C }
        ensures bit { result ≡ bit_at self.now col row }
        ensures grid { IsGrid C 16 self.now }
    {
        self.words[row] >> col & 1 == 1
    }

    /// Sets the bit of a column in a row.
    pub fn set(&mut self, row: usize, col: usize, bit: bool)
        requires row { row < 16 }
        requires col { col < C }
        ensures bits { self.new ≡ with_bit self.old col row bit }
        ensures grid { IsGrid C 16 self.new }
    {
        if bit {
            self.words[row] |= 1 << col;
        } else {
            self.words[row] &= !(1 << col);
        }
    }

    /// The bits of a row as a word.
    pub fn row(&self, row: usize) -> u64
        requires { row < 16 }
        ensures word { result ≡ word_of (row_at self.now row) }
        ensures grid { IsGrid C 16 self.now }
    {
        self.words[row]
    }

    /// Sets the bits of a row to the low bits of a word.
    pub fn set_row(&mut self, row: usize, bits: u64)
        requires row { row < 16 }
        requires bits { bits < 2 ^ C }
        ensures bits { self.new ≡ with_row self.old row (word_bits C bits) }
        ensures grid { IsGrid C 16 self.new }
    {
        self.words[row] = bits;
    }
}
