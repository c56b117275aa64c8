// What every plane of bits can do, however it stores them.
ghost use Rattle.std.specs.Prelude.{◌≡◌, ℕ, ◌+◌, ◌*◌, ◌/◌, ◌%◌, ◌<◌, ◌≤◌, ◌↔◌, ◌++◌, List, Bool, length, take, drop, IfOk, IsTrue};
ghost use Rattle.bit_plane.specs.BitList.{word_bits, word_of, byte_bits, byte_of, bits_of, bytes_of, gained, placed};
ghost use Rattle.bit_plane.specs.Rows.{Rows, IsGrid, row_at, bit_at, with_row, with_bit, blank, flat, rows_of};

use std::alloc::{AllocError, Global};

/// A plane of bits, `HEIGHT` rows by `WIDTH` columns.
///
/// Position p of a plane is column `p % WIDTH` of row `p / WIDTH`.
pub trait Bits: Sized + Drop {
    ghost WIDTH: { ℕ };

    ghost HEIGHT: { ℕ };

    const WIDTH: usize;

    const HEIGHT: usize;

    /// The rows, row 0 first, each its bits from column 0 on.
    ghost rows: { Self → Rows };

    /// A plane whose bits are all 0.
    ///
    /// # Errors
    /// `AllocError` if memory is out, or if the plane has more bits than a `usize` can count.
    fn zeroed(alloc: Global) -> Result<Self, AllocError>
        ensures { IfOk result (λ plane. rows plane ≡ blank WIDTH HEIGHT) };

    /// The bit of column x in row y.
    fn get(&self, x: usize, y: usize) -> bool
        requires column { x < WIDTH }
        requires row { y < HEIGHT }
        ensures { result ≡ bit_at (rows self.now) x y };

    /// Sets the bit of column x in row y.
    fn set(&mut self, x: usize, y: usize, bit: bool)
        requires column { x < WIDTH }
        requires row { y < HEIGHT }
        ensures { rows self.new ≡ with_bit (rows self.old) x y bit };

    /// `count` bits of row y, from column x on, as a number. Column x is its lowest bit.
    fn row_bits(&self, x: usize, y: usize, count: usize) -> u64
        requires count { count ≤ 64 }
        requires columns { x + count ≤ WIDTH }
        requires row { y < HEIGHT }
        ensures { result ≡ word_of (take count (drop x (row_at (rows self.now) y))) };

    /// Sets `count` bits of row y, from column x on, to the low bits of `bits`. Column x gets the lowest bit.
    fn set_row_bits(&mut self, x: usize, y: usize, count: usize, bits: u64)
        requires count { count ≤ 64 }
        requires columns { x + count ≤ WIDTH }
        requires row { y < HEIGHT }
        ensures { rows self.new ≡ with_row (rows self.old) y
            (placed x (word_bits count bits) (row_at (rows self.old) y)) };

    /// ORs the low `count` bits of `bits` into row y, from column x on. Column x gets the lowest bit.
    fn gain_row_bits(&mut self, x: usize, y: usize, count: usize, bits: u64)
        requires count { count ≤ 64 }
        requires columns { x + count ≤ WIDTH }
        requires row { y < HEIGHT }
        ensures { rows self.new ≡ with_row (rows self.old) y (gained x count bits (row_at (rows self.old) y)) };

    /// Sets the eight bits from a position on to the bits of a byte, the most significant first. The code of this project moves whole rows,
    /// by [`Bits::put_bytes`]: this is for users of the library.
    fn put_byte(&mut self, position: usize, byte: u8)
        requires { position + 8 ≤ WIDTH * HEIGHT }
        ensures { rows self.new ≡ rows_of WIDTH HEIGHT
            (placed position (byte_bits byte) (flat (rows self.old))) };

    /// The byte of the eight bits from a position on, the most significant first. The code of this project moves whole rows, by
    /// [`Bits::take_bytes`]: this is for users of the library.
    fn take_byte(&self, position: usize) -> u8
        requires { position + 8 ≤ WIDTH * HEIGHT }
        ensures { result ≡ byte_of (take 8 (drop position (flat (rows self.now)))) };

    /// Sets `count` whole rows, from row `first` on, to the bits of the bytes, the most significant bit of each byte first.
    fn put_bytes(&mut self, first: usize, count: usize, bytes: &[u8])
        requires rows { first + count ≤ HEIGHT }
        requires bytes { 8 * length bytes.now ≡ count * WIDTH }
        ensures { rows self.new ≡ placed first (rows_of WIDTH count (bits_of bytes.now)) (rows self.old) };

    /// Fills `out` with the bytes of `count` whole rows, from row `first` on, the most significant bit of each byte first.
    fn take_bytes(&self, first: usize, count: usize, out: &mut [u8])
        requires rows { first + count ≤ HEIGHT }
        requires bytes { 8 * length out.old ≡ count * WIDTH }
        ensures { out.new ≡ bytes_of (length out.old) (flat (take count (drop first (rows self.now)))) };

    /// Whether all bits are equal. No tool of this project needs it: it is for users of the library.
    fn same(&self, other: &Self) -> bool
        ensures { IsTrue result ↔ (rows self.now ≡ rows other.now) };

    /// A plane has its rows, each of them whole.
    ghost is_grid: { (plane : Self) → IsGrid WIDTH HEIGHT (rows plane) };
}
