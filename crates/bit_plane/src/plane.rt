// A plane that keeps its bits in words of 64, which run through all rows: a row needn't begin a word. So the bytes of a stream go in and out as
// one run of bits, and a row that ends within a byte needs no care. Up to 64 bits of a row lie in two words at most.
ghost use Rattle.std.specs.Prelude.{◌≡◌, ◌+◌, ◌*◌, ◌/◌, ◌^◌, ◌<◌, vec_len};
ghost use Rattle.bit_plane.specs.inside.Packed.{IsClearFrom};

use crate::bits::Bits;
use crate::order;
use std::alloc::{AllocError, Global};

/// `H` rows of `W` bits, one row after the other in words of sixty-four bits.
///
/// Position p is the bit of value 2^(p % 64) in word p / 64. The bits after the last position are 0.
#[derive(Drop)]
pub struct Plane<const W: usize, const H: usize> {
    words: Vec<u64>,
    ghost fits: { W * H < 2 ^ 64 },
    ghost sized: { vec_len words ≡ W * H / 64 + 1 },
    ghost clear: { IsClearFrom (W * H) words.items },
}

impl<const W: usize, const H: usize> Bits for Plane<W, H> {
    ghost use Rattle.bit_plane.specs.inside.Packed.{rows_in, IsGrid-rows_in};
    ghost use Rattle.std.proofs.Common.{sym, ◌∙◌};

    ghost WIDTH = { W };

    ghost HEIGHT = { H };

    const WIDTH: usize = W;

    const HEIGHT: usize = H;

    ghost rows = { λ plane. rows_in W H plane.words.items };

    fn zeroed(alloc: Global) -> Result<Self, AllocError> {
        match W.checked_mul(H) {
            Some(size) => Ok(Plane {
                words: vec![in alloc; 0; size / 64 + 1]?,
            }),
            None => Err(AllocError),
        }
    }

    fn get(&self, x: usize, y: usize) -> bool {
        order::take_word(&self.words, y * W + x, 1) == 1
    }

    fn set(&mut self, x: usize, y: usize, bit: bool) {
        order::put_word(&mut self.words, y * W + x, 1, u64::from(bit));
    }

    fn put_byte(&mut self, position: usize, byte: u8) {
        order::put_byte(&mut self.words, position, byte);
    }

    fn take_byte(&self, position: usize) -> u8 {
        order::take_byte(&self.words, position)
    }

    fn put_bytes(&mut self, first: usize, _count: usize, bytes: &[u8]) {
        order::put_bytes(&mut self.words, first * W, bytes);
    }

    fn take_bytes(&self, first: usize, _count: usize, out: &mut [u8]) {
        order::take_bytes(&self.words, first * W, out);
    }

    fn row_bits(&self, x: usize, y: usize, count: usize) -> u64 {
        order::take_word(&self.words, y * W + x, count)
    }

    fn set_row_bits(&mut self, x: usize, y: usize, count: usize, bits: u64) {
        order::put_word(&mut self.words, y * W + x, count, bits);
    }

    fn gain_row_bits(&mut self, x: usize, y: usize, count: usize, bits: u64) {
        order::gain_word(&mut self.words, y * W + x, count, bits);
    }

    fn same(&self, other: &Self) -> bool {
        order::same(&self.words, &other.words)
    }

    ghost is_grid = { λ plane. IsGrid-rows_in W H plane.words.items (sym plane.words.ok.0 ∙ plane.sized) };
}
