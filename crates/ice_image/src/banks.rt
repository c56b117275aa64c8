// The planes of the four banks, one for each quarter of the grid.
ghost use Rattle.std.specs.Prelude.{◌≡◌, ◌+◌, ◌<◌, ◌≤◌, IfOk, replicate, take, drop};
ghost use Rattle.bit_plane.specs.BitList.{word_bits, word_of, gained, placed};
ghost use Rattle.bit_plane.specs.Rows.{blank, row_at, with_row};
ghost use Rattle.ice_image.specs.Configuration.{bank_rows, place_bit, with_bank, with_place_bit, AreBanks};
ghost use Rattle.std.specs.Borrow.{Lends, sem};
ghost use Rattle.ice_image.specs.contracts.banks.Banks.{the_row};

use bit_plane::Bits;
use plane_map::Place;
use std::alloc::{AllocError, Global};
use std::marker::Model;

/// One plane for each of the four banks: the configuration planes of an image, or its RAM planes.
#[derive(Drop)]
pub(crate) struct Banks<P: Bits> {
    left_bottom: P,
    left_top: P,
    right_bottom: P,
    right_top: P,
}

impl<P: Bits> Model for Banks<P> {
    ghost use Rattle.std.specs.Prelude.{List, [], ◌∷◌};
    ghost use Rattle.bit_plane.specs.Rows.{Rows};

    ghost Value = { List Rows };

    // Banks 0 to 3.
    ghost view = { λ banks. P.rows banks.left_bottom ∷ P.rows banks.left_top ∷ P.rows banks.right_bottom ∷ P.rows banks.right_top ∷ [] };
}

impl<P: Bits> Banks<P> {
    /// Four planes whose bits are all 0.
    pub(crate) fn zeroed(alloc: Global) -> Result<Banks<P>, AllocError>
        ensures planes { IfOk result (λ banks. banks ≡ replicate 4 (blank P.WIDTH P.HEIGHT)) }
        ensures whole { IfOk result (λ banks. AreBanks P.WIDTH P.HEIGHT banks) }
    {
        Ok(Banks {
            left_bottom: P::zeroed(alloc)?,
            left_top: P::zeroed(alloc)?,
            right_bottom: P::zeroed(alloc)?,
            right_top: P::zeroed(alloc)?,
        })
    }

    /// The plane of a bank.
    pub(crate) fn plane(&self, bank: usize) -> &P
        requires { bank < 4 }
        ensures { P.rows result.now ≡ bank_rows self.now bank }
    {
        match bank {
            0 => &self.left_bottom,
            1 => &self.left_top,
            2 => &self.right_bottom,
            _ => &self.right_top,
        }
    }

    /// The plane of a bank, to be changed.
    pub(crate) fn plane_mut(&mut self, bank: usize) -> &mut P
        requires { bank < 4 }
        ensures* writes_back { sem 𝓛 (Lends (the_row P.row P.Bits) P.row self.entry result (λ plane. with_bank self.old bank (P.rows plane))) }
        ensures plane { P.rows result.now ≡ bank_rows self.old bank }
    {
        match bank {
            0 => &mut self.left_bottom,
            1 => &mut self.left_top,
            2 => &mut self.right_bottom,
            _ => &mut self.right_top,
        }
    }

    /// `count` bits of row y of a bank's plane, from column x on, as a number. Column x is its lowest bit.
    pub(crate) fn row_bits(&self, bank: usize, x: usize, y: usize, count: usize) -> u64
        requires bank { bank < 4 }
        requires count { count ≤ 64 }
        requires columns { x + count ≤ P.WIDTH }
        requires row { y < P.HEIGHT }
        ensures bits { result ≡ word_of (take count (drop x (row_at (bank_rows self.now bank) y))) }
        ensures whole { AreBanks P.WIDTH P.HEIGHT self.now }
    {
        match bank {
            0 => self.left_bottom.row_bits(x, y, count),
            1 => self.left_top.row_bits(x, y, count),
            2 => self.right_bottom.row_bits(x, y, count),
            _ => self.right_top.row_bits(x, y, count),
        }
    }

    /// Sets `count` bits of row y of a bank's plane, from column x on, to the low bits of `bits`. Column x gets the lowest bit.
    pub(crate) fn set_row_bits(&mut self, bank: usize, x: usize, y: usize, count: usize, bits: u64)
        requires bank { bank < 4 }
        requires count { count ≤ 64 }
        requires columns { x + count ≤ P.WIDTH }
        requires row { y < P.HEIGHT }
        ensures planes { self.new ≡ with_bank self.old bank (with_row (bank_rows self.old bank) y
            (placed x (word_bits count bits) (row_at (bank_rows self.old bank) y))) }
        ensures before { AreBanks P.WIDTH P.HEIGHT self.old }
        ensures whole { AreBanks P.WIDTH P.HEIGHT self.new }
    {
        match bank {
            0 => self.left_bottom.set_row_bits(x, y, count, bits),
            1 => self.left_top.set_row_bits(x, y, count, bits),
            2 => self.right_bottom.set_row_bits(x, y, count, bits),
            _ => self.right_top.set_row_bits(x, y, count, bits),
        }
    }

    /// ORs the low `count` bits of `bits` into row y of a bank's plane, from column x on. Column x gets the lowest bit.
    pub(crate) fn gain_row_bits(&mut self, bank: usize, x: usize, y: usize, count: usize, bits: u64)
        requires bank { bank < 4 }
        requires count { count ≤ 64 }
        requires columns { x + count ≤ P.WIDTH }
        requires row { y < P.HEIGHT }
        ensures planes { self.new ≡ with_bank self.old bank (with_row (bank_rows self.old bank) y
            (gained x count bits (row_at (bank_rows self.old bank) y))) }
        ensures before { AreBanks P.WIDTH P.HEIGHT self.old }
        ensures whole { AreBanks P.WIDTH P.HEIGHT self.new }
    {
        match bank {
            0 => self.left_bottom.gain_row_bits(x, y, count, bits),
            1 => self.left_top.gain_row_bits(x, y, count, bits),
            2 => self.right_bottom.gain_row_bits(x, y, count, bits),
            _ => self.right_top.gain_row_bits(x, y, count, bits),
        }
    }

    /// The bit at a place.
    pub(crate) fn get(&self, at: Place) -> bool
        requires bank { at.bank < 4 }
        requires column { at.px < P.WIDTH }
        requires row { at.py < P.HEIGHT }
        ensures { result ≡ place_bit self.now at }
    {
        self.plane(usize::from(at.bank))
            .get(usize::from(at.px), usize::from(at.py))
    }

    /// Sets the bit at a place.
    pub(crate) fn set(&mut self, at: Place, bit: bool)
        requires bank { at.bank < 4 }
        requires column { at.px < P.WIDTH }
        requires row { at.py < P.HEIGHT }
        ensures planes { self.new ≡ with_place_bit self.old at bit }
        ensures before { AreBanks P.WIDTH P.HEIGHT self.old }
        ensures whole { AreBanks P.WIDTH P.HEIGHT self.new }
    {
        let x = usize::from(at.px);
        let y = usize::from(at.py);
        match at.bank {
            0 => self.left_bottom.set(x, y, bit),
            1 => self.left_top.set(x, y, bit),
            2 => self.right_bottom.set(x, y, bit),
            _ => self.right_top.set(x, y, bit),
        }
    }
}
