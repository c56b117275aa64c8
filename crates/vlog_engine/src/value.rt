// Values of cells: one bit for each lane.
ghost use Rattle.std.specs.Prelude.{◌≡◌, ◌<◌, ◌==◌, ℕ, Bool, [], ◌∷◌, false, if◌then◌else◌};
ghost use Rattle.vlog_semantics.specs.Values.{bit_of, number_of};

use crate::lane_words::{every, lane_bit, of_table, one_of, only};
use vlog_semantics::bit_of;

/// The value of a cell: one bit for each lane. Lanes count from 0.
pub trait Value: Copy + Drop {
    ghost LANES: { ℕ };

    /// The bit of a value in a lane.
    ghost at: { Self → ℕ → Bool };

    /// How many lanes there are.
    const LANES: u32;

    /// The same bit in each lane.
    fn every(bit: bool) -> Self
        ensures { (lane : ℕ) → lane < LANES → at result lane ≡ bit };

    /// 1 in this lane alone, and 0 in the others.
    fn only(lane: u32) -> Self
        requires { lane < LANES }
        ensures { (other : ℕ) → other < LANES → at result other ≡ (other == lane) };

    /// In each lane, the bit of `one` if the choice is 1, else that of `other`.
    fn select(choice: Self, one: Self, other: Self) -> Self
        ensures { (lane : ℕ) → lane < LANES → at result lane ≡ (if at choice lane then at one lane else at other lane) };

    /// In each lane, the bit of a truth table at the index that four bits spell, the lowest bit first.
    fn of_table(table: u16, a: Self, b: Self, c: Self, d: Self) -> Self
        ensures { (lane : ℕ) → lane < LANES → at result lane ≡ bit_of table (number_of (at a lane ∷ at b lane ∷ at c lane ∷ at d lane ∷ [])) };

    /// Whether two values differ.
    fn differs(self, other: Self) -> bool
        ensures { result ≡ false → self ≡ other };

    /// The bit of a lane.
    fn bit(self, lane: u32) -> bool
        requires { lane < LANES }
        ensures { result ≡ at self lane };
}

/// One lane.
impl Value for bool {
    ghost LANES = { 1 };

    ghost at = { λ bit lane. bit };

    const LANES: u32 = 1;

    fn every(bit: bool) -> bool {
        bit
    }

    fn only(_lane: u32) -> bool {
        true
    }

    fn select(choice: bool, one: bool, other: bool) -> bool {
        if choice { one } else { other }
    }

    fn of_table(table: u16, a: bool, b: bool, c: bool, d: bool) -> bool {
        let number = u32::from(a) + 2 * (u32::from(b) + 2 * (u32::from(c) + 2 * u32::from(d)));
        bit_of(table, number)
    }

    fn differs(self, other: bool) -> bool {
        self != other
    }

    fn bit(self, _lane: u32) -> bool {
        self
    }
}

/// Sixty-four bit-parallel lanes; lane 0 has the lowest bit.
impl Value for u64 {
    ghost use Rattle.vlog_semantics.specs.Values.{bit_of};

    ghost LANES = { 64 };

    ghost at = { bit_of };

    const LANES: u32 = 64;

    fn every(bit: bool) -> u64 {
        every(bit)
    }

    fn only(lane: u32) -> u64 {
        only(lane)
    }

    fn select(choice: u64, one: u64, other: u64) -> u64 {
        one_of(choice, one, other)
    }

    fn of_table(table: u16, a: u64, b: u64, c: u64, d: u64) -> u64 {
        of_table(table, a, b, c, d)
    }

    fn differs(self, other: u64) -> bool {
        self != other
    }

    fn bit(self, lane: u32) -> bool {
        lane_bit(self, lane)
    }
}
