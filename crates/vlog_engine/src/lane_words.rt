// Words that are bit-parallel lanes: one bit for each of sixty-four lanes.
ghost use Rattle.std.specs.Prelude.{◌≡◌, ◌<◌, ◌≤◌, ◌+◌, ◌==◌, ℕ, [], ◌∷◌, if◌then◌else◌};
ghost use Rattle.vlog_engine.specs.Lanes.{AreChoices};
ghost use Rattle.vlog_semantics.specs.Values.{bit_of, number_of};

/// The bit of a lane; lanes count from 0.
pub(crate) fn lane_bit(word: u64, lane: u32) -> bool
    requires { lane < 64 }
    ensures { result ≡ bit_of word lane }
{
    (word >> lane) & 1 == 1
}

/// In each lane, the bit of `one` if the choice is 1, else that of `other`.
pub(crate) fn one_of(choice: u64, one: u64, other: u64) -> u64
    ensures { (lane : ℕ) → bit_of result lane ≡ (if bit_of choice lane then bit_of one lane else bit_of other lane) }
{
    other ^ (choice & (one ^ other))
}

/// A word with the same bit in each lane.
pub(crate) fn every(bit: bool) -> u64
    ensures { (lane : ℕ) → lane < 64 → bit_of result lane ≡ bit }
{
    if bit { u64::MAX } else { 0 }
}

/// A word with a 1 in this lane alone.
pub(crate) fn only(lane: u32) -> u64
    requires { lane < 64 }
    ensures { (other : ℕ) → bit_of result other ≡ (other == lane) }
{
    1 << lane
}

/// A word with this bit in this lane, and its old bits in the others.
pub(crate) fn with_bit(word: u64, lane: u32, bit: bool) -> u64
    requires { lane < 64 }
    ensures { (other : ℕ) → other < 64 → bit_of result other ≡ (if other == lane then bit else bit_of word other) }
{
    one_of(only(lane), every(bit), word)
}

/// In each lane, what the two bits of a truth table that a bit chooses from may make of it: 0, the other bit, the bit itself, 1. The index
/// has the bit for 0 as its lower bit, and the bit for 1 as its higher one.
fn choices_of(a: u64) -> [u64; 4]
    ensures { AreChoices a result }
{
    [every(false), one_of(a, 0, u64::MAX), a, every(true)]
}

/// In each lane, one of two bits of a truth table, from `k` on.
fn of_two(choices: &[u64; 4], table: u16, k: u32) -> u64
    requires { k + 2 ≤ 16 }
    ensures { (a lane : ℕ) → AreChoices a choices.now → lane < 64 → bit_of result lane ≡ bit_of table (k + number_of (bit_of a lane ∷ [])) }
{
    choices[usize::from((table >> k) % 4)]
}

/// In each lane, one of four bits of a truth table, from `k` on.
fn of_four(choices: &[u64; 4], table: u16, k: u32, b: u64) -> u64
    requires { k + 4 ≤ 16 }
    ensures { (a lane : ℕ) → AreChoices a choices.now → lane < 64 → bit_of result lane ≡ bit_of table (k + number_of (bit_of a lane ∷ bit_of b lane ∷ [])) }
{
    one_of(b, of_two(choices, table, k + 2), of_two(choices, table, k))
}

/// In each lane, one of eight bits of a truth table, from `k` on.
fn of_eight(choices: &[u64; 4], table: u16, k: u32, b: u64, c: u64) -> u64
    requires { k + 8 ≤ 16 }
    ensures { (a lane : ℕ) → AreChoices a choices.now → lane < 64 → bit_of result lane ≡ bit_of table (k + number_of (bit_of a lane ∷ bit_of b lane ∷ bit_of c lane ∷ [])) }
{
    one_of(
        c,
        of_four(choices, table, k + 4, b),
        of_four(choices, table, k, b),
    )
}

/// In each lane, the bit of a truth table at the index that four bits spell, the lowest bit first.
pub(crate) fn of_table(table: u16, a: u64, b: u64, c: u64, d: u64) -> u64
    ensures { (lane : ℕ) → lane < 64 → bit_of result lane ≡ bit_of table (number_of (bit_of a lane ∷ bit_of b lane ∷ bit_of c lane ∷ bit_of d lane ∷ [])) }
{
    let choices = choices_of(a);
    one_of(
        d,
        of_eight(&choices, table, 8, b, c),
        of_eight(&choices, table, 0, b, c),
    )
}
