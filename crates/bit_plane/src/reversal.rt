// Words with their bits in reverse order. Pairs of bits are exchanged, then pairs of pairs, and so on. The kit's `reverse_bits` is a loop over
// the bits, which stays one when it is compiled.
ghost use Rattle.std.specs.Prelude.{◌≡◌, ℕ, ◌-◌, ◌<◌};
ghost use Rattle.std.specs.Int.{bit_at};
ghost use Rattle.bit_plane.specs.inside.Pairs.{ArePairs, partner};

/// A word with its bits in reverse order.
pub fn reversed(word: u64) -> u64
    ensures { (k : ℕ) → k < 64 → bit_at result k ≡ bit_at word (63 - k) }
{
    let ones = exchanged(word, 1, 0x5555_5555_5555_5555);
    let twos = exchanged(ones, 2, 0x3333_3333_3333_3333);
    let fours = exchanged(twos, 4, 0x0f0f_0f0f_0f0f_0f0f);
    let eights = exchanged(fours, 8, 0x00ff_00ff_00ff_00ff);
    let sixteens = exchanged(eights, 16, 0x0000_ffff_0000_ffff);
    exchanged(sixteens, 32, 0x0000_0000_ffff_ffff)
}

/// A word in which the two bits of each pair are exchanged, which are `shift` places apart; the mask has the lower one of each pair.
fn exchanged(word: u64, shift: u32, mask: u64) -> u64
    requires shift { shift < 64 }
    requires pairs { ArePairs shift mask }
    ensures { (k : ℕ) → k < 64 → bit_at result k ≡ bit_at word (partner shift k) }
{
    word >> shift & mask | (word & mask) << shift
}
