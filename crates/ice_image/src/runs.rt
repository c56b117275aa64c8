// Runs: bits that lie side by side in one row of a plane.
ghost use Rattle.std.specs.Prelude.{◌≡◌, ℕ, ◌-◌, ◌<◌, ◌≤◌, ◌^◌, if◌then◌else◌};
ghost use Rattle.bit_plane.specs.BitList.{word_of};
ghost use Rattle.bit_plane.specs.Rows.{row_from};
ghost use Rattle.plane_map.specs.Runs.{IsRunIn, run_place};
ghost use Rattle.ice_image.specs.Bits.{number_bit};
ghost use Rattle.ice_image.specs.Configuration.{place_bit, AreBanks};
ghost use Rattle.ice_image.specs.Written.{IsWritten, bit_of_word, gained_bit};

use crate::banks::Banks;
use bit_plane::{Bits, reversed};
use plane_map::Run;

/// The bits of a run as a word. Bit k of the run is the bit of value 2^k.
pub(crate) fn run_word<P: Bits>(planes: &Banks<P>, run: Run, count: usize) -> u64
    requires { IsRunIn P.WIDTH P.HEIGHT count run }
    ensures { result ≡ word_of (row_from count (λ k. place_bit planes.now (run_place run count k))) }
{
    let bits = planes.row_bits(run.bank as usize, run.px as usize, run.py as usize, count);
    turned(run.backwards, bits, count)
}

/// Sets the bits of a run to the bits of a word. Bit k of the run gets the bit of value 2^k.
pub(crate) fn write_run<P: Bits>(planes: &mut Banks<P>, run: Run, count: usize, word: u64)
    requires { IsRunIn P.WIDTH P.HEIGHT count run }
    ensures written { IsWritten (run_place run count) (bit_of_word count word) count planes.old planes.new }
    ensures whole { AreBanks P.WIDTH P.HEIGHT planes.new }
{
    planes.set_row_bits(
        run.bank as usize,
        run.px as usize,
        run.py as usize,
        count,
        turned(run.backwards, word, count),
    );
}

/// Sets the bits of a run at which `ones` has a 1. Bit k of the run is the bit of value 2^k.
pub(crate) fn set_run_ones<P: Bits>(planes: &mut Banks<P>, run: Run, count: usize, ones: u64)
    requires { IsRunIn P.WIDTH P.HEIGHT count run }
    ensures written { IsWritten (run_place run count) (gained_bit (run_place run count) planes.old ones) count planes.old planes.new }
    ensures whole { AreBanks P.WIDTH P.HEIGHT planes.new }
{
    planes.gain_row_bits(
        run.bank as usize,
        run.px as usize,
        run.py as usize,
        count,
        turned(run.backwards, ones, count),
    );
}

/// The low `count` bits of a word, in reverse order if `backwards`.
fn turned(backwards: bool, word: u64, count: usize) -> u64
    requires some { 0 < count }
    requires few { count ≤ 64 }
    ensures bits { (k : ℕ) → k < count → number_bit result k ≡ number_bit word (if backwards then count - 1 - k else k) }
    ensures small { word < 2 ^ count → result < 2 ^ count }
{
    if backwards {
        reversed(word) >> (64 - count)
    } else {
        word
    }
}
