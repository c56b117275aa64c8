// Takes the events that lanes had from their lists, where the events have no lines.
ghost use Rattle.std.specs.Prelude.{◌≡◌, ◌<◌, ◌≤◌, ℕ, get_or, length, true};
ghost use Rattle.vlog_semantics.specs.Values.{bit_of};
ghost use Rattle.vlog_sweep.specs.Strands.{turned};
ghost use Rattle.vlog_sweep.specs.declared.strand.Strand.{Strand as strand_of};

use crate::lines::lane_bit;
use crate::strand::Strand;

/// Takes the next event of a list from it, if its lane had it.
fn take_event(strand: &mut Strand<'_>, active: u64, lane: u32)
    requires within { lane < 64 }
    requires left { bit_of active lane ≡ true → strand.old.taken < length strand.old.list.now.events.items }
    ensures { strand.new ≡ turned 0 active lane strand.old }
{
    if lane_bit(active, lane) {
        strand.taken += 1;
    }
}

/// Takes the next event of each list whose lane had it, and writes no line.
pub(crate) fn take_events(strands: &mut [Strand<'_>], active: u64)
    requires few { length strands.old ≤ 64 }
    requires left { (k : ℕ) (d : strand_of) → k < length strands.old → bit_of active k ≡ true
        → (get_or strands.old k d).taken < length (get_or strands.old k d).list.now.events.items }
    ensures { (k : ℕ) (d : strand_of) → k < length strands.old → get_or strands.new k d ≡ turned 0 active k (get_or strands.old k d) }
{
    for lane in 0..strands.len() {
        take_event(&mut strands[lane], active, lane as u32);
    }
}
