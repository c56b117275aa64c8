// Writes the lines of the lanes that had an event.
ghost use Rattle.std.specs.Prelude.{◌≡◌, ◌<◌, ◌≤◌, ◌+◌, ℕ, List, false, get_or, length, true, if◌then◌else◌};
ghost use Rattle.vlog_run.specs.Text.{entry_line};
ghost use Rattle.vlog_module.specs.Parts.{Parts};
ghost use Rattle.vlog_semantics.specs.Values.{bit_of};
ghost use Rattle.vlog_sweep.specs.Strands.{Stands, line_of, line_put, next_entry, turned};
ghost use Rattle.vlog_sweep.specs.declared.strand.Strand.{Strand as strand_of};

use crate::lines::{lane_bit, write_line};
use crate::strand::Strand;

/// Writes the line of a lane, if it had an event.
fn take_turn(text: &mut [u8], strand: &mut Strand<'_>, active: u64, outputs: &[u64], lane: u32)
    requires within { lane < 64 }
    requires left { bit_of active lane ≡ true → strand.old.taken < length strand.old.list.now.events.items }
    requires room { bit_of active lane ≡ true → strand.old.at + (length outputs.now + 1) ≤ length text.old }
    ensures strand { strand.new ≡ turned (length outputs.now + 1) active lane strand.old }
    ensures text { text.new ≡ (if bit_of active lane then line_put text.old strand.old.at (line_of outputs.now lane) else text.old) }
{
    if lane_bit(active, lane) {
        write_line(text, strand.at, outputs, lane);
        strand.taken += 1;
        strand.at += outputs.len() + 1;
    }
}

/// Writes the line of each lane that had an event.
pub(crate) fn take_turns(text: &mut [u8], strands: &mut [Strand<'_>], active: u64, outputs: &[u64])
    requires few { length strands.old ≤ 64 }
    requires left { (k : ℕ) (d : strand_of) → k < length strands.old → bit_of active k ≡ true
        → (get_or strands.old k d).taken < length (get_or strands.old k d).list.now.events.items }
    requires room { (k : ℕ) (d : strand_of) → k < length strands.old → bit_of active k ≡ true
        → (get_or strands.old k d).at + (length outputs.now + 1) ≤ length text.old }
    ensures strands { (k : ℕ) (d : strand_of) → k < length strands.old
        → get_or strands.new k d ≡ turned (length outputs.now + 1) active k (get_or strands.old k d) }
    ensures text { (m : Parts) (line : List ℕ) → length line ≡ length outputs.now + 1 → Stands m line strands.old text.old
        → ((k : ℕ) (d : strand_of) → k < length strands.old → bit_of active k ≡ true → line_of outputs.now k ≡ entry_line false (next_entry m (get_or strands.old k d)))
        → Stands m line strands.new text.new }
{
    for lane in 0..strands.len() {
        take_turn(text, &mut strands[lane], active, outputs, lane as u32);
    }
}
