// The first half of a step, before wires are computed.
ghost use Rattle.std.specs.Prelude.{◌≡◌, ◌<◌, ◌≤◌, ◌+◌, ◌*◌, ◌^◌, ℕ, All, Bool, List, length, true, if◌then◌else◌};
ghost use Rattle.vlog_engine.specs.Circuits.{IsWatched};
ghost use Rattle.vlog_engine.specs.Flips.{AreApart, IsOver};
ghost use Rattle.vlog_engine.specs.Lanes.{AreLanes, lane_bits, list_of};
ghost use Rattle.vlog_engine.specs.Marks.{IsRead, IsTracked};
ghost use Rattle.vlog_engine.specs.Passing.{IsClocked};
ghost use Rattle.vlog_engine.specs.StepKinds.{pinned};
ghost use Rattle.vlog_engine.specs.Triggers.{step_by};
ghost use Rattle.vlog_semantics.specs.declared.gates.Gate.{Gate as gate_of};

use crate::changes::{Change, commit, write_lanes};
use crate::edges::Cause;
use crate::flips::note_flips;
use crate::storing::store_all;
use crate::trigger::Trigger;
use crate::value::Value;
use vlog_semantics::{Memory, Written};

/// Gives the input of an event its bit in active lanes. Other steps leave the inputs as they are.
#[tactic(auto, unfolding(crate::specs::StepKinds::pinned))]
fn pin<V: Value>(trigger: &Trigger<V>, cells: &mut [V], marks: &mut [u64])
    ensures cells { (lane : ℕ) (earlier now : List Bool) → lane < V.LANES → lane_bits V.at lane cells.new
        ≡ (if V.at trigger.now.active lane then pinned (step_by trigger.now.cause earlier now) (lane_bits V.at lane cells.old) else lane_bits V.at lane cells.old) }
    ensures tracked { (lane : ℕ) (gates : List gate_of) → IsRead gates trigger.now.readers.now → IsTracked gates (lane_bits V.at lane cells.old) marks.old
        → IsTracked gates (lane_bits V.at lane cells.new) marks.new }
{
    if let Cause::Event(event) = trigger.cause {
        let change = Change {
            cell: event.pin,
            lanes: trigger.active,
            value: V::every(event.bit),
        };
        write_lanes(trigger.readers, change, cells, marks);
    }
}

/// Runs a step in active lanes. What the clocked items assign is computed before any of it takes effect.
pub(crate) fn clock<V: Value>(
    trigger: &Trigger<V>,
    cells: &mut [V],
    marks: &mut [u64],
    words: &mut [Vec<u16>],
    next_words: &mut [u16],
    memories: &mut [Vec<Memory>],
    written: &mut [Option<Written>],
    changes: &mut [Change<V>],
)
    requires room { trigger.now.bits + 16 * length next_words.old + 2 ≤ length cells.old }
    requires words { AreLanes V.LANES (length next_words.old) words.old }
    requires memories { length memories.old ≡ V.LANES }
    requires written { length trigger.now.group.now.writes.items ≤ length written.old }
    requires changes { length trigger.now.group.now.flips.items ≤ length changes.old }
    requires over { All (IsOver (length cells.old)) trigger.now.group.now.flips.items }
    requires targets { All (λ flip. flip.target < trigger.now.bits) trigger.now.group.now.flips.items }
    requires places { trigger.now.group.now.first_place + length trigger.now.group.now.flips.items < 2 ^ 64 }
    requires apart { trigger.now.group.now.are_apart ≡ true → AreApart trigger.now.group.now.flips.items }
    ensures clocked { (lane : ℕ) (watched : List gate_of) → lane < V.LANES → IsWatched watched trigger.now.group.now → (V.at trigger.now.active lane ≡ true → IsTracked watched (lane_bits V.at lane cells.old) marks.old)
        → IsClocked (V.at trigger.now.active lane) trigger.now.bits (step_by trigger.now.cause (lane_bits V.at lane trigger.now.earlier.now) (lane_bits V.at lane cells.old)) trigger.now.group.now (list_of lane words.old) (list_of lane words.new)
        (list_of lane memories.old) (list_of lane memories.new) (lane_bits V.at lane cells.old) (lane_bits V.at lane cells.new) }
    ensures lanes { AreLanes V.LANES (length next_words.old) words.new }
    ensures tracked { (lane : ℕ) (watched : List gate_of) → lane < V.LANES → IsWatched watched trigger.now.group.now → IsRead watched trigger.now.readers.now
        → IsTracked watched (lane_bits V.at lane cells.old) marks.old → IsTracked watched (lane_bits V.at lane cells.new) marks.new }
{
    let count = note_flips(trigger, cells, marks, changes);
    store_all(trigger, cells, marks, words, next_words, memories, written);
    commit(trigger.readers, &changes[..count], cells, marks);
    pin(trigger, cells, marks);
}
