// Registers of 16 bits and memories in a step, lane by lane.
ghost use Rattle.std.specs.Prelude.{◌≡◌, ◌≢◌, ◌<◌, ◌≤◌, ◌+◌, ◌*◌, ℕ, List, false, get_or, length, true};
ghost use Rattle.vlog_engine.specs.Lanes.{AreLanes, lane_bits, list_of};
ghost use Rattle.vlog_engine.specs.Marks.{IsRead, IsTracked};
ghost use Rattle.vlog_engine.specs.Passing.{IsStored};
ghost use Rattle.vlog_engine.specs.Triggers.{step_by};
ghost use Rattle.vlog_semantics.specs.declared.gates.Gate.{Gate as gate_of};

use crate::memories::run_memories;
use crate::parts::write_words;
use crate::trigger::Trigger;
use crate::value::Value;
use vlog_semantics::{Memory, Written, copy_words};

/// Runs the reads and writes of a step in a lane: registers of 16 bits, their cells, and memories.
fn store<V: Value>(
    trigger: &Trigger<V>,
    lane: u32,
    cells: &mut [V],
    marks: &mut [u64],
    words: &mut [u16],
    next_words: &mut [u16],
    memories: &mut [Memory],
    written: &mut [Option<Written>],
)
    requires within { lane < V.LANES }
    requires active { V.at trigger.now.active lane ≡ true }
    requires room { trigger.now.bits + 16 * length words.old + 2 ≤ length cells.old }
    requires words { length next_words.old ≡ length words.old }
    requires written { length trigger.now.group.now.writes.items ≤ length written.old }
    ensures stored { IsStored true trigger.now.bits (step_by trigger.now.cause (lane_bits V.at lane trigger.now.earlier.now) (lane_bits V.at lane cells.old)) trigger.now.group.now words.old words.new memories.old memories.new (lane_bits V.at lane cells.old) (lane_bits V.at lane cells.new) }
    ensures sixteen_bits { (place : ℕ) → get_or words.new place 0 < 65536 }
    ensures others { (other : ℕ) → other < V.LANES → other ≢ lane → lane_bits V.at other cells.new ≡ lane_bits V.at other cells.old }
    ensures tracked { (other : ℕ) (gates : List gate_of) → IsRead gates trigger.now.readers.now → IsTracked gates (lane_bits V.at other cells.old) marks.old
        → IsTracked gates (lane_bits V.at other cells.new) marks.new }
{
    run_memories(trigger, cells, lane, words, next_words, memories, written);
    let (readers, bits) = (trigger.readers, trigger.bits);
    write_words(readers, bits, words, next_words, lane, cells, marks);
    copy_words(next_words, words);
}

/// Runs the reads and writes of a step in a lane, if it is active.
fn store_lane<V: Value>(
    trigger: &Trigger<V>,
    lane: u32,
    cells: &mut [V],
    marks: &mut [u64],
    words: &mut [Vec<u16>],
    next_words: &mut [u16],
    memories: &mut [Vec<Memory>],
    written: &mut [Option<Written>],
)
    requires within { lane < V.LANES }
    requires room { trigger.now.bits + 16 * length next_words.old + 2 ≤ length cells.old }
    requires words { AreLanes V.LANES (length next_words.old) words.old }
    requires memories { length memories.old ≡ V.LANES }
    requires written { length trigger.now.group.now.writes.items ≤ length written.old }
    ensures stored { IsStored (V.at trigger.now.active lane) trigger.now.bits (step_by trigger.now.cause (lane_bits V.at lane trigger.now.earlier.now) (lane_bits V.at lane cells.old)) trigger.now.group.now (list_of lane words.old) (list_of lane words.new) (list_of lane memories.old) (list_of lane memories.new)
        (lane_bits V.at lane cells.old) (lane_bits V.at lane cells.new) }
    ensures other_words { (other : ℕ) → other ≢ lane → list_of other words.new ≡ list_of other words.old }
    ensures other_memories { (other : ℕ) → other ≢ lane → list_of other memories.new ≡ list_of other memories.old }
    ensures other_cells { (other : ℕ) → other < V.LANES → other ≢ lane → lane_bits V.at other cells.new ≡ lane_bits V.at other cells.old }
    ensures lanes { AreLanes V.LANES (length next_words.old) words.new }
    ensures tracked { (other : ℕ) (gates : List gate_of) → IsRead gates trigger.now.readers.now → IsTracked gates (lane_bits V.at other cells.old) marks.old
        → IsTracked gates (lane_bits V.at other cells.new) marks.new }
{
    if trigger.active.bit(lane) {
        let place = lane as usize;
        store(
            trigger,
            lane,
            cells,
            marks,
            &mut words[place],
            next_words,
            &mut memories[place],
            written,
        );
    }
}

/// Runs the reads and writes of a step in each active lane.
fn store_lanes<V: Value>(
    trigger: &Trigger<V>,
    cells: &mut [V],
    marks: &mut [u64],
    words: &mut [Vec<u16>],
    next_words: &mut [u16],
    memories: &mut [Vec<Memory>],
    written: &mut [Option<Written>],
)
    requires room { trigger.now.bits + 16 * length next_words.old + 2 ≤ length cells.old }
    requires words { AreLanes V.LANES (length next_words.old) words.old }
    requires memories { length memories.old ≡ V.LANES }
    requires written { length trigger.now.group.now.writes.items ≤ length written.old }
    ensures stored { (lane : ℕ) → lane < V.LANES → IsStored (V.at trigger.now.active lane) trigger.now.bits (step_by trigger.now.cause (lane_bits V.at lane trigger.now.earlier.now) (lane_bits V.at lane cells.old)) trigger.now.group.now (list_of lane words.old) (list_of lane words.new)
        (list_of lane memories.old) (list_of lane memories.new) (lane_bits V.at lane cells.old) (lane_bits V.at lane cells.new) }
    ensures lanes { AreLanes V.LANES (length next_words.old) words.new }
    ensures tracked { (lane : ℕ) (gates : List gate_of) → IsRead gates trigger.now.readers.now → IsTracked gates (lane_bits V.at lane cells.old) marks.old
        → IsTracked gates (lane_bits V.at lane cells.new) marks.new }
{
    for lane in 0..V::LANES {
        store_lane(
            trigger, lane, cells, marks, words, next_words, memories, written,
        );
    }
}

/// Runs the reads and writes of a step in each active lane, if the step has any.
pub(crate) fn store_all<V: Value>(
    trigger: &Trigger<V>,
    cells: &mut [V],
    marks: &mut [u64],
    words: &mut [Vec<u16>],
    next_words: &mut [u16],
    memories: &mut [Vec<Memory>],
    written: &mut [Option<Written>],
)
    requires room { trigger.now.bits + 16 * length next_words.old + 2 ≤ length cells.old }
    requires words { AreLanes V.LANES (length next_words.old) words.old }
    requires memories { length memories.old ≡ V.LANES }
    requires written { length trigger.now.group.now.writes.items ≤ length written.old }
    ensures stored { (lane : ℕ) → lane < V.LANES → IsStored (V.at trigger.now.active lane) trigger.now.bits (step_by trigger.now.cause (lane_bits V.at lane trigger.now.earlier.now) (lane_bits V.at lane cells.old)) trigger.now.group.now (list_of lane words.old) (list_of lane words.new)
        (list_of lane memories.old) (list_of lane memories.new) (lane_bits V.at lane cells.old) (lane_bits V.at lane cells.new) }
    ensures lanes { AreLanes V.LANES (length next_words.old) words.new }
    ensures tracked { (lane : ℕ) (gates : List gate_of) → IsRead gates trigger.now.readers.now → IsTracked gates (lane_bits V.at lane cells.old) marks.old
        → IsTracked gates (lane_bits V.at lane cells.new) marks.new }
{
    if trigger.group.has_ports() {
        store_lanes(trigger, cells, marks, words, next_words, memories, written);
    }
}
