// Flip-flops over cells, and the changes that they make.
ghost use Rattle.std.specs.Prelude.{◌≡◌, ◌≢◌, ◌<◌, ◌≤◌, ◌+◌, ◌++◌, ◌∷◌, ◌^◌, ℕ, All, Bool, IfNone, IfSome, List, None, OnOk, [], false, fold, length, map, take, true, if◌then◌else◌};
ghost use Rattle.vlog_engine.specs.Changes.{change_slot, changed_by, step_in};
ghost use Rattle.vlog_engine.specs.Circuits.{IsWatched};
ghost use Rattle.vlog_engine.specs.Flips.{AreApart, AreAt, AreSameBelow, IsOver, flip_flop, flip_flops, flip_gate, inputs};
ghost use Rattle.vlog_engine.specs.Lanes.{lane_bits};
ghost use Rattle.vlog_engine.specs.Marks.{IsEven, IsTracked, is_marked};
ghost use Rattle.vlog_engine.specs.StepKinds.{slots_of};
ghost use Rattle.vlog_engine.specs.Triggers.{step_by};
ghost use Rattle.vlog_semantics.specs.Cells.{cell_at};
ghost use Rattle.vlog_semantics.specs.Steps.{flip_slot};
ghost use Rattle.vlog_semantics.specs.Values.{bit_of, number_of};
ghost use Rattle.vlog_semantics.specs.declared.gates.Gate.{Gate as gate_of};

use crate::changes::{Change, both, note};
use crate::edges::{Cause, edge_lanes};
use crate::marks::{clear_mark, next_marked};
use crate::reading::value_at;
use crate::trigger::Trigger;
use crate::value::Value;
use std::alloc::AllocError;
use vlog_semantics::Edge;

/// A flip-flop over cells: each operand is the index of a cell.
#[derive(Clone, Copy)]
pub(crate) struct Flip {
    pub(crate) edge: Edge,
    pub(crate) enable: usize,
    pub(crate) reset: usize,
    pub(crate) set: bool,
    pub(crate) target: usize,
    /// The truth table of the LUT.
    pub(crate) table: u16,
    /// The inputs of the LUT; this one has the lowest bit of the index.
    pub(crate) a: usize,
    pub(crate) b: usize,
    pub(crate) c: usize,
    pub(crate) d: usize,
}

/// Adds a flip-flop.
#[tactic(auto, using(crate::proofs::Flipped::flips_more))]
pub(crate) fn push_flip(flips: &mut Vec<Flip>, flip: Flip) -> Result<(), AllocError>
    ensures { OnOk result (flip_flops flips.new.items ≡ flip_flops flips.old.items ++ flip_flop flip ∷ []) }
{
    flips.push(flip)?;
    Ok(())
}

/// The next value of a flip-flop's register, if the flip-flop is enabled.
fn next_value<V: Value>(cells: &[V], flip: &Flip) -> V
    requires { IsOver (length cells.now) flip.now }
    ensures { (lane : ℕ) → lane < V.LANES → V.at result lane ≡ (if cell_at (lane_bits V.at lane cells.now) flip.now.reset then flip.now.set
        else bit_of flip.now.table (number_of (map (cell_at (lane_bits V.at lane cells.now)) (inputs flip.now)))) }
{
    let (a, b) = (value_at(cells, flip.a), value_at(cells, flip.b));
    let (c, d) = (value_at(cells, flip.c), value_at(cells, flip.d));
    let value = V::of_table(flip.table, a, b, c, d);
    V::select(value_at(cells, flip.reset), V::every(flip.set), value)
}

/// Whether a register keeps its value in all lanes and is `alone`: no other flip-flop of the step changes it.
fn is_kept<V: Value>(alone: bool, value: V, old: V) -> bool
    ensures alone { result ≡ true → alone ≡ true }
    ensures same { result ≡ true → value ≡ old }
{
    alone && !value.differs(old)
}

/// The change that a flip-flop makes in active lanes, in a step of that cause after an earlier moment. None if its register keeps its value
/// in all lanes and is `alone`: no other flip-flop of the step changes it.
fn flip_change<V: Value>(
    flip: &Flip,
    cause: Cause,
    active: V,
    earlier: &[V],
    cells: &[V],
    alone: bool,
) -> Option<Change<V>>
    requires { IsOver (length cells.now) flip.now }
    ensures change { (lane : ℕ) (next : List Bool) → lane < V.LANES → (alone ≡ true → cell_at next flip.now.target ≡ cell_at (lane_bits V.at lane cells.now) flip.now.target)
        → changed_by V.at lane next result ≡ step_in (V.at active lane) (flip_slot (slots_of (step_by cause (lane_bits V.at lane earlier.now) (lane_bits V.at lane cells.now))) (lane_bits V.at lane cells.now) []) next (flip_flop flip.now) }
    ensures kept { IfNone result ((lane : ℕ) → lane < V.LANES → IsEven (lane_bits V.at lane cells.now) (flip_gate flip.now)) }
    ensures cell { IfSome result (λ change. change.cell ≡ flip.now.target) }
{
    let enable = value_at(cells, flip.enable);
    let old = value_at(cells, flip.target);
    let value = V::select(enable, next_value(cells, flip), old);
    if is_kept(alone, value, old) {
        return None;
    }
    let edges = edge_lanes(cause, active, earlier, cells, flip.edge);
    Some(Change {
        cell: flip.target,
        lanes: both(edges, enable),
        value,
    })
}

/// Notes what flip-flops change in a step, from the first entry on, and returns how many changes these are.
fn note_all<V: Value>(
    flips: &[Flip],
    trigger: &Trigger<V>,
    cells: &[V],
    changes: &mut [Change<V>],
) -> usize
    requires room { length flips.now ≤ length changes.old }
    requires over { All (IsOver (length cells.now)) flips.now }
    ensures count { result ≤ length flips.now }
    ensures noted { (lane : ℕ) (next : List Bool) → lane < V.LANES → fold (change_slot V.at lane) next (take result changes.new)
        ≡ fold (step_in (V.at trigger.now.active lane) (flip_slot (slots_of (step_by trigger.now.cause (lane_bits V.at lane trigger.now.earlier.now) (lane_bits V.at lane cells.now))) (lane_bits V.at lane cells.now) [])) next (flip_flops flips.now) }
{
    // Copied out of the trigger, so that the loop asks for the cause once and not at each flip-flop.
    let (cause, active, earlier) = (trigger.cause, trigger.active, trigger.earlier);
    let mut count = 0;
    for flip in flips {
        let made = flip_change(flip, cause, active, earlier, cells, false);
        count = note(changes, count, made);
    }
    count
}

/// Clears the mark of a flip-flop that makes no change.
fn clear_kept<V: Value>(marks: &mut [u64], place: usize, change: Option<Change<V>>)
    ensures kept { IfSome change (λ made. is_marked marks.new place ≡ is_marked marks.old place) }
    ensures others { (other : ℕ) → other ≢ place → is_marked marks.new other ≡ is_marked marks.old other }
{
    if change.is_none() {
        clear_mark(marks, place);
    }
}

/// Notes what the marked flip-flops of a step change, from the first entry on, and returns how many changes these are. The flip-flops are
/// watched from `first` on, and no two have the same register. Those that aren't marked change nothing. A flip-flop that would keep its
/// register in all lanes loses its mark.
fn note_marked<V: Value>(
    first: usize,
    flips: &[Flip],
    trigger: &Trigger<V>,
    cells: &[V],
    marks: &mut [u64],
    changes: &mut [Change<V>],
) -> usize
    requires places { first + length flips.now < 2 ^ 64 }
    requires room { length flips.now ≤ length changes.old }
    requires over { All (IsOver (length cells.now)) flips.now }
    requires targets { All (λ flip. flip.target < trigger.now.bits) flips.now }
    requires apart { AreApart flips.now }
    ensures count { result ≤ length flips.now }
    ensures noted { (lane : ℕ) (watched : List gate_of) (next : List Bool) → lane < V.LANES → AreAt first flips.now watched
        → (V.at trigger.now.active lane ≡ true → IsTracked watched (lane_bits V.at lane cells.now) marks.old) → AreSameBelow trigger.now.bits next (lane_bits V.at lane cells.now)
        → fold (change_slot V.at lane) next (take result changes.new)
        ≡ fold (step_in (V.at trigger.now.active lane) (flip_slot (slots_of (step_by trigger.now.cause (lane_bits V.at lane trigger.now.earlier.now) (lane_bits V.at lane cells.now))) (lane_bits V.at lane cells.now) [])) next (flip_flops flips.now) }
    ensures tracked { (lane : ℕ) (watched : List gate_of) → lane < V.LANES → AreAt first flips.now watched → IsTracked watched (lane_bits V.at lane cells.now) marks.old
        → IsTracked watched (lane_bits V.at lane cells.now) marks.new }
{
    let (cause, active, earlier) = (trigger.cause, trigger.active, trigger.earlier);
    let end = first + flips.len();
    let mut count = 0;
    let mut place = next_marked(marks, first, end);
    while place < end {
        let flip = &flips[place - first];
        let made = flip_change(flip, cause, active, earlier, cells, true);
        clear_kept(marks, place, made);
        count = note(changes, count, made);
        place = next_marked(marks, place + 1, end);
    }
    count
}

/// Notes what the flip-flops of a step change, from the first entry on, and returns how many changes these are.
pub(crate) fn note_flips<V: Value>(
    trigger: &Trigger<V>,
    cells: &[V],
    marks: &mut [u64],
    changes: &mut [Change<V>],
) -> usize
    requires places { trigger.now.group.now.first_place + length trigger.now.group.now.flips.items < 2 ^ 64 }
    requires room { length trigger.now.group.now.flips.items ≤ length changes.old }
    requires over { All (IsOver (length cells.now)) trigger.now.group.now.flips.items }
    requires targets { All (λ flip. flip.target < trigger.now.bits) trigger.now.group.now.flips.items }
    requires apart { trigger.now.group.now.are_apart ≡ true → AreApart trigger.now.group.now.flips.items }
    ensures count { result ≤ length trigger.now.group.now.flips.items }
    ensures noted { (lane : ℕ) (watched : List gate_of) (next : List Bool) → lane < V.LANES → IsWatched watched trigger.now.group.now
        → (V.at trigger.now.active lane ≡ true → IsTracked watched (lane_bits V.at lane cells.now) marks.old) → AreSameBelow trigger.now.bits next (lane_bits V.at lane cells.now)
        → fold (change_slot V.at lane) next (take result changes.new)
        ≡ fold (step_in (V.at trigger.now.active lane) (flip_slot (slots_of (step_by trigger.now.cause (lane_bits V.at lane trigger.now.earlier.now) (lane_bits V.at lane cells.now))) (lane_bits V.at lane cells.now) [])) next (flip_flops trigger.now.group.now.flips.items) }
    ensures tracked { (lane : ℕ) (watched : List gate_of) → lane < V.LANES → IsWatched watched trigger.now.group.now → IsTracked watched (lane_bits V.at lane cells.now) marks.old
        → IsTracked watched (lane_bits V.at lane cells.now) marks.new }
{
    let group = trigger.group;
    if group.are_apart {
        let first = group.first_place;
        note_marked(first, &group.flips, trigger, cells, marks, changes)
    } else {
        note_all(&group.flips, trigger, cells, changes)
    }
}
