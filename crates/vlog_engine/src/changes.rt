// Changes of cells, all of which are computed before any of them takes effect.
ghost use Rattle.std.specs.Prelude.{◌≡◌, ◌<◌, ◌≤◌, ◌+◌, ℕ, Bool, List, false, fold, length, not, take, true, if◌then◌else◌};
ghost use Rattle.vlog_engine.specs.Changes.{change_slot, changed_by, step_in};
ghost use Rattle.vlog_engine.specs.Lanes.{lane_bits};
ghost use Rattle.vlog_engine.specs.Marks.{IsRead, IsTracked};
ghost use Rattle.vlog_semantics.specs.Run.{is_same_bit};
ghost use Rattle.vlog_semantics.specs.Steps.{settle_slot};
ghost use Rattle.vlog_semantics.specs.declared.gates.Gate.{Gate as gate_of};

use crate::marks::write;
use crate::reading::cell_at;
use crate::value::Value;
use vlog_semantics::Settle;

/// A value for a cell, in some lanes.
#[derive(Clone, Copy)]
pub(crate) struct Change<V> {
    pub(crate) cell: usize,
    pub(crate) lanes: V,
    pub(crate) value: V,
}

/// Whether a value is 0 in every lane.
pub(crate) fn is_none<V: Value>(value: V) -> bool
    ensures { result ≡ true → (lane : ℕ) → lane < V.LANES → V.at value lane ≡ false }
{
    !value.differs(V::every(false))
}

/// In each lane, whether both values have a 1 there.
pub(crate) fn both<V: Value>(one: V, other: V) -> V
    ensures { (lane : ℕ) → lane < V.LANES → V.at result lane ≡ (if V.at one lane then V.at other lane else false) }
{
    V::select(one, other, V::every(false))
}

/// The active lanes in which an event changes its input.
pub(crate) fn changed_lanes<V: Value>(active: V, bits: V, old: V) -> V
    ensures { (lane : ℕ) → lane < V.LANES → V.at result lane ≡ (if V.at active lane then not (is_same_bit (V.at bits lane) (V.at old lane)) else false) }
{
    let other = V::select(old, V::every(false), V::every(true));
    both(active, V::select(bits, other, old))
}

/// Notes a change, if there is one, after the first `count` changes, and returns how many are noted then.
pub(crate) fn note<V: Value>(
    changes: &mut [Change<V>],
    count: usize,
    change: Option<Change<V>>,
) -> usize
    requires { count < length changes.old }
    ensures count { result ≤ count + 1 }
    ensures noted { (lane : ℕ) (next : List Bool) → fold (change_slot V.at lane) next (take result changes.new)
        ≡ changed_by V.at lane (fold (change_slot V.at lane) next (take count changes.old)) change }
{
    match change {
        Some(change) => {
            changes[count] = change;
            count + 1
        }
        None => count,
    }
}

/// The change that an asynchronous set or reset makes in active lanes, if it makes one.
fn settle_change<V: Value>(settle: &Settle, active: V, cells: &[V]) -> Option<Change<V>>
    ensures { (lane : ℕ) (next : List Bool) → lane < V.LANES
        → changed_by V.at lane next result ≡ step_in (V.at active lane) (settle_slot (lane_bits V.at lane cells.now)) next settle.now }
{
    let lanes = both(active, cell_at(cells, settle.wire));
    if is_none(lanes) {
        return None;
    }
    Some(Change {
        cell: settle.target,
        lanes,
        value: V::every(settle.set),
    })
}

/// Notes what asynchronous sets and resets change in active lanes, from the first entry on, and returns how many changes these are.
pub(crate) fn note_settles<V: Value>(
    settles: &[Settle],
    active: V,
    cells: &[V],
    changes: &mut [Change<V>],
) -> usize
    requires { length settles.now ≤ length changes.old }
    ensures count { result ≤ length settles.now }
    ensures noted { (lane : ℕ) (next : List Bool) → lane < V.LANES
        → fold (change_slot V.at lane) next (take result changes.new) ≡ fold (step_in (V.at active lane) (settle_slot (lane_bits V.at lane cells.now))) next settles.now }
{
    let mut count = 0;
    for settle in settles {
        count = note(changes, count, settle_change(settle, active, cells));
    }
    count
}

/// Gives a cell a value in some lanes, and marks the cell's fan-out if it changes.
pub(crate) fn write_lanes<V: Value>(
    readers: &[Vec<usize>],
    change: Change<V>,
    cells: &mut [V],
    marks: &mut [u64],
)
    ensures cells { (lane : ℕ) → lane < V.LANES → lane_bits V.at lane cells.new ≡ change_slot V.at lane (lane_bits V.at lane cells.old) change }
    ensures tracked { (lane : ℕ) (gates : List gate_of) → IsRead gates readers.now → IsTracked gates (lane_bits V.at lane cells.old) marks.old
        → IsTracked gates (lane_bits V.at lane cells.new) marks.new }
{
    let value = V::select(change.lanes, change.value, cell_at(cells, change.cell));
    write(readers, change.cell, value, cells, marks);
}

/// Makes the changes that are noted.
pub(crate) fn commit<V: Value>(
    readers: &[Vec<usize>],
    changes: &[Change<V>],
    cells: &mut [V],
    marks: &mut [u64],
)
    ensures cells { (lane : ℕ) → lane < V.LANES → lane_bits V.at lane cells.new ≡ fold (change_slot V.at lane) (lane_bits V.at lane cells.old) changes.now }
    ensures tracked { (lane : ℕ) (gates : List gate_of) → IsRead gates readers.now → IsTracked gates (lane_bits V.at lane cells.old) marks.old
        → IsTracked gates (lane_bits V.at lane cells.new) marks.new }
{
    for change in changes {
        write_lanes(readers, *change, cells, marks);
    }
}
