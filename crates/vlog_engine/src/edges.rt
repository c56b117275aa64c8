// Which clocked items have their edge in a step.
ghost use Rattle.std.specs.Prelude.{◌≡◌, ◌<◌, ◌||◌, ℕ, false, if◌then◌else◌};
ghost use Rattle.std.specs.List.{list_any};
ghost use Rattle.vlog_engine.specs.StepKinds.{slots_of};
ghost use Rattle.vlog_engine.specs.Lanes.{lane_bits};
ghost use Rattle.vlog_engine.specs.Triggers.{step_by};
ghost use Rattle.vlog_semantics.specs.Run.{has_edge};
ghost use Rattle.vlog_semantics.specs.Steps.{is_at, slots_between, slots_by};

use crate::changes::both;
use crate::reading::cell_at;
use crate::value::Value;
use vlog_semantics::{Edge, Event, is_edge_of};

/// What makes edges.
#[derive(Clone, Copy)]
pub(crate) enum Cause {
    /// An event that changes its input.
    Event(Event),
    /// Registers that have changed, from cell `first` up to cell `end`.
    Registers { first: usize, end: usize },
}

/// In each lane, whether a bit has an edge between two moments.
fn edge_between<V: Value>(falling: bool, before: V, after: V) -> V
    ensures { (lane : ℕ) → lane < V.LANES → V.at result lane ≡ has_edge falling (V.at before lane) (V.at after lane) }
{
    let none = V::every(false);
    if falling {
        V::select(after, none, before)
    } else {
        V::select(before, none, after)
    }
}

/// The active lanes in which an event is the edge of an item.
fn event_lanes<V: Value>(event: Event, active: V, edge: Edge) -> V
    ensures { (lane : ℕ) → lane < V.LANES → V.at result lane ≡ (if V.at active lane then is_at (slots_by event) edge else false) }
{
    if is_edge_of(event, edge) {
        active
    } else {
        V::every(false)
    }
}

/// The active lanes in which an item has its edge by a register from cell `first` up to cell `end`.
fn register_lanes<V: Value>(
    first: usize,
    end: usize,
    active: V,
    earlier: &[V],
    cells: &[V],
    edge: Edge,
) -> V
    ensures { (lane : ℕ) → lane < V.LANES → V.at result lane
        ≡ (if V.at active lane then is_at (slots_between first end (lane_bits V.at lane earlier.now) (lane_bits V.at lane cells.now)) edge else false) }
{
    if edge.clock < first || edge.clock >= end {
        return V::every(false);
    }
    let (before, after) = (cell_at(earlier, edge.clock), cell_at(cells, edge.clock));
    both(active, edge_between(edge.falling, before, after))
}

/// The active lanes in which an item with this edge has it: by an event, or by registers that have changed since an earlier moment.
#[tactic(auto, unfolding(crate::specs::StepKinds::slots_of))]
pub(crate) fn edge_lanes<V: Value>(
    cause: Cause,
    active: V,
    earlier: &[V],
    cells: &[V],
    edge: Edge,
) -> V
    ensures { (lane : ℕ) → lane < V.LANES → V.at result lane
        ≡ (if V.at active lane then is_at (slots_of (step_by cause (lane_bits V.at lane earlier.now) (lane_bits V.at lane cells.now))) edge else false) }
{
    match cause {
        Cause::Event(event) => event_lanes(event, active, edge),
        Cause::Registers { first, end } => {
            register_lanes(first, end, active, earlier, cells, edge)
        }
    }
}

/// In each lane, whether one of two values has a 1 there.
fn either<V: Value>(one: V, other: V) -> V
    ensures { (lane : ℕ) → lane < V.LANES → V.at result lane ≡ (V.at one lane || V.at other lane) }
{
    V::select(one, one, other)
}

/// The active lanes in which one of these edges is had by registers that have changed, from cell `first` up to cell `end`.
pub(crate) fn wave_lanes<V: Value>(
    edges: &[Edge],
    first: usize,
    end: usize,
    active: V,
    earlier: &[V],
    cells: &[V],
) -> V
    ensures { (lane : ℕ) → lane < V.LANES → V.at result lane
        ≡ (if V.at active lane then list_any (is_at (slots_between first end (lane_bits V.at lane earlier.now) (lane_bits V.at lane cells.now))) edges.now else false) }
{
    let mut lanes = V::every(false);
    for edge in edges {
        lanes = either(
            lanes,
            register_lanes(first, end, active, earlier, cells, *edge),
        );
    }
    lanes
}
