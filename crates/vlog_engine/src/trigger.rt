// A step, and what it runs.
ghost use Rattle.std.specs.Prelude.{◌≡◌, ◌<◌, ℕ, false, if◌then◌else◌};
ghost use Rattle.vlog_engine.specs.StepKinds.{slots_of};
ghost use Rattle.vlog_engine.specs.Lanes.{lane_bits};
ghost use Rattle.vlog_engine.specs.Triggers.{step_by};
ghost use Rattle.vlog_semantics.specs.Steps.{is_at};

use crate::edges::{Cause, edge_lanes};
use crate::groups::Group;
use crate::value::Value;
use vlog_semantics::Edge;

/// A step in active lanes, and what it runs.
#[derive(Drop)]
pub(crate) struct Trigger<'a, V: Value> {
    pub(crate) cause: Cause,
    pub(crate) active: V,
    /// The cells at the moment from which on registers have changed.
    pub(crate) earlier: &'a [V],
    pub(crate) group: &'a Group,
    /// The fan-out of each cell.
    pub(crate) readers: &'a [Vec<usize>],
    /// How many names of one bit there are.
    pub(crate) bits: usize,
}

impl<'a, V: Value> Trigger<'a, V> {
    /// The active lanes in which an item with this edge has it.
    pub(crate) fn lanes(&self, cells: &[V], edge: Edge) -> V
        ensures { (lane : ℕ) → lane < V.LANES → V.at result lane
            ≡ (if V.at self.now.active lane then is_at (slots_of (step_by self.now.cause (lane_bits V.at lane self.now.earlier.now) (lane_bits V.at lane cells.now))) edge else false) }
    {
        edge_lanes(self.cause, self.active, self.earlier, cells, edge)
    }
}
