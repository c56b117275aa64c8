// The second half of an event: the wires, then the asynchronous sets and resets of registers.
ghost use Rattle.std.specs.Prelude.{◌≡◌, ◌<◌, ◌≤◌, ℕ, List, false, length};
ghost use Rattle.vlog_engine.specs.Lanes.{lane_bits};
ghost use Rattle.vlog_engine.specs.Marks.{AreFirst, AreRising, IsRead, IsTracked};
ghost use Rattle.vlog_engine.specs.Passing.{IsSettled};
ghost use Rattle.vlog_semantics.specs.declared.gates.Gate.{Gate as gate_of};

use crate::changes::{Change, commit, note_settles};
use crate::circuit::Circuit;
use crate::sweep::run_gates;
use crate::value::Value;

/// Computes the marked wires in active lanes, and then the asynchronous sets and resets of registers. These mark their fan-out for the next
/// event.
pub(crate) fn settle<V: Value>(
    circuit: &Circuit,
    active: V,
    cells: &mut [V],
    marks: &mut [u64],
    changes: &mut [Change<V>],
)
    requires { length circuit.now.settles.items ≤ length changes.old }
    ensures idle { (lane : ℕ) → lane < V.LANES → V.at active lane ≡ false → lane_bits V.at lane cells.new ≡ lane_bits V.at lane cells.old }
    ensures settled { (lane first count : ℕ) (watched : List gate_of) → lane < V.LANES → AreRising first count circuit.now.gates.items → AreFirst circuit.now.gates.items watched → IsRead watched circuit.now.readers.items
        → count ≤ length cells.old → IsTracked watched (lane_bits V.at lane cells.old) marks.old
        → IsSettled (V.at active lane) first count circuit.now.gates.items watched circuit.now.settles.items (lane_bits V.at lane cells.old) (lane_bits V.at lane cells.new) marks.new }
{
    run_gates(&circuit.gates, &circuit.readers, active, cells, marks);
    let count = note_settles(&circuit.settles, active, cells, changes);
    commit(&circuit.readers, &changes[..count], cells, marks);
}
