// Computes marked wires, in the order of the text.
ghost use Rattle.std.specs.Prelude.{◌≡◌, ◌<◌, ◌≤◌, ◌+◌, ℕ, List, false, length, map};
ghost use Rattle.vlog_engine.specs.Lanes.{lane_bits};
ghost use Rattle.vlog_engine.specs.Marks.{AreFirst, AreRising, IsRead, IsSwept, IsTracked, StaySources};
ghost use Rattle.vlog_semantics.specs.Cells.{cell_at, gate_value};
ghost use Rattle.vlog_semantics.specs.Values.{bit_of, number_of};
ghost use Rattle.vlog_semantics.specs.declared.gates.Gate.{Gate as gate_of};

use crate::marks::{leave_mark, next_marked, write};
use crate::reading::cell_at;
use crate::value::Value;
use vlog_semantics::Gate;

/// In each lane, the bit of a truth table at the index that four cells spell, the lowest bit first.
fn cells_value<V: Value>(cells: &[V], ins: &[usize; 4], table: u16) -> V
    ensures { (lane : ℕ) → lane < V.LANES → V.at result lane ≡ bit_of table (number_of (map (cell_at (lane_bits V.at lane cells.now)) ins.now)) }
{
    let (a, b) = (cell_at(cells, ins[0]), cell_at(cells, ins[1]));
    let (c, d) = (cell_at(cells, ins[2]), cell_at(cells, ins[3]));
    V::of_table(table, a, b, c, d)
}

/// The value of a wire.
fn gate_value<V: Value>(cells: &[V], gate: &Gate) -> V
    ensures { (lane : ℕ) → lane < V.LANES → V.at result lane ≡ gate_value (lane_bits V.at lane cells.now) gate.now }
{
    cells_value(cells, &gate.ins, gate.table)
}

/// Computes a wire in active lanes. It stays marked if it is out of date in another lane.
fn run_gate<V: Value>(
    gates: &[Gate],
    readers: &[Vec<usize>],
    place: usize,
    active: V,
    cells: &mut [V],
    marks: &mut [u64],
)
    requires { place < length gates.now }
    ensures swept { (lane first count : ℕ) (watched : List gate_of) → lane < V.LANES → AreRising first count gates.now → AreFirst gates.now watched → IsRead watched readers.now → count ≤ length cells.old
        → IsSwept (V.at active lane) gates.now watched place (lane_bits V.at lane cells.old) marks.old
        → IsSwept (V.at active lane) gates.now watched (place + 1) (lane_bits V.at lane cells.new) marks.new }
    ensures same { (lane first count : ℕ) → AreRising first count gates.now → StaySources first count (lane_bits V.at lane cells.old) (lane_bits V.at lane cells.new) }
    ensures idle { (lane : ℕ) → lane < V.LANES → V.at active lane ≡ false → lane_bits V.at lane cells.new ≡ lane_bits V.at lane cells.old }
{
    let gate = &gates[place];
    let value = gate_value(cells, gate);
    let kept = V::select(active, value, cell_at(cells, gate.slot));
    write(readers, gate.slot, kept, cells, marks);
    leave_mark(marks, place, kept.differs(value));
}

/// Computes the marked wires in active lanes, in the order of the text, which is a topological order. What is watched besides the wires keeps
/// its marks.
pub(crate) fn run_gates<V: Value>(
    gates: &[Gate],
    readers: &[Vec<usize>],
    active: V,
    cells: &mut [V],
    marks: &mut [u64],
)
    ensures swept { (lane first count : ℕ) (watched : List gate_of) → lane < V.LANES → AreRising first count gates.now → AreFirst gates.now watched → IsRead watched readers.now → count ≤ length cells.old
        → IsTracked watched (lane_bits V.at lane cells.old) marks.old
        → IsSwept (V.at active lane) gates.now watched (length gates.now) (lane_bits V.at lane cells.new) marks.new }
    ensures same { (lane first count : ℕ) → AreRising first count gates.now → StaySources first count (lane_bits V.at lane cells.old) (lane_bits V.at lane cells.new) }
    ensures idle { (lane : ℕ) → lane < V.LANES → V.at active lane ≡ false → lane_bits V.at lane cells.new ≡ lane_bits V.at lane cells.old }
{
    let end = gates.len();
    let mut place = next_marked(marks, 0, end);
    while place < end {
        run_gate(gates, readers, place, active, cells, marks);
        place = next_marked(marks, place + 1, end);
    }
}
