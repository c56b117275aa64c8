// The cells at the start, which are the same in all lanes, and room for what an event changes.
ghost use Rattle.std.specs.Prelude.{◌≡◌, ◌<◌, ◌≤◌, ◌+◌, ◌*◌, ℕ, IfOk, false, get_or, length, map, replicate, true};
ghost use Rattle.vlog_engine.specs.Lanes.{lane_bits};
ghost use Rattle.vlog_engine.specs.Marks.{AreRising, IsRead, is_marked};
ghost use Rattle.vlog_engine.specs.Passing.{IsSettled};
ghost use Rattle.vlog_semantics.specs.Cells.{cells_of};

use crate::changes::Change;
use crate::circuit::{Circuit, circuit_of};
use crate::marks::marks_of;
use crate::outputs::first_outputs;
use crate::parts::fill_cells;
use crate::reading::set_cell;
use crate::settling::settle;
use crate::value::Value;
use std::alloc::{AllocError, Global};
use vlog_semantics::{Memory, SlotLayout, Written};

/// A circuit after the start, and what an event needs of it.
#[derive(Drop)]
pub(crate) struct Wires<V: Value> {
    pub(crate) circuit: Circuit,
    pub(crate) cells: Vec<V>,
    pub(crate) marks: Vec<u64>,
    pub(crate) changes: Vec<Change<V>>,
}

/// The state of all lanes at the start, and room for what writes write to the memories of a lane.
#[derive(Drop)]
pub(crate) struct Started<V: Value> {
    pub(crate) wires: Wires<V>,
    pub(crate) outputs: Vec<V>,
    pub(crate) words: Vec<Vec<u16>>,
    pub(crate) memories: Vec<Vec<Memory>>,
    pub(crate) written: Vec<Option<Written>>,
}

ghost use Rattle.vlog_engine.specs.Circuits.{watched};
ghost use Rattle.vlog_engine.specs.Starting.{AreStarted, IsStarted};

/// A copy of a list for each lane.
pub(crate) fn copies<T: Copy + Drop>(
    alloc: Global,
    list: &[T],
    lanes: u32,
) -> Result<Vec<Vec<T>>, AllocError>
    ensures { IfOk result (λ lists. map (λ each. each.items) lists.items ≡ replicate lanes list.now) }
{
    let mut lists = Vec::with_capacity(alloc, lanes as usize)?;
    for _ in 0..lanes {
        lists.push(Vec::from_slice(alloc, list)?)?;
    }
    Ok(lists)
}

/// Sets values to bits, the same in all lanes.
fn fill<V: Value>(bits: &[bool], values: &mut [V])
    requires { length values.old ≡ length bits.now }
    ensures { (lane : ℕ) → lane < V.LANES → lane_bits V.at lane values.new ≡ bits.now }
{
    for place in 0..bits.len() {
        set_cell(values, place, V::every(bits[place]));
    }
}

/// Values with these bits in each lane.
pub(crate) fn spread<V: Value>(alloc: Global, bits: &[bool]) -> Result<Vec<V>, AllocError>
    ensures lanes { IfOk result (λ values. (lane : ℕ) → lane < V.LANES → lane_bits V.at lane values.items ≡ bits.now) }
    ensures count { IfOk result (λ values. length values.items ≡ length bits.now) }
{
    let mut values = vec![in alloc; V::every(false); bits.len()]?;
    fill(bits, &mut values);
    Ok(values)
}

/// Cells with these bits, the bits of words, 0 and 1 in each lane. `room` has room for the cells of one lane.
fn first_cells<V: Value>(
    alloc: Global,
    bits: &[bool],
    words: &[u16],
    room: Vec<bool>,
) -> Result<Vec<V>, AllocError>
    requires { length room.items ≡ length bits.now + 16 * length words.now + 2 }
    ensures lanes { IfOk result (λ cells. (lane : ℕ) → lane < V.LANES → lane_bits V.at lane cells.items ≡ cells_of bits.now words.now) }
    ensures count { IfOk result (λ cells. length cells.items ≡ length bits.now + 16 * length words.now + 2) }
{
    let mut room = room;
    fill_cells(bits, words, &mut room);
    spread(alloc, &room)
}

/// Room for the changes of all flip-flops, or of all asynchronous sets and resets.
fn changes_room<V: Value>(
    alloc: Global,
    flips: usize,
    settles: usize,
) -> Result<Vec<Change<V>>, AllocError>
    ensures flips { IfOk result (λ changes. flips ≤ length changes.items) }
    ensures settles { IfOk result (λ changes. settles ≤ length changes.items) }
{
    let none = Change {
        cell: 0,
        lanes: V::every(false),
        value: V::every(false),
    };
    vec![in alloc; none; flips.max(settles)]
}

/// Computes all wires. All that is watched is marked.
fn settle_first<V: Value>(
    circuit: &Circuit,
    cells: &mut [V],
    marks: &mut [u64],
    changes: &mut [Change<V>],
)
    requires room { length (watched circuit.now) ≤ 64 * length marks.old }
    requires marks { (place : ℕ) → place < 64 * length marks.old → is_marked marks.old place ≡ true }
    requires changes { length circuit.now.settles.items ≤ length changes.old }
    ensures { (lane first count : ℕ) → lane < V.LANES → AreRising first count circuit.now.gates.items → IsRead (watched circuit.now) circuit.now.readers.items → count ≤ length cells.old
        → IsSettled true first count circuit.now.gates.items (watched circuit.now) circuit.now.settles.items (lane_bits V.at lane cells.old) (lane_bits V.at lane cells.new) marks.new }
{
    settle(circuit, V::every(true), cells, marks, changes);
}

/// The circuit of a layout with these bits and words, its wires computed. `room` has room for the cells of one lane.
pub(crate) fn wires_of<V: Value>(
    alloc: Global,
    layout: &SlotLayout,
    bits: &[bool],
    words: &[u16],
    room: Vec<bool>,
) -> Result<Wires<V>, AllocError>
    requires room { length room.items ≡ length bits.now + 16 * length words.now + 2 }
    requires first { layout.now.first_wire ≤ length bits.now }
    ensures started { IfOk result (IsStarted V.LANES V.at layout.now bits.now words.now) }
    ensures sixteen_bits { IfOk result (λ wires. (place : ℕ) → get_or words.now place 0 < 65536) }
{
    let circuit = circuit_of(alloc, layout, bits.len(), words.len())?;
    let mut cells = first_cells(alloc, bits, words, room)?;
    let mut marks = marks_of(alloc, circuit.watched_count)?;
    let mut changes = changes_room(alloc, layout.plan.flips.len(), layout.plan.settles.len())?;
    settle_first(&circuit, &mut cells, &mut marks, &mut changes);
    Ok(Wires {
        circuit,
        cells,
        marks,
        changes,
    })
}

/// The state of all lanes at the start, with these bits, words and memories. `room` has room for the cells of one lane.
pub(crate) fn started_of<V: Value>(
    alloc: Global,
    layout: &SlotLayout,
    bits: &[bool],
    words: &[u16],
    memories: &[Memory],
    room: Vec<bool>,
) -> Result<Started<V>, AllocError>
    requires room { length room.items ≡ length bits.now + 16 * length words.now + 2 }
    requires first { layout.now.first_wire ≤ length bits.now }
    ensures { IfOk result (AreStarted V.LANES V.at layout.now bits.now words.now memories.now) }
{
    let wires = wires_of(alloc, layout, bits, words, room)?;
    let outputs = first_outputs(alloc, &wires.circuit.outputs, &wires.cells)?;
    let words = copies(alloc, words, V::LANES)?;
    let memories = copies(alloc, memories, V::LANES)?;
    let written = vec![in alloc; None; layout.plan.writes.len()]?;
    Ok(Started {
        wires,
        outputs,
        words,
        memories,
        written,
    })
}
