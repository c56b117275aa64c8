// Marks on wires that may be out of date. A word has the marks of 64 wires, that of the first wire in its lowest bit.
ghost use Rattle.std.specs.Prelude.{◌≡◌, ◌≢◌, ◌<◌, ◌≤◌, ◌+◌, ◌*◌, ◌/◌, ◌||◌, ℕ, [], IfOk, List, get_or, length, slice_set, true, false};
ghost use Rattle.vlog_engine.specs.Lanes.{lane_bits};
ghost use Rattle.vlog_engine.specs.Marks.{IsRead, IsTracked, has, is_marked, lists_of};
ghost use Rattle.vlog_semantics.specs.Values.{bit_of};
ghost use Rattle.vlog_semantics.specs.declared.gates.Gate.{Gate as gate_of};

use crate::lane_words::with_bit;
use crate::reading::{cell_at, set_cell};
use crate::value::Value;
use std::alloc::{AllocError, Global};

/// Sets or clears the mark of a wire, if there is such a wire.
pub(crate) fn set_mark(marks: &mut [u64], place: usize, mark: bool)
    ensures own { place < 64 * length marks.old → is_marked marks.new place ≡ mark }
    ensures others { (other : ℕ) → other ≢ place → is_marked marks.new other ≡ is_marked marks.old other }
{
    let block = place / 64;
    if block < marks.len() {
        marks[block] = with_bit(marks[block], (place % 64) as u32, mark);
    }
}

/// Sets or clears the mark of a wire, if there is such a wire. Most marks are cleared, which takes less time.
pub(crate) fn leave_mark(marks: &mut [u64], place: usize, mark: bool)
    ensures own { place < 64 * length marks.old → is_marked marks.new place ≡ mark }
    ensures others { (other : ℕ) → other ≢ place → is_marked marks.new other ≡ is_marked marks.old other }
{
    if mark {
        set_mark(marks, place, true);
    } else {
        set_mark(marks, place, false);
    }
}

/// Clears the mark of a wire, if there is such a wire.
pub(crate) fn clear_mark(marks: &mut [u64], place: usize)
    ensures own { place < 64 * length marks.old → is_marked marks.new place ≡ false }
    ensures others { (other : ℕ) → other ≢ place → is_marked marks.new other ≡ is_marked marks.old other }
{
    set_mark(marks, place, false);
}

/// The index of the first 1 in a word from this bit on, and 64 if there is none; bit 0 is the lowest.
fn next_one(word: u64, from: u32) -> u32
    requires { from ≤ 64 }
    ensures past { from ≤ result }
    ensures last { result ≤ 64 }
    ensures found { result < 64 → bit_of word result ≡ true }
    ensures none { (k : ℕ) → from ≤ k → k < result → bit_of word k ≡ false }
{
    let left = if from < 64 { word >> from } else { 0 };
    if left == 0 {
        64
    } else {
        from + left.trailing_zeros()
    }
}

/// A word of marks, and 0 past the last word.
fn word_at(marks: &[u64], block: usize) -> u64
    ensures { result ≡ get_or marks.now block 0 }
{
    if block < marks.len() { marks[block] } else { 0 }
}

/// The first word with a mark from one on and before `end`, and `end` if there is none.
fn next_block(marks: &[u64], from: usize, end: usize) -> usize
    requires { from ≤ end }
    ensures past { from ≤ result }
    ensures last { result ≤ end }
    ensures none { (block : ℕ) → from ≤ block → block < result → get_or marks.now block 0 ≡ 0 }
{
    let mut block = from;
    while block < end && word_at(marks, block) == 0 {
        block += 1;
    }
    block
}

/// The first wire with a mark from one on and before `end`, and `end` if there is none.
pub(crate) fn next_marked(marks: &[u64], from: usize, end: usize) -> usize
    requires { from ≤ end }
    ensures past { from ≤ result }
    ensures last { result ≤ end }
    ensures none { (place : ℕ) → from ≤ place → place < result → is_marked marks.now place ≡ false }
{
    let block = from / 64;
    let found = next_one(word_at(marks, block), (from % 64) as u32);
    if found < 64 {
        return end.min(64 * block + found as usize);
    }
    let next = next_block(marks, block + 1, end / 64 + 1);
    if next > end / 64 {
        return end;
    }
    let first = 64 * next;
    let found = next_one(word_at(marks, next), 0);
    first + (end - first).min(found as usize)
}

/// Marks these wires.
fn mark_all(places: &[usize], marks: &mut [u64])
    ensures { (place : ℕ) → place < 64 * length marks.old → is_marked marks.new place ≡ (has places.now place || is_marked marks.old place) }
{
    for place in places {
        set_mark(marks, *place, true);
    }
}

/// The fan-out of a cell.
fn readers_at(readers: &[Vec<usize>], cell: usize) -> &[usize]
    ensures { result.now ≡ get_or (lists_of readers.now) cell [] }
{
    if cell < readers.len() {
        &readers[cell]
    } else {
        &[]
    }
}

/// Gives a cell a value, and marks the cell's fan-out if the value is new.
pub(crate) fn write<V: Value>(
    readers: &[Vec<usize>],
    cell: usize,
    value: V,
    cells: &mut [V],
    marks: &mut [u64],
)
    ensures cells { cells.new ≡ slice_set cells.old cell value }
    ensures tracked { (lane : ℕ) (gates : List gate_of) → IsRead gates readers.now → IsTracked gates (lane_bits V.at lane cells.old) marks.old
        → IsTracked gates (lane_bits V.at lane cells.new) marks.new }
{
    if cell_at(cells, cell).differs(value) {
        set_cell(cells, cell, value);
        mark_all(readers_at(readers, cell), marks);
    }
}

/// Marks for this many wires, all of them set.
pub(crate) fn marks_of(alloc: Global, count: usize) -> Result<Vec<u64>, AllocError>
    ensures room { IfOk result (λ marks. length marks.items ≡ count / 64 + 1) }
    ensures marks { IfOk result (λ marks. (place : ℕ) → place < 64 * length marks.items → is_marked marks.items place ≡ true) }
{
    let marks = vec![in alloc; u64::MAX; count / 64 + 1]?;
    Ok(marks)
}
