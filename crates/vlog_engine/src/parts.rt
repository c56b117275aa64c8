// The bits of registers of 16 bits, in their cells.
ghost use Rattle.std.specs.Prelude.{◌≡◌, ◌≢◌, ◌<◌, ◌≤◌, ◌+◌, ◌*◌, ◌^◌, ℕ, List, false, get_or, length};
ghost use Rattle.vlog_engine.specs.Changes.{with_word};
ghost use Rattle.vlog_engine.specs.Lanes.{lane_bits};
ghost use Rattle.vlog_engine.specs.Marks.{IsRead, IsTracked};
ghost use Rattle.vlog_engine.specs.Circuits.{ArePartsAt, shown_by};
ghost use Rattle.vlog_semantics.specs.Cells.{cells_of, part_at, parts_below};
ghost use Rattle.vlog_semantics.specs.Values.{bit_of};
ghost use Rattle.vlog_semantics.specs.declared.gates.Gate.{Gate as gate_of};

use crate::changes::{Change, write_lanes};
use crate::reading::{cell_at, set_cell};
use crate::value::Value;
use vlog_semantics::{bit_of, copy_bits, set_bit, word_at};

/// The bit of words at an index: bit k of word w has the index 16 w + k.
fn part_at(words: &[u16], place: usize) -> bool
    ensures { result ≡ part_at words.now place }
{
    bit_of(word_at(words, place / 16), (place % 16) as u32)
}

/// Writes the bits of words, in order.
fn fill_parts(words: &[u16], parts: &mut [bool])
    ensures { parts.new ≡ parts_below words.now (length parts.old) }
{
    for place in 0..parts.len() {
        let bit = part_at(words, place);
        set_bit(parts, place, bit);
    }
}

/// Writes bits, the bits of words, 0 and 1 to their cells.
pub(crate) fn fill_cells(bits: &[bool], words: &[u16], cells: &mut [bool])
    requires { length cells.old ≡ length bits.now + 16 * length words.now + 2 }
    ensures { cells.new ≡ cells_of bits.now words.now }
{
    let (first, rest) = cells.split_at_mut(bits.len());
    copy_bits(bits, first);
    let (parts, constants) = rest.split_at_mut(16 * words.len());
    fill_parts(words, parts);
    copy_bits(&[false, true], constants);
}

/// Copies to each entry of `shown` the value of its root.
pub(crate) fn show_cells<V: Value>(roots: &[usize], cells: &[V], shown: &mut [V])
    ensures { length shown.old ≡ length roots.now → (lane : ℕ) → lane < V.LANES → lane_bits V.at lane shown.new ≡ shown_by roots.now (lane_bits V.at lane cells.now) }
{
    for (place, root) in roots.iter().enumerate() {
        let value = cell_at(cells, *root);
        set_cell(shown, place, value);
    }
}

/// Writes the bits of a word to the sixteen cells from one on, in a lane.
fn write_word<V: Value>(
    readers: &[Vec<usize>],
    from: usize,
    word: u16,
    lane: u32,
    cells: &mut [V],
    marks: &mut [u64],
)
    requires room { from + 16 < 2 ^ 64 }
    requires within { lane < V.LANES }
    ensures own { lane_bits V.at lane cells.new ≡ with_word (lane_bits V.at lane cells.old) from word 16 }
    ensures others { (other : ℕ) → other < V.LANES → other ≢ lane → lane_bits V.at other cells.new ≡ lane_bits V.at other cells.old }
    ensures tracked { (other : ℕ) (gates : List gate_of) → IsRead gates readers.now → IsTracked gates (lane_bits V.at other cells.old) marks.old
        → IsTracked gates (lane_bits V.at other cells.new) marks.new }
{
    for k in 0..16_u32 {
        let change = Change {
            cell: from + k as usize,
            lanes: V::only(lane),
            value: V::every(bit_of(word, k)),
        };
        write_lanes(readers, change, cells, marks);
    }
}

/// Writes the bits of a word to the sixteen cells from one on, in a lane. These have the bits of the word from before.
fn exchange_word<V: Value>(
    readers: &[Vec<usize>],
    from: usize,
    before: u16,
    word: u16,
    lane: u32,
    cells: &mut [V],
    marks: &mut [u64],
)
    requires room { from + 16 < length cells.old }
    requires within { lane < V.LANES }
    ensures parts { ((k : ℕ) → k < 16 → get_or (lane_bits V.at lane cells.old) (from + k) false ≡ bit_of before k)
        → (k : ℕ) → k < 16 → get_or (lane_bits V.at lane cells.new) (from + k) false ≡ bit_of word k }
    ensures same { (cell : ℕ) → (cell < from + 16 → cell < from) → get_or (lane_bits V.at lane cells.new) cell false ≡ get_or (lane_bits V.at lane cells.old) cell false }
    ensures others { (other : ℕ) → other < V.LANES → other ≢ lane → lane_bits V.at other cells.new ≡ lane_bits V.at other cells.old }
    ensures tracked { (other : ℕ) (gates : List gate_of) → IsRead gates readers.now → IsTracked gates (lane_bits V.at other cells.old) marks.old
        → IsTracked gates (lane_bits V.at other cells.new) marks.new }
{
    if before != word {
        write_word(readers, from, word, lane, cells, marks);
    }
}

/// Writes the bits of words to the cells from one on, in a lane. These have the bits of the words from before.
pub(crate) fn write_words<V: Value>(
    readers: &[Vec<usize>],
    from: usize,
    before: &[u16],
    words: &[u16],
    lane: u32,
    cells: &mut [V],
    marks: &mut [u64],
)
    requires count { length before.now ≡ length words.now }
    requires room { from + 16 * length words.now + 2 ≤ length cells.old }
    requires within { lane < V.LANES }
    ensures parts { ArePartsAt from before.now (lane_bits V.at lane cells.old) → ArePartsAt from words.now (lane_bits V.at lane cells.new) }
    ensures same { (cell : ℕ) → (cell < from + 16 * length words.now → cell < from) → get_or (lane_bits V.at lane cells.new) cell false ≡ get_or (lane_bits V.at lane cells.old) cell false }
    ensures others { (other : ℕ) → other < V.LANES → other ≢ lane → lane_bits V.at other cells.new ≡ lane_bits V.at other cells.old }
    ensures tracked { (other : ℕ) (gates : List gate_of) → IsRead gates readers.now → IsTracked gates (lane_bits V.at other cells.old) marks.old
        → IsTracked gates (lane_bits V.at other cells.new) marks.new }
{
    for place in 0..words.len() {
        exchange_word(
            readers,
            from + 16 * place,
            word_at(before, place),
            word_at(words, place),
            lane,
            cells,
            marks,
        );
    }
}
