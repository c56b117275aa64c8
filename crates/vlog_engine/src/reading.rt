// The values of cells that items read.
ghost use Rattle.std.specs.Prelude.{◌≡◌, ◌<◌, ◌≤◌, ◌^◌, ℕ, [], drop, false, get_or, length, slice_set, take};
ghost use Rattle.vlog_engine.specs.Lanes.{lane_bits};
ghost use Rattle.vlog_semantics.specs.Steps.{operand_value, operands_value};

use crate::value::Value;
use vlog_semantics::Operand;

/// The value of a cell, and 0 past the last cell.
pub(crate) fn cell_at<V: Value>(cells: &[V], cell: usize) -> V
    ensures is { result ≡ get_or cells.now cell result }
    ensures bits { (lane : ℕ) → lane < V.LANES → V.at result lane ≡ get_or (lane_bits V.at lane cells.now) cell false }
{
    if cell < cells.len() {
        cells[cell]
    } else {
        V::every(false)
    }
}

/// The value of a cell.
pub(crate) fn value_at<V: Value>(cells: &[V], cell: usize) -> V
    requires { cell < length cells.now }
    ensures { (lane : ℕ) → lane < V.LANES → V.at result lane ≡ get_or (lane_bits V.at lane cells.now) cell false }
{
    cells[cell]
}

/// Sets the value of a cell, if there is such a cell.
pub(crate) fn set_cell<V: Value>(cells: &mut [V], cell: usize, value: V)
    ensures { cells.new ≡ slice_set cells.old cell value }
{
    if cell < cells.len() {
        cells[cell] = value;
    }
}

/// The value of an operand: a cell or a constant.
pub(crate) fn operand_at<V: Value>(cells: &[V], operand: Operand) -> V
    ensures { (lane : ℕ) → lane < V.LANES → V.at result lane ≡ operand_value (lane_bits V.at lane cells.now) [] operand }
{
    match operand {
        Operand::Constant(bit) => V::every(bit),
        Operand::Slot(cell) => cell_at(cells, cell),
        Operand::Part { .. } => V::every(false),
    }
}

/// The bit of an operand in a lane.
pub(crate) fn operand_bit<V: Value>(cells: &[V], lane: u32, operand: Operand) -> bool
    requires { lane < V.LANES }
    ensures { result ≡ operand_value (lane_bits V.at lane cells.now) [] operand }
{
    operand_at(cells, operand).bit(lane)
}

/// The number that operands spell in a lane, the lowest bit first.
pub(crate) fn number<V: Value>(cells: &[V], lane: u32, operands: &[Operand]) -> u32
    requires few { length operands.now ≤ 16 }
    requires within { lane < V.LANES }
    ensures is { result ≡ operands_value (lane_bits V.at lane cells.now) [] operands.now }
    ensures small { result < 2 ^ length operands.now }
{
    let mut number = 0;
    for place in (0..operands.len()).rev() {
        let bit = operand_bit(cells, lane, operands[place]);
        number = 2 * number + u32::from(bit);
    }
    number
}

/// The elements from one index up to another; none if the list is too short.
pub(crate) fn part<T>(items: &[T], from: usize, end: usize) -> &[T]
    ensures { from ≤ end → end ≤ length items.now → result.now ≡ drop from (take end items.now) }
{
    if from <= end && end <= items.len() {
        &items[from..end]
    } else {
        &[]
    }
}
