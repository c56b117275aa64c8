// The values of outputs.
ghost use Rattle.std.specs.Prelude.{◌≡◌, ◌<◌, ℕ, [], IfOk, length, map, if◌then◌else◌};
ghost use Rattle.vlog_engine.specs.Lanes.{lane_bits};
ghost use Rattle.vlog_semantics.specs.Steps.{operand_value};

use crate::reading::{cell_at, operand_at, set_cell};
use crate::value::Value;
use std::alloc::{AllocError, Global};
use vlog_semantics::Operand;

/// Gives each output its value in active lanes.
pub(crate) fn write_outputs<V: Value>(
    operands: &[Operand],
    active: V,
    cells: &[V],
    outputs: &mut [V],
)
    requires { length outputs.old ≡ length operands.now }
    ensures { (lane : ℕ) → lane < V.LANES → lane_bits V.at lane outputs.new
        ≡ (if V.at active lane then map (operand_value (lane_bits V.at lane cells.now) []) operands.now else lane_bits V.at lane outputs.old) }
{
    for place in 0..operands.len() {
        let value = V::select(
            active,
            operand_at(cells, operands[place]),
            cell_at(outputs, place),
        );
        set_cell(outputs, place, value);
    }
}

/// The values of the outputs in all lanes, at the start.
pub(crate) fn first_outputs<V: Value>(
    alloc: Global,
    operands: &[Operand],
    cells: &[V],
) -> Result<Vec<V>, AllocError>
    ensures lanes { IfOk result (λ outputs. (lane : ℕ) → lane < V.LANES → lane_bits V.at lane outputs.items ≡ map (operand_value (lane_bits V.at lane cells.now) []) operands.now) }
    ensures count { IfOk result (λ outputs. length outputs.items ≡ length operands.now) }
{
    let mut outputs = vec![in alloc; V::every(false); operands.len()]?;
    write_outputs(operands, V::every(true), cells, &mut outputs);
    Ok(outputs)
}
