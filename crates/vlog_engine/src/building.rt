// The items of a module over cells.
ghost use Rattle.std.specs.Prelude.{◌≡◌, ◌<◌, ◌+◌, ◌*◌, ◌++◌, ◌^◌, IfOk, OnOk, flat_map, map};
ghost use Rattle.vlog_engine.specs.Circuits.{kept_gate};
ghost use Rattle.vlog_engine.specs.Resolved.{resolved, resolved_settle};

use crate::resolved::{resolved, resolved_gate, resolved_settle};
use crate::roots::root;
use std::alloc::{AllocError, Global};
use vlog_semantics::{Gate, Operand, Settle};

/// Adds a wire, if it isn't an alias.
fn push_gate(gates: &mut Vec<Gate>, roots: &[usize], gate: &Gate) -> Result<(), AllocError>
    ensures { OnOk result (gates.new.items ≡ gates.old.items ++ kept_gate roots.now gate.now) }
{
    if root(roots, gate.slot) == gate.slot {
        gates.push(resolved_gate(roots, gate))?;
    }
    Ok(())
}

/// The wires that aren't aliases.
pub(crate) fn gates_of(
    alloc: Global,
    roots: &[usize],
    gates: &[Gate],
) -> Result<Vec<Gate>, AllocError>
    ensures { IfOk result (λ kept. kept.items ≡ flat_map (kept_gate roots.now) gates.now) }
{
    let mut kept = Vec::new(alloc);
    for gate in gates {
        push_gate(&mut kept, roots, gate)?;
    }
    Ok(kept)
}

/// The asynchronous sets and resets of registers, over cells that are no aliases.
pub(crate) fn settles_of(
    alloc: Global,
    bits: usize,
    words: usize,
    roots: &[usize],
    settles: &[Settle],
) -> Result<Vec<Settle>, AllocError>
    requires { bits + 16 * words + 2 < 2 ^ 64 }
    ensures { IfOk result (λ found. found.items ≡ map (resolved_settle bits words roots.now) settles.now) }
{
    let mut found = Vec::new(alloc);
    for settle in settles {
        found.push(resolved_settle(bits, words, roots, settle))?;
    }
    Ok(found)
}

/// The cells of outputs.
pub(crate) fn outputs_of(
    alloc: Global,
    bits: usize,
    words: usize,
    roots: &[usize],
    outputs: &[Operand],
) -> Result<Vec<Operand>, AllocError>
    requires { bits + 16 * words + 2 < 2 ^ 64 }
    ensures { IfOk result (λ found. found.items ≡ map (resolved bits words roots.now) outputs.now) }
{
    let mut found = Vec::new(alloc);
    for output in outputs {
        found.push(resolved(bits, words, roots, *output))?;
    }
    Ok(found)
}
