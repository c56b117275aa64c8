// The root of each cell: a wire that only copies is an alias of the cell that it copies.
ghost use Rattle.std.specs.Prelude.{◌≡◌, IfOk, fold, slice_set};
ghost use Rattle.vlog_engine.specs.Roots.{copied, first_roots, held_by, root, root_step, roots_of};

use std::alloc::{AllocError, Global};
use vlog_semantics::{Gate, Settle, bit_at, set_bit};

/// The root of a cell.
pub(crate) fn root(roots: &[usize], cell: usize) -> usize
    ensures { result ≡ root roots.now cell }
{
    match roots.get(cell) {
        Some(root) => *root,
        None => 0,
    }
}

/// The cell that a wire copies, if it only copies.
fn copied(zero: usize, gate: &Gate) -> Option<usize>
    ensures { result ≡ copied zero gate.now }
{
    let [source, b, c, d] = gate.ins;
    if gate.table == 2 && b == zero && c == zero && d == zero {
        Some(source)
    } else {
        None
    }
}

/// Sets the root of a cell.
fn set_root(roots: &mut [usize], cell: usize, root: usize)
    ensures { roots.new ≡ slice_set roots.old cell root }
{
    if cell < roots.len() {
        roots[cell] = root;
    }
}

/// Makes a wire that only copies an alias of the cell that it copies, unless that cell is held.
fn join(zero: usize, held: &[bool], roots: &mut [usize], gate: &Gate)
    ensures { roots.new ≡ root_step zero held.now roots.old gate.now }
{
    match copied(zero, gate) {
        Some(source) => {
            let source = root(roots, source);
            if !bit_at(held, source) {
                set_root(roots, gate.slot, source);
            }
        }
        None => {}
    }
}

/// Does so for all wires, one after another.
fn join_all(zero: usize, held: &[bool], roots: &mut [usize], gates: &[Gate])
    ensures { roots.new ≡ fold (root_step zero held.now) roots.old gates.now }
{
    for gate in gates {
        join(zero, held, roots, gate);
    }
}

/// Each cell is its own root.
fn first_roots(alloc: Global, count: usize) -> Result<Vec<usize>, AllocError>
    ensures { IfOk result (λ roots. roots.items ≡ first_roots count) }
{
    let mut roots = Vec::with_capacity(alloc, count)?;
    for cell in 0..count {
        roots.push(cell)?;
    }
    Ok(roots)
}

/// Holds the registers with an asynchronous set or reset: they get no aliases.
fn hold(settles: &[Settle], held: &mut [bool])
    ensures { held.new ≡ held_by held.old settles.now }
{
    for settle in settles {
        set_bit(held, settle.target, true);
    }
}

/// The root of each of `count` cells. A wire that copies a register with an asynchronous set or reset keeps a cell of its own, since it has
/// the register's bit from before the set or reset.
pub(crate) fn roots_of(
    alloc: Global,
    count: usize,
    zero: usize,
    gates: &[Gate],
    settles: &[Settle],
) -> Result<Vec<usize>, AllocError>
    ensures { IfOk result (λ roots. roots.items ≡ roots_of count zero gates.now settles.now) }
{
    let mut held = vec![in alloc; false; count]?;
    hold(settles, &mut held);
    let mut roots = first_roots(alloc, count)?;
    join_all(zero, &held, &mut roots, gates);
    Ok(roots)
}
