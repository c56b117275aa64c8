// The fan-out of cells: for each cell, the wires that read it, and the wire whose cell it is.
ghost use Rattle.std.specs.Prelude.{◌≡◌, [], IfOk, OnOk, fold, length, replicate};
ghost use Rattle.vlog_engine.specs.Marks.{AreWithin, IsRead, lists_of, with_gate, with_reader};

use std::alloc::{AllocError, Global};
use vlog_semantics::Gate;

/// An empty list for each of this many cells. They take no memory yet.
fn no_readers(alloc: Global, count: usize) -> Result<Vec<Vec<usize>>, AllocError>
    ensures { IfOk result (λ readers. lists_of readers.items ≡ replicate count []) }
{
    let mut readers = Vec::with_capacity(alloc, count)?;
    for _ in 0..count {
        readers.push(Vec::new(alloc))?;
    }
    Ok(readers)
}

/// Adds a wire to the list of a cell.
pub(crate) fn add_reader(
    readers: &mut Vec<Vec<usize>>,
    cell: usize,
    place: usize,
) -> Result<(), AllocError>
    ensures { OnOk result (lists_of readers.new.items ≡ with_reader place (lists_of readers.old.items) cell) }
{
    if cell < readers.len() {
        readers[cell].push(place)?;
    }
    Ok(())
}

/// Adds a wire to the lists of these cells.
fn add_readers(
    readers: &mut Vec<Vec<usize>>,
    cells: &[usize],
    place: usize,
) -> Result<(), AllocError>
    ensures { OnOk result (lists_of readers.new.items ≡ fold (with_reader place) (lists_of readers.old.items) cells.now) }
{
    for cell in cells {
        add_reader(readers, *cell, place)?;
    }
    Ok(())
}

/// Adds a wire to the lists of its cell and of its fan-in.
fn add_gate(readers: &mut Vec<Vec<usize>>, place: usize, gate: &Gate) -> Result<(), AllocError>
    ensures { OnOk result (lists_of readers.new.items ≡ with_gate place (lists_of readers.old.items) gate.now) }
{
    add_readers(readers, &gate.ins, place)?;
    add_reader(readers, gate.slot, place)
}

/// The fan-out of each of this many cells.
pub(crate) fn readers_of(
    alloc: Global,
    count: usize,
    gates: &[Gate],
) -> Result<Vec<Vec<usize>>, AllocError>
    ensures count { IfOk result (λ readers. length readers.items ≡ count) }
    ensures read { IfOk result (λ readers. AreWithin count gates.now → IsRead gates.now readers.items) }
{
    let mut readers = no_readers(alloc, count)?;
    for (place, gate) in gates.iter().enumerate() {
        add_gate(&mut readers, place, gate)?;
    }
    Ok(readers)
}
