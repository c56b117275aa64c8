// The readers of each node, its fan-out.
ghost use Rattle.std.specs.Prelude.{◌≡◌, ℕ, ◌<◌, ◌≤◌, ◌∷◌, ◌++◌, [], true, length, set, replicate, IfOk, OnOk};
ghost use Rattle.graph_order.specs.Wiring.{has};
ghost use Rattle.graph_order.specs.Rows.{lists_of, row_at};

use std::alloc::{AllocError, Global};

/// Empty rows, as many as the count.
fn no_rows(alloc: Global, count: usize) -> Result<Vec<Vec<u32>>, AllocError>
    ensures { IfOk result (λ rows. lists_of rows.items ≡ replicate count []) }
{
    let mut rows = Vec::with_capacity(alloc, count)?;
    while rows.len() < count {
        rows.push(Vec::new(alloc)).map_err(AllocError::from)?;
    }
    Ok(rows)
}

/// Adds a node to one of the rows.
fn add(rows: &mut Vec<Vec<u32>>, at: usize, node: u32) -> Result<(), AllocError>
    requires { at < length rows.old.items }
    ensures { OnOk result (lists_of rows.new.items ≡ set (lists_of rows.old.items) at (row_at rows.old.items at ++ node ∷ [])) }
{
    rows[at].push(node)?;
    Ok(())
}

/// Adds a node to the rows of those that it reads.
fn add_reader(rows: &mut Vec<Vec<u32>>, node: u32, read: &[u32]) -> Result<(), AllocError>
    requires { (other : ℕ) → has read.now other ≡ true → other < length rows.old.items }
    ensures length { OnOk result (length rows.new.items ≡ length rows.old.items) }
    ensures kept { OnOk result ((other reader : ℕ) → has (row_at rows.old.items other) reader ≡ true → has (row_at rows.new.items other) reader ≡ true) }
    ensures added { OnOk result ((other : ℕ) → has read.now other ≡ true → has (row_at rows.new.items other) node ≡ true) }
    ensures within { OnOk result ((bound : ℕ) → node < bound → ((other reader : ℕ) → has (row_at rows.old.items other) reader ≡ true → reader < bound) → (other reader : ℕ) → has (row_at rows.new.items other) reader ≡ true → reader < bound) }
{
    for other in read {
        add(rows, *other as usize, node)?;
    }
    Ok(())
}

/// For each node those that read it.
pub(crate) fn readers_of(alloc: Global, reads: &[Vec<u32>]) -> Result<Vec<Vec<u32>>, AllocError>
    requires few { length reads.now ≤ u32.MAX }
    requires within { (node other : ℕ) → has (row_at reads.now node) other ≡ true → other < length reads.now }
    ensures length { IfOk result (λ readers. length readers.items ≡ length reads.now) }
    ensures within { IfOk result (λ readers. (other reader : ℕ) → has (row_at readers.items other) reader ≡ true → reader < length reads.now) }
    ensures all { IfOk result (λ readers. (node other : ℕ) → has (row_at reads.now node) other ≡ true → has (row_at readers.items other) node ≡ true) }
{
    let mut readers = no_rows(alloc, reads.len())?;
    for node in 0..reads.len() {
        add_reader(&mut readers, node as u32, &reads[node])?;
    }
    Ok(readers)
}
