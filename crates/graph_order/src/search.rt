// A breadth-first search from a node, along rows.
ghost use Rattle.std.specs.Prelude.{◌≡◌, ℕ, ◌<◌, true, length, IfOk, OnOk};
ghost use Rattle.graph_order.specs.Wiring.{has};
ghost use Rattle.graph_order.specs.Rows.{is_marked, row_at};
ghost use Rattle.graph_order.specs.Search.{Adds, IsSearch};

use std::alloc::{AllocError, Global};

/// A node that a search found, and the place in the trail of the node whose row has it.
#[derive(Clone, Copy)]
pub(crate) struct Found {
    pub(crate) node: u32,
    pub(crate) from: usize,
}

/// Marks the nodes of a row that aren't marked, and adds them to the trail.
fn add_unmarked(
    row: &[u32],
    from: usize,
    marks: &mut [bool],
    trail: &mut Vec<Found>,
) -> Result<(), AllocError>
    requires { (node : ℕ) → has row.now node ≡ true → node < length marks.old }
    ensures adds { OnOk result (Adds row.now from marks.old marks.new trail.old.items trail.new.items) }
    ensures all { OnOk result ((node : ℕ) → has row.now node ≡ true → is_marked marks.new node ≡ true) }
{
    for node in row {
        if !marks[*node as usize] {
            marks[*node as usize] = true;
            trail.push(Found { node: *node, from })?;
        }
    }
    Ok(())
}

/// Goes from a node along the rows to those that aren't marked, the nearest first, and marks each.
///
/// The trail has each of them once, after the one whose row has it; the first is the node itself.
pub(crate) fn spread(
    alloc: Global,
    rows: &[Vec<u32>],
    start: u32,
    marks: &mut [bool],
) -> Result<Vec<Found>, AllocError>
    requires rows { length rows.now ≡ length marks.old }
    requires within { (node other : ℕ) → has (row_at rows.now node) other ≡ true → other < length marks.old }
    requires start { start < length marks.old }
    ensures { IfOk result (λ trail. IsSearch (row_at rows.now) start marks.old marks.new (length trail.items) trail.items) }
{
    let mut trail = Vec::new(alloc);
    marks[start as usize] = true;
    trail.push(Found {
        node: start,
        from: 0,
    })?;
    let mut place = 0;
    while place < trail.len() {
        let node = trail[place].node;
        add_unmarked(&rows[node as usize], place, marks, &mut trail)?;
        place += 1;
    }
    Ok(trail)
}
