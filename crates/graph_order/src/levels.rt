// Levels of nodes, which don't rise along reads, by Kosaraju's search for strongly connected components.
ghost use Rattle.std.specs.Prelude.{◌≡◌, ℕ, ◌<◌, ◌≤◌, true, false, length, slice_index, IsTrue, IfOk, OnOk, IfSome, nat_le};
ghost use Rattle.std.specs.List.{All, list_all};
ghost use Rattle.graph_order.specs.Wiring.{has};
ghost use Rattle.graph_order.specs.Rows.{is_marked, row_at};
ghost use Rattle.graph_order.specs.Levels.{DontRise};
ghost use Rattle.graph_order.specs.Search.{IsBelow};

use crate::order::no_marks;
use crate::readers::readers_of;
use crate::search::{Found, spread};
use std::alloc::{AllocError, Global};

/// A node that is being searched, and the place in its row of the next node to look at.
#[derive(Clone, Copy)]
struct Step {
    node: u32,
    next: usize,
}

/// The first place of a row, from one on, whose node isn't marked.
fn next_unmarked(row: &[u32], from: usize, marks: &[bool]) -> Option<usize>
    requires { All (λ node. node < length marks.now) row.now }
    ensures within { IfSome result (λ place. place < length row.now) }
    ensures below { IfSome result (λ place. slice_index row.now place < length marks.now) }
    ensures unmarked { IfSome result (λ place. is_marked marks.now (slice_index row.now place) ≡ false) }
{
    for place in from..row.len() {
        if !marks[row[place] as usize] {
            return Some(place);
        }
    }
    None
}

/// Searches from a node in depth, along reads, and adds each node that it finds once all nodes that it reads are marked.
fn finish_from(
    alloc: Global,
    reads: &[Vec<u32>],
    start: u32,
    marks: &mut [bool],
    order: &mut Vec<u32>,
) -> Result<(), AllocError>
    requires rows { length reads.now ≡ length marks.old }
    requires within { (node other : ℕ) → has (row_at reads.now node) other ≡ true → other < length marks.old }
    requires start { start < length marks.old }
    requires below { All (λ node. node < length marks.old) order.old.items }
    ensures { OnOk result (All (λ node. node < length marks.old) order.new.items) }
{
    let mut steps = Vec::new(alloc);
    marks[start as usize] = true;
    steps.push(Step {
        node: start,
        next: 0,
    })?;
    while let Some(step) = steps.pop() {
        let row = reads[step.node as usize].as_slice();
        match next_unmarked(row, step.next, marks) {
            Some(place) => {
                let node = row[place];
                marks[node as usize] = true;
                steps.push(Step {
                    node: step.node,
                    next: place + 1,
                })?;
                steps.push(Step { node, next: 0 })?;
            }
            None => order.push(step.node)?,
        }
    }
    Ok(())
}

/// The nodes in the order in which a depth-first search along reads is done with them (post-order).
fn finished(alloc: Global, reads: &[Vec<u32>]) -> Result<Vec<u32>, AllocError>
    requires few { length reads.now ≤ u32.MAX }
    requires within { (node other : ℕ) → has (row_at reads.now node) other ≡ true → other < length reads.now }
    ensures { IfOk result (λ order. All (λ node. node < length reads.now) order.items) }
{
    let mut order = Vec::new(alloc);
    let mut marks = no_marks(alloc, reads.len())?;
    for node in 0..reads.len() {
        if !marks[node] {
            finish_from(alloc, reads, node as u32, &mut marks, &mut order)?;
        }
    }
    Ok(order)
}

/// Gives a level to the nodes of a trail.
fn set_level(trail: &[Found], level: usize, levels: &mut [usize])
    requires { IsBelow (length levels.old) trail.now }
{
    for found in trail {
        levels[found.node as usize] = level;
    }
}

/// A level for each node, by searches along readers: the first from the last node of the order, each other from the last node
/// that has no level yet. All nodes that one search finds have one level, the place in the order of the node from which it began.
fn searched(alloc: Global, readers: &[Vec<u32>], order: &[u32]) -> Result<Vec<usize>, AllocError>
    requires within { (node other : ℕ) → has (row_at readers.now node) other ≡ true → other < length readers.now }
    requires below { All (λ node. node < length readers.now) order.now }
    ensures { IfOk result (λ levels. length levels.items ≡ length readers.now) }
{
    let mut levels = vec![in alloc; 0; readers.len()]?;
    let mut marks = no_marks(alloc, readers.len())?;
    for level in (0..order.len()).rev() {
        if !marks[order[level] as usize] {
            let trail = spread(alloc, readers, order[level], &mut marks)?;
            set_level(&trail, level, &mut levels);
        }
    }
    Ok(levels)
}

/// Whether no node of a row has a level above one.
fn is_at_most(row: &[u32], levels: &[usize], level: usize) -> bool
    requires { All (λ node. node < length levels.now) row.now }
    ensures { result ≡ list_all (λ node. nat_le (slice_index levels.now node) level) row.now }
{
    row.iter().all(|node| levels[*node as usize] <= level)
}

/// Whether no node reads one of a higher level.
fn none_rises(reads: &[Vec<u32>], levels: &[usize]) -> bool
    requires rows { length levels.now ≡ length reads.now }
    requires within { (node other : ℕ) → has (row_at reads.now node) other ≡ true → other < length reads.now }
    ensures { IsTrue result → DontRise (row_at reads.now) levels.now }
{
    for node in 0..reads.len() {
        if !is_at_most(&reads[node], levels, levels[node]) {
            return false;
        }
    }
    true
}

/// A level for each node; none reads one of a higher level.
///
/// The searches give such levels, and two nodes have the same one only if they are in one strongly connected component. This isn't
/// proved: it is tested that no level rises, and if one did, all nodes would get the same level.
pub(crate) fn levels_of(alloc: Global, reads: &[Vec<u32>]) -> Result<Vec<usize>, AllocError>
    requires few { length reads.now ≤ u32.MAX }
    requires within { (node other : ℕ) → has (row_at reads.now node) other ≡ true → other < length reads.now }
    ensures length { IfOk result (λ levels. length levels.items ≡ length reads.now) }
    ensures none_rises { IfOk result (λ levels. DontRise (row_at reads.now) levels.items) }
{
    let readers = readers_of(alloc, reads)?;
    let order = finished(alloc, reads)?;
    let levels = searched(alloc, &readers, &order)?;
    if none_rises(reads, &levels) {
        Ok(levels)
    } else {
        vec![in alloc; 0; reads.len()]
    }
}
