// The least node that lies on a cycle.
ghost use Rattle.std.specs.Prelude.{◌≡◌, ℕ, ◌<◌, ◌≤◌, true, false, length, slice_index, IfOk, IfSome, IfNone, ◌==◌};
ghost use Rattle.std.specs.List.{All, list_any};
ghost use Rattle.graph_order.specs.Wiring.{Wiring, has, depends, IsCycle, is_on_cycle};
ghost use Rattle.graph_order.specs.Rows.{row_at, wiring_of, ReadsWithin};
ghost use Rattle.graph_order.specs.Levels.{DontRise};
ghost use Rattle.graph_order.specs.Search.{node_at, IsBelow, ComesFromBefore, IsTrail};

use crate::levels::levels_of;
use crate::order::no_marks;
use crate::search::{Found, spread};
use std::alloc::{AllocError, Global};

/// Whether a row has a node.
fn has_node(row: &[u32], node: u32) -> bool
    ensures { result ≡ has row.now node }
{
    row.contains(&node)
}

/// The place in a trail of the first node that reads a given one.
fn place_reading(reads: &[Vec<u32>], trail: &[Found], node: u32) -> Option<usize>
    requires { IsBelow (length reads.now) trail.now }
    ensures within { IfSome result (λ place. place < length trail.now) }
    ensures reads { IfSome result (λ place. has (row_at reads.now (node_at trail.now place)) node ≡ true) }
    ensures none { IfNone result ((place : ℕ) → place < length trail.now → has (row_at reads.now (node_at trail.now place)) node ≡ false) }
{
    for place in 0..trail.len() {
        if has_node(&reads[trail[place].node as usize], node) {
            return Some(place);
        }
    }
    None
}

/// The nodes by which a trail leads from its first node to the one at a place, both included.
fn way_to(alloc: Global, trail: &[Found], last: usize) -> Result<Vec<u32>, AllocError>
    requires last { last < length trail.now }
    requires before { ComesFromBefore trail.now }
    ensures cycle { IfOk result (λ way. (wiring : Wiring) → IsTrail wiring.reads trail.now → depends wiring (node_at trail.now last) (node_at trail.now 0) ≡ true → IsCycle wiring way.items) }
    ensures first { IfOk result (λ way. slice_index way.items 0 ≡ node_at trail.now 0) }
{
    let mut way = Vec::new(alloc);
    let mut place = last;
    while place > 0 {
        way.push(trail[place].node)?;
        place = trail[place].from;
    }
    way.push(trail[0].node)?;
    way.reverse();
    Ok(way)
}

/// A cycle that begins with a node, if the node lies on one.
fn cycle_from(
    alloc: Global,
    driven: &[bool],
    reads: &[Vec<u32>],
    node: u32,
) -> Result<Option<Vec<u32>>, AllocError>
    requires rows { length reads.now ≡ length driven.now }
    requires within { ReadsWithin (wiring_of driven.now reads.now) }
    requires node { node < length driven.now }
    ensures cycle { IfOk result (λ found. IfSome found (λ cycle. IsCycle (wiring_of driven.now reads.now) cycle.items)) }
    ensures first { IfOk result (λ found. IfSome found (λ cycle. slice_index cycle.items 0 ≡ node)) }
    ensures none { IfOk result (λ found. IfNone found (is_on_cycle (wiring_of driven.now reads.now) node ≡ false)) }
{
    let mut marks = no_marks(alloc, driven.len())?;
    let trail = spread(alloc, reads, node, &mut marks)?;
    let Some(place) = place_reading(reads, &trail, node) else {
        return Ok(None);
    };
    Ok(Some(way_to(alloc, &trail, place)?))
}

/// Whether a row has a node of a level.
fn has_level(row: &[u32], levels: &[usize], level: usize) -> bool
    requires { All (λ node. node < length levels.now) row.now }
    ensures { result ≡ list_any (λ node. slice_index levels.now node == level) row.now }
{
    row.iter().any(|node| levels[*node as usize] == level)
}

/// A cycle that begins with a node, if the node lies on one. A node that reads none of its own level lies on none.
fn cycle_at(
    alloc: Global,
    driven: &[bool],
    reads: &[Vec<u32>],
    levels: &[usize],
    node: u32,
) -> Result<Option<Vec<u32>>, AllocError>
    requires rows { length reads.now ≡ length driven.now }
    requires within { ReadsWithin (wiring_of driven.now reads.now) }
    requires levels { length levels.now ≡ length driven.now }
    requires none_rises { DontRise (row_at reads.now) levels.now }
    requires node { node < length driven.now }
    ensures cycle { IfOk result (λ found. IfSome found (λ cycle. IsCycle (wiring_of driven.now reads.now) cycle.items)) }
    ensures first { IfOk result (λ found. IfSome found (λ cycle. slice_index cycle.items 0 ≡ node)) }
    ensures none { IfOk result (λ found. IfNone found (is_on_cycle (wiring_of driven.now reads.now) node ≡ false)) }
{
    if has_level(&reads[node as usize], levels, levels[node as usize]) {
        cycle_from(alloc, driven, reads, node)
    } else {
        Ok(None)
    }
}

/// The least node that lies on a cycle, with a cycle that begins with it: each node reads the next, and the last one
/// the first. None if no node lies on a cycle.
///
/// `driven` and `reads` are as in [`write_order`](crate::write_order). Which nodes are driven doesn't matter here.
///
/// # Errors
/// `AllocError` if memory is out, and for no other cause.
pub fn least_cycle(
    alloc: Global,
    driven: &[bool],
    reads: &[Vec<u32>],
) -> Result<Option<Vec<u32>>, AllocError>
    requires few { length driven.now ≤ u32.MAX }
    requires rows { length reads.now ≡ length driven.now }
    requires within { ReadsWithin (wiring_of driven.now reads.now) }
    ensures cycle { IfOk result (λ found. IfSome found (λ cycle. IsCycle (wiring_of driven.now reads.now) cycle.items)) }
    ensures within { IfOk result (λ found. IfSome found (λ cycle. slice_index cycle.items 0 < length driven.now)) }
    ensures lies { IfOk result (λ found. IfSome found (λ cycle. is_on_cycle (wiring_of driven.now reads.now) (slice_index cycle.items 0) ≡ true)) }
    ensures least { IfOk result (λ found. IfSome found (λ cycle. (node : ℕ) → node < slice_index cycle.items 0 → is_on_cycle (wiring_of driven.now reads.now) node ≡ false)) }
    ensures none { IfOk result (λ found. IfNone found ((node : ℕ) → is_on_cycle (wiring_of driven.now reads.now) node ≡ false)) }
{
    let levels = levels_of(alloc, reads)?;
    for node in 0..driven.len() {
        if let Some(cycle) = cycle_at(alloc, driven, reads, &levels, node as u32)? {
            return Ok(Some(cycle));
        }
    }
    Ok(None)
}
