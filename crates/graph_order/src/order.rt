// The topological order.
ghost use Rattle.std.specs.Prelude.{◌≡◌, ℕ, ◌<◌, ◌≤◌, List, true, false, length, IsTrue, IfOk, IfSome, IfNone};
ghost use Rattle.graph_order.specs.Wiring.{has, IsReady, IsWriteOrder, is_on_cycle};
ghost use Rattle.graph_order.specs.Rows.{is_marked, row_at, wiring_of, ReadsWithin, ReadsByDriven};
ghost use Rattle.graph_order.specs.Ready.{HoldsReady, HoldsAllBut, IsWritten};

use crate::readers::readers_of;
use crate::ready::insert_ready;
use std::alloc::{AllocError, Global};
use std::collections::BTreeSet;

/// The numbers below a count.
fn all_below(alloc: Global, count: u32) -> Result<Vec<u32>, AllocError>
    ensures within { IfOk result (λ all. (node : ℕ) → has all.items node ≡ true → node < count) }
    ensures all { IfOk result (λ all. (node : ℕ) → node < count → has all.items node ≡ true) }
{
    let mut all = Vec::new(alloc);
    for node in 0..count {
        all.push(node)?;
    }
    Ok(all)
}

/// A mark for each node; none is set.
pub(crate) fn no_marks(alloc: Global, count: usize) -> Result<Vec<bool>, AllocError>
    ensures length { IfOk result (λ marks. length marks.items ≡ count) }
    ensures unmarked { IfOk result (λ marks. (node : ℕ) → is_marked marks.items node ≡ false) }
{
    vec![in alloc; false; count]
}

/// All nodes that can be written next.
fn first_ready(
    alloc: Global,
    driven: &[bool],
    reads: &[Vec<u32>],
    written: &[bool],
) -> Result<BTreeSet<u32>, AllocError>
    requires few { length driven.now ≤ u32.MAX }
    requires rows { length reads.now ≡ length driven.now }
    requires marks { length written.now ≡ length driven.now }
    requires reads_within { ReadsWithin (wiring_of driven.now reads.now) }
    ensures ready { IfOk result (HoldsReady (wiring_of driven.now reads.now) (is_marked written.now)) }
    ensures all { IfOk result (HoldsAllBut (wiring_of driven.now reads.now) (is_marked written.now) (λ node. false)) }
{
    let nodes = all_below(alloc, driven.len() as u32)?;
    let mut ready = BTreeSet::new(alloc);
    insert_ready(driven, reads, written, &nodes, &mut ready)?;
    Ok(ready)
}

/// Writes nodes one by one, at each step the least that can be written, until none can be.
fn write_all(
    alloc: Global,
    driven: &[bool],
    reads: &[Vec<u32>],
    readers: &[Vec<u32>],
    written: &mut [bool],
) -> Result<Vec<u32>, AllocError>
    requires few { length driven.now ≤ u32.MAX }
    requires rows { length reads.now ≡ length driven.now }
    requires reader_rows { length readers.now ≡ length driven.now }
    requires marks { length written.old ≡ length driven.now }
    requires reads_within { ReadsWithin (wiring_of driven.now reads.now) }
    requires readers_within { (other reader : ℕ) → has (row_at readers.now other) reader ≡ true → reader < length driven.now }
    requires readers_all { (node other : ℕ) → has (row_at reads.now node) other ≡ true → has (row_at readers.now other) node ≡ true }
    requires unmarked { (node : ℕ) → is_marked written.old node ≡ false }
    ensures order { IfOk result (λ order. IsWritten (wiring_of driven.now reads.now) (is_marked written.new) order.items) }
    ensures none { IfOk result (λ order. (node : ℕ) → IsReady (wiring_of driven.now reads.now) (is_marked written.new) node → ⊥) }
{
    let mut ready = first_ready(alloc, driven, reads, written)?;
    let mut order = Vec::new(alloc);
    while let Some(node) = ready.pop_first() {
        written[node as usize] = true;
        order.push(node)?;
        insert_ready(driven, reads, written, &readers[node as usize], &mut ready)?;
    }
    Ok(order)
}

/// Whether all driven nodes are written.
fn is_whole(driven: &[bool], written: &[bool]) -> bool
    requires { length written.now ≡ length driven.now }
    ensures sound { IsTrue result → (node : ℕ) → node < length driven.now → is_marked driven.now node ≡ true → is_marked written.now node ≡ true }
    ensures whole { ((node : ℕ) → node < length driven.now → is_marked driven.now node ≡ true → is_marked written.now node ≡ true) → IsTrue result }
{
    for node in 0..driven.len() {
        if driven[node] && !written[node] {
            return false;
        }
    }
    true
}

/// The topological order, if there is one. No node is written before.
fn whole_order(
    alloc: Global,
    driven: &[bool],
    reads: &[Vec<u32>],
    readers: &[Vec<u32>],
    written: &mut [bool],
) -> Result<Option<Vec<u32>>, AllocError>
    requires few { length driven.now ≤ u32.MAX }
    requires rows { length reads.now ≡ length driven.now }
    requires reader_rows { length readers.now ≡ length driven.now }
    requires marks { length written.old ≡ length driven.now }
    requires reads_within { ReadsWithin (wiring_of driven.now reads.now) }
    requires readers_within { (other reader : ℕ) → has (row_at readers.now other) reader ≡ true → reader < length driven.now }
    requires readers_all { (node other : ℕ) → has (row_at reads.now node) other ≡ true → has (row_at readers.now other) node ≡ true }
    requires unmarked { (node : ℕ) → is_marked written.old node ≡ false }
    ensures order { IfOk result (λ found. IfSome found (λ order. IsWriteOrder (wiring_of driven.now reads.now) order.items)) }
    ensures open { IfOk result (λ found. IfSome found (λ order. ReadsByDriven (wiring_of driven.now reads.now) → (node : ℕ) → is_on_cycle (wiring_of driven.now reads.now) node ≡ false)) }
    ensures none { IfOk result (λ found. IfNone found ((order : List ℕ) → IsWriteOrder (wiring_of driven.now reads.now) order → ⊥)) }
    ensures cycle { IfOk result (λ found. IfNone found ((node : ℕ) × (node < length driven.now) × (is_on_cycle (wiring_of driven.now reads.now) node ≡ true))) }
{
    let order = write_all(alloc, driven, reads, readers, written)?;
    if is_whole(driven, written) {
        Ok(Some(order))
    } else {
        Ok(None)
    }
}

/// The topological order of the driven nodes, if there is one: at each place the least driven node that hasn't been written and whose
/// fan-in has no driven node that hasn't been written. All driven nodes are in it.
///
/// `driven` says for each node whether it is driven, and `reads` has its fan-in, the nodes that it reads. If there is no order, some
/// node lies on a cycle. If there is one, and only driven nodes read any, none does.
///
/// # Errors
/// `AllocError` if memory is out, and for no other cause.
pub fn write_order(
    alloc: Global,
    driven: &[bool],
    reads: &[Vec<u32>],
) -> Result<Option<Vec<u32>>, AllocError>
    requires few { length driven.now ≤ u32.MAX }
    requires rows { length reads.now ≡ length driven.now }
    requires within { ReadsWithin (wiring_of driven.now reads.now) }
    ensures order { IfOk result (λ found. IfSome found (λ order. IsWriteOrder (wiring_of driven.now reads.now) order.items)) }
    ensures open { IfOk result (λ found. IfSome found (λ order. ReadsByDriven (wiring_of driven.now reads.now) → (node : ℕ) → is_on_cycle (wiring_of driven.now reads.now) node ≡ false)) }
    ensures none { IfOk result (λ found. IfNone found ((order : List ℕ) → IsWriteOrder (wiring_of driven.now reads.now) order → ⊥)) }
    ensures cycle { IfOk result (λ found. IfNone found ((node : ℕ) × (node < length driven.now) × (is_on_cycle (wiring_of driven.now reads.now) node ≡ true))) }
{
    let readers = readers_of(alloc, reads)?;
    let mut written = no_marks(alloc, driven.len())?;
    whole_order(alloc, driven, reads, &readers, &mut written)
}
