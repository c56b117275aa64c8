// Nodes that can be written next.
ghost use Rattle.std.specs.Prelude.{◌≡◌, ℕ, ◌<◌, true, false, length, IsTrue, OnOk};
ghost use Rattle.graph_order.specs.Wiring.{has, IsReady};
ghost use Rattle.graph_order.specs.Rows.{is_marked, row_at, wiring_of, ReadsWithin};
ghost use Rattle.graph_order.specs.Ready.{AreWritten, HoldsReady, HoldsAllBut};

use std::alloc::AllocError;
use std::collections::BTreeSet;

/// Whether all driven nodes of a list are written.
fn are_written(driven: &[bool], written: &[bool], nodes: &[u32]) -> bool
    requires lengths { length written.now ≡ length driven.now }
    requires within { (node : ℕ) → has nodes.now node ≡ true → node < length driven.now }
    ensures sound { IsTrue result → AreWritten (is_marked driven.now) (is_marked written.now) nodes.now }
    ensures whole { AreWritten (is_marked driven.now) (is_marked written.now) nodes.now → IsTrue result }
{
    for node in nodes {
        if driven[*node as usize] && !written[*node as usize] {
            return false;
        }
    }
    true
}

/// Whether a node can be written next.
fn is_ready(driven: &[bool], reads: &[Vec<u32>], written: &[bool], node: u32) -> bool
    requires rows { length reads.now ≡ length driven.now }
    requires marks { length written.now ≡ length driven.now }
    requires reads_within { ReadsWithin (wiring_of driven.now reads.now) }
    requires within { node < length driven.now }
    ensures sound { IsTrue result → IsReady (wiring_of driven.now reads.now) (is_marked written.now) node }
    ensures whole { IsReady (wiring_of driven.now reads.now) (is_marked written.now) node → IsTrue result }
{
    driven[node as usize]
        && !written[node as usize]
        && are_written(driven, written, &reads[node as usize])
}

/// Adds those of some nodes that can be written next.
pub(crate) fn insert_ready(
    driven: &[bool],
    reads: &[Vec<u32>],
    written: &[bool],
    nodes: &[u32],
    ready: &mut BTreeSet<u32>,
) -> Result<(), AllocError>
    requires rows { length reads.now ≡ length driven.now }
    requires marks { length written.now ≡ length driven.now }
    requires reads_within { ReadsWithin (wiring_of driven.now reads.now) }
    requires within { (node : ℕ) → has nodes.now node ≡ true → node < length driven.now }
    requires ready { HoldsReady (wiring_of driven.now reads.now) (is_marked written.now) ready.old }
    requires others { HoldsAllBut (wiring_of driven.now reads.now) (is_marked written.now) (has nodes.now) ready.old }
    ensures ready { OnOk result (HoldsReady (wiring_of driven.now reads.now) (is_marked written.now) ready.new) }
    ensures all { OnOk result (HoldsAllBut (wiring_of driven.now reads.now) (is_marked written.now) (λ node. false) ready.new) }
{
    for node in nodes {
        if is_ready(driven, reads, written, *node) {
            ready.insert(*node)?;
        }
    }
    Ok(())
}
