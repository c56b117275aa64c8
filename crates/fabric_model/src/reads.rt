// Nets that are read.
ghost use Rattle.std.specs.Prelude.{◌≡◌, ℕ, false, ◌||◌, length, All, IfOk, slice_index_or};
ghost use Rattle.std.specs.List.{list_any};
ghost use Rattle.fabric_model.specs.Found.{IsBelow, comes_from, touches};

use crate::on::OnLink;
use std::alloc::{AllocError, Global};

/// Marks the nets that links come from.
fn mark_sources(reads: &mut [bool], links: &[OnLink])
    requires { All (IsBelow (length reads.old)) links.now }
    ensures { (net : ℕ) → slice_index_or reads.new net false ≡ (slice_index_or reads.old net false || list_any (comes_from net) links.now) }
{
    for link in links {
        reads[link.src as usize] = true;
    }
}

/// Marks the nets that links come from or go to.
fn mark_ends(reads: &mut [bool], links: &[OnLink])
    requires { All (IsBelow (length reads.old)) links.now }
    ensures { (net : ℕ) → slice_index_or reads.new net false ≡ (slice_index_or reads.old net false || list_any (touches net) links.now) }
{
    for link in links {
        reads[link.src as usize] = true;
        reads[link.dst as usize] = true;
    }
}

/// Marks the nets that buffers and routings read. Nothing is marked before.
fn mark_all(reads: &mut [bool], buffers: &[OnLink], routings: &[OnLink])
    requires buffers { All (IsBelow (length reads.old)) buffers.now }
    requires routings { All (IsBelow (length reads.old)) routings.now }
    requires unmarked { (net : ℕ) → slice_index_or reads.old net false ≡ false }
    ensures { (net : ℕ) → slice_index_or reads.new net false ≡ (list_any (comes_from net) buffers.now || list_any (touches net) routings.now) }
{
    mark_sources(reads, buffers);
    mark_ends(reads, routings);
}

/// A mark for each net, none of which is set.
fn no_marks(alloc: Global, nets: u32) -> Result<Vec<bool>, AllocError>
    ensures length { IfOk result (λ reads. length reads.items ≡ nets) }
    ensures unmarked { IfOk result (λ reads. (net : ℕ) → slice_index_or reads.items net false ≡ false) }
{
    vec![in alloc; false; nets as usize]
}

/// Whether each net is the source of one of the buffers, or an end of one of the routings.
pub(crate) fn reads(
    alloc: Global,
    nets: u32,
    buffers: &[OnLink],
    routings: &[OnLink],
) -> Result<Vec<bool>, AllocError>
    requires buffers { All (IsBelow nets) buffers.now }
    requires routings { All (IsBelow nets) routings.now }
    ensures length { IfOk result (λ reads. length reads.items ≡ nets) }
    ensures reads { IfOk result (λ reads. (net : ℕ) → slice_index_or reads.items net false ≡ (list_any (comes_from net) buffers.now || list_any (touches net) routings.now)) }
{
    let mut reads = no_marks(alloc, nets)?;
    mark_all(&mut reads, buffers, routings);
    Ok(reads)
}
