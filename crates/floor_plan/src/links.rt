// How many links are on in each tile.
ghost use Rattle.std.specs.Prelude.{◌≡◌, All, IfOk, IfSome, OnOk, length, replicate, slice_get};
ghost use Rattle.floor_plan.specs.ByTile.{IsLinkNear, Raises, raised};

use crate::by_tile::{TILES, index_of};
use chipdb_reader::LinkLine;
use std::alloc::{AllocError, Global};

/// A count for each tile, all of them 0.
pub(crate) fn no_counts(alloc: Global) -> Result<Vec<usize>, AllocError>
    ensures { IfOk result (λ counts. counts.items ≡ replicate 4096 0) }
{
    vec![in alloc; 0usize; TILES]
}

/// Counts the links with these indexes in their tiles.
///
/// # Errors
/// `AllocError` if a count needs more than 64 bits: so many indexes have no room in memory.
pub(crate) fn count_links(
    counts: &mut [usize],
    links: &[LinkLine],
    places: &[u32],
) -> Result<(), AllocError>
    requires all { length counts.old ≡ 4096 }
    requires near { All IsLinkNear links.now }
    ensures { OnOk result (Raises links.now places.now counts.old counts.new) }
{
    for place in places {
        count_link(counts, link_at(links, *place))?;
    }
    Ok(())
}

/// The link at an index of a list.
fn link_at(links: &[LinkLine], place: u32) -> Option<LinkLine>
    ensures { result ≡ slice_get links.now place }
{
    links.get(place as usize).copied()
}

/// Counts a link in its tile.
fn count_link(counts: &mut [usize], link: Option<LinkLine>) -> Result<(), AllocError>
    requires all { length counts.old ≡ 4096 }
    requires near { IfSome link IsLinkNear }
    ensures { OnOk result (counts.new ≡ raised link counts.old) }
{
    match link {
        None => Ok(()),
        Some(link) => {
            let at = index_of(link.x, link.y);
            counts[at] = counts[at].checked_add(1).ok_or(AllocError)?;
            Ok(())
        }
    }
}
