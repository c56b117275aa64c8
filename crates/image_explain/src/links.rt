// The links that are on, sorted by tile.
ghost use Rattle.std.specs.Prelude.{◌≡◌, ◌++◌, ◌∷◌, [], ◌<◌, ◌+◌, ◌*◌, All, IfOk, OnOk, get_or, length, replicate, set};
ghost use Rattle.ice_image.specs.Either.{configuration_of};
ghost use Rattle.chipdb_reader.specs.Fit.{IsLink};
ghost use Rattle.chipdb_reader.specs.Kept.{link_line, link_lines};
ghost use Rattle.image_explain.specs.Inside.{AreLists, lists_of, with_place};
ghost use Rattle.image_explain.specs.Items.{is_on_at, on_links};
ghost use Rattle.fabric_model.specs.On.{is_link_on};

use crate::tile::push_where;
use chipdb_reader::{ChipDb, LinkLine};
use fabric_model::is_link_on;
use ice_image::AnyImage;
use std::alloc::{AllocError, Global};

/// The indexes of the links that are on in the tile at (x, y).
#[tactic(auto, using(crate::proofs::Gathered::gathering), unfolding(crate::specs::Items::on_links, index_search::specs::Places::gathered_below))]
pub(crate) fn links_in(
    alloc: Global,
    db: &ChipDb,
    image: &AnyImage,
    links: &[LinkLine],
    x: u8,
    y: u8,
) -> Result<Vec<usize>, AllocError>
    requires device { db.now.chip.device ≡ (configuration_of image.now).layout.device }
    requires fit { All (IsLink db.now.chip) (link_lines db.now.bits links.now) }
    ensures { IfOk result (λ places. places.items ≡ on_links (configuration_of image.now) x y (link_lines db.now.bits links.now)) }
{
    let mut places = Vec::new(alloc);
    for (index, link) in links.iter().enumerate() {
        let is_on = is_on_at(db, image, *link, x, y);
        push_where(&mut places, is_on, index)?;
    }
    Ok(places)
}

/// Whether a link is in the tile at (x, y), and on.
fn is_on_at(db: &ChipDb, image: &AnyImage, link: LinkLine, x: u8, y: u8) -> bool
    requires device { db.now.chip.device ≡ (configuration_of image.now).layout.device }
    requires fit { IsLink db.now.chip (link_line db.now.bits link) }
    ensures { result ≡ is_on_at (configuration_of image.now) x y (link_line db.now.bits link) }
{
    link.x == x && link.y == y && is_link_on(db, image, link)
}

/// The indexes of the links that are on, in one list for each tile.
#[derive(Drop)]
pub(crate) struct LinksOn {
    pub(crate) lists: Vec<Vec<usize>>,
}

impl LinksOn {
    /// Sorts the links of a list that are on by their tiles.
    #[tactic(auto, unfolding(crate::specs::Items::on_links))]
    pub(crate) fn of(
        alloc: Global,
        db: &ChipDb,
        image: &AnyImage,
        links: &[LinkLine],
    ) -> Result<LinksOn, AllocError>
        requires device { db.now.chip.device ≡ (configuration_of image.now).layout.device }
        requires fit { All (IsLink db.now.chip) (link_lines db.now.bits links.now) }
        ensures { IfOk result (λ on. AreLists (configuration_of image.now) (link_lines db.now.bits links.now) (length links.now) (lists_of on.lists.items)) }
    {
        let mut lists = no_lists(alloc)?;
        for (index, link) in links.iter().enumerate() {
            add_if_on(&mut lists, db, image, *link, index)?;
        }
        Ok(LinksOn { lists })
    }

    /// The indexes of the links that are on in the tile at (x, y).
    pub(crate) fn at(&self, x: u8, y: u8) -> &[usize]
        ensures { result.now ≡ get_or (lists_of self.now.lists.items) (64 * y + x) [] }
    {
        match self.lists.get(place_of(x, y)) {
            None => &[],
            Some(places) => places,
        }
    }
}

/// Empty lists for all tiles: 64 rows of 64 tiles, more than any device has.
fn no_lists(alloc: Global) -> Result<Vec<Vec<usize>>, AllocError>
    ensures { IfOk result (λ lists. lists_of lists.items ≡ replicate 4096 []) }
{
    let mut lists = Vec::with_capacity(alloc, 4096)?;
    while lists.len() < 4096 {
        lists.push(Vec::new(alloc)).map_err(AllocError::from)?;
    }
    Ok(lists)
}

/// The index of a tile's list.
fn place_of(x: u8, y: u8) -> usize
    ensures { result ≡ 64 * y + x }
{
    64 * usize::from(y) + usize::from(x)
}

/// Adds the index of a link to the list of its tile, if the link is on.
fn add_if_on(
    lists: &mut Vec<Vec<usize>>,
    db: &ChipDb,
    image: &AnyImage,
    link: LinkLine,
    index: usize,
) -> Result<(), AllocError>
    requires device { db.now.chip.device ≡ (configuration_of image.now).layout.device }
    requires fit { IsLink db.now.chip (link_line db.now.bits link) }
    requires all { length lists.old.items ≡ 4096 }
    ensures { OnOk result (lists_of lists.new.items ≡ with_place (is_link_on (configuration_of image.now) (link_line db.now.bits link)) (64 * link.y + link.x) index (lists_of lists.old.items)) }
{
    if is_link_on(db, image, link) {
        add(lists, place_of(link.x, link.y), index)
    } else {
        Ok(())
    }
}

/// Adds an index to one of the lists.
fn add(lists: &mut Vec<Vec<usize>>, at: usize, place: usize) -> Result<(), AllocError>
    requires { at < length lists.old.items }
    ensures { OnOk result (lists_of lists.new.items ≡ set (lists_of lists.old.items) at (get_or (lists_of lists.old.items) at [] ++ place ∷ [])) }
{
    lists[at].push(place)?;
    Ok(())
}
