// What is looked up once for all tiles of an image.
ghost use Rattle.std.specs.Prelude.{◌≡◌, IfOk, Some};
ghost use Rattle.plane_map.specs.Layout.{kind_of};
ghost use Rattle.ice_image.specs.Either.{configuration_of};
ghost use Rattle.chipdb_reader.specs.Kept.{database_in};
ghost use Rattle.image_explain.specs.Explained.{item_lines};
ghost use Rattle.image_explain.specs.Inside.{IsTileAt, lists_of};
ghost use Rattle.image_explain.specs.Items.{items_of_tile};
ghost use Rattle.image_explain.specs.Keys.{FindsNets};
ghost use Rattle.image_explain.specs.Known.{Explains};

use crate::cells::Cells;
use crate::item::Active;
use crate::lines::lines_of;
use crate::links::LinksOn;
use crate::names::{NetNames, add_lists, no_nets};
use crate::tile::{TileAt, items_of_tile};
use chipdb_reader::ChipDb;
use ice_image::AnyImage;
use plane_map::TileKind;
use std::alloc::{AllocError, Global};

/// What explains the tiles of an image by a database: the logic cells of the database, the links that are on in each tile, and the names
/// of their nets. It is made once for all tiles. Its calls take the same database and the same image.
#[derive(Drop)]
pub struct Explainer {
    pub(crate) cells: Cells,
    pub(crate) buffers: LinksOn,
    pub(crate) routings: LinksOn,
    pub(crate) nets: NetNames,
}

impl Explainer {
    /// What explains the tiles of an image. The database must be for the image's device.
    ///
    /// # Errors
    /// `AllocError` if memory is out, and for no other cause.
    pub fn of(alloc: Global, db: &ChipDb, image: &AnyImage) -> Result<Explainer, AllocError>
        requires device { db.now.chip.device ≡ (configuration_of image.now).layout.device }
        ensures { IfOk result (Explains db.now (configuration_of image.now)) }
    {
        let buffers = LinksOn::of(alloc, db, image, db.buffers())?;
        let routings = LinksOn::of(alloc, db, image, db.routings())?;
        let nets = nets_of(alloc, db, &buffers, &routings)?;
        Ok(Explainer {
            cells: Cells::of(db),
            buffers,
            routings,
            nets,
        })
    }

    /// The lines that `explain` writes below the statement of the tile at (x, y), which is of that kind.
    ///
    /// # Errors
    /// `AllocError` if memory is out, and for no other cause.
    pub fn lines(
        &self,
        alloc: Global,
        db: &ChipDb,
        image: &AnyImage,
        kind: TileKind,
        x: u8,
        y: u8,
    ) -> Result<Vec<Vec<u8>>, AllocError>
        requires device { db.now.chip.device ≡ (configuration_of image.now).layout.device }
        requires tile { kind_of (configuration_of image.now).layout.device x y ≡ Some kind }
        requires explains { Explains db.now (configuration_of image.now) self.now }
        ensures { IfOk result (λ lines. lists_of lines.items ≡ item_lines (database_in db.now) (configuration_of image.now) x y kind) }
    {
        let at = TileAt { kind, x, y };
        let items = self.items(alloc, db, image, at)?;
        lines_of(alloc, db, &self.nets, at, &items)
    }

    /// What the bits of a tile mean.
    pub(crate) fn items(
        &self,
        alloc: Global,
        db: &ChipDb,
        image: &AnyImage,
        at: TileAt,
    ) -> Result<Vec<Active>, AllocError>
        requires device { db.now.chip.device ≡ (configuration_of image.now).layout.device }
        requires tile { IsTileAt (configuration_of image.now).layout.device at }
        requires explains { Explains db.now (configuration_of image.now) self.now }
        ensures { IfOk result (λ items. items.items ≡ items_of_tile (database_in db.now) (configuration_of image.now) at.x at.y at.kind) }
    {
        let buffers = self.buffers.at(at.x, at.y);
        let routings = self.routings.at(at.x, at.y);
        items_of_tile(alloc, db, image, at, self.cells, buffers, routings)
    }
}

/// The names of the nets of links.
fn nets_of(
    alloc: Global,
    db: &ChipDb,
    buffers: &LinksOn,
    routings: &LinksOn,
) -> Result<NetNames, AllocError>
    ensures { IfOk result (λ names. FindsNets db.now names.nets) }
{
    let mut nets = no_nets(alloc);
    add_lists(&mut nets, alloc, db, db.buffers(), &buffers.lists)?;
    add_lists(&mut nets, alloc, db, db.routings(), &routings.lists)?;
    Ok(nets)
}
