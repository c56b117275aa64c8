// All RAMs of an image.
ghost use Rattle.std.specs.Prelude.{◌≡◌, ◌∷◌, [], All, IfOk, IfErr, OnOk, None, filter};
ghost use Rattle.std.specs.List.{flat_map};
ghost use Rattle.plane_map.specs.declared.tile.TileKind.TheVariants.{RamB};
ghost use Rattle.ice_image.specs.Either.{configuration_of};
ghost use Rattle.chipdb_reader.specs.Kept.{database_in};
ghost use Rattle.fabric_model.specs.Rams.{is_ram_used, ram_at, rams_of};
ghost use Rattle.fabric_model.specs.Faults.{rams_fault};
ghost use Rattle.fabric_model.specs.Links.{AreLinks};
ghost use Rattle.fabric_model.specs.TilesOfKind.{tiles_of};
ghost use Rattle.fabric_parts.specs.Rams.{HasRam};
ghost use Rattle.fabric_parts.specs.RamFaults.{IsCause};

use crate::ram::cascade::first_cascaded;
use crate::ram::fault::RamFault;
use crate::ram::ram::ram;
use crate::ram::used::used_rams;
use chipdb_reader::{ChipDb, TileXy8};
use fabric_model::{Links, RamCell, tiles_of_image};
use ice_image::AnyImage;
use plane_map::TileKind;
use std::alloc::{AllocError, Global};

/// Finds the RAMs that an image uses, ordered by row, then by column.
///
/// The database and the image are of one device, and the links are those that the image sets.
///
/// # Errors
/// `RamFault::Cascade` if a used RAM is cascaded: it tells the first one. `RamFault::Memory` if memory is out, in place of any other
/// answer.
pub fn rams(
    alloc: Global,
    db: &ChipDb,
    image: &AnyImage,
    links: &Links,
) -> Result<Vec<RamCell>, RamFault>
    requires device { db.now.chip.device ≡ (configuration_of image.now).layout.device }
    requires links { AreLinks (database_in db.now) (configuration_of image.now) links.now }
    ensures rams { IfOk result (λ rams. rams.items ≡ rams_of (database_in db.now) (configuration_of image.now)) }
    ensures taken { OnOk result (rams_fault (database_in db.now) (configuration_of image.now) ≡ None) }
    ensures refused { IfErr result (IsCause (rams_fault (database_in db.now) (configuration_of image.now))) }
{
    prove!(db.device().is_same(image.device()));
    let tiles = tiles_of_image(alloc, image, TileKind::RamB)?;
    let used = used_rams(alloc, db, image, links, &tiles)?;
    rams_at(alloc, db, image, &used)
}

/// The RAMs of used lower tiles.
fn rams_at(
    alloc: Global,
    db: &ChipDb,
    image: &AnyImage,
    used: &[TileXy8],
) -> Result<Vec<RamCell>, RamFault>
    requires all { used.now ≡ filter (λ tile. is_ram_used (database_in db.now) (configuration_of image.now) tile.x tile.y) (tiles_of (configuration_of image.now).layout.device RamB) }
    requires each { All (λ tile. HasRam image.now tile.x tile.y) used.now }
    ensures rams { IfOk result (λ rams. rams.items ≡ rams_of (database_in db.now) (configuration_of image.now)) }
    ensures taken { OnOk result (rams_fault (database_in db.now) (configuration_of image.now) ≡ None) }
    ensures refused { IfErr result (IsCause (rams_fault (database_in db.now) (configuration_of image.now))) }
{
    taken(db, image, used)?;
    Ok(cells(alloc, db, image, used)?)
}

/// Whether all used RAMs are taken, or the first cause why they aren't.
fn taken(db: &ChipDb, image: &AnyImage, used: &[TileXy8]) -> Result<(), RamFault>
    requires all { used.now ≡ filter (λ tile. is_ram_used (database_in db.now) (configuration_of image.now) tile.x tile.y) (tiles_of (configuration_of image.now).layout.device RamB) }
    requires each { All (λ tile. HasRam image.now tile.x tile.y) used.now }
    ensures taken { OnOk result (rams_fault (database_in db.now) (configuration_of image.now) ≡ None) }
    ensures refused { IfErr result (IsCause (rams_fault (database_in db.now) (configuration_of image.now))) }
{
    match first_cascaded(db, image, used) {
        Some(tile) => Err(RamFault::Cascade {
            x: tile.x,
            y: tile.y,
        }),
        None => Ok(()),
    }
}

/// The RAMs of lower tiles.
fn cells(
    alloc: Global,
    db: &ChipDb,
    image: &AnyImage,
    used: &[TileXy8],
) -> Result<Vec<RamCell>, AllocError>
    requires { All (λ tile. HasRam image.now tile.x tile.y) used.now }
    ensures { IfOk result (λ rams. rams.items ≡ flat_map (λ tile. ram_at (database_in db.now) (configuration_of image.now) tile.x tile.y ∷ []) used.now) }
{
    let mut rams = Vec::new(alloc);
    for tile in used {
        rams.push(ram(db, image, tile.x, tile.y))?;
    }
    Ok(rams)
}
