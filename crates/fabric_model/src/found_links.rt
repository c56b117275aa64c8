// Finds the links that an image sets.
ghost use Rattle.std.specs.Prelude.{◌≡◌, ◌↔◌, ℕ, ◌+◌, ◌*◌, length, map, IfOk, IfErr, OnOk};
ghost use Rattle.ice_image.specs.Either.{configuration_of};
ghost use Rattle.chipdb_reader.specs.Kept.{database_in};
ghost use Rattle.fabric_model.specs.Pins.{net_count};
ghost use Rattle.fabric_model.specs.Fabric.{joins_of};
ghost use Rattle.fabric_model.specs.Joins.{IsClassOf};
ghost use Rattle.fabric_model.specs.Links.{AreLinks, class_in};

use crate::classes::classes;
use crate::fault::LinkFault;
use crate::links_type::Links;
use crate::on::{OnLink, all_on, place_of};
use crate::reads::reads;
use crate::tiles::tiles_of_image;
use chipdb_reader::{ChipDb, TileXy8};
use ice_image::AnyImage;
use plane_map::TileKind;
use std::alloc::{AllocError, Global};

/// Finds the links of a database that an image sets, the classes of joined nets, and the nets that are read. If pins of every kind are taken,
/// there are inner nets after those of the database, each a class of its own.
///
/// # Errors
/// `LinkFault::Device` if the database is for another device than the image, and in no other case. `LinkFault::Memory` if memory is out.
pub fn links(
    alloc: Global,
    db: &ChipDb,
    image: &AnyImage,
    all_pins: bool,
) -> Result<Links, LinkFault>
    ensures nets { IfOk result (λ links. length links.classes ≡ net_count all_pins (database_in db.now) (configuration_of image.now)) }
    ensures links { IfOk result (AreLinks (database_in db.now) (configuration_of image.now)) }
    ensures classes { IfOk result (λ links. (net : ℕ) → IsClassOf (joins_of (database_in db.now) (configuration_of image.now)) net (class_in links net)) }
    ensures taken { OnOk result (db.now.chip.device ≡ (configuration_of image.now).layout.device) }
    ensures refused { IfErr result (λ fault. (fault ≡ LinkFault.Device) ↔ ¬ (db.now.chip.device ≡ (configuration_of image.now).layout.device)) }
{
    if db.device().is_same(image.device()) {
        Ok(found(alloc, db, image, all_pins)?)
    } else {
        Err(LinkFault::Device)
    }
}

/// Finds the links that an image sets, in a database for the image's device.
fn found(alloc: Global, db: &ChipDb, image: &AnyImage, all_pins: bool) -> Result<Links, AllocError>
    requires { db.now.chip.device ≡ (configuration_of image.now).layout.device }
    ensures nets { IfOk result (λ links. length links.classes ≡ net_count all_pins (database_in db.now) (configuration_of image.now)) }
    ensures links { IfOk result (AreLinks (database_in db.now) (configuration_of image.now)) }
{
    let buffers = all_on(alloc, db, image, db.buffers())?;
    let routings = all_on(alloc, db, image, db.routings())?;
    let nets = net_count(alloc, db, image, all_pins)?;
    let classes = classes(alloc, nets, &routings)?;
    let reads = reads(alloc, nets, &buffers, &routings)?;
    Ok(Links {
        buffers: places(alloc, &buffers)?,
        routings: places(alloc, &routings)?,
        classes,
        reads,
    })
}

/// The number of nets: those of the database, and two for each pin of an io tile if pins of every kind are taken.
fn net_count(
    alloc: Global,
    db: &ChipDb,
    image: &AnyImage,
    all_pins: bool,
) -> Result<u32, AllocError>
    ensures { IfOk result (λ count. count ≡ net_count all_pins (database_in db.now) (configuration_of image.now)) }
{
    if all_pins {
        let tiles = tiles_of_image(alloc, image, TileKind::Io)?;
        with_inner_nets(db.net_count(), &tiles)
    } else {
        Ok(db.net_count())
    }
}

/// A number of nets and two more for each pin of io tiles.
fn with_inner_nets(nets: u32, tiles: &[TileXy8]) -> Result<u32, AllocError>
    ensures { IfOk result (λ count. count ≡ nets + 4 * length tiles.now) }
{
    let inner = place_of(tiles.len())?.checked_mul(4).ok_or(AllocError)?;
    nets.checked_add(inner).ok_or(AllocError)
}

/// The indexes of links among the lines of their kind.
fn places(alloc: Global, links: &[OnLink]) -> Result<Vec<u32>, AllocError>
    ensures { IfOk result (λ places. places.items ≡ map (λ link. link.place) links.now) }
{
    let mut places = Vec::with_capacity(alloc, links.len())?;
    for link in links {
        places.push(link.place)?;
    }
    Ok(places)
}
