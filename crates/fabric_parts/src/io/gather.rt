// All pins of an image.
ghost use Rattle.std.specs.Prelude.{◌≡◌, [], All, IfOk, IfErr, OnOk};
ghost use Rattle.plane_map.specs.declared.tile.TileKind.TheVariants.{Io};
ghost use Rattle.ice_image.specs.Either.{configuration_of};
ghost use Rattle.chipdb_reader.specs.Kept.{database_in};
ghost use Rattle.fabric_model.specs.Pins.{pins_of, globals_of};
ghost use Rattle.fabric_model.specs.Plls.{pll_sources};
ghost use Rattle.fabric_model.specs.PllPorts.{pll_ports};
ghost use Rattle.fabric_model.specs.Faults.{pin_faults};
ghost use Rattle.fabric_model.specs.Tiles.{first_of};
ghost use Rattle.fabric_model.specs.Links.{AreLinks};
ghost use Rattle.fabric_model.specs.TilesOfKind.{HasTile, tiles_of};
ghost use Rattle.fabric_model.specs.BelongTogether.{BelongTogether};
ghost use Rattle.fabric_parts.specs.PinFaults.{IsCause};
ghost use Rattle.fabric_parts.specs.PinRecords.{pin_records, IsFoundPin};

use crate::io::fault::PinFault;
use crate::io::globals::globals;
use crate::io::pin::PinSet;
use crate::io::plls::pll_ports;
use crate::io::records::{pin_records, ports};
use crate::io::refused::first_refused;
use chipdb_reader::{ChipDb, TileXy8};
use fabric_model::{Links, Pin, PllSource, tiles_of_image};
use ice_image::AnyImage;
use plane_map::TileKind;
use std::alloc::Global;

/// Finds the pins of an image that are ports, the outputs of PLLs that are, and its global nets. `all_pins` says whether pins of every kind
/// are taken; these have inner nets after the nets of the database. `sources` are all outputs of the PLLs that are on.
///
/// The database and the image are of one device, and the links are those that the image sets.
///
/// # Errors
/// `PinFault::PinMode` with the first pin that isn't taken. `PinFault::Memory` if memory is out or the numbers of inner nets need more than
/// 32 bits, in place of any other answer.
pub fn pins(
    alloc: Global,
    db: &ChipDb,
    image: &AnyImage,
    links: &Links,
    all_pins: bool,
    sources: &[PllSource],
) -> Result<PinSet, PinFault>
    requires device { db.now.chip.device ≡ (configuration_of image.now).layout.device }
    requires links { AreLinks (database_in db.now) (configuration_of image.now) links.now }
    requires sources { sources.now ≡ pll_sources all_pins (database_in db.now) (configuration_of image.now) }
    ensures pins { IfOk result (λ set. set.pins.items ≡ pins_of all_pins (database_in db.now) (configuration_of image.now)) }
    ensures placed { IfOk result (λ set. All (λ pin. HasTile image.now Io pin.x pin.y) set.pins.items) }
    ensures plls { IfOk result (λ set. set.plls.items ≡ pll_ports all_pins (database_in db.now) (configuration_of image.now)) }
    ensures globals { IfOk result (λ set. set.globals.items ≡ globals_of all_pins (database_in db.now) (configuration_of image.now)) }
    ensures taken { OnOk result (pin_faults all_pins (database_in db.now) (configuration_of image.now) ≡ []) }
    ensures refused { IfErr result (IsCause (first_of (pin_faults all_pins (database_in db.now) (configuration_of image.now)))) }
{
    prove!(db.device().is_same(image.device()));
    let tiles = tiles_of_image(alloc, image, TileKind::Io)?;
    pins_in(alloc, db, image, links, all_pins, sources, &tiles)
}

/// Finds the pins in the io tiles of the image.
fn pins_in(
    alloc: Global,
    db: &ChipDb,
    image: &AnyImage,
    links: &Links,
    all_pins: bool,
    sources: &[PllSource],
    tiles: &[TileXy8],
) -> Result<PinSet, PinFault>
    requires together { BelongTogether db.now image.now links.now }
    requires sources { sources.now ≡ pll_sources all_pins (database_in db.now) (configuration_of image.now) }
    requires all { tiles.now ≡ tiles_of (configuration_of image.now).layout.device Io }
    requires each { All (λ tile. HasTile image.now Io tile.x tile.y) tiles.now }
    ensures pins { IfOk result (λ set. set.pins.items ≡ pins_of all_pins (database_in db.now) (configuration_of image.now)) }
    ensures placed { IfOk result (λ set. All (λ pin. HasTile image.now Io pin.x pin.y) set.pins.items) }
    ensures plls { IfOk result (λ set. set.plls.items ≡ pll_ports all_pins (database_in db.now) (configuration_of image.now)) }
    ensures globals { IfOk result (λ set. set.globals.items ≡ globals_of all_pins (database_in db.now) (configuration_of image.now)) }
    ensures taken { OnOk result (pin_faults all_pins (database_in db.now) (configuration_of image.now) ≡ []) }
    ensures refused { IfErr result (IsCause (first_of (pin_faults all_pins (database_in db.now) (configuration_of image.now)))) }
{
    let pins = pin_records(alloc, db, image, links, all_pins, sources, tiles)?;
    taken(db, image, links, all_pins, &pins)?;
    Ok(PinSet {
        pins: ports(alloc, &pins)?,
        plls: pll_ports(alloc, db, image, links, sources)?,
        globals: globals(alloc, db, image, sources)?,
    })
}

/// Whether all pins are taken, or the first that isn't.
fn taken(
    db: &ChipDb,
    image: &AnyImage,
    links: &Links,
    all_pins: bool,
    pins: &[Pin],
) -> Result<(), PinFault>
    requires together { BelongTogether db.now image.now links.now }
    requires pins { pins.now ≡ pin_records all_pins (database_in db.now) (configuration_of image.now) }
    requires found { All (IsFoundPin all_pins db.now image.now) pins.now }
    ensures taken { OnOk result (pin_faults all_pins (database_in db.now) (configuration_of image.now) ≡ []) }
    ensures refused { IfErr result (IsCause (first_of (pin_faults all_pins (database_in db.now) (configuration_of image.now)))) }
{
    match first_refused(db, image, links, all_pins, pins) {
        Some(pin) => Err(PinFault::PinMode {
            x: pin.x,
            y: pin.y,
            pio: pin.n,
            pintype: pin.pintype,
        }),
        None => Ok(()),
    }
}
