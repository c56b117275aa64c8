// The pins of all io tiles.
ghost use Rattle.std.specs.Prelude.{◌≡◌, ◌++◌, ◌∷◌, [], filter, All, IfOk, OnOk};
ghost use Rattle.plane_map.specs.declared.tile.TileKind.TheVariants.{Io};
ghost use Rattle.ice_image.specs.Either.{configuration_of};
ghost use Rattle.chipdb_reader.specs.Kept.{database_in};
ghost use Rattle.fabric_model.specs.Plls.{pll_sources};
ghost use Rattle.fabric_model.specs.Pins.{is_port, pin_with};
ghost use Rattle.fabric_model.specs.TilesOfKind.{HasTile, tiles_of};
ghost use Rattle.fabric_model.specs.BelongTogether.{BelongTogether};
ghost use Rattle.fabric_parts.specs.PinRecords.{pin_records, tile_pins, IsFoundPin};

use crate::io::pin::{NumberedPlace, pin};
use chipdb_reader::{ChipDb, TileXy8};
use fabric_model::{Links, Pin, PllSource, has_input};
use ice_image::AnyImage;
use std::alloc::{AllocError, Global};

/// The pins of the io tiles, ports or not, by tile and number.
///
/// # Errors
/// `AllocError` if memory is out, or if the numbers of inner nets need more than 32 bits.
pub(crate) fn pin_records(
    alloc: Global,
    db: &ChipDb,
    image: &AnyImage,
    links: &Links,
    all_pins: bool,
    sources: &[PllSource],
    tiles: &[TileXy8],
) -> Result<Vec<Pin>, AllocError>
    requires together { BelongTogether db.now image.now links.now }
    requires sources { sources.now ≡ pll_sources all_pins (database_in db.now) (configuration_of image.now) }
    requires all { tiles.now ≡ tiles_of (configuration_of image.now).layout.device Io }
    requires each { All (λ tile. HasTile image.now Io tile.x tile.y) tiles.now }
    ensures pins { IfOk result (λ pins. pins.items ≡ pin_records all_pins (database_in db.now) (configuration_of image.now)) }
    ensures found { IfOk result (λ pins. All (IsFoundPin all_pins db.now image.now) pins.items) }
{
    let mut pins = Vec::new(alloc);
    for (i, tile) in tiles.iter().enumerate() {
        append_pins(&mut pins, db, image, links, all_pins, sources, i, *tile)?;
    }
    Ok(pins)
}

/// Appends the two pins of a tile, which has the index `i` among the io tiles.
fn append_pins(
    pins: &mut Vec<Pin>,
    db: &ChipDb,
    image: &AnyImage,
    links: &Links,
    all_pins: bool,
    sources: &[PllSource],
    i: usize,
    tile: TileXy8,
) -> Result<(), AllocError>
    requires together { BelongTogether db.now image.now links.now }
    requires sources { sources.now ≡ pll_sources all_pins (database_in db.now) (configuration_of image.now) }
    requires tile { HasTile image.now Io tile.x tile.y }
    ensures { OnOk result (pins.new.items ≡ pins.old.items ++ tile_pins all_pins (database_in db.now) (configuration_of image.now) (i, tile)) }
{
    let first = i.checked_mul(2).ok_or(AllocError)?;
    append_pin(
        pins,
        db,
        image,
        links,
        all_pins,
        sources,
        place(first, tile, 0),
    )?;
    let second = first.checked_add(1).ok_or(AllocError)?;
    append_pin(
        pins,
        db,
        image,
        links,
        all_pins,
        sources,
        place(second, tile, 1),
    )
}

/// Pin `n` of a tile, with its number.
fn place(number: usize, tile: TileXy8, n: u8) -> NumberedPlace
    ensures number { result.number ≡ number }
    ensures x { result.x ≡ tile.x }
    ensures y { result.y ≡ tile.y }
    ensures n { result.n ≡ n }
{
    NumberedPlace {
        number,
        x: tile.x,
        y: tile.y,
        n,
    }
}

/// Appends the pin at a place.
fn append_pin(
    pins: &mut Vec<Pin>,
    db: &ChipDb,
    image: &AnyImage,
    links: &Links,
    all_pins: bool,
    sources: &[PllSource],
    place: NumberedPlace,
) -> Result<(), AllocError>
    requires together { BelongTogether db.now image.now links.now }
    requires sources { sources.now ≡ pll_sources all_pins (database_in db.now) (configuration_of image.now) }
    requires tile { HasTile image.now Io place.x place.y }
    ensures { OnOk result (pins.new.items ≡ pins.old.items ++ pin_with all_pins (database_in db.now) (configuration_of image.now) place.number place.x place.y place.n ∷ []) }
{
    pins.push(pin(db, image, links, all_pins, sources, place)?)?;
    Ok(())
}

/// Whether a pin is a port: it ever drives its pad, or is an input.
pub(crate) fn is_port(pin: Pin) -> bool
    ensures { result ≡ is_port pin }
{
    pin.drives() || has_input(pin)
}

/// The pins among these that are ports.
pub(crate) fn ports(alloc: Global, pins: &[Pin]) -> Result<Vec<Pin>, AllocError>
    ensures { IfOk result (λ ports. ports.items ≡ filter is_port pins.now) }
{
    let mut ports = Vec::new(alloc);
    for pin in pins {
        if is_port(*pin) {
            ports.push(*pin)?;
        }
    }
    Ok(ports)
}
