// All PLLs of an image.
ghost use Rattle.std.specs.Prelude.{◌≡◌, IfOk, IfErr, OnOk, None};
ghost use Rattle.std.specs.Option.{option_map};
ghost use Rattle.plane_map.specs.declared.tile.TileKind.TheVariants.{Io};
ghost use Rattle.ice_image.specs.Either.{configuration_of};
ghost use Rattle.chipdb_reader.specs.Fit.{IsFit};
ghost use Rattle.chipdb_reader.specs.Kept.{database_in};
ghost use Rattle.fabric_model.specs.Plls.{pll_sources, pll_tile};
ghost use Rattle.fabric_plls.specs.Tiles.{place_of, IsCause};

use crate::fault::PllFault;
use crate::refused::first_refused;
use crate::sources::sources;
use crate::tile::{TilePlace, lesser};
use crate::unnamed::{first_on, first_unnamed};
use chipdb_reader::ChipDb;
use fabric_model::{PllSource, tiles_of_image};
use ice_image::AnyImage;
use plane_map::TileKind;
use std::alloc::{AllocError, Global};

/// The first tile for which the PLLs aren't taken, if pins of every kind are or if not.
///
/// # Errors
/// `AllocError` if memory is out, and for no other cause.
fn first_fault(
    alloc: Global,
    db: &ChipDb,
    image: &AnyImage,
    all_pins: bool,
) -> Result<Option<TilePlace>, AllocError>
    requires { IsFit (database_in db.now) }
    ensures { IfOk result (λ tile. option_map place_of tile ≡ pll_tile all_pins (database_in db.now) (configuration_of image.now)) }
{
    let tiles = tiles_of_image(alloc, image, TileKind::Io)?;
    if all_pins {
        let refused = first_refused(alloc, db, image)?;
        Ok(lesser(first_unnamed(db, image, &tiles), refused))
    } else {
        Ok(first_on(db, image, &tiles))
    }
}

/// The outputs of PLLs, if pins of every kind are taken.
#[tactic(auto, unfolding(fabric_model::specs::Plls::pll_sources))]
fn sources_if(
    alloc: Global,
    db: &ChipDb,
    image: &AnyImage,
    all_pins: bool,
) -> Result<Vec<PllSource>, AllocError>
    requires { IsFit (database_in db.now) }
    ensures { IfOk result (λ found. found.items ≡ pll_sources all_pins (database_in db.now) (configuration_of image.now)) }
{
    if all_pins {
        sources(alloc, db, image)
    } else {
        Ok(Vec::new(alloc))
    }
}

/// The outputs of the PLLs that are on, by PLL, with their pins and nets. There are none if not pins of every kind are taken: then `all_pins`
/// is false, and an image with a PLL isn't taken.
///
/// The database and the image are of one device.
///
/// # Errors
/// `PllFault::Pll` with the first tile for which the PLLs aren't taken. `PllFault::Memory` if memory is out, in place of any other answer.
pub fn plls(
    alloc: Global,
    db: &ChipDb,
    image: &AnyImage,
    all_pins: bool,
) -> Result<Vec<PllSource>, PllFault>
    requires { db.now.chip.device ≡ (configuration_of image.now).layout.device }
    ensures sources { IfOk result (λ found. found.items ≡ pll_sources all_pins (database_in db.now) (configuration_of image.now)) }
    ensures taken { OnOk result (pll_tile all_pins (database_in db.now) (configuration_of image.now) ≡ None) }
    ensures refused { IfErr result (IsCause (pll_tile all_pins (database_in db.now) (configuration_of image.now))) }
{
    prove!(db.device().is_same(image.device()));
    match first_fault(alloc, db, image, all_pins)? {
        Some(tile) => Err(PllFault::Pll {
            x: tile.x,
            y: tile.y,
        }),
        None => Ok(sources_if(alloc, db, image, all_pins)?),
    }
}
