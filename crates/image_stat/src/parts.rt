// The parts of a device that an image uses.
ghost use Rattle.std.specs.Prelude.{◌≡◌, IfOk, IfErr, OnOk, None};
ghost use Rattle.ice_image.specs.Either.{configuration_of};
ghost use Rattle.chipdb_reader.specs.Kept.{database_in};
ghost use Rattle.fabric_model.specs.Cells.{cells_of};
ghost use Rattle.fabric_model.specs.Links.{AreLinks};
ghost use Rattle.fabric_model.specs.Pins.{pins_of, globals_of};
ghost use Rattle.fabric_model.specs.Plls.{pll_sources};
ghost use Rattle.fabric_model.specs.Rams.{rams_of};
ghost use Rattle.image_stat.specs.Faults.{IsCause, stat_fault};

use crate::fault::StatFault;
use chipdb_reader::ChipDb;
use fabric_model::{Links, PllSource, RamCell, links};
use fabric_parts::{Cells, PinSet, cells, pins, rams};
use fabric_plls::plls;
use ice_image::AnyImage;
use std::alloc::Global;

/// What an image uses of its device, by the names of a chip database.
#[derive(Drop)]
pub struct UsedParts {
    /// The links that are on.
    pub links: Links,
    /// The outputs of the PLLs that are on, by PLL.
    pub sources: Vec<PllSource>,
    /// The pins that are ports, and the global nets.
    pub pins: PinSet,
    /// The used RAMs, by tile.
    pub rams: Vec<RamCell>,
    /// The used logic cells, by tile and index.
    pub cells: Cells,
}

/// Finds what an image uses of its device, by the names of a chip database. `all_pins` says whether pins of every kind are taken.
///
/// # Errors
/// `Device` if the database is for another device; else `Plls` with the first tile whose PLL is refused; else `Pins` with the first pin
/// that is refused (one whose type isn't supported); else `Rams` with the first RAM that is refused (a cascaded one). `Memory` if memory is
/// out; it may come in place of any other answer.
pub fn used_parts(
    alloc: Global,
    db: &ChipDb,
    image: &AnyImage,
    all_pins: bool,
) -> Result<UsedParts, StatFault>
    ensures device { OnOk result (db.now.chip.device ≡ (configuration_of image.now).layout.device) }
    ensures links { IfOk result (λ parts. AreLinks (database_in db.now) (configuration_of image.now) parts.links) }
    ensures sources { IfOk result (λ parts. parts.sources.items ≡ pll_sources all_pins (database_in db.now) (configuration_of image.now)) }
    ensures pins { IfOk result (λ parts. parts.pins.pins.items ≡ pins_of all_pins (database_in db.now) (configuration_of image.now)) }
    ensures globals { IfOk result (λ parts. parts.pins.globals.items ≡ globals_of all_pins (database_in db.now) (configuration_of image.now)) }
    ensures rams { IfOk result (λ parts. parts.rams.items ≡ rams_of (database_in db.now) (configuration_of image.now)) }
    ensures cells { IfOk result (λ parts. parts.cells.lcs.items ≡ cells_of (database_in db.now) (configuration_of image.now)) }
    ensures taken { OnOk result (stat_fault all_pins (database_in db.now) (configuration_of image.now) ≡ None) }
    ensures refused { IfErr result (IsCause (stat_fault all_pins (database_in db.now) (configuration_of image.now))) }
{
    let links = links(alloc, db, image, all_pins)?;
    let sources = plls(alloc, db, image, all_pins)?;
    let pins = pins(alloc, db, image, &links, all_pins, &sources)?;
    let rams = rams(alloc, db, image, &links)?;
    let cells = cells(alloc, db, image)?;
    Ok(UsedParts {
        links,
        sources,
        pins,
        rams,
        cells,
    })
}
