// Counts what an image uses of its device.
ghost use Rattle.std.specs.Prelude.{◌≡◌, IfOk, IfErr, OnOk, None};
ghost use Rattle.ice_image.specs.Either.{configuration_of};
ghost use Rattle.chipdb_reader.specs.Kept.{database_in};
ghost use Rattle.image_stat.specs.Counts.{counts_of, stat_text};
ghost use Rattle.image_stat.specs.Faults.{IsCause, stat_fault};

use crate::bits::set_bits;
use crate::cells::{carries, flops};
use crate::counts::{Counts, text_of};
use crate::fault::StatFault;
use crate::globals::globals;
use crate::parts::used_parts;
use chipdb_reader::ChipDb;
use ice_image::AnyImage;
use std::alloc::Global;

/// Counts what an image uses of its device, by the names of a chip database. The answer is a text of ten lines, each a word, a space and a
/// number. `all_pins` says whether pins of every kind are taken.
///
/// # Errors
/// `Device` if the database is for another device; else `Plls` with the first tile whose PLL is refused; else `Pins` with the first pin
/// that is refused (one whose type isn't supported); else `Rams` with the first RAM that is refused (a cascaded one). `Memory` if memory is
/// out; it may come in place of any other answer.
///
/// # Example
/// ```ignore
/// use image_stat::stat;
///
/// let text = stat(alloc, &db, &image, false)?; // `db` is a `ChipDb`, and `image` an `AnyImage`
/// // luts 1
/// // flops 0
/// // carries 0
/// // ...
/// ```
pub fn stat(
    alloc: Global,
    db: &ChipDb,
    image: &AnyImage,
    all_pins: bool,
) -> Result<Vec<u8>, StatFault>
    ensures text { IfOk result (λ text. text.items ≡ stat_text (counts_of all_pins (database_in db.now) (configuration_of image.now))) }
    ensures taken { OnOk result (stat_fault all_pins (database_in db.now) (configuration_of image.now) ≡ None) }
    ensures refused { IfErr result (IsCause (stat_fault all_pins (database_in db.now) (configuration_of image.now))) }
{
    let counts = counts(alloc, db, image, all_pins)?;
    Ok(text_of(alloc, &counts)?)
}

/// Counts what an image uses, and checks it first.
fn counts(alloc: Global, db: &ChipDb, image: &AnyImage, all_pins: bool) -> Result<Counts, StatFault>
    ensures counts { IfOk result (λ counts. counts ≡ counts_of all_pins (database_in db.now) (configuration_of image.now)) }
    ensures taken { OnOk result (stat_fault all_pins (database_in db.now) (configuration_of image.now) ≡ None) }
    ensures refused { IfErr result (IsCause (stat_fault all_pins (database_in db.now) (configuration_of image.now))) }
{
    let parts = used_parts(alloc, db, image, all_pins)?;
    let extras = image.extra_bits(alloc)?;
    Ok(Counts {
        luts: parts.cells.lcs.len(),
        flops: flops(&parts.cells.lcs),
        carries: carries(&parts.cells.lcs),
        rams: parts.rams.len(),
        pins: parts.pins.pins.len(),
        globals: globals(&parts.pins.globals),
        buffers: parts.links.buffers().len(),
        routings: parts.links.routings().len(),
        bits: set_bits(alloc, image)?,
        extra: extras.len(),
    })
}
