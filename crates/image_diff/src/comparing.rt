// Two images compared.
ghost use Rattle.std.specs.Prelude.{◌≡◌, ◌++◌, IfOk, IfErr, OnOk, None};
ghost use Rattle.text_lines.specs.Written.{text_of};
ghost use Rattle.ice_image.specs.Either.{configuration_of};
ghost use Rattle.chipdb_reader.specs.Kept.{database_in};
ghost use Rattle.image_diff.specs.Differences.{changed_lines, diff_fault_of, differences, Tells};

use crate::extras::append_extras;
use crate::fault::DiffFault;
use crate::rams::append_rams;
use crate::settings::append_settings;
use crate::tiles::append_tiles;
use chipdb_reader::ChipDb;
use ice_image::AnyImage;
use std::alloc::{AllocError, Global};

/// What two images of one device differ in, as text: the settings, each tile in which a bit differs with what its bits mean in one of
/// the images alone, the extra bits, and each word of a RAM that differs. `-` stands before what the first image alone has, `+` before
/// what the second alone has. Comments are not compared, and the text is empty if nothing else differs.
///
/// # Errors
/// `Database` if the database is for another device than the first image, or else `Images` if the second image is. `Memory` if memory is
/// out; it may come in place of any other answer.
///
/// # Example
/// ```ignore
/// use image_diff::differences;
///
/// let text = differences(alloc, &db, &before, &after)?;
/// // .logic_tile 1 1
/// // -LC_0 1010101010101010 0000
/// // +LC_0 1100110011001100 0000
/// // ram 3 1 word 7: -0000 +00ff
/// ```
#[tactic(auto, unfolding(crate::specs::Differences::differences, crate::specs::Differences::diff_fault_of))]
pub fn differences(
    alloc: Global,
    db: &ChipDb,
    first: &AnyImage,
    second: &AnyImage,
) -> Result<Vec<u8>, DiffFault>
    ensures text { IfOk result (λ text. text.items ≡ differences (database_in db.now) (configuration_of first.now) (configuration_of second.now)) }
    ensures sound { OnOk result (diff_fault_of (database_in db.now) (configuration_of first.now) (configuration_of second.now) ≡ None) }
    ensures refused { IfErr result (Tells (diff_fault_of (database_in db.now) (configuration_of first.now) (configuration_of second.now))) }
{
    if !db.device().is_same(first.device()) {
        return Err(DiffFault::Database);
    }
    if !first.device().is_same(second.device()) {
        return Err(DiffFault::Images);
    }
    Ok(text_of_changes(alloc, db, first, second)?)
}

/// The text for two images of the database's device.
#[tactic(auto, using(asc_text::proofs::Pieces::joined), unfolding(crate::specs::Differences::changed_lines))]
fn text_of_changes(
    alloc: Global,
    db: &ChipDb,
    first: &AnyImage,
    second: &AnyImage,
) -> Result<Vec<u8>, AllocError>
    requires first { db.now.chip.device ≡ (configuration_of first.now).layout.device }
    requires second { db.now.chip.device ≡ (configuration_of second.now).layout.device }
    ensures { IfOk result (λ text. text.items ≡ text_of (changed_lines (database_in db.now) (configuration_of first.now) (configuration_of second.now))) }
{
    let mut text = Vec::new(alloc);
    append_settings(&mut text, alloc, first.settings(), second.settings())?;
    append_tiles(&mut text, alloc, db, first, second)?;
    append_extras(&mut text, alloc, db, first, second)?;
    append_rams(&mut text, first, second)?;
    Ok(text)
}
