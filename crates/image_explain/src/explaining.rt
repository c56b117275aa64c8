// A configuration explained as text.
ghost use Rattle.std.specs.Prelude.{◌≡◌, ◌++◌, ◌∷◌, [], IfOk, IfErr, OnOk, None};
ghost use Rattle.text_lines.specs.Written.{text_of};
ghost use Rattle.index_search.specs.Places.{gathered_below};
ghost use Rattle.plane_map.specs.Layout.{grid_width, kind_of};
ghost use Rattle.ice_image.specs.Either.{configuration_of};
ghost use Rattle.plane_map.specs.DeviceWords.{device_word};
ghost use Rattle.asc_text.specs.Statements.{device_keyword};
ghost use Rattle.asc_text.specs.Canonical.{with_word};
ghost use Rattle.chipdb_reader.specs.Kept.{database_in};
ghost use Rattle.image_explain.specs.Explained.{all_tile_lines, explain_fault_of, explained, lines_of_kind, set_tile_lines, tile_fault, tile_lines, Tells};
ghost use Rattle.image_explain.specs.Inside.{IsTileAt};
ghost use Rattle.image_explain.specs.Known.{Explains};

use crate::explainer::Explainer;
use crate::extras::append_extras;
use crate::fault::ExplainFault;
use crate::lines::append_tile;
use crate::names::{add_items, no_nets};
use crate::tile::{TileAt, active};
use crate::unknown::is_set_tile;
use asc_text::TileXy;
use chipdb_reader::ChipDb;
use ice_image::AnyImage;
use plane_map::{DeviceName, kind_on};
use std::alloc::{AllocError, Global};

/// Explains an image by a chip database, as text: each tile with a set bit, and then the extra bits that are set. With `only`, just that
/// tile.
///
/// # Errors
/// `Device` if the database is for another device than the image. `NoTile` if `only` is given and there is no tile there. `Memory` if
/// memory is out; it may come in place of any other answer.
///
/// # Example
/// ```ignore
/// use image_explain::{TileXy, explain};
///
/// let all = explain(alloc, &db, &image, None)?;
/// let one = explain(alloc, &db, &image, Some(TileXy { x: 1, y: 1 }))?;
/// // the text of `one`:
/// // .device 1k
/// // .logic_tile 1 1
/// // LC_0 1010101010101010 0000
/// // buffer #0 lutff_0/in_0
/// ```
#[tactic(auto, unfolding(crate::specs::Explained::explained, crate::specs::Explained::explain_fault_of))]
pub fn explain(
    alloc: Global,
    db: &ChipDb,
    image: &AnyImage,
    only: Option<TileXy>,
) -> Result<Vec<u8>, ExplainFault>
    ensures text { IfOk result (λ text. text.items ≡ explained (database_in db.now) (configuration_of image.now) only) }
    ensures sound { OnOk result (explain_fault_of (database_in db.now) (configuration_of image.now) only ≡ None) }
    ensures refused { IfErr result (Tells (explain_fault_of (database_in db.now) (configuration_of image.now) only)) }
{
    if !db.device().is_same(image.device()) {
        return Err(ExplainFault::Device);
    }
    match only {
        None => Ok(text_of_all(alloc, db, image)?),
        Some(only) => explain_only(alloc, db, image, only),
    }
}

/// The text that explains one tile.
fn explain_only(
    alloc: Global,
    db: &ChipDb,
    image: &AnyImage,
    only: TileXy,
) -> Result<Vec<u8>, ExplainFault>
    requires device { db.now.chip.device ≡ (configuration_of image.now).layout.device }
    ensures text { IfOk result (λ text. text.items ≡ text_of (with_word device_keyword (device_word (configuration_of image.now).layout.device)
        ∷ lines_of_kind (database_in db.now) (configuration_of image.now) only.x only.y (kind_of (configuration_of image.now).layout.device only.x only.y))) }
    ensures sound { OnOk result (tile_fault only.x only.y (kind_of (configuration_of image.now).layout.device only.x only.y) ≡ None) }
    ensures refused { IfErr result (Tells (tile_fault only.x only.y (kind_of (configuration_of image.now).layout.device only.x only.y))) }
{
    match kind_on(image.device(), only.x, only.y) {
        None => Err(ExplainFault::NoTile {
            x: only.x,
            y: only.y,
        }),
        Some(kind) => {
            let at = TileAt {
                kind,
                x: only.x as u8,
                y: only.y as u8,
            };
            Ok(text_of_tile(alloc, db, image, at)?)
        }
    }
}

/// The text of one tile.
fn text_of_tile(
    alloc: Global,
    db: &ChipDb,
    image: &AnyImage,
    at: TileAt,
) -> Result<Vec<u8>, AllocError>
    requires device { db.now.chip.device ≡ (configuration_of image.now).layout.device }
    requires tile { IsTileAt (configuration_of image.now).layout.device at }
    ensures { IfOk result (λ text. text.items ≡ text_of (with_word device_keyword (device_word (configuration_of image.now).layout.device) ∷ tile_lines (database_in db.now) (configuration_of image.now) at.x at.y at.kind)) }
{
    let mut text = Vec::new(alloc);
    append_device(&mut text, image.device())?;
    let items = active(alloc, db, image, at.x, at.y)?;
    let mut nets = no_nets(alloc);
    add_items(&mut nets, alloc, db, &items)?;
    append_tile(&mut text, db, &nets, at, &items)?;
    Ok(text)
}

/// The text of all tiles with a set bit, and of the extra bits.
fn text_of_all(alloc: Global, db: &ChipDb, image: &AnyImage) -> Result<Vec<u8>, AllocError>
    requires device { db.now.chip.device ≡ (configuration_of image.now).layout.device }
    ensures { IfOk result (λ text. text.items ≡ explained (database_in db.now) (configuration_of image.now) None) }
{
    let explainer = Explainer::of(alloc, db, image)?;
    let mut text = Vec::new(alloc);
    append_device(&mut text, image.device())?;
    append_tiles(&mut text, alloc, db, image, &explainer)?;
    append_extras(&mut text, alloc, db, image)?;
    Ok(text)
}

/// Appends the line of the device.
#[tactic(auto, unfolding(text_lines::specs::Written::text_of))]
fn append_device(text: &mut Vec<u8>, device: DeviceName) -> Result<(), AllocError>
    ensures { OnOk result (text.new.items ≡ text.old.items ++ text_of (with_word device_keyword (device_word device) ∷ [])) }
{
    match device {
        DeviceName::Lp384 => text.extend_from_slice(b".device 384\n")?,
        DeviceName::Hx1k => text.extend_from_slice(b".device 1k\n")?,
        DeviceName::Hx8k => text.extend_from_slice(b".device 8k\n")?,
    }
    Ok(())
}

/// Appends all tiles with a set bit, row by row of the grid.
#[tactic(auto, using(asc_text::proofs::Pieces::joined), unfolding(index_search::specs::Places::gathered_below))]
fn append_tiles(
    text: &mut Vec<u8>,
    alloc: Global,
    db: &ChipDb,
    image: &AnyImage,
    explainer: &Explainer,
) -> Result<(), AllocError>
    requires device { db.now.chip.device ≡ (configuration_of image.now).layout.device }
    requires explains { Explains db.now (configuration_of image.now) explainer.now }
    ensures { OnOk result (text.new.items ≡ text.old.items ++ text_of (all_tile_lines (database_in db.now) (configuration_of image.now))) }
{
    for y in 0..image.device().rows() {
        append_grid_row(text, alloc, db, image, explainer, y as u8)?;
    }
    Ok(())
}

/// Appends the tiles of one row of the grid that have a set bit.
#[tactic(auto, using(asc_text::proofs::Pieces::joined), unfolding(index_search::specs::Places::gathered_below))]
fn append_grid_row(
    text: &mut Vec<u8>,
    alloc: Global,
    db: &ChipDb,
    image: &AnyImage,
    explainer: &Explainer,
    y: u8,
) -> Result<(), AllocError>
    requires device { db.now.chip.device ≡ (configuration_of image.now).layout.device }
    requires explains { Explains db.now (configuration_of image.now) explainer.now }
    ensures { OnOk result (text.new.items ≡ text.old.items ++ text_of (gathered_below (grid_width (configuration_of image.now).layout.device) (λ x. set_tile_lines (database_in db.now) (configuration_of image.now) x y (kind_of (configuration_of image.now).layout.device x y)))) }
{
    for x in 0..image.device().columns() {
        append_place(text, alloc, db, image, explainer, x as u8, y)?;
    }
    Ok(())
}

/// Appends the tile at (x, y), if there is one and it has a set bit.
fn append_place(
    text: &mut Vec<u8>,
    alloc: Global,
    db: &ChipDb,
    image: &AnyImage,
    explainer: &Explainer,
    x: u8,
    y: u8,
) -> Result<(), AllocError>
    requires device { db.now.chip.device ≡ (configuration_of image.now).layout.device }
    requires explains { Explains db.now (configuration_of image.now) explainer.now }
    ensures { OnOk result (text.new.items ≡ text.old.items ++ text_of (set_tile_lines (database_in db.now) (configuration_of image.now) x y (kind_of (configuration_of image.now).layout.device x y))) }
{
    match kind_on(image.device(), u32::from(x), u32::from(y)) {
        None => Ok(()),
        Some(kind) => {
            let at = TileAt { kind, x, y };
            if is_set_tile(image, at) {
                append_known(text, alloc, db, image, explainer, at)
            } else {
                Ok(())
            }
        }
    }
}

/// Appends a tile.
fn append_known(
    text: &mut Vec<u8>,
    alloc: Global,
    db: &ChipDb,
    image: &AnyImage,
    explainer: &Explainer,
    at: TileAt,
) -> Result<(), AllocError>
    requires device { db.now.chip.device ≡ (configuration_of image.now).layout.device }
    requires tile { IsTileAt (configuration_of image.now).layout.device at }
    requires explains { Explains db.now (configuration_of image.now) explainer.now }
    ensures { OnOk result (text.new.items ≡ text.old.items ++ text_of (tile_lines (database_in db.now) (configuration_of image.now) at.x at.y at.kind)) }
{
    let items = explainer.items(alloc, db, image, at)?;
    append_tile(text, db, &explainer.nets, at, &items)
}
