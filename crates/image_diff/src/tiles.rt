// Tiles in which a bit differs.
ghost use Rattle.std.specs.Prelude.{◌≡◌, ◌<◌, ◌++◌, ◌∷◌, [], IfOk, OnOk, Some};
ghost use Rattle.index_search.specs.Places.{any_below, gathered_below};
ghost use Rattle.text_lines.specs.Written.{text_of};
ghost use Rattle.plane_map.specs.Layout.{columns_at, grid_width, kind_of};
ghost use Rattle.ice_image.specs.Bits.{tile_bit_of};
ghost use Rattle.ice_image.specs.Either.{configuration_of};
ghost use Rattle.asc_text.specs.Statements.{tile_keyword as keyword_of};
ghost use Rattle.asc_text.specs.Canonical.{grid_line};
ghost use Rattle.chipdb_reader.specs.Kept.{database_in};
ghost use Rattle.image_diff.specs.Differences.{all_tile_changes, changes_at, differ, is_other_tile, tile_changes};
ghost use Rattle.image_diff.specs.Inside.{has_other_tile};

use crate::lines::append_changes;
use asc_text::{append_grid_line, tile_keyword};
use chipdb_reader::ChipDb;
use ice_image::AnyImage;
use image_explain::Explainer;
use plane_map::{TileKind, kind_on};
use std::alloc::{AllocError, Global};

/// What explains the tiles of two images.
#[derive(Drop)]
pub(crate) struct Explainers {
    first: Explainer,
    second: Explainer,
}

ghost use Rattle.image_diff.specs.Inside.{ExplainsBoth};

impl Explainers {
    /// What explains the tiles of these images.
    pub(crate) fn of(
        alloc: Global,
        db: &ChipDb,
        first: &AnyImage,
        second: &AnyImage,
    ) -> Result<Explainers, AllocError>
        requires first { db.now.chip.device ≡ (configuration_of first.now).layout.device }
        requires second { db.now.chip.device ≡ (configuration_of second.now).layout.device }
        ensures { IfOk result (ExplainsBoth db.now (configuration_of first.now) (configuration_of second.now)) }
    {
        let first = Explainer::of(alloc, db, first)?;
        let second = Explainer::of(alloc, db, second)?;
        Ok(Explainers { first, second })
    }
}

/// Appends all tiles in which a bit differs, row by row of the grid. What explains tiles is looked up only if there is such a tile.
pub(crate) fn append_tiles(
    text: &mut Vec<u8>,
    alloc: Global,
    db: &ChipDb,
    first: &AnyImage,
    second: &AnyImage,
) -> Result<(), AllocError>
    requires first { db.now.chip.device ≡ (configuration_of first.now).layout.device }
    requires second { db.now.chip.device ≡ (configuration_of second.now).layout.device }
    ensures { OnOk result (text.new.items ≡ text.old.items ++ text_of (all_tile_changes (database_in db.now) (configuration_of first.now) (configuration_of second.now))) }
{
    if !has_other_tile(first, second) {
        return Ok(());
    }
    let explainers = Explainers::of(alloc, db, first, second)?;
    append_explained(text, alloc, db, first, second, &explainers)
}

/// Whether there is a tile in which a bit differs.
#[tactic(auto, unfolding(index_search::specs::Places::any_below))]
fn has_other_tile(first: &AnyImage, second: &AnyImage) -> bool
    requires { (configuration_of second.now).layout.device ≡ (configuration_of first.now).layout.device }
    ensures { result ≡ has_other_tile (configuration_of first.now) (configuration_of second.now) }
{
    for y in 0..first.device().rows() {
        if has_other_tile_in_row(first, second, y as u8) {
            return true;
        }
    }
    false
}

/// Whether there is such a tile in a row of the grid.
#[tactic(auto, unfolding(index_search::specs::Places::any_below))]
fn has_other_tile_in_row(first: &AnyImage, second: &AnyImage, y: u8) -> bool
    requires { (configuration_of second.now).layout.device ≡ (configuration_of first.now).layout.device }
    ensures { result ≡ any_below (grid_width (configuration_of first.now).layout.device) (λ x. is_other_tile (configuration_of first.now) (configuration_of second.now) x y) }
{
    for x in 0..first.device().columns() {
        if is_other_tile(first, second, x as u8, y) {
            return true;
        }
    }
    false
}

/// Appends these tiles, with what explains the tiles of both images.
#[tactic(auto, using(asc_text::proofs::Pieces::joined), unfolding(index_search::specs::Places::gathered_below, crate::specs::Differences::all_tile_changes))]
fn append_explained(
    text: &mut Vec<u8>,
    alloc: Global,
    db: &ChipDb,
    first: &AnyImage,
    second: &AnyImage,
    explainers: &Explainers,
) -> Result<(), AllocError>
    requires explains { ExplainsBoth db.now (configuration_of first.now) (configuration_of second.now) explainers.now }
    ensures { OnOk result (text.new.items ≡ text.old.items ++ text_of (all_tile_changes (database_in db.now) (configuration_of first.now) (configuration_of second.now))) }
{
    for y in 0..first.device().rows() {
        append_grid_row(text, alloc, db, first, second, explainers, y as u8)?;
    }
    Ok(())
}

/// Appends the tiles of one row of the grid in which a bit differs.
#[tactic(auto, using(asc_text::proofs::Pieces::joined), unfolding(index_search::specs::Places::gathered_below))]
fn append_grid_row(
    text: &mut Vec<u8>,
    alloc: Global,
    db: &ChipDb,
    first: &AnyImage,
    second: &AnyImage,
    explainers: &Explainers,
    y: u8,
) -> Result<(), AllocError>
    requires explains { ExplainsBoth db.now (configuration_of first.now) (configuration_of second.now) explainers.now }
    ensures { OnOk result (text.new.items ≡ text.old.items ++ text_of (gathered_below (grid_width (configuration_of first.now).layout.device) (λ x. changes_at (database_in db.now) (configuration_of first.now) (configuration_of second.now) x y (kind_of (configuration_of first.now).layout.device x y)))) }
{
    for x in 0..first.device().columns() {
        append_place(text, alloc, db, first, second, explainers, x as u8, y)?;
    }
    Ok(())
}

/// Appends the tile at (x, y), if there is one and a bit of it differs.
fn append_place(
    text: &mut Vec<u8>,
    alloc: Global,
    db: &ChipDb,
    first: &AnyImage,
    second: &AnyImage,
    explainers: &Explainers,
    x: u8,
    y: u8,
) -> Result<(), AllocError>
    requires explains { ExplainsBoth db.now (configuration_of first.now) (configuration_of second.now) explainers.now }
    ensures { OnOk result (text.new.items ≡ text.old.items ++ text_of (changes_at (database_in db.now) (configuration_of first.now) (configuration_of second.now) x y (kind_of (configuration_of first.now).layout.device x y))) }
{
    match kind_on(first.device(), u32::from(x), u32::from(y)) {
        None => Ok(()),
        Some(kind) => {
            if is_other_tile(first, second, x, y) {
                append_tile(text, alloc, db, first, second, explainers, kind, x, y)
            } else {
                Ok(())
            }
        }
    }
}

/// Whether a bit of a tile differs.
#[tactic(auto, unfolding(index_search::specs::Places::any_below))]
fn is_other_tile(first: &AnyImage, second: &AnyImage, x: u8, y: u8) -> bool
    requires { (configuration_of second.now).layout.device ≡ (configuration_of first.now).layout.device }
    ensures { result ≡ is_other_tile (configuration_of first.now) (configuration_of second.now) x y }
{
    for row in 0..16 {
        if is_other_row(first, second, x, y, row) {
            return true;
        }
    }
    false
}

/// Whether a bit of a row of a tile differs.
fn is_other_row(first: &AnyImage, second: &AnyImage, x: u8, y: u8, row: u8) -> bool
    requires device { (configuration_of second.now).layout.device ≡ (configuration_of first.now).layout.device }
    requires row { row < 16 }
    ensures { result ≡ any_below (columns_at (configuration_of first.now).layout.device x y) (λ col. differ (tile_bit_of (configuration_of first.now) x y row col) (tile_bit_of (configuration_of second.now) x y row col)) }
{
    first.tile_row(x, y, row) != second.tile_row(x, y, row)
}

/// Appends a tile: its statement, and the lines that one image alone has.
fn append_tile(
    text: &mut Vec<u8>,
    alloc: Global,
    db: &ChipDb,
    first: &AnyImage,
    second: &AnyImage,
    explainers: &Explainers,
    kind: TileKind,
    x: u8,
    y: u8,
) -> Result<(), AllocError>
    requires explains { ExplainsBoth db.now (configuration_of first.now) (configuration_of second.now) explainers.now }
    requires tile { kind_of (configuration_of first.now).layout.device x y ≡ Some kind }
    ensures { OnOk result (text.new.items ≡ text.old.items ++ text_of (tile_changes (database_in db.now) (configuration_of first.now) (configuration_of second.now) x y kind)) }
{
    append_grid_line(text, tile_keyword(kind), x, y)?;
    let first = explainers.first.lines(alloc, db, first, kind, x, y)?;
    let second = explainers.second.lines(alloc, db, second, kind, x, y)?;
    append_changes(text, alloc, &first, &second)
}
