// The logic cells of a tile.
ghost use Rattle.std.specs.Prelude.{◌≡◌, ◌++◌, ◌<◌, All, get_or, None, OnOk};
ghost use Rattle.std.specs.List.{list_any};
ghost use Rattle.index_search.specs.Places.{gathered_below};
ghost use Rattle.ice_image.specs.Either.{configuration_of};
ghost use Rattle.chipdb_reader.specs.Fit.{IsBitIn};
ghost use Rattle.chipdb_reader.specs.Kept.{database_in};
ghost use Rattle.chipdb_reader.specs.Lookups.{function_place};
ghost use Rattle.fabric_model.specs.Cells.{cell_bits, cell_name};
ghost use Rattle.plane_map.specs.declared.tile.TileKind.TheVariants.{Logic};
ghost use Rattle.fabric_model.specs.On.{bits_at};
ghost use Rattle.image_explain.specs.Cells.{bits_at_place, places_of_cells};
ghost use Rattle.image_explain.specs.Inside.{IsTileAt};
ghost use Rattle.image_explain.specs.Items.{cell_item, cell_items, is_place};

use crate::item::Active;
use crate::places::function_at;
use crate::tile::TileAt;
use chipdb_reader::ChipDb;
use fabric_model::{cell_name, flags, is_one_set, lut};
use ice_image::AnyImage;
use plane_map::{RowCol, TileKind};
use std::alloc::AllocError;

/// The indexes of the eight logic cells among the functions of a database.
#[derive(Clone, Copy)]
pub(crate) struct Cells {
    places: [Option<usize>; 8],
}

impl Cells {
    /// The logic cells of a database.
    #[tactic(auto, unfolding(crate::specs::Cells::places_of_cells))]
    pub(crate) fn of(db: &ChipDb) -> Cells
        ensures { result.places ≡ places_of_cells (database_in db.now).functions }
    {
        Cells {
            places: [
                place_of_cell(db, 0),
                place_of_cell(db, 1),
                place_of_cell(db, 2),
                place_of_cell(db, 3),
                place_of_cell(db, 4),
                place_of_cell(db, 5),
                place_of_cell(db, 6),
                place_of_cell(db, 7),
            ],
        }
    }

    /// Whether the function at an index is a logic cell.
    pub(crate) fn has(&self, place: usize) -> bool
        ensures { result ≡ list_any (is_place place) self.now.places }
    {
        self.places.iter().any(|other| *other == Some(place))
    }

    /// The bits of cell `i`.
    pub(crate) fn bits<'a>(&self, db: &'a ChipDb, i: usize) -> &'a [RowCol]
        requires cell { i < 8 }
        ensures bits { result.now ≡ bits_at_place (database_in db.now).functions (get_or self.now.places i None) }
        ensures inside { All (IsBitIn 54) result.now }
    {
        match self.places[i] {
            None => &[],
            Some(place) => match function_at(db.functions(), place) {
                None => &[],
                Some(function) => db.bits(function.bits),
            },
        }
    }
}

/// The index of the first function that has the name of cell `i`.
fn place_of_cell(db: &ChipDb, i: u8) -> Option<usize>
    ensures { result ≡ function_place Logic (cell_name i) (database_in db.now).functions }
{
    db.function(TileKind::Logic, cell_name(i).bytes())
}

/// Adds the logic cells of a tile that have a set bit.
#[tactic(auto, unfolding(crate::specs::Items::cell_items))]
pub(crate) fn push_cells(
    items: &mut Vec<Active>,
    db: &ChipDb,
    image: &AnyImage,
    at: TileAt,
    cells: Cells,
) -> Result<(), AllocError>
    requires tile { IsTileAt (configuration_of image.now).layout.device at }
    requires cells { cells.places ≡ places_of_cells (database_in db.now).functions }
    ensures { OnOk result (items.new.items ≡ items.old.items ++ cell_items (database_in db.now) (configuration_of image.now) at.x at.y at.kind) }
{
    match at.kind {
        TileKind::Logic => push_logic_cells(items, db, image, at, cells),
        _ => Ok(()),
    }
}

/// Adds the logic cells of a logic tile that have a set bit.
#[tactic(auto, using(crate::proofs::Gathered::gathering), unfolding(index_search::specs::Places::gathered_below))]
fn push_logic_cells(
    items: &mut Vec<Active>,
    db: &ChipDb,
    image: &AnyImage,
    at: TileAt,
    cells: Cells,
) -> Result<(), AllocError>
    requires tile { IsTileAt (configuration_of image.now).layout.device at }
    requires kind { at.kind ≡ TileKind.Logic }
    requires cells { cells.places ≡ places_of_cells (database_in db.now).functions }
    ensures { OnOk result (items.new.items ≡ items.old.items ++ gathered_below 8 (λ i. cell_item i (cell_bits (database_in db.now) (configuration_of image.now) at.x at.y i))) }
{
    for i in 0..8 {
        let bits = cells.bits(db, usize::from(i));
        push_cell(items, image, at, i, bits)?;
    }
    Ok(())
}

/// Adds cell `i` of a tile, if one of its bits is set.
fn push_cell(
    items: &mut Vec<Active>,
    image: &AnyImage,
    at: TileAt,
    i: u8,
    bits: &[RowCol],
) -> Result<(), AllocError>
    requires tile { IsTileAt (configuration_of image.now).layout.device at }
    requires kind { at.kind ≡ TileKind.Logic }
    requires inside { All (IsBitIn 54) bits.now }
    ensures { OnOk result (items.new.items ≡ items.old.items ++ cell_item i (bits_at (configuration_of image.now) at.x at.y bits.now)) }
{
    if is_one_set(image, TileKind::Logic, at.x, at.y, bits) {
        items.push(Active::LogicCell {
            i,
            lut: lut(image, at.x, at.y, bits),
            flags: flags(image, at.x, at.y, bits),
        })?;
    }
    Ok(())
}
