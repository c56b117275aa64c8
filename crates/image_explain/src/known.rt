// The bits of a tile that are explained.
ghost use Rattle.std.specs.Prelude.{◌≡◌, ◌<◌, ◌||◌, All, length, slice_get};
ghost use Rattle.std.specs.List.{list_any};
ghost use Rattle.index_search.specs.Places.{any_below};
ghost use Rattle.bit_plane.specs.Rows.{IsGrid};
ghost use Rattle.bit_plane.specs.BitList.{word_bits};
ghost use Rattle.chipdb_reader.specs.Fit.{IsBitIn, IsLink};
ghost use Rattle.chipdb_reader.specs.Kept.{database_in, link_lines};
ghost use Rattle.fabric_model.specs.Cells.{cell_places};
ghost use Rattle.image_explain.specs.Cells.{places_of_cells};
ghost use Rattle.image_explain.specs.Inside.{Adds, Knows};
ghost use Rattle.image_explain.specs.Items.{is_bit, is_in_cells, is_in_function, is_one_in, is_one_of};

use crate::cells::Cells;
use crate::places::{function_at, link_at};
use bit_plane::Tile;
use chipdb_reader::{ChipDb, LinkLine};
use plane_map::{RowCol, TileKind};

/// The bits of a tile's logic cells, of the functions at these indexes, and those that the links at these indexes need to be 1.
pub(crate) fn known_bits(
    db: &ChipDb,
    kind: TileKind,
    cells: Cells,
    functions: &[usize],
    buffers: &[usize],
    routings: &[usize],
) -> Tile<54>
    requires { cells.places ≡ places_of_cells (database_in db.now).functions }
    ensures { Knows (λ row col. is_in_cells kind (database_in db.now) row col
        || list_any (λ place. is_in_function row col (slice_get (database_in db.now).functions place)) functions.now
        || list_any (λ place. is_one_in row col (slice_get (database_in db.now).buffers place)) buffers.now
        || list_any (λ place. is_one_in row col (slice_get (database_in db.now).routings place)) routings.now) result }
{
    let mut known = cell_bits(db, kind, cells);
    add_functions(&mut known, db, functions);
    add_links(&mut known, db, db.buffers(), buffers);
    add_links(&mut known, db, db.routings(), routings);
    known
}

/// The bits of a tile's logic cells; none if it isn't a logic tile.
fn cell_bits(db: &ChipDb, kind: TileKind, cells: Cells) -> Tile<54>
    requires { cells.places ≡ places_of_cells (database_in db.now).functions }
    ensures { Knows (is_in_cells kind (database_in db.now)) result }
{
    match kind {
        TileKind::Logic => all_cell_bits(db, cells),
        _ => Tile::new(),
    }
}

/// The bits of all eight logic cells.
fn all_cell_bits(db: &ChipDb, cells: Cells) -> Tile<54>
    requires { cells.places ≡ places_of_cells (database_in db.now).functions }
    ensures { Knows (λ row col. any_below 8 (λ i. list_any (is_bit row col) (cell_places (database_in db.now) i))) result }
{
    let mut known = Tile::new();
    for i in 0..8 {
        add_bits(&mut known, cells.bits(db, i));
    }
    known
}

/// Adds the bits of the functions at these indexes.
fn add_functions(known: &mut Tile<54>, db: &ChipDb, places: &[usize])
    requires { IsGrid 54 16 known.old }
    ensures { Adds (λ row col. list_any (λ place. is_in_function row col (slice_get (database_in db.now).functions place)) places.now) known.old known.new }
{
    for place in places {
        add_function(known, db, *place);
    }
}

/// Adds the bits of the function at an index.
fn add_function(known: &mut Tile<54>, db: &ChipDb, place: usize)
    requires { IsGrid 54 16 known.old }
    ensures { Adds (λ row col. is_in_function row col (slice_get (database_in db.now).functions place)) known.old known.new }
{
    match function_at(db.functions(), place) {
        None => {}
        Some(function) => add_bits(known, db.bits(function.bits)),
    }
}

/// Adds the bits that the links at these indexes need to be 1.
fn add_links(known: &mut Tile<54>, db: &ChipDb, links: &[LinkLine], places: &[usize])
    requires grid { IsGrid 54 16 known.old }
    requires fit { All (IsLink db.now.chip) (link_lines db.now.bits links.now) }
    ensures { Adds (λ row col. list_any (λ place. is_one_in row col (slice_get (link_lines db.now.bits links.now) place)) places.now) known.old known.new }
{
    for place in places {
        add_link(known, db, links, *place);
    }
}

/// Adds the bits that the link at an index needs to be 1.
fn add_link(known: &mut Tile<54>, db: &ChipDb, links: &[LinkLine], place: usize)
    requires grid { IsGrid 54 16 known.old }
    requires fit { All (IsLink db.now.chip) (link_lines db.now.bits links.now) }
    ensures { Adds (λ row col. is_one_in row col (slice_get (link_lines db.now.bits links.now) place)) known.old known.new }
{
    match link_at(links, place) {
        None => {}
        Some(link) => add_ones(known, db.bits(link.bits), link.values),
    }
}

/// Adds bits.
fn add_bits(known: &mut Tile<54>, bits: &[RowCol])
    requires grid { IsGrid 54 16 known.old }
    requires inside { All (IsBitIn 54) bits.now }
    ensures { Adds (λ row col. list_any (is_bit row col) bits.now) known.old known.new }
{
    for bit in bits {
        add_bit(known, *bit);
    }
}

/// Adds a bit.
fn add_bit(known: &mut Tile<54>, bit: RowCol)
    requires grid { IsGrid 54 16 known.old }
    requires inside { IsBitIn 54 bit }
    ensures { Adds (λ row col. is_bit row col bit) known.old known.new }
{
    known.set(usize::from(bit.row), usize::from(bit.col), true);
}

/// Adds those of the bits whose value is 1; the value of the first bit is the lowest bit of `values`.
#[tactic(auto, unfolding(bit_plane::specs::BitList::word_bits))]
fn add_ones(known: &mut Tile<54>, bits: &[RowCol], values: u64)
    requires grid { IsGrid 54 16 known.old }
    requires inside { All (IsBitIn 54) bits.now }
    ensures { Adds (λ row col. is_one_of row col bits.now (word_bits (length bits.now) values)) known.old known.new }
{
    match bits {
        [] => {}
        [bit, rest @ ..] => {
            if values % 2 == 1 {
                add_bit(known, *bit);
            }
            add_ones(known, rest, values / 2);
        }
    }
}
