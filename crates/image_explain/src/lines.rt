// The lines of a tile.
ghost use Rattle.std.specs.Prelude.{◌≡◌, ◌++◌, ◌∷◌, [], IfOk, OnOk, codes, decimal, map, slice_get};
ghost use Rattle.text_lines.specs.Written.{text_of};
ghost use Rattle.bit_plane.specs.BitList.{word_bits};
ghost use Rattle.asc_text.specs.Statements.{tile_keyword as keyword_of};
ghost use Rattle.asc_text.specs.Canonical.{bit_character, grid_line, row_line};
ghost use Rattle.chipdb_reader.specs.Kept.{database_in};
ghost use Rattle.image_explain.specs.Explained.{cell_line, function_line, item_line, link_line, net_text, unknown_line};
ghost use Rattle.image_explain.specs.Inside.{lists_of};
ghost use Rattle.image_explain.specs.Keys.{FindsNets};

use crate::item::Active;
use crate::names::{NetNames, name_at};
use crate::places::link_at;
use crate::tile::TileAt;
use asc_text::{append_grid_line, end_line, tile_keyword};
use chipdb_reader::ChipDb;
use fabric_model::cell_name;
use itoa::Buffer;
use std::alloc::{AllocError, Global};

/// Appends a tile: its statement, and a line for each item.
#[tactic(auto, using(asc_text::proofs::Pieces::joined))]
pub(crate) fn append_tile(
    text: &mut Vec<u8>,
    db: &ChipDb,
    nets: &NetNames,
    at: TileAt,
    items: &[Active],
) -> Result<(), AllocError>
    requires { FindsNets db.now nets.now.nets }
    ensures { OnOk result (text.new.items ≡ text.old.items ++ text_of (grid_line (keyword_of at.kind) at.x at.y ∷ map (item_line (database_in db.now) at.x at.y) items.now)) }
{
    append_grid_line(text, tile_keyword(at.kind), at.x, at.y)?;
    for item in items {
        append_item(text, db, nets, at, *item)?;
        end_line(text)?;
    }
    Ok(())
}

/// A line for each item.
pub(crate) fn lines_of(
    alloc: Global,
    db: &ChipDb,
    nets: &NetNames,
    at: TileAt,
    items: &[Active],
) -> Result<Vec<Vec<u8>>, AllocError>
    requires { FindsNets db.now nets.now.nets }
    ensures { IfOk result (λ lines. lists_of lines.items ≡ map (item_line (database_in db.now) at.x at.y) items.now) }
{
    let mut lines = Vec::new(alloc);
    for item in items {
        let line = line_of(alloc, db, nets, at, *item)?;
        push_line(&mut lines, line)?;
    }
    Ok(lines)
}

/// Adds a line to a list.
pub(crate) fn push_line(lines: &mut Vec<Vec<u8>>, line: Vec<u8>) -> Result<(), AllocError>
    ensures { OnOk result (lists_of lines.new.items ≡ lists_of lines.old.items ++ line.items ∷ []) }
{
    lines.push(line).map_err(AllocError::from)
}

/// The line of an item.
fn line_of(
    alloc: Global,
    db: &ChipDb,
    nets: &NetNames,
    at: TileAt,
    item: Active,
) -> Result<Vec<u8>, AllocError>
    requires { FindsNets db.now nets.now.nets }
    ensures { IfOk result (λ line. line.items ≡ item_line (database_in db.now) at.x at.y item) }
{
    let mut line = Vec::new(alloc);
    append_item(&mut line, db, nets, at, item)?;
    Ok(line)
}

/// Appends the line of an item.
fn append_item(
    text: &mut Vec<u8>,
    db: &ChipDb,
    nets: &NetNames,
    at: TileAt,
    item: Active,
) -> Result<(), AllocError>
    requires { FindsNets db.now nets.now.nets }
    ensures { OnOk result (text.new.items ≡ text.old.items ++ item_line (database_in db.now) at.x at.y item) }
{
    match item {
        Active::LogicCell { i, lut, flags } => append_cell(text, i, lut, flags),
        Active::Function { index } => append_function(text, db, index),
        Active::Buffer { index } => append_buffer(text, db, nets, at, index),
        Active::Routing { index } => append_routing(text, db, nets, at, index),
        Active::Unknown { row, col } => append_unknown(text, row, col),
    }
}

/// Appends a logic cell: its name, the entries of its LUT, entry 0 first, and its flags.
fn append_cell(text: &mut Vec<u8>, i: u8, lut: u16, flags: u8) -> Result<(), AllocError>
    ensures { OnOk result (text.new.items ≡ text.old.items ++ cell_line i lut flags) }
{
    text.extend_from_slice(cell_name(i).bytes())?;
    text.push(b' ')?;
    append_bits(text, 16, lut)?;
    text.push(b' ')?;
    append_bits(text, 4, u16::from(flags))
}

/// Appends the low bits of a number, the lowest first.
#[tactic(auto, unfolding(bit_plane::specs::BitList::word_bits))]
fn append_bits(text: &mut Vec<u8>, count: u8, number: u16) -> Result<(), AllocError>
    ensures { OnOk result (text.new.items ≡ text.old.items ++ row_line (word_bits count number)) }
{
    if count == 0 {
        return Ok(());
    }
    append_bit(text, number % 2 == 1)?;
    append_bits(text, count - 1, number / 2)
}

/// Appends the character of a bit.
fn append_bit(text: &mut Vec<u8>, bit: bool) -> Result<(), AllocError>
    ensures { OnOk result (text.new.items ≡ text.old.items ++ bit_character bit ∷ []) }
{
    text.push(character_of(bit))?;
    Ok(())
}

/// The character of a bit.
fn character_of(bit: bool) -> u8
    ensures { result ≡ bit_character bit }
{
    if bit { b'1' } else { b'0' }
}

/// Appends the name of the function at an index.
fn append_function(text: &mut Vec<u8>, db: &ChipDb, place: usize) -> Result<(), AllocError>
    ensures { OnOk result (text.new.items ≡ text.old.items ++ function_line (slice_get (database_in db.now).functions place)) }
{
    match db.functions().get(place) {
        None => Ok(()),
        Some(function) => {
            text.extend_from_slice(db.text(function.name))?;
            Ok(())
        }
    }
}

/// Appends the buffer at an index.
fn append_buffer(
    text: &mut Vec<u8>,
    db: &ChipDb,
    nets: &NetNames,
    at: TileAt,
    place: usize,
) -> Result<(), AllocError>
    requires { FindsNets db.now nets.now.nets }
    ensures { OnOk result (text.new.items ≡ text.old.items ++ link_line (database_in db.now).names (codes "buffer") at.x at.y (slice_get (database_in db.now).buffers place)) }
{
    text.extend_from_slice(b"buffer")?;
    match link_at(db.buffers(), place) {
        None => Ok(()),
        Some(link) => append_nets(text, db, nets, at, link.src, link.dst),
    }
}

/// Appends the routing at an index.
fn append_routing(
    text: &mut Vec<u8>,
    db: &ChipDb,
    nets: &NetNames,
    at: TileAt,
    place: usize,
) -> Result<(), AllocError>
    requires { FindsNets db.now nets.now.nets }
    ensures { OnOk result (text.new.items ≡ text.old.items ++ link_line (database_in db.now).names (codes "routing") at.x at.y (slice_get (database_in db.now).routings place)) }
{
    text.extend_from_slice(b"routing")?;
    match link_at(db.routings(), place) {
        None => Ok(()),
        Some(link) => append_nets(text, db, nets, at, link.src, link.dst),
    }
}

/// Appends two nets, each after a space.
fn append_nets(
    text: &mut Vec<u8>,
    db: &ChipDb,
    nets: &NetNames,
    at: TileAt,
    src: u32,
    dst: u32,
) -> Result<(), AllocError>
    requires { FindsNets db.now nets.now.nets }
    ensures { OnOk result (text.new.items ≡ text.old.items ++ 32 ∷ net_text (database_in db.now).names at.x at.y src ++ 32 ∷ net_text (database_in db.now).names at.x at.y dst) }
{
    text.push(b' ')?;
    append_net(text, db, nets, at, src)?;
    text.push(b' ')?;
    append_net(text, db, nets, at, dst)
}

/// Appends a net, by its first name in the tile or else by `#` and its number.
#[tactic(auto, unfolding(crate::specs::Explained::net_text))]
fn append_net(
    text: &mut Vec<u8>,
    db: &ChipDb,
    nets: &NetNames,
    at: TileAt,
    net: u32,
) -> Result<(), AllocError>
    requires { FindsNets db.now nets.now.nets }
    ensures { OnOk result (text.new.items ≡ text.old.items ++ net_text (database_in db.now).names at.x at.y net) }
{
    match name_at(db, nets, at, net) {
        Some(name) => {
            text.extend_from_slice(name)?;
            Ok(())
        }
        None => {
            text.push(b'#')?;
            append_digits(text, net)
        }
    }
}

/// Appends a bit by its row and column.
fn append_unknown(text: &mut Vec<u8>, row: u8, col: u8) -> Result<(), AllocError>
    ensures { OnOk result (text.new.items ≡ text.old.items ++ unknown_line row col) }
{
    text.extend_from_slice(b"? B")?;
    append_digits(text, u32::from(row))?;
    text.push(b'[')?;
    append_digits(text, u32::from(col))?;
    text.push(b']')?;
    Ok(())
}

/// Appends the decimal digits of a number.
fn append_digits(text: &mut Vec<u8>, number: u32) -> Result<(), AllocError>
    ensures { OnOk result (text.new.items ≡ text.old.items ++ decimal number) }
{
    let mut digits = Buffer::new();
    text.extend_from_slice(digits.format(number).as_bytes())?;
    Ok(())
}
