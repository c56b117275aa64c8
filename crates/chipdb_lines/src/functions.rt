// Lines of the statements `.io_tile_bits`, `.logic_tile_bits`, `.ramb_tile_bits` and `.ramt_tile_bits`, and of `.extra_bits`.
ghost use Rattle.std.specs.Prelude.{◌≡◌, ◌&&◌, ◌<◌, ◌-◌, ◌^◌, length, bytes_eq, IfOk, OnErr};
ghost use Rattle.std.specs.Bool.{OnTrue};
ghost use Rattle.std.specs.List.{list_any};
ghost use Rattle.chipdb_lines.specs.Words.{words_in};
ghost use Rattle.chipdb_lines.specs.Items.{cell_names, extra_of, function_of, function_of_bits, is_cell, is_in_planes};
ghost use Rattle.chipdb_lines.specs.Kept.{extra_named, function_named, AddsList, Reads, Tells};

use crate::bits::{BitList, BitTable};
use crate::cause::{DbCause, DbLineRefusal};
use crate::words::has_no_word;
use plane_map::{DeviceName, Place, TileKind, tile_width};
use text_lines::{Separators, split_word, three_numbers};

/// A function of a tile: its name and its bits.
#[derive(Clone, Copy, Debug)]
pub struct FunctionItem<'a> {
    pub name: &'a [u8],
    pub bits: BitList,
}

/// An extra bit: its name, and its place in the configuration planes.
#[derive(Clone, Copy, Debug)]
pub struct ExtraItem<'a> {
    pub name: &'a [u8],
    pub at: Place,
}

/// Reads the words `FUNCTION BIT BIT ...` of a line that gives a function of the tiles of a kind. Adds the list of its bits to the table.
///
/// # Errors
/// `Cause` with what `function_of` says of the words (`Number`, `BitName`, `BitRange` or `CellBits`), or `Memory`. Then the table is as it
/// was.
#[tactic(auto, unfolding(crate::specs::Items::function_of))]
pub fn function_item<'a>(
    kind: TileKind,
    words: &'a [u8],
    bits: &mut BitTable,
) -> Result<FunctionItem<'a>, DbLineRefusal>
    requires { length bits.old < 2 ^ 32 - 1 }
    ensures unchanged { OnErr result (bits.new ≡ bits.old) }
    ensures added { IfOk result (λ item. AddsList bits.old bits.new item.bits) }
    ensures says { Tells (function_of kind (words_in words.now)) (function_named kind bits.new) result }
{
    match split_word(Separators::SpacesAndTabs, words) {
        None => Err(DbLineRefusal::Cause(DbCause::Number)),
        Some((name, after)) => named_function(kind, name, after, bits),
    }
}

/// Reads the words `BIT BIT ...` of a function.
#[tactic(auto, using(crate::proofs::Heads::columns_small))]
fn named_function<'a>(
    kind: TileKind,
    name: &'a [u8],
    words: &[u8],
    bits: &mut BitTable,
) -> Result<FunctionItem<'a>, DbLineRefusal>
    requires { length bits.old < 2 ^ 32 - 1 }
    ensures unchanged { OnErr result (bits.new ≡ bits.old) }
    ensures added { IfOk result (λ item. AddsList bits.old bits.new item.bits) }
    ensures says { Tells (function_of_bits kind name.now (words_in words.now)) (function_named kind bits.new) result }
{
    if has_no_word(words) {
        return Err(DbLineRefusal::Cause(DbCause::Number));
    }
    let list = bits.add(tile_width(kind), words)?;
    if is_cell(kind, name) && bits.get(list).len() != 20 {
        bits.remove_last();
        Err(DbLineRefusal::Cause(DbCause::CellBits))
    } else {
        Ok(FunctionItem { name, bits: list })
    }
}

/// Whether a function is one of the eight logic cells of a logic tile.
fn is_cell(kind: TileKind, name: &[u8]) -> bool
    ensures { result ≡ is_cell kind name.now }
{
    match kind {
        TileKind::Logic => is_cell_name(name),
        _ => false,
    }
}

/// Whether a name is one of `LC_0` to `LC_7`.
fn is_cell_name(name: &[u8]) -> bool
    ensures { result ≡ list_any (bytes_eq name.now) cell_names }
{
    name == b"LC_0".as_slice()
        || name == b"LC_1".as_slice()
        || name == b"LC_2".as_slice()
        || name == b"LC_3".as_slice()
        || name == b"LC_4".as_slice()
        || name == b"LC_5".as_slice()
        || name == b"LC_6".as_slice()
        || name == b"LC_7".as_slice()
}

/// Reads the words `FUNCTION BANK X Y` of a line of `.extra_bits`.
///
/// # Errors
/// `Number` if the words aren't a name and three numbers; else `BitRange` if the place is outside of the configuration planes.
#[tactic(auto, unfolding(crate::specs::Items::extra_of))]
pub fn extra_item(device: DeviceName, words: &[u8]) -> Result<ExtraItem<'_>, DbCause>
    ensures { Reads (extra_of device (words_in words.now)) extra_named result }
{
    match split_word(Separators::SpacesAndTabs, words) {
        None => Err(DbCause::Number),
        Some((name, after)) => match three_numbers(Separators::SpacesAndTabs, after) {
            None => Err(DbCause::Number),
            Some((bank, x, y)) if is_in_planes(device, bank, x, y) => Ok(ExtraItem {
                name,
                at: Place {
                    bank: bank as u8,
                    px: x as u16,
                    py: y as u16,
                },
            }),
            Some(_) => Err(DbCause::BitRange),
        },
    }
}

/// Whether a bank, a column and a row are a place of the configuration planes.
fn is_in_planes(device: DeviceName, bank: u32, x: u32, y: u32) -> bool
    ensures inside { result ≡ is_in_planes device bank x y }
    ensures small { OnTrue result ((bank < 4) × (x < 872) × (y < 272)) }
{
    bank < 4 && x < device.cram_columns() && y < device.cram_rows()
}
