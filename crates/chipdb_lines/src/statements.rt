// Statements: lines that begin with a dot.
ghost use Rattle.std.specs.Prelude.{◌≡◌, ◌<◌, ◌-◌, ◌^◌, List, length, IfOk, OnErr};
ghost use Rattle.text_lines.specs.Words.{numbers_of};
ghost use Rattle.plane_map.specs.declared.tile.RowCol.{RowCol as Bit};
ghost use Rattle.chipdb_lines.specs.Words.{words_in};
ghost use Rattle.chipdb_lines.specs.Statements.{alone, block_by, block_of, block_without, device_block, chip_of_words, names_block, net_of_numbers, statement_of, tile_bits_of_numbers, tile_of_numbers};
ghost use Rattle.chipdb_lines.specs.Kept.{block_named, AddsBelow, Tells};

use crate::bits::BitTable;
use crate::cause::{DbCause, DbLineRefusal};
use crate::chip::{Chip, chip_of};
use crate::keyword::{Keyword, keyword_of};
use crate::kinds::is_kind_at;
use crate::links::{LinkHead, link_head};
use crate::plls::extra_cell;
use crate::words::has_no_word;
use plane_map::{DeviceName, TileKind, tile_width};
use text_lines::{Separators, one_number, split_word, two_numbers};

/// What the lines below a statement are.
#[derive(Clone, Copy, Debug, PartialEq, Eq)]
pub enum Below {
    /// Skipped.
    Passed,
    /// Skipped: the statement gives the device.
    Device(Chip),
    /// `X Y GLB`
    GlobalInputs,
    /// `X Y PIO GLB`
    GlobalPins,
    /// `FUNCTION BIT BIT ...` of tiles of a kind
    Functions(TileKind),
    /// `FUNCTION BANK X Y`
    ExtraBits,
    /// `X Y NAME` of a net
    Names(u32),
    /// `VALUES SRC`
    Buffers(LinkHead),
    /// `VALUES SRC`
    Routings(LinkHead),
    /// `NAME X Y WORD` of the PLL at (x, y)
    Pll(u32, u32),
}

/// Reads a statement. `chip` is the device that was given before it, if one was. Repeats of earlier statements aren't looked for. The list
/// of the bits of a `.buffer` or `.routing` is added to the table.
///
/// # Errors
/// `Cause` with what `statement_of` says of the words: `NoDevice`, `Device`, `Number`, `TileKind`, `NetRange`, `BitName`, `BitRange` or
/// `CellBits`. `Memory` if memory is out. Then the table is as it was.
#[tactic(auto, unfolding(crate::specs::Statements::statement_of))]
pub fn statement(
    chip: Option<Chip>,
    line: &[u8],
    bits: &mut BitTable,
) -> Result<Below, DbLineRefusal>
    requires { length bits.old < 2 ^ 32 - 1 }
    ensures unchanged { OnErr result (bits.new ≡ bits.old) }
    ensures added { IfOk result (AddsBelow bits.old bits.new) }
    ensures says { Tells (statement_of chip (words_in line.now)) (block_named bits.new) result }
{
    match split_word(Separators::SpacesAndTabs, line) {
        None => Ok(Below::Passed),
        Some((word, words)) => below_keyword(chip, keyword_of(word), words, bits),
    }
}

/// Reads a statement by its keyword, if it is a known one, and the words after it.
fn below_keyword(
    chip: Option<Chip>,
    keyword: Option<Keyword>,
    words: &[u8],
    bits: &mut BitTable,
) -> Result<Below, DbLineRefusal>
    requires { length bits.old < 2 ^ 32 - 1 }
    ensures unchanged { OnErr result (bits.new ≡ bits.old) }
    ensures added { IfOk result (AddsBelow bits.old bits.new) }
    ensures says { Tells (block_by chip keyword (words_in words.now)) (block_named bits.new) result }
{
    match keyword {
        None => Ok(Below::Passed),
        Some(keyword) => match chip {
            None => below_none(keyword, words),
            Some(chip) => below_chip(chip, keyword, words, bits),
        },
    }
}

/// Reads a statement before which no device was given.
fn below_none(keyword: Keyword, words: &[u8]) -> Result<Below, DbLineRefusal>
    ensures added { (bits : List (List Bit)) → IfOk result (AddsBelow bits bits) }
    ensures says { (bits : List (List Bit)) → Tells (block_without keyword (words_in words.now)) (block_named bits) result }
{
    match keyword {
        Keyword::Device => match chip_of(words) {
            None => Err(DbLineRefusal::Cause(DbCause::Device)),
            Some(chip) => Ok(Below::Device(chip)),
        },
        Keyword::ExtraCell => Ok(Below::Passed),
        _ => Err(DbLineRefusal::Cause(DbCause::NoDevice)),
    }
}

/// Reads a statement after the device was given.
#[tactic(auto, unfolding(crate::specs::Statements::block_of))]
fn below_chip(
    chip: Chip,
    keyword: Keyword,
    words: &[u8],
    bits: &mut BitTable,
) -> Result<Below, DbLineRefusal>
    requires { length bits.old < 2 ^ 32 - 1 }
    ensures unchanged { OnErr result (bits.new ≡ bits.old) }
    ensures added { IfOk result (AddsBelow bits.old bits.new) }
    ensures says { Tells (block_of chip keyword (words_in words.now)) (block_named bits.new) result }
{
    match keyword {
        Keyword::Device => Err(DbLineRefusal::Cause(DbCause::Device)),
        Keyword::GlobalInputs => alone(Below::GlobalInputs, words),
        Keyword::GlobalPins => alone(Below::GlobalPins, words),
        Keyword::Tile(kind) => tile(chip.device, kind, words),
        Keyword::TileBits(kind) => functions(kind, words),
        Keyword::ExtraBits => alone(Below::ExtraBits, words),
        Keyword::Net => net(chip.nets, words),
        Keyword::Buffer => match link_head(chip, words, bits) {
            Ok(head) => Ok(Below::Buffers(head)),
            Err(refusal) => Err(refusal),
        },
        Keyword::Routing => match link_head(chip, words, bits) {
            Ok(head) => Ok(Below::Routings(head)),
            Err(refusal) => Err(refusal),
        },
        Keyword::ExtraCell => Ok(extra_cell(words)),
    }
}

/// Reads a statement of one word.
fn alone(below: Below, words: &[u8]) -> Result<Below, DbLineRefusal>
    ensures same { IfOk result (λ found. found ≡ below) }
    ensures says { (bits : List (List Bit)) → Tells (alone (block_named bits below) (words_in words.now)) (block_named bits) result }
{
    if has_no_word(words) {
        Ok(below)
    } else {
        Err(DbLineRefusal::Cause(DbCause::Number))
    }
}

/// `.io_tile X Y`, `.logic_tile X Y`, `.ramb_tile X Y` or `.ramt_tile X Y`
fn tile(device: DeviceName, kind: TileKind, words: &[u8]) -> Result<Below, DbLineRefusal>
    ensures added { (bits : List (List Bit)) → IfOk result (AddsBelow bits bits) }
    ensures says { (bits : List (List Bit)) → Tells (tile_of_numbers device kind (numbers_of (words_in words.now))) (block_named bits) result }
{
    match two_numbers(Separators::SpacesAndTabs, words) {
        None => Err(DbLineRefusal::Cause(DbCause::Number)),
        Some((x, y)) if is_kind_at(device, kind, x, y) => Ok(Below::Passed),
        Some(_) => Err(DbLineRefusal::Cause(DbCause::TileKind)),
    }
}

/// `.io_tile_bits COLUMNS ROWS`, and the same for the other kinds of tiles
fn functions(kind: TileKind, words: &[u8]) -> Result<Below, DbLineRefusal>
    ensures added { (bits : List (List Bit)) → IfOk result (AddsBelow bits bits) }
    ensures says { (bits : List (List Bit)) → Tells (tile_bits_of_numbers kind (numbers_of (words_in words.now))) (block_named bits) result }
{
    match two_numbers(Separators::SpacesAndTabs, words) {
        None => Err(DbLineRefusal::Cause(DbCause::Number)),
        Some((columns, rows)) if columns as usize == tile_width(kind) && rows == 16 => {
            Ok(Below::Functions(kind))
        }
        Some(_) => Err(DbLineRefusal::Cause(DbCause::TileKind)),
    }
}

/// `.net N`
fn net(nets: u32, words: &[u8]) -> Result<Below, DbLineRefusal>
    ensures added { (bits : List (List Bit)) → IfOk result (AddsBelow bits bits) }
    ensures says { (bits : List (List Bit)) → Tells (names_block (net_of_numbers nets (numbers_of (words_in words.now)))) (block_named bits) result }
{
    match one_number(Separators::SpacesAndTabs, words) {
        None => Err(DbLineRefusal::Cause(DbCause::Number)),
        Some(net) if net < nets => Ok(Below::Names(net)),
        Some(_) => Err(DbLineRefusal::Cause(DbCause::NetRange)),
    }
}
