// What hovering over a tile shows.
ghost use Rattle.std.specs.Prelude.{◌≡◌, ◌++◌, OnOk, flat_map, option_map};
ghost use Rattle.std.specs.List.{list_any};
ghost use Rattle.plan_svg.specs.Hover.{cell_line, hover, links_line, is_pin, mark_line, name_words, other_line, other_pin, other_pins, pin_words, ram_line, statement};
ghost use Rattle.plan_svg.specs.Names.{names_in};
ghost use Rattle.plan_marks.specs.Plans.{tile_in};

use crate::names::{name_of, push_label};
use crate::pieces::{Piece, push, word_if};
use crate::sheet::bits_of;
use asc_text::tile_keyword;
use pin_file::GivenNames;
use plan_marks::{CellPart, Mark, Part, PinPart, PlanTile, RamPart};
use plane_map::TileKind;
use std::alloc::AllocError;

/// Appends what hovering over a tile shows.
#[tactic(auto, unfolding(crate::specs::Hover::hover))]
pub(crate) fn push_hover(
    text: &mut Vec<u8>,
    names: Option<&GivenNames>,
    tile: &PlanTile,
) -> Result<(), AllocError>
    ensures { OnOk result (text.new.items ≡ text.old.items ++ hover (names_in names.entry) (tile_in tile.now)) }
{
    push_statement(text, tile)?;
    push_lines(text, names, &tile.marks)?;
    push_others(text, names, tile)?;
    push_links(text, tile.links)
}

/// Appends the statement of a tile.
#[tactic(auto, unfolding(crate::specs::Hover::statement))]
fn push_statement(text: &mut Vec<u8>, tile: &PlanTile) -> Result<(), AllocError>
    ensures { OnOk result (text.new.items ≡ text.old.items ++ statement (tile_in tile.now)) }
{
    push(
        text,
        &[
            Piece::Text(tile_keyword(tile.kind)),
            Piece::Text(b" "),
            Piece::Number(u64::from(tile.x)),
            Piece::Text(b" "),
            Piece::Number(u64::from(tile.y)),
        ],
    )
}

/// Appends how many links are on.
#[tactic(auto, unfolding(crate::specs::Hover::links_line))]
fn push_links(text: &mut Vec<u8>, links: usize) -> Result<(), AllocError>
    ensures { OnOk result (text.new.items ≡ text.old.items ++ links_line links) }
{
    push(
        text,
        &[Piece::Text(b"\nlinks "), Piece::Number(links as u64)],
    )
}

/// Appends a line for each mark.
fn push_lines(
    text: &mut Vec<u8>,
    names: Option<&GivenNames>,
    marks: &[Mark],
) -> Result<(), AllocError>
    ensures { OnOk result (text.new.items ≡ text.old.items ++ flat_map (mark_line (names_in names.entry)) marks.now) }
{
    for mark in marks {
        push_line(text, names, *mark)?;
    }
    Ok(())
}

/// Appends the line of a mark.
fn push_line(text: &mut Vec<u8>, names: Option<&GivenNames>, mark: Mark) -> Result<(), AllocError>
    ensures { OnOk result (text.new.items ≡ text.old.items ++ mark_line (names_in names.entry) mark) }
{
    match mark.part {
        Part::Cell(cell) => push_cell(text, cell),
        Part::Lower(ram) => push_ram(text, mark.x, mark.y, ram),
        Part::Upper(ram) => push_ram(text, mark.x, mark.y.saturating_sub(1), ram),
        Part::Pin(pin) => {
            push_pin(text, pin)?;
            push_name(text, name_of(names, mark.x, mark.y, pin.n))
        }
    }
}

/// Appends a cell: its LUT as a number, and what it has beside.
#[tactic(auto, unfolding(crate::specs::Hover::cell_line))]
fn push_cell(text: &mut Vec<u8>, cell: CellPart) -> Result<(), AllocError>
    ensures { OnOk result (text.new.items ≡ text.old.items ++ cell_line cell) }
{
    push(
        text,
        &[
            Piece::Text(b"\nlc "),
            Piece::Number(u64::from(cell.i)),
            Piece::Text(b": LUT 0x"),
            Piece::Word(cell.lut),
            word_if(cell.flip, b" flip-flop"),
            word_if(cell.carry, b" carry"),
            word_if(cell.flip && cell.set, b" set"),
            word_if(cell.is_async, b" async"),
            word_if(cell.flip && cell.neg, b" negclk"),
        ],
    )
}

/// Appends the RAM whose lower tile is at (x, y).
#[tactic(auto, unfolding(crate::specs::Hover::ram_line))]
fn push_ram(text: &mut Vec<u8>, x: u8, y: u8, ram: RamPart) -> Result<(), AllocError>
    ensures { OnOk result (text.new.items ≡ text.old.items ++ ram_line x y ram) }
{
    push(
        text,
        &[
            Piece::Text(b"\nram "),
            Piece::Number(u64::from(x)),
            Piece::Text(b" "),
            Piece::Number(u64::from(y)),
            Piece::Text(b": write "),
            Piece::Number(bits_of(ram.write)),
            Piece::Text(b" read "),
            Piece::Number(bits_of(ram.read)),
        ],
    )
}

/// Appends what a pin does.
#[tactic(auto, unfolding(crate::specs::Hover::pin_words))]
fn push_pin(text: &mut Vec<u8>, pin: PinPart) -> Result<(), AllocError>
    ensures { OnOk result (text.new.items ≡ text.old.items ++ pin_words pin) }
{
    push(
        text,
        &[
            Piece::Text(b"\npin "),
            Piece::Number(u64::from(pin.n)),
            Piece::Text(b":"),
            word_if(pin.is_input, b" input"),
            word_if(pin.is_output, b" output"),
            word_if(pin.is_switched, b" enable"),
            word_if(pin.has_register, b" register"),
            word_if(pin.is_double, b" double"),
            word_if(pin.is_inverted, b" inverted"),
            word_if(pin.is_global, b" global"),
        ],
    )
}

/// Appends the name of a pin, if it has one.
fn push_name(text: &mut Vec<u8>, name: Option<&[u8]>) -> Result<(), AllocError>
    ensures { OnOk result (text.new.items ≡ text.old.items ++ name_words (option_map (λ name. name.now) name.entry)) }
{
    match name {
        None => Ok(()),
        Some(name) => {
            text.extend_from_slice(b" name ")?;
            push_label(text, 40, 22, name)
        }
    }
}

/// Appends a line for each pin of a tile that has a name and no mark.
fn push_others(
    text: &mut Vec<u8>,
    names: Option<&GivenNames>,
    tile: &PlanTile,
) -> Result<(), AllocError>
    ensures { OnOk result (text.new.items ≡ text.old.items ++ other_pins (names_in names.entry) (tile_in tile.now) tile.now.kind) }
{
    match tile.kind {
        TileKind::Io => {
            push_other(text, names, tile, 0)?;
            push_other(text, names, tile, 1)
        }
        TileKind::Logic | TileKind::RamB | TileKind::RamT => Ok(()),
    }
}

/// Appends a line for pin `n` of a tile, if it has a name and no mark.
fn push_other(
    text: &mut Vec<u8>,
    names: Option<&GivenNames>,
    tile: &PlanTile,
    n: u8,
) -> Result<(), AllocError>
    ensures { OnOk result (text.new.items ≡ text.old.items ++ other_pin (names_in names.entry) (tile_in tile.now) n) }
{
    let marked = has_pin(&tile.marks, n);
    push_other_line(text, n, marked, name_of(names, tile.x, tile.y, n))
}

/// Whether one of these marks is pin `n`.
fn has_pin(marks: &[Mark], n: u8) -> bool
    ensures { result ≡ list_any (λ mark. is_pin n mark.part) marks.now }
{
    marks.iter().any(|mark| is_pin(n, mark.part))
}

/// Whether a part is pin `n`.
fn is_pin(n: u8, part: Part) -> bool
    ensures { result ≡ is_pin n part }
{
    match part {
        Part::Pin(pin) => pin.n == n,
        Part::Cell(_) | Part::Lower(_) | Part::Upper(_) => false,
    }
}

/// Appends the line of a pin that has a name, unless it has a mark.
fn push_other_line(
    text: &mut Vec<u8>,
    n: u8,
    marked: bool,
    name: Option<&[u8]>,
) -> Result<(), AllocError>
    ensures { OnOk result (text.new.items ≡ text.old.items ++ other_line n marked (option_map (λ name. name.now) name.entry)) }
{
    match (name, marked) {
        (Some(_), false) => {
            push(
                text,
                &[
                    Piece::Text(b"\npin "),
                    Piece::Number(u64::from(n)),
                    Piece::Text(b":"),
                ],
            )?;
            push_name(text, name)
        }
        _ => Ok(()),
    }
}
