// The picture of a tile.
ghost use Rattle.std.specs.Prelude.{◌≡◌, ◌++◌, OnOk, flat_map};
ghost use Rattle.plan_svg.specs.Names.{names_in};
ghost use Rattle.plan_svg.specs.Pieces.{spelled};
ghost use Rattle.plan_marks.specs.Plans.{tile_in};
ghost use Rattle.plan_svg.specs.Tiles.{cell_mark, ground, io_shape, lower_mark, part_mark, pin_mark, place_text, shape, tile_text, upper_mark};

use crate::hover::push_hover;
use crate::pieces::{Piece, push};
use crate::sheet::{Sheet, Side, bits_of, cell_offset, shade};
use pin_file::GivenNames;
use plan_marks::{CellPart, Mark, Part, PinPart, PlanTile, cell_class, pin_class};
use plane_map::TileKind;
use std::alloc::AllocError;

/// Appends a tile: a group with its title, its shape and its marks.
#[tactic(auto, unfolding(crate::specs::Tiles::tile_text))]
pub(crate) fn push_tile(
    text: &mut Vec<u8>,
    sheet: Sheet,
    names: Option<&GivenNames>,
    tile: &PlanTile,
) -> Result<(), AllocError>
    ensures { OnOk result (text.new.items ≡ text.old.items ++ tile_text sheet (names_in names.entry) (tile_in tile.now)) }
{
    let side = sheet.side_of(tile.x, tile.y);
    push_place(text, sheet, tile)?;
    push_hover(text, names, tile)?;
    push_ground(text, side, tile)?;
    push_marks(text, side, &tile.marks)?;
    text.extend_from_slice(b"</g>\n")
}

/// Appends where the tile begins.
#[tactic(auto, unfolding(crate::specs::Tiles::place_text))]
fn push_place(text: &mut Vec<u8>, sheet: Sheet, tile: &PlanTile) -> Result<(), AllocError>
    ensures { OnOk result (text.new.items ≡ text.old.items ++ place_text sheet (tile_in tile.now)) }
{
    push(
        text,
        &[
            Piece::Text(b"<g transform=\"translate("),
            Piece::Number(sheet.left(u32::from(tile.x))),
            Piece::Text(b" "),
            Piece::Number(sheet.top(u32::from(tile.y))),
            Piece::Text(b")\"><title>"),
        ],
    )
}

/// Appends the shape of a tile with its shade.
#[tactic(auto, unfolding(crate::specs::Tiles::ground))]
fn push_ground(text: &mut Vec<u8>, side: Side, tile: &PlanTile) -> Result<(), AllocError>
    ensures { OnOk result (text.new.items ≡ text.old.items ++ ground side (tile_in tile.now)) }
{
    push(
        text,
        &[
            Piece::Text(b"</title><use class=\"s"),
            Piece::Number(shade(tile.links)),
            Piece::Text(b"\" xlink:href=\"#"),
            shape(side, tile.kind),
            Piece::Text(b"\"/>"),
        ],
    )
}

/// The shape of a tile.
fn shape(side: Side, kind: TileKind) -> Piece<'static>
    ensures { spelled result ≡ shape side kind }
{
    match kind {
        TileKind::Io => Piece::Text(io_shape(side)),
        TileKind::Logic => Piece::Letter(b'L'),
        TileKind::RamB => Piece::Letter(b'B'),
        TileKind::RamT => Piece::Letter(b'T'),
    }
}

/// The shape of an io tile.
fn io_shape(side: Side) -> &'static [u8]
    ensures { result.now ≡ io_shape side }
{
    match side {
        Side::Left => b"I0",
        Side::Top => b"I1",
        Side::Right => b"I2",
        Side::Bottom => b"I3",
    }
}

/// Appends the marks of a tile.
fn push_marks(text: &mut Vec<u8>, side: Side, marks: &[Mark]) -> Result<(), AllocError>
    ensures { OnOk result (text.new.items ≡ text.old.items ++ flat_map (λ mark. part_mark side mark.part) marks.now) }
{
    for mark in marks {
        push_mark(text, side, mark.part)?;
    }
    Ok(())
}

/// Appends what stands in a tile.
fn push_mark(text: &mut Vec<u8>, side: Side, part: Part) -> Result<(), AllocError>
    ensures { OnOk result (text.new.items ≡ text.old.items ++ part_mark side part) }
{
    match part {
        Part::Cell(cell) => push_cell(text, cell),
        Part::Lower(ram) => push_lower(text, ram.write),
        Part::Upper(ram) => push_upper(text, ram.read),
        Part::Pin(pin) => push_pin(text, side, pin),
    }
}

/// Appends a used cell.
#[tactic(auto, unfolding(crate::specs::Tiles::cell_mark))]
fn push_cell(text: &mut Vec<u8>, cell: CellPart) -> Result<(), AllocError>
    ensures { OnOk result (text.new.items ≡ text.old.items ++ cell_mark cell) }
{
    let offset = cell_offset(cell.i);
    push(
        text,
        &[
            Piece::Text(b"<use class=\""),
            Piece::Letter(cell_class(cell)),
            Piece::Text(b"\" xlink:href=\"#"),
            Piece::Letter(cell_class(cell)),
            Piece::Text(b"\" x=\""),
            Piece::Number(u64::from(offset.x)),
            Piece::Text(b"\" y=\""),
            Piece::Number(u64::from(offset.y)),
            Piece::Text(b"\"/>"),
        ],
    )
}

/// Appends the lower tile of a used RAM, which is written in that mode.
#[tactic(auto, unfolding(crate::specs::Tiles::lower_mark))]
fn push_lower(text: &mut Vec<u8>, mode: u8) -> Result<(), AllocError>
    ensures { OnOk result (text.new.items ≡ text.old.items ++ lower_mark mode) }
{
    push(
        text,
        &[
            Piece::Text(b"<use class=\"r\" xlink:href=\"#write"),
            Piece::Number(u64::from(mode)),
            Piece::Text(b"\"/><text class=\"m\" x=\"20\" y=\"33\">W"),
            Piece::Number(bits_of(mode)),
            Piece::Text(b"</text>"),
        ],
    )
}

/// Appends the upper tile of a used RAM, which is read in that mode.
#[tactic(auto, unfolding(crate::specs::Tiles::upper_mark))]
fn push_upper(text: &mut Vec<u8>, mode: u8) -> Result<(), AllocError>
    ensures { OnOk result (text.new.items ≡ text.old.items ++ upper_mark mode) }
{
    push(
        text,
        &[
            Piece::Text(b"<use class=\"u\" xlink:href=\"#read"),
            Piece::Number(u64::from(mode)),
            Piece::Text(b"\"/><text class=\"m\" x=\"20\" y=\"14\">R"),
            Piece::Number(bits_of(mode)),
            Piece::Text(b"</text>"),
        ],
    )
}

/// Appends a pin that is a port.
#[tactic(auto, unfolding(crate::specs::Tiles::pin_mark))]
fn push_pin(text: &mut Vec<u8>, side: Side, pin: PinPart) -> Result<(), AllocError>
    ensures { OnOk result (text.new.items ≡ text.old.items ++ pin_mark side pin) }
{
    let offset = side.pin_offset(pin.n);
    push(
        text,
        &[
            Piece::Text(b"<use class=\""),
            Piece::Letter(pin_class(pin)),
            Piece::Text(b"\" xlink:href=\"#"),
            Piece::Letter(pin_class(pin)),
            Piece::Text(b"\" transform=\"translate("),
            Piece::Number(u64::from(offset.x)),
            Piece::Text(b" "),
            Piece::Number(u64::from(offset.y)),
            Piece::Text(b") rotate("),
            Piece::Number(side.turn()),
            Piece::Text(b")\"/>"),
        ],
    )
}
