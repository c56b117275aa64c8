// What stands around the grid: the numbers of its columns and rows, and the names of pins.
ghost use Rattle.std.specs.Prelude.{◌≡◌, ◌++◌, ◌+◌, ◌-◌, ◌*◌, OnOk, option_map};
ghost use Rattle.plan_svg.specs.Margins.{axis_number, beside, column_numbers, name_place, name_text, pin_names, row_numbers, tile_names, upwards};
ghost use Rattle.plan_svg.specs.Names.{names_in};
ghost use Rattle.plan_marks.specs.Plans.{plan_in};
ghost use Rattle.plan_svg.specs.Sheet.{left, side_of, top};

use crate::names::{name_of, push_label};
use crate::pieces::{Piece, push};
use crate::sheet::{Sheet, Side};
use pin_file::GivenNames;
use plan_marks::{FloorPlan, PlanTile};
use plane_map::TileKind;
use std::alloc::AllocError;

/// Appends the number of a column or a row.
#[tactic(auto, unfolding(crate::specs::Margins::axis_number))]
fn push_axis(text: &mut Vec<u8>, x: u64, y: u64, number: u8) -> Result<(), AllocError>
    ensures { OnOk result (text.new.items ≡ text.old.items ++ axis_number x y number) }
{
    push(
        text,
        &[
            Piece::Text(b"<text class=\"a\" x=\""),
            Piece::Number(x),
            Piece::Text(b"\" y=\""),
            Piece::Number(y),
            Piece::Text(b"\">"),
            Piece::Number(u64::from(number)),
            Piece::Text(b"</text>\n"),
        ],
    )
}

/// Appends the numbers of the columns, each above and below its column.
#[tactic(auto, unfolding(crate::specs::Margins::column_numbers))]
pub(crate) fn push_columns(text: &mut Vec<u8>, sheet: Sheet) -> Result<(), AllocError>
    ensures { OnOk result (text.new.items ≡ text.old.items ++ column_numbers sheet) }
{
    for x in 0..sheet.columns {
        push_column(text, sheet, x)?;
    }
    Ok(())
}

/// Appends the number of a column twice.
fn push_column(text: &mut Vec<u8>, sheet: Sheet, x: u8) -> Result<(), AllocError>
    ensures { OnOk result (text.new.items ≡ text.old.items ++ (axis_number (left sheet x + 20) (52 + sheet.margin) x ++ axis_number (left sheet x + 20) (72 + sheet.margin + 42 * sheet.rows) x)) }
{
    let left = sheet.left(u32::from(x)) + 20;
    let margin = u64::from(sheet.margin);
    push_axis(text, left, 52 + margin, x)?;
    push_axis(text, left, 72 + margin + 42 * u64::from(sheet.rows), x)
}

/// Appends the numbers of the rows, each left and right of its row.
#[tactic(auto, unfolding(crate::specs::Margins::row_numbers))]
pub(crate) fn push_rows(text: &mut Vec<u8>, sheet: Sheet) -> Result<(), AllocError>
    ensures { OnOk result (text.new.items ≡ text.old.items ++ row_numbers sheet) }
{
    for y in 0..sheet.rows {
        push_row(text, sheet, y)?;
    }
    Ok(())
}

/// Appends the number of a row twice.
fn push_row(text: &mut Vec<u8>, sheet: Sheet, y: u8) -> Result<(), AllocError>
    ensures { OnOk result (text.new.items ≡ text.old.items ++ (axis_number (sheet.margin - 12) (top sheet y + 24) y ++ axis_number (sheet.margin + 42 * sheet.columns + 10) (top sheet y + 24) y)) }
{
    let top = sheet.top(u32::from(y)) + 24;
    let margin = u64::from(sheet.margin);
    push_axis(text, margin.saturating_sub(12), top, y)?;
    push_axis(text, margin + 42 * u64::from(sheet.columns) + 10, top, y)
}

/// Appends the names of the pins that have one.
#[tactic(auto, unfolding(crate::specs::Margins::pin_names))]
pub(crate) fn push_names(
    text: &mut Vec<u8>,
    sheet: Sheet,
    names: Option<&GivenNames>,
    plan: &FloorPlan,
) -> Result<(), AllocError>
    ensures { OnOk result (text.new.items ≡ text.old.items ++ pin_names sheet (names_in names.entry) (plan_in plan.now)) }
{
    for tile in &plan.tiles {
        push_names_of(text, sheet, names, tile)?;
    }
    Ok(())
}

/// Appends the names of the pins of a tile.
fn push_names_of(
    text: &mut Vec<u8>,
    sheet: Sheet,
    names: Option<&GivenNames>,
    tile: &PlanTile,
) -> Result<(), AllocError>
    ensures { OnOk result (text.new.items ≡ text.old.items ++ tile_names sheet (names_in names.entry) tile.now.x tile.now.y tile.now.kind) }
{
    let (x, y) = (tile.x, tile.y);
    match tile.kind {
        TileKind::Io => {
            push_name(text, sheet, x, y, 0, name_of(names, x, y, 0))?;
            push_name(text, sheet, x, y, 1, name_of(names, x, y, 1))
        }
        TileKind::Logic | TileKind::RamB | TileKind::RamT => Ok(()),
    }
}

/// Appends the name of pin `n` of the tile at (x, y), if it has one.
fn push_name(
    text: &mut Vec<u8>,
    sheet: Sheet,
    x: u8,
    y: u8,
    n: u8,
    name: Option<&[u8]>,
) -> Result<(), AllocError>
    ensures { OnOk result (text.new.items ≡ text.old.items ++ name_text sheet x y n (option_map (λ name. name.now) name.entry)) }
{
    match name {
        None => Ok(()),
        Some(name) => {
            push_name_place(text, sheet, x, y, n)?;
            push_label(text, 9, 7, name)?;
            text.extend_from_slice(b"</text>\n")
        }
    }
}

/// Appends where the name of a pin begins or ends.
fn push_name_place(text: &mut Vec<u8>, sheet: Sheet, x: u8, y: u8, n: u8) -> Result<(), AllocError>
    ensures { OnOk result (text.new.items ≡ text.old.items ++ name_place sheet (side_of sheet x y) x y n) }
{
    let side = sheet.side_of(x, y);
    let offset = side.pin_offset(n);
    let (left, top) = (sheet.left(u32::from(x)), sheet.top(u32::from(y)));
    let (across, down) = (
        left + u64::from(offset.x) + 4,
        top + u64::from(offset.y) + 4,
    );
    match side {
        Side::Left => push_beside(text, b'e', left.saturating_sub(24), down),
        Side::Right => push_beside(text, b'n', left + 64, down),
        Side::Top => push_upwards(text, b'n', across, top.saturating_sub(24)),
        Side::Bottom => push_upwards(text, b'e', across, top + 64),
    }
}

/// Appends the beginning of a text.
#[tactic(auto, unfolding(crate::specs::Margins::beside))]
fn push_beside(text: &mut Vec<u8>, class: u8, x: u64, y: u64) -> Result<(), AllocError>
    ensures { OnOk result (text.new.items ≡ text.old.items ++ beside class x y) }
{
    push(
        text,
        &[
            Piece::Text(b"<text class=\""),
            Piece::Letter(class),
            Piece::Text(b"\" x=\""),
            Piece::Number(x),
            Piece::Text(b"\" y=\""),
            Piece::Number(y),
            Piece::Text(b"\">"),
        ],
    )
}

/// Appends the beginning of a text that runs upwards.
#[tactic(auto, unfolding(crate::specs::Margins::upwards))]
fn push_upwards(text: &mut Vec<u8>, class: u8, x: u64, y: u64) -> Result<(), AllocError>
    ensures { OnOk result (text.new.items ≡ text.old.items ++ upwards class x y) }
{
    push(
        text,
        &[
            Piece::Text(b"<text class=\""),
            Piece::Letter(class),
            Piece::Text(b"\" transform=\"translate("),
            Piece::Number(x),
            Piece::Text(b" "),
            Piece::Number(y),
            Piece::Text(b") rotate(270)\">"),
        ],
    )
}
