// The picture of a floor plan.
ghost use Rattle.std.specs.Prelude.{◌≡◌, ◌++◌, IfOk, OnOk, flat_map};
ghost use Rattle.plan_svg.specs.Names.{names_in};
ghost use Rattle.plan_marks.specs.Plans.{plan_in};
ghost use Rattle.plan_svg.specs.Svg.{beginning, device_text, document_title, drawn, inside, paper, plan_svg, seen_title, sizes, title};
ghost use Rattle.plan_svg.specs.Tiles.{tile_text};

use crate::legend::push_legend;
use crate::literals::{BEGINNING, SHAPES, STYLE};
use crate::margins::{push_columns, push_names, push_rows};
use crate::pieces::{Piece, push};
use crate::sheet::Sheet;
use crate::sources::{push_globals, push_plls};
use crate::tiles::push_tile;
use pin_file::GivenNames;
use plan_marks::{FloorPlan, all_cells, all_pins, all_rams, count_of};
use plane_map::DeviceName;
use std::alloc::{AllocError, Global};

/// The picture of a floor plan as SVG 1.1, without scripts and outside fonts. Row 0 of the grid is at the bottom. If there is a pin file, pins have
/// its names. The picture is a well-formed document, in which each mark of the plan is one element that has its class and stands in the group of its
/// tile, and no other element has such a class. Whatever the names are, an XML reader reads them as texts. These are laws of the text:
/// [`picture_draws_the_plan`](crate::picture_draws_the_plan), [`marks_are_placed`](crate::marks_are_placed) and
/// [`names_are_said`](crate::names_are_said).
///
/// # Errors
/// `AllocError` if memory is out, and for no other cause.
///
/// # Example
/// ```ignore
/// use plan_svg::plan_svg;
///
/// let picture = plan_svg(alloc, &plan, None)?; // `plan` is a `FloorPlan`
/// ```
#[tactic(auto, unfolding(crate::specs::Svg::plan_svg))]
pub fn plan_svg(
    alloc: Global,
    plan: &FloorPlan,
    names: Option<&GivenNames>,
) -> Result<Vec<u8>, AllocError>
    ensures text { IfOk result (λ text. text.items ≡ plan_svg (names_in names.entry) (plan_in plan.now)) }
{
    let sheet = Sheet::of(plan.device, names.is_some());
    let mut text = Vec::new(alloc);
    push_drawn(&mut text, sheet, names, plan)?;
    Ok(text)
}

/// Appends the picture on a sheet.
#[tactic(auto, unfolding(crate::specs::Svg::drawn))]
fn push_drawn(
    text: &mut Vec<u8>,
    sheet: Sheet,
    names: Option<&GivenNames>,
    plan: &FloorPlan,
) -> Result<(), AllocError>
    ensures { OnOk result (text.new.items ≡ text.old.items ++ drawn sheet (names_in names.entry) (plan_in plan.now)) }
{
    push_beginning(text, sheet, plan)?;
    push_inside(text, sheet, names, plan)?;
    text.extend_from_slice(b"</svg>\n")
}

/// Appends the legend, the tiles, and what stands around them and on them.
#[tactic(auto, unfolding(crate::specs::Svg::inside))]
fn push_inside(
    text: &mut Vec<u8>,
    sheet: Sheet,
    names: Option<&GivenNames>,
    plan: &FloorPlan,
) -> Result<(), AllocError>
    ensures { OnOk result (text.new.items ≡ text.old.items ++ inside sheet (names_in names.entry) (plan_in plan.now)) }
{
    push_legend(text, sheet, plan)?;
    push_tiles(text, sheet, names, plan)?;
    push_columns(text, sheet)?;
    push_rows(text, sheet)?;
    push_names(text, sheet, names, plan)?;
    push_plls(text, sheet, &plan.plls)?;
    push_globals(text, sheet, &plan.globals)
}

/// Appends the tiles.
fn push_tiles(
    text: &mut Vec<u8>,
    sheet: Sheet,
    names: Option<&GivenNames>,
    plan: &FloorPlan,
) -> Result<(), AllocError>
    ensures { OnOk result (text.new.items ≡ text.old.items ++ flat_map (tile_text sheet (names_in names.entry)) (plan_in plan.now).tiles) }
{
    for tile in &plan.tiles {
        push_tile(text, sheet, names, tile)?;
    }
    Ok(())
}

/// The device as it is called.
fn device_text(device: DeviceName) -> &'static [u8]
    ensures { result.now ≡ device_text device }
{
    match device {
        DeviceName::Lp384 => b"LP384",
        DeviceName::Hx1k => b"HX1K",
        DeviceName::Hx8k => b"HX8K",
    }
}

/// Appends the title: the device, and how many of its cells, RAMs and pins are used.
#[tactic(auto, unfolding(crate::specs::Svg::title))]
fn push_title(text: &mut Vec<u8>, plan: &FloorPlan) -> Result<(), AllocError>
    ensures { OnOk result (text.new.items ≡ text.old.items ++ title (plan_in plan.now)) }
{
    let (cells, all_cells) = (count_of(b"lfcd", plan)?, all_cells(plan)?);
    let (rams, all_rams) = (count_of(b"r", plan)?, all_rams(plan)?);
    let (pins, all_pins) = (count_of(b"ijopbq", plan)?, all_pins(plan)?);
    push(
        text,
        &[
            Piece::Text(device_text(plan.device)),
            Piece::Text(b": "),
            Piece::Number(cells),
            Piece::Text(b" of "),
            Piece::Number(all_cells),
            Piece::Text(b" logic cells, "),
            Piece::Number(rams),
            Piece::Text(b" of "),
            Piece::Number(all_rams),
            Piece::Text(b" block RAMs, "),
            Piece::Number(pins),
            Piece::Text(b" of "),
            Piece::Number(all_pins),
            Piece::Text(b" pins"),
        ],
    )
}

/// Appends what comes before the legend.
#[tactic(auto, unfolding(crate::specs::Svg::beginning))]
fn push_beginning(text: &mut Vec<u8>, sheet: Sheet, plan: &FloorPlan) -> Result<(), AllocError>
    ensures { OnOk result (text.new.items ≡ text.old.items ++ beginning sheet (plan_in plan.now)) }
{
    push_sizes(text, sheet)?;
    push_document_title(text, plan)?;
    text.extend_from_slice(STYLE.as_bytes())?;
    text.extend_from_slice(SHAPES.as_bytes())?;
    push_paper(text, sheet)?;
    push_seen_title(text, plan)
}

/// Appends the title of the document.
#[tactic(auto, unfolding(crate::specs::Svg::document_title))]
fn push_document_title(text: &mut Vec<u8>, plan: &FloorPlan) -> Result<(), AllocError>
    ensures { OnOk result (text.new.items ≡ text.old.items ++ document_title (plan_in plan.now)) }
{
    text.extend_from_slice(b"<title>")?;
    push_title(text, plan)?;
    text.extend_from_slice(b"</title>\n")
}

/// Appends the title to be seen.
#[tactic(auto, unfolding(crate::specs::Svg::seen_title))]
fn push_seen_title(text: &mut Vec<u8>, plan: &FloorPlan) -> Result<(), AllocError>
    ensures { OnOk result (text.new.items ≡ text.old.items ++ seen_title (plan_in plan.now)) }
{
    text.extend_from_slice(b"<text class=\"h\" x=\"20\" y=\"40\">")?;
    push_title(text, plan)?;
    text.extend_from_slice(b"</text>\n")
}

/// Appends the sizes of the picture.
#[tactic(auto, unfolding(crate::specs::Svg::sizes))]
fn push_sizes(text: &mut Vec<u8>, sheet: Sheet) -> Result<(), AllocError>
    ensures { OnOk result (text.new.items ≡ text.old.items ++ sizes sheet) }
{
    let (width, height) = (sheet.width(), sheet.height());
    push(
        text,
        &[
            Piece::Text(BEGINNING.as_bytes()),
            Piece::Number(width),
            Piece::Text(b"\" height=\""),
            Piece::Number(height),
            Piece::Text(b"\" viewBox=\"0 0 "),
            Piece::Number(width),
            Piece::Text(b" "),
            Piece::Number(height),
            Piece::Text(b"\">\n"),
        ],
    )
}

/// Appends a white ground.
#[tactic(auto, unfolding(crate::specs::Svg::paper))]
fn push_paper(text: &mut Vec<u8>, sheet: Sheet) -> Result<(), AllocError>
    ensures { OnOk result (text.new.items ≡ text.old.items ++ paper sheet) }
{
    push(
        text,
        &[
            Piece::Text(b"<rect class=\"wh\" width=\""),
            Piece::Number(sheet.width()),
            Piece::Text(b"\" height=\""),
            Piece::Number(sheet.height()),
            Piece::Text(b"\"/>\n"),
        ],
    )
}
