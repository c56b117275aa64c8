// PLLs that are on and global networks: their marks in the grid, and their rows in the legend.
ghost use Rattle.std.specs.Prelude.{◌≡◌, ◌++◌, ◌+◌, ◌*◌, OnOk, flat_map};
ghost use Rattle.plan_svg.specs.Sources.{badge, badge_text, global_badge, global_class, global_mark, global_row, global_shape, output_words, outputs_words, pll_frame, pll_mark, pll_row, pll_rows, read_words, source_words};

use crate::pieces::{Piece, push};
use crate::sheet::{Offset, Sheet, Side};
use plan_marks::{GlobalMark, GlobalSource, PllMark};
use std::alloc::AllocError;

// ---- in the grid

/// Appends a frame around the tile of each PLL.
pub(crate) fn push_plls(
    text: &mut Vec<u8>,
    sheet: Sheet,
    plls: &[PllMark],
) -> Result<(), AllocError>
    ensures { OnOk result (text.new.items ≡ text.old.items ++ flat_map (pll_mark sheet) plls.now) }
{
    for pll in plls {
        push_pll(text, sheet, *pll)?;
    }
    Ok(())
}

/// Appends a frame around the tile of a PLL, if the tile is in the grid.
fn push_pll(text: &mut Vec<u8>, sheet: Sheet, pll: PllMark) -> Result<(), AllocError>
    ensures { OnOk result (text.new.items ≡ text.old.items ++ pll_mark sheet pll) }
{
    if pll.x < u32::from(sheet.columns) && pll.y < u32::from(sheet.rows) {
        push_frame(text, sheet, pll)?;
    }
    Ok(())
}

/// Appends a frame around a tile.
#[tactic(auto, unfolding(crate::specs::Sources::pll_frame))]
fn push_frame(text: &mut Vec<u8>, sheet: Sheet, pll: PllMark) -> Result<(), AllocError>
    ensures { OnOk result (text.new.items ≡ text.old.items ++ pll_frame sheet pll) }
{
    push(
        text,
        &[
            Piece::Text(b"<use class=\"y\" xlink:href=\"#Y\" x=\""),
            Piece::Number(sheet.left(pll.x)),
            Piece::Text(b"\" y=\""),
            Piece::Number(sheet.top(pll.y)),
            Piece::Text(b"\"/>\n"),
        ],
    )
}

/// The class of a global network.
fn global_class(is_read: bool) -> u8
    ensures { result ≡ global_class is_read }
{
    if is_read { b'g' } else { b'z' }
}

/// The shape of the badge of a global network.
fn global_shape(source: GlobalSource) -> u8
    ensures { result ≡ global_shape source }
{
    match source {
        GlobalSource::Pin { .. } | GlobalSource::Pll { .. } => b'C',
        GlobalSource::Fabric => b'F',
    }
}

/// The centre of the badge of a global network in its tile.
fn badge(side: Side, source: GlobalSource) -> Offset
    ensures { result ≡ badge side source }
{
    match source {
        GlobalSource::Pin { n } | GlobalSource::Pll { n, .. } => side.pin_badge(n),
        GlobalSource::Fabric => side.fabric_badge(),
    }
}

/// Appends the badges of global networks.
pub(crate) fn push_globals(
    text: &mut Vec<u8>,
    sheet: Sheet,
    globals: &[GlobalMark],
) -> Result<(), AllocError>
    ensures { OnOk result (text.new.items ≡ text.old.items ++ flat_map (global_mark sheet) globals.now) }
{
    for global in globals {
        push_global(text, sheet, *global)?;
    }
    Ok(())
}

/// Appends the badge of a global network, at the tile that drives it.
fn push_global(text: &mut Vec<u8>, sheet: Sheet, global: GlobalMark) -> Result<(), AllocError>
    ensures { OnOk result (text.new.items ≡ text.old.items ++ global_mark sheet global) }
{
    let offset = badge(sheet.side_of(global.x, global.y), global.source);
    let x = sheet.left(u32::from(global.x)) + u64::from(offset.x);
    let y = sheet.top(u32::from(global.y)) + u64::from(offset.y);
    push_badge(text, x, y, y + 3, global)
}

/// Appends a badge at (x, y) with the number of a global network, whose foot is at `foot`.
#[tactic(auto, unfolding(crate::specs::Sources::badge_text))]
fn push_badge(
    text: &mut Vec<u8>,
    x: u64,
    y: u64,
    foot: u64,
    global: GlobalMark,
) -> Result<(), AllocError>
    ensures { OnOk result (text.new.items ≡ text.old.items ++ badge_text x y foot global) }
{
    push(
        text,
        &[
            Piece::Text(b"<use class=\""),
            Piece::Letter(global_class(global.is_read)),
            Piece::Text(b"\" xlink:href=\"#"),
            Piece::Letter(global_shape(global.source)),
            Piece::Text(b"\" x=\""),
            Piece::Number(x),
            Piece::Text(b"\" y=\""),
            Piece::Number(y),
            Piece::Text(b"\"/><text class=\"gt\" x=\""),
            Piece::Number(x),
            Piece::Text(b"\" y=\""),
            Piece::Number(foot),
            Piece::Text(b"\">"),
            Piece::Number(u64::from(global.g)),
            Piece::Text(b"</text>\n"),
        ],
    )
}

// ---- in the legend

/// Appends the rows of global networks.
pub(crate) fn push_global_rows(text: &mut Vec<u8>, globals: &[GlobalMark]) -> Result<(), AllocError>
    ensures { OnOk result (text.new.items ≡ text.old.items ++ flat_map global_row globals.now) }
{
    for global in globals {
        push_global_row(text, *global)?;
    }
    Ok(())
}

/// Appends the row of a global network.
#[tactic(auto, unfolding(crate::specs::Sources::global_row))]
fn push_global_row(text: &mut Vec<u8>, global: GlobalMark) -> Result<(), AllocError>
    ensures { OnOk result (text.new.items ≡ text.old.items ++ global_row global) }
{
    let y = 654 + 20 * u64::from(global.g);
    push_global_badge(text, y, global)?;
    push_source(text, global)?;
    push_read(text, y, global.is_read)
}

/// Appends the badge of a row, and where its words begin.
#[tactic(auto, unfolding(crate::specs::Sources::global_badge))]
fn push_global_badge(text: &mut Vec<u8>, y: u64, global: GlobalMark) -> Result<(), AllocError>
    ensures { OnOk result (text.new.items ≡ text.old.items ++ global_badge y global) }
{
    push(
        text,
        &[
            Piece::Text(b"<use class=\"k"),
            Piece::Letter(global_class(global.is_read)),
            Piece::Text(b"\" xlink:href=\"#"),
            Piece::Letter(global_shape(global.source)),
            Piece::Text(b"\" x=\"16\" y=\""),
            Piece::Number(y.saturating_sub(5)),
            Piece::Text(b"\"/><text class=\"gt\" x=\"16\" y=\""),
            Piece::Number(y.saturating_sub(2)),
            Piece::Text(b"\">"),
            Piece::Number(u64::from(global.g)),
            Piece::Text(b"</text><text class=\"k\" x=\"48\" y=\""),
            Piece::Number(y),
            Piece::Text(b"\">"),
        ],
    )
}

/// Appends what drives a global network.
#[tactic(auto, unfolding(crate::specs::Sources::source_words))]
fn push_source(text: &mut Vec<u8>, global: GlobalMark) -> Result<(), AllocError>
    ensures { OnOk result (text.new.items ≡ text.old.items ++ source_words global.x global.y global.source) }
{
    let (x, y) = (u64::from(global.x), u64::from(global.y));
    match global.source {
        GlobalSource::Pin { n } => push(
            text,
            &[
                Piece::Text(b"pin "),
                Piece::Number(x),
                Piece::Text(b" "),
                Piece::Number(y),
                Piece::Text(b" "),
                Piece::Number(u64::from(n)),
            ],
        ),
        GlobalSource::Pll { x, y, is_b, .. } => push(
            text,
            &[
                Piece::Text(b"PLL "),
                Piece::Number(u64::from(x)),
                Piece::Text(b" "),
                Piece::Number(u64::from(y)),
                Piece::Text(output_words(is_b)),
            ],
        ),
        GlobalSource::Fabric => push(
            text,
            &[
                Piece::Text(b"fabric "),
                Piece::Number(x),
                Piece::Text(b" "),
                Piece::Number(y),
            ],
        ),
    }
}

/// An output of a PLL.
fn output_words(is_b: bool) -> &'static [u8]
    ensures { result.now ≡ output_words is_b }
{
    if is_b { b" output b" } else { b" output a" }
}

/// Appends the end of a row, which says if a global network isn't read.
#[tactic(auto, unfolding(crate::specs::Sources::read_words))]
fn push_read(text: &mut Vec<u8>, y: u64, is_read: bool) -> Result<(), AllocError>
    ensures { OnOk result (text.new.items ≡ text.old.items ++ read_words y is_read) }
{
    if is_read {
        return text.extend_from_slice(b"</text>\n");
    }
    push(
        text,
        &[
            Piece::Text(b"</text><text class=\"v\" x=\"284\" y=\""),
            Piece::Number(y),
            Piece::Text(b"\">not read</text>\n"),
        ],
    )
}

/// Appends the rows of PLLs, 20 apart, the first one at `y`.
#[tactic(auto, unfolding(crate::specs::Sources::pll_rows))]
pub(crate) fn push_pll_rows(text: &mut Vec<u8>, y: u64, plls: &[PllMark]) -> Result<(), AllocError>
    ensures { OnOk result (text.new.items ≡ text.old.items ++ pll_rows y plls.now) }
{
    match plls {
        [] => Ok(()),
        [pll, others @ ..] => {
            push_pll_row(text, y, *pll)?;
            push_pll_rows(text, y.checked_add(20).ok_or(AllocError)?, others)
        }
    }
}

/// Appends the row of a PLL.
#[tactic(auto, unfolding(crate::specs::Sources::pll_row))]
fn push_pll_row(text: &mut Vec<u8>, y: u64, pll: PllMark) -> Result<(), AllocError>
    ensures { OnOk result (text.new.items ≡ text.old.items ++ pll_row y pll) }
{
    push(
        text,
        &[
            Piece::Text(b"<rect class=\"ky\" x=\"4\" y=\""),
            Piece::Number(y.saturating_sub(12)),
            Piece::Text(b"\" width=\"24\" height=\"13\"/><text class=\"k\" x=\"48\" y=\""),
            Piece::Number(y),
            Piece::Text(b"\">PLL "),
            Piece::Number(u64::from(pll.x)),
            Piece::Text(b" "),
            Piece::Number(u64::from(pll.y)),
            Piece::Text(outputs_words(pll.has_b)),
        ],
    )
}

/// The outputs of a PLL, and the end of its row.
fn outputs_words(has_b: bool) -> &'static [u8]
    ensures { result.now ≡ outputs_words has_b }
{
    if has_b {
        b" outputs a b</text>\n"
    } else {
        b" output a</text>\n"
    }
}
