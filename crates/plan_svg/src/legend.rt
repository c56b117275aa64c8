// The legend.
ghost use Rattle.std.specs.Prelude.{◌≡◌, ◌++◌, ◌∷◌, [], IfOk, OnOk, codes, decimal, map};
ghost use Rattle.std.specs.List.{concat};
ghost use Rattle.plan_svg.specs.Legend.{cell_numbers, legend, pin_numbers, ram_numbers, with_numbers};
ghost use Rattle.plan_marks.specs.Plans.{plan_in};
ghost use Rattle.plan_svg.specs.Sheet.{legend_left};

use crate::literals::{CELL_ROWS, LINK_ROWS, PIN_ROWS, PLL_HEAD, RAM_ROWS};
use crate::pieces::{Piece, push};
use crate::sheet::Sheet;
use crate::sources::{push_global_rows, push_pll_rows};
use plan_marks::{FloorPlan, all_cells, all_pins, all_rams, count_of};
use std::alloc::AllocError;

/// Appends the legend.
#[tactic(auto, unfolding(crate::specs::Legend::legend))]
pub(crate) fn push_legend(
    text: &mut Vec<u8>,
    sheet: Sheet,
    plan: &FloorPlan,
) -> Result<(), AllocError>
    ensures { OnOk result (text.new.items ≡ text.old.items ++ legend sheet (plan_in plan.now)) }
{
    push_legend_place(text, sheet)?;
    push_with_numbers(text, &CELL_ROWS, &cell_numbers(plan)?)?;
    push_with_numbers(text, &RAM_ROWS, &ram_numbers(plan)?)?;
    push_with_numbers(text, &PIN_ROWS, &pin_numbers(plan)?)?;
    text.extend_from_slice(LINK_ROWS.as_bytes())?;
    push_global_rows(text, &plan.globals)?;
    push_pll_head(text, plan.plls.len())?;
    push_pll_rows(text, 850, &plan.plls)?;
    text.extend_from_slice(b"</g>\n")
}

/// Appends where the legend begins.
fn push_legend_place(text: &mut Vec<u8>, sheet: Sheet) -> Result<(), AllocError>
    ensures { OnOk result (text.new.items ≡ text.old.items ++ concat (codes "<g transform=\"translate(" ∷ decimal (legend_left sheet) ∷ codes " 0)\">\n" ∷ [])) }
{
    push(
        text,
        &[
            Piece::Text(b"<g transform=\"translate("),
            Piece::Number(sheet.legend_left()),
            Piece::Text(b" 0)\">\n"),
        ],
    )
}

/// Appends the heading of the PLLs with their number.
fn push_pll_head(text: &mut Vec<u8>, count: usize) -> Result<(), AllocError>
    ensures { OnOk result (text.new.items ≡ text.old.items ++ concat (PLL_HEAD.now ∷ decimal count ∷ codes "</text>\n" ∷ [])) }
{
    push(
        text,
        &[
            Piece::Text(PLL_HEAD.as_bytes()),
            Piece::Number(count as u64),
            Piece::Text(b"</text>\n"),
        ],
    )
}

/// Appends texts, each with a number after it, as long as there are numbers.
fn push_with_numbers(text: &mut Vec<u8>, texts: &[&str], numbers: &[u64]) -> Result<(), AllocError>
    ensures { OnOk result (text.new.items ≡ text.old.items ++ with_numbers (map (λ text. text.now) texts.now) numbers.now) }
{
    match (texts, numbers) {
        ([first, texts @ ..], [number, numbers @ ..]) => {
            push(
                text,
                &[Piece::Text(first.as_bytes()), Piece::Number(*number)],
            )?;
            push_with_numbers(text, texts, numbers)
        }
        ([first, texts @ ..], []) => {
            text.extend_from_slice(first.as_bytes())?;
            push_with_numbers(text, texts, numbers)
        }
        ([], _) => Ok(()),
    }
}

/// How many cells are unused, and how many are used, by their classes.
#[tactic(auto, unfolding(crate::specs::Legend::cell_numbers))]
fn cell_numbers(plan: &FloorPlan) -> Result<[u64; 5], AllocError>
    ensures { IfOk result (λ numbers. numbers ≡ cell_numbers (plan_in plan.now)) }
{
    let used = count_of(b"lfcd", plan)?;
    Ok([
        all_cells(plan)?.saturating_sub(used),
        count_of(b"l", plan)?,
        count_of(b"f", plan)?,
        count_of(b"c", plan)?,
        count_of(b"d", plan)?,
    ])
}

/// How many RAMs are unused, and how many are used.
#[tactic(auto, unfolding(crate::specs::Legend::ram_numbers))]
fn ram_numbers(plan: &FloorPlan) -> Result<[u64; 2], AllocError>
    ensures { IfOk result (λ numbers. numbers ≡ ram_numbers (plan_in plan.now)) }
{
    let used = count_of(b"r", plan)?;
    Ok([all_rams(plan)?.saturating_sub(used), used])
}

/// How many pins are no ports, and how many are, by their classes.
#[tactic(auto, unfolding(crate::specs::Legend::pin_numbers))]
fn pin_numbers(plan: &FloorPlan) -> Result<[u64; 7], AllocError>
    ensures { IfOk result (λ numbers. numbers ≡ pin_numbers (plan_in plan.now)) }
{
    let used = count_of(b"ijopbq", plan)?;
    Ok([
        all_pins(plan)?.saturating_sub(used),
        count_of(b"i", plan)?,
        count_of(b"j", plan)?,
        count_of(b"o", plan)?,
        count_of(b"p", plan)?,
        count_of(b"b", plan)?,
        count_of(b"q", plan)?,
    ])
}
