// Lines that one image alone has.
ghost use Rattle.std.specs.Prelude.{◌≡◌, [], ◌∷◌, ◌++◌, map, if◌then◌else◌, OnOk};
ghost use Rattle.text_lines.specs.Written.{text_of};
ghost use Rattle.image_explain.specs.Inside.{lists_of};
ghost use Rattle.image_diff.specs.Differences.{line_changes, lines_without};

use crate::line_set::LineSet;
use asc_text::end_line;
use std::alloc::{AllocError, Global};

/// Appends the lines that the first list alone has, with `-`, and then those that the second alone has, with `+`.
#[tactic(auto, using(asc_text::proofs::Pieces::joined), unfolding(crate::specs::Differences::line_changes))]
pub(crate) fn append_changes(
    text: &mut Vec<u8>,
    alloc: Global,
    first: &[Vec<u8>],
    second: &[Vec<u8>],
) -> Result<(), AllocError>
    ensures { OnOk result (text.new.items ≡ text.old.items ++ text_of (line_changes (lists_of first.now) (lists_of second.now))) }
{
    append_without(text, alloc, b'-', second, first)?;
    append_without(text, alloc, b'+', first, second)
}

/// Appends the lines that aren't among others, each with a sign before it.
#[tactic(auto, using(asc_text::proofs::Pieces::joined), unfolding(crate::specs::Differences::lines_without))]
fn append_without(
    text: &mut Vec<u8>,
    alloc: Global,
    sign: u8,
    others: &[Vec<u8>],
    lines: &[Vec<u8>],
) -> Result<(), AllocError>
    ensures { OnOk result (text.new.items ≡ text.old.items ++ text_of (map (◌∷◌ sign) (lines_without (lists_of others.now) (lists_of lines.now)))) }
{
    let others = LineSet::of(alloc, others)?;
    for line in lines {
        append_unless(text, others.contains(line), sign, line)?;
    }
    Ok(())
}

/// Appends a line with a sign before it, unless it is told not to.
fn append_unless(
    text: &mut Vec<u8>,
    is_left_out: bool,
    sign: u8,
    line: &[u8],
) -> Result<(), AllocError>
    ensures { OnOk result (text.new.items ≡ text.old.items ++ text_of (if is_left_out then [] else (sign ∷ line.now) ∷ [])) }
{
    if is_left_out {
        Ok(())
    } else {
        append_marked(text, sign, line)
    }
}

/// Appends a line with a sign before it.
#[tactic(auto, unfolding(text_lines::specs::Written::text_of))]
fn append_marked(text: &mut Vec<u8>, sign: u8, line: &[u8]) -> Result<(), AllocError>
    ensures { OnOk result (text.new.items ≡ text.old.items ++ text_of ((sign ∷ line.now) ∷ [])) }
{
    text.push(sign)?;
    text.extend_from_slice(line)?;
    end_line(text)
}

/// Appends lines, each with a sign before it.
#[tactic(auto, using(asc_text::proofs::Pieces::joined))]
pub(crate) fn append_each(text: &mut Vec<u8>, sign: u8, lines: &[Vec<u8>]) -> Result<(), AllocError>
    ensures { OnOk result (text.new.items ≡ text.old.items ++ text_of (map (◌∷◌ sign) (lists_of lines.now))) }
{
    for line in lines {
        append_marked(text, sign, line)?;
    }
    Ok(())
}
