// Settings that differ.
ghost use Rattle.std.specs.Prelude.{◌≡◌, [], ◌∷◌, ◌++◌, IfOk, OnOk};
ghost use Rattle.text_lines.specs.Written.{text_of};
ghost use Rattle.asc_text.specs.Canonical.{no_sleep_lines as lines_of_no_sleep, range_lines as lines_of_range, warm_boot_lines as lines_of_warm_boot};
ghost use Rattle.image_explain.specs.Inside.{lists_of};
ghost use Rattle.image_diff.specs.Differences.{line_changes, setting_changes};

use crate::lines::append_changes;
use ice_image::{Range, Settings};
use std::alloc::{AllocError, Global};

/// Appends the lines of the settings that one image alone has, one setting after the other.
#[tactic(auto, using(asc_text::proofs::Pieces::joined), unfolding(crate::specs::Differences::setting_changes))]
pub(crate) fn append_settings(
    text: &mut Vec<u8>,
    alloc: Global,
    first: Settings,
    second: Settings,
) -> Result<(), AllocError>
    ensures { OnOk result (text.new.items ≡ text.old.items ++ text_of (setting_changes first second)) }
{
    append_warm_boot(text, alloc, first.warm_boot, second.warm_boot)?;
    append_range(text, alloc, first.range, second.range)?;
    append_no_sleep(text, alloc, first.no_sleep, second.no_sleep)
}

/// Appends the lines for warm boot.
fn append_warm_boot(
    text: &mut Vec<u8>,
    alloc: Global,
    first: bool,
    second: bool,
) -> Result<(), AllocError>
    ensures { OnOk result (text.new.items ≡ text.old.items ++ text_of (line_changes (lines_of_warm_boot first) (lines_of_warm_boot second))) }
{
    let first = warm_boot_lines(alloc, first)?;
    let second = warm_boot_lines(alloc, second)?;
    append_changes(text, alloc, &first, &second)
}

/// Appends the lines for the range.
fn append_range(
    text: &mut Vec<u8>,
    alloc: Global,
    first: Range,
    second: Range,
) -> Result<(), AllocError>
    ensures { OnOk result (text.new.items ≡ text.old.items ++ text_of (line_changes (lines_of_range first) (lines_of_range second))) }
{
    let first = range_lines(alloc, first)?;
    let second = range_lines(alloc, second)?;
    append_changes(text, alloc, &first, &second)
}

/// Appends the lines for no sleep.
fn append_no_sleep(
    text: &mut Vec<u8>,
    alloc: Global,
    first: bool,
    second: bool,
) -> Result<(), AllocError>
    ensures { OnOk result (text.new.items ≡ text.old.items ++ text_of (line_changes (lines_of_no_sleep first) (lines_of_no_sleep second))) }
{
    let first = no_sleep_lines(alloc, first)?;
    let second = no_sleep_lines(alloc, second)?;
    append_changes(text, alloc, &first, &second)
}

/// The line that says that warm boot is disabled, if it is.
fn warm_boot_lines(alloc: Global, warm_boot: bool) -> Result<Vec<Vec<u8>>, AllocError>
    ensures { IfOk result (λ lines. lists_of lines.items ≡ lines_of_warm_boot warm_boot) }
{
    if warm_boot {
        Ok(Vec::new(alloc))
    } else {
        one_line(alloc, b".warmboot disabled")
    }
}

/// The line of the range, if it isn't low.
fn range_lines(alloc: Global, range: Range) -> Result<Vec<Vec<u8>>, AllocError>
    ensures { IfOk result (λ lines. lists_of lines.items ≡ lines_of_range range) }
{
    match range {
        Range::Low => Ok(Vec::new(alloc)),
        Range::Medium => one_line(alloc, b".freqrange medium"),
        Range::High => one_line(alloc, b".freqrange high"),
    }
}

/// The line that says that no sleep is enabled, if it is.
fn no_sleep_lines(alloc: Global, no_sleep: bool) -> Result<Vec<Vec<u8>>, AllocError>
    ensures { IfOk result (λ lines. lists_of lines.items ≡ lines_of_no_sleep no_sleep) }
{
    if no_sleep {
        one_line(alloc, b".nosleep enabled")
    } else {
        Ok(Vec::new(alloc))
    }
}

/// A list of one line.
fn one_line(alloc: Global, line: &[u8]) -> Result<Vec<Vec<u8>>, AllocError>
    ensures { IfOk result (λ lines. lists_of lines.items ≡ line.now ∷ []) }
{
    let mut lines = Vec::new(alloc);
    let mut copy = Vec::new(alloc);
    copy.extend_from_slice(line)?;
    lines.push(copy).map_err(AllocError::from)?;
    Ok(lines)
}
