// The canonical text of an image.
ghost use Rattle.std.specs.Prelude.{◌≡◌, ◌≤◌, ◌^◌, [], ◌∷◌, ◌++◌, IfOk, IfSome, OnOk, All, option_copied};
ghost use Rattle.text_lines.specs.Written.{text_of};
ghost use Rattle.layout_file.specs.declared.layouts.Layouts.{Layouts};
ghost use Rattle.layout_file.specs.Layouts.{HasLayout};
ghost use Rattle.ice_image.specs.Configuration.{IsWhole};
ghost use Rattle.ice_image.specs.Either.{configuration_of};
ghost use Rattle.ice_image.specs.CommentLines.{IsCommentLine};
ghost use Rattle.plane_map.specs.DeviceWords.{device_word};
ghost use Rattle.asc_text.specs.Statements.{device_keyword, comment_keyword};
ghost use Rattle.asc_text.specs.Canonical.{asc_text_of, head_lines, comment_lines, with_word, warm_boot_lines, range_lines, no_sleep_lines};
ghost use Rattle.asc_text.specs.Meaning.{AscMeans};

use crate::writing::extras::append_extra_bits;
use crate::writing::lines::{append_line, append_setting};
use crate::writing::tiles::append_tiles;
use ice_image::{AnyImage, Comment, Range};
use plane_map::DeviceName;
use std::alloc::{AllocError, Global};

/// The canonical text of an image. `read_with` under layouts that include the image's layout gives the image back, and no names of nets.
///
/// # Errors
/// `AllocError` if memory is out, and for no other cause.
///
/// # Example
/// ```ignore
/// let image = AnyImage::zeroed(alloc, DeviceName::Lp384)?;
/// let text = write(alloc, &image)?;
/// let lines = text.iter().filter(|byte| **byte == b'\n').count();
/// ```
pub fn write(alloc: Global, image: &AnyImage) -> Result<Vec<u8>, AllocError>
    ensures text { IfOk result (λ text. text.items ≡ asc_text_of (configuration_of image.now)) }
    ensures means { IfOk result (λ text. (layouts : Layouts) → HasLayout layouts (configuration_of image.now).layout → AscMeans layouts text.items (configuration_of image.now) []) }
{
    let mut text = Vec::with_capacity(alloc, usual_len(image.device()))?;
    append_head(&mut text, image)?;
    append_tiles(&mut text, image)?;
    append_extra_bits(&mut text, image, alloc)?;
    Ok(text)
}

/// Appends the lines before the tiles: the comment, the device and the settings.
pub(crate) fn append_head(text: &mut Vec<u8>, image: &AnyImage) -> Result<(), AllocError>
    ensures text { OnOk result (text.new.items ≡ text.old.items ++ text_of (head_lines (configuration_of image.now))) }
    ensures lines { OnOk result (IfSome (configuration_of image.now).comment (All IsCommentLine)) }
    ensures whole { OnOk result (IsWhole (configuration_of image.now)) }
{
    let settings = image.settings();
    append_comment(text, image.comment())?;
    append_device(text, image.device())?;
    append_warm_boot(text, settings.warm_boot)?;
    append_range(text, settings.range)?;
    append_no_sleep(text, settings.no_sleep)
}

/// The number of bytes to reserve for a text with a short comment and few extra bits.
fn usual_len(device: DeviceName) -> usize
    ensures { result ≤ 2 ^ 20 }
{
    match device {
        DeviceName::Lp384 => 1 << 16,
        DeviceName::Hx1k => 1 << 18,
        DeviceName::Hx8k => 1 << 20,
    }
}

/// Appends the comment, if there is one.
fn append_comment<'a>(text: &mut Vec<u8>, comment: Option<&'a Comment>) -> Result<(), AllocError>
    ensures text { OnOk result (text.new.items ≡ text.old.items ++ text_of (comment_lines (option_copied comment.entry))) }
    ensures lines { OnOk result (IfSome (option_copied comment.entry) (All IsCommentLine)) }
{
    match comment {
        None => Ok(()),
        Some(comment) => append_comment_lines(text, comment),
    }
}

/// Appends a comment.
fn append_comment_lines(text: &mut Vec<u8>, comment: &Comment) -> Result<(), AllocError>
    ensures text { OnOk result (text.new.items ≡ text.old.items ++ text_of (comment_keyword ∷ comment.now)) }
    ensures lines { OnOk result (All IsCommentLine comment.now) }
{
    append_line(text, b".comment")?;
    for index in 0..comment.len() {
        append_line(text, comment.line(index))?;
    }
    Ok(())
}

/// Appends the device.
fn append_device(text: &mut Vec<u8>, device: DeviceName) -> Result<(), AllocError>
    ensures { OnOk result (text.new.items ≡ text.old.items ++ text_of (with_word device_keyword (device_word device) ∷ [])) }
{
    append_setting(text, b".device", device.word())
}

/// Appends the statement `.warmboot`, if warm boot is disabled.
fn append_warm_boot(text: &mut Vec<u8>, warm_boot: bool) -> Result<(), AllocError>
    ensures { OnOk result (text.new.items ≡ text.old.items ++ text_of (warm_boot_lines warm_boot)) }
{
    if warm_boot {
        Ok(())
    } else {
        append_setting(text, b".warmboot", b"disabled")
    }
}

/// Appends the statement `.freqrange`, if the range isn't low.
fn append_range(text: &mut Vec<u8>, range: Range) -> Result<(), AllocError>
    ensures { OnOk result (text.new.items ≡ text.old.items ++ text_of (range_lines range)) }
{
    match range {
        Range::Low => Ok(()),
        Range::Medium => append_setting(text, b".freqrange", b"medium"),
        Range::High => append_setting(text, b".freqrange", b"high"),
    }
}

/// Appends the statement `.nosleep`, if no sleep is enabled.
fn append_no_sleep(text: &mut Vec<u8>, no_sleep: bool) -> Result<(), AllocError>
    ensures { OnOk result (text.new.items ≡ text.old.items ++ text_of (no_sleep_lines no_sleep)) }
{
    if no_sleep {
        append_setting(text, b".nosleep", b"enabled")
    } else {
        Ok(())
    }
}
