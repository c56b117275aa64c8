// Writing the bitstream of an image.
ghost use Rattle.std.specs.Prelude.{◌≡◌, ◌≤◌, ◌+◌, ◌++◌, length, drop, Ok, IfOk, OnOk};
ghost use Rattle.bit_plane.specs.BitList.{bits_of};
ghost use Rattle.layout_file.specs.declared.layouts.Layouts.{Layouts};
ghost use Rattle.layout_file.specs.Layouts.{HasLayout};
ghost use Rattle.ice_image.specs.Either.{configuration_of};
ghost use Rattle.bin_stream.specs.CanonicalBytes.{canonical_bytes, checked_bytes, range_number, mode_command, two_bytes};
ghost use Rattle.bin_stream.specs.CheckValue.{check_value};
ghost use Rattle.bin_stream.specs.Spelling.{Spells, bin_read_of};
ghost use Rattle.bin_stream.specs.inside.Room.{planes_size};

use super::command::{append_command, append_control, two_bytes};
use super::comment::append_comment;
use super::planes::{append_bram, append_cram};
use crate::check_value::check_value;
use crate::marks::PREAMBLE;
use crate::opcode::{Control, Opcode};
use ice_image::{AnyImage, Range, Settings};
use plane_map::DeviceName;
use std::alloc::{AllocError, Global};

/// The bit of the mode that enables a warm boot.
const WARM_BOOT: u8 = 32;

/// The canonical bytes of an image: the one bitstream that is written for it.
///
/// # Errors
/// `AllocError` if memory is out, and for no other cause.
///
/// # Example
/// ```ignore
/// let mut image = AnyImage::zeroed(alloc, DeviceName::Hx1k)?;
/// image.set_comment(Some(Comment::new(alloc)));
/// let bytes = encode(alloc, &image)?;
/// ```
pub fn encode(alloc: Global, image: &AnyImage) -> Result<Vec<u8>, AllocError>
    ensures bytes { IfOk result (λ bytes. bytes.items ≡ canonical_bytes (configuration_of image.now)) }
    ensures spells { IfOk result (λ bytes. (layouts : Layouts) → HasLayout layouts (configuration_of image.now).layout → Spells layouts bytes.items (configuration_of image.now)) }
    // So `decode_with` under layouts that include the image's layout gives the image back.
    ensures read { IfOk result (λ bytes. (layouts : Layouts) → HasLayout layouts (configuration_of image.now).layout → bin_read_of layouts bytes.items ≡ Ok (configuration_of image.now)) }
{
    let mut out = Vec::with_capacity(alloc, usual_size(image.device()))?;
    append_comment(&mut out, image)?;
    out.extend_from_slice(&PREAMBLE)?;
    append_command(
        &mut out,
        Opcode::Range,
        &[range_number(image.settings().range)],
    )?;
    append_control(&mut out, Control::Reset)?;
    let after_reset = out.len();
    append_checked(&mut out, image)?;
    append_check_value(&mut out, after_reset)?;
    append_control(&mut out, Control::WakeUp)?;
    out.push(0)?;
    Ok(out)
}

/// The number of bytes to reserve for the bitstream of an image with a short comment: the rows of its planes, which are all written, and
/// 1,024 bytes more.
fn usual_size(device: DeviceName) -> usize
    ensures { result ≤ planes_size device + 1024 }
{
    match device {
        DeviceName::Lp384 => 8_000,
        DeviceName::Hx1k => 33_000,
        DeviceName::Hx8k => 136_000,
    }
}

/// The value of a range in the range command.
fn range_number(range: Range) -> u8
    ensures { result ≡ range_number range }
{
    match range {
        Range::Low => 0,
        Range::Medium => 1,
        Range::High => 2,
    }
}

/// Appends what the CRC covers: everything after the reset of the CRC, up to the first byte of the check command.
#[tactic(auto, unfolding(crate::specs::CanonicalBytes::checked_bytes))]
fn append_checked(out: &mut Vec<u8>, image: &AnyImage) -> Result<(), AllocError>
    ensures { OnOk result (out.new.items ≡ out.old.items ++ checked_bytes (configuration_of image.now)) }
{
    append_mode(out, image.settings())?;
    append_cram(out, image)?;
    append_bram(out, image)?;
    out.push(16 * Opcode::Check.number() + 2)?;
    Ok(())
}

/// Appends the mode: warm boot and sleep.
fn append_mode(out: &mut Vec<u8>, settings: Settings) -> Result<(), AllocError>
    ensures { OnOk result (out.new.items ≡ out.old.items ++ mode_command settings.warm_boot settings.no_sleep) }
{
    let mode = WARM_BOOT * u8::from(settings.warm_boot) + u8::from(settings.no_sleep);
    append_command(out, Opcode::Mode, &[0, mode])
}

/// Appends the CRC of the bytes from an offset on.
fn append_check_value(out: &mut Vec<u8>, start: usize) -> Result<(), AllocError>
    requires { start ≤ length out.old.items }
    ensures { OnOk result (out.new.items ≡ out.old.items ++ two_bytes (check_value (bits_of (drop start out.old.items)))) }
{
    let value = check_value(&out[start..]);
    out.extend_from_slice(&two_bytes(value))
}
