// An image, from a bitstream or from a text.
ghost use Rattle.std.specs.Prelude.{◌≡◌, ◌≤◌, None, Ok, IfOk, IfErr, length, is_some};
ghost use Rattle.layout_file.specs.Layouts.{AreLayouts};
ghost use Rattle.ice_image.specs.Either.{configuration_of};
ghost use Rattle.bin_stream.specs.Front.{is_preamble_at, preamble_offset};
ghost use Rattle.tool_run.specs.Needs.{text_of};
ghost use Rattle.tool_inputs.specs.Images.{image_in, image_read, symbols_read, StopsImage};

use crate::faults::{asc_refusal, bin_refusal};
use crate::refusals::of_file;
use asc_text::{AscFault, AscFile, read_image_with, read_with};
use bin_stream::{BinFault, decode_with};
use ice_image::AnyImage;
use layout_file::Layouts;
use std::alloc::Global;
use tool_run::Stop;

/// The most bytes that an image may have, as a bitstream or as a text.
pub const IMAGE_LIMIT: usize = 16_777_216;

/// The preamble of a bitstream.
const PREAMBLE: [u8; 4] = [0x7E, 0xAA, 0x99, 0x7E];

/// Reads an image under layouts. The bytes are a bitstream (.bin) if the preamble is somewhere in them, and else a text (.asc). The file is
/// named where a tool has several images.
///
/// # Errors
/// `Stop::Refused` with the first fault: `offset N: CAUSE` for a bitstream, `line N: CAUSE` or `line N: tile X Y: CAUSE` for a text, after
/// the name of the file and a space if it is named. `Stop::Memory` if memory is out.
#[tactic(auto, unfolding(crate::specs::Images::image_read))]
pub fn read_image<'a>(
    alloc: Global,
    file: Option<&'a str>,
    bytes: &[u8],
    layouts: Layouts,
) -> Result<AnyImage, Stop<'a>>
    requires { AreLayouts layouts }
    ensures image { IfOk result (λ image. image_read layouts bytes.now ≡ Ok (configuration_of image)) }
    ensures stops { IfErr result (StopsImage (image_in (text_of file.entry) (image_read layouts bytes.now))) }
{
    if has_preamble(bytes) {
        match decode_with(alloc, bytes, layouts) {
            Ok(image) => Ok(image),
            Err(BinFault::At { offset, cause }) => {
                Err(Stop::Refused(of_file(file, bin_refusal(offset, cause))))
            }
            Err(BinFault::Memory(_)) => Err(Stop::Memory),
        }
    } else {
        match read_image_with(alloc, bytes, layouts) {
            Ok(image) => Ok(image),
            Err(AscFault::At { line, tile, cause }) => {
                Err(Stop::Refused(of_file(file, asc_refusal(line, tile, cause))))
            }
            Err(AscFault::Memory(_)) => Err(Stop::Memory),
        }
    }
}

/// Reads an image under layouts as [`read_image`] does, and the names that a text gives to nets. A bitstream gives none.
///
/// # Errors
/// As [`read_image`].
#[tactic(auto, unfolding(crate::specs::Images::image_read, crate::specs::Images::symbols_read))]
pub(crate) fn read_with_symbols(
    alloc: Global,
    bytes: &[u8],
    layouts: Layouts,
) -> Result<AscFile, Stop<'static>>
    requires { AreLayouts layouts }
    ensures image { IfOk result (λ file. image_read layouts bytes.now ≡ Ok (configuration_of file.image)) }
    ensures symbols { IfOk result (λ file. file.symbols.items ≡ symbols_read bytes.now) }
    ensures stops { IfErr result (StopsImage (image_in None (image_read layouts bytes.now))) }
{
    let is_stream = has_preamble(bytes);
    if is_stream {
        match read_image(alloc, None, bytes, layouts) {
            Ok(image) => Ok(AscFile {
                image,
                symbols: Vec::new(alloc),
            }),
            Err(stop) => Err(stop),
        }
    } else {
        match read_with(alloc, bytes, layouts) {
            Ok(file) => Ok(file),
            Err(AscFault::At { line, tile, cause }) => {
                Err(Stop::Refused(asc_refusal(line, tile, cause)))
            }
            Err(AscFault::Memory(_)) => Err(Stop::Memory),
        }
    }
}

/// Whether the preamble is somewhere in the bytes.
fn has_preamble(bytes: &[u8]) -> bool
    ensures { result ≡ is_some (preamble_offset bytes.now) }
{
    for offset in 0..bytes.len() {
        if is_preamble_at(bytes, offset) {
            return true;
        }
    }
    false
}

/// Whether the preamble is at an offset.
fn is_preamble_at(bytes: &[u8], offset: usize) -> bool
    requires { offset ≤ length bytes.now }
    ensures { result ≡ is_preamble_at bytes.now offset }
{
    bytes[offset..].starts_with(&PREAMBLE)
}
