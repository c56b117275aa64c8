// Reading a bitstream that is in memory as a whole.
ghost use Rattle.std.specs.Prelude.{◌≡◌, Ok, IfOk, IfErr};
ghost use Rattle.layout_file.specs.Layouts.{standard_layouts, AreLayouts};
ghost use Rattle.ice_image.specs.Either.{configuration_of};
ghost use Rattle.bin_stream.specs.Spelling.{IsDecided, bin_read_of, Tells};

use super::front::{comment_of, preamble_offset};
use super::head::{Cursor, fault_at};
use super::machine::Machine;
use super::taking::{image_at_end, take_commands};
use crate::fault::{BinCause, BinFault};
use crate::marks::PREAMBLE;
use ice_image::AnyImage;
use layout_file::Layouts;
use std::alloc::Global;

/// The image that a bitstream spells under the standard layouts.
///
/// # Errors
/// `BinFault::At` for the first fault, with its offset and its cause; `BinFault::Memory` if memory is out.
pub fn decode(alloc: Global, bytes: &[u8]) -> Result<AnyImage, BinFault>
    ensures decided { IsDecided standard_layouts bytes.now }
    ensures image { IfOk result (λ image. bin_read_of standard_layouts bytes.now ≡ Ok (configuration_of image)) }
    ensures refused { IfErr result (Tells (bin_read_of standard_layouts bytes.now)) }
{
    decode_with(alloc, bytes, Layouts::standard())
}

/// The image that a bitstream spells under the layouts.
///
/// # Errors
/// As [`decode`].
///
/// # Example
/// ```ignore
/// match decode_with(alloc, &bytes, Layouts::standard()) {
///     Ok(image) => Ok(image.device()),
///     Err(BinFault::At { offset, .. }) => Err(offset),
///     Err(BinFault::Memory(_)) => Err(0),
/// }
/// ```
#[tactic(auto, using(crate::proofs::Decided::decided))]
pub fn decode_with(alloc: Global, bytes: &[u8], layouts: Layouts) -> Result<AnyImage, BinFault>
    requires { AreLayouts layouts }
    ensures decided { IsDecided layouts bytes.now }
    ensures image { IfOk result (λ image. bin_read_of layouts bytes.now ≡ Ok (configuration_of image)) }
    ensures refused { IfErr result (Tells (bin_read_of layouts bytes.now)) }
{
    match preamble_offset(bytes) {
        Some(offset) => {
            let comment = comment_of(alloc, &bytes[..offset])?;
            let machine = Machine::new(layouts);
            let at = Cursor::new(bytes).following(offset + PREAMBLE.len());
            let taken = take_commands(alloc, machine, at)?;
            if taken.is_last {
                image_at_end(taken.machine, comment, bytes.len())
            } else {
                Err(fault_at(bytes.len(), BinCause::Truncated))
            }
        }
        None => Err(fault_at(bytes.len(), BinCause::NoPreamble)),
    }
}
