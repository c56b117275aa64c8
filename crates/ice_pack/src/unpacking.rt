// Unpacking a bitstream into a text.
ghost use Rattle.std.specs.Prelude.{◌≡◌, ℕ, List, IfOk, IfErr};
ghost use Rattle.layout_file.specs.declared.layouts.Layouts.{Layouts};
ghost use Rattle.layout_file.specs.Layouts.{standard_layouts, AreLayouts};
ghost use Rattle.asc_text.specs.InPieces.{canonical_in};
ghost use Rattle.bin_stream.specs.Decoding.{StandsFor};
ghost use Rattle.bin_stream.specs.Spelling.{IsDecided, bin_read_of, Tells};
ghost use Rattle.ice_pack.specs.Packed.{IsUnpacked, PacksBack, PacksToItself};

use asc_text::{CanonicalText, write};
use bin_stream::{BinFault, Decoder, decode_with};
use layout_file::Layouts;
use std::alloc::Global;

/// The canonical text of what a bitstream spells under the standard layouts. `iceunpack` reads in pieces and calls [`unpack_fed`]: this is
/// for users of the library who have the whole bitstream.
///
/// # Errors
/// `BinFault::At` for the first fault, with its offset and its cause; `BinFault::Memory` if memory is out.
///
/// # Example
/// ```ignore
/// match unpack(alloc, &bytes) {
///     Ok(text) => Ok(text),
///     Err(BinFault::At { offset, .. }) => Err(offset),
///     Err(BinFault::Memory(_)) => Err(0),
/// }
/// ```
pub fn unpack(alloc: Global, bin: &[u8]) -> Result<Vec<u8>, BinFault>
    // The input spells one image or has one fault, and not both.
    ensures decided { IsDecided standard_layouts bin.now }
    ensures unpacked { IfOk result (λ text. IsUnpacked standard_layouts bin.now text.items) }
    ensures back { IfOk result (λ text. PacksBack standard_layouts bin.now text.items) }
    ensures itself { IfOk result (λ text. PacksToItself standard_layouts bin.now text.items) }
    ensures refused { IfErr result (Tells (bin_read_of standard_layouts bin.now)) }
{
    unpack_with(alloc, bin, Layouts::standard())
}

/// The canonical text of what a bitstream spells under the layouts. `iceunpack` reads in pieces and calls [`unpack_fed`]: this is for users
/// of the library who have the whole bitstream.
///
/// # Errors
/// As [`unpack`].
pub fn unpack_with(alloc: Global, bin: &[u8], layouts: Layouts) -> Result<Vec<u8>, BinFault>
    requires { AreLayouts layouts }
    ensures decided { IsDecided layouts bin.now }
    ensures unpacked { IfOk result (λ text. IsUnpacked layouts bin.now text.items) }
    ensures back { IfOk result (λ text. PacksBack layouts bin.now text.items) }
    ensures itself { IfOk result (λ text. PacksToItself layouts bin.now text.items) }
    ensures refused { IfErr result (Tells (bin_read_of layouts bin.now)) }
{
    let image = decode_with(alloc, bin, layouts)?;
    Ok(write(alloc, &image)?)
}

/// The canonical text of what the bitstream spells that was fed to a decoder, in one or more pieces. The text is made while it is
/// written.
///
/// # Errors
/// As [`unpack`].
pub fn unpack_fed(alloc: Global, decoder: Decoder) -> Result<CanonicalText, BinFault>
    ensures decided { (layouts : Layouts) (bytes : List ℕ) → StandsFor layouts bytes decoder → IsDecided layouts bytes }
    ensures unpacked { IfOk result (λ text. (layouts : Layouts) (bytes : List ℕ) → StandsFor layouts bytes decoder → IsUnpacked layouts bytes (canonical_in text)) }
    ensures back { IfOk result (λ text. (layouts : Layouts) (bytes : List ℕ) → StandsFor layouts bytes decoder → PacksBack layouts bytes (canonical_in text)) }
    ensures itself { IfOk result (λ text. (layouts : Layouts) (bytes : List ℕ) → StandsFor layouts bytes decoder → PacksToItself layouts bytes (canonical_in text)) }
    ensures refused { IfErr result (λ fault. (layouts : Layouts) (bytes : List ℕ) → StandsFor layouts bytes decoder → Tells (bin_read_of layouts bytes) fault) }
{
    let image = decoder.finish()?;
    Ok(CanonicalText::of(alloc, image)?)
}
