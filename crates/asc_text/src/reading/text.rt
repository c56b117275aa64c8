// A text that is in memory as a whole.
ghost use Rattle.std.specs.Prelude.{◌≡◌, None, IfOk, IfErr, OnOk};
ghost use Rattle.layout_file.specs.Layouts.{standard_layouts, AreLayouts};
ghost use Rattle.ice_image.specs.Either.{configuration_of};
ghost use Rattle.asc_text.specs.Faults.{asc_fault_of, Tells};
ghost use Rattle.asc_text.specs.Meaning.{AscMeans, asc_symbols_of};
ghost use Rattle.asc_text.specs.Characters.{HasBits};

use crate::fault::AscFault;
use crate::file::AscFile;
use crate::reading::asc_reader::AscReader;
use crate::reading::symbols::symbols_in;
use ice_image::AnyImage;
use layout_file::Layouts;
use std::alloc::Global;

/// The configuration and the names of nets that a text gives under the standard layouts. No tool of this project needs it: it is for users of
/// the library.
///
/// # Errors
/// `AscFault::At` for the first faulty line, with its tile or RAM and its cause; `AscFault::Memory` if memory is out.
pub fn read(alloc: Global, bytes: &[u8]) -> Result<AscFile, AscFault>
    ensures means { IfOk result (λ file. AscMeans standard_layouts bytes.now (configuration_of file.image) file.symbols.items) }
    // Each bit is the character, the digit or the statement that stands for it.
    ensures bits { IfOk result (λ file. HasBits bytes.now (configuration_of file.image)) }
    ensures accepted { OnOk result (asc_fault_of standard_layouts bytes.now ≡ None) }
    ensures refused { IfErr result (Tells (asc_fault_of standard_layouts bytes.now)) }
{
    read_with(alloc, bytes, Layouts::standard())
}

/// The configuration and the names of nets that a text gives under the layouts.
///
/// # Errors
/// As [`read`].
///
/// # Example
/// ```ignore
/// match read_with(alloc, text.as_bytes(), Layouts::standard()) {
///     Ok(file) => Ok(file.image),
///     Err(AscFault::At { line, .. }) => Err(line),
///     Err(AscFault::Memory(_)) => Err(0),
/// }
/// ```
pub fn read_with(alloc: Global, bytes: &[u8], layouts: Layouts) -> Result<AscFile, AscFault>
    requires { AreLayouts layouts }
    ensures means { IfOk result (λ file. AscMeans layouts bytes.now (configuration_of file.image) file.symbols.items) }
    // Each bit is the character, the digit or the statement that stands for it.
    ensures bits { IfOk result (λ file. HasBits bytes.now (configuration_of file.image)) }
    ensures accepted { OnOk result (asc_fault_of layouts bytes.now ≡ None) }
    ensures refused { IfErr result (Tells (asc_fault_of layouts bytes.now)) }
{
    let image = read_image_with(alloc, bytes, layouts)?;
    let symbols = symbols_in(alloc, bytes)?;
    Ok(AscFile { image, symbols })
}

/// The configuration that a text gives under the layouts, without the names of nets.
///
/// # Errors
/// As [`read`].
pub fn read_image_with(alloc: Global, bytes: &[u8], layouts: Layouts) -> Result<AnyImage, AscFault>
    requires { AreLayouts layouts }
    ensures means { IfOk result (λ image. AscMeans layouts bytes.now (configuration_of image) (asc_symbols_of bytes.now)) }
    // Each bit is the character, the digit or the statement that stands for it.
    ensures bits { IfOk result (λ image. HasBits bytes.now (configuration_of image)) }
    ensures accepted { OnOk result (asc_fault_of layouts bytes.now ≡ None) }
    ensures refused { IfErr result (Tells (asc_fault_of layouts bytes.now)) }
{
    let mut reader = AscReader::with(alloc, layouts);
    reader.feed(bytes)?;
    reader.finish()
}
