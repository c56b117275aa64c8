// Packing a text into a bitstream.
ghost use Rattle.std.specs.Prelude.{◌≡◌, ℕ, List, None, IfOk, IfErr, OnOk};
ghost use Rattle.layout_file.specs.declared.layouts.Layouts.{Layouts};
ghost use Rattle.layout_file.specs.Layouts.{standard_layouts, AreLayouts};
ghost use Rattle.ice_image.specs.Either.{configuration_of, device_of};
ghost use Rattle.asc_text.specs.Faults.{asc_fault_of, Tells};
ghost use Rattle.asc_text.specs.Feeding.{StandsFor};
ghost use Rattle.ice_pack.specs.Packed.{awake_where, IsPacked, PacksAlike, UnpacksBack};

use asc_text::{AscFault, AscReader};
use bin_stream::encode;
use ice_image::{AnyImage, Settings};
use layout_file::Layouts;
use std::alloc::Global;

/// The canonical bytes of what a text configures under the standard layouts. The flash stays awake after the configuration if
/// `no_sleep` is true, whatever the text says. `icepack` reads in pieces and calls [`pack_fed`]: this is for users of the library who have
/// the whole text.
///
/// # Errors
/// `AscFault::At` for the first faulty line, with its tile or RAM and its cause; `AscFault::Memory` if memory is out.
///
/// # Example
/// ```ignore
/// match pack(alloc, b".device 384\n", false) {
///     Ok(bytes) => Ok(bytes),
///     Err(AscFault::At { line, .. }) => Err(line),
///     Err(AscFault::Memory(_)) => Err(0),
/// }
/// ```
pub fn pack(alloc: Global, asc: &[u8], no_sleep: bool) -> Result<Vec<u8>, AscFault>
    ensures packed { IfOk result (λ bytes. IsPacked standard_layouts asc.now no_sleep bytes.items) }
    ensures alike { IfOk result (λ bytes. PacksAlike standard_layouts asc.now no_sleep bytes.items) }
    ensures back { IfOk result (λ bytes. UnpacksBack standard_layouts asc.now no_sleep bytes.items) }
    ensures accepted { OnOk result (asc_fault_of standard_layouts asc.now ≡ None) }
    ensures refused { IfErr result (Tells (asc_fault_of standard_layouts asc.now)) }
{
    pack_with(alloc, asc, no_sleep, Layouts::standard())
}

/// The canonical bytes of what a text configures under the layouts, with `no_sleep` as in [`pack`]. `icepack` reads in pieces and calls
/// [`pack_fed`]: this is for users of the library who have the whole text.
///
/// # Errors
/// As [`pack`].
pub fn pack_with(
    alloc: Global,
    asc: &[u8],
    no_sleep: bool,
    layouts: Layouts,
) -> Result<Vec<u8>, AscFault>
    requires { AreLayouts layouts }
    ensures packed { IfOk result (λ bytes. IsPacked layouts asc.now no_sleep bytes.items) }
    ensures alike { IfOk result (λ bytes. PacksAlike layouts asc.now no_sleep bytes.items) }
    ensures back { IfOk result (λ bytes. UnpacksBack layouts asc.now no_sleep bytes.items) }
    ensures accepted { OnOk result (asc_fault_of layouts asc.now ≡ None) }
    ensures refused { IfErr result (Tells (asc_fault_of layouts asc.now)) }
{
    let mut reader = AscReader::with(alloc, layouts);
    // The reader keeps what it refuses.
    let _ = reader.feed(asc);
    pack_fed(alloc, reader, no_sleep)
}

/// The canonical bytes of what the text configures that was fed to a reader, in one or more pieces, with `no_sleep` as in [`pack`].
///
/// # Errors
/// As [`pack`].
pub fn pack_fed(alloc: Global, reader: AscReader, no_sleep: bool) -> Result<Vec<u8>, AscFault>
    ensures packed { IfOk result (λ bytes. (layouts : Layouts) (text : List ℕ) → StandsFor layouts text reader → IsPacked layouts text no_sleep bytes.items) }
    ensures alike { IfOk result (λ bytes. (layouts : Layouts) (text : List ℕ) → StandsFor layouts text reader → PacksAlike layouts text no_sleep bytes.items) }
    ensures back { IfOk result (λ bytes. (layouts : Layouts) (text : List ℕ) → StandsFor layouts text reader → UnpacksBack layouts text no_sleep bytes.items) }
    ensures accepted { OnOk result ((layouts : Layouts) (text : List ℕ) → StandsFor layouts text reader → asc_fault_of layouts text ≡ None) }
    ensures refused { IfErr result (λ fault. (layouts : Layouts) (text : List ℕ) → StandsFor layouts text reader → Tells (asc_fault_of layouts text) fault) }
{
    let mut image = reader.finish()?;
    keep_awake(&mut image, no_sleep);
    Ok(encode(alloc, &image)?)
}

/// Lets the flash stay awake after the configuration, if `no_sleep`.
fn keep_awake(image: &mut AnyImage, no_sleep: bool)
    ensures { configuration_of image.new ≡ awake_where no_sleep (configuration_of image.old) }
{
    if no_sleep {
        let settings = image.settings();
        image.set_settings(Settings {
            no_sleep: true,
            ..settings
        });
    }
}
