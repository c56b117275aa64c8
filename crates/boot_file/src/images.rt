// The images of a boot file.
ghost use Rattle.std.specs.Prelude.{◌≡◌, ◌<◌, ◌≤◌, ℕ, Some, None, filter_map, length, get_or, map, IfOk, OnOk, IfErr};
ghost use Rattle.boot_file.specs.Parts.{image_addresses};
ghost use Rattle.boot_file.specs.Meaning.{placed_of};
ghost use Rattle.boot_file.specs.Faults.{headers_fault, image_fault, images_fault};
ghost use Rattle.boot_file.specs.Reading.{Tells, image_in};

use crate::file::BootImage;
use crate::parts::part_end;
use crate::split_fault::SplitFault;
use bin_stream::{BinFault, decode};
use std::alloc::Global;

/// The images that the parts at these addresses spell, or the first fault of one.
pub(crate) fn images_at(
    alloc: Global,
    bytes: &[u8],
    addresses: &[u32],
) -> Result<Vec<BootImage>, SplitFault>
    requires headers { headers_fault bytes.now ≡ None }
    requires addresses { addresses.now ≡ image_addresses bytes.now }
    ensures images { IfOk result (λ images. map placed_of images.items ≡ filter_map (image_in bytes.now) (image_addresses bytes.now)) }
    ensures accepted { OnOk result (images_fault bytes.now ≡ None) }
    ensures refused { IfErr result (Tells (images_fault bytes.now)) }
{
    let mut images = Vec::new(alloc);
    for (index, address) in addresses.iter().enumerate() {
        images.push(image_at(alloc, bytes, index as u32, *address)?)?;
    }
    Ok(images)
}

/// The image that the part at an address spells, or its fault.
fn image_at(alloc: Global, bytes: &[u8], index: u32, address: u32) -> Result<BootImage, SplitFault>
    requires headers { 160 ≤ length bytes.now }
    requires within { address < length bytes.now }
    ensures image { IfOk result (λ placed. image_in bytes.now address ≡ Some (placed_of placed)) }
    ensures accepted { OnOk result (image_fault bytes.now index address ≡ None) }
    ensures refused { IfErr result (Tells (image_fault bytes.now index address)) }
{
    let part = &bytes[address as usize..part_end(bytes, address)];
    match decode(alloc, part) {
        Ok(image) => Ok(BootImage { address, image }),
        Err(BinFault::At { offset, cause }) => Err(SplitFault::Image {
            index,
            fault: BinFault::At {
                offset: u64::from(address) + offset,
                cause,
            },
        }),
        Err(BinFault::Memory(e)) => Err(SplitFault::Memory(e)),
    }
}
