// The offsets of the images in a boot file.
ghost use Rattle.std.specs.Prelude.{◌≡◌, ◌<◌, ◌≤◌, ◌+◌, ◌^◌, ℕ, None, length, get_or, IfOk, OnOk, IfErr};
ghost use Rattle.boot_file.specs.BootFile.{aligned, bytes_of, first_place, place_of};
ghost use Rattle.boot_file.specs.Refusals.{Tells, address_fault, align_fault};

use crate::multi_fault::MultiFault;
use crate::options::Options;
use std::alloc::Global;

/// How many bytes all headers have.
const HEADERS_SIZE: usize = 160;

/// The first offset that doesn't fit an address of three bytes.
const ADDRESS_LIMIT: usize = 1 << 24;

/// The offset of each image.
pub(crate) fn places(
    alloc: Global,
    images: &Vec<Vec<u8>>,
    options: Options,
) -> Result<Vec<u32>, MultiFault>
    requires { align_fault options.align ≡ None }
    ensures count { IfOk result (λ places. length places.items ≡ length images.now.items) }
    ensures found { IfOk result (λ places. (index : ℕ) → index < length images.now.items
        → get_or places.items index 0 ≡ place_of (bytes_of images.now) options index) }
    ensures small { IfOk result (λ places. (index : ℕ) → get_or places.items index 0 < 2 ^ 24) }
    ensures accepted { OnOk result (address_fault (bytes_of images.now) options ≡ None) }
    ensures refused { IfErr result (Tells (address_fault (bytes_of images.now) options)) }
{
    let mut places = Vec::new(alloc);
    let mut place = first_place(options);
    for (index, image) in images.iter().enumerate() {
        if place >= ADDRESS_LIMIT {
            return Err(MultiFault::Address {
                index: index as u64,
            });
        }
        places.push(place as u32)?;
        place = offset_after(options.align, place, image.len());
    }
    Ok(places)
}

/// The offset of the first image.
fn first_place(options: Options) -> usize
    requires { align_fault options.align ≡ None }
    ensures { result ≡ first_place options }
{
    if options.align_first {
        aligned(options.align, HEADERS_SIZE)
    } else {
        HEADERS_SIZE
    }
}

/// The offset of the image after one of this offset and length. If it doesn't fit an address, the answer may be less than the true
/// offset, but it doesn't fit an address either.
fn offset_after(align: Option<u32>, place: usize, length: usize) -> usize
    requires within { place < 2 ^ 24 }
    requires alignment { align_fault align ≡ None }
    ensures near { result < 2 ^ 24 → result ≡ aligned align (place + length) }
    ensures far { 2 ^ 24 ≤ result → 2 ^ 24 ≤ aligned align (place + length) }
{
    if length >= ADDRESS_LIMIT {
        ADDRESS_LIMIT
    } else {
        aligned(align, place + length)
    }
}

/// The least multiple of 2 to the power of `align` that isn't below the offset.
fn aligned(align: Option<u32>, offset: usize) -> usize
    requires within { offset < 2 ^ 25 }
    requires alignment { align_fault align ≡ None }
    ensures { result ≡ aligned align offset }
{
    match align {
        None => offset,
        Some(exponent) => offset.next_multiple_of(1 << exponent),
    }
}
