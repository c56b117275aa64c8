// Joining images to a boot file.
ghost use Rattle.std.specs.Prelude.{◌≡◌, ◌<◌, ◌≤◌, ◌+◌, ◌*◌, ◌^◌, ◌&&◌, ◌==◌, ℕ, None, length, get_or, IfOk, OnOk, IfErr, unwrap_or};
ghost use Rattle.std.specs.Result.{result_err};
ghost use Rattle.boot_file.specs.BootFile.{HasBytes, boot_byte, boot_file, boot_length, bytes_of, header_byte, image_booted, place_of, start_of};
ghost use Rattle.boot_file.specs.Refusals.{Tells, check_fault, join_fault};

use crate::header::header;
use crate::multi_fault::MultiFault;
use crate::options::Options;
use crate::places::places;
use std::alloc::{AllocError, Global};

/// How many headers there are.
const HEADER_COUNT: usize = 5;

/// The most images that the headers can name.
const MOST_IMAGES: usize = 4;

/// The greatest exponent of two to which images can be aligned.
const MOST_ALIGNMENT: u32 = 24;

/// Tests whether `count` images can be joined with these options, as far as that follows from their number and the options alone. It
/// allocates nothing.
///
/// # Errors
/// The first cause in the order of [`MultiFault`] among `NoImage`, `TooMany`, `Align` and `PowerOn`.
#[tactic(auto, unfolding(crate::specs::Refusals::check_fault))]
pub fn check(count: usize, options: Options) -> Result<(), MultiFault>
    ensures is { result_err result ≡ check_fault count options }
    ensures few { OnOk result (count ≤ 4) }
    ensures power_on { OnOk result (options.power_on < count) }
{
    if count == 0 {
        return Err(MultiFault::NoImage);
    }
    if count > MOST_IMAGES {
        return Err(MultiFault::TooMany { n: count as u64 });
    }
    if let Some(align) = options.align
        && align > MOST_ALIGNMENT
    {
        return Err(MultiFault::Align {
            n: u64::from(align),
        });
    }
    if options.power_on as usize >= count {
        return Err(MultiFault::PowerOn {
            index: u64::from(options.power_on),
        });
    }
    Ok(())
}

/// The boot file of one to four images: five headers, then the images at their offsets, with FF between them.
///
/// # Errors
/// The first cause in the order of [`MultiFault`]; `MultiFault::Memory` if memory is out.
///
/// # Example
/// ```ignore
/// let mut images = Vec::new(alloc);
/// images.push(first)?;
/// images.push(second)?;
/// let options = Options { cold: false, power_on: 0, entries: [0, 1, 2, 3], align: Some(8), align_first: false };
/// let file = join(alloc, &images, options)?;
/// ```
pub fn join(alloc: Global, images: &Vec<Vec<u8>>, options: Options) -> Result<Vec<u8>, MultiFault>
    ensures joined { IfOk result (λ file. file.items ≡ boot_file (bytes_of images.now) options) }
    ensures accepted { OnOk result (join_fault (bytes_of images.now) options ≡ None) }
    ensures refused { IfErr result (Tells (join_fault (bytes_of images.now) options)) }
{
    check(images.len(), options)?;
    let found = places(alloc, images, options)?;
    let places = found.as_slice();
    let mut file = headers(alloc, places, options, size(places, images))?;
    for (index, image) in images.iter().enumerate() {
        file.resize(places[index] as usize, 0xFF)?;
        file.extend_from_slice(image)?;
    }
    Ok(file)
}

/// The offset at which the last of the images ends, by their offsets. It is never more than the length of the file.
fn size(places: &[u32], images: &Vec<Vec<u8>>) -> usize
    requires { length places.now ≡ length images.now.items }
    ensures { (options : Options) → ((index : ℕ) → index < length images.now.items → get_or places.now index 0 ≡ place_of (bytes_of images.now) options index)
        → result ≤ boot_length (bytes_of images.now) options }
{
    match (places.last(), images.last()) {
        (Some(place), Some(image)) => image.len().saturating_add(*place as usize),
        _ => 0,
    }
}

/// The headers, from the offsets of the images, in a vector with room for `room` bytes.
fn headers(
    alloc: Global,
    places: &[u32],
    options: Options,
    room: usize,
) -> Result<Vec<u8>, AllocError>
    requires power_on { options.power_on < length places.now }
    requires small { (index : ℕ) → get_or places.now index 0 < 2 ^ 24 }
    ensures { IfOk result (λ file. HasBytes
        (header_byte (length places.now) (λ index. get_or places.now index 0) options) 160 file.items) }
{
    let mut file = Vec::with_capacity(alloc, room)?;
    for index in 0..HEADER_COUNT {
        let address = places[image_booted(places.len(), options, index)];
        let header = header(is_cold(options, index), address);
        file.extend_from_slice(&header)?;
    }
    Ok(file)
}

/// The index of the image that a header boots.
fn image_booted(count: usize, options: Options, header: usize) -> usize
    requires power_on { options.power_on < count }
    requires header { header < 5 }
    ensures is { result ≡ image_booted count options header }
    ensures within { result < count }
{
    if header == 0 {
        return options.power_on as usize;
    }
    let image = options.entries[header - 1] as usize;
    if image < count { image } else { 0 }
}

/// Whether a header has the mode in which the pins choose the image at a cold boot: only the first one may.
fn is_cold(options: Options, header: usize) -> bool
    ensures { result ≡ (options.cold && (header == 0)) }
{
    options.cold && header == 0
}
