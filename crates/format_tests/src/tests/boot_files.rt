// Joining a boot file and splitting it again.
use bin_stream::encode;
use boot_file::{BootFile, BootImage, MultiFault, Options, check, join, split};
use ice_image::{AnyImage, Comment};
use plane_map::DeviceName;
use std::alloc::{AllocError, Global};

/// Images at multiples of 256, of which the first is booted.
const OPTIONS: Options = Options {
    cold: false,
    power_on: 0,
    entries: [0, 1, 2, 3],
    align: Some(8),
    align_first: false,
};

/// The bitstream of an image without a bit, with a comment without a line.
fn blank(alloc: Global, device: DeviceName) -> Result<Vec<u8>, AllocError> {
    let mut image = AnyImage::zeroed(alloc, device)?;
    image.set_comment(Some(Comment::new(alloc)));
    encode(alloc, &image)
}

/// Two images in a boot file.
fn joined(alloc: Global, first: Vec<u8>, second: Vec<u8>) -> Result<Vec<u8>, MultiFault> {
    let mut images = Vec::new(alloc);
    images.push(first)?;
    images.push(second)?;
    join(alloc, &images, OPTIONS)
}

/// The boot file of a blank image of either device.
fn two_blank(alloc: Global) -> Result<Vec<u8>, MultiFault> {
    let first = blank(alloc, DeviceName::Hx1k)?;
    let second = blank(alloc, DeviceName::Hx8k)?;
    joined(alloc, first, second)
}

/// The address of an image, and its device.
fn place(images: &[BootImage], index: usize) -> Option<(u32, DeviceName)> {
    match images.get(index) {
        Some(placed) => Some((placed.address, placed.image.device())),
        None => None,
    }
}

/// Whether a boot file has a blank image of either device, and what its headers say of them.
fn has_both(file: &BootFile) -> bool {
    let images = file.images.as_slice();
    let placed = place(images, 0) == Some((160, DeviceName::Hx1k))
        && place(images, 1) == Some((32_512, DeviceName::Hx8k));
    placed && images.len() == 2 && !file.cold && file.power == 0 && file.entries == [0, 1, 0, 0]
}

fn splits_to_both(alloc: Global, bytes: &[u8]) -> bool {
    match split(alloc, bytes) {
        Ok(file) => has_both(&file),
        Err(_) => false,
    }
}

#[test]
fn what_was_joined_is_split_again(rt: HostRuntime) -> Result<(), MultiFault> {
    let file = two_blank(rt.alloc())?;
    assert!(rt; file.len() == 167_612);
    assert!(rt; splits_to_both(rt.alloc(), file.as_slice()));
    Ok(())
}

#[test]
fn up_to_four_images_are_joined(rt: HostRuntime) {
    assert!(rt; check(4, OPTIONS) == Ok(()));
    assert!(rt; check(5, OPTIONS) == Err(MultiFault::TooMany { n: 5 }));
}
