// The generated database, image and events, against those of a program that was written independently of this one.

use super::is_lower_ram;
use ice_gen::{PinEvent, chipdb, events, image};
use ice_image::AnyImage;
use plane_map::DeviceName;
use std::alloc::{AllocError, Global};

/// A device's database as a text, or an empty text if the device has no databases.
fn text_of(alloc: Global, device: DeviceName) -> Result<Vec<u8>, AllocError> {
    if device.has_database() {
        chipdb(alloc, device)
    } else {
        Ok(Vec::new(alloc))
    }
}

/// Whether a device's text has `length` bytes, and a given piece at a given offset.
fn has_piece(
    alloc: Global,
    device: DeviceName,
    length: usize,
    place: usize,
    piece: &[u8],
) -> Result<bool, AllocError> {
    let text = text_of(alloc, device)?;
    Ok(
        text.len() == length
            && text
                .as_slice()
                .get(place..)
                .is_some_and(|rest| rest.starts_with(piece)),
    )
}

#[test]
fn a_text_has_its_piece_at_its_place(rt: HostRuntime) {
    let piece = b".net 16\n2 1 lutff_6/out\n3 1 lutff_0/in_1\n8 1 ram/WDATA_14\n";
    assert!(rt; has_piece(rt.alloc(), DeviceName::Hx8k, 1_016_817, 41_975, piece) == Ok(true));
}

/// The image that a device and a seed fix, or a blank one if the device has no databases.
fn image_of(alloc: Global, device: DeviceName, seed: u64) -> Result<AnyImage, AllocError> {
    if device.has_database() {
        image(alloc, device, seed)
    } else {
        AnyImage::zeroed(alloc, device)
    }
}

/// A word of a RAM.
fn word_in(image: &AnyImage, x: u8, y: u8, word: u8) -> u16 {
    if is_lower_ram(image.device(), x, y) {
        image.ram_word(x, y, word)
    } else {
        0
    }
}

/// The first row of the tile at 1 1 and the last word of the RAM at 10 15, in the image that a device and a seed fix.
fn row_and_word(alloc: Global, device: DeviceName, seed: u64) -> Result<(u64, u16), AllocError> {
    let made = image_of(alloc, device, seed)?;
    Ok((made.tile_row(1, 1, 0), word_in(&made, 10, 15, 255)))
}

#[test]
fn rows_and_words_are_draws(rt: HostRuntime) {
    assert!(rt; row_and_word(rt.alloc(), DeviceName::Hx1k, 7) == Ok((0x216000000003, 0xDAB6)));
}

/// Whether the first events of a seed are these.
fn are_events(alloc: Global, seed: u64, wanted: &[PinEvent]) -> Result<bool, AllocError> {
    let made = events(alloc, seed, wanted.len())?;
    Ok(made.as_slice() == wanted)
}

fn event(second: bool, bit: bool) -> PinEvent {
    PinEvent { second, bit }
}

#[test]
fn events_are_draws_of_the_next_seed(rt: HostRuntime) {
    let wanted = [event(true, false), event(false, false), event(false, true)];
    assert!(rt; are_events(rt.alloc(), u64::MAX, &wanted) == Ok(true));
}
