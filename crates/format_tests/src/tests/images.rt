// An image of one device by its type, and the planes of its banks.

use super::is_in_cram;
use bit_plane::Bits;
use ice_image::Image;
use plane_map::{Device, Hx1k, Place};
use std::alloc::{AllocError, Global};

/// Whether a bit of a configuration plane is the one at its place.
fn is_in_plane<D: Device>(image: &mut Image<D>, place: Place) -> bool {
    let x = usize::from(place.px);
    let y = usize::from(place.py);
    let bank = usize::from(place.bank);
    if !is_in_cram(image.device(), place) || x >= D::Cram::WIDTH || y >= D::Cram::HEIGHT {
        return false;
    }
    image.cram_mut(bank).set(x, y, true);
    image.cram_bit(place) && image.cram(bank).get(x, y)
}

/// Whether the last place of a plane is one.
fn has_last_bit(alloc: Global) -> Result<bool, AllocError> {
    let mut image = Image::<Hx1k>::zeroed(alloc)?;
    let last = Place {
        bank: 3,
        px: 331,
        py: 143,
    };
    Ok(is_in_plane(&mut image, last))
}

#[test]
fn planes_hold_bits_of_places(rt: HostRuntime) {
    assert!(rt; has_last_bit(rt.alloc()) == Ok(true));
}
