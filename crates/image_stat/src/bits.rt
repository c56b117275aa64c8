// The bits of the configuration planes that are 1.
ghost use Rattle.std.specs.Prelude.{◌≡◌, ◌*◌, ◌<◌, ◌≤◌, ◌^◌, IfOk, length};
ghost use Rattle.bit_plane.specs.BitList.{bits_of, byte_bits};
ghost use Rattle.bit_plane.specs.Rows.{flat};
ghost use Rattle.ice_image.specs.Configuration.{bank_rows, IsWhole};
ghost use Rattle.ice_image.specs.Either.{configuration_of, device_of};
ghost use Rattle.plane_map.specs.Layout.{cram_height, cram_width};
ghost use Rattle.image_stat.specs.Counts.{cram_bits, ones_in};

use ice_image::{AnyImage, PlaneKind};
use std::alloc::{AllocError, Global};

/// How many bits of an image's configuration planes are 1.
pub(crate) fn set_bits(alloc: Global, image: &AnyImage) -> Result<usize, AllocError>
    ensures { IfOk result (λ count. count ≡ ones_in (cram_bits (configuration_of image.now))) }
{
    let device = image.device();
    let bits = PlaneKind::Cram.rows(device) * PlaneKind::Cram.columns(device);
    let mut bytes = Vec::new(alloc);
    bytes.resize(bits / 8, 0)?;
    Ok(ones_of_banks(image, &mut bytes))
}

/// How many bits of an image's configuration planes are 1. `bytes` has room for one bank's plane.
fn ones_of_banks(image: &AnyImage, bytes: &mut [u8]) -> usize
    requires whole { IsWhole (configuration_of image.now) }
    requires bytes { 8 * length bytes.old ≡ cram_height (device_of image.now) * cram_width (device_of image.now) }
    ensures { result ≡ ones_in (cram_bits (configuration_of image.now)) }
{
    let mut count = 0;
    for bank in 0..4 {
        count += ones_of_bank(image, bank, bytes);
    }
    count
}

/// How many bits of one bank's configuration plane are 1. `bytes` has room for it.
fn ones_of_bank(image: &AnyImage, bank: usize, bytes: &mut [u8]) -> usize
    requires bank { bank < 4 }
    requires bytes { 8 * length bytes.old ≡ cram_height (device_of image.now) * cram_width (device_of image.now) }
    ensures ones { result ≡ ones_in (flat (bank_rows (configuration_of image.now).cram bank)) }
    ensures few { result < 2 ^ 32 }
    ensures bytes { length bytes.new ≡ length bytes.old }
{
    let rows = PlaneKind::Cram.rows(image.device());
    image.rows(PlaneKind::Cram, bank, 0, rows, bytes);
    ones_of_bytes(bytes)
}

/// How many bits of these bytes are 1.
fn ones_of_bytes(bytes: &[u8]) -> usize
    requires { length bytes.now < 2 ^ 28 }
    ensures ones { result ≡ ones_in (bits_of bytes.now) }
    ensures few { result < 2 ^ 32 }
{
    let mut count = 0;
    for byte in bytes {
        count += ones_of_byte(*byte);
    }
    count
}

/// How many bits of a byte are 1.
fn ones_of_byte(byte: u8) -> usize
    ensures ones { result ≡ ones_in (byte_bits byte) }
    ensures few { result ≤ 8 }
{
    byte.count_ones() as usize
}
