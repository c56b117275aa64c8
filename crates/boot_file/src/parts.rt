// The addresses of the images of a boot file, and which part of the file each image has.
ghost use Rattle.std.specs.Prelude.{◌≡◌, ◌<◌, ◌≤◌, length, IfOk};
ghost use Rattle.boot_file.specs.Parts.{image_addresses, part_end};

use crate::headers::{ENTRY_COUNT, entry_address};
use std::alloc::{AllocError, Global};

/// The address of each image, in the order of the least entry that names it.
pub(crate) fn image_addresses(alloc: Global, bytes: &[u8]) -> Result<Vec<u32>, AllocError>
    requires { 160 ≤ length bytes.now }
    ensures are { IfOk result (λ addresses. addresses.items ≡ image_addresses bytes.now) }
    ensures few { IfOk result (λ addresses. length addresses.items ≤ 4) }
{
    let mut addresses = Vec::new(alloc);
    for entry in 0..ENTRY_COUNT {
        let address = entry_address(bytes, entry);
        if !addresses.contains(&address) {
            addresses.push(address)?;
        }
    }
    Ok(addresses)
}

/// Where the part of the image at an address ends.
pub(crate) fn part_end(bytes: &[u8], address: u32) -> usize
    requires headers { 160 ≤ length bytes.now }
    requires within { address < length bytes.now }
    ensures is { result ≡ part_end bytes.now address }
    ensures after { address < result }
    ensures inside { result ≤ length bytes.now }
{
    let mut end = bytes.len();
    for entry in 0..ENTRY_COUNT {
        let other = entry_address(bytes, entry);
        if address < other && (other as usize) < end {
            end = other as usize;
        }
    }
    end
}
