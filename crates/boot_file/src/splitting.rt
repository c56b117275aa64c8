// Splitting a boot file into its images.
ghost use Rattle.std.specs.Prelude.{◌≡◌, ◌<◌, ◌≤◌, ◌==◌, Ok, None, IfOk, OnOk, IfErr, IfSome, length, map, position, unwrap_or};
ghost use Rattle.boot_file.specs.Headers.{entry_address};
ghost use Rattle.boot_file.specs.Meaning.{Means, boot_of, entries_in};
ghost use Rattle.boot_file.specs.Faults.{split_fault};
ghost use Rattle.boot_file.specs.Parts.{image_addresses};
ghost use Rattle.boot_file.specs.Reading.{IsDecided, Tells, boot_read_of, index_at};

use crate::file::BootFile;
use crate::headers::{check_headers, entry_address, is_cold, power_address};
use crate::images::images_at;
use crate::parts::image_addresses;
use crate::split_fault::SplitFault;
use std::alloc::Global;

/// The images of a boot file, and what its headers say of them. The images are read under the standard layouts.
///
/// # Errors
/// The first cause in the order of [`SplitFault`]; `SplitFault::Memory` if memory is out.
///
/// # Example
/// ```ignore
/// match split(alloc, bytes) {
///     Ok(file) => match file.images.as_slice().get(file.power as usize) {
///         Some(booted) => Some(booted.address),
///         None => None,
///     },
///     Err(_) => None,
/// }
/// ```
#[tactic(auto, using(crate::proofs::Decided::decided))]
pub fn split(alloc: Global, bytes: &[u8]) -> Result<BootFile, SplitFault>
    // The bytes mean one boot file or have a fault, and not both.
    ensures decided { IsDecided bytes.now }
    ensures means { IfOk result (λ file. Means bytes.now (boot_of file)) }
    ensures read { IfOk result (λ file. boot_read_of bytes.now ≡ Ok (boot_of file)) }
    ensures accepted { OnOk result (split_fault bytes.now ≡ None) }
    ensures refused { IfErr result (Tells (split_fault bytes.now)) }
{
    check_headers(bytes)?;
    let addresses = image_addresses(alloc, bytes)?;
    let addresses = addresses.as_slice();
    let images = images_at(alloc, bytes, addresses)?;
    Ok(BootFile {
        cold: is_cold(bytes),
        power: index_of(addresses, power_address(bytes)),
        entries: entries(bytes, addresses),
        images,
    })
}

/// The index of the image of each entry.
fn entries(bytes: &[u8], addresses: &[u32]) -> [u32; 4]
    requires headers { 160 ≤ length bytes.now }
    requires addresses { addresses.now ≡ image_addresses bytes.now }
    requires few { length addresses.now ≤ 4 }
    ensures { result ≡ map (λ entry. index_at bytes.now (entry_address bytes.now entry)) entries_in }
{
    [
        index_of(addresses, entry_address(bytes, 0)),
        index_of(addresses, entry_address(bytes, 1)),
        index_of(addresses, entry_address(bytes, 2)),
        index_of(addresses, entry_address(bytes, 3)),
    ]
}

/// The index of an address among the addresses, or 0 if it isn't one of them.
fn index_of(addresses: &[u32], address: u32) -> u32
    requires { length addresses.now ≤ 4 }
    ensures { result ≡ unwrap_or (position (λ named. named == address) addresses.now) 0 }
{
    match position_of(addresses, address) {
        Some(index) => index as u32,
        None => 0,
    }
}

/// The index of an address among the addresses, if it is one of them.
fn position_of(addresses: &[u32], address: u32) -> Option<usize>
    ensures is { result ≡ position (λ named. named == address) addresses.now }
    ensures within { IfSome result (λ index. index < length addresses.now) }
{
    addresses.iter().position(|named| *named == address)
}
