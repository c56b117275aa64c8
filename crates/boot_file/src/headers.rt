// The headers of a boot file.
ghost use Rattle.std.specs.Prelude.{◌≡◌, ◌<◌, ◌≤◌, ◌^◌, ℕ, false, length, get_or, IfSome, OnOk};
ghost use Rattle.std.specs.Result.{result_err};
ghost use Rattle.boot_file.specs.BootFile.{header};
ghost use Rattle.boot_file.specs.Headers.{address_of, entry_address, is_address_place, is_cold, is_cold_mode, is_header_byte, is_within};
ghost use Rattle.boot_file.specs.Parts.{is_named};
ghost use Rattle.boot_file.specs.Faults.{headers_fault, outside_entry, unformed_offset};

use crate::split_fault::SplitFault;

/// How many bytes a header has.
const HEADER_SIZE: usize = 32;

/// How many bytes all headers have.
const HEADERS_SIZE: usize = 160;

/// How many entries there are: the headers after header 0. Header 0 has the address of one of them.
pub(crate) const ENTRY_COUNT: usize = 4;

/// The offset of the address in a header.
const ADDRESS_PLACE: usize = 9;

/// How many bytes an address has.
const ADDRESS_SIZE: usize = 3;

/// The offset of the mode in header 0.
const MODE_OFFSET: usize = 6;

/// The mode of header 0 if the pins choose the image at a cold boot.
const COLD_MODE: u8 = 0x10;

/// A header with the usual mode and the address 0.
const HEADER: [u8; HEADER_SIZE] = [
    0x7E, 0xAA, 0x99, 0x7E, 0x92, 0, 0, 0x44, 0x03, 0, 0, 0, 0x82, 0, 0, 0x01, 0x08, 0, 0, 0, 0, 0,
    0, 0, 0, 0, 0, 0, 0, 0, 0, 0,
];

/// Tests the headers; the error is what is wrong with them.
#[tactic(auto, unfolding(crate::specs::Faults::headers_fault))]
pub(crate) fn check_headers(bytes: &[u8]) -> Result<(), SplitFault>
    ensures checked { result_err result ≡ headers_fault bytes.now }
    ensures long { OnOk result (160 ≤ length bytes.now) }
{
    if bytes.len() < HEADERS_SIZE {
        return Err(SplitFault::Short {
            length: bytes.len() as u64,
        });
    }
    if let Some(offset) = unformed_offset(bytes) {
        return Err(SplitFault::Header {
            index: (offset / HEADER_SIZE) as u32,
            offset: offset as u64,
        });
    }
    if let Some(entry) = outside_entry(bytes) {
        return Err(SplitFault::Address {
            index: entry as u32 + 1,
            address: entry_address(bytes, entry),
        });
    }
    let address = power_address(bytes);
    if !is_named(bytes, address) {
        return Err(SplitFault::PowerOn { address });
    }
    Ok(())
}

/// The least offset in the headers whose byte is none that headers have there.
fn unformed_offset(bytes: &[u8]) -> Option<usize>
    requires { 160 ≤ length bytes.now }
    ensures is { result ≡ unformed_offset bytes.now }
    ensures within { IfSome result (λ offset. offset < 160) }
{
    for offset in 0..HEADERS_SIZE {
        if !is_header_byte(offset, bytes[offset]) {
            return Some(offset);
        }
    }
    None
}

/// Whether headers may have a byte at an offset.
fn is_header_byte(offset: usize, byte: u8) -> bool
    ensures { result ≡ is_header_byte offset byte }
{
    let place = offset % HEADER_SIZE;
    is_address_place(place) || is_cold_mode(offset, byte) || byte == form_byte(&HEADER, place)
}

/// Whether the byte at this place of a header is one of its address.
fn is_address_place(place: usize) -> bool
    ensures { result ≡ is_address_place place }
{
    ADDRESS_PLACE <= place && place < ADDRESS_PLACE + ADDRESS_SIZE
}

/// Whether the byte at an offset is the mode of cold boot.
fn is_cold_mode(offset: usize, byte: u8) -> bool
    ensures { result ≡ is_cold_mode offset byte }
{
    offset == MODE_OFFSET && byte == COLD_MODE
}

/// The byte of a header at a place.
fn form_byte(header: &[u8; HEADER_SIZE], place: usize) -> u8
    requires { place < 32 }
    ensures { result ≡ get_or header.now place 0 }
{
    header[place]
}

/// The least entry whose address lies in the headers or after the end.
fn outside_entry(bytes: &[u8]) -> Option<usize>
    requires { 160 ≤ length bytes.now }
    ensures is { result ≡ outside_entry bytes.now }
    ensures within { IfSome result (λ entry. entry < 4) }
{
    for entry in 0..ENTRY_COUNT {
        if !is_within(bytes, entry_address(bytes, entry)) {
            return Some(entry);
        }
    }
    None
}

/// Whether an address lies after the headers and within the file.
fn is_within(bytes: &[u8], address: u32) -> bool
    ensures { result ≡ is_within bytes.now address }
{
    HEADERS_SIZE <= address as usize && (address as usize) < bytes.len()
}

/// Whether an entry names an address.
fn is_named(bytes: &[u8], address: u32) -> bool
    requires { 160 ≤ length bytes.now }
    ensures { result ≡ is_named bytes.now address }
{
    for entry in 0..ENTRY_COUNT {
        if entry_address(bytes, entry) == address {
            return true;
        }
    }
    false
}

/// Whether the pins choose the image at a cold boot.
pub(crate) fn is_cold(bytes: &[u8]) -> bool
    requires { 160 ≤ length bytes.now }
    ensures { result ≡ is_cold bytes.now }
{
    bytes[MODE_OFFSET] == COLD_MODE
}

/// The address in header 0.
pub(crate) fn power_address(bytes: &[u8]) -> u32
    requires { 160 ≤ length bytes.now }
    ensures { result ≡ address_of bytes.now 0 }
{
    address_of(bytes, 0)
}

/// The address in an entry.
pub(crate) fn entry_address(bytes: &[u8], entry: usize) -> u32
    requires headers { 160 ≤ length bytes.now }
    requires entry { entry < 4 }
    ensures { result ≡ entry_address bytes.now entry }
{
    address_of(bytes, entry + 1)
}

/// The address in a header.
fn address_of(bytes: &[u8], index: usize) -> u32
    requires headers { 160 ≤ length bytes.now }
    requires index { index < 5 }
    ensures { result ≡ address_of bytes.now index }
{
    let place = HEADER_SIZE * index + ADDRESS_PLACE;
    65536 * u32::from(bytes[place])
        + 256 * u32::from(bytes[place + 1])
        + u32::from(bytes[place + 2])
}
