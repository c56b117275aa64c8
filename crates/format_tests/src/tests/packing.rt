// Packing texts into bitstreams, and unpacking them again.
ghost use Rattle.layout_file.specs.Layouts.{AreLayouts};

use ice_pack::{pack, pack_with, unpack, unpack_with};
use layout_file::Layouts;
use std::alloc::Global;

/// A text's bytes, and the text that is unpacked from them, or `None` if one is refused.
fn there_and_back(alloc: Global, text: &[u8], no_sleep: bool) -> Option<(Vec<u8>, Vec<u8>)> {
    match pack(alloc, text, no_sleep) {
        Ok(bytes) => match unpack(alloc, &bytes) {
            Ok(back) => Some((bytes, back)),
            Err(_) => None,
        },
        Err(_) => None,
    }
}

/// Whether a text gives `length` bytes, and comes back with `head` at its front, if the flash stays awake.
fn comes_back(alloc: Global, text: &[u8], length: usize, head: &[u8]) -> bool {
    match there_and_back(alloc, text, true) {
        Some((bytes, back)) => bytes.len() == length && back.starts_with(head),
        None => false,
    }
}

#[test]
fn a_text_is_packed_and_comes_back(rt: HostRuntime) {
    let head = b".device 384\n.nosleep enabled\n.io_tile 1 0\n000000000000000000\n";
    assert!(rt; comes_back(rt.alloc(), b".device 384\n", 7_330, head));
}

/// A text's bytes under layouts, and the text that is unpacked from them, or `None` if one is refused.
fn there_and_back_with(alloc: Global, text: &[u8], layouts: &Layouts) -> Option<(Vec<u8>, Vec<u8>)>
    requires { AreLayouts layouts.now }
{
    match pack_with(alloc, text, false, *layouts) {
        Ok(bytes) => match unpack_with(alloc, &bytes, *layouts) {
            Ok(back) => Some((bytes, back)),
            Err(_) => None,
        },
        Err(_) => None,
    }
}

/// Whether a bit that belongs to a tile in the standard layout comes back as an extra bit.
fn keeps_an_extra_bit(alloc: Global, layouts: &Layouts) -> bool
    requires { AreLayouts layouts.now }
{
    match there_and_back_with(alloc, b".device 1k\n.extra_bit 0 18 16\n", layouts) {
        Some((bytes, back)) => {
            bytes.get(690) == Some(&0x20) && back.ends_with(b"0\n.extra_bit 0 18 16\n")
        }
        None => false,
    }
}

/// Whether that is so if the outer columns of tiles have two columns of bits more.
fn keeps_it_with_more_room(alloc: Global) -> bool {
    match Layouts::read(b".layout 1k\nwidths 20 54 54 42 54 54 54\n") {
        Ok(layouts) => keeps_an_extra_bit(alloc, &layouts),
        Err(_) => false,
    }
}

#[test]
fn another_layout_has_other_extra_bits(rt: HostRuntime) {
    assert!(rt; keeps_it_with_more_room(rt.alloc()));
}
