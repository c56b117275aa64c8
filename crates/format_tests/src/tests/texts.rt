// Reading a text, and a fault as it is shown.

use super::is_in_cram;
use asc_text::{AscCause, AscFault, Symbol, TileXy, read};
use ice_image::{AnyImage, Range, Settings};
use plane_map::{DeviceName, Place, TileKind};
use std::alloc::Global;
use std::test::Fail;

/// A text as a placer may write it, with a comment, an extra bit and the name of a net.
const TEXT: &str = ".nosleep enabled
.comment from next-pnr
made by hand

for a test
.device 1k\r
.extra_bit 0 330 143
.sym 5 clk$SB_IO_IN
";

const EXTRA: Place = Place {
    bank: 0,
    px: 330,
    py: 143,
};

/// Whether the image has the bit that the text sets.
fn has_bit(image: &AnyImage) -> bool {
    is_in_cram(image.device(), EXTRA) && image.cram_bit(EXTRA)
}

/// Whether the comment is the one in the text.
fn has_comment(image: &AnyImage) -> bool {
    match image.comment() {
        Some(comment) => {
            comment.len() == 2
                && comment.line(0) == b"made by hand".as_slice()
                && comment.line(1) == b"for a test".as_slice()
        }
        None => false,
    }
}

/// Whether one net is named, as in the text.
fn has_name(symbols: &[Symbol]) -> bool {
    match symbols {
        [symbol] => symbol.net == 5 && symbol.name.bytes() == b"clk$SB_IO_IN".as_slice(),
        _ => false,
    }
}

/// Whether reading the text gives everything that it says.
fn is_read(alloc: Global) -> bool {
    let settings = Settings {
        range: Range::Low,
        warm_boot: true,
        no_sleep: true,
    };
    match read(alloc, TEXT.as_bytes()) {
        Ok(file) => {
            file.image.device() == DeviceName::Hx1k
                && file.image.settings() == settings
                && has_bit(&file.image)
                && has_comment(&file.image)
                && has_name(&file.symbols)
        }
        Err(_) => false,
    }
}

#[test]
fn reads_what_a_text_says(rt: HostRuntime) {
    assert!(rt; is_read(rt.alloc()));
}

#[test]
fn shows_a_fault(rt: HostRuntime) -> Result<(), Fail> {
    let fault = AscFault::At {
        line: 2,
        tile: Some(TileXy { x: 3, y: 1 }),
        cause: AscCause::Kind {
            expected: TileKind::RamB,
        },
    };
    assert_eq!(rt;
        fault.to_string(rt.alloc())?.as_str(),
        "line 2: the tile there is of kind RamB"
    );
    Ok(())
}
