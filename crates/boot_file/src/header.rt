// The headers of a boot file.
ghost use Rattle.std.specs.Prelude.{◌≡◌, ◌<◌, ◌^◌};
ghost use Rattle.boot_file.specs.BootFile.{header};

/// How many bytes a header has.
pub(crate) const HEADER_SIZE: usize = 32;

/// A header that boots the image at an address. `cold` sets the mode in which the pins choose the image at a cold boot.
pub(crate) fn header(cold: bool, address: u32) -> [u8; HEADER_SIZE]
    requires { address < 2 ^ 24 }
    ensures { result ≡ header cold address }
{
    let mode = if cold { 0x10 } else { 0x00 };
    let [_, high, middle, low] = address.to_be_bytes();
    [
        0x7E, 0xAA, 0x99, 0x7E, 0x92, 0x00, mode, 0x44, 0x03, high, middle, low, 0x82, 0x00, 0x00,
        0x01, 0x08, 0, 0, 0, 0, 0, 0, 0, 0, 0, 0, 0, 0, 0, 0, 0,
    ]
}
