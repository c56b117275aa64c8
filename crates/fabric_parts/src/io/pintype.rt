// Types of pins.
ghost use Rattle.std.specs.Prelude.{◌≡◌, ◌<◌};
ghost use Rattle.plane_map.specs.declared.tile.TileKind.TheVariants.{Io};
ghost use Rattle.ice_image.specs.Either.{configuration_of};
ghost use Rattle.chipdb_reader.specs.Kept.{database_in};
ghost use Rattle.fabric_model.specs.PinTypes.{pintype_of, pintype_bit, type_bit, drive_of, sends_of, takes_of};
ghost use Rattle.fabric_model.specs.Pins.{has_no_output, has_plain_output, has_registered_output, has_tri_state_output, has_plain_input, has_registered_input, is_plain_input, is_registered_input, is_output_pin};
ghost use Rattle.fabric_model.specs.TilesOfKind.{HasTile};

use chipdb_reader::ChipDb;
use fabric_model::{PadData, PadDrive, PadInput, ShortText, is_on};
use ice_image::AnyImage;
use plane_map::TileKind;

/// The type of pin `n` of the io tile at (x, y), the PIN_TYPE of `SB_IO`: a number of six bits.
pub(crate) fn pintype(db: &ChipDb, image: &AnyImage, x: u8, y: u8, n: u8) -> u8
    requires { HasTile image.now Io x y }
    ensures { result ≡ pintype_of (database_in db.now) (configuration_of image.now) x y n }
{
    let mut pintype = 0;
    for k in (0..6).rev() {
        let bit = pintype_bit(db, image, x, y, n, k);
        pintype = 2 * pintype + u8::from(bit);
    }
    pintype
}

/// Bit `k` of the type.
fn pintype_bit(db: &ChipDb, image: &AnyImage, x: u8, y: u8, n: u8, k: u8) -> bool
    requires { HasTile image.now Io x y }
    ensures { result ≡ pintype_bit (database_in db.now) (configuration_of image.now) x y n k }
{
    let name = ShortText::with_number(b"IOB_", n, b".PINTYPE_");
    is_on(
        db,
        image,
        TileKind::Io,
        x,
        y,
        ShortText::ending_in(name.bytes(), k).bytes(),
    )
}

/// Bit `k` of a type.
fn type_bit(pintype: u8, k: u8) -> bool
    requires { k < 8 }
    ensures { result ≡ type_bit pintype k }
{
    (pintype >> k) % 2 == 1
}

/// When a pin of a type drives its pad.
pub(crate) fn drive_of(pintype: u8) -> PadDrive
    ensures { result ≡ drive_of pintype }
{
    if type_bit(pintype, 5) {
        if type_bit(pintype, 4) {
            PadDrive::ByRegister
        } else {
            PadDrive::ByNet
        }
    } else if type_bit(pintype, 4) {
        PadDrive::Always
    } else {
        PadDrive::Never
    }
}

/// What a pin of a type drives its pad with.
pub(crate) fn sends_of(pintype: u8) -> PadData
    ensures { result ≡ sends_of pintype }
{
    if type_bit(pintype, 3) {
        if type_bit(pintype, 2) {
            PadData::Inverted
        } else {
            PadData::Plain
        }
    } else if type_bit(pintype, 2) {
        PadData::Registered
    } else {
        PadData::Double
    }
}

/// What `D_IN_0` of a pin of a type is of the pad.
pub(crate) fn takes_of(pintype: u8) -> PadInput
    ensures { result ≡ takes_of pintype }
{
    if type_bit(pintype, 1) {
        PadInput::Latched
    } else if type_bit(pintype, 0) {
        PadInput::Plain
    } else {
        PadInput::Registered
    }
}

/// Whether a type has no output.
pub(crate) fn has_no_output(pintype: u8) -> bool
    ensures { result ≡ has_no_output pintype }
{
    pintype / 4 == 0b0000
}

/// Whether a type has an output that is neither registered nor tri-state.
fn has_plain_output(pintype: u8) -> bool
    ensures { result ≡ has_plain_output pintype }
{
    pintype / 4 == 0b0110
}

/// Whether a type has a registered output.
fn has_registered_output(pintype: u8) -> bool
    ensures { result ≡ has_registered_output pintype }
{
    pintype / 4 == 0b0101
}

/// Whether a type has a tri-state output.
pub(crate) fn has_tri_state_output(pintype: u8) -> bool
    ensures { result ≡ has_tri_state_output pintype }
{
    pintype / 4 == 0b1010
}

/// Whether a type has an input that isn't registered.
pub(crate) fn has_plain_input(pintype: u8) -> bool
    ensures { result ≡ has_plain_input pintype }
{
    pintype % 4 == 0b01
}

/// Whether a type has a registered input.
fn has_registered_input(pintype: u8) -> bool
    ensures { result ≡ has_registered_input pintype }
{
    pintype % 4 == 0b00
}

/// Whether a pin of a type is an input pin without a register.
pub(crate) fn is_plain_input(pintype: u8) -> bool
    ensures { result ≡ is_plain_input pintype }
{
    has_no_output(pintype) && has_plain_input(pintype)
}

/// Whether a pin of a type is a registered input pin if its input is read.
pub(crate) fn is_registered_input(pintype: u8) -> bool
    ensures { result ≡ is_registered_input pintype }
{
    has_no_output(pintype) && has_registered_input(pintype)
}

/// Whether a pin of a type is an output pin.
pub(crate) fn is_output_pin(pintype: u8) -> bool
    ensures { result ≡ is_output_pin pintype }
{
    has_plain_output(pintype) || (has_registered_output(pintype) || has_tri_state_output(pintype))
}
