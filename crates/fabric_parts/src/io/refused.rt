// Pins that aren't taken.
ghost use Rattle.std.specs.Prelude.{◌≡◌, ◌||◌, ◌&&◌, ◌==◌, false, not, codes, All};
ghost use Rattle.std.specs.List.{flat_map};
ghost use Rattle.plane_map.specs.declared.tile.TileKind.TheVariants.{Io};
ghost use Rattle.ice_image.specs.Either.{configuration_of};
ghost use Rattle.chipdb_reader.specs.Kept.{database_in};
ghost use Rattle.fabric_model.specs.PinTypes.{is_latched, is_of_pll};
ghost use Rattle.fabric_model.specs.Pins.{has_no_output, has_tri_state_output, has_plain_input, is_plain_input, is_registered_input, is_output_pin, drives, is_port, is_misread, is_refused_with, is_refused_of_all};
ghost use Rattle.fabric_model.specs.On.{is_function_on};
ghost use Rattle.fabric_model.specs.Tiles.{first_of};
ghost use Rattle.fabric_model.specs.TilesOfKind.{HasTile};
ghost use Rattle.fabric_model.specs.BelongTogether.{BelongTogether};
ghost use Rattle.fabric_parts.specs.PinFaults.{pin_fault, is_refused, fault_of, is_type_port, is_refused_by_type};
ghost use Rattle.fabric_parts.specs.PinRecords.{IsFoundPin};

use crate::io::pin::is_net_read;
use crate::io::pintype::{
    has_no_output, has_plain_input, has_tri_state_output, is_output_pin, is_plain_input,
    is_registered_input, pintype,
};
use crate::io::records::is_port;
use chipdb_reader::ChipDb;
use fabric_model::{Links, PadInput, Pin, is_on};
use ice_image::AnyImage;
use plane_map::TileKind;

/// Pin `n` of the tile at (x, y), and its type.
#[derive(Clone, Copy)]
pub(crate) struct TypedPin {
    pub(crate) x: u8,
    pub(crate) y: u8,
    pub(crate) n: u8,
    pub(crate) pintype: u8,
}

/// The first of these pins that isn't taken.
pub(crate) fn first_refused(
    db: &ChipDb,
    image: &AnyImage,
    links: &Links,
    all_pins: bool,
    pins: &[Pin],
) -> Option<TypedPin>
    requires together { BelongTogether db.now image.now links.now }
    requires found { All (IsFoundPin all_pins db.now image.now) pins.now }
    ensures { first_of (flat_map (fault_of all_pins (database_in db.now) (configuration_of image.now)) pins.now) ≡ pin_fault result }
{
    for pin in pins {
        if let Some(refused) = refused(db, image, links, all_pins, *pin) {
            return Some(refused);
        }
    }
    None
}

/// The pin, if it isn't taken.
fn refused(
    db: &ChipDb,
    image: &AnyImage,
    links: &Links,
    all_pins: bool,
    pin: Pin,
) -> Option<TypedPin>
    requires together { BelongTogether db.now image.now links.now }
    requires found { IsFoundPin all_pins db.now image.now pin }
    ensures { first_of (fault_of all_pins (database_in db.now) (configuration_of image.now) pin) ≡ pin_fault result }
{
    let pintype = pintype(db, image, pin.x, pin.y, pin.n);
    if is_refused(db, image, links, all_pins, pin, pintype) {
        Some(TypedPin {
            x: pin.x,
            y: pin.y,
            n: pin.n,
            pintype,
        })
    } else {
        None
    }
}

/// Whether a pin, which has that type, isn't taken.
fn is_refused(
    db: &ChipDb,
    image: &AnyImage,
    links: &Links,
    all_pins: bool,
    pin: Pin,
    pintype: u8,
) -> bool
    requires together { BelongTogether db.now image.now links.now }
    requires found { IsFoundPin all_pins db.now image.now pin }
    ensures { result ≡ is_refused all_pins (database_in db.now) (configuration_of image.now) pin pintype }
{
    if all_pins {
        is_refused_of_all(db, image, links, pin)
    } else {
        is_refused_with(db, image, pin, pintype)
    }
}

// ---- if pins of every kind are taken

/// Whether a pin isn't taken if pins of every kind are.
#[tactic(auto, unfolding(fabric_model::specs::Pins::is_refused_of_all))]
fn is_refused_of_all(db: &ChipDb, image: &AnyImage, links: &Links, pin: Pin) -> bool
    requires together { BelongTogether db.now image.now links.now }
    requires tile { HasTile image.now Io pin.x pin.y }
    ensures { result ≡ is_refused_of_all (database_in db.now) (configuration_of image.now) pin }
{
    is_held(pin)
        || ((pin.is_global && pin.drives())
            || (is_half_pair(db, image, pin) || is_misread_of_pll(db, image, links, pin)))
}

/// Whether `io_n/D_IN_1` of a pin is read, or `io_n/D_IN_0` is and bits 1 and 0 of its type aren't 01.
fn is_misread(db: &ChipDb, image: &AnyImage, links: &Links, pin: Pin) -> bool
    requires together { BelongTogether db.now image.now links.now }
    requires tile { HasTile image.now Io pin.x pin.y }
    ensures { result ≡ is_misread (database_in db.now) (configuration_of image.now) pin.x pin.y pin.n }
{
    let Pin { x, y, n, .. } = pin;
    is_net_read(db, links, x, y, n, b"/D_IN_1")
        || (is_net_read(db, links, x, y, n, b"/D_IN_0")
            && !has_plain_input(pintype(db, image, x, y, n)))
}

/// Whether the input side of a pin belongs to a PLL, and is read in a way that isn't taken.
fn is_misread_of_pll(db: &ChipDb, image: &AnyImage, links: &Links, pin: Pin) -> bool
    requires together { BelongTogether db.now image.now links.now }
    requires tile { HasTile image.now Io pin.x pin.y }
    ensures { result ≡ (is_of_pll pin.takes && is_misread (database_in db.now) (configuration_of image.now) pin.x pin.y pin.n) }
{
    matches!(pin.takes, PadInput::Nothing) && is_misread(db, image, links, pin)
}

/// Whether the input of a pin is read and a latch may hold it.
fn is_held(pin: Pin) -> bool
    ensures { result ≡ (pin.reads_0 && is_latched pin.takes) }
{
    pin.reads_0 && matches!(pin.takes, PadInput::Latched)
}

/// Whether a pin is a port of a tile with LVDS, and doesn't have the value of the pair, as pin 0 has if it is an input.
fn is_half_pair(db: &ChipDb, image: &AnyImage, pin: Pin) -> bool
    requires { HasTile image.now Io pin.x pin.y }
    ensures { result ≡ (is_function_on (database_in db.now) (configuration_of image.now) Io pin.x pin.y (codes "IoCtrl.LVDS") && (is_port pin && not ((pin.n == 0) && not (drives pin)))) }
{
    has_lvds(db, image, pin) && (is_port(pin) && !(pin.n == 0 && !pin.drives()))
}

/// Whether the tile of a pin has LVDS.
fn has_lvds(db: &ChipDb, image: &AnyImage, pin: Pin) -> bool
    requires { HasTile image.now Io pin.x pin.y }
    ensures { result ≡ is_function_on (database_in db.now) (configuration_of image.now) Io pin.x pin.y (codes "IoCtrl.LVDS") }
{
    is_on(db, image, TileKind::Io, pin.x, pin.y, b"IoCtrl.LVDS")
}

// ---- if not all are

/// Whether a pin, which has that type, isn't taken if not pins of every kind are.
fn is_refused_with(db: &ChipDb, image: &AnyImage, pin: Pin, pintype: u8) -> bool
    requires { IsFoundPin false db.now image.now pin }
    ensures { result ≡ is_refused_with (database_in db.now) (configuration_of image.now) pin.x pin.y pin.n pintype }
{
    is_refused_by_type(db, image, pin, pintype)
}

/// The same, by what the pin says.
fn is_refused_by_type(db: &ChipDb, image: &AnyImage, pin: Pin, pintype: u8) -> bool
    requires { HasTile image.now Io pin.x pin.y }
    ensures { result ≡ is_refused_by_type (database_in db.now) (configuration_of image.now) pin pintype }
{
    has_other_output(pintype)
        || (is_oddly_read(pintype, pin.reads_0) || is_place_refused(db, image, pin, pintype))
}

/// Whether a type has an output of a kind that isn't taken.
fn has_other_output(pintype: u8) -> bool
    ensures { result ≡ not (has_no_output pintype || is_output_pin pintype) }
{
    !(has_no_output(pintype) || is_output_pin(pintype))
}

/// Whether the input of a pin of a type is read, but is neither a plain input nor that of a registered input pin.
fn is_oddly_read(pintype: u8, read: bool) -> bool
    ensures { result ≡ (read && not (has_plain_input pintype || is_registered_input pintype)) }
{
    read && !(has_plain_input(pintype) || is_registered_input(pintype))
}

/// Whether a pin isn't taken because its second input is read, because it is the pad of a global network but no plain input pin, because
/// it is a port of a tile with LVDS, or because it has a tri-state output and its input is read.
fn is_place_refused(db: &ChipDb, image: &AnyImage, pin: Pin, pintype: u8) -> bool
    requires { HasTile image.now Io pin.x pin.y }
    ensures { result ≡ (pin.reads_1
        || ((pin.is_global && not (is_plain_input pintype))
        || ((is_type_port pintype pin.reads_0 && is_function_on (database_in db.now) (configuration_of image.now) Io pin.x pin.y (codes "IoCtrl.LVDS"))
        || (has_tri_state_output pintype && pin.reads_0)))) }
{
    pin.reads_1
        || (is_odd_pad(pin, pintype)
            || (is_differential(db, image, pin, pintype)
                || (has_tri_state_output(pintype) && pin.reads_0)))
}

/// Whether a pin is the pad of a global network that is driven by its pad, and isn't a plain input pin.
fn is_odd_pad(pin: Pin, pintype: u8) -> bool
    ensures { result ≡ (pin.is_global && not (is_plain_input pintype)) }
{
    pin.is_global && !is_plain_input(pintype)
}

/// Whether a pin is a port in a tile with LVDS.
fn is_differential(db: &ChipDb, image: &AnyImage, pin: Pin, pintype: u8) -> bool
    requires { HasTile image.now Io pin.x pin.y }
    ensures { result ≡ (is_type_port pintype pin.reads_0 && is_function_on (database_in db.now) (configuration_of image.now) Io pin.x pin.y (codes "IoCtrl.LVDS")) }
{
    is_type_port(pintype, pin.reads_0) && has_lvds(db, image, pin)
}

/// Whether a pin of a type is a port: an input pin or an output pin. `read` says whether its input is read.
fn is_type_port(pintype: u8, read: bool) -> bool
    ensures { result ≡ is_type_port pintype read }
{
    is_plain_input(pintype) || ((is_registered_input(pintype) && read) || is_output_pin(pintype))
}
