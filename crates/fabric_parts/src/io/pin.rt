// Pins.
ghost use Rattle.std.specs.Prelude.{◌≡◌, ◌≤◌, ◌+◌, ◌*◌, ◌++◌, ◌&&◌, not, codes, length, if◌then◌else◌, Some, None, IfOk};
ghost use Rattle.plane_map.specs.declared.tile.TileKind.TheVariants.{Io};
ghost use Rattle.ice_image.specs.Either.{configuration_of};
ghost use Rattle.chipdb_reader.specs.Kept.{database_in};
ghost use Rattle.chipdb_reader.specs.Fit.{IsFit};
ghost use Rattle.fabric_model.specs.declared.pin.PadInput.TheVariants.{Nothing};
ghost use Rattle.fabric_model.specs.Nets.{io_net, io_shared_net};
ghost use Rattle.fabric_model.specs.PinTypes.{takes_of};
ghost use Rattle.fabric_model.specs.Plls.{pll_sources, is_pll_place};
ghost use Rattle.fabric_model.specs.Pins.{is_global_pad, pin_with};
ghost use Rattle.fabric_model.specs.TilesOfKind.{HasTile};
ghost use Rattle.fabric_model.specs.BelongTogether.{BelongTogether, is_some_read_in};

use crate::io::pads::is_global_pad;
use crate::io::pintype::{drive_of, pintype, sends_of, takes_of};
use chipdb_reader::ChipDb;
use fabric_model::{
    GlobalNet, Links, PadInput, Pin, PllSource, ShortText, io_net, is_on, is_pll_place,
    is_some_read, place_of,
};
use ice_image::AnyImage;
use plane_map::TileKind;
use std::alloc::AllocError;

/// The pins that are ports, by tile and number, the outputs of PLLs that are ports, by PLL, and the nets of global networks 0 to 7, by network
/// and net. Tiles are ordered by row, then by column.
#[derive(Drop)]
pub struct PinSet {
    pub pins: Vec<Pin>,
    pub plls: Vec<PllSource>,
    pub globals: Vec<GlobalNet>,
}

/// Pin `n` of the io tile at (x, y), whose number among all pins of io tiles is `number`.
#[derive(Clone, Copy)]
pub(crate) struct NumberedPlace {
    pub(crate) number: usize,
    pub(crate) x: u8,
    pub(crate) y: u8,
    pub(crate) n: u8,
}

/// The input side of a pin.
#[derive(Clone, Copy)]
struct InputSide {
    takes: PadInput,
    /// Whether `io_n/D_IN_0` is the pin's, and is read.
    reads_0: bool,
    /// Whether `io_n/D_IN_1` is the pin's, and is read.
    reads_1: bool,
    /// Whether the pad of the pin drives a global network.
    is_global: bool,
}

/// The inner nets of a pin.
#[derive(Clone, Copy)]
struct InnerNets {
    /// That of what it drives its pad with.
    data_net: Option<u32>,
    /// That of its pad.
    pad_net: Option<u32>,
}

/// The net of a port that the pins of a tile share, such as `inclk`.
fn io_shared_net(db: &ChipDb, x: u8, y: u8, port: &[u8]) -> Option<u32>
    requires { length port.now ≤ 20 }
    ensures { result ≡ io_shared_net (database_in db.now) x y port.now }
{
    let mut name = ShortText::of(b"io_global/");
    name.push(port);
    db.net_of(x, y, name.bytes())
}

/// Whether the net of a port of pin `n` is read.
pub(crate) fn is_net_read(db: &ChipDb, links: &Links, x: u8, y: u8, n: u8, port: &[u8]) -> bool
    requires fit { IsFit (database_in db.now) }
    requires nets { db.now.chip.nets ≤ length links.now.classes }
    requires short { length port.now ≤ 20 }
    ensures { result ≡ is_some_read_in links.now (io_net (database_in db.now) x y n port.now) }
{
    is_some_read(links, io_net(db, x, y, n, port))
}

/// The input side of a pin of that type. If an output of a PLL has the pin, its input side belongs to the PLL.
fn input_side(
    db: &ChipDb,
    image: &AnyImage,
    links: &Links,
    sources: &[PllSource],
    place: NumberedPlace,
    pintype: u8,
) -> InputSide
    requires together { BelongTogether db.now image.now links.now }
    ensures takes { result.takes ≡ (if is_pll_place sources.now place.x place.y place.n then Nothing else takes_of pintype) }
    ensures reads_0 { result.reads_0 ≡ (not (is_pll_place sources.now place.x place.y place.n) && is_some_read_in links.now (io_net (database_in db.now) place.x place.y place.n (codes "/D_IN_0"))) }
    ensures reads_1 { result.reads_1 ≡ (not (is_pll_place sources.now place.x place.y place.n) && is_some_read_in links.now (io_net (database_in db.now) place.x place.y place.n (codes "/D_IN_1"))) }
    ensures is_global { result.is_global ≡ (not (is_pll_place sources.now place.x place.y place.n) && is_global_pad (database_in db.now) (configuration_of image.now) place.x place.y place.n) }
{
    let NumberedPlace { x, y, n, .. } = place;
    if is_pll_place(sources, x, y, n) {
        return InputSide {
            takes: PadInput::Nothing,
            reads_0: false,
            reads_1: false,
            is_global: false,
        };
    }
    InputSide {
        takes: takes_of(pintype),
        reads_0: is_net_read(db, links, x, y, n, b"/D_IN_0"),
        reads_1: is_net_read(db, links, x, y, n, b"/D_IN_1"),
        is_global: is_global_pad(db, image, x, y, n),
    }
}

/// The inner nets of the pin with that number, if pins of every kind are taken. They are after the nets of the database.
///
/// # Errors
/// `AllocError` if their numbers need more than 32 bits.
fn inner_nets(db: &ChipDb, all_pins: bool, number: usize) -> Result<InnerNets, AllocError>
    ensures data { IfOk result (λ inner. inner.data_net ≡ (if all_pins then Some (db.now.chip.nets + 2 * number) else None)) }
    ensures pad { IfOk result (λ inner. inner.pad_net ≡ (if all_pins then Some (db.now.chip.nets + 2 * number + 1) else None)) }
{
    if !all_pins {
        return Ok(InnerNets {
            data_net: None,
            pad_net: None,
        });
    }
    let before = place_of(number)?.checked_mul(2).ok_or(AllocError)?;
    let data_net = db.net_count().checked_add(before).ok_or(AllocError)?;
    let pad_net = data_net.checked_add(1).ok_or(AllocError)?;
    Ok(InnerNets {
        data_net: Some(data_net),
        pad_net: Some(pad_net),
    })
}

/// The pin at a place.
///
/// # Errors
/// `AllocError` if the numbers of its inner nets need more than 32 bits.
pub(crate) fn pin(
    db: &ChipDb,
    image: &AnyImage,
    links: &Links,
    all_pins: bool,
    sources: &[PllSource],
    place: NumberedPlace,
) -> Result<Pin, AllocError>
    requires together { BelongTogether db.now image.now links.now }
    requires sources { sources.now ≡ pll_sources all_pins (database_in db.now) (configuration_of image.now) }
    requires tile { HasTile image.now Io place.x place.y }
    ensures { IfOk result (λ pin. pin ≡ pin_with all_pins (database_in db.now) (configuration_of image.now) place.number place.x place.y place.n) }
{
    let NumberedPlace { number, x, y, n } = place;
    let pintype = pintype(db, image, x, y, n);
    let input = input_side(db, image, links, sources, place, pintype);
    let inner = inner_nets(db, all_pins, number)?;
    Ok(Pin {
        x,
        y,
        n,
        drive: drive_of(pintype),
        sends: sends_of(pintype),
        takes: input.takes,
        reads_0: input.reads_0,
        reads_1: input.reads_1,
        is_global: input.is_global,
        neg: is_on(db, image, TileKind::Io, x, y, b"NegClk"),
        inclk: io_shared_net(db, x, y, b"inclk"),
        outclk: io_shared_net(db, x, y, b"outclk"),
        cen: io_shared_net(db, x, y, b"cen"),
        din_0: io_net(db, x, y, n, b"/D_IN_0"),
        din_1: io_net(db, x, y, n, b"/D_IN_1"),
        dout_0: io_net(db, x, y, n, b"/D_OUT_0"),
        dout_1: io_net(db, x, y, n, b"/D_OUT_1"),
        enable: io_net(db, x, y, n, b"/OUT_ENB"),
        data_net: inner.data_net,
        pad_net: inner.pad_net,
    })
}
