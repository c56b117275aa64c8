// Global nets.
ghost use Rattle.std.specs.Prelude.{◌≡◌, ◌++◌, ◌&&◌, ◌==◌, bytes_eq, codes, find, map, option_copied, IfOk, OnOk, Some};
ghost use Rattle.std.specs.List.{list_any};
ghost use Rattle.ice_image.specs.Either.{configuration_of};
ghost use Rattle.chipdb_reader.specs.Fit.{IsFit};
ghost use Rattle.chipdb_reader.specs.Kept.{database_in};
ghost use Rattle.fabric_model.specs.On.{is_extra_on};
ghost use Rattle.index_search.specs.Places.{gathered_below};
ghost use Rattle.fabric_model.specs.Plls.{is_pin_at};
ghost use Rattle.fabric_model.specs.Pins.{from_pad, global_pad, global_fabout, global_source, global_nets, is_global_net, nets_from};
ghost use Rattle.fabric_model.specs.Nets.{ending_in};
ghost use Rattle.fabric_model.specs.Tiles.{item_if};
ghost use Rattle.fabric_parts.specs.Globals.{global_net, AreOneDevice};

use chipdb_reader::{ChipDb, PinXy};
use fabric_model::{GlobalFrom, GlobalNet, PllSource, ShortText, is_pin_at};
use ice_image::AnyImage;
use std::alloc::{AllocError, Global};

/// The nets of global networks 0 to 7, with what drives them, given the outputs of PLLs.
pub(crate) fn globals(
    alloc: Global,
    db: &ChipDb,
    image: &AnyImage,
    sources: &[PllSource],
) -> Result<Vec<GlobalNet>, AllocError>
    requires { AreOneDevice db.now image.now }
    ensures { IfOk result (λ globals. globals.items ≡ gathered_below 8 (λ g. nets_from (database_in db.now) g (global_source sources.now (database_in db.now) (configuration_of image.now) g))) }
{
    let mut globals = Vec::new(alloc);
    for g in 0..8 {
        append_global(&mut globals, db, image, sources, g)?;
    }
    Ok(globals)
}

/// Appends the nets of a global network, if it has a source.
fn append_global(
    globals: &mut Vec<GlobalNet>,
    db: &ChipDb,
    image: &AnyImage,
    sources: &[PllSource],
    g: u8,
) -> Result<(), AllocError>
    requires { AreOneDevice db.now image.now }
    ensures { OnOk result (globals.new.items ≡ globals.old.items ++ nets_from (database_in db.now) g (global_source sources.now (database_in db.now) (configuration_of image.now) g)) }
{
    match global_source(db, image, sources, g) {
        None => Ok(()),
        Some(from) => append_nets(globals, db, g, from),
    }
}

/// Appends the nets of a global network.
fn append_nets(
    globals: &mut Vec<GlobalNet>,
    db: &ChipDb,
    g: u8,
    from: GlobalFrom,
) -> Result<(), AllocError>
    ensures { OnOk result (globals.new.items ≡ globals.old.items ++ nets_from (database_in db.now) g (Some from)) }
{
    let name = ShortText::ending_in(b"glb_netwk_", g);
    for net in 0..db.net_count() {
        append_net(globals, db, name.bytes(), GlobalNet { g, net, from })?;
    }
    Ok(())
}

/// Appends a net, if it has the name of the global network.
fn append_net(
    globals: &mut Vec<GlobalNet>,
    db: &ChipDb,
    name: &[u8],
    global: GlobalNet,
) -> Result<(), AllocError>
    requires { name.now ≡ ending_in (codes "glb_netwk_") global.g }
    ensures { OnOk result (globals.new.items ≡ globals.old.items ++ map (global_net global.g global.from) (item_if (is_global_net (database_in db.now) global.g global.net) global.net)) }
{
    if has_name(db, global.net, name) {
        globals.push(global)?;
    }
    Ok(())
}

/// Whether a net has the name at some tile.
fn has_name(db: &ChipDb, net: u32, name: &[u8]) -> bool
    ensures { result ≡ list_any (λ line. (line.net == net) && bytes_eq name.now line.name) (database_in db.now).names }
{
    for named in db.names_of(net) {
        if name == db.text(named.name) {
            return true;
        }
    }
    false
}

/// The output of a PLL that has pin `n` of the tile at (x, y).
fn source_at(sources: &[PllSource], x: u8, y: u8, n: u8) -> Option<&PllSource>
    ensures { option_copied result ≡ find (λ source. is_pin_at x y n source.pin) sources.now }
{
    sources.iter().find(|source| is_pin_at(x, y, n, source.pin))
}

/// What drives a global network that the image lets its pad drive: the pad, or the output of a PLL that has its pin.
fn from_pad(sources: &[PllSource], pad: PinXy) -> GlobalFrom
    ensures { result ≡ from_pad sources.now pad }
{
    match source_at(sources, pad.x, pad.y, pad.n) {
        None => GlobalFrom::Pad {
            x: pad.x,
            y: pad.y,
            n: pad.n,
        },
        Some(source) => GlobalFrom::Pll {
            x: source.x,
            y: source.y,
            output: source.output,
        },
    }
}

/// What drives a global network: its pad, if the image lets a pad drive it, else the net `fabout` of its tile.
fn global_source(db: &ChipDb, image: &AnyImage, sources: &[PllSource], g: u8) -> Option<GlobalFrom>
    requires { AreOneDevice db.now image.now }
    ensures { result ≡ global_source sources.now (database_in db.now) (configuration_of image.now) g }
{
    match global_pad(db, image, g) {
        Some(pad) => Some(from_pad(sources, pad)),
        None => match global_fabout(db, g) {
            Some(net) => Some(GlobalFrom::Fabout { net }),
            None => None,
        },
    }
}

/// The pad of a global network, if the image lets a pad drive it.
pub(crate) fn global_pad(db: &ChipDb, image: &AnyImage, g: u8) -> Option<PinXy>
    requires { AreOneDevice db.now image.now }
    ensures { result ≡ global_pad (database_in db.now) (configuration_of image.now) g }
{
    if is_extra_on(
        db,
        image,
        ShortText::ending_in(b"padin_glb_netwk.", g).bytes(),
    ) {
        db.gbufpin(g)
    } else {
        None
    }
}

/// The net `fabout` of the tile of a global network.
fn global_fabout(db: &ChipDb, g: u8) -> Option<u32>
    ensures { result ≡ global_fabout (database_in db.now) g }
{
    match db.gbufin(g) {
        None => None,
        Some(tile) => db.net_of(tile.x, tile.y, b"fabout"),
    }
}

/// Whether the first extra bit of that name is set.
#[tactic(auto, unfolding(fabric_model::specs::On::is_extra_on))]
fn is_extra_on(db: &ChipDb, image: &AnyImage, name: &[u8]) -> bool
    requires { AreOneDevice db.now image.now }
    ensures { result ≡ is_extra_on (database_in db.now) (configuration_of image.now) name.now }
{
    match db.extra(name) {
        None => false,
        Some(at) => image.cram_bit(at),
    }
}
