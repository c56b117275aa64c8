// The marks of global networks.
ghost use Rattle.std.specs.Prelude.{◌≡◌, ◌++◌, IfOk, OnOk, find, option_copied};
ghost use Rattle.std.specs.Option.{option_to_list};
ghost use Rattle.chipdb_reader.specs.Kept.{database_in};
ghost use Rattle.floor_plan.specs.ByTile.{reads_in};
ghost use Rattle.floor_plan.specs.Plans.{fabric_source, global_marks, is_global_read, is_of, mark_by, pin_source, pll_source, source_mark};

use crate::plls::is_b;
use chipdb_reader::{ChipDb, PinXy, TileXy8};
use fabric_model::{GlobalFrom, GlobalNet, Links, PllOutput};
use plan_marks::{GlobalMark, GlobalSource};
use std::alloc::{AllocError, Global};

/// The marks of the global networks that drive one of these nets, by their number.
#[tactic(auto, unfolding(crate::specs::Plans::global_marks))]
pub(crate) fn global_marks(
    alloc: Global,
    db: &ChipDb,
    links: &Links,
    nets: &[GlobalNet],
) -> Result<Vec<GlobalMark>, AllocError>
    ensures { IfOk result (λ marks. marks.items ≡ global_marks (database_in db.now) (reads_in links.now) nets.now) }
{
    let mut marks = Vec::new(alloc);
    for g in 0..8 {
        push_mark(&mut marks, db, links, nets, g)?;
    }
    Ok(marks)
}

/// Appends the mark of global network `g`, if it drives one of these nets.
fn push_mark(
    marks: &mut Vec<GlobalMark>,
    db: &ChipDb,
    links: &Links,
    nets: &[GlobalNet],
    g: u8,
) -> Result<(), AllocError>
    ensures { OnOk result (marks.new.items ≡ marks.old.items ++ mark_by (database_in db.now) g (is_global_read (reads_in links.now) nets.now g) (find (is_of g) nets.now)) }
{
    let is_read = is_global_read(links, nets, g);
    match first_net(nets, g) {
        None => Ok(()),
        Some(net) => push_some(marks, source_mark(db, g, is_read, net.from)),
    }
}

/// Appends a mark, if there is one.
fn push_some(marks: &mut Vec<GlobalMark>, mark: Option<GlobalMark>) -> Result<(), AllocError>
    ensures { OnOk result (marks.new.items ≡ marks.old.items ++ option_to_list mark) }
{
    match mark {
        None => Ok(()),
        Some(mark) => Ok(marks.push(mark)?),
    }
}

/// The first of the nets of a global network.
fn first_net(nets: &[GlobalNet], g: u8) -> Option<&GlobalNet>
    ensures { option_copied result ≡ find (is_of g) nets.now }
{
    nets.iter().find(|net| net.g == g)
}

/// Whether a net is read; false if there is no such net.
fn is_net_read(links: &Links, net: u32) -> bool
    ensures { result ≡ reads_in links.now net }
{
    (net as usize) < links.net_count() && links.is_read(net)
}

/// Whether one of the nets of a global network is read.
fn is_global_read(links: &Links, nets: &[GlobalNet], g: u8) -> bool
    ensures { result ≡ is_global_read (reads_in links.now) nets.now g }
{
    nets.iter()
        .any(|net| net.g == g && is_net_read(links, net.net))
}

/// The mark of a global network at the tile that drives it.
fn source_mark(db: &ChipDb, g: u8, is_read: bool, from: GlobalFrom) -> Option<GlobalMark>
    ensures { option_to_list result ≡ source_mark (database_in db.now) g is_read from }
{
    match from {
        GlobalFrom::Pad { x, y, n } => Some(pin_source(g, is_read, PinXy { x, y, n })),
        GlobalFrom::Pll { x, y, output } => pll_source(g, is_read, x, y, output, db.gbufpin(g)),
        GlobalFrom::Fabout { .. } => fabric_source(g, is_read, db.gbufin(g)),
    }
}

/// The mark of a global network that its pad drives.
fn pin_source(g: u8, is_read: bool, pad: PinXy) -> GlobalMark
    ensures { result ≡ pin_source g is_read pad }
{
    GlobalMark {
        g,
        x: pad.x,
        y: pad.y,
        source: GlobalSource::Pin { n: pad.n },
        is_read,
    }
}

/// The mark of a global network that an output of the PLL at (x, y) drives in place of the pad.
fn pll_source(
    g: u8,
    is_read: bool,
    x: u32,
    y: u32,
    output: PllOutput,
    pad: Option<PinXy>,
) -> Option<GlobalMark>
    ensures { option_to_list result ≡ pll_source g is_read x y output pad }
{
    match pad {
        None => None,
        Some(pad) => Some(GlobalMark {
            g,
            x: pad.x,
            y: pad.y,
            source: GlobalSource::Pll {
                n: pad.n,
                x,
                y,
                is_b: is_b(output),
            },
            is_read,
        }),
    }
}

/// The mark of a global network that the net `fabout` of a tile drives.
fn fabric_source(g: u8, is_read: bool, tile: Option<TileXy8>) -> Option<GlobalMark>
    ensures { option_to_list result ≡ fabric_source g is_read tile }
{
    match tile {
        None => None,
        Some(tile) => Some(GlobalMark {
            g,
            x: tile.x,
            y: tile.y,
            source: GlobalSource::Fabric,
            is_read,
        }),
    }
}
