// The names of nets in tiles.
ghost use Rattle.std.specs.Prelude.{◌≡◌, ℕ, ◌==◌, ◌&&◌, cond, IfOk, OnOk, Some, find, position};
ghost use Rattle.std.specs.Ordering.{nat_cmp};
ghost use Rattle.std.specs.Option.{option_map};
ghost use Rattle.std.specs.BTreeMap.{get, is_at as is_key_at};
ghost use Rattle.chipdb_reader.specs.Kept.{Kept, database_in};
ghost use Rattle.chipdb_reader.specs.Lookups.{names_of_net};
ghost use Rattle.chipdb_reader.specs.Texts.{text_at};
ghost use Rattle.image_explain.specs.declared.keys.TileKey.{TileKey as KeyOf};
ghost use Rattle.image_explain.specs.Explained.{is_at};
ghost use Rattle.image_explain.specs.Keys.{FindsNames, FindsNets, tile_cmp, tile_key};

use crate::item::Active;
use crate::keys::TileKey;
use crate::places::link_at;
use crate::tile::TileAt;
use chipdb_reader::{ChipDb, LinkLine, NetName};
use std::alloc::{AllocError, Global};
use std::collections::BTreeMap;

/// A net with more names than this gets an index of its names by tile.
const FEW: usize = 64;

/// For some of the nets, the first name in each tile.
#[derive(Drop)]
pub(crate) struct NetNames {
    nets: BTreeMap<u32, BTreeMap<TileKey, NetName>>,
}

/// No nets yet.
pub(crate) fn no_nets(alloc: Global) -> NetNames
    ensures { (kept : Kept) → FindsNets kept result.nets }
{
    NetNames {
        nets: BTreeMap::new(alloc),
    }
}

/// Adds the nets of the links at the indexes in these lists, if they have many names.
pub(crate) fn add_lists(
    nets: &mut NetNames,
    alloc: Global,
    db: &ChipDb,
    links: &[LinkLine],
    lists: &[Vec<usize>],
) -> Result<(), AllocError>
    requires { FindsNets db.now nets.old.nets }
    ensures { OnOk result (FindsNets db.now nets.new.nets) }
{
    for places in lists {
        add_places(nets, alloc, db, links, places)?;
    }
    Ok(())
}

/// Adds the nets of the links at these indexes, if they have many names.
fn add_places(
    nets: &mut NetNames,
    alloc: Global,
    db: &ChipDb,
    links: &[LinkLine],
    places: &[usize],
) -> Result<(), AllocError>
    requires { FindsNets db.now nets.old.nets }
    ensures { OnOk result (FindsNets db.now nets.new.nets) }
{
    for place in places {
        add_link(nets, alloc, db, link_at(links, *place))?;
    }
    Ok(())
}

/// Adds the nets of a tile's items, if they have many names.
pub(crate) fn add_items(
    nets: &mut NetNames,
    alloc: Global,
    db: &ChipDb,
    items: &[Active],
) -> Result<(), AllocError>
    requires { FindsNets db.now nets.old.nets }
    ensures { OnOk result (FindsNets db.now nets.new.nets) }
{
    for item in items {
        add_link(nets, alloc, db, link_of(db, *item))?;
    }
    Ok(())
}

/// The link that an item stands for, if it is one.
fn link_of(db: &ChipDb, item: Active) -> Option<LinkLine> {
    match item {
        Active::Buffer { index } => link_at(db.buffers(), index),
        Active::Routing { index } => link_at(db.routings(), index),
        _ => None,
    }
}

/// Adds both nets of a link, if they have many names.
fn add_link(
    nets: &mut NetNames,
    alloc: Global,
    db: &ChipDb,
    link: Option<LinkLine>,
) -> Result<(), AllocError>
    requires { FindsNets db.now nets.old.nets }
    ensures { OnOk result (FindsNets db.now nets.new.nets) }
{
    match link {
        None => Ok(()),
        Some(link) => {
            add_net(nets, alloc, db, link.src)?;
            add_net(nets, alloc, db, link.dst)
        }
    }
}

/// Adds a net, if it has many names and isn't there yet.
fn add_net(nets: &mut NetNames, alloc: Global, db: &ChipDb, net: u32) -> Result<(), AllocError>
    requires { FindsNets db.now nets.old.nets }
    ensures { OnOk result (FindsNets db.now nets.new.nets) }
{
    let names = db.names_of(net);
    if names.len() <= FEW {
        return Ok(());
    }
    if nets.nets.contains_key(&net) {
        return Ok(());
    }
    let firsts = first_names(alloc, names)?;
    put_net(&mut nets.nets, net, firsts)
}

/// Adds a net with its names.
fn put_net(
    nets: &mut BTreeMap<u32, BTreeMap<TileKey, NetName>>,
    net: u32,
    firsts: BTreeMap<TileKey, NetName>,
) -> Result<(), AllocError>
    ensures { OnOk result ((key : ℕ) → get nat_cmp nets.new key ≡ cond (is_key_at (nat_cmp net) key) (Some firsts) (get nat_cmp nets.old key)) }
{
    match nets.insert(net, firsts) {
        Ok(_) => Ok(()),
        Err(e) => Err(AllocError::from(e)),
    }
}

/// The first of these names in each tile.
fn first_names(alloc: Global, names: &[NetName]) -> Result<BTreeMap<TileKey, NetName>, AllocError>
    ensures { IfOk result (λ firsts. FindsNames firsts names.now) }
{
    let mut firsts = BTreeMap::new(alloc);
    for place in (0..names.len()).rev() {
        put_first(&mut firsts, names[place])?;
    }
    Ok(firsts)
}

/// Puts a name before the others in its tile.
fn put_first(firsts: &mut BTreeMap<TileKey, NetName>, name: NetName) -> Result<(), AllocError>
    ensures { OnOk result ((key : KeyOf) → get tile_cmp firsts.new key ≡ cond (is_key_at (tile_cmp (tile_key name.x name.y)) key) (Some name) (get tile_cmp firsts.old key)) }
{
    let key = TileKey {
        x: name.x,
        y: name.y,
    };
    match firsts.insert(key, name) {
        Ok(_) => Ok(()),
        Err(e) => Err(AllocError::from(e)),
    }
}

/// The first name of a net in a tile.
pub(crate) fn name_at<'a>(db: &'a ChipDb, nets: &NetNames, at: TileAt, net: u32) -> Option<&'a [u8]>
    requires { FindsNets db.now nets.now.nets }
    ensures { option_map (λ name. name.now) result ≡ option_map (λ line. line.name) (find (is_at at.x at.y) (names_of_net net (database_in db.now).names)) }
{
    match nets.nets.get(&net) {
        None => searched_name(db, at, net),
        Some(firsts) => indexed_name(db, firsts, at),
    }
}

/// The first name in a tile, for a net with an index of its names.
fn indexed_name<'a>(
    db: &'a ChipDb,
    firsts: &BTreeMap<TileKey, NetName>,
    at: TileAt,
) -> Option<&'a [u8]>
    ensures { option_map (λ name. name.now) result ≡ option_map (λ name. text_at db.now.texts name.name) (get tile_cmp firsts.now (tile_key at.x at.y)) }
{
    match first_in(firsts, at) {
        None => None,
        Some(name) => Some(db.text(name.name)),
    }
}

/// The first name in a tile, by such an index.
fn first_in(firsts: &BTreeMap<TileKey, NetName>, at: TileAt) -> Option<NetName>
    ensures { result ≡ get tile_cmp firsts.now (tile_key at.x at.y) }
{
    let key = TileKey { x: at.x, y: at.y };
    firsts.get(&key).copied()
}

/// The first name of a net in a tile, searched for among all of its names.
fn searched_name<'a>(db: &'a ChipDb, at: TileAt, net: u32) -> Option<&'a [u8]>
    ensures { option_map (λ name. name.now) result ≡ option_map (λ line. line.name) (find (is_at at.x at.y) (names_of_net net (database_in db.now).names)) }
{
    let names = db.names_of(net);
    match first_at(names, at) {
        None => None,
        Some(index) => Some(db.text(names[index].name)),
    }
}

/// The index of the first of these names that is in a tile.
fn first_at(names: &[NetName], at: TileAt) -> Option<usize>
    ensures { result ≡ position (λ name. (name.x == at.x) && (name.y == at.y)) names.now }
{
    names
        .iter()
        .position(|name| name.x == at.x && name.y == at.y)
}
