// The index from the name of a net at a tile to that net: a table by the name's place and the tile, and a map in order for names and tiles that
// have no cell in it.
ghost use Rattle.std.specs.Prelude.{◌≡◌, ◌≢◌, ◌+◌, ◌<◌, ℕ, None, Some, cond, get_or, max, vec_len, IfSome, OnErr, OnOk};
ghost use Rattle.std.specs.BTreeMap.{get, is_at};
ghost use Rattle.chipdb_reader.specs.NameIndex.{cell_of, held_at, name_cmp, net_held, net_in};

use crate::items::NetName;
use plane_map::MAX_SIDE;
use std::alloc::{AllocError, Global};
use std::collections::BTreeMap;

/// How many names have cells in the table.
const NAMES: usize = 4096;

/// How many cells the table has at most.
const CELLS: usize = NAMES * MAX_SIDE * MAX_SIDE;

/// The value of a cell whose name no net has.
const NO_NET: u32 = u32::MAX;

/// The net of each name at a tile. The first names are in a table, all others in a map. The table is only there for speed.
#[derive(Drop)]
pub(crate) struct NameIndex {
    /// The nets that have the first name, tile by tile, then the nets that have the second name, and so on.
    table: Vec<u32>,
    /// The nets of all names that have no cell in the table.
    others: BTreeMap<NetName, u32>,
}

impl NameIndex {
    /// An index without names. It takes no memory yet.
    pub(crate) fn new(alloc: Global) -> NameIndex
        ensures { (name : NetName) → net_in result name ≡ None }
    {
        NameIndex {
            table: Vec::new(alloc),
            others: BTreeMap::new(alloc),
        }
    }

    /// The net of a name, if there is one.
    pub(crate) fn get(&self, name: &NetName) -> Option<u32>
        ensures { result ≡ net_in self.now name.now }
    {
        match held_at(&self.table, cell_of(name)) {
            Some(net) => Some(net),
            None => self.others.get(name).copied(),
        }
    }

    /// Sets the net of a name, if the name has none yet.
    pub(crate) fn put(&mut self, name: &NetName, net: u32) -> Result<(), AllocError>
        requires { net_in self.old name.now ≡ None }
        ensures { OnOk result ((q : NetName) → net_in self.new q ≡ cond (is_at (name_cmp name.now) q) (Some net) (net_in self.old q)) }
    {
        match cell_of(name) {
            Some(cell) if net != NO_NET => put_cell(&mut self.table, cell, net),
            _ => put_other(&mut self.others, name, net),
        }
    }
}

/// The index of a name's cell in the table, if it has one.
fn cell_of(name: &NetName) -> Option<usize>
    ensures cell { result ≡ cell_of name.now }
    ensures small { IfSome result (λ cell. cell < CELLS) }
{
    let (x, y, grid) = (name.x as usize, name.y as usize, name.name.place());
    if x < MAX_SIDE && y < MAX_SIDE && grid < NAMES {
        Some((grid * MAX_SIDE + y) * MAX_SIDE + x)
    } else {
        None
    }
}

/// The net in a cell. A cell past the end of the table is empty.
fn held_at(table: &[u32], cell: Option<usize>) -> Option<u32>
    ensures { result ≡ held_at table.now cell }
{
    match cell {
        None => None,
        Some(cell) => match table.get(cell) {
            None => None,
            Some(net) => net_held(*net),
        },
    }
}

/// The net that a cell holds, if it holds one.
fn net_held(net: u32) -> Option<u32>
    ensures { result ≡ net_held net }
{
    if net == NO_NET { None } else { Some(net) }
}

/// Puts a net into a cell. The table grows no longer than it has to; after an error it is as it was.
fn put_cell(table: &mut Vec<u32>, cell: usize, net: u32) -> Result<(), AllocError>
    requires { cell < CELLS }
    ensures here { OnOk result (get_or table.new.items cell NO_NET ≡ net) }
    ensures others { OnOk result ((c : ℕ) → c ≢ cell → get_or table.new.items c NO_NET ≡ get_or table.old.items c NO_NET) }
    ensures length { OnOk result (vec_len table.new ≡ max (vec_len table.old) (cell + 1)) }
    ensures unchanged { OnErr result (table.new.items ≡ table.old.items) }
{
    grow(table, cell)?;
    table[cell] = net;
    Ok(())
}

/// Makes the table just long enough to have a cell.
fn grow(table: &mut Vec<u32>, cell: usize) -> Result<(), AllocError>
    requires { cell < CELLS }
    ensures length { OnOk result (vec_len table.new ≡ max (vec_len table.old) (cell + 1)) }
    ensures same { OnOk result ((c : ℕ) → get_or table.new.items c NO_NET ≡ get_or table.old.items c NO_NET) }
    ensures unchanged { OnErr result (table.new.items ≡ table.old.items) }
{
    if cell < table.len() {
        Ok(())
    } else {
        table.resize(cell + 1, NO_NET)
    }
}

/// Sets the net of a name in the map.
fn put_other(
    others: &mut BTreeMap<NetName, u32>,
    name: &NetName,
    net: u32,
) -> Result<(), AllocError>
    ensures { OnOk result ((q : NetName) → get name_cmp others.new q ≡ cond (is_at (name_cmp name.now) q) (Some net) (get name_cmp others.old q)) }
{
    match others.insert(*name, net) {
        Ok(_) => Ok(()),
        Err(e) => Err(AllocError::from(e)),
    }
}
