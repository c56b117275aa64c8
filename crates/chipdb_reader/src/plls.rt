// The PLLs of a database.
ghost use Rattle.std.specs.Prelude.{◌≡◌, None, Some, IfOk};
ghost use Rattle.std.specs.Map.{values_of};
ghost use Rattle.chipdb_lines.specs.Kept.{pll_line_named};
ghost use Rattle.chipdb_reader.specs.Plls.{AddsPllLine, BeginsPll, ClosesPll, all_plls, is_new_line};

use crate::items::{PllCell, PllLine};
use chipdb_lines::PllItem;
use std::alloc::{AllocError, Global};
use std::collections::{BTreeMap, BTreeSet};
use std::mem;

/// The tile of a PLL. Tiles are ordered by y, then by x.
#[derive(Clone, Copy, PartialEq, Eq, PartialOrd, Ord)]
pub(crate) struct PllTile {
    y: u32,
    x: u32,
}

/// PLLs by their tiles.
#[derive(Drop)]
pub(crate) struct Plls {
    alloc: Global,
    /// The PLLs that were begun before the last.
    earlier: BTreeMap<PllTile, PllCell>,
    /// The PLL that was begun last. `None` if an earlier one has its tile.
    last: Option<PllTile>,
    /// The lines of the last one.
    lines: Vec<PllLine>,
    /// Their names.
    names: BTreeSet<Vec<u8>>,
}

impl Plls {
    /// No PLLs yet. It takes no memory.
    pub(crate) fn new(alloc: Global) -> Plls
        ensures empty { all_plls result ≡ [] }
        ensures none { result.last ≡ None }
    {
        Plls {
            alloc,
            earlier: BTreeMap::new(alloc),
            last: None,
            lines: Vec::new(alloc),
            names: BTreeSet::new(alloc),
        }
    }

    /// Begins the lines of the PLL at (x, y). If there is one at that tile already, they are skipped.
    pub(crate) fn begin(&mut self, x: u32, y: u32) -> Result<(), AllocError>
        ensures { IfOk result (λ _. BeginsPll self.old self.new x y) }
    {
        self.close()?;
        self.lines.clear();
        self.names.clear();
        let tile = PllTile { y, x };
        if !self.earlier.contains_key(&tile) {
            self.last = Some(tile);
        }
        Ok(())
    }

    /// Adds a line of the PLL that was begun last, unless the PLL has one of that name.
    pub(crate) fn add(&mut self, item: PllItem<'_>) -> Result<(), AllocError>
        ensures { IfOk result (λ _. AddsPllLine self.old self.new (pll_line_named item.entry)) }
    {
        if self.is_new_line(item.name) {
            self.add_new(item)
        } else {
            Ok(())
        }
    }

    /// Whether a line of that name is one of the PLL that was begun last, and the PLL has none of that name yet.
    fn is_new_line(&self, name: &[u8]) -> bool
        ensures { result ≡ is_new_line self.now name.now }
    {
        self.last.is_some() && !self.names.contains(name)
    }

    /// Adds a line of a name that the PLL hasn't yet.
    fn add_new(&mut self, item: PllItem<'_>) -> Result<(), AllocError>
        requires { is_new_line self.old item.name.now ≡ true }
        ensures { IfOk result (λ _. AddsPllLine self.old self.new (pll_line_named item.entry)) }
    {
        let line = owned_line(self.alloc, item)?;
        let name = item.name.to_vec(self.alloc)?;
        self.names.insert(name)?;
        self.lines.push(line)?;
        Ok(())
    }

    /// The PLLs in the order of their tiles.
    pub(crate) fn into_cells(mut self) -> Result<Vec<PllCell>, AllocError>
        ensures { IfOk result (λ cells. cells.items ≡ values_of (all_plls self)) }
    {
        self.close()?;
        let mut cells = Vec::new(self.alloc);
        for (_, cell) in self.earlier {
            cells.push(cell)?;
        }
        Ok(cells)
    }

    /// Moves the PLL that was begun last to the earlier ones.
    fn close(&mut self) -> Result<(), AllocError>
        ensures { IfOk result (λ _. ClosesPll self.old self.new) }
    {
        match self.last {
            None => Ok(()),
            Some(tile) => self.put_earlier(tile),
        }
    }

    /// Moves a PLL that was begun last to the earlier ones.
    fn put_earlier(&mut self, tile: PllTile) -> Result<(), AllocError>
        requires { self.old.last ≡ Some tile }
        ensures { IfOk result (λ _. ClosesPll self.old self.new) }
    {
        let cell = PllCell {
            x: tile.x,
            y: tile.y,
            lines: mem::replace(&mut self.lines, Vec::new(self.alloc)),
        };
        self.earlier.insert(tile, cell)?;
        self.last = None;
        Ok(())
    }
}

ghost use Rattle.std.specs.Prelude.{[], true};
ghost use Rattle.chipdb_reader.specs.Kept.{pll_line};

/// A line with bytes of its own.
fn owned_line(alloc: Global, item: PllItem<'_>) -> Result<PllLine, AllocError>
    ensures { IfOk result (λ line. pll_line line ≡ pll_line_named item.entry) }
{
    Ok(PllLine {
        name: item.name.to_vec(alloc)?,
        x: item.x,
        y: item.y,
        word: item.word.to_vec(alloc)?,
    })
}
