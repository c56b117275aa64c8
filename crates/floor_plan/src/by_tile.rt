// Marks by their tiles.
ghost use Rattle.std.specs.Prelude.{◌≡◌, ◌++◌, ◌∷◌, [], ◌<◌, All, IfOk, OnOk, get_or, length, replicate, set};
ghost use Rattle.floor_plan.specs.ByTile.{AreByTile, IsNear, index_of, lists_of};

use plan_marks::Mark;
use std::alloc::{AllocError, Global};

/// How many tiles there are lists for: 64 rows of 64, more than any device has.
pub(crate) const TILES: usize = 4096;

/// The index of a tile.
pub(crate) fn index_of(x: u8, y: u8) -> usize
    ensures { result ≡ index_of x y }
{
    64 * usize::from(y) + usize::from(x)
}

/// The marks of each tile.
#[derive(Drop)]
pub(crate) struct MarksByTile {
    pub(crate) lists: Vec<Vec<Mark>>,
}

impl MarksByTile {
    /// Sorts marks by their tiles, each in the order in which they are given.
    pub(crate) fn of(alloc: Global, marks: &[Mark]) -> Result<MarksByTile, AllocError>
        requires { All IsNear marks.now }
        ensures { IfOk result (λ sorted. AreByTile marks.now (lists_of sorted.lists.items)) }
    {
        let mut lists = no_lists(alloc)?;
        for mark in marks {
            add(&mut lists, index_of(mark.x, mark.y), *mark)?;
        }
        Ok(MarksByTile { lists })
    }

    /// The marks at (x, y).
    pub(crate) fn at(&self, x: u8, y: u8) -> &[Mark]
        ensures { result.now ≡ get_or (lists_of self.now.lists.items) (index_of x y) [] }
    {
        match self.lists.get(index_of(x, y)) {
            None => &[],
            Some(marks) => marks,
        }
    }
}

/// Empty lists for all tiles.
fn no_lists(alloc: Global) -> Result<Vec<Vec<Mark>>, AllocError>
    ensures { IfOk result (λ lists. lists_of lists.items ≡ replicate 4096 []) }
{
    let mut lists = Vec::with_capacity(alloc, TILES)?;
    while lists.len() < TILES {
        lists.push(Vec::new(alloc)).map_err(AllocError::from)?;
    }
    Ok(lists)
}

/// Adds a mark to one of the lists.
fn add(lists: &mut Vec<Vec<Mark>>, at: usize, mark: Mark) -> Result<(), AllocError>
    requires { at < length lists.old.items }
    ensures { OnOk result (lists_of lists.new.items ≡ set (lists_of lists.old.items) at (get_or (lists_of lists.old.items) at [] ++ mark ∷ [])) }
{
    lists[at].push(mark)?;
    Ok(())
}
