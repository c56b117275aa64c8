// Lines among which others are looked up.
ghost use Rattle.std.specs.Prelude.{◌≡◌, ◌||◌, ℕ, List, [], bytes_eq, IfOk, OnOk};
ghost use Rattle.image_explain.specs.Inside.{lists_of};
ghost use Rattle.image_diff.specs.Differences.{is_among};

use indexmap::IndexSet;
use std::alloc::{AllocError, Global};
use std::marker::Model;

/// Lines, each once. Looking one up takes a time that doesn't grow with their number.
#[derive(Drop)]
pub(crate) struct LineSet<'a> {
    lines: IndexSet<&'a [u8]>,
}

impl<'a> Model for LineSet<'a> {
    ghost use Rattle.std.specs.Prelude.{List, ℕ, map};

    ghost Value = { List (List ℕ) };

    ghost view = { λ set. map (λ line. line.now) set.lines.keys };
}

impl<'a> LineSet<'a> {
    /// The set of these lines.
    pub(crate) fn of(alloc: Global, lines: &'a [Vec<u8>]) -> Result<LineSet<'a>, AllocError>
        ensures { IfOk result (λ set. (line : List ℕ) → is_among set line ≡ is_among (lists_of lines.entry.now) line) }
    {
        let mut set = LineSet::new(alloc);
        for line in lines {
            set.insert(line)?;
        }
        Ok(set)
    }

    /// No lines. It takes no memory yet.
    fn new(alloc: Global) -> LineSet<'a>
        ensures { result ≡ [] }
    {
        LineSet {
            lines: IndexSet::new(alloc),
        }
    }

    /// Adds a line.
    fn insert(&mut self, line: &'a [u8]) -> Result<(), AllocError>
        ensures { OnOk result ((other : List ℕ) → is_among self.new other ≡ (is_among self.old other || bytes_eq line.now other)) }
    {
        self.lines.insert(line)?;
        Ok(())
    }

    /// Whether a line is among them.
    pub(crate) fn contains(&self, line: &[u8]) -> bool
        ensures { result ≡ is_among self.now line.now }
    {
        self.lines.contains(line)
    }
}
