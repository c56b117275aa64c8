// The lines of `.buffer` statements.
ghost use Rattle.std.specs.Prelude.{◌≡◌, ◌≢◌, [], ℕ, ◌<◌, ◌%◌, true, false, None, Some, cond, find, get_or, length, nat_eq, option_map, IfOk, IfErr, OnOk};
ghost use Rattle.chipdb_lines.specs.Kept.{Reports};
ghost use Rattle.std.specs.Ordering.{nat_cmp};
ghost use Rattle.std.specs.BTreeMap.{get, is_at};
ghost use Rattle.std.specs.Map.{lookup};
ghost use Rattle.chipdb_reader.specs.Buffers.{choices_of};

use crate::items::LinkLine;
use chipdb_lines::{DbCause, DbLineRefusal};
use std::alloc::{AllocError, Global};
use std::collections::BTreeMap;

/// How many lines of a statement are searched one by one. If it has more, they are looked up in an index, which is only there for speed.
const FEW: usize = 16;

/// How many marks there are.
const MARKS: usize = 64;

/// The lines of `.buffer` statements, and an index of the lines of the last statement.
#[derive(Drop)]
pub(crate) struct Buffers {
    pub(crate) lines: Vec<LinkLine>,
    /// Where the lines of the last statement begin in `lines`.
    start: usize,
    /// A small filter, only there for speed: the mark at `values % MARKS` is set for each line of the last statement.
    marks: [bool; MARKS],
    /// Whether the lines of the last statement are in the index.
    is_indexed: bool,
    /// The index: the source net that each of their values choose. Empty if they aren't in it.
    chosen: BTreeMap<u64, u32>,
}

impl Buffers {
    ghost use Rattle.chipdb_reader.specs.Buffers.{AddsBuffer, BeginsBuffers, buffer_cause, chosen_src, Indexes, IsChosen};

    /// A list without lines. It takes no memory yet.
    pub(crate) fn new(alloc: Global) -> Buffers
        ensures empty { result.lines.items ≡ [] }
        ensures chosen { IsChosen result }
    {
        Buffers {
            lines: Vec::new(alloc),
            start: 0,
            marks: [false; MARKS],
            is_indexed: false,
            chosen: BTreeMap::new(alloc),
        }
    }

    /// The lines.
    pub(crate) fn into_lines(self) -> Vec<LinkLine>
        ensures { result ≡ self.lines }
    {
        self.lines
    }

    /// Begins the lines of the next statement.
    pub(crate) fn begin(&mut self)
        ensures { BeginsBuffers self.old self.new }
    {
        self.start = self.lines.len();
        self.marks = [false; MARKS];
        self.is_indexed = false;
        self.chosen.clear();
    }

    /// Adds a line of the last statement. A line equal to an earlier one of that statement is skipped. A line with the values of an earlier
    /// one but another net is refused.
    pub(crate) fn add(&mut self, line: LinkLine) -> Result<(), DbLineRefusal>
        requires { IsChosen self.old }
        ensures added { IfOk result (λ _. AddsBuffer self.old self.new line) }
        ensures refused { IfErr result (Reports (buffer_cause self.old line)) }
        ensures fits { OnOk result (buffer_cause self.old line ≡ None) }
    {
        match self.chosen_src(line.values) {
            None => self.add_new(line),
            Some(src) if src == line.src => Ok(()),
            Some(_) => Err(DbLineRefusal::Cause(DbCause::ValuesTwice)),
        }
    }

    /// The net that these values choose in the last statement so far.
    fn chosen_src(&self, values: u64) -> Option<u32>
        requires { IsChosen self.now }
        ensures { result ≡ chosen_src self.now values }
    {
        if !self.marks[mark_of(values)] {
            None
        } else if self.is_indexed {
            self.chosen.get(&values).copied()
        } else {
            first_src(&self.lines[self.start..], values)
        }
    }

    /// Adds a line whose values no other line has.
    fn add_new(&mut self, line: LinkLine) -> Result<(), DbLineRefusal>
        requires indexed { IsChosen self.old }
        requires absent { chosen_src self.old line.values ≡ None }
        ensures added { IfOk result (λ _. AddsBuffer self.old self.new line) }
        ensures refused { IfErr result (Reports None) }
    {
        if self.is_indexed {
            self.add_indexed(line)
        } else if self.lines.len() - self.start < FEW {
            self.add_few(line)
        } else {
            self.index()?;
            self.add_indexed(line)
        }
    }

    /// Adds a line whose values no other line has, while the lines aren't in the index.
    fn add_few(&mut self, line: LinkLine) -> Result<(), DbLineRefusal>
        requires indexed { IsChosen self.old }
        requires few { self.old.is_indexed ≡ false }
        requires absent { chosen_src self.old line.values ≡ None }
        ensures added { IfOk result (λ _. AddsBuffer self.old self.new line) }
        ensures refused { IfErr result (Reports None) }
    {
        self.lines.push(line).map_err(AllocError::from)?;
        set_mark(&mut self.marks, line.values);
        Ok(())
    }

    /// Adds a line whose values no other line has, when the lines are in the index.
    fn add_indexed(&mut self, line: LinkLine) -> Result<(), DbLineRefusal>
        requires indexed { IsChosen self.old }
        requires many { self.old.is_indexed ≡ true }
        requires absent { chosen_src self.old line.values ≡ None }
        ensures added { IfOk result (λ _. AddsBuffer self.old self.new line) }
        ensures refused { IfErr result (Reports None) }
    {
        self.chosen
            .insert(line.values, line.src)
            .map_err(AllocError::from)?;
        self.lines.push(line).map_err(AllocError::from)?;
        set_mark(&mut self.marks, line.values);
        Ok(())
    }

    /// Puts the lines of the last statement into the index.
    fn index(&mut self) -> Result<(), AllocError>
        requires indexed { IsChosen self.old }
        requires few { self.old.is_indexed ≡ false }
        ensures { IfOk result (λ _. Indexes self.old self.new) }
    {
        index_lines(&mut self.chosen, &self.lines[self.start..])?;
        self.is_indexed = true;
        Ok(())
    }
}

/// The index of the mark for values.
fn mark_of(values: u64) -> usize
    ensures is { result ≡ values % MARKS }
    ensures inside { result < MARKS }
{
    (values % MARKS as u64) as usize
}

/// Sets the mark for values.
fn set_mark(marks: &mut [bool; MARKS], values: u64)
    ensures here { get_or marks.new (values % MARKS) true ≡ true }
    ensures others { (k : ℕ) → k ≢ values % MARKS → get_or marks.new k true ≡ get_or marks.old k true }
{
    marks[mark_of(values)] = true;
}

/// The net of the first line with these values.
fn first_src(lines: &[LinkLine], values: u64) -> Option<u32>
    ensures { result ≡ option_map (λ line. line.src) (find (λ line. nat_eq values line.values) lines.now) }
{
    match lines.iter().find(|line| values == line.values) {
        None => None,
        Some(line) => Some(line.src),
    }
}

/// Puts a few lines into an index that has none of them.
fn index_lines(chosen: &mut BTreeMap<u64, u32>, lines: &[LinkLine]) -> Result<(), AllocError>
    requires { (q : ℕ) → get nat_cmp chosen.old q ≡ None }
    ensures { OnOk result ((q : ℕ) → get nat_cmp chosen.new q ≡ lookup (nat_eq q) (choices_of lines.now)) }
{
    match lines {
        [] => Ok(()),
        [line, rest @ ..] => {
            index_lines(chosen, rest)?;
            put(chosen, line.values, line.src)
        }
    }
}

/// Sets the net that values choose, whether or not they have one already.
fn put(chosen: &mut BTreeMap<u64, u32>, values: u64, src: u32) -> Result<(), AllocError>
    ensures { OnOk result ((q : ℕ) → get nat_cmp chosen.new q ≡ cond (is_at (nat_cmp values) q) (Some src) (get nat_cmp chosen.old q)) }
{
    match chosen.insert(values, src) {
        Ok(_) => Ok(()),
        Err(e) => Err(AllocError::from(e)),
    }
}
