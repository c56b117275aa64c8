// The nets of a database and their names.
ghost use Rattle.std.specs.Prelude.{◌≡◌, ◌+◌, ◌≤◌, ℕ, [], false, None, Some, is_some, if◌then◌else◌, IfOk, IfErr, OnOk};
ghost use Rattle.chipdb_lines.specs.Kept.{Reports};

use crate::items::NetName;
use crate::name_index::NameIndex;
use chipdb_lines::{DbCause, DbLineRefusal};
use indexmap::IndexMap;
use std::alloc::{AllocError, Global};

/// Where the names of a net are in the list of all names.
#[derive(Clone, Copy)]
struct Span {
    start: u32,
    count: u32,
}

/// Nets with their names, and an index from a tile and a name to the net.
#[derive(Drop)]
pub(crate) struct Nets {
    /// The names of all nets, in the order of the text.
    names: Vec<NetName>,
    /// The nets that were begun before the last, in the order of the text, and where the names of each are.
    earlier: IndexMap<u32, Span>,
    /// The net that was begun last.
    last: Option<u32>,
    /// Where the names of that net begin.
    start: usize,
    /// The index from a name to its net.
    index: NameIndex,
}

impl Nets {
    ghost use Rattle.chipdb_reader.specs.Nets.{AddsName, BeginsNet, ClosesNet, IsNetIndex, earlier_names, has_net, named_net, net_names};

    /// No nets yet. It takes no memory.
    pub(crate) fn new(alloc: Global) -> Nets
        ensures indexed { IsNetIndex result }
        ensures none { result.last ≡ None }
        ensures empty { net_names result ≡ [] }
        ensures no_net { (net : ℕ) → has_net result net ≡ false }
    {
        Nets {
            names: Vec::new(alloc),
            earlier: IndexMap::new(alloc),
            last: None,
            start: 0,
            index: NameIndex::new(alloc),
        }
    }

    /// Begins the names of a net, unless that net was begun before.
    pub(crate) fn begin(&mut self, net: u32) -> Result<(), DbLineRefusal>
        requires { IsNetIndex self.old }
        ensures begun { IfOk result (λ _. BeginsNet self.old self.new net) }
        ensures refused { IfErr result (Reports (if has_net self.old net then Some DbCause.NetTwice else None)) }
        ensures new { OnOk result (has_net self.old net ≡ false) }
    {
        self.close()?;
        if self.earlier.contains_key(&net) {
            return Err(DbLineRefusal::Cause(DbCause::NetTwice));
        }
        self.last = Some(net);
        Ok(())
    }

    /// Moves the net that was begun last to the earlier ones.
    pub(crate) fn close(&mut self) -> Result<(), AllocError>
        requires { IsNetIndex self.old }
        ensures { IfOk result (λ _. ClosesNet self.old self.new) }
    {
        match self.last {
            None => Ok(()),
            Some(net) => self.put_earlier(net),
        }
    }

    /// Moves a net that was begun last to the earlier ones.
    fn put_earlier(&mut self, net: u32) -> Result<(), AllocError>
        requires indexed { IsNetIndex self.old }
        requires last { self.old.last ≡ Some net }
        ensures { IfOk result (λ _. ClosesNet self.old self.new) }
    {
        let end = self.names.len();
        let span = span_between(self.start, end)?;
        self.earlier.insert(net, span).map_err(AllocError::from)?;
        self.last = None;
        self.start = end;
        Ok(())
    }

    /// Adds a name to the net that was begun last, unless the tile has that name already.
    pub(crate) fn add(&mut self, net: u32, name: NetName) -> Result<(), DbLineRefusal>
        requires indexed { IsNetIndex self.old }
        requires last { self.old.last ≡ Some net }
        ensures added { IfOk result (λ _. AddsName self.old self.new net name) }
        ensures refused { IfErr result (Reports (if is_some (named_net self.old name) then Some DbCause.NameTwice else None)) }
    {
        if self.index.get(&name).is_some() {
            return Err(DbLineRefusal::Cause(DbCause::NameTwice));
        }
        self.index.put(&name, net)?;
        self.names.push(name).map_err(AllocError::from)?;
        Ok(())
    }

    /// The net of a name at a tile, if there is one.
    pub(crate) fn net_of(&self, name: NetName) -> Option<u32>
        ensures { result ≡ named_net self.now name }
    {
        self.index.get(&name)
    }

    /// The names of an earlier net, that is one other than the last.
    pub(crate) fn names_of(&self, net: u32) -> &[NetName]
        ensures { result.now ≡ earlier_names self.now net }
    {
        match self.earlier.get(&net) {
            None => &[],
            Some(span) => names_in(&self.names, *span),
        }
    }
}

ghost use Rattle.chipdb_reader.specs.Nets.{names_in};

/// The span from one index to another. Memory never holds so many names that an index needs more than four bytes.
fn span_between(start: usize, end: usize) -> Result<Span, AllocError>
    requires { start ≤ end }
    ensures { IfOk result (λ span. (span.start ≡ start) × (span.start + span.count ≡ end)) }
{
    if end <= u32::MAX as usize {
        Ok(Span {
            start: start as u32,
            count: (end - start) as u32,
        })
    } else {
        Err(AllocError)
    }
}

/// The names of a net, as far as the list has them.
fn names_in(names: &[NetName], span: Span) -> &[NetName]
    ensures { result.now ≡ names_in names.now span }
{
    let rest = &names[names.len().min(span.start as usize)..];
    &rest[..rest.len().min(span.count as usize)]
}
