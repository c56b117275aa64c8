// The names of a module as far as it is read.
ghost use Rattle.std.specs.Prelude.{◌≡◌, ◌+◌, ◌≤◌, ◌<◌, [], ◌∷◌, length, OnOk};
ghost use Rattle.vlog_module.specs.WellFormed.{has_bit, is_clock, is_first, is_known, is_same_sort, is_sort, Scope};
ghost use Rattle.vlog_forms.specs.Outcome.{uses_from, uses_in, value_uses};
ghost use Rattle.vlog_forms.specs.Reading.{values_of};
ghost use Rattle.vlog_forms.specs.Values.{seen};
ghost use Rattle.vlog_form_parser.specs.Found.{all_found};
ghost use Rattle.name_set.specs.Sets.{has_name};
ghost use Rattle.vlog_parser.specs.Scopes.{Holds, entered};
ghost use Rattle.vlog_parser.specs.Seen.{seen_use};

use crate::readings::{Reading, ReadingMap};
use crate::sorts::SortMap;
use crate::uses::{Use, use_of};
use crate::words::WordSet;
use name_set::NameSet;
use std::alloc::{AllocError, Global};
use std::marker::Model;
use vlog_form_parser::Found;
use vlog_forms::Value;
use vlog_module::Sort;

/// What the ports and the items so far declare, read and assign.
#[derive(Drop)]
pub struct Names<'a> {
    declared: SortMap<'a>,
    /// How wires read names.
    read: ReadingMap<'a>,
    assigned: NameSet<'a>,
    started: WordSet<'a>,
}

impl<'a> Model for Names<'a> {
    ghost use Rattle.vlog_parser.specs.Scopes.{Known};

    ghost Value = { Known };

    ghost view = { λ names. record { declared = names.declared; read = names.read; assigned = names.assigned; started = names.started } };
}

impl<'a> Names<'a> {
    /// No names yet.
    pub fn new(alloc: Global) -> Names<'a>
        ensures declared { result.declared ≡ [] }
        ensures read { result.read ≡ [] }
        ensures assigned { result.assigned ≡ [] }
        ensures started { result.started ≡ [] }
    {
        Names {
            declared: SortMap::new(alloc),
            read: ReadingMap::new(alloc),
            assigned: NameSet::new(alloc),
            started: WordSet::new(alloc),
        }
    }

    /// Whether a name is assigned.
    pub fn is_assigned(&self, name: &[u8]) -> bool
        ensures { result ≡ has_name self.now.assigned name.now }
    {
        self.assigned.contains(name)
    }

    /// Adds what the values of an item declare, read (if the item is a wire), assign and start.
    pub fn enter(&mut self, values: &[Found<'a>], wire: bool) -> Result<(), AllocError>
        ensures { OnOk result ((scope : Scope) → Holds self.old scope
            → Holds self.new (entered scope wire (uses_in (values_of (all_found values.now))))) }
    {
        self.enter_from(values, 0, values, wire)
    }

    /// Adds what the last values of an item, which begin at an index, declare, read, assign and start.
    fn enter_from(
        &mut self,
        values: &[Found<'a>],
        place: usize,
        more: &[Found<'a>],
        wire: bool,
    ) -> Result<(), AllocError>
        requires { place + length more.now ≤ length values.now }
        ensures { OnOk result ((scope : Scope) → Holds self.old scope
            → Holds self.new (entered scope wire (uses_from (values_of (all_found values.now)) place (values_of (all_found more.now))))) }
    {
        match more {
            [] => Ok(()),
            [one, rest @ ..] => match self.enter_value(one.value, values, place, wire) {
                Ok(()) => self.enter_from(values, place + 1, rest, wire),
                Err(refused) => Err(refused),
            },
        }
    }

    /// Adds what a value declares, reads, assigns or starts; `place` is its index among the values of the item.
    fn enter_value(
        &mut self,
        value: Value<'a>,
        values: &[Found<'a>],
        place: usize,
        wire: bool,
    ) -> Result<(), AllocError>
        requires { place < length values.now }
        ensures { OnOk result ((scope : Scope) → Holds self.old scope
            → Holds self.new (entered scope wire (value_uses (seen value.entry) (values_of (all_found values.now)) place))) }
    {
        match use_of(value, values, place) {
            Some(used) => self.enter_use(used, wire),
            None => Ok(()),
        }
    }

    /// Adds a use of a name by an item, which is a wire or isn't.
    pub fn enter_use(&mut self, used: Use<'a>, wire: bool) -> Result<(), AllocError>
        ensures { OnOk result ((scope : Scope) → Holds self.old scope → Holds self.new (entered scope wire (seen_use used.entry ∷ []))) }
    {
        match used {
            Use::Declares(sort, name) => self.declared.push(name, sort),
            Use::Reads(name) => {
                if wire {
                    self.read.push(name, Reading::Plainly)
                } else {
                    Ok(())
                }
            }
            Use::Chooses(reset, name) => {
                if wire {
                    self.read.push(name, Reading::Unless(reset))
                } else {
                    Ok(())
                }
            }
            Use::Assigns(_, name) => self.assigned.push(name),
            Use::AssignsAsync(_, name) => self.assigned.push(name),
            Use::Starts(name, k) => self.started.push(name, k),
            Use::ReadsBit(_, _) => Ok(()),
            Use::Clocks(_) => Ok(()),
            Use::Takes(_, _) => Ok(()),
        }
    }

    /// Whether a name is declared as what it is used as. If it is a register with an asynchronous set or reset, whether wires read it only
    /// by way of that.
    pub(crate) fn is_known(&self, used: Use<'_>) -> bool
        ensures { (scope : Scope) → Holds self.now scope → result ≡ is_known scope (seen_use used.entry) }
    {
        match used {
            Use::Declares(_, _) => true,
            Use::Reads(name) => has_bit(self.declared.get(name)),
            Use::ReadsBit(name, _) => is_sort(Sort::Word, self.declared.get(name)),
            Use::Clocks(name) => is_clock(self.declared.get(name)),
            Use::Takes(sort, name) => is_sort(sort, self.declared.get(name)),
            Use::Assigns(sort, name) => is_sort(sort, self.declared.get(name)),
            Use::Chooses(_, name) => is_sort(Sort::Register, self.declared.get(name)),
            Use::AssignsAsync(reset, name) => {
                is_sort(Sort::Register, self.declared.get(name))
                    && self.read.is_only_unless(name, reset)
            }
            Use::Starts(name, _) => is_sort(Sort::Memory, self.declared.get(name)),
        }
    }

    /// Whether nothing so far declares the same name, assigns it, or gives the same word a start value.
    pub(crate) fn is_first(&self, used: Use<'_>) -> bool
        ensures { (scope : Scope) → Holds self.now scope → result ≡ is_first scope (seen_use used.entry) }
    {
        match used {
            Use::Declares(_, name) => self.declared.get(name).is_none(),
            Use::Assigns(_, name) => !self.assigned.contains(name),
            Use::AssignsAsync(_, name) => !self.assigned.contains(name),
            Use::Starts(name, k) => !self.started.contains(name, k),
            Use::Reads(_) => true,
            Use::ReadsBit(_, _) => true,
            Use::Clocks(_) => true,
            Use::Takes(_, _) => true,
            Use::Chooses(_, _) => true,
        }
    }
}

/// Whether a name of this kind has a value of one bit.
fn has_bit(sort: Option<Sort>) -> bool
    ensures { result ≡ has_bit sort }
{
    match sort {
        Some(Sort::Input) => true,
        Some(Sort::Register) => true,
        Some(Sort::Wire) => true,
        Some(Sort::Output) => false,
        Some(Sort::Word) => false,
        Some(Sort::Memory) => false,
        None => false,
    }
}

/// Whether a name of this kind can be a clock: an input, or a register of one bit.
fn is_clock(sort: Option<Sort>) -> bool
    ensures { result ≡ is_clock sort }
{
    match sort {
        Some(Sort::Input) => true,
        Some(Sort::Register) => true,
        Some(Sort::Output) => false,
        Some(Sort::Word) => false,
        Some(Sort::Memory) => false,
        Some(Sort::Wire) => false,
        None => false,
    }
}

/// Whether a name is declared as this.
fn is_sort(sort: Sort, other: Option<Sort>) -> bool
    ensures { result ≡ is_sort sort other }
{
    match other {
        Some(other) => is_same_sort(sort, other),
        None => false,
    }
}

/// Whether both are the same kind of name.
fn is_same_sort(one: Sort, other: Sort) -> bool
    ensures { result ≡ is_same_sort one other }
{
    one as u8 == other as u8
}
