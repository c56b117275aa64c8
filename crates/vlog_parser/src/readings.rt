// How wires read names.
ghost use Rattle.std.specs.Prelude.{◌≡◌, ◌&&◌, ◌||◌, ℕ, Bool, List, [], Some, not, bytes_eq, if◌then◌else◌, OnOk};
ghost use Rattle.std.specs.Option.{option_map};
ghost use Rattle.vlog_module.specs.Maps.{value_in};
ghost use Rattle.vlog_module.specs.WellFormed.{is_unless};
ghost use Rattle.vlog_parser.specs.Kept.{is_only_unless};
ghost use Rattle.vlog_parser.specs.Seen.{seen_reading};

use crate::uses::Reset;
use indexmap::IndexMap;
use std::alloc::{AllocError, Global};
use std::marker::Model;

/// How a name is read.
#[derive(Clone, Copy, Debug)]
pub(crate) enum Reading<'a> {
    /// As it is, or in several ways.
    Plainly,
    /// Only by way of an asynchronous set or reset.
    Unless(Reset<'a>),
}

/// Names and how they are read, each once, in the order in which they were added.
#[derive(Drop)]
pub(crate) struct ReadingMap<'a> {
    readings: IndexMap<&'a [u8], Reading<'a>>,
}

impl<'a> Model for ReadingMap<'a> {
    ghost use Rattle.std.specs.Prelude.{List, ℕ, map};
    ghost use Rattle.vlog_module.specs.WellFormed.{Reading as Way};
    ghost use Rattle.vlog_parser.specs.Seen.{seen_reading};

    ghost Value = { List (List ℕ × Way) };

    ghost view = { λ read. map (λ entry. (entry.0.now, seen_reading entry.1)) read.readings.entries };
}

impl<'a> ReadingMap<'a> {
    /// No names.
    pub(crate) fn new(alloc: Global) -> ReadingMap<'a>
        ensures { result ≡ [] }
    {
        ReadingMap {
            readings: IndexMap::new(alloc),
        }
    }

    /// Adds a reading of a name.
    pub(crate) fn push(&mut self, name: &'a [u8], reading: Reading<'a>) -> Result<(), AllocError>
        ensures { OnOk result ((other reset : List ℕ) (set : Bool) → is_only_unless (value_in self.new other) reset set
            ≡ (is_only_unless (value_in self.old other) reset set && (not (bytes_eq name.now other) || is_unless reset set (seen_reading reading.entry)))) }
    {
        match self.get(name) {
            Some(before) => self.put(name, both(before, reading)),
            None => self.put(name, reading),
        }
    }

    /// Keeps a reading for a name, in place of the earlier one.
    fn put(&mut self, name: &'a [u8], reading: Reading<'a>) -> Result<(), AllocError>
        ensures { OnOk result ((other : List ℕ) → value_in self.new other
            ≡ (if bytes_eq name.now other then Some (seen_reading reading.entry) else value_in self.old other)) }
    {
        self.readings.insert(name, reading)?;
        Ok(())
    }

    /// How a name is read, if it is.
    fn get(&self, name: &[u8]) -> Option<Reading<'a>>
        ensures { option_map seen_reading result ≡ value_in self.now name.now }
    {
        self.readings.get(name).copied()
    }

    /// Whether a name, if it is read, is only read by way of this asynchronous set or reset.
    pub(crate) fn is_only_unless(&self, name: &[u8], reset: Reset<'_>) -> bool
        ensures { result ≡ is_only_unless (value_in self.now name.now) reset.entry.wire.now reset.entry.set }
    {
        match self.get(name) {
            Some(reading) => is_unless(reset, reading),
            None => true,
        }
    }
}

/// What two readings of a name count as.
fn both<'a>(one: Reading<'a>, other: Reading<'a>) -> Reading<'a>
    ensures { (reset : List ℕ) (set : Bool) → is_unless reset set (seen_reading result)
        ≡ (is_unless reset set (seen_reading one.entry) && is_unless reset set (seen_reading other.entry)) }
{
    match one {
        Reading::Plainly => Reading::Plainly,
        Reading::Unless(reset) => {
            if is_unless(reset, other) {
                one
            } else {
                Reading::Plainly
            }
        }
    }
}

/// Whether a reading is by way of this asynchronous set or reset.
fn is_unless(reset: Reset<'_>, reading: Reading<'_>) -> bool
    ensures { result ≡ is_unless reset.entry.wire.now reset.entry.set (seen_reading reading.entry) }
{
    match reading {
        Reading::Plainly => false,
        Reading::Unless(other) => other.wire == reset.wire && other.set == reset.set,
    }
}
