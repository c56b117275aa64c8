// Columns of 256 bits, and the index of a column among the columns of a file.
ghost use Rattle.std.specs.Prelude.{◌≡◌, ◌≤◌, ◌<◌, ◌+◌, ◌-◌, ◌*◌, ◌^◌, ℕ, Bool, List, Some, None, false, cond, length, get_or, is_none, IfOk, OnOk, IfErr, IfSome};
ghost use Rattle.std.specs.Ordering.{nat_cmp};
ghost use Rattle.std.specs.Cmp.Lexicographic.{slice_cmp};
ghost use Rattle.std.specs.BTreeMap.{get, is_at};
ghost use Rattle.bram_replace.specs.Columns.{column_bit, column_count, column_from, match_of, same_fault};
ghost use Rattle.bram_replace.specs.Packed.{Finds, earlier, first_repeat, packed, repeat_told, word_from};

use crate::fault::BramFault;
use crate::hex_file::HexFile;
use std::alloc::{AllocError, Global};
use std::collections::BTreeMap;

/// 256 bits as four numbers, which are quick to compare: bit i is bit i % 64 of number i / 64.
pub(crate) type Column = [u64; 4];

/// The column of 256 bits from index `first` on, each `step` bits after the one before.
#[tactic(auto, unfolding(crate::specs::Packed::packed))]
pub(crate) fn column_of(bits: &[bool], first: usize, step: usize) -> Column
    requires { first + 255 * step < length bits.now }
    ensures { result ≡ packed (λ place. get_or bits.now (first + place * step) false) }
{
    [
        word_of(bits, first, step, 64),
        word_of(bits, first + 64 * step, step, 64),
        word_of(bits, first + 128 * step, step, 64),
        word_of(bits, first + 192 * step, step, 64),
    ]
}

/// `count` bits from index `first` on, each `step` bits after the one before, as a number. The first one is its lowest bit.
pub(crate) fn word_of(bits: &[bool], first: usize, step: usize, count: usize) -> u64
    requires few { count ≤ 64 }
    requires within { first + (count - 1) * step < length bits.now }
    ensures is { result ≡ word_from count (λ place. get_or bits.now (first + place * step) false) }
    ensures small { result < 2 ^ count }
{
    let mut word = 0;
    for place in (0..count).rev() {
        let at = first + place * step;
        let bit = u64::from(bits[at]);
        word = 2 * word + bit;
    }
    word
}

/// Two equal columns: the index of the earlier one and of the later one.
#[derive(Clone, Copy, Debug, PartialEq, Eq)]
struct Repeat {
    first: u32,
    second: u32,
}

impl Repeat {
    /// The one of two repeats whose first column is earlier.
    fn or_earlier(self, other: Option<Repeat>) -> Repeat
        ensures { result ≡ earlier self other }
    {
        match other {
            Some(other) if other.first <= self.first => other,
            _ => self,
        }
    }
}

/// The first index of each column so far, and the earliest column that was repeated.
#[derive(Drop)]
struct FirstPlaces {
    places: BTreeMap<Column, u32>,
    repeat: Option<Repeat>,
}

impl FirstPlaces {
    ghost use Rattle.bram_replace.specs.HexText.{Contents};

    /// Takes the next column, which has the index `place`.
    fn accept(&mut self, column: Column, place: u32) -> Result<(), AllocError>
        ensures finds { (file : Contents) → column ≡ packed (column_bit file place)
            → Finds file place (get (slice_cmp nat_cmp) self.old.places)
            → OnOk result (Finds file (place + 1) (get (slice_cmp nat_cmp) self.new.places)) }
        ensures repeats { (file : Contents) → column ≡ packed (column_bit file place)
            → Finds file place (get (slice_cmp nat_cmp) self.old.places)
            → repeat_told self.old.repeat ≡ first_repeat file place
            → OnOk result (repeat_told self.new.repeat ≡ first_repeat file (place + 1)) }
    {
        match self.places.get(&column) {
            Some(first) => {
                let here = Repeat {
                    first: *first,
                    second: place,
                };
                self.repeat = Some(here.or_earlier(self.repeat));
                Ok(())
            }
            None => insert(&mut self.places, column, place),
        }
    }
}

/// Enters a new column with its index.
fn insert(places: &mut BTreeMap<Column, u32>, column: Column, place: u32) -> Result<(), AllocError>
    ensures { OnOk result ((key : List ℕ) → get (slice_cmp nat_cmp) places.new key
        ≡ cond (is_at (slice_cmp nat_cmp column) key) (Some place) (get (slice_cmp nat_cmp) places.old key)) }
{
    match places.insert(column, place) {
        Ok(_) => Ok(()),
        Err(e) => Err(AllocError::from(e)),
    }
}

/// The columns of a file, to be looked up.
#[derive(Drop)]
pub(crate) struct Columns<'a> {
    file: &'a HexFile,
    places: BTreeMap<Column, u32>,
    ghost indexed: { Finds file.now (column_count file.now) (get (slice_cmp nat_cmp) places) },
    ghost different: { same_fault file.now ≡ None },
}

impl<'a> Columns<'a> {
    ghost use Rattle.bram_replace.specs.Replaced.{TellsBram};

    /// The columns of a file. They have to be all different; if not, the fault is the earliest that is repeated.
    pub(crate) fn of(alloc: Global, file: &'a HexFile) -> Result<Columns<'a>, BramFault>
        ensures file { IfOk result (λ columns. columns.file.now ≡ file.now) }
        ensures accepted { OnOk result (same_fault file.now ≡ None) }
        ensures refused { IfErr result (TellsBram (same_fault file.now)) }
    {
        let mut first = FirstPlaces {
            places: BTreeMap::new(alloc),
            repeat: None,
        };
        for place in 0..file.column_count() {
            first.accept(file.column(place), place as u32)?;
        }
        let FirstPlaces { places, repeat } = first;
        match repeat {
            Some(Repeat { first, second }) => Err(BramFault::SameColumns { first, second }),
            None => Ok(Columns { file, places }),
        }
    }

    /// How many columns there are.
    pub(crate) fn count(&self) -> usize
        ensures { result ≡ column_count self.now.file.now }
    {
        self.file.column_count()
    }

    /// The index of a column, if it is one of the file's.
    pub(crate) fn place(&self, column: Column) -> Option<usize>
        ensures found { (bit : ℕ → Bool) → column ≡ packed bit → result ≡ match_of self.now.file.now (column_from bit) }
    {
        match self.places.get(&column) {
            Some(place) => Some(*place as usize),
            None => None,
        }
    }
}

/// Whether the columns of a file are all different, as those of the first file of [`replace`](crate::replace) have to be.
pub fn are_different(alloc: Global, file: &HexFile) -> Result<bool, AllocError>
    ensures { IfOk result (λ different. different ≡ is_none (same_fault file.now)) }
{
    match Columns::of(alloc, file) {
        Ok(_) => Ok(true),
        Err(BramFault::Memory(e)) => Err(e),
        Err(_) => Ok(false),
    }
}
