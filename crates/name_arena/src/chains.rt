// A hash table of names: each bucket is a chain of the places of its names.
ghost use Rattle.std.specs.Prelude.{◌≡◌, ◌≢◌, ℕ, ◌+◌, ◌-◌, ◌^◌, ◌<◌, ◌≤◌, List, [], ◌++◌, ◌∷◌, length, get_or, vec_capacity, vec_len, MatchOption, IfOk, OnErr, OnOk};
ghost use Rattle.std.specs.Bool.{OnFalse};
ghost use Rattle.name_arena.specs.Buckets.{bucket_of, named, number_of, HasAt, IsChained, IsLast, Lacks};

use crate::arena::NameArena;
use std::alloc::{AllocError, Global};
use std::hash::{FoldHasher, Hasher};

/// Stands for 'no place'.
const NONE: u32 = u32::MAX;

/// How many buckets there are at first.
const FEWEST: usize = 1024;

/// How many buckets there are at most.
const MOST: usize = 0x8000_0000;

/// The places of names, sorted into buckets by the hash of their bytes.
#[derive(Drop)]
pub(crate) struct Chains {
    /// For each bucket the last place in it.
    last: Vec<u32>,
    /// For each place the one before it in the same bucket.
    before: Vec<u32>,
}

impl Chains {
    /// No places and no buckets. It takes no memory yet.
    pub(crate) fn new(alloc: Global) -> Chains
        ensures chained { (names : List (List ℕ)) → IsChained names result }
        ensures none { length result.before.items ≡ 0 }
    {
        Chains {
            last: Vec::new(alloc),
            before: Vec::new(alloc),
        }
    }

    /// The places of all names, in more buckets than there are names, up to `MOST` buckets.
    pub(crate) fn of(alloc: Global, names: &NameArena) -> Result<Chains, AllocError>
        requires { length names.now < 2 ^ 32 - 1 }
        ensures chained { IfOk result (IsChained names.now) }
        ensures whole { IfOk result (λ chains. length chains.before.items ≡ length names.now) }
        ensures buckets { IfOk result (λ chains. 0 < length chains.last.items) }
    {
        let mut chains = Chains::with_buckets(alloc, buckets_for(names.len()))?;
        let mut place = 0;
        while place < names.len() {
            chains.reserve()?;
            chains.push(names.name(place));
            place += 1;
        }
        Ok(chains)
    }

    /// `count` empty buckets.
    fn with_buckets(alloc: Global, count: usize) -> Result<Chains, AllocError>
        requires { count < 2 ^ 32 }
        ensures chained { IfOk result (λ chains. (names : List (List ℕ)) → IsChained names chains) }
        ensures none { IfOk result (λ chains. length chains.before.items ≡ 0) }
        ensures buckets { IfOk result (λ chains. length chains.last.items ≡ count) }
    {
        let mut last = Vec::new(alloc);
        last.resize(count, NONE)?;
        Ok(Chains {
            last,
            before: Vec::new(alloc),
        })
    }

    /// Whether there are as many places as buckets, so that more buckets are needed.
    pub(crate) fn is_full(&self) -> bool
        ensures { OnFalse result (0 < length self.now.last.items) }
    {
        self.last.len() <= self.before.len() && self.last.len() < MOST
    }

    /// If there are as many places as buckets, puts the places of all names into more buckets.
    pub(crate) fn widen(&mut self, alloc: Global, names: &NameArena) -> Result<(), AllocError>
        requires few { length names.now < 2 ^ 32 - 1 }
        requires chained { IsChained names.now self.old }
        requires whole { length self.old.before.items ≡ length names.now }
        requires buckets { 0 < length names.now → 0 < length self.old.last.items }
        ensures chained { IsChained names.now self.new }
        ensures whole { length self.new.before.items ≡ length names.now }
        ensures buckets { 0 < length names.now → 0 < length self.new.last.items }
        ensures some { OnOk result (0 < length self.new.last.items) }
    {
        if !self.is_full() {
            return Ok(());
        }
        match Chains::of(alloc, names) {
            Err(e) => Err(e),
            Ok(chains) => {
                *self = chains;
                Ok(())
            }
        }
    }

    /// Makes room for one more place.
    pub(crate) fn reserve(&mut self) -> Result<(), AllocError>
        ensures same { (self.new.last ≡ self.old.last) × (self.new.before.items ≡ self.old.before.items) }
        ensures room { OnOk result (vec_len self.new.before < vec_capacity self.new.before) }
    {
        self.before.reserve(1)
    }

    /// Puts the next place into the bucket of `name`.
    pub(crate) fn push(&mut self, name: &[u8])
        requires buckets { 0 < length self.old.last.items }
        requires few { length self.old.before.items < 2 ^ 32 - 1 }
        requires room { vec_len self.old.before < vec_capacity self.old.before }
        ensures chained { (names : List (List ℕ)) → length self.old.before.items < length names → named names (length self.old.before.items) ≡ name.now
            → IsChained names self.old → IsChained names self.new }
        ensures counted { length self.new.before.items ≡ length self.old.before.items + 1 }
        ensures buckets { length self.new.last.items ≡ length self.old.last.items }
    {
        let place = self.before.len() as u32;
        let bucket = bucket_of(self.last.len(), name);
        let before = put_last(&mut self.last, bucket, place);
        self.before.push_reserved(before);
    }

    /// A place with that name, or `None` if no place has it.
    pub(crate) fn find(&self, names: &NameArena, name: &[u8]) -> Option<u32>
        requires chained { IsChained names.now self.now }
        requires whole { length self.now.before.items ≡ length names.now }
        requires buckets { 0 < length names.now → 0 < length self.now.last.items }
        ensures { MatchOption result (Lacks names.now name.now) (HasAt names.now name.now) }
    {
        if self.last.is_empty() {
            None
        } else {
            let bucket = bucket_of(self.last.len(), name);
            find_from(names, &self.before, self.last[bucket], name)
        }
    }
}

/// How many buckets there are for twice `names` names: a power of two.
fn buckets_for(names: usize) -> usize
    ensures { (0 < result) × (result < 2 ^ 32) }
{
    let mut count = FEWEST;
    while count < MOST && count / 2 < names {
        count *= 2;
    }
    count
}

/// Makes a place the last of a bucket, and returns the one that was the last before.
fn put_last(last: &mut Vec<u32>, bucket: usize, place: u32) -> u32
    requires { bucket < length last.old.items }
    ensures before { result ≡ get_or last.old.items bucket 0 }
    ensures here { get_or last.new.items bucket 0 ≡ place }
    ensures others { (b : ℕ) → b ≢ bucket → get_or last.new.items b 0 ≡ get_or last.old.items b 0 }
    ensures length { length last.new.items ≡ length last.old.items }
{
    let before = last[bucket];
    last[bucket] = place;
    before
}

/// A place with that name, searched from the last one of its bucket on.
fn find_from(names: &NameArena, before: &[u32], last: u32, name: &[u8]) -> Option<u32>
    requires whole { length before.now ≡ length names.now }
    requires chained { (count : ℕ) × IsLast names.now count (bucket_of count name.now) (length names.now) last
        × ((k : ℕ) → k < length names.now → IsLast names.now count (bucket_of count (named names.now k)) k (get_or before.now k 0)) }
    ensures { MatchOption result (Lacks names.now name.now) (HasAt names.now name.now) }
{
    let mut after = names.len();
    let mut place = last;
    while (place as usize) < after {
        if names.name(place as usize) == name {
            return Some(place);
        }
        after = place as usize;
        place = before[after];
    }
    None
}

/// The bucket of a name among `count` buckets.
#[tactic(auto, unfolding(crate::specs::Buckets::bucket_of))]
fn bucket_of(count: usize, name: &[u8]) -> usize
    requires { 0 < count }
    ensures is { result ≡ bucket_of count name.now }
    ensures inside { result < count }
{
    number_of(name) as usize & (count - 1)
}

/// The hash of a name.
#[tactic(auto, unfolding(crate::specs::Buckets::number_of))]
fn number_of(name: &[u8]) -> u64
    ensures { result ≡ number_of name.now }
{
    let mut hasher = FoldHasher::default();
    hasher.write(name);
    hasher.finish()
}
