// The kept pins of a package.
ghost use Rattle.std.specs.Prelude.{◌≡◌, ◌||◌, ℕ, List, None, Some, false, bytes_eq, if◌then◌else◌, OnOk};
ghost use Rattle.index_search.specs.Places.{or_else};

use crate::fault::PinFileCause;
use crate::place::PinPlace;
use indexmap::IndexMap;
use std::alloc::{AllocError, Global};

/// The pins of a package: whether the database lists the package, and the place of each of its pins.
#[derive(Drop)]
pub struct PackagePins {
    known: bool,
    places: IndexMap<Vec<u8>, PinPlace>,
    alloc: Global,
}

impl PackagePins {
    ghost use Rattle.pin_file.specs.Faults.{place_in};
    ghost use Rattle.pin_file.specs.Feeding.{kept_in, place_kept};

    /// A package that isn't listed so far, without pins. It takes no memory yet.
    pub(crate) fn new(alloc: Global) -> PackagePins
        ensures unknown { result.known ≡ false }
        ensures empty { (pin : List ℕ) → place_kept result pin ≡ None }
    {
        PackagePins {
            known: false,
            places: IndexMap::new(alloc),
            alloc,
        }
    }

    /// Whether the database lists the package.
    #[tactic(auto, unfolding(crate::specs::Feeding::kept_in))]
    pub fn is_known(&self) -> bool
        ensures { result ≡ (kept_in self.now).known }
    {
        self.known
    }

    /// The place of a pin of the package, or `None` if the database gives none. If it gives several, the first.
    #[tactic(auto, unfolding(crate::specs::Feeding::kept_in))]
    pub fn place_of(&self, pin: &[u8]) -> Option<PinPlace>
        ensures { result ≡ (kept_in self.now).place_of pin.now }
    {
        self.find(pin)
    }

    /// The kept place of a pin.
    fn find(&self, pin: &[u8]) -> Option<PinPlace>
        ensures { result ≡ place_kept self.now pin.now }
    {
        self.places.get(pin).copied()
    }

    /// The place of a pin, or why there is none.
    pub(crate) fn place_in(&self, pin: &[u8]) -> Result<PinPlace, PinFileCause>
        ensures { result ≡ place_in (kept_in self.now) pin.now }
    {
        if self.is_known() {
            match self.place_of(pin) {
                Some(place) => Ok(place),
                None => Err(PinFileCause::Pin),
            }
        } else {
            Err(PinFileCause::Package)
        }
    }

    /// Marks the package as listed, if `here` is set.
    pub(crate) fn list_if(&mut self, here: bool)
        ensures known { self.new.known ≡ (self.old.known || here) }
        ensures places { (pin : List ℕ) → place_kept self.new pin ≡ place_kept self.old pin }
    {
        self.known = self.known || here;
    }

    /// Sets the place of a pin, if the pin has none yet.
    pub(crate) fn add(&mut self, pin: &[u8], place: PinPlace) -> Result<(), AllocError>
        ensures known { self.new.known ≡ self.old.known }
        ensures places { OnOk result ((other : List ℕ) → place_kept self.new other
            ≡ or_else (place_kept self.old other) (if bytes_eq pin.now other then Some place else None)) }
    {
        if self.find(pin).is_some() {
            return Ok(());
        }
        let pin = Vec::from_slice(self.alloc, pin)?;
        insert(&mut self.places, pin, place)
    }
}

ghost use Rattle.std.specs.Prelude.{◌++◌, ◌∷◌, []};
ghost use Rattle.std.specs.Map.{lookup};

/// Sets the place of a pin that has none.
fn insert(
    places: &mut IndexMap<Vec<u8>, PinPlace>,
    pin: Vec<u8>,
    place: PinPlace,
) -> Result<(), AllocError>
    requires { lookup (λ key. bytes_eq pin.items key.items) places.old.entries ≡ None }
    ensures { OnOk result (places.new.entries ≡ places.old.entries ++ (pin, place) ∷ []) }
{
    match places.insert(pin, place) {
        Ok(_) => Ok(()),
        Err(e) => Err(AllocError::from(e)),
    }
}
