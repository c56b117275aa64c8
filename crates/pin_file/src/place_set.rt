// Sets of places.
ghost use Rattle.std.specs.Prelude.{◌≡◌, ◌||◌, [], not, IfOk, OnOk};
ghost use Rattle.pin_file.specs.PortNames.{has_place, is_place};
ghost use Rattle.pin_file.specs.declared.place.PinPlace.{PinPlace as Place};

use crate::place::PinPlace;
use indexmap::IndexSet;
use std::alloc::{AllocError, Global};
use std::marker::Model;

/// Places, each once.
#[derive(Drop)]
pub(crate) struct PlaceSet {
    places: IndexSet<PinPlace>,
}

impl Model for PlaceSet {
    ghost use Rattle.std.specs.Prelude.{List};
    ghost use Rattle.pin_file.specs.declared.place.PinPlace.{PinPlace};

    ghost Value = { List PinPlace };

    ghost view = { λ set. set.places.keys };
}

impl PlaceSet {
    /// A set without places. It takes no memory yet.
    pub(crate) fn new(alloc: Global) -> PlaceSet
        ensures { result ≡ [] }
    {
        PlaceSet {
            places: IndexSet::new(alloc),
        }
    }

    /// Adds a place. The result says whether it wasn't in the set yet.
    pub(crate) fn insert(&mut self, place: PinPlace) -> Result<bool, AllocError>
        ensures added { IfOk result (λ added. added ≡ not (has_place place self.old)) }
        ensures places { OnOk result ((other : Place) → has_place other self.new ≡ (has_place other self.old || is_place other place)) }
    {
        let added = self.places.insert(place)?;
        Ok(added)
    }
}
