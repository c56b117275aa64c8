// The pins that have a port, by their places.
ghost use Rattle.std.specs.Prelude.{◌≡◌, None, Some, if◌then◌else◌, IfOk, OnOk};
ghost use Rattle.index_search.specs.Places.{or_else};
ghost use Rattle.pin_file.specs.PortNames.{is_place, pin_at};
ghost use Rattle.pin_file.specs.declared.place.PinPlace.{PinPlace as Place};

use crate::place::{PinPlace, PortPin};
use indexmap::IndexMap;
use std::alloc::{AllocError, Global};

/// Pins that have a port, for searches by place.
#[derive(Drop)]
pub(crate) struct PortPins {
    pins: IndexMap<PinPlace, PortPin>,
}

impl PortPins {
    ghost use Rattle.pin_file.specs.inside.Reading.{pin_kept};

    /// No pins. It takes no memory yet.
    fn new(alloc: Global) -> PortPins
        ensures { (place : Place) → pin_kept result place ≡ None }
    {
        PortPins {
            pins: IndexMap::new(alloc),
        }
    }

    /// These pins. If two are at the same place, the first one counts.
    pub(crate) fn of(alloc: Global, pins: &[PortPin]) -> Result<PortPins, AllocError>
        ensures { IfOk result (λ kept. (place : Place) → pin_kept kept place ≡ pin_at pins.now place) }
    {
        let mut kept = PortPins::new(alloc);
        for pin in pins {
            kept.add(*pin)?;
        }
        Ok(kept)
    }

    /// The pin at a place, if it has a port.
    pub(crate) fn at(&self, place: PinPlace) -> Option<PortPin>
        ensures { result ≡ pin_kept self.now place }
    {
        self.pins.get(&place).copied()
    }

    /// Adds a pin, if there is none at its place yet.
    fn add(&mut self, pin: PortPin) -> Result<(), AllocError>
        ensures { OnOk result ((place : Place) → pin_kept self.new place
            ≡ or_else (pin_kept self.old place) (if is_place place pin.place then Some pin else None)) }
    {
        if self.at(pin.place).is_some() {
            return Ok(());
        }
        insert(&mut self.pins, pin)
    }
}

ghost use Rattle.std.specs.Prelude.{◌++◌, ◌∷◌, []};
ghost use Rattle.std.specs.Map.{lookup};

/// Adds a pin whose place has none.
fn insert(pins: &mut IndexMap<PinPlace, PortPin>, pin: PortPin) -> Result<(), AllocError>
    requires { lookup (is_place pin.place) pins.old.entries ≡ None }
    ensures { OnOk result (pins.new.entries ≡ pins.old.entries ++ (pin.place, pin) ∷ []) }
{
    match pins.insert(pin.place, pin) {
        Ok(_) => Ok(()),
        Err(e) => Err(AllocError::from(e)),
    }
}
