// The drivers of a fabric.
ghost use Rattle.std.specs.Prelude.{◌≡◌, ◌<◌, length, is_some};
ghost use Rattle.fabric_wiring.specs.DriverLists.{driver_in};

use crate::drive::Drive;
use crate::places::driver_at;
use std::marker::Model;

/// The drivers of a fabric in which no class of joined nets has two.
///
/// Contracts see the drivers in their order, and for each class the index of its driver. `AreDriversOf` says that these are the drivers of
/// a fabric. No call allocates memory.
#[derive(Drop)]
pub struct Drivers {
    pub(crate) drives: Vec<Drive>,
    pub(crate) places: Vec<Option<u32>>,
}

impl Model for Drivers {
    ghost use Rattle.fabric_wiring.specs.DriverLists.{DriverSet};

    ghost Value = { DriverSet };

    ghost view = { λ drivers. record { drives = drivers.drives.items; places = drivers.places.items } };
}

impl Drivers {
    /// The number of nets. A class of joined nets is named by its least net, so classes have numbers below this one.
    pub fn len(&self) -> usize
        ensures { result ≡ length self.now.places }
    {
        self.places.len()
    }

    /// The driver of a class of joined nets, or `None` if it has none.
    pub fn of_class(&self, class: u32) -> Option<Drive>
        requires { class < length self.now.places }
        ensures { result ≡ driver_in self.now class }
    {
        driver_at(&self.drives, self.places[class as usize])
    }

    /// Whether a class of joined nets has a driver.
    pub fn is_driven(&self, class: u32) -> bool
        ensures { result ≡ is_some (driver_in self.now class) }
    {
        match self.places.get(class as usize) {
            None => false,
            Some(place) => driver_at(&self.drives, *place).is_some(),
        }
    }
}
