// The driver of each class of joined nets.
ghost use Rattle.std.specs.Prelude.{◌≡◌, ℕ, ◌<◌, ◌≤◌, List, length, slice_get, get_or, option_and_then, option_to_list, All, IfOk, IfErr, OnOk, None, replicate};
ghost use Rattle.fabric_model.specs.Links.{class_in};
ghost use Rattle.fabric_model.specs.Tiles.{first_of};
ghost use Rattle.fabric_wiring.specs.declared.drive.Drive.{Drive as KeptDrive};
ghost use Rattle.fabric_wiring.specs.Faults.{IsCause};
ghost use Rattle.fabric_wiring.specs.Passed.{ArePassed, and_driver, drivers_in, faults_in, IsDriveIn};

use crate::drive::Drive;
use crate::fault::DriverFault;
use crate::twice::{Twice, lesser};
use fabric_model::{Links, place_of};
use std::alloc::{AllocError, Global};

/// The driver with an index, or `None` if there is no index or no driver with it.
pub(crate) fn driver_at(drives: &[Drive], place: Option<u32>) -> Option<Drive>
    ensures { result ≡ option_and_then (slice_get drives.now) place }
{
    match place {
        None => None,
        Some(place) => drives.get(place as usize).copied(),
    }
}

/// Enters the driver with an index as one of a class of joined nets, after those that are entered before. The class keeps its first
/// driver.
fn enter(
    drives: &[Drive],
    i: usize,
    class: u32,
    places: &mut [Option<u32>],
    twice: Option<Twice>,
) -> Result<Option<Twice>, AllocError>
    requires place { i < length drives.now }
    requires class { class < length places.old }
    ensures { IfOk result (λ later. (given : ℕ → List KeptDrive) → ArePassed drives.now given places.old twice → ArePassed drives.now (and_driver given drives.now i class) places.new later) }
{
    match driver_at(drives, places[class as usize]) {
        None => {
            places[class as usize] = Some(place_of(i)?);
            Ok(twice)
        }
        Some(first) => {
            let found = Twice {
                net: class,
                first: first.driver,
                second: drives[i].driver,
            };
            Ok(lesser(twice, found))
        }
    }
}

/// Enters all drivers, none of which is entered before, and tells the least class of joined nets with two drivers.
fn enter_all(
    links: &Links,
    drives: &[Drive],
    places: &mut [Option<u32>],
) -> Result<Option<Twice>, AllocError>
    requires nets { length places.old ≡ length links.now.classes }
    requires classes { (net : ℕ) → class_in links.now net ≤ net }
    requires within { All (IsDriveIn links.now) drives.now }
    requires none { places.old ≡ replicate (length links.now.classes) None }
    ensures { IfOk result (ArePassed drives.now (drivers_in links.now drives.now) places.new) }
{
    let mut twice = None;
    for (i, drive) in drives.iter().enumerate() {
        let class = links.class_of(drive.net);
        twice = enter(drives, i, class, places, twice)?;
    }
    Ok(twice)
}

/// The index of the driver of each class of joined nets, or the least class with two drivers.
pub(crate) fn places(
    alloc: Global,
    links: &Links,
    drives: &[Drive],
) -> Result<Vec<Option<u32>>, DriverFault>
    requires classes { (net : ℕ) → class_in links.now net ≤ net }
    requires within { All (IsDriveIn links.now) drives.now }
    ensures length { IfOk result (λ places. length places.items ≡ length links.now.classes) }
    ensures each { IfOk result (λ places. (class : ℕ) → class < length links.now.classes → drivers_in links.now drives.now class ≡ option_to_list (option_and_then (slice_get drives.now) (get_or places.items class None))) }
    ensures taken { OnOk result (first_of (faults_in links.now drives.now) ≡ None) }
    ensures refused { IfErr result (IsCause (first_of (faults_in links.now drives.now))) }
{
    let mut places = vec![in alloc; None; links.net_count()]?;
    match enter_all(links, drives, &mut places)? {
        None => Ok(places),
        Some(twice) => Err(DriverFault::TwoDrivers {
            net: twice.net,
            first: twice.first,
            second: twice.second,
        }),
    }
}
