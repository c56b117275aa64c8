// Finds the drivers of a fabric.
ghost use Rattle.std.specs.Prelude.{◌≡◌, IfOk, IfErr, OnOk, None};
ghost use Rattle.fabric_model.specs.Fabric.{Fabric};
ghost use Rattle.fabric_model.specs.Tiles.{first_of};
ghost use Rattle.fabric_model.specs.Faults.{driver_faults};
ghost use Rattle.fabric_wiring.specs.Parts.{ArePartsOf};
ghost use Rattle.fabric_wiring.specs.DriverLists.{AreDriversOf};
ghost use Rattle.fabric_wiring.specs.Faults.{IsCause};

use crate::drivers_type::Drivers;
use crate::every_driver::all_drives;
use crate::fault::DriverFault;
use crate::parts::Parts;
use crate::places::places;
use std::alloc::Global;

/// Finds the drivers of a fabric from its parts.
///
/// # Errors
/// `TwoDrivers` if a class of joined nets has two drivers or more: it tells the least such class, with its first two drivers. `Memory` if
/// memory is out.
pub fn drivers(alloc: Global, parts: &Parts) -> Result<Drivers, DriverFault>
    ghost fabric: { Fabric }
    requires parts { ArePartsOf fabric parts.now }
    ensures drivers { IfOk result (AreDriversOf fabric) }
    ensures taken { OnOk result (first_of (driver_faults fabric) ≡ None) }
    ensures refused { IfErr result (IsCause (first_of (driver_faults fabric))) }
{
    let drives = all_drives(alloc, parts)?;
    let places = places(alloc, &parts.links, &drives)?;
    Ok(Drivers { drives, places })
}
