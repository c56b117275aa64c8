// One more driver.
ghost use Rattle.std.specs.Prelude.{◌≡◌, ◌++◌, map, OnOk};
ghost use Rattle.fabric_model.specs.Drivers.{drives_if};
ghost use Rattle.fabric_wiring.specs.Drives.{drive_of, rule_of};

use crate::drive::{Drive, Rule};
use fabric_model::Driver;
use std::alloc::AllocError;

/// Appends a driver of a net, if there is the net.
pub(crate) fn push_if(
    drives: &mut Vec<Drive>,
    driver: Driver,
    rule: Rule,
    net: Option<u32>,
) -> Result<(), AllocError>
    ensures { OnOk result (map drive_of drives.new.items ≡ map drive_of drives.old.items ++ drives_if driver (rule_of rule) net) }
{
    match net {
        None => Ok(()),
        Some(net) => {
            drives.push(Drive { driver, net, rule })?;
            Ok(())
        }
    }
}
