// Ports with their pins.

use crate::place::PinPlace;
use vlog_module::Name;

/// The name of the port at a pin.
#[derive(Drop)]
pub struct PinName {
    pub place: PinPlace,
    pub name: Name,
}
