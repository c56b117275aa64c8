//! Pin files: texts that name the ports at the pins of a package (nextpnr's PCF files, as far as they place ports).
//!
//! [`PinReader`] takes the text of a chip database and keeps the pins of one package. With these and the pins of a design that have a port,
//! [`pin_names`] reads a pin file: the names of the ports. [`given_names`] reads the names as they stand in it.
#![tactic(auto)]

mod database;
mod fault;
mod given;
mod line;
mod name_set;
mod package_pins;
mod pin_lines;
mod pin_name;
mod pin_reader;
mod place;
mod place_set;
mod port_name;
mod port_pins;
mod ports;
mod reading;
mod refusal;

pub use fault::{PinFileCause, PinFileFault};
pub use given::{GivenNames, given_names};
pub use package_pins::PackagePins;
pub use pin_name::PinName;
pub use pin_reader::PinReader;
pub use place::{PinPlace, PortPin};
pub use reading::pin_names;
