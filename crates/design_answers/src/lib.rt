//! What the tools share that take the design of a chip database and an image: the messages for a design that isn't taken, the write
//! order (a topological order of the combinational logic) as a function, the run of a fabric as lines, and the texts that are taken if a pin file
//! comes before the database and the image.
#![tactic(auto)]

mod faults;
mod named_intake;
mod pins;

pub use faults::design_stop;
pub use named_intake::NamedIntake;
pub use pins::{PINS_LIMIT, PinRequest, package_pins, pin_stop, pins_wanted};
