//! Modules whose ports get other names, and the names that a pin file gives to the ports of a design's module.
//!
//! A renaming is a list of old names, each with its new one. It is fresh for a module if the new names are distinct, and none of them is
//! declared in the module or is itself an old name. Then the module with the new names is well-formed, and runs as the module does. The
//! clause of [`renaming_keeps_runs`] is the law about it.
//!
//! [`name_ports`] takes the module that is written for a design, and makes the module whose ports have the names of a pin file. The clause
//! of [`named_module_is_fabric`] is the law about it: the module is well-formed, and its run and the fabric's run hold the same values
//! after the start and after each event.
#![tactic(auto)]

mod law;
mod named_law;
mod naming;
mod pins;
mod ports;
mod renamed;
mod renaming;

pub use law::renaming_keeps_runs;
pub use named_law::named_module_is_fabric;
pub use pins::port_pins;
pub use ports::name_ports;
pub use renamed::rename_ports;
