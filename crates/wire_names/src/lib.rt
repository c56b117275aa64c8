//! Lists of names for the wires of a module of the Verilog subset, as a router gives them: a line for each wire, with the wire and its name.
//!
//! [`read_names`] reads a list for a module, or tells its first faulty line. [`Naming`] makes one: of wires with wanted names it keeps those
//! that a list can have, so a list that it makes has no fault. The clause of [`free_names_have_no_fault`] is the law about it.
#![tactic(auto)]

mod fault;
mod law;
mod line;
mod naming;
mod reading;
mod wire_names;

pub use fault::{WireNamesCause, WireNamesFault};
pub use law::free_names_have_no_fault;
pub use naming::Naming;
pub use reading::read_names;
pub use wire_names::WireNames;
