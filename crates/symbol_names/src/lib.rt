//! The names that a router gave to the nets of a design, as names for the wires of its module.
//!
//! [`symbol_names`] takes the symbols of a text, and gives the names of a list for the module that is written for the design.
#![tactic(auto)]

mod naming;

pub use naming::symbol_names;
