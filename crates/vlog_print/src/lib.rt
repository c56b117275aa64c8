//! Prints modules of the Verilog subset.
#![tactic(auto)]

mod bytes;
mod lines;
mod slots;
mod values;

pub use lines::print;
