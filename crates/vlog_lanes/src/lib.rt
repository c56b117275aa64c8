//! Runs a module of the Verilog subset in sixty-four bit-parallel lanes, each over its own events: a cell is a word with one bit for each
//! lane.
#![tactic(auto)]

mod call;
mod lanes;

pub use call::Call;
pub use lanes::Lanes;
