//! Runs a module of the Verilog subset over up to sixty-four lists of events at once, each in a bit-parallel lane.
#![tactic(auto)]

mod beginning;
mod calls;
mod ending;
mod lines;
mod list;
mod strand;
mod sweeping;
mod taking;
mod turns;

pub use list::EventList;
pub use sweeping::{sweep, sweep_last};

// The events of a list.
pub use vlog_semantics::Event;
