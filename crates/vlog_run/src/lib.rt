//! Runs modules of the Verilog subset over lists of events, as an event-driven simulation.
#![tactic(auto)]

mod event;
mod event_lines;
mod runner;
mod text;

pub use event::EventFault;
pub use event_lines::{event_of, read_events};
pub use runner::Runner;
pub use text::{bit_digit, push_byte, push_line, run_text};

// The events of a run and of a list.
pub use vlog_semantics::Event;
