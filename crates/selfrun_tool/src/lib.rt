//! The tool that tries itself: `selfrun`.
//!
//! It makes a chip database, an image and events from a number, takes them through all other parts, and writes ten lines with what it
//! counted. The function that runs it has two clauses: the arguments have exactly one answer, and a run gives that answer.
#![tactic(auto)]

mod counting;
mod counts;
mod events;
mod request;
mod running;

pub use request::{SELFRUN_HELP, SELFRUN_USAGE};
pub use running::run_selfrun;
