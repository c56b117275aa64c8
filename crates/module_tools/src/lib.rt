//! The tools that take modules of the Verilog subset: `vlogrun` and `vlogsweep`.
//!
//! Each tool has its command line, its usage line and its answer for what it loads. The function that runs it has one clause: a
//! run does the task that the command line asks for.
#![tactic(auto)]

mod events;
mod faults;
mod listing;
mod request;
mod running;
mod sweep_request;
mod sweeping;
mod told;
mod tracing;

pub use request::{VLOGRUN_HELP, VLOGRUN_USAGE};
pub use running::run_vlogrun;
pub use sweep_request::{VLOGSWEEP_HELP, VLOGSWEEP_USAGE};
pub use sweeping::run_vlogsweep;
pub use told::{EventsForm, SweepForm, Told};
