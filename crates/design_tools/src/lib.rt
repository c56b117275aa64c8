//! The tool that writes the design of a chip database and an image as a module: `icebox_vlog`.
//!
//! The tool has its command line, its usage line and its answer for what it loads. The function that runs it has two clauses: a run
//! does the task that the command line asks for, and what it writes spells the fabric of the database and the image.
#![tactic(auto)]

mod name;
mod naming;
mod request;
mod source;
mod writing;

pub use request::{ICEBOX_VLOG_HELP, ICEBOX_VLOG_USAGE};
pub use writing::run_icebox_vlog;
