//! What the tools share: their command lines, what they read, and the messages for faults in what they read.
//!
//! A tool is a `CommandLine`: its words, its command, and what it does with what was found in the arguments.
//! `run_tool` runs any of them, and has one clause: the run does what the arguments ask for (`outcome` in `specs/Outcomes.antt`). A tool
//! builds its `Command` from the kinds of arguments here, and reads what was found by an argument's name. `specs/Commands.antt` defines
//! what these functions do, on the arguments alone: `command` is the command, `is_taken` is whether the arguments are taken, and
//! `has_flag`, `first_of` and `values_of` are what was found.
//!
//! A tool that takes `--layout FILE` gets its layouts by `layouts_for`. All tools that read a database or an image read it in one way, and
//! report its faults with the same messages.
#![tactic(auto)]

mod commands;
mod database;
mod design_input;
mod faults;
mod image;
mod layouts;
mod refusals;
mod running;

pub use commands::{
    flag, has_flag, long_flag, long_option, parse, positional, required, several, short_option,
    value, values, with,
};
pub use database::{DB_LIMIT, read_database};
pub use design_input::DesignInput;
pub use faults::{asc_refusal, bin_cause, bin_refusal};
pub use image::{IMAGE_LIMIT, read_image};
pub use layouts::layouts_for;
pub use refusals::{of_file, refusal, whole};
pub use running::{CommandLine, Words, run_tool};
