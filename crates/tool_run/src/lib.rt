//! What every tool does in the same way: it loads what it needs, in order and within limits, makes its answer, delivers
//! that to a file or to standard output, and tells a failure in one line on standard error.
//!
//! A `Tool` makes its answer of all that it loaded. A `PieceTool` takes its needs in pieces, under a layout file if one is named, and may make a
//! file beside its target. Either may make the bytes for the target while they are written; it refuses before the first byte goes out.
//!
//! `Task` (in `specs/Tasks.antt`) says what a command line asks for, and `outcome_of` what comes of it if nothing fails
//! from outside. `Does` (in `specs/Runs.antt`) says what a run of a task does to files and streams, by its status, whether or not
//! these tell what they hold. Each function here that answers a status has it as its one clause.
#![tactic(auto)]

mod answering;
mod at_once;
mod collected;
mod delivery;
mod help;
mod host;
mod keeper;
mod line;
mod load;
mod loaded;
mod performing;
mod piece_tool;
mod product;
mod tool;
mod tool_taker;

pub use at_once::AtOnce;
pub use collected::Collected;
pub use help::asks_for_help;
pub use host::{FilesAndStreams, Host};
pub use line::{Number, Phrase, Refusal, decimal, text};
pub use load::Load;
pub use loaded::loaded_at;
pub use performing::Job;
pub use piece_tool::PieceTool;
pub use product::{Product, WithFile};
pub use tool::{Stop, Tool};
