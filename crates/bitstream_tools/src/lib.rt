//! The tools that read and write bitstreams and their texts: `icepack`, `iceunpack`, `icemulti`, `icesplit` and `icebram`.
//!
//! Each tool is one module, with its command line, its usage line and its answer for what it loads. The function that
//! runs it has one clause: a run does the task that the arguments ask for.
#![tactic(auto)]

mod boot_lines;
mod bram;
mod faults;
mod law;
mod multi;
mod pack;
mod packing;
mod random;
mod reading;
mod split;
mod split_faults;
mod stored;
mod unpack;
mod unpacking;

pub use bram::{ICEBRAM_HELP, ICEBRAM_USAGE, run_icebram};
pub use law::stored_images_are_in_order;
pub use multi::{ICEMULTI_HELP, ICEMULTI_USAGE, run_icemulti};
pub use pack::{ICEPACK_HELP, ICEPACK_USAGE, run_icepack};
pub use split::{ICESPLIT_HELP, ICESPLIT_USAGE, run_icesplit};
pub use unpack::{ICEUNPACK_HELP, ICEUNPACK_USAGE, run_iceunpack};
