//! What an image uses of its device, found and counted by the names of a chip database.
//!
//! [`used_parts`] finds it, and [`stat`] writes the counts.
//! `specs/Counts.antt` defines the ten counts and their text, and `specs/Faults.antt` why a database and an image are not counted.
#![tactic(auto)]

mod bits;
mod cells;
mod counting;
mod counts;
mod fault;
mod globals;
mod parts;

pub use counting::stat;
pub use fault::StatFault;
pub use parts::{UsedParts, used_parts};
