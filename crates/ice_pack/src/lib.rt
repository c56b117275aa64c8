//! Packing and unpacking: from texts (`.asc`) to the bitstreams (`.bin`) that a device loads, and back.
#![tactic(auto)]

mod packing;
mod unpacking;

pub use packing::{pack, pack_fed, pack_with};
pub use unpacking::{unpack, unpack_fed, unpack_with};
