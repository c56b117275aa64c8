//! The event-driven simulation of a module, in bit-parallel lanes: an event computes only what its change can reach.
//!
//! Each name of one bit and each bit of a register of 16 bits has a cell; a wire that only copies is an alias of the cell that it copies. A
//! cell has a bit for each lane.
#![tactic(auto)]

mod board;
mod building;
mod changes;
mod circuit;
mod clocking;
mod edges;
mod flips;
mod groups;
mod lane_words;
mod marks;
mod memories;
mod moments;
mod outputs;
mod parts;
mod readers;
mod reading;
mod resolved;
mod roots;
mod settling;
mod start;
mod storing;
mod sweep;
mod trigger;
mod value;
mod watching;

pub use board::Board;
pub use value::Value;
