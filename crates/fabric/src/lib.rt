//! The design of a database and an image: the configured fabric, with the driver of each class of joined nets, the order in which the
//! classes are written, and where the clocks come from. The order is a topological one of the combinational logic. If registers may be clocks,
//! each class also comes after the registers that are clocks of what its value is computed from.
//!
//! [`design`] finds it, or the first cause why the two aren't taken. [`design_with`] does the same with options: which inputs LUTs read,
//! whether pins of every kind are taken, and whether registers may be clocks. The calls of [`Design`] allocate no memory.
#![tactic(auto)]

mod cycle;
mod design_type;
mod fault;
mod from_database;
mod order;
mod parts;
mod wire;
mod words;

pub use cycle::Cycle;
pub use design_type::{Design, LinkEnds};
pub use fault::FabricFault;
pub use from_database::{design, design_with};
