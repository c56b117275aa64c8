//! The PLLs that an image sets: their types, the pins and nets of their outputs, and why PLLs aren't taken.
//!
//! A PLL isn't computed: each output that the fabric reads is an input port of the module. What a PLL is set to is told by the lines of the
//! chip database below `.extra_cell X Y PLL`.
#![tactic(auto)]

mod fault;
mod gather;
mod lines;
mod outputs;
mod refused;
mod sources;
mod tile;
mod types;
mod unnamed;

pub use fault::PllFault;
pub use gather::plls;
