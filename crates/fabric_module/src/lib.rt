//! The Verilog module that is written for a configured fabric, the names in it, and when the two hold the same values.
//!
//! The definitions are in specs/. The clause of [`module_is_fabric`] is the law about them: the module is well-formed, and its run and
//! the fabric's run hold the same values after the start and after each event.
#![tactic(auto)]

mod law;
mod names;

pub use law::module_is_fabric;
pub use names::{
    enable_name, input_port_name, memory_name, port_name, read_name, register_name, wire_name,
};
