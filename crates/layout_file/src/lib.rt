//! Layout files: texts that say where the bits of tiles lie in the planes of the devices.
#![tactic(auto)]

mod conditions;
mod fault;
mod field;
mod layouts;
mod line;
mod narrow;
mod number_list;
mod reader;
mod section;

pub use fault::{LayoutCause, LayoutFault};
pub use field::{Flag, Numbers};
pub use layouts::Layouts;
