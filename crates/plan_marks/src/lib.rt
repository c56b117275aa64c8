//! Floor plans of configurations, as data.
//!
//! A [`FloorPlan`] says what stands where on a device: each used logic cell, each used RAM and each pin that is a port has a [`Mark`] in its tile.
//! Marks have classes, which are letters, and can be counted by them.
#![tactic(auto)]

mod marks;
mod plan;

pub use marks::{all_cells, all_pins, all_rams, cell_class, count_of, pin_class};
pub use plan::{
    CellPart, FloorPlan, GlobalMark, GlobalSource, Mark, Part, PinPart, PlanTile, PllMark, RamPart,
};
