//! The floor plan of a configuration: what an image uses of its device, by a chip database, and where it stands.
//!
//! [`floor_plan`] finds what `image_stat` counts, and gives each used logic cell, each tile of a used RAM and each pin that is a port a mark in its
//! tile. `specs/Plans.antt` defines the plan, and `specs/Laws.antt` says what can be read off it, for all databases and images.
#![tactic(auto)]

mod by_tile;
mod globals;
mod law;
mod links;
mod marks;
mod plans;
mod plls;
mod tiles;

pub use law::{
    links_are_counted, marks_are_counted, parts_stand_once, tiles_are_those_of_the_device,
};
pub use plans::floor_plan;
