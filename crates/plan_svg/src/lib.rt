//! Pictures of floor plans, as SVG.
//!
//! [`plan_svg`] draws what stands where on a device. `specs/Svg.antt` defines the picture, and `specs/Laws.antt` says what can be read off it, for
//! all plans and names.
#![tactic(auto)]

mod hover;
mod law;
mod legend;
mod literals;
mod margins;
mod names;
mod pieces;
mod sheet;
mod sources;
mod svg;
mod tiles;

pub use law::{
    marks_are_placed, names_are_said, picture_draws_the_plan, places_are_as_on_the_chip,
};
pub use svg::plan_svg;
