//! What the bits of a configuration mean, by the names of a chip database.
//!
//! [`active`] lists what the bits of one tile mean; [`explain`] writes this as text, for all tiles or for one. [`Explainer`] and
//! [`extra_names`] give the lines of that text one by one.
#![tactic(auto)]

mod cells;
mod explainer;
mod explaining;
mod extras;
mod fault;
mod functions;
mod item;
mod keys;
mod known;
mod lines;
mod links;
mod names;
mod places;
mod tile;
mod unknown;

pub use asc_text::TileXy;
pub use explainer::Explainer;
pub use explaining::explain;
pub use extras::extra_names;
pub use fault::ExplainFault;
pub use item::Active;
pub use tile::active;
