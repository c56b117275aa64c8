//! Names: byte strings that are added one after the other and known by their places. They are kept in an arena, or in a table that also
//! finds a name by its bytes.
#![tactic(auto)]

mod arena;
mod block;
mod chains;
mod chunk;
mod chunks;
mod table;

pub use arena::{NameArena, NameId};
pub use table::NameTable;
