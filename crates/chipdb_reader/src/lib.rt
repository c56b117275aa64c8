//! Chip databases: texts that say which bits the functions of a device have, and how its nets are linked.
//!
//! The text has lines. A line that begins with a dot is a statement, and the lines after it belong to it. [`read`] makes a [`ChipDb`] of
//! the text, or returns its first faulty line; [`DbReader`] takes the text in pieces. The look-ups of a `ChipDb` take no memory.
#![tactic(auto)]

mod buffers;
mod chip_db;
mod fault;
mod items;
mod line_reader;
mod lookups;
mod name_index;
mod nets;
mod plls;
mod reader;
mod reading;
mod source;
mod texts;

pub use chip_db::ChipDb;
pub use chipdb_lines::{BitList, DbCause};
pub use fault::DbFault;
pub use items::{Extra, Function, LinkLine, NetName, PinXy, PllCell, PllLine, TileXy8};
pub use name_arena::NameId;
pub use plane_map::{DeviceName, Place, RowCol, TileKind};
pub use reader::{DbReader, read};
pub use source::{SourceDbFault, read_file, read_from};
