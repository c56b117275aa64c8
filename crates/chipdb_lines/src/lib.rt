//! Reads single lines of a chip database: what a statement says of the lines below it, and what those lines say.
//!
//! Spaces and tabs separate words. A line that begins with a dot is a statement, and one that begins with `#` is a comment (a remark). Each
//! line is read by itself; the caller finds lines that repeat earlier ones.
#![tactic(auto)]

mod bits;
mod cause;
mod chip;
mod functions;
mod globals;
mod keyword;
mod kinds;
mod links;
mod names;
mod plls;
mod statements;
mod words;

pub use bits::{BitList, BitTable};
pub use cause::{DbCause, DbLineRefusal};
pub use chip::Chip;
pub use functions::{ExtraItem, FunctionItem, extra_item, function_item};
pub use globals::{GlobalInput, GlobalPin, global_input, global_pin};
pub use links::{Choice, ChoiceLine, LinkHead, choice_item, choice_line};
pub use names::{NameItem, name_item};
pub use plane_map::{DeviceName, Place, RowCol, TileKind};
pub use plls::{PllItem, pll_item};
pub use statements::{Below, statement};
pub use words::{is_statement, own_words};
