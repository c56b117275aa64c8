//! Reads items of the Verilog subset, form by form.
//!
//! A reading begins at an offset of the text. It returns the offset after what it read, or the offset of the token that doesn't fit. The
//! values of a form are kept with the offsets of their first tokens, and [`item_of`] makes the item of a form and its values.
#![tactic(auto)]

mod atom;
mod forms;
mod found;
mod items;
mod slots;
mod stop;
mod token;
mod values;

pub use forms::{Whole, all_forms, port_forms, read_forms};
pub use found::{Found, push_found};
pub use items::item_of;
pub use slots::read_slots;
pub use stop::ReadStop;
pub use token::{expect_token, is_fixed};
pub use values::{bit_at, index_at, name_at, text_at, text_of};
