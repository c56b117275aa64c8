//! Replacing the contents of RAMs in a text.
//!
//! A design is made with known contents of its RAMs, and other contents are put into the finished text later. Both are
//! given as files of hexadecimal words. A RAM of the text may hold any bits of any block of 256 words, so each bit of its
//! words is a column of 256 bits that is looked up among the columns of the first file. If read modes are followed, the
//! words are the words of the memory that a RAM holds in its mode, which may have several blocks.
//!
//! [`ram_columns_are_its_words`] is the law that the columns of a RAM and its words are the same bits in two orders.
#![tactic(auto)]

mod columns;
mod fault;
mod hex_file;
mod hex_words;
mod law;
mod modes;
mod order;
mod ram;
mod replacing;

pub use columns::are_different;
pub use fault::{BramFault, HexFault};
pub use hex_file::HexFile;
pub use law::ram_columns_are_its_words;
pub use modes::ReadModes;
pub use replacing::{Replaced, replace, replace_with};
