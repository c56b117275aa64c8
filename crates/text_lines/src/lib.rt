//! Lines, words and decimal numbers of a text in bytes.
//!
//! A line ends with LF; the last one may end with the text instead. A CR just before LF belongs to the end, and any other CR is a byte of
//! its line. Spaces separate words, and so do tabs and CRs if the caller asks for it. A number is one to nine decimal digits. A text may
//! come in pieces, and each piece is cut where lines end. Only `LineFeed` takes memory: lines and words are parts of the text itself.
#![tactic(auto)]

mod decimal;
mod feed;
mod lines;
mod pieces;
mod words;

pub use decimal::{number, number_before};
pub use feed::{LineFeed, LineTaker};
pub use lines::{FirstLine, first_lf, first_line, first_line_near, is_blank, trimmed};
pub use pieces::{PieceLines, cut_piece};
pub use words::{
    Separators, four_numbers, one_number, one_word, split_word, three_numbers, two_numbers,
};
