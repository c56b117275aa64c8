//! The lexer of the Verilog subset. Its tokens are names, reserved words, signs, bits, words of 16 bits and short decimal numbers.
//!
//! The lexer always takes the longest token. White space (space, tab, CR, LF) separates tokens and means nothing else. A byte at which no
//! token begins is a stray token, which no form takes. Nothing here allocates: the text of a name is a part of the input.
#![tactic(auto)]

mod bytes;
mod fixed;
mod token;

pub use fixed::{Fixed, fixed_word};
pub use token::{Spot, Token, next_token};
