//! What the causes in messages mean, and what to do about them: the texts of docs/FORMATS.md.
#![tactic(auto)]

mod about;
mod causes;
mod texts;

pub use causes::explained;
pub use texts::WORDS;
