//! Random words for a memory, to be the file FROM of `icebram`.
//!
//! [`random_words`] writes them as a text. The columns of such a file must be all different, so a text in which two are equal isn't given:
//! another one is drawn. Equal sizes and equal seeds always give equal texts.
#![tactic(auto)]

mod drawing;
mod fault;
mod law;
mod size;
mod taken;

pub use fault::DrawFault;
pub use law::draws_are_memory_words;
pub use size::MemorySize;
pub use taken::random_words;
