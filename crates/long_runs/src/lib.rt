//! The lines of a run that are shown: all of them, those that differ from the line before, or the last one. They are made while they are
//! written.
#![tactic(auto)]

mod fault;
mod form;
mod head;
mod lines;
mod printer;
mod seen;
mod sending;
mod texts;

pub use fault::LinesFault;
pub use form::{LineForm, Shown};
pub use lines::RunLines;
pub use texts::push_shown;

// The events of a run.
pub use long_events::EventStream;
