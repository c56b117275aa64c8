//! Lists of events of the long form: an input may get the other bit many times in a line, and lines may be repeated. The list of events that
//! such a text stands for is never made: its events are given one after another.
#![tactic(auto)]

mod counting;
mod cursor;
mod fault;
mod law;
mod lines;
mod moves;
mod reading;
mod step;
mod stream;

pub use fault::LongFault;
pub use law::long_form_extends_plain;
pub use moves::Move;
pub use reading::read_long_events;
pub use step::Step;
pub use stream::EventStream;

// The events of a list.
pub use vlog_semantics::Event;
