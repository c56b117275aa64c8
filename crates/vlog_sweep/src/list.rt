// Lists of events.

use vlog_semantics::Event;

/// A list of events, and the heading: the bytes that come before the lines of its run.
#[derive(Drop)]
pub struct EventList {
    pub heading: Vec<u8>,
    pub events: Vec<Event>,
}
