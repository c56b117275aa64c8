// What a line of a list of events says.

use vlog_semantics::Event;

/// What a line of a list of events says.
#[derive(Clone, Copy, Debug, PartialEq, Eq)]
pub enum Step {
    /// An input gets a bit.
    Give(Event),
    /// The input of this index gets the other bit, so many times.
    Toggle { pin: usize, count: u32 },
    /// The lines up to the `end` of this line come so many times.
    Repeat { count: u32 },
    End,
}
