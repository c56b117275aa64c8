// What the tools tell of runs, and how lists of events are written.

use long_runs::{LineForm, Shown};

/// What a run of `vlogrun` tells.
#[derive(Clone, Copy, Debug, PartialEq, Eq)]
pub enum Told {
    /// Lines: the outputs, and the registers too if they are asked for.
    Lines(LineForm),
    /// The waves: a VCD (value change dump), which has what each event changed.
    Waves,
}

/// How a list of events is written.
#[derive(Clone, Copy, Debug, PartialEq, Eq)]
pub enum EventsForm {
    /// Each line is an event.
    Plain,
    /// An input may get the other bit many times in a line, and lines may be repeated.
    Long,
}

/// How the lists of events of `vlogsweep` are written, and which lines of their runs are shown.
#[derive(Clone, Copy, Debug, PartialEq, Eq)]
pub struct SweepForm {
    pub events: EventsForm,
    pub shown: Shown,
}
