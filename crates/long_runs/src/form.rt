// Which lines of a run are shown, and what they have.

/// Which lines of a run are shown.
#[derive(Clone, Copy, Debug, PartialEq, Eq)]
pub enum Shown {
    All,
    /// Those that differ from the line before, which is that of one event earlier. The number of the event and a space come before each, and
    /// the line of the start has the number 0.
    Changes,
    /// The last one alone.
    Last,
}

/// Which lines of a run are shown, and what they have.
#[derive(Clone, Copy, Debug, PartialEq, Eq)]
pub struct LineForm {
    pub shown: Shown,
    /// Whether the registers come after the outputs.
    pub registers: bool,
    /// Whether a line with the names comes first.
    pub head: bool,
}
