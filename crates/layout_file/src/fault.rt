// What can be wrong with a layout file.

/// Why a line of a layout file is refused. If a line has several causes, the first in this list is reported.
#[derive(Clone, Copy, Debug, PartialEq, Eq)]
pub enum LayoutCause {
    /// It isn't a line of a layout file: its first word is unknown, it has the wrong number of words, a word isn't a decimal number, or a
    /// word isn't `yes` or `no`. Or it comes before the first `.layout`.
    Statement = 1,
    /// A section of a device that isn't `384`, `1k` or `8k`.
    Device = 2,
    /// A second section of a device, or a second line of one field in a section.
    Repeated = 3,
    /// A column of tiles is too narrow, or a plane has no room for all of them.
    Width = 4,
    /// `sidecols`, `iorows` or `banks` isn't a permutation, or `iocols` has a number twice or one above 41.
    Place = 5,
}

/// The first faulty line of a layout file.
#[derive(Clone, Copy, Debug, PartialEq, Eq)]
pub struct LayoutFault {
    /// The number of the line, counted from 1.
    pub line: u64,
    pub cause: LayoutCause,
}
