// The first of several texts that come in pieces.

/// A reader of the first text. Later texts are skipped.
#[derive(Drop)]
pub(crate) struct First<R: Drop> {
    pub(crate) reader: R,
    /// Whether the text that comes is the first.
    pub(crate) is_open: bool,
}
