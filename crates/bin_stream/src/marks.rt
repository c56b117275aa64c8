// The bytes that mark the parts of a bitstream.

/// The preamble: the commands follow it.
pub(crate) const PREAMBLE: [u8; 4] = [0x7E, 0xAA, 0x99, 0x7E];

/// If a bitstream begins with these, it has a comment.
pub(crate) const COMMENT_START: [u8; 2] = [0xFF, 0];

/// These follow the lines of a comment.
pub(crate) const COMMENT_END: [u8; 2] = [0, 0xFF];

/// These follow data.
pub(crate) const DATA_END: [u8; 2] = [0, 0];
