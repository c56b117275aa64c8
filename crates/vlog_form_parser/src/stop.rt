// Why a reading stops.

use std::alloc::AllocError;

/// Why a form doesn't fit.
#[derive(Clone, Copy, Debug)]
pub enum ReadStop {
    /// The token at this offset doesn't fit, or the text ends there.
    Stuck(usize),
    /// Out of memory.
    Memory(AllocError),
}
