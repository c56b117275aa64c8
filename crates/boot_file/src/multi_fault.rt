// Why images aren't joined.
ghost use Rattle.std.specs.Prelude.{◌≡◌, alloc_error};
ghost use Rattle.boot_file.specs.declared.multi_fault.MultiFault.TheVariants.{Memory};

use std::alloc::{AllocError, AllocFailed};

/// Why images aren't joined. If there are several causes, the first in this list is reported.
#[derive(Clone, Copy, Debug, PartialEq, Eq)]
pub enum MultiFault {
    /// There is no image.
    NoImage,
    /// There are `n` images, more than 4.
    TooMany { n: u64 },
    /// Images are to be aligned to 2 to the power of `n`, and `n` is above 24.
    Align { n: u64 },
    /// There is no image of the index that is to be booted at power-on.
    PowerOn { index: u64 },
    /// The first image whose offset is 2 to the power of 24 or more: an address has three bytes.
    Address { index: u64 },
    /// Out of memory. It may come in place of any other answer.
    Memory(AllocError),
}

impl From<AllocError> for MultiFault {
    ghost from_gives = { λ e fault. fault ≡ Memory e };

    fn from(e: AllocError) -> MultiFault {
        MultiFault::Memory(e)
    }
}

impl<T: Drop> From<AllocFailed<T>> for MultiFault {
    ghost from_gives = { λ _ fault. fault ≡ Memory alloc_error };

    fn from(e: AllocFailed<T>) -> MultiFault {
        MultiFault::Memory(AllocError::from(e))
    }
}
