// Why a boot file isn't split.
ghost use Rattle.std.specs.Prelude.{◌≡◌, alloc_error};
ghost use Rattle.boot_file.specs.declared.split_fault.SplitFault.TheVariants.{Memory};

use bin_stream::BinFault;
use std::alloc::{AllocError, AllocFailed};

/// Why a boot file isn't split. If there are several causes, the first in this list is reported.
#[derive(Clone, Copy, Debug, PartialEq, Eq)]
pub enum SplitFault {
    /// There are fewer than the 160 bytes of the headers.
    Short { length: u64 },
    /// The byte at `offset`, which is in the header of this index, is none that a header has there.
    Header { index: u32, offset: u64 },
    /// The header of this index, 1 to 4, has an address in the headers or after the end of the file.
    Address { index: u32, address: u32 },
    /// No other header has the address of header 0.
    PowerOn { address: u32 },
    /// The image of this index has a fault. Its offset counts from the start of the boot file.
    Image { index: u32, fault: BinFault },
    /// Out of memory. It may come in place of any other answer.
    Memory(AllocError),
}

impl From<AllocError> for SplitFault {
    ghost from_gives = { λ e fault. fault ≡ Memory e };

    fn from(e: AllocError) -> SplitFault {
        SplitFault::Memory(e)
    }
}

impl<T: Drop> From<AllocFailed<T>> for SplitFault {
    ghost from_gives = { λ _ fault. fault ≡ Memory alloc_error };

    fn from(e: AllocFailed<T>) -> SplitFault {
        SplitFault::Memory(AllocError::from(e))
    }
}
