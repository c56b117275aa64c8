// Why a bitstream is refused.
ghost use Rattle.std.specs.Prelude.{◌≡◌};
ghost use Rattle.bin_stream.specs.declared.fault.BinFault.TheVariants.{Memory};

use std::alloc::AllocError;
use thiserror::Error;

/// What is wrong with a bitstream.
#[derive(Clone, Copy, Debug, PartialEq, Eq, Error)]
pub enum BinCause {
    /// There is no preamble, `7E AA 99 7E`. The offset is the input's length.
    #[error("there is no preamble")]
    NoPreamble,
    /// The input ends within a command or before the wake-up. The offset is the input's length.
    #[error("the bitstream ends too early")]
    Truncated,
    /// An unknown command. The offset is the offset of its first byte, as for all causes below except `DataEnd`.
    #[error("unknown command")]
    UnknownCommand,
    /// More than four bytes of payload.
    #[error("a payload of more than four bytes")]
    LongPayload,
    /// A bank above 3.
    #[error("a bank above 3")]
    BadBank,
    /// Data of a width that the planes of no device have, or that the planes of the device of earlier data don't have.
    #[error("no plane of the device has that width")]
    BadWidth,
    /// Data without a row, with rows after the plane's last one, or with a part of a byte at the end.
    #[error("the rows do not fit into the plane")]
    BadHeight,
    /// One of the two bytes after data isn't 00. The offset is the offset of the first such byte.
    #[error("a byte behind data is not 00")]
    DataEnd,
    /// The CRC after a check command isn't 0. `found` is that CRC.
    #[error("the CRC is {found} and not 0")]
    Check { found: u16 },
    /// A range above 2.
    #[error("a range above 2")]
    BadRange,
    /// A mode other than 0, 1, 32 and 33.
    #[error("unknown mode")]
    BadMode,
    /// A wake-up before any data reached the last row of a configuration plane.
    #[error("no data reached the last row of a configuration plane")]
    NoDevice,
}

/// Why a bitstream is refused.
#[derive(Clone, Copy, Debug, PartialEq, Eq, Error)]
pub enum BinFault {
    /// The offset of the first fault, in bytes from 0, and what is wrong there.
    #[error("offset {offset}: {cause}")]
    At { offset: u64, cause: BinCause },
    /// Out of memory. It may come in place of any other answer.
    #[error(transparent)]
    Memory(AllocError),
}

impl From<AllocError> for BinFault {
    ghost from_gives = { λ e fault. fault ≡ Memory e };

    fn from(e: AllocError) -> BinFault {
        BinFault::Memory(e)
    }
}
