// Why the lines of a run can't be prepared.
ghost use Rattle.std.specs.Prelude.{◌≡◌};

use std::alloc::AllocError;

/// Why the lines of a run can't be prepared.
#[derive(Clone, Copy, Debug, PartialEq, Eq)]
pub enum LinesFault {
    /// The most bytes that the lines may have don't fit 64 bits.
    Long,
    Memory(AllocError),
}

impl From<AllocError> for LinesFault {
    ghost use Rattle.long_runs.specs.declared.fault.LinesFault.TheVariants.{Memory};

    ghost from_gives = { λ e fault. fault ≡ Memory e };

    fn from(e: AllocError) -> LinesFault {
        LinesFault::Memory(e)
    }
}
