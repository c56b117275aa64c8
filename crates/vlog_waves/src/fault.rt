// Why the VCD of a run can't be prepared.
ghost use Rattle.std.specs.Prelude.{◌≡◌};

use std::alloc::AllocError;

/// Why the VCD of a run can't be prepared.
#[derive(Clone, Copy, Debug, PartialEq, Eq)]
pub enum WavesFault {
    /// The most bytes that the VCD may have don't fit 64 bits.
    Long,
    Memory(AllocError),
}

impl From<AllocError> for WavesFault {
    ghost use Rattle.vlog_waves.specs.declared.fault.WavesFault.TheVariants.{Memory};

    ghost from_gives = { λ e fault. fault ≡ Memory e };

    fn from(e: AllocError) -> WavesFault {
        WavesFault::Memory(e)
    }
}
