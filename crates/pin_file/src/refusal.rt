// Why a line is refused.
ghost use Rattle.std.specs.Prelude.{◌≡◌, Option};
ghost use Rattle.pin_file.specs.declared.refusal.PinLineRefusal.TheVariants.{Memory};

use crate::fault::{PinFileCause, PinFileFault};
use std::alloc::AllocError;

/// Why a line is refused: its cause, or out of memory.
#[derive(Clone, Copy)]
pub(crate) enum PinLineRefusal {
    Cause(PinFileCause),
    Memory(AllocError),
}

impl From<AllocError> for PinLineRefusal {
    ghost from_gives = { λ e refusal. refusal ≡ Memory e };

    fn from(e: AllocError) -> PinLineRefusal {
        PinLineRefusal::Memory(e)
    }
}

impl PinLineRefusal {
    ghost use Rattle.pin_file.specs.declared.fault.PinFileCause.{PinFileCause as CauseOfLine};
    ghost use Rattle.pin_file.specs.Faults.{Tells, fault_with};
    ghost use Rattle.pin_file.specs.inside.Reading.{RefusesFor};

    /// The refusal as a fault of the line with that number.
    pub(crate) fn of_line(self, number: u64) -> PinFileFault
        ensures { (cause : Option CauseOfLine) → RefusesFor cause self → Tells (fault_with number cause) result }
    {
        match self {
            PinLineRefusal::Cause(cause) => PinFileFault::At {
                line: number,
                cause,
            },
            PinLineRefusal::Memory(e) => PinFileFault::Memory(e),
        }
    }
}
