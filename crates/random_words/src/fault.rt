// Why there are no random words.
ghost use Rattle.std.specs.Prelude.{◌≡◌};

use std::alloc::AllocError;

/// Why there are no random words.
#[derive(Clone, Copy, Debug, PartialEq, Eq)]
pub enum DrawFault {
    /// Each draw had two equal columns.
    Draws,
    /// Out of memory. It may come in place of any other answer.
    Memory(AllocError),
}

impl From<AllocError> for DrawFault {
    ghost use Rattle.random_words.specs.declared.fault.DrawFault.TheVariants.{Memory};

    ghost from_gives = { λ e fault. fault ≡ Memory e };

    fn from(e: AllocError) -> DrawFault {
        DrawFault::Memory(e)
    }
}
