// Why a database is refused.
ghost use Rattle.std.specs.Prelude.{◌≡◌};
ghost use Rattle.chipdb_reader.specs.declared.fault.DbFault.TheVariants.{Memory};

use chipdb_lines::DbCause;
use std::alloc::AllocError;
use thiserror::Error;

/// Why a database is refused.
#[derive(Clone, Copy, Debug, PartialEq, Eq, Error)]
pub enum DbFault {
    /// The first faulty line, counted from 1, and the first of its causes. If the text ends without a `.device`, the line is the number of
    /// lines plus 1.
    #[error("line {line}: {cause}")]
    At { line: u64, cause: DbCause },
    /// Out of memory. It may come in place of any other answer.
    #[error(transparent)]
    Memory(AllocError),
}

impl From<AllocError> for DbFault {
    ghost from_gives = { λ e fault. fault ≡ Memory e };

    fn from(e: AllocError) -> DbFault {
        DbFault::Memory(e)
    }
}
