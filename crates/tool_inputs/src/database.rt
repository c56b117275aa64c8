// A chip database, read from its text.
ghost use Rattle.std.specs.Prelude.{◌≡◌, ℕ, List, Ok, IfOk, IfErr};
ghost use Rattle.chipdb_reader.specs.Feeding.{StandsFor};
ghost use Rattle.chipdb_reader.specs.Kept.{database_in};
ghost use Rattle.tool_inputs.specs.Databases.{database_read, StopsDatabase};

use crate::faults::db_refusal;
use chipdb_reader::{ChipDb, DbFault, DbReader, read};
use std::alloc::Global;
use tool_run::Stop;

/// The most bytes that a database may have.
pub const DB_LIMIT: usize = 268_435_456;

/// Reads a database from its text.
///
/// # Errors
/// `Stop::Refused` with the line and the cause of the first fault, as `database line N: CAUSE`. `Stop::Memory` if memory is out, or if the
/// text has more than `DB_LIMIT` bytes (no tool loads such a text).
#[tactic(auto, unfolding(crate::specs::Databases::database_read))]
pub fn read_database(alloc: Global, bytes: &[u8]) -> Result<ChipDb, Stop<'static>>
    ensures database { IfOk result (λ db. database_read bytes.now ≡ Ok (database_in db)) }
    ensures stops { IfErr result (StopsDatabase (database_read bytes.now)) }
{
    // A tool loads no text that is longer than the limit.
    if bytes.len() > DB_LIMIT {
        return Err(Stop::Memory);
    }
    match read(alloc, bytes) {
        Ok(db) => Ok(db),
        Err(DbFault::At { line, cause }) => Err(Stop::Refused(db_refusal(line, cause))),
        Err(DbFault::Memory(_)) => Err(Stop::Memory),
    }
}

/// The database of the text that was fed to a reader.
///
/// # Errors
/// `Stop::Refused` with the line and the cause of the first fault; `Stop::Memory` if memory is out.
#[tactic(auto, unfolding(crate::specs::Databases::database_read))]
pub(crate) fn finish_database(reader: DbReader) -> Result<ChipDb, Stop<'static>>
    ensures database { IfOk result (λ db. (text : List ℕ) → StandsFor text reader → database_read text ≡ Ok (database_in db)) }
    ensures stops { IfErr result (λ stop. (text : List ℕ) → StandsFor text reader → StopsDatabase (database_read text) stop) }
{
    match reader.finish() {
        Ok(db) => Ok(db),
        Err(DbFault::At { line, cause }) => Err(Stop::Refused(db_refusal(line, cause))),
        Err(DbFault::Memory(_)) => Err(Stop::Memory),
    }
}
