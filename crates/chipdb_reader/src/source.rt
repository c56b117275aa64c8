// Reads a database from a source or from a file.
ghost use Rattle.std.specs.Prelude.{◌≡◌, ◌+◌, ◌^◌, ◌<◌, ◌≤◌, ℕ, List, length, IfOk, IfErr, IsErrOf, IsTrue};
ghost use Rattle.ice_io.specs.Faults.{Rose, RoseBy};
ghost use Rattle.ice_io.specs.Files.{HasFile, HasMore, LacksFile};
ghost use Rattle.ice_io.specs.Taken.{TakesAll, TakesAtMost, TakesCount};
ghost use Rattle.chipdb_reader.specs.Faults.{DbMeans, db_fault_of};
ghost use Rattle.chipdb_reader.specs.Kept.{database_in};
ghost use Rattle.chipdb_reader.specs.Sources.{ForDb, TellsFault, answer_of, untaken};

use crate::chip_db::ChipDb;
use crate::fault::DbFault;
use crate::reader::DbReader;
use ice_io::{Files, Source, TakeFault, Taker, feed_all, load_into};
use std::alloc::{AllocError, Global};

/// Why a database couldn't be read from a source or a file. Only [`read_from`] and [`read_file`] return it, for users of the library.
#[derive(Clone, Copy, Debug, PartialEq, Eq)]
pub enum SourceDbFault {
    /// A read failed.
    Failed,
    /// There are more bytes than the limit.
    TooLong,
    /// The text is faulty. Out of memory is never reported here.
    Db(DbFault),
    /// Out of memory. It may come in place of any other answer.
    Memory(AllocError),
}

/// A reader takes the pieces of a database. If memory is out, `finish` reports it at the end.
impl Taker for DbReader {
    ghost use Rattle.chipdb_reader.specs.Feeding.{fed_to, stands_for};

    ghost Setting = { Unit {0} };

    ghost has_taken = { stands_for };

    ghost fed = { fed_to };

    fn take(&mut self, piece: &[u8]) {
        let _ = self.feed(piece);
    }
}

/// Reads a database from a source, up to its end. The tools feed a [`DbReader`] themselves: this is for users of the library who have a
/// source.
///
/// # Errors
/// `Failed` if a read failed. `TooLong` if the source gives more than `limit` bytes; `limit + 1` bytes are read then. `Db` with the first
/// faulty line. `Memory` if memory is out; it may come in place of any other answer.
pub fn read_from<S: Source>(
    alloc: Global,
    source: &mut S,
    limit: usize,
) -> Result<ChipDb, SourceDbFault>
    requires { limit < 2 ^ 32 }
    ensures means { IfOk result (λ db. (bytes : List ℕ) × TakesAll (S.left source.old) (S.left source.new) bytes
        × (length bytes ≤ limit) × DbMeans bytes (database_in db)) }
    ensures refused { IfErr result (ForDb (λ fault. (bytes : List ℕ) × TakesAll (S.left source.old) (S.left source.new) bytes
        × (length bytes ≤ limit) × TellsFault (db_fault_of bytes) fault)) }
    ensures too_long { IsErrOf result SourceDbFault.TooLong
        → TakesCount (S.left source.old) (S.left source.new) (limit + 1) }
    ensures not_too_long { (IsErrOf result SourceDbFault.TooLong → ⊥)
        → TakesAtMost (S.left source.old) (S.left source.new) limit }
    ensures never_falls { S.faults source.old ≤ S.faults source.new }
    ensures failed { IsErrOf result SourceDbFault.Failed → Rose (S.faults source.old) (S.faults source.new) }
{
    let mut reader = DbReader::new(alloc);
    match feed_all(alloc, source, limit, &mut reader) {
        Err(fault) => Err(untaken(fault)),
        Ok(()) => answer(reader.finish()),
    }
}

/// Reads a database from the file with that name. The tools feed a [`DbReader`] themselves: this is for users of the library who have the
/// name of a file.
///
/// # Errors
/// `Failed` if the file couldn't be read. `TooLong` after `limit + 1` bytes were read. `Db` with the first faulty line. `Memory` if memory
/// is out; it may come in place of any other answer.
pub fn read_file<F: Files>(
    alloc: Global,
    files: &mut F,
    name: &str,
    limit: usize,
) -> Result<ChipDb, SourceDbFault>
    requires { limit < 2 ^ 32 }
    ensures means { IfOk result (λ db. (bytes : List ℕ) × HasFile (F.contents files.old) name.now bytes
        × (length bytes ≤ limit) × DbMeans bytes (database_in db)) }
    ensures refused { IfErr result (ForDb (λ fault. (bytes : List ℕ) × HasFile (F.contents files.old) name.now bytes
        × (length bytes ≤ limit) × TellsFault (db_fault_of bytes) fault)) }
    ensures too_long { IsErrOf result SourceDbFault.TooLong → HasMore (F.contents files.old) name.now limit }
    ensures read_past { IsErrOf result SourceDbFault.TooLong → RoseBy (limit + 1) (F.bytes_read files.old) (F.bytes_read files.new) }
    ensures bytes_never_fall { F.bytes_read files.old ≤ F.bytes_read files.new }
    ensures lacks { IsErrOf result SourceDbFault.Failed → IsTrue (F.steady files.old) → LacksFile (F.contents files.old) name.now }
    ensures failed { IsErrOf result SourceDbFault.Failed → Rose (F.load_faults files.old) (F.load_faults files.new) }
    ensures same_contents { F.contents files.new ≡ F.contents files.old }
    ensures same_steady { F.steady files.new ≡ F.steady files.old }
    ensures never_falls { F.load_faults files.old ≤ F.load_faults files.new }
    ensures same_store_faults { F.store_faults files.new ≡ F.store_faults files.old }
{
    let mut reader = DbReader::new(alloc);
    match load_into(alloc, files, name, limit, &mut reader) {
        Err(fault) => Err(untaken(fault)),
        Ok(()) => answer(reader.finish()),
    }
}

/// Why the bytes weren't all taken.
fn untaken(fault: TakeFault) -> SourceDbFault
    ensures { result ≡ untaken fault }
{
    match fault {
        TakeFault::Failed => SourceDbFault::Failed,
        TakeFault::TooLong => SourceDbFault::TooLong,
        TakeFault::Memory(e) => SourceDbFault::Memory(e),
    }
}

/// The answer after all bytes were taken.
fn answer(read: Result<ChipDb, DbFault>) -> Result<ChipDb, SourceDbFault>
    ensures { result ≡ answer_of read }
{
    match read {
        Ok(db) => Ok(db),
        Err(DbFault::At { line, cause }) => Err(SourceDbFault::Db(DbFault::At { line, cause })),
        Err(DbFault::Memory(e)) => Err(SourceDbFault::Memory(e)),
    }
}
