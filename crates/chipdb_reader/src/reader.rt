// Reads a database from bytes, whole or in pieces.
ghost use Rattle.std.specs.Prelude.{◌≡◌, ◌≤◌, length, IfOk, IfErr};
ghost use Rattle.chipdb_reader.specs.Faults.{DbMeans, Tells, db_fault_of};
ghost use Rattle.chipdb_reader.specs.Kept.{database_in};

use crate::chip_db::ChipDb;
use crate::fault::DbFault;
use crate::line_reader::LineReader;
use std::alloc::{AllocError, Global};
use std::marker::Model;
use text_lines::{LineFeed, LineTaker};

/// Reads a chip database. The text must have at most 268,435,456 bytes.
///
/// # Errors
/// `At` with the first faulty line and the first of its causes. `Memory` if memory is out; it may come in place of any other answer.
///
/// # Example
/// ```ignore
/// use chipdb_reader::read;
///
/// let db = read(alloc, b".device 1k 14 18 2\n.net 1\n1 1 lutff_0/out\n")?;
/// let device = db.device(); // DeviceName::Hx1k
/// let net = db.net_of(1, 1, b"lutff_0/out"); // Some(1)
/// ```
pub fn read(alloc: Global, bytes: &[u8]) -> Result<ChipDb, DbFault>
    requires { length bytes.now ≤ 268435456 }
    ensures means { IfOk result (λ db. DbMeans bytes.now (database_in db)) }
    ensures refused { IfErr result (Tells (db_fault_of bytes.now)) }
{
    let mut lines = LineReader::new(alloc);
    match lines.take_lines(bytes) {
        Err(fault) => Err(fault),
        Ok(()) => lines.finish(),
    }
}

/// Reads a chip database that comes in pieces. It keeps what the lines so far have given, and the bytes of a line that hasn't ended yet.
#[derive(Drop)]
pub struct DbReader {
    /// How many bytes were fed.
    fed: u64,
    /// Feeds the lines. It keeps a fault of the text, or that memory was out.
    lines: LineFeed<LineReader, DbFault>,
}

impl Model for DbReader {
    ghost use Rattle.std.specs.Coded.{codes};
    ghost use Rattle.chipdb_reader.specs.contracts.line_reader.LineReader as taker;
    ghost use Rattle.chipdb_reader.specs.Feeding.{Intake, IsFed};

    ghost Value = { Intake };

    ghost coded = { Prim.hlevel (codes, taker.the_row.coded) };

    ghost view = { λ reader. record { fed = reader.fed; lines = reader.lines } };

    ghost invariant = { λ reader. IsFed reader.fed reader.lines };
}

impl DbReader {
    ghost use Rattle.std.specs.Prelude.{◌+◌, ◌^◌, ◌<◌, ◌++◌, [], ℕ, List, Err};
    ghost use Rattle.std.specs.declared.alloc.AllocError.{AllocError as NoMemory};
    ghost use Rattle.chipdb_reader.specs.declared.fault.DbFault.TheVariants.{Memory};
    ghost use Rattle.chipdb_reader.specs.Feeding.{StandsFor, fed_to, lack_of};

    /// A reader that has been given nothing yet. It takes no memory.
    pub fn new(alloc: Global) -> DbReader
        ensures stands { StandsFor [] result }
        ensures fed { fed_to result ≡ 0 }
        ensures fresh { lack_of result ≡ None }
    {
        let taker = LineReader::new(alloc);
        let lines = LineFeed::new(alloc, taker);
        DbReader { fed: 0, lines }
    }

    /// Takes the next bytes. All pieces together must have fewer than 2^32 bytes. A faulty line is reported by `finish`.
    ///
    /// # Errors
    /// `AllocError` if memory is out, and for no other cause. Each later call returns it again.
    pub fn feed(&mut self, piece: &[u8]) -> Result<(), AllocError>
        requires { fed_to self.old + length piece.now < 2 ^ 32 }
        ensures fed { fed_to self.new ≡ fed_to self.old + length piece.now }
        ensures stands { (text : List ℕ) → StandsFor text self.old → StandsFor (text ++ piece.now) self.new }
        ensures lacks { MatchResult result (λ _. lack_of self.new ≡ None) (λ e. lack_of self.new ≡ Some e) }
        ensures again { (e : NoMemory) → lack_of self.old ≡ Some e → result ≡ Err e }
    {
        self.fed += piece.len() as u64;
        lack_of(self.lines.feed(piece))
    }

    /// The database, after the last piece.
    ///
    /// # Errors
    /// `At` with the first faulty line and the first of its causes. `Memory` if memory is out, now or in an earlier call.
    pub fn finish(self) -> Result<ChipDb, DbFault>
        ensures means { IfOk result (λ db. (text : List ℕ) → StandsFor text self → DbMeans text (database_in db)) }
        ensures refused { IfErr result (λ fault. (text : List ℕ) → StandsFor text self → Tells (db_fault_of text) fault) }
        ensures again { (e : NoMemory) → lack_of self ≡ Some e → result ≡ Err (Memory e) }
    {
        let DbReader { lines, .. } = self;
        match lines.finish() {
            Err(fault) => Err(fault),
            Ok(lines) => lines.finish(),
        }
    }
}

ghost use Rattle.std.specs.Prelude.{None, Some, MatchResult};
ghost use Rattle.std.specs.Result.{result_err};
ghost use Rattle.chipdb_reader.specs.Feeding.{lack_in};

/// Keeps only out of memory: a faulty line counts as success here.
fn lack_of(told: Result<(), DbFault>) -> Result<(), AllocError>
    ensures { MatchResult result (λ _. lack_in (result_err told) ≡ None) (λ e. lack_in (result_err told) ≡ Some e) }
{
    match told {
        Ok(()) => Ok(()),
        Err(DbFault::At { .. }) => Ok(()),
        Err(DbFault::Memory(e)) => Err(e),
    }
}
