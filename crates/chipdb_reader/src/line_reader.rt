// The lines of a database, one after the other.
ghost use Rattle.std.specs.Prelude.{◌≡◌, ◌+◌, ◌-◌, ◌^◌, ◌<◌, ◌≤◌, [], ℕ, List, length, IfOk, IfErr, OnOk};
ghost use Rattle.text_lines.specs.Lines.{lines_of};
ghost use Rattle.chipdb_reader.specs.Faults.{DbMeans, Tells, db_fault_of};
ghost use Rattle.chipdb_reader.specs.Kept.{database_in};

use crate::chip_db::ChipDb;
use crate::fault::DbFault;
use crate::reading::DatabaseState;
use chipdb_lines::{DbCause, DbLineRefusal};
use std::alloc::{AllocError, Global};
use text_lines::{LineTaker, first_line};

/// What the lines so far have given, and how many lines there were.
#[derive(Drop)]
pub(crate) struct LineReader {
    reader: DatabaseState,
    count: u64,
}

impl LineReader {
    ghost use Rattle.chipdb_reader.specs.Feeding.{HasTaken, IsGoing};

    /// A reader that has read no line. It takes no memory yet.
    pub(crate) fn new(alloc: Global) -> LineReader
        ensures taken { HasTaken [] result }
        ensures none { result.count ≡ 0 }
    {
        let reader = DatabaseState::new(alloc);
        LineReader { reader, count: 0 }
    }

    /// Takes the first line of a text, and returns what follows it.
    fn take_first<'a>(&mut self, text: &'a [u8]) -> Result<&'a [u8], DbFault>
        requires ready { IsReady self.old.reader }
        requires texts { length self.old.reader.texts.arena ≤ self.old.count }
        requires lists { length self.old.reader.bits ≤ self.old.count }
        requires room { self.old.count < 2 ^ 32 - 1 }
        requires some { 0 < length text.now }
        ensures taken { IfOk result (λ rest. TakesFirst self.old.reader text.now rest.now self.new.reader) }
        ensures counted { OnOk result (self.new.count ≡ self.old.count + 1) }
        ensures refused { IfErr result (FaultOf (self.old.count + 1) (RefusesFirst self.old.reader text.now)) }
    {
        match take_first(&mut self.reader, self.count + 1, text) {
            Err(fault) => Err(fault),
            Ok(rest) => {
                self.count += 1;
                Ok(rest)
            }
        }
    }

    /// The database, after all lines were taken.
    pub(crate) fn finish(self) -> Result<ChipDb, DbFault>
        requires going { IsGoing self }
        requires room { self.count < 2 ^ 32 }
        ensures means { IfOk result (λ db. (text : List ℕ) → HasTaken (lines_of text) self → DbMeans text (database_in db)) }
        ensures refused { IfErr result (λ fault. (text : List ℕ) → HasTaken (lines_of text) self → Tells (db_fault_of text) fault) }
    {
        finish(self.reader, self.count + 1)
    }
}

impl LineTaker for LineReader {
    ghost use Rattle.std.specs.Prelude.{◌-◌, ◌^◌};
    ghost use Rattle.chipdb_reader.specs.Feeding.{IsGoing, refused_with, taken_by};

    type Refusal = DbFault;

    ghost Setting = { Unit {0} };

    ghost has_taken = { taken_by };

    ghost refuses = { refused_with };

    ghost is_ready = { IsGoing };

    ghost fed = { λ taker. taker.count };

    ghost MOST = { 2 ^ 32 - 1 };

    fn out_of_memory(e: AllocError) -> DbFault {
        DbFault::Memory(e)
    }

    fn take_lines(&mut self, text: &[u8]) -> Result<(), DbFault> {
        let mut left = text;
        while !left.is_empty() {
            left = self.take_first(left)?;
        }
        Ok(())
    }
}

ghost use Rattle.chipdb_reader.specs.Reading.{EndsReading, FaultOf, IsReady, RefusesFirst, RefusesLine, TakesFirst, TakesLine, located};

/// Takes the first line of a text, which is line `number` of the database, and returns what follows it.
fn take_first<'a>(
    reader: &mut DatabaseState,
    number: u64,
    text: &'a [u8],
) -> Result<&'a [u8], DbFault>
    requires ready { IsReady reader.old }
    requires room { length reader.old.texts.arena < 2 ^ 32 - 1 }
    requires lists { length reader.old.bits < 2 ^ 32 - 1 }
    requires some { 0 < length text.now }
    ensures taken { IfOk result (λ rest. TakesFirst reader.old text.now rest.now reader.new) }
    ensures refused { IfErr result (FaultOf number (RefusesFirst reader.old text.now)) }
{
    match reader.accept_choice(text) {
        Err(refusal) => Err(fault_at(number, refusal)),
        Ok(Some(rest)) => Ok(rest),
        Ok(None) => take_any(reader, number, text),
    }
}

/// Takes the first line of a text, whatever form the line has; the slow path of `take_first`.
fn take_any<'a>(
    reader: &mut DatabaseState,
    number: u64,
    text: &'a [u8],
) -> Result<&'a [u8], DbFault>
    requires ready { IsReady reader.old }
    requires room { length reader.old.texts.arena < 2 ^ 32 - 1 }
    requires lists { length reader.old.bits < 2 ^ 32 - 1 }
    requires some { 0 < length text.now }
    ensures taken { IfOk result (λ rest. TakesFirst reader.old text.now rest.now reader.new) }
    ensures refused { IfErr result (FaultOf number (RefusesFirst reader.old text.now)) }
{
    match first_line(text) {
        None => Ok(text),
        Some(line) => match take_line(reader, number, line.content) {
            Err(fault) => Err(fault),
            Ok(()) => Ok(line.rest),
        },
    }
}

/// Takes the next line, which is line `number` of the database.
fn take_line(reader: &mut DatabaseState, number: u64, line: &[u8]) -> Result<(), DbFault>
    requires ready { IsReady reader.old }
    requires room { length reader.old.texts.arena < 2 ^ 32 - 1 }
    requires lists { length reader.old.bits < 2 ^ 32 - 1 }
    ensures taken { IfOk result (λ _. TakesLine reader.old line.now reader.new) }
    ensures refused { IfErr result (FaultOf number (RefusesLine reader.old line.now)) }
{
    match reader.accept(line) {
        Ok(()) => Ok(()),
        Err(refusal) => Err(fault_at(number, refusal)),
    }
}

/// The fault that a refusal of that line makes.
fn fault_at(line: u64, refusal: DbLineRefusal) -> DbFault
    ensures { result ≡ located refusal line }
{
    match refusal {
        DbLineRefusal::Cause(cause) => DbFault::At { line, cause },
        DbLineRefusal::Memory(e) => DbFault::Memory(e),
    }
}

ghost use Rattle.std.specs.Prelude.{Some};
ghost use Rattle.chipdb_lines.specs.declared.chip.Chip.{Chip};
ghost use Rattle.chipdb_reader.specs.Fit.{IsFit};
ghost use Rattle.chipdb_reader.specs.Kept.{Kept};
ghost use Rattle.chipdb_reader.specs.Reading.{FitsReader};
ghost use Rattle.chipdb_reader.specs.Sound.{IsSound};

/// The database, after all lines were read. `number` is the number of the line after the last.
fn finish(reader: DatabaseState, number: u64) -> Result<ChipDb, DbFault>
    requires ready { IsReady reader }
    requires sound { (chip : Chip) (kept : Kept) → reader.chip ≡ Some chip → FitsReader chip reader kept → IsSound kept }
    requires fit { (chip : Chip) (kept : Kept) → reader.chip ≡ Some chip → FitsReader chip reader kept → IsFit (database_in kept) }
    ensures ended { EndsReading reader reader.chip number result }
{
    match reader.chip {
        None => Err(DbFault::At {
            line: number,
            cause: DbCause::NoDevice,
        }),
        Some(chip) => ChipDb::of(chip, reader),
    }
}
