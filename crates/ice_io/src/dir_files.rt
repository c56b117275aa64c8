// The real files. What is read from a file that was opened, and what is written to one, is exact. That the file is the one of
// that name, and was emptied before, is the system's part.
ghost use Rattle.std.specs.Prelude.{◌≡◌, ◌+◌, ◌<◌, ◌≤◌, ◌^◌, ◌↔◌, ℕ, List, None, true, false, length, vec_len, IfOk, IfErr, OnOk, OnErr, IsErrOf, IsNone};
ghost use Rattle.std.specs.Io.KnownBytes.{Appends};
ghost use Rattle.ice_io.specs.DirFiles.{after_bytes, after_load_fault, after_store, after_store_fault, AppendsPart, WereInFile, WereTaken, WereRead, WereWritten, WereContentWritten, WerePartWritten};
ghost use Rattle.ice_io.specs.Faults.{Rose, counted};
ghost use Rattle.ice_io.specs.Files.{LeavesContent, LeavesPart, stores_after};
ghost use Rattle.ice_io.specs.Real.{FailsOver, read_faults, reader_of, write_faults};
ghost use Rattle.ice_io.specs.Taken.{TakesAll, TakesAtMost, TakesCount};

use crate::content::Content;
use crate::files::{ContentFault, Files, StoreFault};
use crate::kept_file::{KeptFile, opened_at, read_part};
use crate::real::{StdSink, StdSource, opened_sink};
use crate::sink::{PutFault, Sink};
use crate::source::{Failed, TakeFault, read_expected};
use std::alloc::{AllocError, Global};
use std::fs::OpenFile;
use std::io::{Read, Write};
use std::marker::Model;
use std::{fs, rt};

/// The files of the system. A contract sees only how many loads and stores have failed, how many bytes were read, and how many stores were
/// begun.
#[derive(Drop)]
pub struct DirFiles<'a, R: rt::Files> {
    rt: &'a R,
    kept: KeptFile<R::File>,
    load_faults: u64,
    store_faults: u64,
    bytes_read: u64,
    stores: u64,
}

impl<'a, R: rt::Files> Model for DirFiles<'a, R> {
    ghost use Rattle.ice_io.specs.DirFiles.{FileCounts};

    ghost Value = { FileCounts };

    ghost view = { λ s. record { load_faults = s.load_faults; store_faults = s.store_faults; bytes_read = s.bytes_read; stores = s.stores } };
}

impl<'a, R: rt::Files> DirFiles<'a, R> {
    /// The files that this runtime reaches, with nothing counted yet.
    pub fn new(rt: &'a R) -> DirFiles<'a, R>
        ensures { result ≡ record { load_faults = 0; store_faults = 0; bytes_read = 0; stores = 0 } }
    {
        DirFiles {
            rt,
            kept: KeptFile::new(),
            load_faults: 0,
            store_faults: 0,
            bytes_read: 0,
            stores: 0,
        }
    }

    // Counts bytes that were read.
    fn count_bytes(&mut self, count: usize)
        ensures counted { self.new ≡ after_bytes self.old count }
        ensures grew { self.old.bytes_read ≤ self.new.bytes_read }
    {
        self.bytes_read = self.bytes_read.saturating_add(count as u64);
    }

    // Stores the content, and counts that, and a failure.
    fn replace<C: Content>(&mut self, name: &str, content: C) -> Result<(), StoreFault>
        ensures part { IfErr result (LeavesPart None None name.now (C.bytes content)) }
        ensures never_falls { self.old.store_faults ≤ self.new.store_faults }
        ensures same_load_faults { self.new.load_faults ≡ self.old.load_faults }
        ensures begun { self.new.stores ≡ counted self.old.stores }
        ensures same_bytes_read { self.new.bytes_read ≡ self.old.bytes_read }
        ensures stored { OnOk result (self.new ≡ after_store self.old) }
        ensures failed { OnErr result (self.new ≡ after_store_fault self.old) }
        ensures whole { OnOk result (WereWritten R.File.contents (C.bytes content)) }
        ensures first { IfErr result (WerePartWritten R.File.contents (C.bytes content)) }
    {
        self.kept.close();
        self.stores = self.stores.saturating_add(1);
        let stored = store_to(&mut opened_sink(fs::create(self.rt, name)), content);
        if stored.is_err() {
            self.store_faults = self.store_faults.saturating_add(1);
        }
        stored
    }
}

impl<R: rt::Files> Files for DirFiles<'_, R> {
    ghost contents = { λ _. None };

    ghost steady = { λ _. false };

    ghost load_faults = { λ counts. counts.load_faults };

    ghost store_faults = { λ counts. counts.store_faults };

    ghost bytes_read = { λ counts. counts.bytes_read };

    ghost stores = { λ counts. counts.stores };

    fn load(&mut self, alloc: Global, name: &str, limit: usize) -> Result<Vec<u8>, TakeFault>
        requires { limit < 2 ^ 32 }
        ensures within { IfOk result (λ bytes. vec_len bytes ≤ limit) }
        ensures never_falls { self.old.load_faults ≤ self.new.load_faults }
        ensures same_stores { self.new.stores ≡ self.old.stores }
        ensures same_store_faults { self.new.store_faults ≡ self.old.store_faults }

        ensures read { IfOk result (λ bytes. self.new ≡ after_bytes self.old (vec_len bytes)) }
        ensures read_past { IsErrOf result TakeFault.TooLong → self.new ≡ after_bytes self.old (limit + 1) }
        ensures bytes_never_fall { self.old.bytes_read ≤ self.new.bytes_read }
        ensures failed { IsErrOf result TakeFault.Failed → self.new ≡ after_load_fault self.old }
        ensures same { (e : AllocError) → IsErrOf result (TakeFault.Memory e) → self.new ≡ self.old }

        // `Ok` has all bytes of a file, and `TooLong` comes only if one byte past the limit was read from one.
        ensures whole { IfOk result (λ bytes. WereInFile R.File.remaining bytes.items) }
        ensures longer { IsErrOf result TakeFault.TooLong → WereTaken R.File.remaining (limit + 1) }
    {
        self.kept.close();
        match load_from(alloc, &mut opened_at(fs::open(self.rt, name), 0), limit) {
            Ok(bytes) => {
                self.count_bytes(bytes.len());
                Ok(bytes)
            }
            Err(TakeFault::TooLong) => {
                self.count_bytes(limit + 1);
                Err(TakeFault::TooLong)
            }
            Err(TakeFault::Failed) => {
                self.load_faults = self.load_faults.saturating_add(1);
                Err(TakeFault::Failed)
            }
            Err(TakeFault::Memory(e)) => Err(TakeFault::Memory(e)),
        }
    }

    fn read_at(&mut self, name: &str, at: u64, into: &mut [u8]) -> Result<usize, Failed>
        ensures count { IfOk result (λ n. n ≤ length into.new) }
        ensures never_falls { self.old.load_faults ≤ self.new.load_faults }
        ensures same_stores { self.new.stores ≡ self.old.stores }
        ensures same_store_faults { self.new.store_faults ≡ self.old.store_faults }

        ensures counted { IfOk result (λ n. self.new ≡ after_bytes self.old n) }
        ensures bytes_never_fall { self.old.bytes_read ≤ self.new.bytes_read }
        ensures failed { OnErr result (self.new ≡ after_load_fault self.old) }

        // `Ok` has read these bytes from a file, and 0 for a buffer that isn't empty comes only at its end.
        ensures read { IfOk result (WereRead R.File.remaining into.new) }
    {
        match read_part(self.rt, &mut self.kept, name, at, into) {
            Ok(count) => {
                self.count_bytes(count);
                Ok(count)
            }
            Err(Failed) => {
                self.load_faults = self.load_faults.saturating_add(1);
                Err(Failed)
            }
        }
    }

    fn store(&mut self, name: &str, bytes: &[u8]) -> Result<(), StoreFault>
        ensures part { IfErr result (LeavesPart None None name.now bytes.now) }
        ensures never_falls { self.old.store_faults ≤ self.new.store_faults }
        ensures same_load_faults { self.new.load_faults ≡ self.old.load_faults }
        ensures begun { self.new.stores ≡ counted self.old.stores }
        ensures same_bytes_read { self.new.bytes_read ≡ self.old.bytes_read }

        ensures stored { OnOk result (self.new ≡ after_store self.old) }
        ensures failed { OnErr result (self.new ≡ after_store_fault self.old) }

        // `Ok` has written all bytes to a file, and a fault as many as it says.
        ensures whole { OnOk result (WereWritten R.File.contents bytes.now) }
        ensures first { IfErr result (WerePartWritten R.File.contents bytes.now) }
    {
        self.replace(name, bytes)
    }

    fn store_content<C: Content>(
        &mut self,
        _alloc: Global,
        name: &str,
        content: C,
    ) -> Result<(), ContentFault>
        ensures part { IfErr result (LeavesContent None None name.now (C.bytes content)) }
        ensures never_falls { self.old.store_faults ≤ self.new.store_faults }
        ensures same_load_faults { self.new.load_faults ≡ self.old.load_faults }
        ensures begun { self.new.stores ≡ stores_after self.old.stores result }
        ensures same_bytes_read { self.new.bytes_read ≡ self.old.bytes_read }

        ensures stored { OnOk result (self.new ≡ after_store self.old) }
        ensures failed { OnErr result (self.new ≡ after_store_fault self.old) }

        // `Ok` has written all bytes to a file, and a fault as many as it says.
        ensures whole { OnOk result (WereWritten R.File.contents (C.bytes content)) }
        ensures first { IfErr result (WereContentWritten R.File.contents (C.bytes content)) }
    {
        match self.replace(name, content) {
            Ok(()) => Ok(()),
            Err(fault) => Err(ContentFault::Store(fault)),
        }
    }
}

// Reads a file to its end, if it could be opened.
fn load_from<F: Read + OpenFile>(
    alloc: Global,
    opened: &mut Option<StdSource<F>>,
    limit: usize,
) -> Result<Vec<u8>, TakeFault>
    requires { limit < 2 ^ 32 }
    ensures within { IfOk result (λ bytes. vec_len bytes ≤ limit) }
    ensures whole { IfOk result (λ bytes. WereInFile F.remaining bytes.items) }
    ensures longer { IsErrOf result TakeFault.TooLong → WereTaken F.remaining (limit + 1) }
    ensures unopened { IsNone opened.old → IsErrOf result TakeFault.Failed }
    ensures failed { IsErrOf result TakeFault.Failed → FailsOver read_faults opened.old opened.new }
{
    match opened {
        Some(file) => load_opened(alloc, file, limit),
        None => Err(TakeFault::Failed),
    }
}

// Reads an open file to its end. Memory for as many bytes as the system says that there are is taken at once.
fn load_opened<F: Read + OpenFile>(
    alloc: Global,
    file: &mut StdSource<F>,
    limit: usize,
) -> Result<Vec<u8>, TakeFault>
    requires { limit < 2 ^ 32 }
    ensures whole { IfOk result (λ bytes. TakesAll (F.remaining (reader_of file.old)) (F.remaining (reader_of file.new)) bytes.items) }
    ensures within { IfOk result (λ bytes. vec_len bytes ≤ limit) }
    ensures too_long { IsErrOf result TakeFault.TooLong
        → TakesCount (F.remaining (reader_of file.old)) (F.remaining (reader_of file.new)) (limit + 1) }
    ensures not_too_long { (IsErrOf result TakeFault.TooLong → ⊥)
        → TakesAtMost (F.remaining (reader_of file.old)) (F.remaining (reader_of file.new)) limit }
    ensures never_falls { read_faults file.old ≤ read_faults file.new }
    ensures failed { IsErrOf result TakeFault.Failed → Rose (read_faults file.old) (read_faults file.new) }
{
    let told = file.told_length();
    read_expected(alloc, file, limit, told)
}

// Writes the content to a file, if it could be opened for it.
fn store_to<C: Content, W: Write>(
    opened: &mut Option<StdSink<W>>,
    content: C,
) -> Result<(), StoreFault>
    ensures part { (name : List ℕ) → IfErr result (LeavesPart None None name (C.bytes content)) }
    ensures whole { OnOk result (WereWritten W.contents (C.bytes content)) }
    ensures first { IfErr result (WerePartWritten W.contents (C.bytes content)) }
    ensures unopened { IsErrOf result (StoreFault.Failed false 0) ↔ IsNone opened.old }
    ensures failed { OnErr result (FailsOver write_faults opened.old opened.new) }
{
    match opened {
        Some(file) => store_opened(content, file),
        None => Err(StoreFault::Failed {
            opened: false,
            written: 0,
        }),
    }
}

// Writes the content to a file that was opened for it.
fn store_opened<C: Content, K: Sink>(content: C, file: &mut K) -> Result<(), StoreFault>
    ensures whole { OnOk result (Appends (K.held file.old) (K.held file.new) (C.bytes content)) }
    ensures part { IfErr result (AppendsPart (K.held file.old) (K.held file.new) (C.bytes content)) }
    ensures never_falls { K.faults file.old ≤ K.faults file.new }
    ensures failed { OnErr result (Rose (K.faults file.old) (K.faults file.new)) }
{
    match content.write_to(file) {
        Ok(()) => Ok(()),
        Err(PutFault::Failed { written }) => Err(StoreFault::Failed {
            opened: true,
            written,
        }),
    }
}
