// Files in memory. They know their bytes, and fail at the calls that were chosen.
ghost use Rattle.std.specs.Prelude.{◌≡◌, ◌⊎◌, ◌↔◌, ◌+◌, ◌<◌, ◌≤◌, ◌^◌, ℕ, List, Bool, true, false, Option, Some, None, map, nat_eq, length, take, drop, vec_len, IfOk, IfErr, OnOk, OnErr, IsErr, IsSomeAnd, IsErrOf, IsTrue, option_copied, Contains};
ghost use Rattle.std.specs.Ordering.{nat_cmp};
ghost use Rattle.std.specs.Cmp.Lexicographic.{slice_cmp};
ghost use Rattle.std.specs.FinMap.{get, find};
ghost use Rattle.ice_io.specs.Faults.{counted_by};
ghost use Rattle.ice_io.specs.Files.{EndsBefore, HasPart};
ghost use Rattle.ice_io.specs.MemFiles.{entry_of, files_of, part_size, LoadFails, StoreFails, after_load, after_refused_load, after_failed_load, after_store, after_part_store, after_failed_store};

use crate::content::Content;
use crate::files::{ContentFault, Files, StoreFault};
use crate::named_file::NamedFile;
use crate::pieces::{copy_front, is_listed};
use crate::room::Room;
use crate::source::{Failed, TakeFault};
use std::alloc::{AllocError, Global};
use std::marker::Model;

/// Files in memory, of which one may be stored. No tool of this project needs them or their calls: they are for tests, and for users of the
/// library.
#[derive(Drop)]
pub struct MemFiles {
    files: Vec<NamedFile>,
    target: String,
    room: Room,
    stored: bool,
    most: usize,
    failing: Vec<u64>,
    calls: u64,
    load_faults: u64,
    store_faults: u64,
    bytes_read: u64,
    stores: u64,
}

impl Model for MemFiles {
    ghost use Rattle.std.specs.Prelude.{◌≤◌, string_bytes};
    ghost use Rattle.ice_io.specs.MemFiles.{FilesState, files_code, files_of, stored_over};

    ghost Value = { FilesState };

    ghost coded = { files_code };

    ghost view = { λ s. record {
      files = stored_over (files_of s.files.items) (string_bytes s.target) s.stored s.room.held;
      target = string_bytes s.target;
      room = s.room.size;
      most = s.most;
      failing = s.failing.items;
      calls = s.calls;
      load_faults = s.load_faults;
      store_faults = s.store_faults;
      bytes_read = s.bytes_read;
      stores = s.stores;
    } };

    ghost invariant = { λ s. 1 ≤ s.most };
}

impl MemFiles {
    /// Files in memory, whose bytes are read in parts and stored at most `most` at a time. Only `target` may be stored, with at most
    /// `room` bytes. `failing` lists the calls that fail: loads, of whole files or of parts, and stores are counted together, from 1.
    /// The memory for `target` is allocated here.
    ///
    /// # Errors
    /// `AllocError` if memory is out, and for no other cause.
    pub fn new(
        alloc: Global,
        files: Vec<NamedFile>,
        target: &str,
        room: usize,
        most: usize,
        failing: Vec<u64>,
    ) -> Result<MemFiles, AllocError>
        requires { 1 ≤ most }
        ensures { IfOk result (λ all. all ≡ record { files = files_of files.items; target = target.now; room = room; most = most; failing = failing.items; calls = 0; load_faults = 0; store_faults = 0; bytes_read = 0; stores = 0 }) }
    {
        Ok(MemFiles {
            files,
            target: String::from_str(alloc, target)?,
            room: Room::new(alloc, room, most)?,
            stored: false,
            most,
            failing,
            calls: 0,
            load_faults: 0,
            store_faults: 0,
            bytes_read: 0,
            stores: 0,
        })
    }

    /// The bytes of a file, if there is one of that name.
    pub fn bytes_of(&self, name: &str) -> Option<&[u8]>
        ensures { option_copied result ≡ get self.now.files name.now }
    {
        if self.stored && name == self.target.as_str() {
            return Some(self.room.bytes());
        }
        find_file(&self.files, name)
    }

    // The bytes of a file for the call that was counted last, if there is one of that name and the call is none of those that
    // fail.
    fn file_to_load(&self, name: &str) -> Option<&[u8]>
        ensures none { (option_copied result ≡ None) ↔ (Contains self.now.failing self.now.calls ⊎ (get self.now.files name.now ≡ None)) }
        ensures found { (bytes : List ℕ) → option_copied result ≡ Some bytes → get self.now.files name.now ≡ Some bytes }
    {
        if is_listed(&self.failing, self.calls) {
            return None;
        }
        self.bytes_of(name)
    }

    // Counts bytes that were read.
    fn count_bytes(&mut self, count: usize)
        ensures { self.new ≡ record self.old { bytes_read = counted_by self.old.bytes_read count } }
    {
        self.bytes_read = self.bytes_read.saturating_add(count as u64);
    }

    // Stores the content under the name that may be stored, as far as there is room.
    fn replace<C: Content>(&mut self, name: &str, content: C) -> Result<(), StoreFault>
        ensures never_falls { self.old.store_faults ≤ self.new.store_faults }

        ensures fails { IsErrOf result (StoreFault.Failed false 0) ↔ StoreFails self.old name.now }
        ensures short { IsErrOf result (StoreFault.Failed true self.old.room) → self.old.room < length (C.bytes content) }
        ensures fits { OnOk result (length (C.bytes content) ≤ self.old.room) }
        ensures err { IfErr result (λ fault. (fault ≡ StoreFault.Failed false 0) ⊎ (fault ≡ StoreFault.Failed true self.old.room)) }
        ensures after { OnOk result (self.new ≡ after_store self.old (C.bytes content)) }
        ensures after_part { IsErrOf result (StoreFault.Failed true self.old.room) → self.new ≡ after_part_store self.old (C.bytes content) }
        ensures after_failed { IsErrOf result (StoreFault.Failed false 0) → self.new ≡ after_failed_store self.old }
    {
        self.calls = self.calls.saturating_add(1);
        self.stores = self.stores.saturating_add(1);
        if is_listed(&self.failing, self.calls) || name != self.target.as_str() {
            self.store_faults = self.store_faults.saturating_add(1);
            return Err(StoreFault::Failed {
                opened: false,
                written: 0,
            });
        }
        self.stored = true;
        if self.room.fill(content) {
            return Ok(());
        }
        self.store_faults = self.store_faults.saturating_add(1);
        Err(StoreFault::Failed {
            opened: true,
            written: self.room.size(),
        })
    }
}

impl Files for MemFiles {
    ghost contents = { λ s. Some s.files };

    ghost steady = { λ s. nat_eq (length s.failing) 0 };

    ghost load_faults = { λ s. s.load_faults };

    ghost store_faults = { λ s. s.store_faults };

    ghost bytes_read = { λ s. s.bytes_read };

    ghost stores = { λ s. s.stores };

    fn load(&mut self, alloc: Global, name: &str, limit: usize) -> Result<Vec<u8>, TakeFault>
        requires { limit < 2 ^ 32 }
        ensures never_falls { self.old.load_faults ≤ self.new.load_faults }
        ensures bytes_never_fall { self.old.bytes_read ≤ self.new.bytes_read }

        ensures fails { IsErrOf result TakeFault.Failed ↔ LoadFails self.old name.now }
        ensures too_long { IsErrOf result TakeFault.TooLong → IsSomeAnd (get self.old.files name.now) (λ bytes. limit < length bytes) }
        ensures bytes { IfOk result (λ bytes. get self.old.files name.now ≡ Some bytes.items) }
        ensures within { IfOk result (λ bytes. vec_len bytes ≤ limit) }
        ensures after { IfOk result (λ bytes. self.new ≡ after_load self.old (vec_len bytes)) }
        ensures after_too_long { IsErrOf result TakeFault.TooLong → self.new ≡ after_load self.old (limit + 1) }
        ensures after_memory { (e : AllocError) → IsErrOf result (TakeFault.Memory e) → self.new ≡ after_refused_load self.old }
        ensures after_failed { IsErrOf result TakeFault.Failed → self.new ≡ after_failed_load self.old }
    {
        self.calls = self.calls.saturating_add(1);
        match copied(alloc, self.file_to_load(name), limit) {
            Ok(bytes) => {
                self.count_bytes(bytes.len());
                Ok(bytes)
            }
            Err(TakeFault::TooLong) => {
                self.count_bytes(limit + 1);
                Err(TakeFault::TooLong)
            }
            Err(TakeFault::Failed) => {
                self.load_faults = self.load_faults.saturating_add(1);
                Err(TakeFault::Failed)
            }
            Err(TakeFault::Memory(e)) => Err(TakeFault::Memory(e)),
        }
    }

    fn read_at(&mut self, name: &str, at: u64, into: &mut [u8]) -> Result<usize, Failed>
        ensures bytes { IfOk result (λ n. HasPart (Some self.old.files) name.now at (take n into.new)) }
        ensures end { IfOk result (λ n. n ≡ 0 → 0 < length into.new → EndsBefore (Some self.old.files) name.now at) }
        ensures never_falls { self.old.load_faults ≤ self.new.load_faults }
        ensures bytes_never_fall { self.old.bytes_read ≤ self.new.bytes_read }

        ensures fails { IsErr result ↔ LoadFails self.old name.now }
        ensures size { IfOk result (λ n. IsSomeAnd (get self.old.files name.now) (λ all. n ≡ part_size self.old all at (length into.new))) }
        ensures front { IfOk result (λ n. IsSomeAnd (get self.old.files name.now) (λ all. take n into.new ≡ take n (drop at all))) }
        ensures after { IfOk result (λ n. self.new ≡ after_load self.old n) }
        ensures after_failed { OnErr result (self.new ≡ after_failed_load self.old) }
    {
        self.calls = self.calls.saturating_add(1);
        match self.file_to_load(name) {
            Some(bytes) => {
                let count = copy_front(from_place(bytes, at), self.most, into);
                self.count_bytes(count);
                Ok(count)
            }
            None => {
                self.load_faults = self.load_faults.saturating_add(1);
                Err(Failed)
            }
        }
    }

    fn store(&mut self, name: &str, bytes: &[u8]) -> Result<(), StoreFault>
        ensures never_falls { self.old.store_faults ≤ self.new.store_faults }

        ensures fails { IsErrOf result (StoreFault.Failed false 0) ↔ StoreFails self.old name.now }
        ensures short { IsErrOf result (StoreFault.Failed true self.old.room) → self.old.room < length bytes.now }
        ensures fits { OnOk result (length bytes.now ≤ self.old.room) }
        ensures err { IfErr result (λ fault. (fault ≡ StoreFault.Failed false 0) ⊎ (fault ≡ StoreFault.Failed true self.old.room)) }
        ensures after { OnOk result (self.new ≡ after_store self.old bytes.now) }
        ensures after_part { IsErrOf result (StoreFault.Failed true self.old.room) → self.new ≡ after_part_store self.old bytes.now }
        ensures after_failed { IsErrOf result (StoreFault.Failed false 0) → self.new ≡ after_failed_store self.old }
    {
        self.replace(name, bytes)
    }

    fn store_content<C: Content>(
        &mut self,
        _alloc: Global,
        name: &str,
        content: C,
    ) -> Result<(), ContentFault>
        ensures never_falls { self.old.store_faults ≤ self.new.store_faults }

        ensures fails { IsErrOf result (ContentFault.Store (StoreFault.Failed false 0)) ↔ StoreFails self.old name.now }
        ensures short { IsErrOf result (ContentFault.Store (StoreFault.Failed true self.old.room)) → self.old.room < length (C.bytes content) }
        ensures fits { OnOk result (length (C.bytes content) ≤ self.old.room) }
        ensures err { IfErr result (λ fault. (fault ≡ ContentFault.Store (StoreFault.Failed false 0)) ⊎ (fault ≡ ContentFault.Store (StoreFault.Failed true self.old.room))) }
        ensures after { OnOk result (self.new ≡ after_store self.old (C.bytes content)) }
        ensures after_part { IsErrOf result (ContentFault.Store (StoreFault.Failed true self.old.room)) → self.new ≡ after_part_store self.old (C.bytes content) }
        ensures after_failed { IsErrOf result (ContentFault.Store (StoreFault.Failed false 0)) → self.new ≡ after_failed_store self.old }
    {
        match self.replace(name, content) {
            Ok(()) => Ok(()),
            Err(fault) => Err(ContentFault::Store(fault)),
        }
    }
}

// The bytes of the first file of that name.
fn find_file<'a>(files: &'a [NamedFile], name: &str) -> Option<&'a [u8]>
    ensures { option_copied result ≡ find (slice_cmp nat_cmp) name.now (map entry_of files.now) }
{
    for file in files {
        if name == file.name.as_str() {
            return Some(&file.bytes);
        }
    }
    None
}

// The bytes of a file that is there and has at most `limit` bytes.
fn within(file: Option<&[u8]>, limit: usize) -> Result<&[u8], TakeFault>
    ensures failed { IsErrOf result TakeFault.Failed ↔ (option_copied file.entry ≡ None) }
    ensures too_long { IsErrOf result TakeFault.TooLong → IsSomeAnd (option_copied file.entry) (λ bytes. limit < length bytes) }
    ensures bytes { IfOk result (λ bytes. option_copied file.entry ≡ Some bytes.now) }
    ensures within { IfOk result (λ bytes. length bytes.now ≤ limit) }
    ensures fault { IfErr result (λ fault. (fault ≡ TakeFault.Failed) ⊎ (fault ≡ TakeFault.TooLong)) }
{
    match file {
        None => Err(TakeFault::Failed),
        Some(bytes) if bytes.len() > limit => Err(TakeFault::TooLong),
        Some(bytes) => Ok(bytes),
    }
}

// A copy of a file that is there and has at most `limit` bytes.
fn copied(alloc: Global, file: Option<&[u8]>, limit: usize) -> Result<Vec<u8>, TakeFault>
    ensures failed { IsErrOf result TakeFault.Failed ↔ (option_copied file.entry ≡ None) }
    ensures too_long { IsErrOf result TakeFault.TooLong → IsSomeAnd (option_copied file.entry) (λ bytes. limit < length bytes) }
    ensures bytes { IfOk result (λ copy. option_copied file.entry ≡ Some copy.items) }
    ensures within { IfOk result (λ copy. vec_len copy ≤ limit) }
{
    match within(file, limit) {
        Ok(bytes) => Ok(bytes.to_vec(alloc)?),
        Err(fault) => Err(fault),
    }
}

// The bytes from a place on, and none past the end.
fn from_place(bytes: &[u8], at: u64) -> &[u8]
    ensures { result.now ≡ drop at bytes.now }
{
    &bytes[bytes.len().min(at as usize)..]
}
