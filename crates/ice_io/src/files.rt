// Files, loaded whole or read in parts, and stored.
ghost use Rattle.std.specs.Prelude.{◌≡◌, ◌+◌, ◌<◌, ◌≤◌, ◌^◌, ℕ, List, Bool, Option, length, take, vec_len, IfOk, IfErr, OnOk, OnErr, IsErrOf, IsTrue};
ghost use Rattle.ice_io.specs.Faults.{Rose, RoseBy, counted};
ghost use Rattle.ice_io.specs.Files.{CountsStore, EndsBefore, FileMap, HasFile, HasMore, HasPart, LacksFile, LeavesContent, LeavesPart, TakesFrontOf, stores_after, with_file};
ghost use Rattle.ice_io.specs.Takers.{TakesMore};

use crate::content::Content;
use crate::gathering::gathered;
use crate::source::{Failed, TakeFault};
use crate::taker::{Taker, piece_room};
use std::alloc::{AllocError, Global};

/// Why a file could not be stored.
#[derive(Clone, Copy, Debug, PartialEq, Eq)]
pub enum StoreFault {
    /// The file could not be opened for writing, or a write failed after `written` bytes had been written.
    Failed { opened: bool, written: usize },
}

/// Why content could not be stored.
#[derive(Clone, Copy, Debug, PartialEq, Eq)]
pub enum ContentFault {
    /// The file could not be stored.
    Store(StoreFault),
    /// There was no memory for the content, and nothing was stored.
    Memory(AllocError),
}

/// Files by name, loaded whole or read in parts, and stored.
pub trait Files {
    /// The bytes of each name, if they are known.
    ghost contents: { Self → Option FileMap };

    /// Whether a load of a known name never fails.
    ghost steady: { Self → Bool };

    /// How many loads have failed, of whole files or of parts. It never falls, and stays at `u64::MAX`.
    ghost load_faults: { Self → ℕ };

    /// How many stores have failed. It never falls, and stays at `u64::MAX`.
    ghost store_faults: { Self → ℕ };

    /// How many bytes were given by loads and by reads of parts. A load that passes its limit counts the limit and one. It never falls,
    /// and stays at `u64::MAX`.
    ghost bytes_read: { Self → ℕ };

    /// How many stores were begun, whether they succeeded or failed. It never falls, and stays at `u64::MAX`.
    ghost stores: { Self → ℕ };

    /// All bytes of a file, if there are at most `limit`.
    fn load(&mut self, alloc: Global, name: &str, limit: usize) -> Result<Vec<u8>, TakeFault>
        requires { limit < 2 ^ 32 }

        ensures bytes { IfOk result (λ bytes. HasFile (contents self.old) name.now bytes.items) }
        ensures within { IfOk result (λ bytes. vec_len bytes ≤ limit) }
        ensures too_long { IsErrOf result TakeFault.TooLong → HasMore (contents self.old) name.now limit }
        ensures read { IfOk result (λ bytes. RoseBy (vec_len bytes) (bytes_read self.old) (bytes_read self.new)) }
        ensures read_past { IsErrOf result TakeFault.TooLong → RoseBy (limit + 1) (bytes_read self.old) (bytes_read self.new) }
        ensures bytes_never_fall { bytes_read self.old ≤ bytes_read self.new }
        ensures lacks { IsErrOf result TakeFault.Failed → IsTrue (steady self.old) → LacksFile (contents self.old) name.now }
        ensures failed { IsErrOf result TakeFault.Failed → Rose (load_faults self.old) (load_faults self.new) }

        ensures same_contents { contents self.new ≡ contents self.old }
        ensures same_steady { steady self.new ≡ steady self.old }
        ensures never_falls { load_faults self.old ≤ load_faults self.new }
        ensures same_stores { stores self.new ≡ stores self.old }
        ensures same_store_faults { store_faults self.new ≡ store_faults self.old };

    /// Reads bytes of a file from the place `at` on into the front of the buffer, and returns how many. It returns 0 only if
    /// the file has no byte from there on, or for an empty buffer. It allocates nothing.
    fn read_at(&mut self, name: &str, at: u64, into: &mut [u8]) -> Result<usize, Failed>
        ensures count { IfOk result (λ n. n ≤ length into.new) }
        ensures bytes { IfOk result (λ n. HasPart (contents self.old) name.now at (take n into.new)) }
        ensures end { IfOk result (λ n. n ≡ 0 → 0 < length into.new → EndsBefore (contents self.old) name.now at) }
        ensures read { IfOk result (λ n. RoseBy n (bytes_read self.old) (bytes_read self.new)) }
        ensures unread { OnErr result (bytes_read self.new ≡ bytes_read self.old) }
        ensures bytes_never_fall { bytes_read self.old ≤ bytes_read self.new }
        ensures lacks { OnErr result (IsTrue (steady self.old) → LacksFile (contents self.old) name.now) }
        ensures failed { OnErr result (Rose (load_faults self.old) (load_faults self.new)) }

        ensures same_contents { contents self.new ≡ contents self.old }
        ensures same_steady { steady self.new ≡ steady self.old }
        ensures never_falls { load_faults self.old ≤ load_faults self.new }
        ensures same_stores { stores self.new ≡ stores self.old }
        ensures same_store_faults { store_faults self.new ≡ store_faults self.old };

    /// Creates the file or replaces it, with these bytes. If a write fails, the file has the bytes written before it. If the
    /// file can't be opened, all files stay as they were.
    fn store(&mut self, name: &str, bytes: &[u8]) -> Result<(), StoreFault>
        ensures whole { OnOk result (contents self.new ≡ with_file (contents self.old) name.now bytes.now) }
        ensures part { IfErr result (LeavesPart (contents self.old) (contents self.new) name.now bytes.now) }
        ensures begun { stores self.new ≡ counted (stores self.old) }
        ensures failed { OnErr result (Rose (store_faults self.old) (store_faults self.new)) }

        ensures same_steady { steady self.new ≡ steady self.old }
        ensures never_falls { store_faults self.old ≤ store_faults self.new }
        ensures same_bytes_read { bytes_read self.new ≡ bytes_read self.old }
        ensures same_load_faults { load_faults self.new ≡ load_faults self.old };

    /// Creates the file or replaces it, as `store` does, with bytes that are made while they are written. If an impl leaves
    /// this out, all bytes are made before the first is stored.
    fn store_content<C: Content>(
        &mut self,
        alloc: Global,
        name: &str,
        content: C,
    ) -> Result<(), ContentFault>
        ensures whole { OnOk result (contents self.new ≡ with_file (contents self.old) name.now (C.bytes content)) }
        ensures part { IfErr result (LeavesContent (contents self.old) (contents self.new) name.now (C.bytes content)) }
        ensures begun { stores self.new ≡ stores_after (stores self.old) result }
        ensures failed { IfErr result (CountsStore (store_faults self.old) (store_faults self.new)) }

        ensures same_steady { steady self.new ≡ steady self.old }
        ensures never_falls { store_faults self.old ≤ store_faults self.new }
        ensures same_bytes_read { bytes_read self.new ≡ bytes_read self.old }
        ensures same_load_faults { load_faults self.new ≡ load_faults self.old }
    {
        match gathered(alloc, content) {
            Ok(bytes) => match self.store(name, &bytes) {
                Ok(()) => Ok(()),
                Err(fault) => Err(ContentFault::Store(fault)),
            },
            Err(e) => Err(ContentFault::Memory(e)),
        }
    }
}

/// Gives all bytes of a file to a taker, in pieces of at most 65,536 bytes, if there are at most `limit`. A taker that was given
/// some bytes before a refusal has taken the first of the file.
///
/// # Errors
/// `TooLong` after `limit + 1` bytes were read, `Failed` if a read failed, and `Memory` if memory is out.
pub fn load_into<F: Files, T: Taker>(
    alloc: Global,
    files: &mut F,
    name: &str,
    limit: usize,
    taker: &mut T,
) -> Result<(), TakeFault>
    requires limit { limit < 2 ^ 32 }
    requires none { T.fed taker.old ≡ 0 }

    ensures bytes { OnOk result ((bytes : List ℕ) × HasFile (F.contents files.old) name.now bytes
        × (length bytes ≤ limit) × TakesMore T.has_taken taker.old taker.new bytes) }
    ensures part { OnErr result (TakesFrontOf (F.contents files.old) name.now T.has_taken taker.old taker.new) }
    ensures too_long { IsErrOf result TakeFault.TooLong → HasMore (F.contents files.old) name.now limit }
    ensures read { OnOk result ((bytes : List ℕ) × HasFile (F.contents files.old) name.now bytes
        × TakesMore T.has_taken taker.old taker.new bytes × RoseBy (length bytes) (F.bytes_read files.old) (F.bytes_read files.new)) }
    ensures read_past { IsErrOf result TakeFault.TooLong → RoseBy (limit + 1) (F.bytes_read files.old) (F.bytes_read files.new) }
    ensures bytes_never_fall { F.bytes_read files.old ≤ F.bytes_read files.new }
    ensures lacks { IsErrOf result TakeFault.Failed → IsTrue (F.steady files.old) → LacksFile (F.contents files.old) name.now }
    ensures failed { IsErrOf result TakeFault.Failed → Rose (F.load_faults files.old) (F.load_faults files.new) }

    ensures same_contents { F.contents files.new ≡ F.contents files.old }
    ensures same_steady { F.steady files.new ≡ F.steady files.old }
    ensures never_falls { F.load_faults files.old ≤ F.load_faults files.new }
    ensures same_stores { F.stores files.new ≡ F.stores files.old }
    ensures same_store_faults { F.store_faults files.new ≡ F.store_faults files.old }
{
    let mut buffer = piece_room(alloc, limit)?;
    let mut taken = 0;
    loop {
        let room = buffer.len().min(limit + 1 - taken);
        let piece = &mut buffer[..room];
        let count = files.read_at(name, taken as u64, piece)?;
        if count == 0 {
            return Ok(());
        }
        if taken + count > limit {
            return Err(TakeFault::TooLong);
        }
        taker.take(&piece[..count]);
        taken += count;
    }
}
