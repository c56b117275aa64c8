// The file of the system that was read last, which stays open.
ghost use Rattle.std.specs.Prelude.{◌≡◌, ◌↔◌, ◌+◌, ◌<◌, ◌≤◌, ◌^◌, ℕ, List, None, Some, length, take, IfNone, IfOk, IfSome, IsErr, IsOkAnd, IsSome, IsTrue, OnErr, OnOk};
ghost use Rattle.ice_io.specs.DirFiles.{WereRead};
ghost use Rattle.ice_io.specs.KeptFile.{IsKept};
ghost use Rattle.ice_io.specs.Real.{FailsOver, StandsAt, read_faults, reader_of};

use crate::pieces::copy_front;
use crate::real::StdSource;
use crate::source::{Failed, Source};
use std::io::{Read, Seek, SeekFrom};
use std::{fs, io, rt};

/// The most bytes of a name that the system opens.
const NAME_ROOM: usize = 4_095;

/// The file that was read last, with its name and the place that was reached. Reading on from there goes on in it.
#[derive(Drop)]
pub(crate) struct KeptFile<F: Read + Drop> {
    file: Option<StdSource<F>>,
    name: [u8; NAME_ROOM],
    name_len: usize,
    // None past the last place that there is.
    place: Option<u64>,
    ghost within: { name_len ≤ length name },
}

impl<F: Read + Drop> KeptFile<F> {
    /// No file is open.
    pub(crate) fn new() -> KeptFile<F>
        ensures { result.file ≡ None }
    {
        KeptFile {
            file: None,
            name: [0; NAME_ROOM],
            name_len: 0,
            place: None,
        }
    }

    /// Closes the file.
    pub(crate) fn close(&mut self)
        ensures { self.new.file ≡ None }
    {
        self.file = None;
    }

    // Whether a file is open that was opened by this name, and that place was reached in it.
    fn stands_at(&self, name: &str, place: u64) -> bool
        ensures { IsTrue result ↔ IsKept self.now.file (take self.now.name_len self.now.name) self.now.place name.now place }
    {
        self.file.is_some()
            && self.place == Some(place)
            && &self.name[..self.name_len] == name.as_bytes()
    }

    // Keeps a file, with its name and the place that was reached in it. If the name doesn't fit, no place in it is known.
    fn keep(&mut self, file: StdSource<F>, name: &str, place: u64)
        ensures open { self.new.file ≡ Some file }
        ensures kept { length name.now ≤ 4095 → IsKept self.new.file (take self.new.name_len self.new.name) self.new.place name.now place }
        ensures long { 4095 < length name.now → self.new.place ≡ None }
    {
        let fits = name.len() <= self.name.len();
        self.name_len = copy_front(name.as_bytes(), NAME_ROOM, &mut self.name);
        self.place = if fits { Some(place) } else { None };
        self.file = Some(file);
    }

    // Reads on in the file that is open. At its end it is closed, and after a read that failed no place in it is known.
    fn read_on(&mut self, into: &mut [u8]) -> Result<usize, Failed>
        ensures count { IfOk result (λ n. n ≤ length into.new) }
        ensures read { IfOk result (WereRead F.remaining into.new) }
        ensures kept { (name : List ℕ) (at : ℕ) → IsKept self.old.file (take self.old.name_len self.old.name) self.old.place name at
            → IfOk result (λ n. 0 < n → at + n < 2 ^ 64 → IsKept self.new.file (take self.new.name_len self.new.name) self.new.place name (at + n)) }
        ensures end { IfOk result (λ n. n ≡ 0 → 0 < length into.new → self.new.file ≡ None) }
        ensures unknown { self.old.place ≡ None → self.new.place ≡ None }
        ensures failed { OnErr result (FailsOver read_faults self.old.file self.new.file) }
    {
        let Ok(count) = read_open(&mut self.file, into) else {
            self.place = None;
            return Err(Failed);
        };
        if count == 0 && !into.is_empty() {
            self.file = None;
        }
        self.place = self.place.and_then(|place| place.checked_add(count as u64));
        Ok(count)
    }
}

// One read of a file, if one is open.
fn read_open<F: Read>(file: &mut Option<StdSource<F>>, into: &mut [u8]) -> Result<usize, Failed>
    ensures count { IfOk result (λ n. n ≤ length into.new) }
    ensures read { IfOk result (WereRead F.remaining into.new) }
    ensures kept { OnOk result (IsSome file.new) }
    ensures failed { OnErr result (FailsOver read_faults file.old file.new) }
{
    match file {
        Some(source) => source.read(into),
        None => Err(Failed),
    }
}

/// Reads bytes of a file from a place on: of the file that is kept, if it was read up to there, and else of one that is opened
/// anew. At its end the file is closed.
pub(crate) fn read_part<R: rt::Files>(
    rt: &R,
    kept: &mut KeptFile<R::File>,
    name: &str,
    at: u64,
    into: &mut [u8],
) -> Result<usize, Failed>
    ensures count { IfOk result (λ n. n ≤ length into.new) }
    ensures read { IfOk result (WereRead R.File.remaining into.new) }
    ensures kept { IfOk result (λ n. 0 < n → length name.now ≤ 4095 → at + n < 2 ^ 64 → IsKept kept.new.file (take kept.new.name_len kept.new.name) kept.new.place name.now (at + n)) }
    ensures long { 4095 < length name.now → OnOk result (kept.new.place ≡ None) }
    ensures end { IfOk result (λ n. n ≡ 0 → 0 < length into.new → kept.new.file ≡ None) }
    // A read fails where the file that is kept fails, and, if none is kept for this place, where one can't be opened or fails.
    ensures failed { OnErr result (IsKept kept.old.file (take kept.old.name_len kept.old.name) kept.old.place name.now at → FailsOver read_faults kept.old.file kept.new.file) }
    ensures fault { OnErr result (IfSome kept.new.file (λ file. 0 < read_faults file)) }
{
    if !kept.stands_at(name, at) {
        kept.close();
        let Some(file) = opened_at(fs::open(rt, name), at) else {
            return Err(Failed);
        };
        kept.keep(file, name, at);
    }
    kept.read_on(into)
}

/// A source over a file, to be read from a place on, if it was opened.
pub(crate) fn opened_at<F: Read + Seek + Drop>(
    opened: io::Result<F>,
    at: u64,
) -> Option<StdSource<F>>
    ensures stands { IfSome result (λ source. (read_faults source ≡ 0) × IsOkAnd opened (λ file. StandsAt F.stream_position file (reader_of source) at)) }
    ensures none { IfNone result (at ≡ 0 → IsErr opened) }
{
    let Ok(mut file) = opened else {
        return None;
    };
    if at > 0 && file.seek(SeekFrom::Start(at)).is_err() {
        return None;
    }
    Some(StdSource::new(file))
}
