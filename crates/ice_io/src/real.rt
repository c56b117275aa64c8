// Sources and sinks over the readers and writers of the standard library. They know the bytes if those do: in memory, but
// not in a file, at a terminal or in a pipe.
ghost use Rattle.std.specs.Prelude.{◌≡◌, ◌≢◌, ◌<◌, ◌≤◌, ℕ, length, Ok, IfOk, IfErr, IfNone, IfSome, IsErr, OnOk, OnErr};
ghost use Rattle.std.specs.Fs.{metadata_len};
ghost use Rattle.std.specs.IoError.{error_kind};
ghost use Rattle.std.specs.Io.KnownBytes.{ReadConsumes, WriteAppends};
ghost use Rattle.ice_io.specs.Faults.{counted, RoseBy};
ghost use Rattle.ice_io.specs.Real.{writer_of, write_faults};

use crate::sink::Sink;
use crate::source::{Failed, Source};
use std::fs::{Metadata, OpenFile};
use std::io;
use std::io::{Error, ErrorKind, Read, Write};

/// A source over a reader. It reads again if a read is interrupted.
#[derive(Drop)]
pub struct StdSource<R: Read> {
    inner: R,
    faults: u64,
    bytes_read: u64,
}

impl<R: Read> StdSource<R> {
    ghost use Rattle.ice_io.specs.Real.{reader_of, read_faults, read_bytes};

    /// A source over this reader, with nothing counted yet.
    pub fn new(inner: R) -> StdSource<R>
        ensures reader { reader_of result ≡ inner }
        ensures faults { read_faults result ≡ 0 }
        ensures bytes_read { read_bytes result ≡ 0 }
    {
        StdSource {
            inner,
            faults: 0,
            bytes_read: 0,
        }
    }
}

impl<R: Read + OpenFile> StdSource<R> {
    // How many bytes the system says that the file has. There may be more or fewer.
    pub(crate) fn told_length(&self) -> usize {
        length_in(self.inner.metadata())
    }
}

// The length that the system gives, or 0 if it gives none.
fn length_in(told: io::Result<Metadata>) -> usize
    ensures told { IfOk told (λ metadata. result ≡ metadata_len metadata) }
    ensures untold { OnErr told (result ≡ 0) }
{
    match told {
        Ok(metadata) => metadata.len() as usize,
        Err(_) => 0,
    }
}

impl<R: Read> Source for StdSource<R> {
    ghost use Rattle.ice_io.specs.Real.{reader_of, read_faults, read_bytes};

    ghost left = { λ source. R.remaining source.inner };

    ghost faults = { λ source. source.faults };

    ghost bytes_read = { λ source. source.bytes_read };

    fn read(&mut self, into: &mut [u8]) -> Result<usize, Failed>
        ensures count { IfOk result (λ n. n ≤ length into.new) }
        ensures bytes { ReadConsumes (R.remaining (reader_of self.old)) (R.remaining (reader_of self.new)) result into.new }
        ensures read { IfOk result (λ n. RoseBy n (read_bytes self.old) (read_bytes self.new)) }
        ensures unread { OnErr result (read_bytes self.new ≡ read_bytes self.old) }
        ensures bytes_never_fall { read_bytes self.old ≤ read_bytes self.new }
        ensures never_falls { read_faults self.old ≤ read_faults self.new }

        ensures ok { OnOk result (read_faults self.new ≡ read_faults self.old) }
        ensures failed { OnErr result (read_faults self.new ≡ counted (read_faults self.old)) }
    {
        match read_once(&mut self.inner, into) {
            Ok(count) => {
                self.bytes_read = self.bytes_read.saturating_add(count as u64);
                Ok(count)
            }
            Err(_) => {
                self.faults = self.faults.saturating_add(1);
                Err(Failed)
            }
        }
    }
}

/// A sink over a writer. It writes again if a write is interrupted.
#[derive(Drop)]
pub struct StdSink<W: Write> {
    inner: W,
    faults: u64,
}

impl<W: Write> StdSink<W> {
    ghost use Rattle.ice_io.specs.Real.{writer_of, write_faults};

    /// A sink over this writer, with no failure counted yet.
    pub fn new(inner: W) -> StdSink<W>
        ensures writer { writer_of result ≡ inner }
        ensures faults { write_faults result ≡ 0 }
    {
        StdSink { inner, faults: 0 }
    }
}

impl<W: Write> Sink for StdSink<W> {
    ghost use Rattle.ice_io.specs.Real.{writer_of, write_faults};

    ghost held = { λ sink. W.contents sink.inner };

    ghost faults = { λ sink. sink.faults };

    fn write(&mut self, piece: &[u8]) -> Result<usize, Failed>
        ensures count { IfOk result (λ n. n ≤ length piece.now) }
        ensures progress { IfOk result (λ n. 0 < length piece.now → 0 < n) }
        ensures bytes { WriteAppends (W.contents (writer_of self.old)) (W.contents (writer_of self.new)) result piece.now }
        ensures never_falls { write_faults self.old ≤ write_faults self.new }

        ensures ok { OnOk result (write_faults self.new ≡ write_faults self.old) }
        ensures failed { OnErr result (write_faults self.new ≡ counted (write_faults self.old)) }
    {
        match write_once(&mut self.inner, piece) {
            Ok(count) => Ok(count),
            Err(_) => {
                self.faults = self.faults.saturating_add(1);
                Err(Failed)
            }
        }
    }
}

// A sink over a file, if it was opened.
pub(crate) fn opened_sink<W: Write + Drop>(opened: io::Result<W>) -> Option<StdSink<W>>
    ensures open { IfSome result (λ sink. (opened ≡ Ok (writer_of sink)) × (write_faults sink ≡ 0)) }
    ensures none { IfNone result (IsErr opened) }
{
    match opened {
        Ok(file) => Some(StdSink::new(file)),
        Err(_) => None,
    }
}

// One read, repeated while it is interrupted.
fn read_once<R: Read>(reader: &mut R, into: &mut [u8]) -> io::Result<usize>
    ensures count { IfOk result (λ n. n ≤ length into.new) }
    ensures bytes { ReadConsumes (R.remaining reader.old) (R.remaining reader.new) result into.new }
    ensures retried { IfErr result (λ e. error_kind e ≢ ErrorKind.Interrupted) }
{
    for _ in 0..u64::MAX {
        match reader.read(into) {
            Err(e) if e.kind() == ErrorKind::Interrupted => {}
            count => return count,
        }
    }
    Err(Error::from(ErrorKind::TimedOut))
}

// One write, repeated while it is interrupted. Writing nothing of a piece that isn't empty is a failure.
fn write_once<W: Write>(writer: &mut W, piece: &[u8]) -> io::Result<usize>
    ensures count { IfOk result (λ n. n ≤ length piece.now) }
    ensures progress { IfOk result (λ n. 0 < length piece.now → 0 < n) }
    ensures bytes { WriteAppends (W.contents writer.old) (W.contents writer.new) result piece.now }
    ensures retried { IfErr result (λ e. error_kind e ≢ ErrorKind.Interrupted) }
{
    for _ in 0..u64::MAX {
        match writer.write(piece) {
            Ok(0) if !piece.is_empty() => return Err(Error::from(ErrorKind::WriteZero)),
            Err(e) if e.kind() == ErrorKind::Interrupted => {}
            count => return count,
        }
    }
    Err(Error::from(ErrorKind::TimedOut))
}
