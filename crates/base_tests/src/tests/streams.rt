// Streams that are interrupted, that fail, or that take nothing.

use ice_io::{Failed, PutFault, Sink, Source, StdSink, StdSource, write_whole};
use std::io::{Error, ErrorKind, Read, Write};

/// A reader and writer of one byte a call. It is interrupted three times before the second byte, and fails after that byte.
#[derive(Drop)]
struct Unsteady {
    calls: u8,
}

impl Unsteady {
    fn next(&mut self) -> Result<(), Error> {
        self.calls = self.calls.saturating_add(1);
        match self.calls {
            2..=4 => Err(Error::from(ErrorKind::Interrupted)),
            6 => Err(Error::from(ErrorKind::Other)),
            _ => Ok(()),
        }
    }
}

impl Read for Unsteady {
    fn read(&mut self, buf: &mut [u8]) -> Result<usize, Error> {
        self.next()?;
        if buf.is_empty() {
            return Ok(0);
        }
        buf[0] = self.calls;
        Ok(1)
    }
}

impl Write for Unsteady {
    fn write(&mut self, buf: &[u8]) -> Result<usize, Error> {
        self.next()?;
        Ok(buf.len().min(1))
    }

    fn flush(&mut self) -> Result<(), Error> {
        Ok(())
    }
}

/// The byte that a read gives, or `None` if it fails.
fn byte_of(source: &mut StdSource<Unsteady>) -> Option<u8> {
    let mut byte = [0];
    match source.read(&mut byte) {
        Ok(_) => Some(byte[0]),
        Err(Failed) => None,
    }
}

#[test]
fn an_interrupted_read_is_tried_again(rt: HostRuntime) {
    let mut source = StdSource::new(Unsteady { calls: 0 });
    for want in [Some(1), Some(5), None, Some(7)] {
        assert!(rt; byte_of(&mut source) == want);
    }
}

#[test]
fn an_interrupted_write_is_tried_again(rt: HostRuntime) {
    let mut sink = StdSink::new(Unsteady { calls: 0 });
    for want in [Err(PutFault::Failed { written: 2 }), Ok(())] {
        assert!(rt; write_whole(&mut sink, b"abc") == want);
    }
}

/// A writer that takes nothing.
#[derive(Drop)]
struct Stuck;

impl Write for Stuck {
    fn write(&mut self, _buf: &[u8]) -> Result<usize, Error> {
        Ok(0)
    }

    fn flush(&mut self) -> Result<(), Error> {
        Ok(())
    }
}

#[test]
fn a_writer_that_takes_nothing_has_failed(rt: HostRuntime) {
    let mut sink = StdSink::new(Stuck);
    assert!(rt; sink.write(b"abc") == Err(Failed));
    assert!(rt; write_whole(&mut sink, b"abc") == Err(PutFault::Failed { written: 0 }));
}
