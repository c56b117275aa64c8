// Sources and sinks in memory. They know their bytes, and fail at the calls that were chosen.
ghost use Rattle.std.specs.Prelude.{◌≡◌, ◌⊎◌, ◌↔◌, ◌+◌, ◌++◌, ◌<◌, ◌≤◌, min, ℕ, [], Some, length, take, drop, IfOk, OnErr, IsErr, IsTrue, Contains};
ghost use Rattle.std.specs.Io.KnownBytes.{ReadConsumes, WriteAppends};
ghost use Rattle.ice_io.specs.Faults.{counted, Rose, RoseBy};
ghost use Rattle.ice_io.specs.InMemory.{ReadFails, read_size, after_read, after_failed_read, WriteFails, room_left, write_size, after_write, after_failed_write};

use crate::pieces::{copy_front, is_listed};
use crate::sink::Sink;
use crate::source::{Failed, Source};
use std::alloc::{AllocError, Global};
use std::marker::Model;

/// A source of bytes in memory. No tool of this project needs it or its calls: it is for tests, and for users of the library.
#[derive(Drop)]
pub struct MemSource {
    bytes: Vec<u8>,
    at: usize,
    most: usize,
    failing: Vec<u64>,
    calls: u64,
    faults: u64,
    bytes_read: u64,
}

impl Model for MemSource {
    ghost use Rattle.std.specs.Prelude.{◌≤◌, drop, vec_len};
    ghost use Rattle.ice_io.specs.InMemory.{SourceState};

    ghost Value = { SourceState };

    ghost view = { λ s. record { left = drop s.at s.bytes.items; most = s.most; failing = s.failing.items; calls = s.calls; faults = s.faults; bytes_read = s.bytes_read } };

    ghost invariant = { λ s. (s.at ≤ vec_len s.bytes) × (1 ≤ s.most) };
}

impl MemSource {
    /// A source of these bytes. A read gives at most `most` of them. `failing` lists the reads that fail, counted from 1.
    pub fn new(bytes: Vec<u8>, most: usize, failing: Vec<u64>) -> MemSource
        requires { 1 ≤ most }
        ensures { result ≡ record { left = bytes.items; most = most; failing = failing.items; calls = 0; faults = 0; bytes_read = 0 } }
    {
        MemSource {
            bytes,
            at: 0,
            most,
            failing,
            calls: 0,
            faults: 0,
            bytes_read: 0,
        }
    }
}

impl Source for MemSource {
    ghost left = { λ s. Some s.left };

    ghost faults = { λ s. s.faults };

    ghost bytes_read = { λ s. s.bytes_read };

    fn read(&mut self, into: &mut [u8]) -> Result<usize, Failed>
        ensures bytes { ReadConsumes (Some self.old.left) (Some self.new.left) result into.new }
        ensures read { IfOk result (λ n. RoseBy n self.old.bytes_read self.new.bytes_read) }
        ensures bytes_never_fall { self.old.bytes_read ≤ self.new.bytes_read }
        ensures never_falls { self.old.faults ≤ self.new.faults }

        ensures fails { IsErr result ↔ ReadFails self.old }
        ensures size { IfOk result (λ n. n ≡ read_size self.old (length into.new)) }
        ensures front { IfOk result (λ n. take n into.new ≡ take n self.old.left) }
        ensures after { IfOk result (λ n. self.new ≡ after_read self.old n) }
        ensures after_failed { OnErr result (self.new ≡ after_failed_read self.old) }
    {
        self.calls = self.calls.saturating_add(1);
        if is_listed(&self.failing, self.calls) {
            self.faults = self.faults.saturating_add(1);
            return Err(Failed);
        }
        let count = copy_front(&self.bytes[self.at..], self.most, into);
        self.at += count;
        self.bytes_read = self.bytes_read.saturating_add(count as u64);
        Ok(count)
    }
}

/// A sink for bytes in memory. No tool of this project needs it or its calls: it is for tests, and for users of the library.
#[derive(Drop)]
pub struct MemSink {
    bytes: Vec<u8>,
    len: usize,
    most: usize,
    failing: Vec<u64>,
    calls: u64,
    faults: u64,
}

impl Model for MemSink {
    ghost use Rattle.std.specs.Prelude.{◌≤◌, take, vec_len};
    ghost use Rattle.ice_io.specs.InMemory.{SinkState};

    ghost Value = { SinkState };

    ghost view = { λ s. record { held = take s.len s.bytes.items; room = vec_len s.bytes; most = s.most; failing = s.failing.items; calls = s.calls; faults = s.faults } };

    ghost invariant = { λ s. (s.len ≤ vec_len s.bytes) × (1 ≤ s.most) };
}

impl MemSink {
    /// A sink for at most `room` bytes in all, and at most `most` in one write. `failing` lists the writes that fail, counted
    /// from 1. All memory is allocated here.
    ///
    /// # Errors
    /// `AllocError` if memory is out, and for no other cause.
    pub fn new(
        alloc: Global,
        room: usize,
        most: usize,
        failing: Vec<u64>,
    ) -> Result<MemSink, AllocError>
        requires { 1 ≤ most }
        ensures { IfOk result (λ sink. sink ≡ record { held = []; room = room; most = most; failing = failing.items; calls = 0; faults = 0 }) }
    {
        Ok(MemSink {
            bytes: vec![in alloc; 0u8; room]?,
            len: 0,
            most,
            failing,
            calls: 0,
            faults: 0,
        })
    }

    /// The bytes written so far.
    pub fn bytes(&self) -> &[u8]
        ensures { result.now ≡ self.now.held }
    {
        &self.bytes[..self.len]
    }
}

impl Sink for MemSink {
    ghost held = { λ s. Some s.held };

    ghost faults = { λ s. s.faults };

    fn write(&mut self, piece: &[u8]) -> Result<usize, Failed>
        ensures progress { IfOk result (λ n. 0 < length piece.now → 0 < n) }
        ensures never_falls { self.old.faults ≤ self.new.faults }

        ensures fails { IsErr result ↔ (WriteFails self.old ⊎ ((room_left self.old ≡ 0) × (0 < length piece.now))) }
        ensures size { IfOk result (λ n. n ≡ write_size self.old (length piece.now)) }
        ensures after { IfOk result (λ n. self.new ≡ after_write self.old piece.now n) }
        ensures after_failed { OnErr result (self.new ≡ after_failed_write self.old) }
    {
        self.calls = self.calls.saturating_add(1);
        let is_full = self.len == self.bytes.len();
        if is_listed(&self.failing, self.calls) || is_full && !piece.is_empty() {
            self.faults = self.faults.saturating_add(1);
            return Err(Failed);
        }
        let count = copy_front(piece, self.most, &mut self.bytes[self.len..]);
        self.len += count;
        Ok(count)
    }
}
