// The memory for the one of the files in memory that may be stored.
ghost use Rattle.std.specs.Prelude.{◌≡◌, ◌↔◌, ◌-◌, ◌<◌, ◌≤◌, ◌∷◌, [], Some, length, min, take, IfOk, OnErr, IsTrue};
ghost use Rattle.std.specs.Io.KnownBytes.{WriteAppends};
ghost use Rattle.ice_io.specs.Faults.{Rose};

use crate::content::Content;
use crate::pieces::copy_front;
use crate::sink::Sink;
use crate::source::Failed;
use std::alloc::{AllocError, Global};
use std::marker::Model;

/// A sink over memory that was allocated beforehand. A write fails only if that memory is full.
#[derive(Drop)]
pub(crate) struct Room {
    bytes: Vec<u8>,
    len: usize,
    most: usize,
    faults: u64,
}

impl Model for Room {
    ghost use Rattle.std.specs.Prelude.{◌≡◌, ◌<◌, ◌≤◌, take, vec_len};
    ghost use Rattle.ice_io.specs.Room.{RoomState};

    ghost Value = { RoomState };

    ghost view = { λ s. record { held = take s.len s.bytes.items; size = vec_len s.bytes; most = s.most; faults = s.faults } };

    ghost invariant = { λ s. (s.len ≤ vec_len s.bytes) × (1 ≤ s.most) × (0 < s.faults → s.len ≡ vec_len s.bytes) };
}

impl Room {
    // Room for so many bytes, of which one write takes at most `most`.
    pub(crate) fn new(alloc: Global, size: usize, most: usize) -> Result<Room, AllocError>
        requires { 1 ≤ most }
        ensures { IfOk result (λ room. room ≡ record { held = []; size = size; most = most; faults = 0 }) }
    {
        Ok(Room {
            bytes: vec![in alloc; 0u8; size]?,
            len: 0,
            most,
            faults: 0,
        })
    }

    // How many bytes it has room for.
    pub(crate) fn size(&self) -> usize
        ensures { result ≡ self.now.size }
    {
        self.bytes.len()
    }

    // The bytes that it holds.
    pub(crate) fn bytes(&self) -> &[u8]
        ensures { result.now ≡ self.now.held }
    {
        &self.bytes[..self.len]
    }

    // Replaces what it holds by the first bytes of the content, as many as it has room for, and returns whether these are all.
    pub(crate) fn fill<C: Content>(&mut self, content: C) -> bool
        ensures size { self.new.size ≡ self.old.size }
        ensures held { self.new.held ≡ take self.old.size (C.bytes content) }
        ensures fits { IsTrue result ↔ length (C.bytes content) ≤ self.old.size }
    {
        self.len = 0;
        self.faults = 0;
        let filled = content.write_to(self);
        prove!(self.len <= self.bytes.len());
        filled.is_ok()
    }
}

impl Sink for Room {
    // No write changes the size. A caller learns this since what is held is seen after the size.
    ghost held = { λ s. Some (s.size ∷ s.held) };

    ghost faults = { λ s. s.faults };

    fn write(&mut self, piece: &[u8]) -> Result<usize, Failed>
        ensures count { IfOk result (λ n. n ≡ min self.old.most (min (length piece.now) (self.old.size - length self.old.held))) }
        ensures progress { IfOk result (λ n. 0 < length piece.now → 0 < n) }
        ensures bytes { WriteAppends (Some (self.old.size ∷ self.old.held)) (Some (self.new.size ∷ self.new.held)) result piece.now }
        ensures never_falls { self.old.faults ≤ self.new.faults }
        ensures failed { OnErr result (Rose self.old.faults self.new.faults) }
    {
        if self.len == self.bytes.len() && !piece.is_empty() {
            self.faults = self.faults.saturating_add(1);
            return Err(Failed);
        }
        let count = copy_front(piece, self.most, &mut self.bytes[self.len..]);
        self.len += count;
        Ok(count)
    }
}
