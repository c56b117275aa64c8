// Bytes that are made while they are written.
ghost use Rattle.std.specs.Prelude.{◌<◌, ◌≤◌, ℕ, List, length, take, OnOk, OnErr};
ghost use Rattle.std.specs.Io.KnownBytes.{Appends};
ghost use Rattle.ice_io.specs.Faults.{Rose};
ghost use Rattle.ice_io.specs.Put.{ForWritten};

use crate::sink::{PutFault, Sink, write_whole};

/// Bytes that are made while they are written, so that they don't lie in memory all at once.
pub trait Content: Drop {
    /// The bytes.
    ghost bytes: { Self → List ℕ };

    /// Writes all the bytes, in as many writes as it takes. It allocates nothing.
    fn write_to<K: Sink>(self, sink: &mut K) -> Result<(), PutFault>
        ensures whole { OnOk result (Appends (K.held sink.old) (K.held sink.new) (bytes self)) }
        ensures part { ForWritten result (λ written. Appends (K.held sink.old) (K.held sink.new) (take written (bytes self))) }
        ensures short { ForWritten result (λ written. written < length (bytes self)) }
        ensures never_falls { K.faults sink.old ≤ K.faults sink.new }
        ensures failed { OnErr result (Rose (K.faults sink.old) (K.faults sink.new)) };
}

/// Bytes in memory.
impl Content for Vec<u8> {
    ghost bytes = { λ content. content.items };

    fn write_to<K: Sink>(self, sink: &mut K) -> Result<(), PutFault> {
        write_whole(sink, &self)
    }
}

/// Bytes in memory that someone else owns.
impl Content for &[u8] {
    ghost bytes = { λ content. content.now };

    fn write_to<K: Sink>(self, sink: &mut K) -> Result<(), PutFault> {
        write_whole(sink, self)
    }
}
