// Writing bytes.
ghost use Rattle.std.specs.Prelude.{◌≡◌, ◌+◌, ◌<◌, ◌≤◌, ℕ, List, Option, length, take, IfOk, OnOk, OnErr};
ghost use Rattle.std.specs.Io.KnownBytes.{Appends, WriteAppends};
ghost use Rattle.ice_io.specs.Faults.{Rose};
ghost use Rattle.ice_io.specs.Put.{ForWritten};

use crate::source::Failed;

/// A writer of bytes, in order.
pub trait Sink {
    /// The bytes written so far, if they are known.
    ghost held: { Self → Option (List ℕ) };

    /// How many writes have failed. It never falls, and stays at `u64::MAX`.
    ghost faults: { Self → ℕ };

    /// Writes bytes from the front of the piece, at least one unless the piece is empty, and returns how many. `Failed` has
    /// written none.
    fn write(&mut self, piece: &[u8]) -> Result<usize, Failed>
        ensures count { IfOk result (λ n. n ≤ length piece.now) }
        ensures progress { IfOk result (λ n. 0 < length piece.now → 0 < n) }
        ensures bytes { WriteAppends (held self.old) (held self.new) result piece.now }
        ensures never_falls { faults self.old ≤ faults self.new }
        ensures failed { OnErr result (Rose (faults self.old) (faults self.new)) };
}

/// Why bytes could not be written.
#[derive(Clone, Copy, Debug, PartialEq, Eq)]
pub enum PutFault {
    /// A write failed, after `written` bytes had been written.
    Failed { written: usize },
}

/// Writes all the bytes, in as many writes as it takes. It allocates nothing.
///
/// # Errors
/// `Failed` if a write failed, with the count of bytes that were written before it.
pub fn write_whole<K: Sink>(sink: &mut K, bytes: &[u8]) -> Result<(), PutFault>
    ensures whole { OnOk result (Appends (K.held sink.old) (K.held sink.new) bytes.now) }
    ensures part { ForWritten result (λ written. Appends (K.held sink.old) (K.held sink.new) (take written bytes.now)) }
    ensures short { ForWritten result (λ written. written < length bytes.now) }
    ensures never_falls { K.faults sink.old ≤ K.faults sink.new }
    ensures failed { OnErr result (Rose (K.faults sink.old) (K.faults sink.new)) }
{
    let mut written = 0;
    while written < bytes.len() {
        match sink.write(&bytes[written..]) {
            Ok(count) => written += count,
            Err(Failed) => return Err(PutFault::Failed { written }),
        }
    }
    Ok(())
}
