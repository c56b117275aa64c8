// Texts that are written to a sink piece by piece.
ghost use Rattle.std.specs.Prelude.{◌+◌, ◌<◌, ◌≤◌, ◌^◌, length, OnErr};
ghost use Rattle.ice_io.specs.Faults.{Rose};
ghost use Rattle.ice_io.specs.Put.{Sends};

use ice_io::{PutFault, Sink, write_whole};

/// Writes a piece of a text after its first `sent` bytes, and returns how many bytes of it are written then.
pub fn write_piece<K: Sink>(sink: &mut K, piece: &[u8], sent: usize) -> Result<usize, PutFault>
    requires { sent + length piece.now < 2 ^ 64 }
    ensures sends { Sends (K.held sink.old) (K.held sink.new) sent piece.now result }
    ensures never_falls { K.faults sink.old ≤ K.faults sink.new }
    ensures failed { OnErr result (Rose (K.faults sink.old) (K.faults sink.new)) }
{
    match write_whole(sink, piece) {
        Ok(()) => Ok(sent + piece.len()),
        Err(PutFault::Failed { written }) => Err(PutFault::Failed {
            written: sent + written,
        }),
    }
}
