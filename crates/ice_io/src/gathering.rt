// Content that is made whole in memory.
ghost use Rattle.std.specs.Prelude.{◌≡◌, ◌+◌, ◌<◌, ◌≤◌, length, Some, IfOk, OnErr};
ghost use Rattle.std.specs.Io.KnownBytes.{WriteAppends};
ghost use Rattle.ice_io.specs.Faults.{Rose};

use crate::content::Content;
use crate::sink::Sink;
use crate::source::Failed;
use std::alloc::{AllocError, Global};

/// A sink over memory that grows. A write fails only if memory is out.
#[derive(Drop)]
struct Gathering {
    bytes: Vec<u8>,
    faults: u64,
}

impl Sink for Gathering {
    ghost held = { λ gathering. Some gathering.bytes.items };

    ghost faults = { λ gathering. gathering.faults };

    fn write(&mut self, piece: &[u8]) -> Result<usize, Failed> {
        match self.bytes.extend_from_slice(piece) {
            Ok(()) => Ok(piece.len()),
            Err(_) => {
                self.faults = self.faults.saturating_add(1);
                Err(Failed)
            }
        }
    }
}

/// All bytes of the content.
pub(crate) fn gathered<C: Content>(alloc: Global, content: C) -> Result<Vec<u8>, AllocError>
    ensures { IfOk result (λ bytes. bytes.items ≡ C.bytes content) }
{
    let mut gathering = Gathering {
        bytes: Vec::new(alloc),
        faults: 0,
    };
    match content.write_to(&mut gathering) {
        Ok(()) => Ok(gathering.bytes),
        Err(_) => Err(AllocError),
    }
}
