// Taking bytes piece by piece.
ghost use Rattle.std.specs.Prelude.{◌≡◌, ◌+◌, ◌<◌, ◌≤◌, ◌^◌, ℕ, List, length, min, vec_len, IfOk, OnOk, OnErr, IsErrOf};
ghost use Rattle.ice_io.specs.Faults.{Rose, RoseBy};
ghost use Rattle.ice_io.specs.Taken.{TakesAll, TakesAtMost, TakesCount};
ghost use Rattle.ice_io.specs.Takers.{TakesMore, TakesRead, TakesFront};

use crate::source::{Source, TakeFault};
use std::alloc::{AllocError, Global};

/// What takes bytes piece by piece.
pub trait Taker {
    /// What contracts see beside a taker, as the bytes that were loaded before.
    ghost Setting: { Type 0 };

    /// In a setting, a taker has taken these bytes.
    ghost has_taken: { Setting → Self → List ℕ → Type 0 };

    /// How many bytes count towards the most that it takes.
    ghost fed: { Self → ℕ };

    /// Takes the next piece, of at most 65,536 bytes.
    fn take(&mut self, piece: &[u8])
        requires few { fed self.old + length piece.now < 2 ^ 32 }
        requires short { length piece.now ≤ 65536 }
        ensures taken { TakesMore has_taken self.old self.new piece.now }
        ensures bound { fed self.new ≤ fed self.old + length piece.now };
}

/// How many bytes a piece has, at most.
const PIECE: usize = 65536;

/// Gives all bytes up to the end of the source to a taker, in pieces of at most 65,536 bytes, if there are at most `limit`.
/// A taker that was given some bytes before a refusal has taken the first of those that were read, and all of them if a read
/// failed.
///
/// # Errors
/// `TooLong` after `limit + 1` bytes were read, `Failed` if a read failed, and `Memory` if memory is out.
pub fn feed_all<S: Source, T: Taker>(
    alloc: Global,
    source: &mut S,
    limit: usize,
    taker: &mut T,
) -> Result<(), TakeFault>
    requires limit { limit < 2 ^ 32 }
    requires none { T.fed taker.old ≡ 0 }
    ensures whole { OnOk result ((bytes : List ℕ) × TakesAll (S.left source.old) (S.left source.new) bytes
        × (length bytes ≤ limit) × TakesMore T.has_taken taker.old taker.new bytes) }
    ensures too_long { IsErrOf result TakeFault.TooLong
        → TakesCount (S.left source.old) (S.left source.new) (limit + 1) }
    ensures not_too_long { (IsErrOf result TakeFault.TooLong → ⊥)
        → TakesAtMost (S.left source.old) (S.left source.new) limit }
    ensures part { OnErr result (TakesFront (S.left source.old) (S.left source.new) T.has_taken taker.old taker.new) }
    ensures given { IsErrOf result TakeFault.Failed
        → TakesRead (S.left source.old) (S.left source.new) T.has_taken taker.old taker.new }
    ensures read_past { IsErrOf result TakeFault.TooLong → RoseBy (limit + 1) (S.bytes_read source.old) (S.bytes_read source.new) }
    ensures bytes_never_fall { S.bytes_read source.old ≤ S.bytes_read source.new }
    ensures never_falls { S.faults source.old ≤ S.faults source.new }
    ensures failed { IsErrOf result TakeFault.Failed → Rose (S.faults source.old) (S.faults source.new) }
{
    let mut buffer = piece_room(alloc, limit)?;
    let mut taken = 0;
    loop {
        let room = buffer.len().min(limit + 1 - taken);
        let piece = &mut buffer[..room];
        let count = source.read(piece)?;
        if count == 0 {
            return Ok(());
        }
        if taken + count > limit {
            return Err(TakeFault::TooLong);
        }
        taker.take(&piece[..count]);
        taken += count;
    }
}

/// Room for one piece, and for no more than one byte past the limit.
pub(crate) fn piece_room(alloc: Global, limit: usize) -> Result<Vec<u8>, AllocError>
    requires { limit < 2 ^ 32 }
    ensures { IfOk result (λ room. vec_len room ≡ min 65536 (limit + 1)) }
{
    vec![in alloc; 0u8; PIECE.min(limit + 1)]
}
