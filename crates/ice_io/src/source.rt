// Reading bytes.
ghost use Rattle.std.specs.Prelude.{◌≡◌, ◌≢◌, ◌+◌, ◌-◌, ◌<◌, ◌≤◌, ◌^◌, ℕ, List, [], Option, length, min, vec_len, vec_capacity, take, drop, IfOk, OnOk, OnErr, IsErrOf};
ghost use Rattle.std.specs.Io.KnownBytes.{Consumes, IsAtEnd, Keeps, ReadConsumes};
ghost use Rattle.ice_io.specs.Faults.{Rose, RoseBy};
ghost use Rattle.ice_io.specs.Taken.{TakesCount, TakesAtMost, TakesAll, turn_of};

use std::alloc::{AllocError, Global};

/// A read or a write failed.
#[derive(Clone, Copy, Debug, PartialEq, Eq)]
pub struct Failed;

/// A reader of bytes, in order.
pub trait Source {
    /// The bytes not yet read, if they are known.
    ghost left: { Self → Option (List ℕ) };

    /// How many reads have failed. It never falls, and stays at `u64::MAX`.
    ghost faults: { Self → ℕ };

    /// How many bytes were read. It never falls, and stays at `u64::MAX`.
    ghost bytes_read: { Self → ℕ };

    /// Reads bytes into the front of the buffer, and returns how many. It returns 0 only at the end of the input, or for an
    /// empty buffer. `Failed` leaves the unread bytes as they were.
    fn read(&mut self, into: &mut [u8]) -> Result<usize, Failed>
        ensures count { IfOk result (λ n. n ≤ length into.new) }
        ensures bytes { ReadConsumes (left self.old) (left self.new) result into.new }
        ensures read { IfOk result (λ n. RoseBy n (bytes_read self.old) (bytes_read self.new)) }
        ensures unread { OnErr result (bytes_read self.new ≡ bytes_read self.old) }
        ensures bytes_never_fall { bytes_read self.old ≤ bytes_read self.new }
        ensures never_falls { faults self.old ≤ faults self.new }
        ensures failed { OnErr result (Rose (faults self.old) (faults self.new)) };
}

/// Why a whole input could not be read.
#[derive(Clone, Copy, Debug, PartialEq, Eq)]
pub enum TakeFault {
    /// A read failed.
    Failed,
    /// The input has more bytes than the limit.
    TooLong,
    /// Out of memory.
    Memory(AllocError),
}

impl From<AllocError> for TakeFault {
    ghost use Rattle.ice_io.specs.declared.source.TakeFault.TheVariants.{Memory};

    ghost from_gives = { λ e fault. fault ≡ Memory e };

    fn from(e: AllocError) -> Self {
        TakeFault::Memory(e)
    }
}

impl From<Failed> for TakeFault {
    ghost use Rattle.ice_io.specs.declared.source.TakeFault.TheVariants as take_fault;

    ghost from_gives = { λ _ fault. fault ≡ take_fault.Failed };

    fn from(_: Failed) -> Self {
        TakeFault::Failed
    }
}

/// For how many bytes room is made at a time, at most.
const TURN: usize = 65536;

/// Reads all bytes up to the end, if there are at most `limit`.
///
/// # Errors
/// `TooLong` after `limit + 1` bytes were read, `Failed` if a read failed, and `Memory` if memory is out.
pub fn read_all<S: Source>(
    alloc: Global,
    source: &mut S,
    limit: usize,
) -> Result<Vec<u8>, TakeFault>
    requires { limit < 2 ^ 32 }
    ensures whole { IfOk result (λ bytes. TakesAll (S.left source.old) (S.left source.new) bytes.items) }
    ensures within { IfOk result (λ bytes. vec_len bytes ≤ limit) }
    ensures too_long { IsErrOf result TakeFault.TooLong
        → TakesCount (S.left source.old) (S.left source.new) (limit + 1) }
    ensures not_too_long { (IsErrOf result TakeFault.TooLong → ⊥)
        → TakesAtMost (S.left source.old) (S.left source.new) limit }
    ensures read_past { IsErrOf result TakeFault.TooLong → RoseBy (limit + 1) (S.bytes_read source.old) (S.bytes_read source.new) }
    ensures bytes_never_fall { S.bytes_read source.old ≤ S.bytes_read source.new }
    ensures never_falls { S.faults source.old ≤ S.faults source.new }
    ensures failed { IsErrOf result TakeFault.Failed → Rose (S.faults source.old) (S.faults source.new) }
{
    read_expected(alloc, source, limit, TURN - 1)
}

/// Reads all bytes up to the end, as `read_all` does. So many are expected, and memory for them is taken at once; there may be
/// more or fewer.
pub(crate) fn read_expected<S: Source>(
    alloc: Global,
    source: &mut S,
    limit: usize,
    expected: usize,
) -> Result<Vec<u8>, TakeFault>
    requires { limit < 2 ^ 32 }
    ensures whole { IfOk result (λ bytes. TakesAll (S.left source.old) (S.left source.new) bytes.items) }
    ensures within { IfOk result (λ bytes. vec_len bytes ≤ limit) }
    ensures too_long { IsErrOf result TakeFault.TooLong
        → TakesCount (S.left source.old) (S.left source.new) (limit + 1) }
    ensures not_too_long { (IsErrOf result TakeFault.TooLong → ⊥)
        → TakesAtMost (S.left source.old) (S.left source.new) limit }
    ensures read_past { IsErrOf result TakeFault.TooLong → RoseBy (limit + 1) (S.bytes_read source.old) (S.bytes_read source.new) }
    ensures bytes_never_fall { S.bytes_read source.old ≤ S.bytes_read source.new }
    ensures never_falls { S.faults source.old ≤ S.faults source.new }
    ensures failed { IsErrOf result TakeFault.Failed → Rose (S.faults source.old) (S.faults source.new) }
{
    let mut bytes = first_room(alloc, expected, limit)?;
    let mut filled = 0;
    loop {
        make_room(&mut bytes, filled, limit)?;
        let count = read_after(source, &mut bytes, filled)?;
        if count == 0 {
            bytes.truncate(filled);
            return Ok(bytes);
        }
        filled += count;
        if filled > limit {
            return Err(TakeFault::TooLong);
        }
    }
}

// No bytes yet, with room for those that are expected and for one more, which finds the end.
fn first_room(alloc: Global, expected: usize, limit: usize) -> Result<Vec<u8>, AllocError>
    requires { limit < 2 ^ 32 }
    ensures empty { IfOk result (λ bytes. bytes.items ≡ []) }
    ensures room { IfOk result (λ bytes. vec_capacity bytes ≡ min expected limit + 1) }
{
    Vec::with_capacity(alloc, expected.min(limit) + 1)
}

// Makes room after the first bytes, if there is none: as much as there is memory for, or a turn, and none past the byte that follows the
// limit. After a refusal the bytes are as before.
fn make_room(bytes: &mut Vec<u8>, filled: usize, limit: usize) -> Result<(), AllocError>
    requires small { limit < 2 ^ 32 }
    requires below { filled ≤ limit }
    requires filled { filled ≤ vec_len bytes.old }
    requires most { vec_len bytes.old ≤ limit + 1 }
    ensures room { OnOk result (filled < vec_len bytes.new) }
    ensures most { vec_len bytes.new ≤ limit + 1 }
    ensures turn { OnOk result (filled ≡ vec_len bytes.old
        → vec_len bytes.new ≡ filled + min (turn_of (vec_capacity bytes.old - filled)) (limit + 1 - filled)) }
    ensures same { filled < vec_len bytes.old → bytes.new ≡ bytes.old }
    ensures kept { take filled bytes.new.items ≡ take filled bytes.old.items }
    ensures refused { OnErr result (bytes.new.items ≡ bytes.old.items) }
{
    if filled < bytes.len() {
        return Ok(());
    }
    let room = turn(bytes.capacity() - filled).min(limit + 1 - filled);
    bytes.resize(filled + room, 0)
}

// For how many bytes room is made, if the vector has memory for so many more.
fn turn(spare: usize) -> usize
    ensures { result ≡ turn_of spare }
{
    if spare == 0 { TURN } else { spare.min(TURN) }
}

// One read into the room after the first bytes.
fn read_after<S: Source>(
    source: &mut S,
    bytes: &mut Vec<u8>,
    filled: usize,
) -> Result<usize, Failed>
    requires { filled < vec_len bytes.old }
    ensures length { vec_len bytes.new ≡ vec_len bytes.old }
    ensures count { IfOk result (λ n. filled + n ≤ vec_len bytes.new) }
    ensures kept { take filled bytes.new.items ≡ take filled bytes.old.items }
    ensures taken { IfOk result (λ n. Consumes (S.left source.old) (S.left source.new) (take n (drop filled bytes.new.items))) }
    ensures end { IfOk result (λ n. n ≡ 0 → IsAtEnd (S.left source.new)) }
    ensures none { OnErr result (Keeps (S.left source.old) (S.left source.new)) }
    ensures read { IfOk result (λ n. RoseBy n (S.bytes_read source.old) (S.bytes_read source.new)) }
    ensures bytes_never_fall { S.bytes_read source.old ≤ S.bytes_read source.new }
    ensures never_falls { S.faults source.old ≤ S.faults source.new }
    ensures failed { OnErr result (Rose (S.faults source.old) (S.faults source.new)) }
{
    source.read(&mut bytes[filled..])
}
