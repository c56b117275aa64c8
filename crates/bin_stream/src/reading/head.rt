// Cutting a command into its parts.
ghost use Rattle.std.specs.Prelude.{◌≡◌, ◌+◌, ◌/◌, ◌%◌, ◌<◌, ◌≤◌, ◌^◌, None, IfOk, IfErr, length, take, drop};
ghost use Rattle.bin_stream.specs.Commands.{number_of};
ghost use Rattle.bin_stream.specs.Refusals.{head_fault, body_fault, end_fault};
ghost use Rattle.bin_stream.specs.inside.Heads.{first_byte, payload_in, head_size, IsOf};
ghost use Rattle.bin_stream.specs.inside.Step.{fault_of, Refuses, ShowsFirst, FailsAnyhow};
ghost use Rattle.bin_stream.specs.declared.fault.BinCause.TheVariants.{Truncated};

use super::command::Command;
use crate::fault::{BinCause, BinFault};

/// How many bytes a payload may have.
const LONGEST_PAYLOAD: usize = 4;

/// A fault at an offset.
pub(crate) fn fault_at(offset: usize, cause: BinCause) -> BinFault
    ensures { result ≡ fault_of offset cause }
{
    BinFault::At {
        offset: offset as u64,
        cause,
    }
}

/// The head of a command: what its first byte and its payload say.
#[derive(Clone, Copy)]
pub(crate) struct Head {
    pub(crate) command: Command,
    /// How many bytes the head has.
    pub(crate) size: usize,
}

/// Bytes of the input from an offset on.
#[derive(Clone, Copy)]
pub(crate) struct Cursor<'a> {
    /// Where the bytes begin in the input.
    pub(crate) offset: usize,
    pub(crate) bytes: &'a [u8],
}

impl<'a> Cursor<'a> {
    /// The bytes of the whole input.
    pub(crate) fn new(bytes: &'a [u8]) -> Cursor<'a>
        ensures offset { result.offset ≡ 0 }
        ensures bytes { result.bytes.now ≡ bytes.entry.now }
    {
        Cursor { offset: 0, bytes }
    }

    /// The bytes after the first `count`.
    pub(crate) fn following(self, count: usize) -> Cursor<'a>
        requires within { count ≤ length self.bytes.now }
        requires offset { self.offset + length self.bytes.now < 2 ^ 64 }
        ensures offset { result.offset ≡ self.entry.offset + count }
        ensures bytes { result.bytes.now ≡ drop count self.entry.bytes.now }
    {
        Cursor {
            offset: self.offset + count,
            bytes: &self.bytes[count..],
        }
    }

    /// The fault that the input ends too early, at its end.
    fn cut(self) -> BinFault
        requires { self.offset + length self.bytes.now < 2 ^ 64 }
        ensures { result ≡ fault_of (self.entry.offset + length self.entry.bytes.now) Truncated }
    {
        fault_at(self.offset + self.bytes.len(), BinCause::Truncated)
    }

    /// The head of the first command.
    pub(crate) fn head(self) -> Result<Head, BinFault>
        requires { self.offset + length self.bytes.now < 2 ^ 64 }
        ensures size { IfOk result (λ head. head.size ≡ head_size self.entry.bytes.now) }
        ensures within { IfOk result (λ head. head.size ≤ length self.entry.bytes.now) }
        ensures first { IfOk result (λ head. ShowsFirst self.entry head.command) }
        ensures says { IfOk result (λ head. IsOf (first_byte self.entry.bytes.now / 16) (number_of (payload_in self.entry.bytes.now)) head.command) }
        ensures allowed { IfOk result (λ head. head_fault self.entry.offset self.entry.bytes.now ≡ None) }
        ensures refused { IfErr result (FailsAnyhow self.entry) }
    {
        let payload = self.payload()?;
        match Command::from_numbers(self.bytes[0] / 16, number_of(payload)) {
            Some(command) => Ok(Head {
                command,
                size: 1 + payload.len(),
            }),
            None => Err(fault_at(self.offset, BinCause::UnknownCommand)),
        }
    }

    /// The payload of the first command.
    fn payload(self) -> Result<&'a [u8], BinFault>
        requires { self.offset + length self.bytes.now < 2 ^ 64 }
        ensures payload { IfOk result (λ payload. payload.now ≡ payload_in self.entry.bytes.now) }
        ensures within { IfOk result (λ payload. length payload.now < length self.entry.bytes.now) }
        ensures long { IfOk result (λ payload. length payload.now ≡ first_byte self.entry.bytes.now % 16) }
        ensures allowed { IfOk result (λ payload. head_fault self.entry.offset self.entry.bytes.now ≡ None) }
        ensures refused { IfErr result (Refuses (head_fault self.entry.offset self.entry.bytes.now)) }
    {
        if self.bytes.is_empty() {
            return Err(self.cut());
        }
        let count = usize::from(self.bytes[0] % 16);
        if count > LONGEST_PAYLOAD {
            Err(fault_at(self.offset, BinCause::LongPayload))
        } else if self.bytes.len() - 1 < count {
            Err(self.cut())
        } else {
            Ok(&self.bytes[1..1 + count])
        }
    }

    /// The rows of data: the first `size` bytes, after which two bytes 00 have to follow.
    pub(crate) fn body(self, size: usize) -> Result<&'a [u8], BinFault>
        requires { self.offset + length self.bytes.now < 2 ^ 64 }
        ensures body { IfOk result (λ body. body.now ≡ take size self.entry.bytes.now) }
        ensures within { IfOk result (λ body. size + 2 ≤ length self.entry.bytes.now) }
        ensures allowed { IfOk result (λ body. body_fault size self.entry.offset self.entry.bytes.now ≡ None) }
        ensures refused { IfErr result (Refuses (body_fault size self.entry.offset self.entry.bytes.now)) }
    {
        if self.bytes.len() < size {
            return Err(self.cut());
        }
        self.following(size).test_end()?;
        Ok(&self.bytes[..size])
    }

    /// Tests that the bytes begin with two bytes 00.
    fn test_end(self) -> Result<(), BinFault>
        requires { self.offset + length self.bytes.now < 2 ^ 64 }
        ensures within { IfOk result (λ _. 2 ≤ length self.entry.bytes.now) }
        ensures allowed { IfOk result (λ _. end_fault self.entry.offset self.entry.bytes.now ≡ None) }
        ensures refused { IfErr result (Refuses (end_fault self.entry.offset self.entry.bytes.now)) }
    {
        match self.bytes {
            [] | [0] => Err(self.cut()),
            [0, 0, ..] => Ok(()),
            [0, _, ..] => Err(fault_at(self.offset + 1, BinCause::DataEnd)),
            [_, ..] => Err(fault_at(self.offset, BinCause::DataEnd)),
        }
    }
}

/// The value of a payload, the high byte first.
fn number_of(payload: &[u8]) -> u32
    requires { length payload.now < 5 }
    ensures { result ≡ number_of payload.now }
{
    let mut number = 0;
    for byte in payload {
        number = 256 * number + u32::from(*byte);
    }
    number
}
