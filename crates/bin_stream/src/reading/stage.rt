// What a decoder knows of a bitstream that comes in pieces.
ghost use Rattle.std.specs.Prelude.{List, ℕ, ◌≡◌, ◌+◌, ◌-◌, ◌<◌, ◌≤◌, ◌^◌, ◌++◌, ◌∷◌, [], Option, None, Some, Err, true, false, ◌↔◌, IsTrue, IfOk, IfErr, length, drop};
ghost use Rattle.layout_file.specs.Layouts.{AreLayouts};
ghost use Rattle.bin_stream.specs.Front.{preamble_offset};
ghost use Rattle.bin_stream.specs.inside.Stages.{begins_comment, IsPlain, KeepsFront, KeepsPlain, IsReading, ReadsAt, IsCut, IsWoken, length_kept, IsStage, stage_of, fault_in};
ghost use Rattle.bin_stream.specs.declared.fault.BinFault.{BinFault as Fault};

use super::edge::{KEPT, last_after, last_three, start_after};
use super::front::{comment_of, preamble_offset};
use super::head::Cursor;
use super::machine::Machine;
use super::registers::Registers;
use super::taking::{Taken, image_at_end, take_commands};
use crate::fault::BinFault;
use crate::marks::{COMMENT_START, PREAMBLE};
use ice_image::{AnyImage, Comment};
use layout_file::Layouts;
use std::alloc::{AllocError, Global};

/// What is known of the bytes so far.
#[derive(Drop)]
pub(crate) enum Stage {
    /// There is no preamble yet, and all bytes are kept.
    Front {
        kept: Vec<u8>,
    },
    /// There is no preamble yet, and the bytes begin no comment. The last three bytes are kept.
    Plain {
        last: [u8; 3],
    },
    /// The result of the commands so far, and the bytes of a command that isn't complete.
    Commands {
        comment: Option<Comment>,
        registers: Registers,
        image: Option<AnyImage>,
        pending: Vec<u8>,
    },
    /// The image at the wake-up.
    Image(AnyImage),
    /// The fault, or out of memory.
    Refused(BinFault),
}

impl Stage {
    /// The stage after another piece, before which `fed` bytes came.
    pub(crate) fn after(self, alloc: Global, layouts: Layouts, fed: usize, piece: &[u8]) -> Stage
        requires layouts { AreLayouts layouts }
        requires fed { fed + length piece.now < 2 ^ 64 }
        requires room { length_kept self ≤ fed }
        ensures room { length_kept result ≤ fed + length piece.now }
        ensures stands { (bytes : List ℕ) → length bytes ≡ fed → IsStage layouts bytes self → IsStage layouts (bytes ++ piece.now) result }
        ensures again { (fault : Fault) → fault_in self ≡ Some fault → fault_in result ≡ Some fault }
    {
        match self {
            Stage::Front { kept } => stage_of(front_after(alloc, layouts, kept, piece)),
            Stage::Plain { last } => stage_of(plain_after(alloc, layouts, last, fed, piece)),
            Stage::Commands {
                comment,
                registers,
                image,
                pending,
            } => {
                let machine = Machine {
                    layouts,
                    registers,
                    image,
                };
                stage_of(pending_after(alloc, machine, comment, pending, fed, piece))
            }
            Stage::Image(image) => Stage::Image(image),
            Stage::Refused(fault) => Stage::Refused(fault),
        }
    }

    /// The fault of a refusal.
    pub(crate) fn answer(&self) -> Result<(), BinFault>
        ensures clear { IfOk result (λ _. fault_in self.now ≡ None) }
        ensures refused { IfErr result (λ fault. fault_in self.now ≡ Some fault) }
        ensures exact { (fault : Fault) → fault_in self.now ≡ Some fault → result ≡ Err fault }
    {
        match self {
            Stage::Refused(fault) => Err(*fault),
            _ => Ok(()),
        }
    }
}

/// The stage that follows, which is a refusal if there is a fault.
fn stage_of(stage: Result<Stage, BinFault>) -> Stage
    ensures { result ≡ stage_of stage }
{
    match stage {
        Ok(stage) => stage,
        Err(fault) => Stage::Refused(fault),
    }
}

/// The stage after a piece, if all bytes before it are kept.
fn front_after(
    alloc: Global,
    layouts: Layouts,
    kept: Vec<u8>,
    piece: &[u8],
) -> Result<Stage, BinFault>
    requires layouts { AreLayouts layouts }
    ensures room { length_kept (stage_of result) ≤ length kept.items + length piece.now }
    ensures stands { (bytes : List ℕ) → KeepsFront bytes kept.items → IsStage layouts (bytes ++ piece.now) (stage_of result) }
{
    if kept.is_empty() {
        return first_stage(alloc, layouts, piece);
    }
    let searched = kept.len().saturating_sub(KEPT);
    let mut joined = kept;
    joined.extend_from_slice(piece)?;
    match preamble_offset(&joined[searched..]) {
        Some(found) => begun_stage(alloc, layouts, &joined, searched + found),
        None => Ok(front_stage(joined)),
    }
}

/// The stage of the first piece, which is copied only if it has no preamble and may begin a comment.
fn first_stage(alloc: Global, layouts: Layouts, piece: &[u8]) -> Result<Stage, BinFault>
    requires layouts { AreLayouts layouts }
    ensures room { length_kept (stage_of result) ≤ length piece.now }
    ensures stands { IsStage layouts piece.now (stage_of result) }
{
    match preamble_offset(piece) {
        Some(place) => begun_stage(alloc, layouts, piece, place),
        None => {
            if is_plain(piece) {
                Ok(Stage::Plain {
                    last: last_three(piece),
                })
            } else {
                Ok(Stage::Front {
                    kept: Vec::from_slice(alloc, piece)?,
                })
            }
        }
    }
}

/// The stage of all the bytes so far, if they have no preamble.
fn front_stage(bytes: Vec<u8>) -> Stage
    ensures room { length_kept result ≤ length bytes.items }
    ensures stands { (layouts : Layouts) → preamble_offset bytes.items ≡ None → IsStage layouts bytes.items result }
{
    if is_plain(&bytes) {
        Stage::Plain {
            last: last_three(&bytes),
        }
    } else {
        Stage::Front { kept: bytes }
    }
}

/// Whether there are enough bytes to know that they begin no comment.
fn is_plain(bytes: &[u8]) -> bool
    ensures { IsTrue result ↔ IsPlain bytes.now }
{
    bytes.len() >= KEPT && !begins_comment(bytes)
}

/// Whether bytes begin as a front with a comment.
fn begins_comment(bytes: &[u8]) -> bool
    ensures { result ≡ begins_comment bytes.now }
{
    bytes.starts_with(&COMMENT_START)
}

/// The stage of all the bytes so far, if their first preamble is at a given index.
fn begun_stage(
    alloc: Global,
    layouts: Layouts,
    bytes: &[u8],
    place: usize,
) -> Result<Stage, BinFault>
    requires layouts { AreLayouts layouts }
    requires place { place + 4 ≤ length bytes.now }
    ensures room { length_kept (stage_of result) ≤ length bytes.now }
    ensures stands { preamble_offset bytes.now ≡ Some place → IsStage layouts bytes.now (stage_of result) }
{
    let comment = comment_of(alloc, &bytes[..place])?;
    let at = Cursor::new(bytes).following(place + PREAMBLE.len());
    commands_after(alloc, Machine::new(layouts), comment, at)
}

/// The stage after a piece, if the bytes before it have no preamble and no comment; `last` are the last three of them.
fn plain_after(
    alloc: Global,
    layouts: Layouts,
    last: [u8; 3],
    fed: usize,
    piece: &[u8],
) -> Result<Stage, BinFault>
    requires layouts { AreLayouts layouts }
    requires fed { fed + length piece.now < 2 ^ 64 }
    ensures room { length_kept (stage_of result) ≤ length piece.now }
    ensures stands { (bytes : List ℕ) → length bytes ≡ fed → KeepsPlain bytes last → IsStage layouts (bytes ++ piece.now) (stage_of result) }
{
    match start_after(last, piece) {
        Some(start) => {
            let at = Cursor {
                offset: fed,
                bytes: piece,
            };
            commands_after(alloc, Machine::new(layouts), None, at.following(start))
        }
        None => Ok(Stage::Plain {
            last: last_after(last, piece),
        }),
    }
}

/// The stage after a piece, if the commands have begun before it.
fn pending_after(
    alloc: Global,
    machine: Machine,
    comment: Option<Comment>,
    pending: Vec<u8>,
    fed: usize,
    piece: &[u8],
) -> Result<Stage, BinFault>
    requires layouts { AreLayouts machine.layouts }
    requires fed { fed + length piece.now < 2 ^ 64 }
    requires room { length pending.items ≤ fed }
    ensures room { length_kept (stage_of result) ≤ fed + length piece.now }
    ensures stands { (bytes : List ℕ) → length bytes ≡ fed → IsReading machine.layouts bytes comment machine.registers machine.image (fed - length pending.items) pending.items → IsStage machine.layouts (bytes ++ piece.now) (stage_of result) }
{
    if pending.is_empty() {
        let at = Cursor {
            offset: fed,
            bytes: piece,
        };
        return commands_after(alloc, machine, comment, at);
    }
    let offset = fed - pending.len();
    let mut joined = pending;
    joined.extend_from_slice(piece)?;
    let at = Cursor {
        offset,
        bytes: &joined,
    };
    let taken = take_commands(alloc, machine, at)?;
    let left = left_of_vector(alloc, &taken, joined)?;
    stage_after(taken, comment, fed, left)
}

/// The stage after the complete commands with which bytes begin.
fn commands_after(
    alloc: Global,
    machine: Machine,
    comment: Option<Comment>,
    at: Cursor,
) -> Result<Stage, BinFault>
    requires offset { at.offset + length at.bytes.now < 2 ^ 64 }
    requires layouts { AreLayouts machine.layouts }
    ensures room { length_kept (stage_of result) ≤ length at.entry.bytes.now }
    ensures stands { (bytes : List ℕ) → ReadsAt machine at.entry bytes comment → IsStage machine.layouts bytes (stage_of result) }
{
    let taken = take_commands(alloc, machine, at)?;
    let left = left_of(alloc, &taken, at.bytes)?;
    stage_after(taken, comment, at.offset, left)
}

/// The stage after commands that were taken, if these bytes remain.
fn stage_after(
    taken: Taken,
    comment: Option<Comment>,
    offset: usize,
    left: Vec<u8>,
) -> Result<Stage, BinFault>
    ensures room { length_kept (stage_of result) ≤ length left.items }
    ensures stands { (layouts : Layouts) (all : List ℕ) → (taken.is_last ≡ true → IsWoken layouts all comment taken.machine.registers taken.machine.image) → (taken.is_last ≡ false → IsCut layouts all comment taken.machine.registers taken.machine.image (length all - length left.items) left.items) → IsStage layouts all (stage_of result) }
{
    let Taken {
        machine,
        is_last,
        ..
    } = taken;
    if is_last {
        let image = image_at_end(machine, comment, offset)?;
        Ok(Stage::Image(image))
    } else {
        let Machine {
            registers,
            image,
            ..
        } = machine;
        Ok(Stage::Commands {
            comment,
            registers,
            image,
            pending: left,
        })
    }
}

/// The bytes that remain after commands that were taken, or no bytes after the wake-up.
fn left_of(alloc: Global, taken: &Taken, bytes: &[u8]) -> Result<Vec<u8>, AllocError>
    requires { taken.now.end ≤ length bytes.now }
    ensures within { IfOk result (λ left. length left.items ≤ length bytes.now) }
    ensures left { IfOk result (λ left. taken.now.is_last ≡ false → left.items ≡ drop taken.now.end bytes.now) }
{
    if taken.is_last {
        Ok(Vec::new(alloc))
    } else {
        Vec::from_slice(alloc, &bytes[taken.end..])
    }
}

/// The bytes that remain in a vector after commands that were taken. The vector is used again if no command was taken.
fn left_of_vector(alloc: Global, taken: &Taken, bytes: Vec<u8>) -> Result<Vec<u8>, AllocError>
    requires { taken.now.end ≤ length bytes.items }
    ensures within { IfOk result (λ left. length left.items ≤ length bytes.items) }
    ensures left { IfOk result (λ left. taken.now.is_last ≡ false → left.items ≡ drop taken.now.end bytes.items) }
{
    if taken.end == 0 {
        Ok(bytes)
    } else {
        left_of(alloc, taken, &bytes)
    }
}
