// Taking commands off bytes that may end within one.
ghost use Rattle.std.specs.Prelude.{List, ℕ, ◌≡◌, ◌+◌, ◌<◌, ◌≤◌, ◌^◌, Ok, true, false, IfOk, IfErr, length};
ghost use Rattle.layout_file.specs.Layouts.{AreLayouts};
ghost use Rattle.layout_file.specs.declared.layouts.Layouts.{Layouts};
ghost use Rattle.ice_image.specs.Either.{configuration_of};
ghost use Rattle.bin_stream.specs.Settled.{Settles};
ghost use Rattle.bin_stream.specs.Spelling.{bin_read_of};
ghost use Rattle.bin_stream.specs.inside.Step.{FailsFirst, EndsFirst, EntersFirst};
ghost use Rattle.bin_stream.specs.inside.Stages.{is_cut, LeavesCut, LeavesWoken, FailsAfter, IsWoken};

use super::head::{Cursor, fault_at};
use super::machine::{Entered, Machine};
use crate::fault::{BinCause, BinFault};
use ice_image::{AnyImage, Comment};
use std::alloc::Global;

/// The result of commands that were taken, and how many bytes they have.
#[derive(Drop)]
pub(crate) struct Taken {
    pub(crate) machine: Machine,
    pub(crate) end: usize,
    /// Whether the last one is the wake-up command. If not, the bytes after them are less than a command.
    pub(crate) is_last: bool,
}

/// Takes the commands with which bytes begin, up to the wake-up or the last complete one.
pub(crate) fn take_commands(alloc: Global, machine: Machine, at: Cursor) -> Result<Taken, BinFault>
    requires offset { at.offset + length at.bytes.now < 2 ^ 64 }
    requires layouts { AreLayouts machine.layouts }
    ensures within { IfOk result (λ taken. taken.end ≤ length at.entry.bytes.now) }
    ensures cut { IfOk result (λ taken. taken.is_last ≡ false → LeavesCut machine at.entry taken) }
    ensures woken { IfOk result (λ taken. taken.is_last ≡ true → LeavesWoken machine at.entry taken) }
    ensures refused { IfErr result (FailsAfter machine at.entry) }
{
    let mut machine = machine;
    let mut end = 0;
    loop {
        let entered = enter_whole(&mut machine, alloc, at.following(end))?;
        if entered.size == 0 {
            return Ok(Taken {
                machine,
                end,
                is_last: false,
            });
        }
        end += entered.size;
        if entered.is_last {
            return Ok(Taken {
                machine,
                end,
                is_last: true,
            });
        }
    }
}

/// Takes the first command of bytes if it is complete. If not, the size is 0, and nothing changes.
fn enter_whole(machine: &mut Machine, alloc: Global, at: Cursor) -> Result<Entered, BinFault>
    requires offset { at.offset + length at.bytes.now < 2 ^ 64 }
    requires layouts { AreLayouts machine.old.layouts }
    ensures layouts { machine.new.layouts ≡ machine.old.layouts }
    ensures within { IfOk result (λ entered. entered.size ≤ length at.entry.bytes.now) }
    ensures entered { IfOk result (λ entered. 0 < entered.size → EntersFirst machine.old at.entry entered machine.new) }
    ensures registers { IfOk result (λ entered. entered.size ≡ 0 → machine.new.registers ≡ machine.old.registers) }
    ensures image { IfOk result (λ entered. entered.size ≡ 0 → machine.new.image ≡ machine.old.image) }
    ensures cut { IfOk result (λ entered. entered.size ≡ 0 → EndsFirst machine.old at.entry) }
    ensures refused { IfErr result (FailsFirst machine.old at.entry) }
    ensures settled { IfErr result (λ fault. is_cut fault ≡ false) }
{
    match machine.enter_command(alloc, at) {
        Ok(entered) => Ok(entered),
        Err(fault) => {
            if is_cut(&fault) {
                Ok(Entered {
                    size: 0,
                    is_last: false,
                })
            } else {
                Err(fault)
            }
        }
    }
}

/// Whether a fault is that the input ends too early.
fn is_cut(fault: &BinFault) -> bool
    ensures { result ≡ is_cut fault.now }
{
    match fault {
        BinFault::At { cause, .. } => match cause {
            BinCause::NoPreamble | BinCause::Truncated => true,
            _ => false,
        },
        BinFault::Memory(_) => false,
    }
}

/// The image at the wake-up, with its comment and the settings that the commands give. If there is no device, the fault is at `offset`.
pub(crate) fn image_at_end(
    machine: Machine,
    comment: Option<Comment>,
    offset: usize,
) -> Result<AnyImage, BinFault>
    ensures image { IfOk result (λ image. (layouts : Layouts) (all : List ℕ) → IsWoken layouts all comment machine.registers machine.image → bin_read_of layouts all ≡ Ok (configuration_of image)) }
    ensures refused { IfErr result (λ fault. (layouts : Layouts) (all : List ℕ) → IsWoken layouts all comment machine.registers machine.image → Settles (bin_read_of layouts all) fault) }
{
    let Machine {
        registers,
        image,
        ..
    } = machine;
    match image {
        Some(mut image) => {
            image.set_settings(registers.settings());
            image.set_comment(comment);
            Ok(image)
        }
        None => Err(fault_at(offset, BinCause::NoDevice)),
    }
}
