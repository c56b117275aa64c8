// Taking the commands of a bitstream, one after the other.
ghost use Rattle.std.specs.Prelude.{◌≡◌, ◌+◌, ◌*◌, ◌/◌, ◌<◌, ◌≤◌, ◌^◌, None, Some, true, IfOk, IfErr, length, take, drop};
ghost use Rattle.layout_file.specs.Layouts.{AreLayouts};
ghost use Rattle.ice_image.specs.Either.{configuration_of};
ghost use Rattle.bin_stream.specs.Refusals.{device_where};
ghost use Rattle.bin_stream.specs.inside.Registers.{held_first, Fits, size_by, after_data};
ghost use Rattle.bin_stream.specs.inside.Step.{Refuses, data_fault_at, device_if, image_or_blank, IsDrawnOn, FailsFirst, EntersFirst};
ghost use Rattle.bin_stream.specs.inside.Stages.{is_cut};

use super::command::Command;
use super::head::{Cursor, Head, fault_at};
use super::registers::Registers;
use crate::fault::BinFault;
use crate::marks::DATA_END;
use ice_image::{AnyImage, PlaneKind};
use layout_file::Layouts;
use plane_map::{DeviceName, Layout};
use std::alloc::{AllocError, Global};

/// A command that was taken.
#[derive(Clone, Copy)]
pub(crate) struct Entered {
    /// How many bytes it has.
    pub(crate) size: usize,
    /// Whether it is the wake-up command.
    pub(crate) is_last: bool,
}

/// The result of the commands so far: the registers, and an image once there were data. The image has the layout of its device.
#[derive(Drop)]
pub(crate) struct Machine {
    pub(crate) layouts: Layouts,
    pub(crate) registers: Registers,
    pub(crate) image: Option<AnyImage>,
}

impl Machine {
    /// The machine before the first command.
    pub(crate) fn new(layouts: Layouts) -> Machine
        ensures layouts { result.layouts ≡ layouts }
        ensures registers { result.registers ≡ held_first }
        ensures image { result.image ≡ None }
    {
        Machine {
            layouts,
            registers: Registers::new(),
            image: None,
        }
    }

    /// Takes the first command of these bytes.
    pub(crate) fn enter_command(&mut self, alloc: Global, at: Cursor) -> Result<Entered, BinFault>
        requires offset { at.offset + length at.bytes.now < 2 ^ 64 }
        requires layouts { AreLayouts self.old.layouts }
        ensures layouts { self.new.layouts ≡ self.old.layouts }
        ensures within { IfOk result (λ entered. entered.size ≤ length at.entry.bytes.now) }
        ensures some { IfOk result (λ entered. 0 < entered.size) }
        ensures entered { IfOk result (λ entered. EntersFirst self.old at.entry entered self.new) }
        ensures refused { IfErr result (FailsFirst self.old at.entry) }
        ensures same_registers { IfErr result (λ fault. is_cut fault ≡ true → self.new.registers ≡ self.old.registers) }
        ensures same_image { IfErr result (λ fault. is_cut fault ≡ true → self.new.image ≡ self.old.image) }
    {
        let Head { command, size } = at.head()?;
        match command {
            Command::Data(kind) => {
                let size = self.enter_data(alloc, kind, at, size)?;
                Ok(Entered {
                    size,
                    is_last: false,
                })
            }
            Command::Short(command) => {
                match self.registers.enter_short(command, &at.bytes[..size]) {
                    Ok(()) => Ok(Entered {
                        size,
                        is_last: command.is_wake_up(),
                    }),
                    Err(cause) => Err(fault_at(at.offset, cause)),
                }
            }
        }
    }

    /// Takes the data with which these bytes begin; the rows come after the first `start` bytes. Returns how many bytes the command has.
    fn enter_data(
        &mut self,
        alloc: Global,
        kind: PlaneKind,
        at: Cursor,
        start: usize,
    ) -> Result<usize, BinFault>
        requires within { start ≤ length at.bytes.now }
        requires offset { at.offset + length at.bytes.now < 2 ^ 64 }
        requires layouts { AreLayouts self.old.layouts }
        ensures layouts { self.new.layouts ≡ self.old.layouts }
        ensures size { IfOk result (λ size. size ≡ start + size_by self.old.registers + 2) }
        ensures within { IfOk result (λ size. size ≤ length at.entry.bytes.now) }
        ensures registers { IfOk result (λ size. self.new.registers ≡ after_data self.old.registers kind (take size at.entry.bytes.now)) }
        ensures drawn { IfOk result (λ size. IsDrawnOn self.old.layouts kind self.old.registers (take (size_by self.old.registers) (drop start at.entry.bytes.now)) self.old.image self.new.image) }
        ensures allowed { IfOk result (λ size. data_fault_at self.old kind at.entry start ≡ None) }
        ensures refused { IfErr result (Refuses (data_fault_at self.old kind at.entry start)) }
        ensures same_registers { IfErr result (λ fault. is_cut fault ≡ true → self.new.registers ≡ self.old.registers) }
        ensures same_image { IfErr result (λ fault. is_cut fault ≡ true → self.new.image ≡ self.old.image) }
    {
        match self.registers.device_for(kind, self.device()) {
            Err(cause) => Err(fault_at(at.offset, cause)),
            Ok(device) => {
                let size = self.registers.data_size();
                let body = at.following(start).body(size)?;
                self.draw(alloc, device, kind, body)?;
                let end = start + size + DATA_END.len();
                self.registers.enter_data(kind, &at.bytes[..end]);
                Ok(end)
            }
        }
    }

    /// The device of the image, if there is one.
    fn device(&self) -> Option<DeviceName>
        ensures { result ≡ device_if self.now.image }
    {
        match &self.image {
            Some(image) => Some(image.device()),
            None => None,
        }
    }

    /// Writes the rows of data into the image, which is made if there is none.
    fn draw(
        &mut self,
        alloc: Global,
        device: DeviceName,
        kind: PlaneKind,
        body: &[u8],
    ) -> Result<(), AllocError>
        requires device { device_where (device_if self.old.image) kind self.old.registers.width ≡ Some device }
        requires fits { Fits device kind self.old.registers }
        requires size { length body.now ≡ size_by self.old.registers }
        requires layouts { AreLayouts self.old.layouts }
        ensures layouts { self.new.layouts ≡ self.old.layouts }
        ensures registers { self.new.registers ≡ self.old.registers }
        ensures drawn { IfOk result (λ _. IsDrawnOn self.old.layouts kind self.old.registers body.now self.old.image self.new.image) }
    {
        let bank = self.registers.bank();
        let first = self.registers.first_row();
        let count = self.registers.rows();
        let mut image = image_or_blank(alloc, self.image.take(), self.layouts.of(device))?;
        image.set_rows(kind, bank, first, count, body);
        self.image = Some(image);
        Ok(())
    }
}

/// The image so far, or a blank one under the layout if there is none.
fn image_or_blank(
    alloc: Global,
    image: Option<AnyImage>,
    layout: Layout,
) -> Result<AnyImage, AllocError>
    ensures { IfOk result (λ made. configuration_of made ≡ image_or_blank layout image) }
{
    match image {
        Some(image) => Ok(image),
        None => AnyImage::zeroed_with(alloc, layout),
    }
}
