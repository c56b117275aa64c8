// The registers of a decoder: what it keeps of the commands so far.
ghost use Rattle.std.specs.Prelude.{◌≡◌, ◌+◌, ◌*◌, ◌/◌, ◌%◌, ◌<◌, ◌≤◌, ◌^◌, ◌==◌, not, None, Some, IfOk, nat_lt};
ghost use Rattle.plane_map.specs.declared.device.DeviceName.{DeviceName as Name};
ghost use Rattle.bin_stream.specs.Refusals.{cause_if, is_mode, device_where, is_bad_height, check_cause};
ghost use Rattle.bin_stream.specs.State.{has_width, device_with};
ghost use Rattle.bin_stream.specs.Meaning.{range_of};
ghost use Rattle.bin_stream.specs.inside.Heads.{opcode_in, number_in};
ghost use Rattle.bin_stream.specs.inside.Registers.{held_first, refusal_of, short_cause_by, checked, after_short, data_cause_by, gives_last_by, Fits, after_data, settings_by, size_by};
ghost use Rattle.bin_stream.specs.declared.fault.BinCause.TheVariants.{BadBank, BadRange, BadMode, NoDevice};

use super::command::ShortCommand;
use crate::check_value::{START, enter_bytes};
use crate::fault::BinCause;
use ice_image::{PlaneKind, Range, Settings};
use plane_map::DeviceName;
use std::marker::Model;

/// The last bank.
const LAST_BANK: u32 = 3;

/// The value of the high range, the greatest one.
const HIGH_RANGE: u32 = 2;

/// The bit of the mode that enables warm boot.
const WARM_BOOT: u32 = 32;

/// The mode that holds if no command sets one: warm boot is on, and the flash is put to sleep.
const FIRST_MODE: u32 = WARM_BOOT;

/// The values that commands set, the register of the CRC, and whether data reached the last row of a configuration plane.
#[derive(Drop)]
pub(crate) struct Registers {
    bank: usize,
    width: usize,
    height: usize,
    first_row: usize,
    range: u32,
    mode: u32,
    check: u16,
    reached: bool,
}

impl Model for Registers {
    ghost use Rattle.std.specs.Prelude.{◌<◌, ◌≤◌, ◌^◌};
    ghost use Rattle.bin_stream.specs.inside.Registers.{Held};

    ghost Value = { Held };

    ghost view = { λ r. record { bank = r.bank; width = r.width; height = r.height; first_row = r.first_row; range = r.range; mode = r.mode; check = r.check; reached = r.reached } };

    // A payload has at most four bytes, and the width is its value plus one.
    ghost invariant = { λ r. (r.bank < 4) × (r.width ≤ 2 ^ 32) × (r.height < 2 ^ 32) × (r.first_row < 2 ^ 32) };
}

impl Registers {
    /// The registers before the first command.
    pub(crate) fn new() -> Registers
        ensures { result ≡ held_first }
    {
        Registers {
            bank: 0,
            width: 0,
            height: 0,
            first_row: 0,
            range: 0,
            mode: FIRST_MODE,
            check: START,
            reached: false,
        }
    }

    /// The bank of the next data.
    pub(crate) fn bank(&self) -> usize
        ensures value { result ≡ self.now.bank }
        ensures four { result < 4 }
    {
        self.bank
    }

    /// The row at which the next data begin.
    pub(crate) fn first_row(&self) -> usize
        ensures { result ≡ self.now.first_row }
    {
        self.first_row
    }

    /// How many rows the next data have.
    pub(crate) fn rows(&self) -> usize
        ensures { result ≡ self.now.height }
    {
        self.height
    }

    /// How many bytes the next data have.
    pub(crate) fn data_size(&self) -> usize
        ensures { result ≡ size_by self.now }
    {
        self.width * self.height / 8
    }

    /// The settings.
    pub(crate) fn settings(&self) -> Settings
        ensures { result ≡ settings_by self.now }
    {
        Settings {
            range: range_of(self.range),
            warm_boot: self.mode / WARM_BOOT % 2 == 1,
            no_sleep: self.mode % 2 == 1,
        }
    }

    /// Takes a command that isn't data; all its bytes enter the CRC.
    pub(crate) fn enter_short(
        &mut self,
        command: ShortCommand,
        bytes: &[u8],
    ) -> Result<(), BinCause>
        ensures allowed { refusal_of result ≡ short_cause_by (checked self.old bytes.now) (opcode_in command) (number_in command) }
        ensures entered { IfOk result (λ _. self.new ≡ after_short (checked self.old bytes.now) (opcode_in command) (number_in command)) }
    {
        self.check = enter_bytes(self.check, bytes);
        match command {
            ShortCommand::Reset => {
                self.check = START;
                Ok(())
            }
            ShortCommand::WakeUp => self.test_device(),
            ShortCommand::Bank(number) => self.set_bank(number),
            ShortCommand::Check(_) => self.test_check(),
            ShortCommand::BootAddress(_) => Ok(()),
            ShortCommand::Range(number) => self.set_range(number),
            ShortCommand::Width(number) => self.set_width(number),
            ShortCommand::Height(number) => self.set_height(number),
            ShortCommand::Offset(number) => self.set_first_row(number),
            ShortCommand::Mode(number) => self.set_mode(number),
        }
    }

    /// Tests that there is a device: some data reached the last row of a configuration plane.
    fn test_device(&self) -> Result<(), BinCause>
        ensures { refusal_of result ≡ cause_if (not self.now.reached) NoDevice }
    {
        if self.reached {
            Ok(())
        } else {
            Err(BinCause::NoDevice)
        }
    }

    /// Changes the bank.
    fn set_bank(&mut self, number: u32) -> Result<(), BinCause>
        ensures allowed { refusal_of result ≡ cause_if (nat_lt 3 number) BadBank }
        ensures entered { IfOk result (λ _. self.new ≡ record self.old { bank = number }) }
    {
        if number > LAST_BANK {
            return Err(BinCause::BadBank);
        }
        self.bank = number as usize;
        Ok(())
    }

    /// Tests that the CRC is 0.
    fn test_check(&self) -> Result<(), BinCause>
        ensures { refusal_of result ≡ check_cause self.now.check }
    {
        if self.check == 0 {
            Ok(())
        } else {
            Err(BinCause::Check { found: self.check })
        }
    }

    /// Changes the range.
    fn set_range(&mut self, number: u32) -> Result<(), BinCause>
        ensures allowed { refusal_of result ≡ cause_if (nat_lt 2 number) BadRange }
        ensures entered { IfOk result (λ _. self.new ≡ record self.old { range = number }) }
    {
        if number > HIGH_RANGE {
            return Err(BinCause::BadRange);
        }
        self.range = number;
        Ok(())
    }

    /// Changes the width. The command has the width minus one.
    fn set_width(&mut self, number: u32) -> Result<(), BinCause>
        ensures allowed { refusal_of result ≡ None }
        ensures entered { self.new ≡ record self.old { width = number + 1 } }
    {
        self.width = number as usize + 1;
        Ok(())
    }

    /// Changes the height.
    fn set_height(&mut self, number: u32) -> Result<(), BinCause>
        ensures allowed { refusal_of result ≡ None }
        ensures entered { self.new ≡ record self.old { height = number } }
    {
        self.height = number as usize;
        Ok(())
    }

    /// Changes the row at which data begin.
    fn set_first_row(&mut self, number: u32) -> Result<(), BinCause>
        ensures allowed { refusal_of result ≡ None }
        ensures entered { self.new ≡ record self.old { first_row = number } }
    {
        self.first_row = number as usize;
        Ok(())
    }

    /// Changes the mode.
    fn set_mode(&mut self, number: u32) -> Result<(), BinCause>
        ensures allowed { refusal_of result ≡ cause_if (not (is_mode number)) BadMode }
        ensures entered { IfOk result (λ _. self.new ≡ record self.old { mode = number }) }
    {
        match number {
            0 | 1 | 32 | 33 => {
                self.mode = number;
                Ok(())
            }
            _ => Err(BinCause::BadMode),
        }
    }

    /// The device of the next data: the device of earlier data, or else the device whose planes have their width.
    pub(crate) fn device_for(
        &self,
        kind: PlaneKind,
        fixed: Option<DeviceName>,
    ) -> Result<DeviceName, BinCause>
        ensures allowed { refusal_of result ≡ data_cause_by self.now fixed kind }
        ensures device { IfOk result (λ device. device_where fixed kind self.now.width ≡ Some device) }
        ensures fits { IfOk result (λ device. Fits device kind self.now) }
    {
        match fixed.or(device_with(kind, self.width)) {
            None => Err(BinCause::BadWidth),
            Some(device) => {
                if !has_width(kind, device, self.width) {
                    Err(BinCause::BadWidth)
                } else if self.has_bad_height(kind, device) {
                    Err(BinCause::BadHeight)
                } else {
                    Ok(device)
                }
            }
        }
    }

    /// Whether the next data have no row, rows after the plane's last one, or a part of a byte at the end.
    fn has_bad_height(&self, kind: PlaneKind, device: DeviceName) -> bool
        ensures { result ≡ is_bad_height kind device self.now.first_row self.now.height self.now.width }
    {
        self.height == 0
            || kind.rows(device) < self.first_row + self.height
            || self.width * self.height % 8 != 0
    }

    /// Takes data; all their bytes enter the CRC, from the first byte of the command to the second 00 after the rows.
    pub(crate) fn enter_data(&mut self, kind: PlaneKind, command: &[u8])
        ensures { self.new ≡ after_data self.old kind command.now }
    {
        self.check = enter_bytes(self.check, command);
        self.reached = self.reached || self.gives_last_row(kind);
    }

    /// Whether the next data reach the last row of a configuration plane.
    fn gives_last_row(&self, kind: PlaneKind) -> bool
        ensures { result ≡ gives_last_by self.now kind }
    {
        match kind {
            PlaneKind::Cram => match device_with(kind, self.width) {
                Some(device) => self.first_row + self.height == kind.rows(device),
                None => false,
            },
            PlaneKind::Bram => false,
        }
    }
}

/// The range of a value.
fn range_of(number: u32) -> Range
    ensures { result ≡ range_of number }
{
    match number {
        0 => Range::Low,
        1 => Range::Medium,
        _ => Range::High,
    }
}

/// Whether a device's planes have rows, and these have `columns` columns.
fn has_width(kind: PlaneKind, device: DeviceName, columns: usize) -> bool
    ensures { result ≡ has_width kind device columns }
{
    kind.rows(device) != 0 && columns == kind.columns(device)
}

/// The device whose planes have rows of `columns` columns, or `None`.
fn device_with(kind: PlaneKind, columns: usize) -> Option<DeviceName>
    ensures { result ≡ device_with kind columns }
{
    if has_width(kind, DeviceName::Lp384, columns) {
        Some(DeviceName::Lp384)
    } else if has_width(kind, DeviceName::Hx1k, columns) {
        Some(DeviceName::Hx1k)
    } else if has_width(kind, DeviceName::Hx8k, columns) {
        Some(DeviceName::Hx8k)
    } else {
        None
    }
}
