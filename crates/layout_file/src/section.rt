// A section of a layout file.
ghost use Rattle.std.specs.Prelude.{◌≡◌, true, None, Some, IfOk, IfErr, OnOk};
ghost use Rattle.layout_file.specs.Faults.{cause_if};
ghost use Rattle.layout_file.specs.inside.Reading.{has_flag, has_numbers, numbers_refusal, flag_refusal, unread_section, with_flag, with_numbers};

use crate::conditions::{count_of, numbers_cause};
use crate::fault::LayoutCause;
use crate::field::{Flag, Numbers};
use crate::narrow::{bytes, widths};
use plane_map::{DeviceName, Layout};

/// Which fields were given.
#[derive(Drop)]
pub(crate) struct Given {
    widths: bool,
    side_columns: bool,
    pad_columns: bool,
    pad_rows: bool,
    banks: bool,
    mirror: bool,
    flip: bool,
    pad_mirror: bool,
    ram_flip: bool,
}

impl Given {
    /// Whether a field of numbers was given.
    fn has_numbers(&self, field: Numbers) -> bool
        ensures { result ≡ has_numbers self.now field }
    {
        match field {
            Numbers::Widths => self.widths,
            Numbers::SideColumns => self.side_columns,
            Numbers::PadColumns => self.pad_columns,
            Numbers::PadRows => self.pad_rows,
            Numbers::Banks => self.banks,
        }
    }

    /// Whether a field of `yes` or `no` was given.
    fn has_flag(&self, field: Flag) -> bool
        ensures { result ≡ has_flag self.now field }
    {
        match field {
            Flag::Mirror => self.mirror,
            Flag::Flip => self.flip,
            Flag::PadMirror => self.pad_mirror,
            Flag::RamFlip => self.ram_flip,
        }
    }
}

/// The layout of a device, as far as its section has been read.
#[derive(Drop)]
pub(crate) struct Section {
    pub(crate) layout: Layout,
    /// Whether its section has begun.
    begun: bool,
    given: Given,
}

impl Section {
    /// The standard layout; no line was read.
    pub(crate) fn unread(device: DeviceName) -> Section
        ensures { result ≡ unread_section device }
    {
        Section {
            layout: Layout::standard(device),
            begun: false,
            given: Given {
                widths: false,
                side_columns: false,
                pad_columns: false,
                pad_rows: false,
                banks: false,
                mirror: false,
                flip: false,
                pad_mirror: false,
                ram_flip: false,
            },
        }
    }

    /// Begins the section.
    pub(crate) fn begin(&mut self) -> Result<(), LayoutCause>
        ensures begun { IfOk result (λ _. self.new ≡ record self.old { begun = true }) }
        ensures fits { OnOk result (cause_if self.old.begun LayoutCause.Repeated ≡ None) }
        ensures refused { IfErr result (λ cause. cause_if self.old.begun LayoutCause.Repeated ≡ Some cause) }
    {
        if self.begun {
            return Err(LayoutCause::Repeated);
        }
        self.begun = true;
        Ok(())
    }

    /// Takes the numbers of a field.
    pub(crate) fn accept_numbers(
        &mut self,
        field: Numbers,
        numbers: &[u32],
    ) -> Result<(), LayoutCause>
        ensures taken { IfOk result (λ _. self.new ≡ with_numbers self.old field numbers.now) }
        ensures fits { OnOk result (numbers_refusal self.old field numbers.now ≡ None) }
        ensures refused { IfErr result (λ cause. numbers_refusal self.old field numbers.now ≡ Some cause) }
    {
        match self.refusal_of(field, numbers) {
            Some(cause) => Err(cause),
            None => {
                self.put_numbers(field, numbers);
                Ok(())
            }
        }
    }

    /// Why the numbers of a field are refused, or `None` if they are taken.
    fn refusal_of(&self, field: Numbers, numbers: &[u32]) -> Option<LayoutCause>
        ensures { result ≡ numbers_refusal self.now field numbers.now }
    {
        let device = self.layout.device();
        if numbers.len() != count_of(device, field) {
            Some(LayoutCause::Statement)
        } else if self.given.has_numbers(field) {
            Some(LayoutCause::Repeated)
        } else {
            numbers_cause(device, field, numbers)
        }
    }

    /// Puts the numbers of a field into the layout.
    fn put_numbers(&mut self, field: Numbers, numbers: &[u32])
        requires { numbers_refusal self.old field numbers.now ≡ None }
        ensures { self.new ≡ with_numbers self.old field numbers.now }
    {
        match field {
            Numbers::Widths => {
                self.layout.set_widths(&widths(numbers)[..numbers.len()]);
                self.given.widths = true;
            }
            Numbers::SideColumns => {
                self.layout.set_side_columns(bytes(numbers));
                self.given.side_columns = true;
            }
            Numbers::PadColumns => {
                self.layout.set_pad_columns(bytes(numbers));
                self.given.pad_columns = true;
            }
            Numbers::PadRows => {
                self.layout.set_pad_rows(bytes(numbers));
                self.given.pad_rows = true;
            }
            Numbers::Banks => {
                self.layout.set_banks(bytes(numbers));
                self.given.banks = true;
            }
        }
    }

    /// Takes `yes` or `no` of a field.
    pub(crate) fn accept_flag(&mut self, field: Flag, value: bool) -> Result<(), LayoutCause>
        ensures taken { IfOk result (λ _. self.new ≡ with_flag self.old field value) }
        ensures fits { OnOk result (flag_refusal self.old field ≡ None) }
        ensures refused { IfErr result (λ cause. flag_refusal self.old field ≡ Some cause) }
    {
        if self.given.has_flag(field) {
            return Err(LayoutCause::Repeated);
        }
        self.put_flag(field, value);
        Ok(())
    }

    /// Puts `yes` or `no` of a field into the layout.
    fn put_flag(&mut self, field: Flag, value: bool)
        ensures { self.new ≡ with_flag self.old field value }
    {
        match field {
            Flag::Mirror => {
                self.layout.set_mirror(value);
                self.given.mirror = true;
            }
            Flag::Flip => {
                self.layout.set_flip(value);
                self.given.flip = true;
            }
            Flag::PadMirror => {
                self.layout.set_pad_mirror(value);
                self.given.pad_mirror = true;
            }
            Flag::RamFlip => {
                self.layout.set_ram_flip(value);
                self.given.ram_flip = true;
            }
        }
    }
}
