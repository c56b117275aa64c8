// A layout file read line by line.
ghost use Rattle.std.specs.Prelude.{◌≡◌, None, Some, IfOk, IfErr, OnOk};
ghost use Rattle.layout_file.specs.Lines.{line_of};
ghost use Rattle.layout_file.specs.inside.Reading.{begin_refusal, begun_with, flag_refusal_in, layouts_of, list_refusal, refusal, section_for, taken, unread, with_flag_in, with_list, with_section};
ghost use Rattle.std.specs.Borrow.{Lends, sem};
ghost use Rattle.layout_file.specs.contracts.reader.SectionReader.{the_row};
ghost use Rattle.layout_file.specs.contracts.section.Section.{the_row as section_row};

use crate::fault::LayoutCause;
use crate::field::{Flag, Numbers};
use crate::layouts::Layouts;
use crate::line::{LineKind, line_kind};
use crate::section::Section;
use plane_map::DeviceName;

/// What the lines so far have given.
#[derive(Drop)]
pub(crate) struct SectionReader {
    lp384: Section,
    hx1k: Section,
    hx8k: Section,
    /// The device of the section to which the next line belongs.
    current: Option<DeviceName>,
}

impl SectionReader {
    /// A reader that has read no line.
    pub(crate) fn new() -> SectionReader
        ensures { result ≡ unread }
    {
        SectionReader {
            lp384: Section::unread(DeviceName::Lp384),
            hx1k: Section::unread(DeviceName::Hx1k),
            hx8k: Section::unread(DeviceName::Hx8k),
            current: None,
        }
    }

    /// The section of a device.
    fn section_mut(&mut self, device: DeviceName) -> &mut Section
        ensures* writes_back { sem 𝓛 (Lends the_row section_row self.entry result (λ section. with_section self.old device section)) }
        ensures section { result.now ≡ section_for self.old device }
    {
        match device {
            DeviceName::Lp384 => &mut self.lp384,
            DeviceName::Hx1k => &mut self.hx1k,
            DeviceName::Hx8k => &mut self.hx8k,
        }
    }

    /// Takes the next line.
    pub(crate) fn accept(&mut self, line: &[u8]) -> Result<(), LayoutCause>
        ensures taken { IfOk result (λ _. self.new ≡ taken self.old (line_of line.now)) }
        ensures fits { OnOk result (refusal self.old (line_of line.now) ≡ None) }
        ensures refused { IfErr result (λ cause. refusal self.old (line_of line.now) ≡ Some cause) }
    {
        match line_kind(line) {
            LineKind::Passed => Ok(()),
            LineKind::Section(device) => self.begin(device),
            LineKind::List(field, numbers) => self.accept_list(field, numbers.items()),
            LineKind::Answer(field, value) => self.accept_answer(field, value),
            LineKind::Unknown => Err(LayoutCause::Statement),
        }
    }

    /// Begins a section.
    fn begin(&mut self, device: Option<DeviceName>) -> Result<(), LayoutCause>
        ensures begun { IfOk result (λ _. self.new ≡ begun_with self.old device) }
        ensures fits { OnOk result (begin_refusal self.old device ≡ None) }
        ensures refused { IfErr result (λ cause. begin_refusal self.old device ≡ Some cause) }
    {
        let Some(name) = device else {
            return Err(LayoutCause::Device);
        };
        self.section_mut(name).begin()?;
        self.current = device;
        Ok(())
    }

    /// Takes the numbers of a field.
    fn accept_list(&mut self, field: Numbers, numbers: &[u32]) -> Result<(), LayoutCause>
        ensures taken { IfOk result (λ _. self.new ≡ with_list self.old field numbers.now) }
        ensures fits { OnOk result (list_refusal self.old field numbers.now ≡ None) }
        ensures refused { IfErr result (λ cause. list_refusal self.old field numbers.now ≡ Some cause) }
    {
        match self.current {
            None => Err(LayoutCause::Statement),
            Some(device) => self.section_mut(device).accept_numbers(field, numbers),
        }
    }

    /// Takes `yes` or `no` of a field.
    fn accept_answer(&mut self, field: Flag, value: bool) -> Result<(), LayoutCause>
        ensures taken { IfOk result (λ _. self.new ≡ with_flag_in self.old field value) }
        ensures fits { OnOk result (flag_refusal_in self.old field ≡ None) }
        ensures refused { IfErr result (λ cause. flag_refusal_in self.old field ≡ Some cause) }
    {
        match self.current {
            None => Err(LayoutCause::Statement),
            Some(device) => self.section_mut(device).accept_flag(field, value),
        }
    }

    /// The layouts that the lines have given.
    pub(crate) fn layouts(&self) -> Layouts
        ensures { result ≡ layouts_of self.now }
    {
        Layouts {
            lp384: self.lp384.layout,
            hx1k: self.hx1k.layout,
            hx8k: self.hx8k.layout,
        }
    }
}
