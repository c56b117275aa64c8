// The layouts of the devices.
ghost use Rattle.std.specs.Prelude.{◌≡◌, Some, None, IfOk, IfErr};
ghost use Rattle.layout_file.specs.Layouts.{standard_layouts, layouts_in, layout_for, AreLayouts};
ghost use Rattle.layout_file.specs.Faults.{layout_fault_of};

use crate::fault::LayoutFault;
use crate::reader::SectionReader;
use plane_map::{DeviceName, Layout};
use text_lines::first_line;

/// A layout of each device.
#[derive(Clone, Copy)]
pub struct Layouts {
    pub lp384: Layout,
    pub hx1k: Layout,
    pub hx8k: Layout,
}

impl Layouts {
    /// The layouts that hold if no others are given.
    pub fn standard() -> Layouts
        ensures layouts { result ≡ standard_layouts }
        ensures devices { AreLayouts result }
    {
        Layouts {
            lp384: Layout::standard(DeviceName::Lp384),
            hx1k: Layout::standard(DeviceName::Hx1k),
            hx8k: Layout::standard(DeviceName::Hx8k),
        }
    }

    /// The layouts that a layout file gives.
    ///
    /// A section begins with `.layout 384`, `.layout 1k` or `.layout 8k`. Its lines, each at most once, are `widths` with 4, 7
    /// or 17 numbers, `sidecols` with 18, `iocols` with 18, `iorows` with 16, `banks` with 4, and `mirror`, `flip`,
    /// `padmirror` and `ramflip` with `yes` or `no`. What isn't given is standard. Spaces separate words. Lines that begin with
    /// `#`, and lines with no word, are skipped.
    ///
    /// # Errors
    /// The first faulty line, with the first of its causes in the order of [`LayoutCause`].
    ///
    /// # Example
    /// ```ignore
    /// let layouts = Layouts::read(b".layout 1k\nwidths 20 54 54 42 54 54 54\n")?;
    /// let layout = layouts.of(DeviceName::Hx1k);
    /// // Bit (0, 0) of the logic tile at (12, 16).
    /// let place = layout.cram_place(12, 16, 0, 0);
    /// ```
    pub fn read(bytes: &[u8]) -> Result<Layouts, LayoutFault>
        ensures layouts { IfOk result (λ layouts. layouts ≡ layouts_in bytes.now) }
        ensures devices { IfOk result AreLayouts }
        ensures accepted { IfOk result (λ _. layout_fault_of bytes.now ≡ None) }
        ensures refused { IfErr result (λ fault. layout_fault_of bytes.now ≡ Some fault) }
    {
        let mut reader = SectionReader::new();
        let mut left = bytes;
        let mut count = 0;
        while let Some(line) = first_line(left) {
            take_line(&mut reader, count + 1, line.content)?;
            count += 1;
            left = line.rest;
        }
        Ok(reader.layouts())
    }

    /// The layout of a device.
    pub fn of(&self, device: DeviceName) -> Layout
        ensures { result ≡ layout_for self.now device }
    {
        match device {
            DeviceName::Lp384 => self.lp384,
            DeviceName::Hx1k => self.hx1k,
            DeviceName::Hx8k => self.hx8k,
        }
    }
}

ghost use Rattle.layout_file.specs.Lines.{line_of};
ghost use Rattle.layout_file.specs.Faults.{fault_with};
ghost use Rattle.layout_file.specs.inside.Reading.{refusal, taken};
ghost use Rattle.std.specs.Prelude.{OnOk};

/// Takes the next line, the line of this number.
fn take_line(reader: &mut SectionReader, number: u64, line: &[u8]) -> Result<(), LayoutFault>
    ensures taken { IfOk result (λ _. reader.new ≡ taken reader.old (line_of line.now)) }
    ensures fits { OnOk result (refusal reader.old (line_of line.now) ≡ None) }
    ensures refused { IfErr result (λ fault. fault_with number (refusal reader.old (line_of line.now)) ≡ Some fault) }
{
    match reader.accept(line) {
        Ok(()) => Ok(()),
        Err(cause) => Err(LayoutFault {
            line: number,
            cause,
        }),
    }
}
