// The text of the counts of a generated design.
ghost use Rattle.std.specs.Prelude.{◌≡◌, ◌<◌, ◌^◌, ◌++◌, ◌∷◌, [], OnOk, IfOk, codes, decimal};
ghost use Rattle.text_lines.specs.Written.{text_of};
ghost use Rattle.asc_text.specs.Canonical.{with_word};
ghost use Rattle.plane_map.specs.DeviceWords.{device_word};
ghost use Rattle.selfrun_tool.specs.Counted.{counts_text, design_lines, number_line, run_lines};

use itoa::Buffer;
use plane_map::DeviceName;
use std::alloc::{AllocError, Global};

/// What is counted of a design and of its run.
#[derive(Clone, Copy, Debug, PartialEq, Eq)]
pub(crate) struct Counts {
    /// The bytes of the bitstream.
    pub(crate) bin: usize,
    /// The nets of the database.
    pub(crate) nets: u32,
    /// The used cells.
    pub(crate) cells: usize,
    /// The used RAMs.
    pub(crate) rams: usize,
    /// The wires of the module.
    pub(crate) wires: usize,
    /// The events that are run.
    pub(crate) events: usize,
    /// The lines that explain the image.
    pub(crate) explained: usize,
    /// The output bits that are 1, counted at the start and after each event.
    pub(crate) ones: u128,
}

/// Appends a line: a word, a space and a number.
#[tactic(auto, unfolding(text_lines::specs::Written::text_of))]
fn append_line(text: &mut Vec<u8>, word: &[u8], number: u128) -> Result<(), AllocError>
    ensures { OnOk result (text.new.items ≡ text.old.items ++ text_of (number_line word.now number ∷ [])) }
{
    text.extend_from_slice(word)?;
    text.push(b' ')?;
    text.extend_from_slice(Buffer::new().format(number).as_bytes())?;
    text.push(b'\n')?;
    Ok(())
}

/// Appends the line of the device.
#[tactic(auto, unfolding(text_lines::specs::Written::text_of))]
fn append_device(text: &mut Vec<u8>, device: DeviceName) -> Result<(), AllocError>
    ensures { OnOk result (text.new.items ≡ text.old.items ++ text_of (with_word (codes "device") (device_word device) ∷ [])) }
{
    match device {
        DeviceName::Lp384 => text.extend_from_slice(b"device 384\n"),
        DeviceName::Hx1k => text.extend_from_slice(b"device 1k\n"),
        DeviceName::Hx8k => text.extend_from_slice(b"device 8k\n"),
    }
}

/// Appends the lines of the design.
#[tactic(auto, using(asc_text::proofs::Pieces::joined))]
fn append_design(text: &mut Vec<u8>, device: DeviceName, counts: &Counts) -> Result<(), AllocError>
    ensures { OnOk result (text.new.items ≡ text.old.items ++ text_of (design_lines device counts.now)) }
{
    append_device(text, device)?;
    append_line(text, b"bin", counts.bin as u128)?;
    append_line(text, b"nets", counts.nets as u128)?;
    append_line(text, b"cells", counts.cells as u128)?;
    append_line(text, b"rams", counts.rams as u128)?;
    append_line(text, b"wires", counts.wires as u128)
}

/// Appends the lines of the run.
#[tactic(auto, using(asc_text::proofs::Pieces::joined))]
fn append_run(text: &mut Vec<u8>, counts: &Counts) -> Result<(), AllocError>
    ensures { OnOk result (text.new.items ≡ text.old.items ++ text_of (run_lines counts.now)) }
{
    append_line(text, b"events", counts.events as u128)?;
    append_line(text, b"lines", counts.events as u128 + 1)?;
    append_line(text, b"explain", counts.explained as u128)?;
    append_line(text, b"ones", counts.ones)
}

/// The ten lines.
#[tactic(auto, using(asc_text::proofs::Pieces::joined), unfolding(crate::specs::Counted::counts_text))]
pub(crate) fn text_of(
    alloc: Global,
    device: DeviceName,
    counts: &Counts,
) -> Result<Vec<u8>, AllocError>
    ensures { IfOk result (λ text. text.items ≡ counts_text device counts.now) }
{
    let mut text = Vec::new(alloc);
    append_design(&mut text, device, counts)?;
    append_run(&mut text, counts)?;
    Ok(text)
}
