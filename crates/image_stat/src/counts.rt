// The counts, and their text.
ghost use Rattle.std.specs.Prelude.{◌≡◌, ◌++◌, ◌∷◌, [], OnOk, IfOk};
ghost use Rattle.text_lines.specs.Written.{text_of};
ghost use Rattle.image_stat.specs.Counts.{cell_lines, count_line, net_lines, stat_text};

use itoa::Buffer;
use std::alloc::{AllocError, Global};

/// What is counted of a database and an image.
#[derive(Clone, Copy, Debug, PartialEq, Eq)]
pub(crate) struct Counts {
    /// The used logic cells.
    pub(crate) luts: usize,
    /// The used cells whose flip-flop is used.
    pub(crate) flops: usize,
    /// The used cells whose carry is used.
    pub(crate) carries: usize,
    /// The used RAMs.
    pub(crate) rams: usize,
    /// The pins that are ports.
    pub(crate) pins: usize,
    /// The global nets that drive a net.
    pub(crate) globals: usize,
    /// The buffers that are on.
    pub(crate) buffers: usize,
    /// The routings that are on.
    pub(crate) routings: usize,
    /// The bits of the configuration planes that are 1.
    pub(crate) bits: usize,
    /// The extra bits that are 1.
    pub(crate) extra: usize,
}

/// Appends a line: a word, a space and a number.
#[tactic(auto, unfolding(text_lines::specs::Written::text_of))]
fn append_line(text: &mut Vec<u8>, word: &[u8], number: usize) -> Result<(), AllocError>
    ensures { OnOk result (text.new.items ≡ text.old.items ++ text_of (count_line word.now number ∷ [])) }
{
    text.extend_from_slice(word)?;
    text.push(b' ')?;
    text.extend_from_slice(Buffer::new().format(number).as_bytes())?;
    text.push(b'\n')?;
    Ok(())
}

/// Appends the lines for logic cells and RAMs.
fn append_cells(text: &mut Vec<u8>, counts: &Counts) -> Result<(), AllocError>
    ensures { OnOk result (text.new.items ≡ text.old.items ++ text_of (cell_lines counts.now)) }
{
    append_line(text, b"luts", counts.luts)?;
    append_line(text, b"flops", counts.flops)?;
    append_line(text, b"carries", counts.carries)?;
    append_line(text, b"rams", counts.rams)
}

/// Appends the lines for pins, nets and bits.
fn append_nets(text: &mut Vec<u8>, counts: &Counts) -> Result<(), AllocError>
    ensures { OnOk result (text.new.items ≡ text.old.items ++ text_of (net_lines counts.now)) }
{
    append_line(text, b"pins", counts.pins)?;
    append_line(text, b"globals", counts.globals)?;
    append_line(text, b"buffers", counts.buffers)?;
    append_line(text, b"routings", counts.routings)?;
    append_line(text, b"bits", counts.bits)?;
    append_line(text, b"extra", counts.extra)
}

/// The ten lines.
pub(crate) fn text_of(alloc: Global, counts: &Counts) -> Result<Vec<u8>, AllocError>
    ensures { IfOk result (λ text. text.items ≡ stat_text counts.now) }
{
    let mut text = Vec::new(alloc);
    append_cells(&mut text, counts)?;
    append_nets(&mut text, counts)?;
    Ok(text)
}
