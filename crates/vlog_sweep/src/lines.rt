// Lines of outputs, each at its offset in the text.
ghost use Rattle.std.specs.Prelude.{◌≡◌, ◌<◌, ◌≤◌, ◌+◌, ◌++◌, length, IfOk};
ghost use Rattle.vlog_run.specs.Text.{bit_digit};
ghost use Rattle.vlog_semantics.specs.Values.{bit_of};
ghost use Rattle.vlog_sweep.specs.Strands.{line_of, line_put};

use std::alloc::{AllocError, Global};

/// The bit of a lane; lanes count from 0.
pub(crate) fn lane_bit(word: u64, lane: u32) -> bool
    requires { lane < 64 }
    ensures { result ≡ bit_of word lane }
{
    (word >> lane) & 1 == 1
}

/// The bit of a lane as a digit.
fn digit(word: u64, lane: u32) -> u8
    requires { lane < 64 }
    ensures { result ≡ bit_digit (bit_of word lane) }
{
    if lane_bit(word, lane) { b'1' } else { b'0' }
}

/// Writes the outputs of a lane over a line.
fn fill_line(line: &mut [u8], outputs: &[u64], lane: u32)
    requires within { lane < 64 }
    requires room { length line.old ≡ length outputs.now + 1 }
    ensures { line.new ≡ line_of outputs.now lane }
{
    for place in 0..outputs.len() {
        line[place] = digit(outputs[place], lane);
    }
    line[outputs.len()] = b'\n';
}

/// Writes the outputs of a lane over the line at an offset.
pub(crate) fn write_line(text: &mut [u8], at: usize, outputs: &[u64], lane: u32)
    requires within { lane < 64 }
    requires room { at + (length outputs.now + 1) ≤ length text.old }
    ensures { text.new ≡ line_put text.old at (line_of outputs.now lane) }
{
    let end = at + (outputs.len() + 1);
    fill_line(&mut text[at..end], outputs, lane);
}

/// The line of the outputs of a lane.
pub(crate) fn lane_line(alloc: Global, outputs: &[u64], lane: u32) -> Result<Vec<u8>, AllocError>
    requires { lane < 64 }
    ensures { IfOk result (λ line. line.items ≡ line_of outputs.now lane) }
{
    let count = match outputs.len().checked_add(1) {
        Some(count) => count,
        None => return Err(AllocError),
    };
    let mut line = vec![in alloc; 0; count]?;
    fill_line(&mut line, outputs, lane);
    Ok(line)
}
