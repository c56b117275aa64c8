// Lines of a text, taken one after the other and counted.
ghost use Rattle.std.specs.Prelude.{◌≡◌, ◌+◌, ◌<◌, ◌≤◌, ◌^◌, length, IfOk, IfErr};
ghost use Rattle.text_lines.specs.Lines.{lines_of};
ghost use Rattle.asc_text.specs.inside.Reading.{state_of};
ghost use Rattle.asc_text.specs.inside.LinesTaken.{TakesEach, StopsIn, IsReached};

use crate::fault::AscFault;
use crate::reading::reader::TextReader;

impl TextReader {
    /// Takes the lines of a text, before which `before` lines were taken, and returns how many lines have been taken in all.
    #[inline(never)]
    pub(crate) fn take_lines(&mut self, before: u64, text: &[u8]) -> Result<u64, AscFault>
        requires reached { ∥ IsReached (state_of self.old) ∥₁ }
        requires few { before + length text.now < 2 ^ 64 }
        ensures taken { IfOk result (λ _. TakesEach (state_of self.old) (lines_of text.now) (state_of self.new)) }
        ensures counted { IfOk result (λ count. count ≡ before + length (lines_of text.now)) }
        ensures within { IfOk result (λ count. count ≤ before + length text.now) }
        ensures refused { IfErr result (StopsIn (state_of self.old) before (lines_of text.now)) }
    {
        let mut count = before;
        let mut left = text;
        while !left.is_empty() {
            let following = self.accept_any(count + 1, left)?;
            let plain = self.accept_plain(following);
            left = plain.rest;
            count += 1 + u64::from(plain.count);
        }
        Ok(count)
    }
}
