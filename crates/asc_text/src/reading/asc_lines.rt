// The lines of a text that comes in pieces.

use crate::fault::AscFault;
use crate::reading::reader::TextReader;
use std::alloc::AllocError;
use text_lines::LineTaker;

/// What the lines so far have given, and the number of these lines.
#[derive(Drop)]
pub(crate) struct AscLines {
    pub(crate) reader: TextReader,
    pub(crate) count: u64,
}

impl LineTaker for AscLines {
    type Refusal = AscFault;

    ghost use Rattle.std.specs.Prelude.{◌-◌, ◌^◌};
    ghost use Rattle.layout_file.specs.declared.layouts.Layouts.{Layouts};
    ghost use Rattle.asc_text.specs.inside.Feeding.{HasTaken, Refuses, CanTake};

    ghost Setting = { Layouts };

    ghost has_taken = { HasTaken };

    ghost refuses = { Refuses };

    ghost is_ready = { CanTake };

    ghost fed = { λ lines. lines.count };

    ghost MOST = { 2 ^ 64 - 1 };

    fn out_of_memory(e: AllocError) -> AscFault {
        AscFault::Memory(e)
    }

    fn take_lines(&mut self, text: &[u8]) -> Result<(), AscFault> {
        self.count = self.reader.take_lines(self.count, text)?;
        Ok(())
    }
}
