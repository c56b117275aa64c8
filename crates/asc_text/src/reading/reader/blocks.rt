// What the sixteen lines below a statement change: rows of a tile, and lines of a RAM's contents.
ghost use Rattle.std.specs.Prelude.{◌≡◌, ◌<◌, Some, None, IfOk, IfErr, OnOk, OnErr};
ghost use Rattle.ice_image.specs.Bits.{row_ones};
ghost use Rattle.asc_text.specs.inside.Gains.{bytes_set};
ghost use Rattle.asc_text.specs.inside.Reading.{state_of, HasKind, row_refusal, memory_refusal, TakesRow, TakesMemory, ImageGains};

use crate::fault::AscCause;
use crate::reading::bits;
use crate::reading::reader::{Expected, TextReader};
use crate::reading::rows::{ram_line_bytes, row_ones};
use ice_image::AnyImage;
use plane_map::TileKind;

impl TextReader {
    /// Takes a row of a tile, without the blanks at its end.
    pub(super) fn accept_row(
        &mut self,
        kind: TileKind,
        x: u8,
        y: u8,
        row: u8,
        line: &[u8],
    ) -> Result<(), AscCause>
        requires there { HasKind self.old.image x y kind }
        requires row { row < 16 }
        ensures taken { IfOk result (λ _. TakesRow (state_of self.old) kind x y row line.now (state_of self.new)) }
        ensures accepted { OnOk result (row_refusal kind line.now ≡ None) }
        ensures refused { IfErr result (λ cause. row_refusal kind line.now ≡ Some cause) }
        ensures kept { OnErr result (state_of self.new ≡ state_of self.old) }
    {
        match row_ones(line, kind) {
            Some(ones) => {
                set_row(&mut self.image, x, y, row, ones);
                self.expected = Expected::before_row(kind, x, y, row + 1);
                Ok(())
            }
            None => Err(AscCause::Row),
        }
    }

    /// Takes a line of the contents of a RAM, without the blanks at its end.
    pub(super) fn accept_memory(
        &mut self,
        x: u8,
        y: u8,
        row: u8,
        line: &[u8],
    ) -> Result<(), AscCause>
        requires there { HasKind self.old.image x y TileKind.RamB }
        requires row { row < 16 }
        ensures taken { IfOk result (λ _. TakesMemory (state_of self.old) x y row line.now (state_of self.new)) }
        ensures accepted { OnOk result (memory_refusal line.now ≡ None) }
        ensures refused { IfErr result (λ cause. memory_refusal line.now ≡ Some cause) }
        ensures kept { OnErr result (state_of self.new ≡ state_of self.old) }
    {
        match ram_line_bytes(line) {
            Some(bytes) => {
                set_memory_line(&mut self.image, x, y, row, &bytes);
                self.expected = Expected::before_memory(x, y, row + 1);
                Ok(())
            }
            None => Err(AscCause::Hex),
        }
    }
}

/// Sets the bits of a row of a tile at which `ones` has a 1, if there is an image.
fn set_row(image: &mut Option<AnyImage>, x: u8, y: u8, row: u8, ones: u64)
    requires there { (kind : TileKind) × HasKind image.old x y kind }
    requires row { row < 16 }
    ensures { ImageGains image.old image.new (row_ones x y row ones) }
{
    match image {
        Some(image) => image.set_ones(x, y, row, ones),
        None => {}
    }
}

/// Sets the bits of sixteen words of a RAM, if there is an image.
fn set_memory_line(image: &mut Option<AnyImage>, x: u8, y: u8, row: u8, bytes: &[u8; 32])
    requires there { HasKind image.old x y TileKind.RamB }
    requires row { row < 16 }
    ensures { ImageGains image.old image.new (bytes_set x y row bytes.now) }
{
    match image {
        Some(image) => bits::set_memory_line(image, x, y, row, bytes),
        None => {}
    }
}
