// Lines in their usual form: rows of a tile and digits of a RAM's contents with LF right after them, as most lines of a text are, and
// names of nets.
ghost use Rattle.std.specs.Prelude.{◌≡◌, ℕ, ◌+◌, ◌<◌, ◌≤◌, true, Some, take, IfSome};
ghost use Rattle.std.specs.Bool.{MatchBool};
ghost use Rattle.plane_map.specs.Layout.{columns_of, kind_of};
ghost use Rattle.plane_map.specs.Runs.{AreRunsOf};
ghost use Rattle.ice_image.specs.Bits.{number_bit};
ghost use Rattle.ice_image.specs.Either.{configuration_of, device_of};
ghost use Rattle.asc_text.specs.Rows.{is_row, is_memory_line, row_bit, ram_line_bytes};
ghost use Rattle.asc_text.specs.Meaning.{row_sets};
ghost use Rattle.asc_text.specs.declared.reading.reader.Expected.TheVariants.{Row, Memory};
ghost use Rattle.asc_text.specs.inside.Gains.{bytes_set};
ghost use Rattle.asc_text.specs.inside.Reading.{state_of, HasKind, IsReady, TakesBelow, TakesLines, GainsBits, is_lf_at};

use crate::reading::bits::set_memory_line;
use crate::reading::reader::names::take_names;
use crate::reading::reader::{Expected, TextReader};
use crate::reading::rows::{ones_of, ram_line_bytes};
use ice_image::AnyImage;
use plane_map::{TileKind, TileRuns};

/// Lines that were taken from the front of a text.
#[derive(Clone, Copy, Debug, PartialEq, Eq)]
pub(crate) struct TakenLines<'a> {
    /// How many lines these are.
    pub(crate) count: u8,
    /// The text after them.
    pub(crate) rest: &'a [u8],
}

impl TextReader {
    /// Takes the lines at the front of a text that are the expected rows or digits with LF right after them, or name nets in their usual
    /// form. There may be none. The line after them is left to `accept_any`.
    #[inline(always)]
    pub(crate) fn accept_plain<'a>(&mut self, text: &'a [u8]) -> TakenLines<'a>
        requires ready { IsReady self.old.image self.old.expected }
        ensures { TakesLines (state_of self.old) text.now result.count result.rest.now (state_of self.new) }
    {
        match self.expected {
            // A name would end the comment, which is left to `accept_any`.
            Expected::Statement if self.in_comment => TakenLines {
                count: 0,
                rest: text,
            },
            Expected::Statement => take_names(text),
            Expected::Row { kind, x, y, row } => self.accept_rows(kind, x, y, row, text),
            Expected::Memory { x, y, row } => self.accept_memory_lines(x, y, row, text),
        }
    }

    /// Takes rows of a tile, from row `row` on.
    fn accept_rows<'a>(
        &mut self,
        kind: TileKind,
        x: u8,
        y: u8,
        row: u8,
        text: &'a [u8],
    ) -> TakenLines<'a>
        requires row { row < 16 }
        requires expected { self.old.expected ≡ Row kind x y row }
        ensures { TakesLines (state_of self.old) text.now result.count result.rest.now (state_of self.new) }
    {
        let taken = set_rows(&mut self.image, kind, x, y, row, text);
        self.expected = Expected::before_row(kind, x, y, row + taken.count);
        taken
    }

    /// Takes lines of the contents of a RAM, from line `row` on.
    fn accept_memory_lines<'a>(&mut self, x: u8, y: u8, row: u8, text: &'a [u8]) -> TakenLines<'a>
        requires there { HasKind self.old.image x y TileKind.RamB }
        requires row { row < 16 }
        requires expected { self.old.expected ≡ Memory x y row }
        ensures { TakesLines (state_of self.old) text.now result.count result.rest.now (state_of self.new) }
    {
        let taken = set_memory_lines(&mut self.image, x, y, row, text);
        self.expected = Expected::before_memory(x, y, row + taken.count);
        taken
    }
}

/// Sets the bits of the rows of a tile that are at the front of a text, from row `row` on, if there is an image.
fn set_rows<'a>(
    image: &mut Option<AnyImage>,
    kind: TileKind,
    x: u8,
    y: u8,
    row: u8,
    text: &'a [u8],
) -> TakenLines<'a>
    requires row { row < 16 }
    ensures within { row + result.count ≤ 16 }
    ensures taken { TakesBelow (Row kind x y) row image.old text.now result.count result.rest.now image.new }
{
    match image {
        Some(image) => set_rows_of_tile(image, kind, x, y, row, text),
        None => TakenLines {
            count: 0,
            rest: text,
        },
    }
}

/// Sets the bits of the rows of a tile that are at the front of a text, from row `row` on. No row is taken if there is no tile.
#[inline(never)]
fn set_rows_of_tile<'a>(
    image: &mut AnyImage,
    kind: TileKind,
    x: u8,
    y: u8,
    row: u8,
    text: &'a [u8],
) -> TakenLines<'a>
    requires row { row < 16 }
    ensures within { row + result.count ≤ 16 }
    ensures taken { TakesBelow (Row kind x y) row (Some image.old) text.now result.count result.rest.now (Some image.new) }
{
    match image.tile_runs(x, y) {
        // Each width is written out, so that each has code of its own.
        Some(runs) => match kind {
            TileKind::Io => set_rows_of_width(image, runs, row, text, 18),
            TileKind::Logic => set_rows_of_width(image, runs, row, text, 54),
            TileKind::RamB | TileKind::RamT => set_rows_of_width(image, runs, row, text, 42),
        },
        None => TakenLines {
            count: 0,
            rest: text,
        },
    }
}

/// Sets the bits of the rows of a tile with `width` columns that are at the front of a text, by the runs of its rows.
#[inline(always)]
fn set_rows_of_width<'a>(
    image: &mut AnyImage,
    runs: TileRuns,
    first: u8,
    text: &'a [u8],
    width: usize,
) -> TakenLines<'a>
    requires row { first < 16 }
    requires runs { AreRunsOf (configuration_of image.old).layout runs.x runs.y runs }
    requires long { 8 ≤ width }
    requires short { width ≤ 64 }
    ensures within { first + result.count ≤ 16 }
    ensures taken { (kind : TileKind) → columns_of kind ≡ width
        → TakesBelow (Row kind runs.x runs.y) first (Some image.old) text.now result.count result.rest.now (Some image.new) }
{
    let mut row = first;
    let mut left = text;
    while row < 16 {
        if !set_plain_row(image, runs, row, left, width) {
            return TakenLines {
                count: row - first,
                rest: left,
            };
        }
        left = &left[width + 1..];
        row += 1;
    }
    TakenLines {
        count: row - first,
        rest: left,
    }
}

/// Sets the bits of a row of a tile if the row is at the front of a text with LF right after it, and returns whether it is.
#[inline(always)]
fn set_plain_row(image: &mut AnyImage, runs: TileRuns, row: u8, text: &[u8], width: usize) -> bool
    requires row { row < 16 }
    requires runs { AreRunsOf (configuration_of image.old).layout runs.x runs.y runs }
    requires long { 8 ≤ width }
    requires short { width ≤ 64 }
    ensures { MatchBool result
        ((is_lf_at text.now width ≡ true) × (is_row width (take width text.now) ≡ true) × GainsBits image.old image.new (row_sets runs.x runs.y row (take width text.now)))
        (image.new ≡ image.old) }
{
    match plain_row(text, width) {
        Some(ones) => {
            image.set_ones_in(runs, row, ones);
            true
        }
        None => false,
    }
}

/// A row of a tile at the front of a text with LF right after it, as a number, column c being worth 2^c.
#[inline(always)]
fn plain_row(text: &[u8], width: usize) -> Option<u64>
    requires long { 8 ≤ width }
    requires short { width ≤ 64 }
    ensures { IfSome result (λ ones. (is_lf_at text.now width ≡ true) × (is_row width (take width text.now) ≡ true)
        × ((col : ℕ) → number_bit ones col ≡ row_bit (take width text.now) col)) }
{
    if is_lf_at(text, width) {
        ones_of(&text[..width], width)
    } else {
        None
    }
}

/// Sets the bits of the lines of the contents of a RAM that are at the front of a text, from line `row` on, if there is an image.
fn set_memory_lines<'a>(
    image: &mut Option<AnyImage>,
    x: u8,
    y: u8,
    row: u8,
    text: &'a [u8],
) -> TakenLines<'a>
    requires there { HasKind image.old x y TileKind.RamB }
    requires row { row < 16 }
    ensures within { row + result.count ≤ 16 }
    ensures taken { TakesBelow (Memory x y) row image.old text.now result.count result.rest.now image.new }
{
    match image {
        Some(image) => set_lines_of_ram(image, x, y, row, text),
        None => TakenLines {
            count: 0,
            rest: text,
        },
    }
}

/// Sets the bits of the lines of the contents of a RAM that are at the front of a text, from line `row` on.
fn set_lines_of_ram<'a>(
    image: &mut AnyImage,
    x: u8,
    y: u8,
    first: u8,
    text: &'a [u8],
) -> TakenLines<'a>
    requires there { kind_of (device_of image.old) x y ≡ Some TileKind.RamB }
    requires row { first < 16 }
    ensures within { first + result.count ≤ 16 }
    ensures taken { TakesBelow (Memory x y) first (Some image.old) text.now result.count result.rest.now (Some image.new) }
{
    let mut row = first;
    let mut left = text;
    while row < 16 {
        if !set_plain_memory_line(image, x, y, row, left) {
            return TakenLines {
                count: row - first,
                rest: left,
            };
        }
        left = &left[65..];
        row += 1;
    }
    TakenLines {
        count: row - first,
        rest: left,
    }
}

/// Sets the bits of a line of the contents of a RAM if the line is at the front of a text with LF right after it, and returns
/// whether it is.
fn set_plain_memory_line(image: &mut AnyImage, x: u8, y: u8, row: u8, text: &[u8]) -> bool
    requires there { kind_of (device_of image.old) x y ≡ Some TileKind.RamB }
    requires row { row < 16 }
    ensures { MatchBool result
        ((is_lf_at text.now 64 ≡ true) × (is_memory_line (take 64 text.now) ≡ true) × GainsBits image.old image.new (bytes_set x y row (ram_line_bytes (take 64 text.now))))
        (image.new ≡ image.old) }
{
    match plain_memory_line(text) {
        Some(bytes) => {
            set_memory_line(image, x, y, row, &bytes);
            true
        }
        None => false,
    }
}

/// The bytes of a line of the contents of a RAM at the front of a text with LF right after it.
fn plain_memory_line(text: &[u8]) -> Option<[u8; 32]>
    ensures { IfSome result (λ bytes. (is_lf_at text.now 64 ≡ true) × (is_memory_line (take 64 text.now) ≡ true)
        × (ram_line_bytes (take 64 text.now) ≡ bytes)) }
{
    if is_lf_at(text, 64) {
        ram_line_bytes(&text[..64])
    } else {
        None
    }
}

/// Whether the byte at this offset is LF.
fn is_lf_at(text: &[u8], offset: usize) -> bool
    ensures { result ≡ is_lf_at text.now offset }
{
    offset < text.len() && text[offset] == b'\n'
}
