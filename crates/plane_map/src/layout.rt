// Layouts.
ghost use Rattle.std.specs.Prelude.{◌≡◌, ◌≢◌, ℕ, ◌+◌, ◌<◌, ◌≤◌, Some, IfNone, IfSome, MatchOption, is_some, length, slice_index, if◌then◌else◌};
ghost use Rattle.plane_map.specs.Layout.{kind_of, columns_at, column_of, half_width, width_of, start_of, cram_width, cram_height, bram_width, bram_height, standard_layout, place_of, word_place_of, IsLayout, IsTileBit, IsWordBit, IsInCram, IsInBram, IsExtraBit};
ghost use Rattle.plane_map.specs.Runs.{AreRunsOf, IsRunIn, row_run, run_place, word_run};

use crate::device::DeviceName;
use crate::grid::on_side;
use crate::place::{owner_on, place_of_word, place_on};
use crate::runs::{run_of_word, tile_row_on};
use crate::tile::{Place, Run, TileBit, TileKind, TileRow, TileRuns, WordBit};
use crate::tile_runs::{run_of_row, tile_runs_on};
use std::marker::Model;
use widths::{standard_widths, starts_of};

mod setters;
mod widths;

/// The standard columns of bits of an io tile of the left or the right edge, counted from the side edge.
const SIDE_COLUMNS: [u8; 18] = [17, 16, 15, 14, 13, 12, 11, 10, 9, 8, 7, 6, 5, 4, 3, 2, 1, 0];

/// The standard columns of bits of an io tile of the bottom or the top row, counted from the side edge.
const PAD_COLUMNS: [u8; 18] = [
    23, 25, 26, 27, 16, 17, 18, 19, 20, 14, 32, 33, 34, 35, 36, 37, 4, 5,
];

/// The standard rows of bits of an io tile of the bottom or the top row, counted from the inner end.
const PAD_ROWS: [u8; 16] = [0, 1, 3, 2, 4, 5, 7, 6, 8, 9, 11, 10, 12, 13, 15, 14];

/// How a device lays out the bits of its tiles and of the words of its RAMs in its planes.
///
/// No two bits have one place under a layout, and each lies in the planes.
#[derive(Clone, Copy)]
pub struct Layout {
    device: DeviceName,
    /// How many columns of bits each column of tiles takes, from the side edge inwards; 0 after the last one of a half.
    widths: [u16; 17],
    /// How many columns of bits the columns of tiles before each one take.
    starts: [u16; 17],
    side_columns: [u8; 18],
    pad_columns: [u8; 18],
    pad_rows: [u8; 16],
    banks: [u8; 4],
    mirror: bool,
    flip: bool,
    pad_mirror: bool,
    ram_flip: bool,
}

impl Model for Layout {
    ghost use Rattle.plane_map.specs.Layout.{Layout as Kept};

    ghost Value = { Kept };

    ghost use Rattle.plane_map.specs.Inside.{laid_out, IsInside, inside_of};

    ghost view = { laid_out };

    ghost invariant = { IsInside };

    ghost inverse = { inside_of };
}

impl Layout {
    /// The layout that a device has if no other is given.
    pub fn standard(device: DeviceName) -> Layout
        ensures { result ≡ standard_layout device }
    {
        let widths = standard_widths(device);
        Layout {
            device,
            widths,
            starts: starts_of(&widths),
            side_columns: SIDE_COLUMNS,
            pad_columns: PAD_COLUMNS,
            pad_rows: PAD_ROWS,
            banks: [0, 1, 2, 3],
            mirror: true,
            flip: true,
            pad_mirror: false,
            ram_flip: true,
        }
    }

    /// The device.
    pub fn device(&self) -> DeviceName
        ensures device { result ≡ self.now.device }
        ensures layout { IsLayout self.now }
    {
        self.device
    }

    /// Where a bit of a tile lies in the configuration planes.
    #[inline(always)]
    pub fn cram_place(&self, x: u8, y: u8, row: u8, col: u8) -> Place
        requires row { row < 16 }
        requires col { col < columns_at self.now.device x y }
        ensures place { result ≡ place_of self.now (record { x = x; y = y; row = row; col = col }) }
        ensures in_plane { IsInCram self.now.device result }
        // No other bit of a tile lies there.
        ensures only { (other : TileBit) → IsTileBit self.now.device other → place_of self.now other ≡ result
            → other ≡ record { x = x; y = y; row = row; col = col } }
    {
        place_on(self, TileBit { x, y, row, col })
    }

    /// Where a bit of a word lies in the RAM planes; (x, y) is the RAM's lower tile.
    pub fn bram_place(&self, x: u8, y: u8, word: u8, bit: u8) -> Place
        requires lower { kind_of self.now.device x y ≡ Some TileKind.RamB }
        requires bit { bit < 16 }
        ensures place { result ≡ word_place_of self.now (record { x = x; y = y; word = word; bit = bit }) }
        ensures in_plane { IsInBram self.now.device result }
        // No other bit of a word lies there.
        ensures only { (other : WordBit) → IsWordBit self.now.device other → word_place_of self.now other ≡ result
            → other ≡ record { x = x; y = y; word = word; bit = bit } }
        // At each place of the RAM planes lies a bit of a word.
        ensures onto { (at : Place) → IsInBram self.now.device at → (word_bit : WordBit) × IsWordBit self.now.device word_bit × (word_place_of self.now word_bit ≡ at) }
    {
        place_of_word(self, WordBit { x, y, word, bit })
    }

    /// Where the rows of the tile at (x, y) lie in the configuration planes, or `None` if there is no tile.
    pub fn tile_runs(&self, x: u8, y: u8) -> Option<TileRuns>
        ensures { MatchOption result (columns_at self.now.device x y ≡ 0) (AreRunsOf self.now x y) }
    {
        tile_runs_on(self, x, y)
    }

    /// The run in which a row of a tile lies, by the answer of `tile_runs` for its tile.
    pub fn run_of_row(&self, runs: TileRuns, row: u8) -> Run
        requires row { row < 16 }
        requires runs { AreRunsOf self.now runs.x runs.y runs }
        ensures run { result ≡ row_run self.now runs row }
        ensures in_planes { IsRunIn (cram_width self.now.device) (cram_height self.now.device) runs.length result }
        ensures columns { (col : ℕ) → col < columns_at self.now.device runs.x runs.y
            → column_of self.now (record { x = runs.x; y = runs.y; row = row; col = col }) < runs.length }
        // Column c of the row is the bit of the run that `column_of` says.
        ensures places { (col : ℕ) → col < columns_at self.now.device runs.x runs.y
            → place_of self.now (record { x = runs.x; y = runs.y; row = row; col = col })
            ≡ run_place result runs.length (column_of self.now (record { x = runs.x; y = runs.y; row = row; col = col })) }
    {
        run_of_row(self, runs, row)
    }

    /// For an io tile, which bits of its runs the 18 columns are. `None` for any other tile, of which column c is bit c of the run.
    pub fn io_columns(&self, runs: TileRuns) -> Option<&[u8; 18]>
        requires { AreRunsOf self.now runs.x runs.y runs }
        ensures order { MatchOption result ((row col : ℕ) → column_of self.now (record { x = runs.x; y = runs.y; row = row; col = col }) ≡ col)
            (λ columns. (row col : ℕ) → column_of self.now (record { x = runs.x; y = runs.y; row = row; col = col }) ≡ slice_index columns.now col) }
        ensures io { is_some result ≡ runs.is_io }
        ensures whole { IfNone result (runs.length ≡ columns_at self.now.device runs.x runs.y) }
        ensures eighteen { IfSome result (λ _. columns_at self.now.device runs.x runs.y ≡ 18) }
        ensures within { IfSome result (λ columns. (col : ℕ) → col < 18 → slice_index columns.now col < runs.length) }
        ensures few { runs.length ≤ 64 }
    {
        if !runs.is_io {
            None
        } else if on_side(self.device, runs.x as u32) {
            Some(&self.side_columns)
        } else {
            Some(&self.pad_columns)
        }
    }

    /// Where the 16 bits of a word lie in the RAM planes; (x, y) is the RAM's lower tile.
    pub fn word_run(&self, x: u8, y: u8, word: u8) -> Run
        requires { kind_of self.now.device x y ≡ Some TileKind.RamB }
        ensures run { result ≡ word_run self.now x y word }
        ensures in_planes { IsRunIn (bram_width self.now.device) (bram_height self.now.device) 16 result }
        ensures places { (bit : ℕ) → bit < 16 → word_place_of self.now (record { x = x; y = y; word = word; bit = bit }) ≡ run_place result 16 bit }
    {
        run_of_word(self, x, y, word)
    }

    /// The row of tiles whose bits lie in row `py` of the configuration plane of a bank, and which row of each of these tiles.
    pub fn tile_row_at(&self, bank: u8, py: u16) -> TileRow
        requires bank { bank < 4 }
        requires row { py < cram_height self.now.device }
        ensures in_tile { result.row < 16 }
        ensures only { (bit : TileBit) → IsTileBit self.now.device bit → (place_of self.now bit).bank ≡ bank → (place_of self.now bit).py ≡ py
            → (bit.y ≡ result.y) × (bit.row ≡ result.row) }
        ensures there { (bit : TileBit) → IsTileBit self.now.device bit → bit.y ≡ result.y → bit.row ≡ result.row → (place_of self.now bit).py ≡ py }
    {
        tile_row_on(self, bank, py)
    }

    /// The one bit of a tile that lies at a place of the configuration planes, or `None` if the place is that of an extra bit.
    pub fn owner_of(&self, at: Place) -> Option<TileBit>
        requires { IsInCram self.now.device at }
        ensures owner { MatchOption result (IsExtraBit self.now at) (λ bit. IsTileBit self.now.device bit × (place_of self.now bit ≡ at)) }
        ensures only { IfSome result (λ bit. (other : TileBit) → IsTileBit self.now.device other → place_of self.now other ≡ at → other ≡ bit) }
    {
        owner_on(self, at)
    }

    /// How many columns of bits a column of tiles takes.
    pub(crate) fn width(&self, distance: u32) -> u32
        requires { distance < half_width self.now.device }
        ensures value { result ≡ width_of self.now distance }
        ensures fits { start_of self.now distance + result ≤ cram_width self.now.device }
    {
        self.widths[distance as usize] as u32
    }

    /// How many columns of bits the columns of tiles nearer to the edge take.
    pub(crate) fn start(&self, distance: u32) -> u32
        requires { distance < half_width self.now.device }
        ensures { result ≡ start_of self.now distance }
    {
        self.starts[distance as usize] as u32
    }

    /// The column of bits of a column of an io tile of the left or the right edge.
    pub(crate) fn side_column(&self, col: u8) -> u32
        requires { col < 18 }
        ensures { result ≡ slice_index self.now.side_columns col }
    {
        self.side_columns[col as usize] as u32
    }

    /// The column of bits of a column of an io tile of the bottom or the top row.
    pub(crate) fn pad_column(&self, col: u8) -> u32
        requires { col < 18 }
        ensures { result ≡ slice_index self.now.pad_columns col }
    {
        self.pad_columns[col as usize] as u32
    }

    /// The row of bits of a row of an io tile of the bottom or the top row, counted from the inner end.
    pub(crate) fn pad_row(&self, row: u8) -> u32
        requires { row < 16 }
        ensures value { result ≡ slice_index self.now.pad_rows row }
        ensures in_tile { result < 16 }
    {
        self.pad_rows[row as usize] as u32
    }

    /// The bank of a quarter of the grid.
    pub(crate) fn bank(&self, quarter: u8) -> u8
        requires { quarter < 4 }
        ensures value { result ≡ slice_index self.now.banks quarter }
        ensures in_plane { result < 4 }
    {
        self.banks[quarter as usize]
    }

    /// The column of an io tile of the left or the right edge that takes a column of bits, if one does.
    pub(crate) fn side_col_at(&self, column: u32) -> Option<u8>
        ensures { MatchOption result ((col : ℕ) → col < 18 → slice_index self.now.side_columns col ≢ column)
            (λ col. (col < 18) × (slice_index self.now.side_columns col ≡ column)) }
    {
        let col = index_of(&self.side_columns, column)?;
        Some(col as u8)
    }

    /// The column of an io tile of the bottom or the top row that takes a column of bits, if one does.
    pub(crate) fn pad_col_at(&self, column: u32) -> Option<u8>
        ensures { MatchOption result ((col : ℕ) → col < 18 → slice_index self.now.pad_columns col ≢ column)
            (λ col. (col < 18) × (slice_index self.now.pad_columns col ≡ column)) }
    {
        let col = index_of(&self.pad_columns, column)?;
        Some(col as u8)
    }

    /// The row of an io tile of the bottom or the top row that takes a row of bits, counted from the inner end.
    pub(crate) fn pad_row_at(&self, row: u32) -> u8
        requires { row < 16 }
        ensures in_tile { result < 16 }
        ensures value { slice_index self.now.pad_rows result ≡ row }
    {
        match index_of(&self.pad_rows, row) {
            Some(index) => index as u8,
            None => unreachable!(),
        }
    }

    /// The quarter of the grid whose bits are in a bank.
    pub(crate) fn quarter(&self, bank: u8) -> u8
        requires { bank < 4 }
        ensures in_grid { result < 4 }
        ensures value { slice_index self.now.banks result ≡ bank }
    {
        match index_of(&self.banks, bank as u32) {
            Some(index) => index as u8,
            None => unreachable!(),
        }
    }

    /// Whether the columns of tiles of an inner row, or of an end row, run towards the side edge in the right half.
    pub(crate) fn mirrors(&self, end: bool) -> bool
        ensures { result ≡ (if end then self.now.pad_mirror else self.now.mirror) }
    {
        if end { self.pad_mirror } else { self.mirror }
    }

    /// Whether the rows of tiles run towards the end edge in the top half.
    pub(crate) fn flips(&self) -> bool
        ensures { result ≡ self.now.flip }
    {
        self.flip
    }

    /// Whether the RAMs of the top half are counted from the top.
    pub(crate) fn flips_rams(&self) -> bool
        ensures { result ≡ self.now.ram_flip }
    {
        self.ram_flip
    }
}

/// The first index of an entry.
fn index_of(entries: &[u8], entry: u32) -> Option<usize>
    ensures { MatchOption result ((k : ℕ) → k < length entries.now → slice_index entries.now k ≢ entry)
        (λ index. (index < length entries.now) × (slice_index entries.now index ≡ entry)) }
{
    entries.iter().position(|x| u32::from(*x) == entry)
}
