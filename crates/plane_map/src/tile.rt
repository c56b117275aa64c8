// The tiles of a device, and places in its planes.

/// What kind of tile is at a position of the grid.
#[derive(Clone, Copy, Debug, PartialEq, Eq)]
pub enum TileKind {
    /// Input and output pads; 18 columns.
    Io,
    /// Eight logic cells; 54 columns.
    Logic,
    /// The lower tile of a RAM; 42 columns.
    RamB,
    /// The upper tile of a RAM; 42 columns.
    RamT,
}

/// A bit of a tile by its row and column.
#[derive(Clone, Copy, Debug, PartialEq, Eq)]
pub struct RowCol {
    pub row: u8,
    pub col: u8,
}

/// A bit of the tile at (x, y).
#[derive(Clone, Copy, Debug, PartialEq, Eq)]
pub struct TileBit {
    pub x: u8,
    pub y: u8,
    pub row: u8,
    pub col: u8,
}

/// A bit of a word of the RAM whose lower tile is at (x, y), bit 0 being the lowest.
#[derive(Clone, Copy, Debug, PartialEq, Eq)]
pub struct WordBit {
    pub x: u8,
    pub y: u8,
    pub word: u8,
    pub bit: u8,
}

/// Column `px` of row `py` in the plane of a bank.
#[derive(Clone, Copy, Debug, PartialEq, Eq)]
pub struct Place {
    pub bank: u8,
    pub px: u16,
    pub py: u16,
}

/// Bits that lie side by side in row `py` of the plane of a bank.
#[derive(Clone, Copy, Debug, PartialEq, Eq)]
pub struct Run {
    pub bank: u8,
    /// The first column.
    pub px: u16,
    pub py: u16,
    /// Whether bit 0 lies in the last column, and not in the first one.
    pub backwards: bool,
}

/// Where the rows of the tile at (x, y) lie in the configuration planes: each in a run of its own, and all runs in the same
/// columns. Bit 0 of a run lies in its first column, or in its last one if it runs backwards.
#[derive(Clone, Copy, Debug, PartialEq, Eq)]
pub struct TileRuns {
    pub x: u8,
    pub y: u8,
    pub bank: u8,
    /// The first column of each run.
    pub px: u16,
    /// How many bits each run has. An io tile of the bottom or the top row has only 18 columns, which are some of the bits of a run.
    pub length: u8,
    pub backwards: bool,
    /// Whether it is an io tile, whose columns have an order of their own.
    pub is_io: bool,
}

/// One row of bits of all tiles at row `y` of the grid.
#[derive(Clone, Copy, Debug, PartialEq, Eq)]
pub struct TileRow {
    pub y: u8,
    pub row: u8,
}
