// Floor plans as data.

use plane_map::{DeviceName, TileKind};

/// A used logic cell of a tile.
#[derive(Clone, Copy, Debug, PartialEq, Eq)]
pub struct CellPart {
    /// Its index in the tile, 0 to 7.
    pub i: u8,
    /// The entries of the LUT: entry k is the bit of value 2 to the power of k.
    pub lut: u16,
    /// Whether the carry of the cell is on.
    pub carry: bool,
    /// Whether it has a flip-flop.
    pub flip: bool,
    /// Whether `lutff_global/s_r` sets the flip-flop; if not, it resets it.
    pub set: bool,
    /// Whether the cell has a flip-flop with an asynchronous set or reset.
    pub is_async: bool,
    /// Whether the flip-flop takes its value at falling clock edges.
    pub neg: bool,
}

/// The modes of a used RAM, 0 to 3: words of 16, 8, 4 or 2 bits.
#[derive(Clone, Copy, Debug, PartialEq, Eq)]
pub struct RamPart {
    pub read: u8,
    pub write: u8,
}

/// A pin that is a port.
#[derive(Clone, Copy, Debug, PartialEq, Eq)]
pub struct PinPart {
    /// Its number in the tile, 0 or 1.
    pub n: u8,
    /// Whether the design has an input of it: a value that comes from outside.
    pub is_input: bool,
    /// Whether it ever drives its pad.
    pub is_output: bool,
    /// Whether it drives its pad at times, by its output enable.
    pub is_switched: bool,
    /// Whether it has a register: of an input, an output or the output enable.
    pub has_register: bool,
    /// Whether it has two data rates: both halves of a clock.
    pub is_double: bool,
    /// Whether it drives its pad with the inverse of its register.
    pub is_inverted: bool,
    /// Whether its pad drives a global network.
    pub is_global: bool,
}

/// What stands in a tile.
#[derive(Clone, Copy, Debug, PartialEq, Eq)]
pub enum Part {
    /// A used logic cell.
    Cell(CellPart),
    /// The lower tile of a used RAM.
    Lower(RamPart),
    /// The upper tile of a used RAM.
    Upper(RamPart),
    /// A pin that is a port.
    Pin(PinPart),
}

/// A part at its place: column `x` and row `y` of the grid.
#[derive(Clone, Copy, Debug, PartialEq, Eq)]
pub struct Mark {
    pub x: u8,
    pub y: u8,
    pub part: Part,
}

/// A tile with what stands in it.
#[derive(Debug, Drop)]
pub struct PlanTile {
    pub x: u8,
    pub y: u8,
    pub kind: TileKind,
    /// How many links are on in it.
    pub links: usize,
    /// The marks at its place: cells by their index, pins by their number.
    pub marks: Vec<Mark>,
}

/// What drives a global network.
#[derive(Clone, Copy, Debug, PartialEq, Eq)]
pub enum GlobalSource {
    /// Pin `n` of the tile.
    Pin { n: u8 },
    /// The output `a` or `b` of the PLL at (x, y), which has pin `n` of the tile.
    Pll { n: u8, x: u32, y: u32, is_b: bool },
    /// The net `fabout` of the tile.
    Fabric,
}

/// Global network `g`, 0 to 7, at the io tile that drives it.
#[derive(Clone, Copy, Debug, PartialEq, Eq)]
pub struct GlobalMark {
    pub g: u8,
    pub x: u8,
    pub y: u8,
    pub source: GlobalSource,
    /// Whether one of its nets is read.
    pub is_read: bool,
}

/// The PLL at (x, y), which is on. The place may be outside of the grid.
#[derive(Clone, Copy, Debug, PartialEq, Eq)]
pub struct PllMark {
    pub x: u32,
    pub y: u32,
    /// Whether it has the output `b` beside `a`.
    pub has_b: bool,
}

/// A floor plan: what stands where on a device.
#[derive(Debug, Drop)]
pub struct FloorPlan {
    pub device: DeviceName,
    /// The tiles of the device, by row, then by column.
    pub tiles: Vec<PlanTile>,
    /// The PLLs that are on, by their tiles.
    pub plls: Vec<PllMark>,
    /// The global networks that drive a net, by their number.
    pub globals: Vec<GlobalMark>,
}
