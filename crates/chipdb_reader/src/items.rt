// What lines of a database give.
use chipdb_lines::BitList;
use name_arena::NameId;
use plane_map::{Place, TileKind};

/// A name that a net has in the tile at (x, y).
#[derive(Clone, Copy, Debug, PartialEq, Eq, PartialOrd, Ord)]
pub struct NetName {
    pub x: u8,
    pub y: u8,
    pub name: NameId,
}

/// A link from the net `src` to the net `dst` in the tile at (x, y). It is on if each of its bits has its value.
#[derive(Clone, Copy, Debug, PartialEq, Eq)]
pub struct LinkLine {
    /// The values of the bits; the value of the first bit is the lowest bit of the number.
    pub values: u64,
    pub dst: u32,
    pub src: u32,
    pub bits: BitList,
    pub x: u8,
    pub y: u8,
}

/// A function of the tiles of a kind, and its bits in each of them.
#[derive(Clone, Copy, Debug, PartialEq, Eq)]
pub struct Function {
    pub kind: TileKind,
    pub name: NameId,
    pub bits: BitList,
}

/// An extra bit, and its place in the configuration planes.
#[derive(Clone, Copy, Debug, PartialEq, Eq)]
pub struct Extra {
    pub name: NameId,
    pub at: Place,
}

/// The PLL at (x, y), and the first line of each name below its statement, in the order of the text. The place may be outside of the grid.
#[derive(Debug, Drop)]
pub struct PllCell {
    pub x: u32,
    pub y: u32,
    pub lines: Vec<PllLine>,
}

/// A line of a PLL: the name of a part, a place, which may be outside of the grid, and a word that says what the part is there.
#[derive(Debug, Drop)]
pub struct PllLine {
    pub name: Vec<u8>,
    pub x: u32,
    pub y: u32,
    pub word: Vec<u8>,
}

/// A tile, by its place in the grid.
#[derive(Clone, Copy, Debug, PartialEq, Eq)]
pub struct TileXy8 {
    pub x: u8,
    pub y: u8,
}

/// A pad of an io tile: pad `n` of the tile at (x, y).
#[derive(Clone, Copy, Debug, PartialEq, Eq)]
pub struct PinXy {
    pub x: u8,
    pub y: u8,
    pub n: u8,
}
