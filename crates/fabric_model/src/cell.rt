// Logic cells.

/// A used logic cell: cell `i` of the logic tile at (x, y). Each port is the net with the port's name in the tile, or `None` if the tile
/// has no such net.
#[derive(Clone, Copy, Debug, PartialEq, Eq)]
pub struct LogicCell {
    pub x: u8,
    pub y: u8,
    pub i: u8,
    /// The entries of the LUT: entry k is the bit of value 2 to the power of k.
    pub lut: u16,
    /// Whether the carry of the cell is on.
    pub carry: bool,
    /// Whether it has a flip-flop.
    pub flip: bool,
    /// Whether `lutff_global/s_r` sets the flip-flop; if not, it resets it.
    pub set: bool,
    /// Whether the cell has a flip-flop with an asynchronous set or reset.
    pub is_async: bool,
    /// Whether the flip-flop takes its value at falling clock edges.
    pub neg: bool,
    /// `lutff_i/in_0` to `lutff_i/in_3`.
    pub ins: [Option<u32>; 4],
    /// `lutff_i/out`.
    pub out: Option<u32>,
    /// `lutff_i/lout`.
    pub lout: Option<u32>,
    /// `lutff_i/cout`.
    pub cout: Option<u32>,
    /// The carry-in: the carry-out of the cell before in the tile, or `carry_in_mux` for cell 0.
    pub cin: Option<u32>,
    /// `lutff_global/clk`.
    pub clk: Option<u32>,
    /// `lutff_global/cen`.
    pub cen: Option<u32>,
    /// `lutff_global/s_r`.
    pub sr: Option<u32>,
}

/// The net `carry_in_mux` of the logic tile at (x, y), which `CarryInSet` ties to 1.
#[derive(Clone, Copy, Debug, PartialEq, Eq)]
pub struct CarrySet {
    pub x: u8,
    pub y: u8,
    pub net: u32,
}
