// Block RAMs.

/// A used RAM, named by its lower tile. A port is the net with the port's name in the lower tile, else in the upper one, or `None` if
/// neither tile has such a net.
#[derive(Clone, Copy)]
pub struct RamCell {
    pub x: u8,
    pub y: u8,
    /// The mode in which words are read, 0 to 3: words of 16, 8, 4 or 2 bits.
    pub read: u8,
    /// The mode in which words are written, as `read`.
    pub write: u8,
    /// Whether words are written at falling clock edges.
    pub wneg: bool,
    /// Whether words are read at falling clock edges.
    pub rneg: bool,
    /// `ram/RDATA_0` to `ram/RDATA_15`.
    pub rdata: [Option<u32>; 16],
    /// `ram/WDATA_0` to `ram/WDATA_15`.
    pub wdata: [Option<u32>; 16],
    /// `ram/MASK_0` to `ram/MASK_15`.
    pub mask: [Option<u32>; 16],
    /// `ram/WADDR_0` to `ram/WADDR_10`. Mode m uses the first 8 + m of them.
    pub waddr: [Option<u32>; 11],
    /// `ram/RADDR_0` to `ram/RADDR_10`.
    pub raddr: [Option<u32>; 11],
    /// `ram/WCLK`.
    pub wclk: Option<u32>,
    /// `ram/WCLKE`.
    pub wclke: Option<u32>,
    /// `ram/WE`.
    pub we: Option<u32>,
    /// `ram/RCLK`.
    pub rclk: Option<u32>,
    /// `ram/RCLKE`.
    pub rclke: Option<u32>,
    /// `ram/RE`.
    pub re: Option<u32>,
}
