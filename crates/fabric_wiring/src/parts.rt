// The parts of a fabric.

use fabric_model::{
    CarrySet, FabricOptions, GlobalNet, Links, LogicCell, Pin, PllSource, RamCell, Register,
};

/// A buffer that is on: its index among the buffers of the database, and its two nets.
#[derive(Clone, Copy, Debug, PartialEq, Eq)]
pub struct Buffer {
    pub line: u32,
    pub src: u32,
    pub dst: u32,
}

/// The parts of a fabric. Each list is ordered by tile (by row, then by column), then by index. Outputs of PLLs are ordered by the PLL, then by
/// the number of the output, nets of global networks by the number of the network, then by net, and buffers by line.
#[derive(Drop)]
pub struct Parts {
    /// The links that are on, and the classes of joined nets.
    pub links: Links,
    /// The buffers that are on.
    pub buffers: Vec<Buffer>,
    /// The pins that are ports.
    pub pins: Vec<Pin>,
    /// The outputs of PLLs that are ports.
    pub plls: Vec<PllSource>,
    pub globals: Vec<GlobalNet>,
    /// What is taken, and which inputs the LUTs of the cells read.
    pub options: FabricOptions,
    /// The used cells.
    pub lcs: Vec<LogicCell>,
    /// The registers: the flip-flops of the cells, then the registers of pins.
    pub registers: Vec<Register>,
    /// The carry inputs that are set.
    pub sets: Vec<CarrySet>,
    /// The used RAMs.
    pub rams: Vec<RamCell>,
}
