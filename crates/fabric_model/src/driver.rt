// What drives nets, and what uses clocks.

use crate::pll::PllOutput;

/// What drives a net. Drivers are ordered by kind, in the order below, then by tile (by row, then by column), then by `n`, `i` or `bit`.
/// A `Global` is ordered by `g`, then by net, a `Link` by `line`, and a `PllOut` by its PLL, then by the number of its output.
#[derive(Clone, Copy, Debug, PartialEq, Eq)]
pub enum Driver {
    /// The pad of a pin that never drives it, on its `io_n/D_IN_0`.
    Pin { x: u8, y: u8, n: u8 },
    /// The pad of a pin that drives it, on its `io_n/D_IN_0`.
    Readback { x: u8, y: u8, n: u8 },
    /// The LUT of a cell without a flip-flop, on `lutff_i/out`.
    Lut { x: u8, y: u8, i: u8 },
    /// A flip-flop, on `lutff_i/out`.
    FlipFlop { x: u8, y: u8, i: u8 },
    /// The LUT of a cell, on `lutff_i/lout`.
    LutOut { x: u8, y: u8, i: u8 },
    /// The carry-out of a cell, on `lutff_i/cout`.
    Carry { x: u8, y: u8, i: u8 },
    /// The constant 1 on `carry_in_mux`.
    CarrySet { x: u8, y: u8 },
    /// A bit of a RAM's read register, on `ram/RDATA_bit`.
    Ram { x: u8, y: u8, bit: u8 },
    /// A global network, on one of its nets.
    Global { g: u8, net: u32 },
    /// The buffer with that index among the buffers of the database, on its destination.
    Link { line: u32 },
    /// The register of a pin, on its `io_n/D_IN_0`.
    PinReg { x: u8, y: u8, n: u8 },
    /// The second input register of a pin, on its `io_n/D_IN_1`.
    PinReg1 { x: u8, y: u8, n: u8 },
    /// What a pin drives its pad with, on its first inner net.
    Data { x: u8, y: u8, n: u8 },
    /// The pad of a pin that drives it at times, on its second inner net.
    Pad { x: u8, y: u8, n: u8 },
    /// An output of the PLL at (x, y), on `io_n/D_IN_0` of its pin, or on the net of `lock` or `sdo`.
    PllOut { x: u32, y: u32, output: PllOutput },
}

/// What uses a clock at a tile.
#[derive(Clone, Copy, Debug, PartialEq, Eq)]
pub enum ClockUser {
    /// The flip-flop of cell `i`.
    Cell { i: u8 },
    /// A register of the inputs of pin `n`.
    Input { n: u8 },
    /// A register of the outputs of pin `n`.
    Output { n: u8 },
    /// The read port of a RAM.
    Read,
    /// The write port of a RAM.
    Write,
}
