// Input ports.

use crate::pll::PllOutput;

/// An input port of a module, whose value events give.
#[derive(Clone, Copy, Debug, PartialEq, Eq)]
pub enum InputPort {
    /// The pad of a pin that never drives it: pin `n` of the io tile at (x, y).
    Pad { x: u8, y: u8, n: u8 },
    /// What the outside puts on the pad of a pin that drives it at times, while it doesn't: pin `n` of the io tile at (x, y).
    Outside { x: u8, y: u8, n: u8 },
    /// An output of the PLL at (x, y).
    Pll { x: u32, y: u32, output: PllOutput },
}
