// Pins and global nets.
ghost use Rattle.std.specs.Prelude.{◌≡◌};
ghost use Rattle.fabric_model.specs.Pins.{drives, is_switched};

use crate::pll::PllOutput;

/// When a pin drives its pad: bits 5 and 4 of its PIN_TYPE.
#[derive(Clone, Copy, Debug, PartialEq, Eq)]
pub enum PadDrive {
    Never,
    Always,
    /// If `io_n/OUT_ENB` is 1.
    ByNet,
    /// If its register of `io_n/OUT_ENB` is 1.
    ByRegister,
}

/// What a pin drives its pad with: bits 3 and 2 of its PIN_TYPE.
#[derive(Clone, Copy, Debug, PartialEq, Eq)]
pub enum PadData {
    /// `io_n/D_OUT_0`.
    Plain,
    /// Its register of `io_n/D_OUT_0`.
    Registered,
    /// The inverse of that register.
    Inverted,
    /// That register in one half of the clock, and its register of `io_n/D_OUT_1` in the other.
    Double,
}

/// What `io_n/D_IN_0` is of the pad: bits 1 and 0 of the pin's PIN_TYPE, unless an output of a PLL has the pin.
#[derive(Clone, Copy, Debug, PartialEq, Eq)]
pub enum PadInput {
    /// The pad as it is.
    Plain,
    /// A register that takes the pad.
    Registered,
    /// A latch may hold it.
    Latched,
    /// It isn't the pin's: the input side of the pin belongs to a PLL.
    Nothing,
}

/// Pin `n` of the io tile at (x, y).
#[derive(Clone, Copy, Debug, PartialEq, Eq)]
pub struct Pin {
    pub x: u8,
    pub y: u8,
    pub n: u8,
    pub drive: PadDrive,
    pub sends: PadData,
    pub takes: PadInput,
    /// Whether `io_n/D_IN_0` is the pin's, and is read.
    pub reads_0: bool,
    /// Whether `io_n/D_IN_1` is the pin's, and is read.
    pub reads_1: bool,
    /// Whether it is the pad of a global network that is driven by it.
    pub is_global: bool,
    /// Whether the registers of the tile take their values at the opposite edge: `NegClk`.
    pub neg: bool,
    /// `io_global/inclk`, the clock of the registers of its inputs.
    pub inclk: Option<u32>,
    /// `io_global/outclk`, the clock of the registers of its outputs.
    pub outclk: Option<u32>,
    /// `io_global/cen`, the clock enable of its registers.
    pub cen: Option<u32>,
    /// `io_n/D_IN_0`.
    pub din_0: Option<u32>,
    /// `io_n/D_IN_1`.
    pub din_1: Option<u32>,
    /// `io_n/D_OUT_0`.
    pub dout_0: Option<u32>,
    /// `io_n/D_OUT_1`.
    pub dout_1: Option<u32>,
    /// `io_n/OUT_ENB`, the output enable.
    pub enable: Option<u32>,
    /// The inner net of what it drives its pad with, if pins of every kind are taken. It is driven if that is made by a LUT.
    pub data_net: Option<u32>,
    /// The inner net of its pad, if pins of every kind are taken. It is driven if the pad is a choice.
    pub pad_net: Option<u32>,
}

impl Pin {
    /// Whether it ever drives its pad.
    pub fn drives(self) -> bool
        ensures { result ≡ drives self }
    {
        match self.drive {
            PadDrive::Never => false,
            PadDrive::Always | PadDrive::ByNet | PadDrive::ByRegister => true,
        }
    }

    /// Whether it drives its pad at times.
    pub fn is_switched(self) -> bool
        ensures { result ≡ is_switched self }
    {
        match self.drive {
            PadDrive::Never | PadDrive::Always => false,
            PadDrive::ByNet | PadDrive::ByRegister => true,
        }
    }
}

/// A net of the global network `g`, and what drives the global network.
#[derive(Clone, Copy, Debug, PartialEq, Eq)]
pub struct GlobalNet {
    pub g: u8,
    pub net: u32,
    pub from: GlobalFrom,
}

/// What drives a global network.
#[derive(Clone, Copy, Debug, PartialEq, Eq)]
pub enum GlobalFrom {
    /// Pin `n` of the io tile at (x, y).
    Pad { x: u8, y: u8, n: u8 },
    /// An output of the PLL at (x, y) whose pin has the pad.
    Pll { x: u32, y: u32, output: PllOutput },
    /// The net `fabout` of an io tile.
    Fabout { net: u32 },
}
