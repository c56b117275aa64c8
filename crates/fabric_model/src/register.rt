// Registers of one bit.
ghost use Rattle.std.specs.Prelude.{◌≡◌};
ghost use Rattle.fabric_model.specs.Registers.{is_of_inputs, user_of};

use crate::driver::ClockUser;
use crate::signal::Signal;

/// A register of a pin (`SB_IO`).
///
/// The own edge of a tile's registers is the rising edge of the clock, or the falling one if `NegClk` is on. The other edge is the opposite one.
#[derive(Clone, Copy, Debug, PartialEq, Eq)]
pub enum PinRegister {
    /// That of `io_n/D_IN_0`, which takes the pad.
    Input,
    /// That of `io_n/D_IN_1`, which takes the pad at the other edge.
    SecondInput,
    /// The clock enable of the second input, as it was at the last own edge.
    InputClockEnable,
    /// That of `io_n/D_OUT_0`.
    Output,
    /// That of `io_n/D_OUT_1`, which takes it at the other edge.
    SecondOutput,
    /// The clock enable of the second output, as it was at the last own edge.
    OutputClockEnable,
    /// That of `io_n/OUT_ENB`.
    OutputEnable,
}

impl PinRegister {
    /// Whether its clock is `io_global/inclk`. That of the others is `io_global/outclk`.
    pub fn is_of_inputs(self) -> bool
        ensures { result ≡ is_of_inputs self }
    {
        match self {
            PinRegister::Input | PinRegister::SecondInput | PinRegister::InputClockEnable => true,
            PinRegister::Output
            | PinRegister::SecondOutput
            | PinRegister::OutputClockEnable
            | PinRegister::OutputEnable => false,
        }
    }
}

/// What a register is in its tile.
#[derive(Clone, Copy, Debug, PartialEq, Eq)]
pub enum RegisterKind {
    /// The flip-flop of cell `i`.
    FlipFlop { i: u8 },
    /// A register of pin `n`.
    OfPin { n: u8, register: PinRegister },
}

impl RegisterKind {
    /// What it is as a user of its clock.
    pub fn user(self) -> ClockUser
        ensures { result ≡ user_of self }
    {
        match self {
            RegisterKind::FlipFlop { i } => ClockUser::Cell { i },
            RegisterKind::OfPin { n, register } => {
                if register.is_of_inputs() {
                    ClockUser::Input { n }
                } else {
                    ClockUser::Output { n }
                }
            }
        }
    }
}

/// A LUT.
#[derive(Clone, Copy, Debug, PartialEq, Eq)]
pub struct LutTable {
    /// The entries: entry k is the bit of value 2 to the power of k.
    pub word: u16,
    /// The inputs `in_0` to `in_3`.
    pub ins: [Signal; 4],
}

/// A register of one bit at the tile at (x, y).
#[derive(Clone, Copy, Debug, PartialEq, Eq)]
pub struct Register {
    pub x: u8,
    pub y: u8,
    pub kind: RegisterKind,
    /// The net that it drives.
    pub out: Option<u32>,
    /// The clock. Without one there are no edges.
    pub clk: Option<u32>,
    /// Whether it takes its value at falling clock edges.
    pub neg: bool,
    /// The clock enable.
    pub enable: Signal,
    /// The set or reset; 0 if there is no net, or if nothing drives it.
    pub sr: Option<u32>,
    /// The value that `sr` gives it: 1 for a set, 0 for a reset.
    pub set: bool,
    /// Whether `sr` is an asynchronous set or reset.
    pub is_async: bool,
    /// The LUT whose value it takes at a clock edge.
    pub table: LutTable,
}
