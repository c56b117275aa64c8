// What is taken of a configuration.

use crate::lut_inputs::LutInputs;

/// What is taken of a configuration, and how it is read.
#[derive(Clone, Copy, Debug, PartialEq, Eq)]
pub struct FabricOptions {
    /// Which inputs the LUTs of cells read.
    pub lut_inputs: LutInputs,
    /// Whether pins of every kind are taken.
    pub all_pins: bool,
    /// Whether registers may be clocks.
    pub register_clocks: bool,
}
