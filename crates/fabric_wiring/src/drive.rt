// Drivers, and how they make their values.

use fabric_model::{Driver, LutTable, Register, Signal};

/// How a driver makes its value.
#[derive(Clone, Copy, Debug, PartialEq, Eq)]
pub enum Rule {
    /// The value of the input port with that index among those of the fabric.
    PinBit(u32),
    /// A bit that is always the same.
    Constant(bool),
    /// The value of what an input reads.
    Input(Signal),
    /// The value of a LUT.
    TableEntry(LutTable),
    /// The majority of three inputs.
    MajorityOf(Option<u32>, Option<u32>, Option<u32>),
    /// The value of the register with that index among the registers of the fabric.
    RegisterBit { place: u32, register: Register },
    /// A bit of the read register of the RAM with that index among the used RAMs.
    ReadBit { ram: u32, bit: u8 },
    /// The value of another net.
    Copied(u32),
}

/// A driver of a net, and how it makes its value.
#[derive(Clone, Copy, Debug, PartialEq, Eq)]
pub struct Drive {
    pub driver: Driver,
    pub net: u32,
    pub rule: Rule,
}
