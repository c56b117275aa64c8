// What a name can be declared as.

/// What a name is declared as.
#[derive(Clone, Copy, Debug, PartialEq, Eq)]
pub enum Sort {
    /// An input port.
    Input,
    /// An output port.
    Output,
    /// A register of one bit.
    Register,
    /// A register of 16 bits.
    Word,
    /// A memory of 256 words of 16 bits.
    Memory,
    /// A wire.
    Wire,
}
