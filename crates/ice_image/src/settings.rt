// The settings of an image.

/// The frequency range of the internal oscillator that clocks the configuration.
#[derive(Clone, Copy, Debug, PartialEq, Eq)]
pub enum Range {
    /// Value 0 of the command that sets the range in a bitstream.
    Low,
    /// Value 1 of the command.
    Medium,
    /// Value 2 of the command.
    High,
}

/// What an image sets besides its bits.
#[derive(Clone, Copy, Debug, PartialEq, Eq)]
pub struct Settings {
    /// The frequency range of the oscillator.
    pub range: Range,
    /// Whether warm boot is on: the design may load another image later.
    pub warm_boot: bool,
    /// Whether the SPI flash stays awake after the configuration, and isn't put to sleep.
    pub no_sleep: bool,
}
