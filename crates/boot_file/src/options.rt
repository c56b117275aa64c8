// How images are joined.

/// How images are joined.
#[derive(Clone, Copy, Debug, PartialEq, Eq)]
pub struct Options {
    /// Whether the pins choose the image at a cold boot.
    pub cold: bool,
    /// The index of the image that is booted at power-on.
    pub power_on: u32,
    /// The index of the image that each of headers 1 to 4 boots. If there is no such image, the header boots the first one.
    pub entries: [u32; 4],
    /// If it is given, images begin at multiples of 2 to the power of it.
    pub align: Option<u32>,
    /// Whether the first image begins at such a multiple too, and not right after the headers.
    pub align_first: bool,
}
