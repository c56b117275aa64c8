// A boot file that was split.
use ice_image::AnyImage;

/// An image of a boot file.
#[derive(Drop)]
pub struct BootImage {
    /// Its offset in the file.
    pub address: u32,
    pub image: AnyImage,
}

/// A boot file that was split.
#[derive(Drop)]
pub struct BootFile {
    /// Whether the pins choose the image at a cold boot.
    pub cold: bool,
    /// The index of the image that is booted at power-on.
    pub power: u32,
    /// The index of the image that each of headers 1 to 4 boots.
    pub entries: [u32; 4],
    /// Each image once, in the order of the first of these headers that boots it.
    pub images: Vec<BootImage>,
}
