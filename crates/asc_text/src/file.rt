// What a text gives.
ghost use Rattle.std.specs.Prelude.{◌≡◌};

use ice_image::AnyImage;
use std::marker::Model;

/// A byte string, as the name in a [`Symbol`]. Contracts see it as the list of its bytes.
#[derive(Drop)]
pub struct ByteText {
    bytes: Vec<u8>,
}

impl Model for ByteText {
    ghost use Rattle.std.specs.Prelude.{List, ℕ};

    ghost Value = { List ℕ };

    ghost view = { λ text. text.bytes.items };
}

impl ByteText {
    /// The bytes.
    pub fn bytes(&self) -> &[u8]
        ensures { result.now ≡ self.now }
    {
        &self.bytes
    }

    /// The text of bytes.
    pub(crate) fn new(bytes: Vec<u8>) -> ByteText
        ensures { result ≡ bytes.items }
    {
        ByteText { bytes }
    }
}

/// A net and its name.
#[derive(Drop)]
pub struct Symbol {
    pub net: u32,
    pub name: ByteText,
}

/// The configuration that a text describes, and the names of nets in the order of the text.
#[derive(Drop)]
pub struct AscFile {
    pub image: AnyImage,
    pub symbols: Vec<Symbol>,
}
