// Images of any device.
ghost use Rattle.std.specs.Prelude.{◌≡◌, ◌+◌, ◌*◌, ◌<◌, ◌≤◌, ◌↔◌, Some, IfOk, IsTrue, All, true, false, length, take, drop, option_copied, MatchOption};
ghost use Rattle.bit_plane.specs.BitList.{word_bits, word_of, bits_of, bytes_of};
ghost use Rattle.bit_plane.specs.Rows.{flat, rows_of};
ghost use Rattle.plane_map.specs.Layout.{kind_of, columns_at, standard_layout, IsTileBit, IsWordBit, IsInCram};
ghost use Rattle.plane_map.specs.Runs.{AreRunsOf};
ghost use Rattle.ice_image.specs.Configuration.{place_bit, with_place_bit, blank_image, IsWhole};
ghost use Rattle.ice_image.specs.Contents.{IsBitOfTile};
ghost use Rattle.ice_image.specs.Either.{configuration_of, device_of};
ghost use Rattle.ice_image.specs.Extras.{AreSetExtras};
ghost use Rattle.ice_image.specs.Bits.{OfTile, OfWord, Extra, bit_of, listed_bits, row_of, tile_of, ram_word_of, set_extras, row_ones, word_ones, IsSet, IsTileSet, IsWordSet, Gains};
ghost use Rattle.ice_image.specs.Owned.{is_extra};
ghost use Rattle.ice_image.specs.Planes.{plane_width, plane_height, rows_of_bank, with_rows};

use crate::comment::Comment;
use crate::image::Image;
use crate::planes::PlaneKind;
use crate::settings::Settings;
use bit_plane::Tile;
use plane_map::{
    DeviceName, Hx1k, Hx8k, Layout, Lp384, Place, RowCol, TileBit, TileKind, TileRuns, WordBit,
};
use std::alloc::{AllocError, Global};

/// The value of an expression over the image, whichever device the image is for.
macro_rules! with_image {
    ($any:expr, |$image:ident| $given:expr) => {
        match $any {
            AnyImage::Lp384($image) => $given,
            AnyImage::Hx1k($image) => $given,
            AnyImage::Hx8k($image) => $given,
        }
    };
}

/// An image for one of the devices.
#[derive(Drop)]
pub enum AnyImage {
    Lp384(Image<Lp384>),
    Hx1k(Image<Hx1k>),
    Hx8k(Image<Hx8k>),
}

impl AnyImage {
    /// A blank image of a device under its standard layout: no comment, the low oscillator range, warm boot on, the flash put to sleep, and
    /// all bits 0.
    ///
    /// # Errors
    /// `AllocError` if memory is out, and for no other cause.
    pub fn zeroed(alloc: Global, device: DeviceName) -> Result<AnyImage, AllocError>
        ensures { IfOk result (λ image. configuration_of image ≡ blank_image (standard_layout device)) }
    {
        AnyImage::zeroed_with(alloc, Layout::standard(device))
    }

    /// A blank image under a given layout, for the layout's device.
    ///
    /// # Errors
    /// `AllocError` if memory is out, and for no other cause.
    pub fn zeroed_with(alloc: Global, layout: Layout) -> Result<AnyImage, AllocError>
        ensures { IfOk result (λ image. configuration_of image ≡ blank_image layout) }
    {
        Ok(match layout.device() {
            DeviceName::Lp384 => AnyImage::Lp384(Image::zeroed_with(alloc, layout)?),
            DeviceName::Hx1k => AnyImage::Hx1k(Image::zeroed_with(alloc, layout)?),
            DeviceName::Hx8k => AnyImage::Hx8k(Image::zeroed_with(alloc, layout)?),
        })
    }

    /// The layout. No tool of this project needs it: it is for users of the library.
    pub fn layout(&self) -> Layout
        ensures layout { result ≡ (configuration_of self.now).layout }
        ensures whole { IsWhole (configuration_of self.now) }
    {
        with_image!(self, |image| image.layout())
    }

    /// The device.
    pub fn device(&self) -> DeviceName
        ensures device { result ≡ device_of self.now }
        ensures whole { IsWhole (configuration_of self.now) }
    {
        with_image!(self, |image| image.device())
    }

    /// The settings.
    pub fn settings(&self) -> Settings
        ensures { result ≡ (configuration_of self.now).settings }
    {
        with_image!(self, |image| image.settings())
    }

    /// Sets the settings.
    pub fn set_settings(&mut self, settings: Settings)
        ensures device { device_of self.new ≡ device_of self.old }
        ensures changed { configuration_of self.new ≡ record (configuration_of self.old) { settings = settings } }
    {
        with_image!(self, |image| image.set_settings(settings))
    }

    /// The comment, or `None` if there is none.
    pub fn comment(&self) -> Option<&Comment>
        ensures { option_copied result ≡ (configuration_of self.now).comment }
    {
        with_image!(self, |image| image.comment())
    }

    /// Sets the comment, or removes it.
    pub fn set_comment(&mut self, comment: Option<Comment>)
        ensures device { device_of self.new ≡ device_of self.old }
        ensures changed { configuration_of self.new ≡ record (configuration_of self.old) { comment = comment } }
    {
        with_image!(self, |image| image.set_comment(comment))
    }

    /// A bit of a tile.
    pub fn tile_bit(&self, at: TileBit) -> bool
        requires { IsTileBit (device_of self.now) at }
        ensures { result ≡ bit_of (configuration_of self.now) (OfTile at) }
    {
        with_image!(self, |image| image.tile_bit(at))
    }

    /// Sets a bit of a tile.
    pub fn set_tile_bit(&mut self, at: TileBit, bit: bool)
        requires { IsTileBit (device_of self.old) at }
        ensures device { device_of self.new ≡ device_of self.old }
        ensures bits { IsSet (OfTile at) bit (configuration_of self.old) (configuration_of self.new) }
    {
        with_image!(self, |image| image.set_tile_bit(at, bit))
    }

    /// The bits of a row of a tile as a word. Column c is the bit of value 2^c.
    pub fn tile_row(&self, x: u8, y: u8, row: u8) -> u64
        requires { row < 16 }
        ensures { result ≡ word_of (row_of (configuration_of self.now) x y row) }
    {
        with_image!(self, |image| image.tile_row(x, y, row))
    }

    /// Sets the bits of a row of a tile at which `ones` has a 1. Column c is the bit of value 2^c; bits after the tile's
    /// columns are ignored, and nothing changes if there is no tile.
    pub fn set_ones(&mut self, x: u8, y: u8, row: u8, ones: u64)
        requires { row < 16 }
        ensures device { device_of self.new ≡ device_of self.old }
        ensures bits { Gains (row_ones x y row ones) (configuration_of self.old) (configuration_of self.new) }
    {
        with_image!(self, |image| image.set_ones(x, y, row, ones))
    }

    /// Where the rows of the tile at (x, y) lie, or `None` if there is no tile.
    pub fn tile_runs(&self, x: u8, y: u8) -> Option<TileRuns>
        ensures { MatchOption result (columns_at (device_of self.now) x y ≡ 0) (AreRunsOf (configuration_of self.now).layout x y) }
    {
        with_image!(self, |image| image.tile_runs(x, y))
    }

    /// Sets the bits of a row of a tile at which `ones` has a 1, as `set_ones` does, by the answer of `tile_runs` for that tile. Calls for
    /// several rows of one tile look it up only once this way.
    pub fn set_ones_in(&mut self, runs: TileRuns, row: u8, ones: u64)
        requires row { row < 16 }
        requires runs { AreRunsOf (configuration_of self.old).layout runs.x runs.y runs }
        ensures device { device_of self.new ≡ device_of self.old }
        ensures bits { Gains (row_ones runs.x runs.y row ones) (configuration_of self.old) (configuration_of self.new) }
    {
        with_image!(self, |image| image.set_ones_in(runs, row, ones))
    }

    /// Sets an extra bit.
    pub fn set_extra_bit(&mut self, at: Place, bit: bool)
        requires { is_extra (configuration_of self.old).layout at ≡ true }
        ensures device { device_of self.new ≡ device_of self.old }
        ensures bits { IsSet (Extra at) bit (configuration_of self.old) (configuration_of self.new) }
    {
        with_image!(self, |image| image.set_extra_bit(at, bit))
    }

    /// The bit at a place of the configuration planes.
    pub fn cram_bit(&self, at: Place) -> bool
        requires { IsInCram (device_of self.now) at }
        ensures { result ≡ place_bit (configuration_of self.now).cram at }
    {
        with_image!(self, |image| image.cram_bit(at))
    }

    /// Sets the bit at a place of the configuration planes. No tool of this project needs it: it is for users of the library.
    pub fn set_cram_bit(&mut self, at: Place, bit: bool)
        requires { IsInCram (device_of self.old) at }
        ensures device { device_of self.new ≡ device_of self.old }
        ensures changed { configuration_of self.new ≡ record (configuration_of self.old) { cram = with_place_bit (configuration_of self.old).cram at bit } }
    {
        with_image!(self, |image| image.set_cram_bit(at, bit))
    }

    /// The tile at (x, y), which has C columns. The tools read rows or bits of a tile: this is for users of the library who want it whole.
    pub fn tile<const C: usize>(&self, x: u8, y: u8) -> Tile<C>
        requires { columns_at (device_of self.now) x y ≡ C }
        ensures { result ≡ tile_of (configuration_of self.now) x y }
    {
        with_image!(self, |image| image.tile(x, y))
    }

    /// Sets all bits of the tile at (x, y), which has C columns, to the bits of `tile`. No tool of this project sets a whole tile: this is
    /// for users of the library.
    pub fn put_tile<const C: usize>(&mut self, x: u8, y: u8, tile: &Tile<C>)
        requires { columns_at (device_of self.old) x y ≡ C }
        ensures device { device_of self.new ≡ device_of self.old }
        ensures bits { IsTileSet x y tile.now (configuration_of self.old) (configuration_of self.new) }
    {
        with_image!(self, |image| image.put_tile(x, y, tile))
    }

    /// Whether bit k of the list has the value of bit k of `values`, for each k.
    pub fn tile_equals(&self, x: u8, y: u8, bits: &[RowCol], values: u64) -> bool
        requires few { length bits.now ≤ 64 }
        requires in_tile { All (IsBitOfTile (configuration_of self.now).layout x y) bits.now }
        ensures { IsTrue result ↔ (listed_bits (configuration_of self.now) x y bits.now ≡ word_bits (length bits.now) values) }
    {
        with_image!(self, |image| image.tile_equals(x, y, bits, values))
    }

    /// A word of the RAM whose lower tile is at (x, y), bit b having the value 2^b.
    pub fn ram_word(&self, x: u8, y: u8, word: u8) -> u16
        requires { kind_of (device_of self.now) x y ≡ Some TileKind.RamB }
        ensures { result ≡ ram_word_of (configuration_of self.now) x y word }
    {
        with_image!(self, |image| image.ram_word(x, y, word))
    }

    /// Sets a word of the RAM whose lower tile is at (x, y), bit b having the value 2^b. No tool of this project sets a whole word: this is
    /// for users of the library.
    pub fn set_ram_word(&mut self, x: u8, y: u8, word: u8, value: u16)
        requires { kind_of (device_of self.old) x y ≡ Some TileKind.RamB }
        ensures device { device_of self.new ≡ device_of self.old }
        ensures bits { IsWordSet x y word value (configuration_of self.old) (configuration_of self.new) }
    {
        with_image!(self, |image| image.set_ram_word(x, y, word, value))
    }

    /// Sets the bits of a word of the RAM whose lower tile is at (x, y) at which `ones` has a 1. Bit b has the value 2^b.
    pub fn set_word_ones(&mut self, x: u8, y: u8, word: u8, ones: u16)
        requires { kind_of (device_of self.old) x y ≡ Some TileKind.RamB }
        ensures device { device_of self.new ≡ device_of self.old }
        ensures bits { Gains (word_ones x y word ones) (configuration_of self.old) (configuration_of self.new) }
    {
        with_image!(self, |image| image.set_word_ones(x, y, word, ones))
    }

    /// Sets a bit of a word of a RAM.
    pub fn set_word_bit(&mut self, at: WordBit, bit: bool)
        requires { IsWordBit (device_of self.old) at }
        ensures device { device_of self.new ≡ device_of self.old }
        ensures bits { IsSet (OfWord at) bit (configuration_of self.old) (configuration_of self.new) }
    {
        with_image!(self, |image| image.set_word_bit(at, bit))
    }

    /// The place of the configuration planes with these numbers, or `None` if there is no such place or it belongs to a tile.
    pub fn extra_place(&self, bank: u32, px: u32, py: u32) -> Option<Place>
        ensures { MatchOption result (is_extra (configuration_of self.now).layout (record { bank = bank; px = px; py = py }) ≡ false)
            (λ at. (is_extra (configuration_of self.now).layout at ≡ true) × (at ≡ record { bank = bank; px = px; py = py })) }
    {
        with_image!(self, |image| image.extra_place(bank, px, py))
    }

    /// Fills `out` with the bytes of `count` rows of a bank's plane, from row `first` on, the most significant bit of each
    /// byte first.
    pub fn rows(&self, kind: PlaneKind, bank: usize, first: usize, count: usize, out: &mut [u8])
        requires bank { bank < 4 }
        requires rows { first + count ≤ plane_height kind (device_of self.now) }
        requires bytes { 8 * length out.old ≡ count * plane_width kind (device_of self.now) }
        ensures { out.new ≡ bytes_of (length out.old) (flat (take count (drop first (rows_of_bank kind bank (configuration_of self.now))))) }
    {
        with_image!(self, |image| image.rows(kind, bank, first, count, out))
    }

    /// Sets `count` rows of a bank's plane, from row `first` on, to the bits of bytes, the most significant bit of each byte
    /// first.
    pub fn set_rows(
        &mut self,
        kind: PlaneKind,
        bank: usize,
        first: usize,
        count: usize,
        bytes: &[u8],
    )
        requires bank { bank < 4 }
        requires rows { first + count ≤ plane_height kind (device_of self.old) }
        requires bytes { 8 * length bytes.now ≡ count * plane_width kind (device_of self.old) }
        ensures device { device_of self.new ≡ device_of self.old }
        ensures rows { configuration_of self.new ≡ with_rows kind bank first (rows_of (plane_width kind (device_of self.old)) count (bits_of bytes.now)) (configuration_of self.old) }
    {
        with_image!(
            self,
            |image| image.set_rows(kind, bank, first, count, bytes)
        )
    }

    /// The set bits of the configuration planes that belong to no tile, by bank, then by row, then by column.
    ///
    /// # Errors
    /// `AllocError` if memory is out, and for no other cause.
    pub fn extra_bits(&self, alloc: Global) -> Result<Vec<Place>, AllocError>
        ensures exact { IfOk result (λ places. AreSetExtras (configuration_of self.now).layout (configuration_of self.now).cram places.items) }
        ensures bits { IfOk result (λ places. places.items ≡ set_extras (configuration_of self.now)) }
    {
        with_image!(self, |image| image.extra_bits(alloc))
    }
}
