// Images of a device.
ghost use Rattle.std.specs.Prelude.{◌≡◌, ◌+◌, ◌*◌, ◌<◌, ◌≤◌, ◌↔◌, None, Some, IfOk, IsTrue, All, true, false, length, take, drop, map, option_copied, MatchOption};
ghost use Rattle.std.specs.Borrow.{Lends, sem};
ghost use Rattle.bit_plane.specs.BitList.{word_bits, word_of, bits_of, bytes_of};
ghost use Rattle.bit_plane.specs.Rows.{IsGrid, flat, rows_of};
ghost use Rattle.plane_map.specs.Layout.{kind_of, columns_at, standard_layout, place_of, word_place_of, cram_width, cram_height, bram_width, bram_height, IsTileBit, IsWordBit, IsInCram};
ghost use Rattle.plane_map.specs.Runs.{AreRunsOf};
ghost use Rattle.ice_image.specs.Configuration.{bank_rows, place_bit, with_bank, with_place_bit, SameBut, blank_image, IsWhole};
ghost use Rattle.ice_image.specs.Contents.{tile_rows, IsPlaceOfTile, word_value, IsPlaceOfWord, IsBitOfTile};
ghost use Rattle.ice_image.specs.Extras.{AreSetExtras};
ghost use Rattle.ice_image.specs.Bits.{OfTile, OfWord, Extra, bit_of, listed_bits, row_of, ram_word_of, set_extras, row_ones, word_ones, IsSet, IsTileSet, IsWordSet, Gains};
ghost use Rattle.ice_image.specs.Owned.{is_extra};
ghost use Rattle.ice_image.specs.Planes.{plane_width, plane_height, rows_of_bank, with_rows};
ghost use Rattle.ice_image.specs.declared.planes.PlaneKind.TheVariants.{Cram, Bram};
ghost use Rattle.ice_image.specs.contracts.image.Image.{the_row};

use crate::banks::Banks;
use crate::comment::Comment;
use crate::extras::{extra_place, extras_of};
use crate::planes::PlaneKind;
use crate::settings::{Range, Settings};
use crate::tiles::{read_tile, row_word, set_ones, set_ones_in, write_tile};
use crate::words::{read_word, set_ones_of_word, write_word};
use bit_plane::{Bits, Tile};
use plane_map::{Device, DeviceName, Layout, Place, RowCol, TileBit, TileKind, TileRuns, WordBit};
use std::alloc::{AllocError, Global};
use std::marker::Model;

/// What a bitstream configures on a device.
#[derive(Drop)]
pub struct Image<D: Device> {
    layout: Layout,
    comment: Option<Comment>,
    settings: Settings,
    cram: Banks<D::Cram>,
    bram: Banks<D::Bram>,
}

impl<D: Device> Model for Image<D> {
    ghost use Rattle.ice_image.specs.Configuration.{Configuration, IsImageOf};

    ghost Value = { Configuration };

    ghost view = { λ image. record { layout = image.layout; comment = image.comment; settings = image.settings; cram = image.cram; bram = image.bram } };

    ghost invariant = { λ image. IsImageOf D.NAME D.Cram.WIDTH D.Cram.HEIGHT D.Bram.WIDTH D.Bram.HEIGHT (record { layout = image.layout; comment = image.comment; settings = image.settings; cram = image.cram; bram = image.bram }) };
}

impl<D: Device> Image<D> {
    /// A blank image under the standard layout: no comment, the low oscillator range, warm boot on, the flash put to sleep, and all bits 0.
    /// The code of this project calls `zeroed_with`: this is the short form, for users of the library.
    ///
    /// # Errors
    /// `AllocError` if memory is out, and for no other cause.
    pub fn zeroed(alloc: Global) -> Result<Image<D>, AllocError>
        ensures { IfOk result (λ image. image ≡ blank_image (standard_layout D.NAME)) }
    {
        Image::zeroed_with(alloc, Layout::standard(D::device_name()))
    }

    /// A blank image under a given layout of the device.
    ///
    /// # Errors
    /// `AllocError` if memory is out, and for no other cause.
    pub fn zeroed_with(alloc: Global, layout: Layout) -> Result<Image<D>, AllocError>
        requires { layout.device ≡ D.NAME }
        ensures { IfOk result (λ image. image ≡ blank_image layout) }
    {
        // Tells the proof that no two bits lie at one place under the layout.
        let _device = layout.device();
        Ok(Image {
            layout,
            comment: None,
            settings: Settings {
                range: Range::Low,
                warm_boot: true,
                no_sleep: false,
            },
            cram: Banks::zeroed(alloc)?,
            bram: Banks::zeroed(alloc)?,
        })
    }

    /// The device.
    pub fn device(&self) -> DeviceName
        ensures name { result ≡ D.NAME }
        ensures device { result ≡ self.now.layout.device }
        ensures whole { IsWhole self.now }
    {
        self.layout.device()
    }

    /// The layout. No tool of this project needs it: it is for users of the library.
    pub fn layout(&self) -> Layout
        ensures layout { result ≡ self.now.layout }
        ensures whole { IsWhole self.now }
    {
        self.layout
    }

    /// The settings.
    pub fn settings(&self) -> Settings
        ensures { result ≡ self.now.settings }
    {
        self.settings
    }

    /// Sets the settings.
    pub fn set_settings(&mut self, settings: Settings)
        ensures { self.new ≡ record self.old { settings = settings } }
    {
        self.settings = settings;
    }

    /// The comment, or `None` if there is none.
    pub fn comment(&self) -> Option<&Comment>
        ensures { option_copied result ≡ self.now.comment }
    {
        self.comment.as_ref()
    }

    /// Sets the comment, or removes it.
    pub fn set_comment(&mut self, comment: Option<Comment>)
        ensures { self.new ≡ record self.old { comment = comment } }
    {
        self.comment = comment;
    }

    /// A bit of a tile.
    pub fn tile_bit(&self, at: TileBit) -> bool
        requires { IsTileBit self.now.layout.device at }
        ensures place { result ≡ place_bit self.now.cram (place_of self.now.layout at) }
        ensures bit { result ≡ bit_of self.now (OfTile at) }
    {
        self.cram
            .get(self.layout.cram_place(at.x, at.y, at.row, at.col))
    }

    /// Sets a bit of a tile.
    pub fn set_tile_bit(&mut self, at: TileBit, bit: bool)
        requires { IsTileBit self.old.layout.device at }
        ensures changed { self.new ≡ record self.old { cram = with_place_bit self.old.cram (place_of self.old.layout at) bit } }
        ensures bits { IsSet (OfTile at) bit self.old self.new }
    {
        self.cram
            .set(self.layout.cram_place(at.x, at.y, at.row, at.col), bit);
    }

    /// The bits of a row of a tile as a word. Column c is the bit of value 2^c.
    pub fn tile_row(&self, x: u8, y: u8, row: u8) -> u64
        requires { row < 16 }
        ensures { result ≡ word_of (row_of self.now x y row) }
    {
        row_word(&self.layout, &self.cram, x, y, row)
    }

    /// Sets the bits of a row of a tile at which `ones` has a 1. Column c is the bit of value 2^c; bits after the tile's
    /// columns are ignored, and nothing changes if there is no tile.
    pub fn set_ones(&mut self, x: u8, y: u8, row: u8, ones: u64)
        requires { row < 16 }
        ensures { Gains (row_ones x y row ones) self.old self.new }
    {
        set_ones(&self.layout, &mut self.cram, x, y, row, ones);
    }

    /// Where the rows of the tile at (x, y) lie, or `None` if there is no tile.
    pub fn tile_runs(&self, x: u8, y: u8) -> Option<TileRuns>
        ensures { MatchOption result (columns_at self.now.layout.device x y ≡ 0) (AreRunsOf self.now.layout x y) }
    {
        self.layout.tile_runs(x, y)
    }

    /// Sets the bits of a row of a tile at which `ones` has a 1, as `set_ones` does, by the answer of `tile_runs` for that tile. Calls for
    /// several rows of one tile look it up only once this way.
    pub fn set_ones_in(&mut self, runs: TileRuns, row: u8, ones: u64)
        requires row { row < 16 }
        requires runs { AreRunsOf self.old.layout runs.x runs.y runs }
        ensures { Gains (row_ones runs.x runs.y row ones) self.old self.new }
    {
        set_ones_in(&self.layout, &mut self.cram, runs, row, ones);
    }

    /// Sets an extra bit.
    pub fn set_extra_bit(&mut self, at: Place, bit: bool)
        requires { is_extra self.old.layout at ≡ true }
        ensures { IsSet (Extra at) bit self.old self.new }
    {
        self.cram.set(at, bit);
    }

    /// The bit at a place of the configuration planes.
    pub fn cram_bit(&self, at: Place) -> bool
        requires { IsInCram self.now.layout.device at }
        ensures { result ≡ place_bit self.now.cram at }
    {
        self.cram.get(at)
    }

    /// Sets the bit at a place of the configuration planes. No tool of this project needs it: it is for users of the library.
    pub fn set_cram_bit(&mut self, at: Place, bit: bool)
        requires { IsInCram self.old.layout.device at }
        ensures { self.new ≡ record self.old { cram = with_place_bit self.old.cram at bit } }
    {
        self.cram.set(at, bit);
    }

    /// The configuration plane of a bank. No tool of this project needs it: it is for users of the library.
    pub fn cram(&self, bank: usize) -> &D::Cram
        requires { bank < 4 }
        ensures { D.Cram.rows result.now ≡ bank_rows self.now.cram bank }
    {
        self.cram.plane(bank)
    }

    /// The configuration plane of a bank, to be changed.
    pub fn cram_mut(&mut self, bank: usize) -> &mut D::Cram
        requires { bank < 4 }
        ensures* writes_back { sem 𝓛 (Lends (the_row D.row D.Cram.row D.Bram.row D.Device D.Cram.Bits D.Bram.Bits) D.Cram.row self.entry result (λ plane. record self.old { cram = with_bank self.old.cram bank (D.Cram.rows plane) })) }
        ensures plane { D.Cram.rows result.now ≡ bank_rows self.old.cram bank }
    {
        self.cram.plane_mut(bank)
    }

    /// The RAM plane of a bank. No tool of this project needs it: it is for users of the library.
    pub fn bram(&self, bank: usize) -> &D::Bram
        requires { bank < 4 }
        ensures { D.Bram.rows result.now ≡ bank_rows self.now.bram bank }
    {
        self.bram.plane(bank)
    }

    /// The RAM plane of a bank, to be changed.
    pub fn bram_mut(&mut self, bank: usize) -> &mut D::Bram
        requires { bank < 4 }
        ensures* writes_back { sem 𝓛 (Lends (the_row D.row D.Cram.row D.Bram.row D.Device D.Cram.Bits D.Bram.Bits) D.Bram.row self.entry result (λ plane. record self.old { bram = with_bank self.old.bram bank (D.Bram.rows plane) })) }
        ensures plane { D.Bram.rows result.now ≡ bank_rows self.old.bram bank }
    {
        self.bram.plane_mut(bank)
    }

    /// The tile at (x, y), which has C columns. The tools read rows or bits of a tile: this is for users of the library who want it whole.
    pub fn tile<const C: usize>(&self, x: u8, y: u8) -> Tile<C>
        requires { columns_at self.now.layout.device x y ≡ C }
        ensures { result ≡ tile_rows self.now.layout self.now.cram x y }
    {
        read_tile(&self.layout, &self.cram, x, y)
    }

    /// Sets all bits of the tile at (x, y), which has C columns, to the bits of `tile`. No tool of this project sets a whole tile: this is
    /// for users of the library.
    pub fn put_tile<const C: usize>(&mut self, x: u8, y: u8, tile: &Tile<C>)
        requires { columns_at self.old.layout.device x y ≡ C }
        ensures tile { tile_rows self.old.layout self.new.cram x y ≡ tile.now }
        ensures others { SameBut (IsPlaceOfTile self.old.layout x y) self.old.cram self.new.cram }
        ensures rest { self.new ≡ record self.old { cram = self.new.cram } }
        ensures whole { IsWhole self.new }
        ensures bits { IsTileSet x y tile.now self.old self.new }
    {
        write_tile(&self.layout, &mut self.cram, x, y, tile);
    }

    /// Whether bit k of the list has the value of bit k of `values`, for each k.
    pub fn tile_equals(&self, x: u8, y: u8, bits: &[RowCol], values: u64) -> bool
        requires few { length bits.now ≤ 64 }
        requires in_tile { All (IsBitOfTile self.now.layout x y) bits.now }
        ensures { IsTrue result ↔ (listed_bits self.now x y bits.now ≡ word_bits (length bits.now) values) }
    {
        for (index, bit) in bits.iter().enumerate() {
            let at = TileBit {
                x,
                y,
                row: bit.row,
                col: bit.col,
            };
            if self.tile_bit(at) != (values >> index & 1 == 1) {
                return false;
            }
        }
        true
    }

    /// A word of the RAM whose lower tile is at (x, y), bit b having the value 2^b.
    pub fn ram_word(&self, x: u8, y: u8, word: u8) -> u16
        requires { kind_of self.now.layout.device x y ≡ Some TileKind.RamB }
        ensures place { result ≡ word_value self.now.layout self.now.bram x y word }
        ensures bits { result ≡ ram_word_of self.now x y word }
    {
        read_word(&self.layout, &self.bram, x, y, word)
    }

    /// Sets a word of the RAM whose lower tile is at (x, y), bit b having the value 2^b. No tool of this project sets a whole word: this is
    /// for users of the library.
    pub fn set_ram_word(&mut self, x: u8, y: u8, word: u8, value: u16)
        requires { kind_of self.old.layout.device x y ≡ Some TileKind.RamB }
        ensures word { word_value self.old.layout self.new.bram x y word ≡ value }
        ensures others { SameBut (IsPlaceOfWord self.old.layout x y word) self.old.bram self.new.bram }
        ensures rest { self.new ≡ record self.old { bram = self.new.bram } }
        ensures whole { IsWhole self.new }
        ensures bits { IsWordSet x y word value self.old self.new }
    {
        write_word(&self.layout, &mut self.bram, x, y, word, value);
    }

    /// Sets the bits of a word of the RAM whose lower tile is at (x, y) at which `ones` has a 1. Bit b has the value 2^b.
    pub fn set_word_ones(&mut self, x: u8, y: u8, word: u8, ones: u16)
        requires { kind_of self.old.layout.device x y ≡ Some TileKind.RamB }
        ensures { Gains (word_ones x y word ones) self.old self.new }
    {
        set_ones_of_word(&self.layout, &mut self.bram, x, y, word, ones);
    }

    /// Sets a bit of a word of a RAM.
    pub fn set_word_bit(&mut self, at: WordBit, bit: bool)
        requires { IsWordBit self.old.layout.device at }
        ensures changed { self.new ≡ record self.old { bram = with_place_bit self.old.bram (word_place_of self.old.layout at) bit } }
        ensures bits { IsSet (OfWord at) bit self.old self.new }
    {
        self.bram
            .set(self.layout.bram_place(at.x, at.y, at.word, at.bit), bit);
    }

    /// The set bits of the configuration planes that belong to no tile, by bank, then by row, then by column.
    ///
    /// # Errors
    /// `AllocError` if memory is out, and for no other cause.
    pub fn extra_bits(&self, alloc: Global) -> Result<Vec<Place>, AllocError>
        ensures exact { IfOk result (λ places. AreSetExtras self.now.layout self.now.cram places.items) }
        ensures bits { IfOk result (λ places. places.items ≡ set_extras self.now) }
    {
        extras_of(&self.layout, &self.cram, alloc)
    }

    /// The place of the configuration planes with these numbers, or `None` if there is no such place or it belongs to a tile.
    pub fn extra_place(&self, bank: u32, px: u32, py: u32) -> Option<Place>
        ensures { MatchOption result (is_extra self.now.layout (record { bank = bank; px = px; py = py }) ≡ false)
            (λ at. (is_extra self.now.layout at ≡ true) × (at ≡ record { bank = bank; px = px; py = py })) }
    {
        extra_place(&self.layout, bank, px, py)
    }

    /// Fills `out` with the bytes of `count` rows of a bank's plane, from row `first` on, the most significant bit of each
    /// byte first.
    pub fn rows(&self, kind: PlaneKind, bank: usize, first: usize, count: usize, out: &mut [u8])
        requires bank { bank < 4 }
        requires rows { first + count ≤ plane_height kind self.now.layout.device }
        requires bytes { 8 * length out.old ≡ count * plane_width kind self.now.layout.device }
        ensures bytes { out.new ≡ bytes_of (length out.old) (flat (take count (drop first (rows_of_bank kind bank self.now)))) }
    {
        match kind {
            PlaneKind::Cram => self.cram.plane(bank).take_bytes(first, count, out),
            PlaneKind::Bram => self.bram.plane(bank).take_bytes(first, count, out),
        }
    }

    /// Sets `count` rows of a bank's plane, from row `first` on, to the bits of bytes, the most significant bit of each byte
    /// first.
    pub fn set_rows(
        &mut self,
        kind: PlaneKind,
        bank: usize,
        first: usize,
        count: usize,
        bytes: &[u8],
    )
        requires bank { bank < 4 }
        requires rows { first + count ≤ plane_height kind self.old.layout.device }
        requires bytes { 8 * length bytes.now ≡ count * plane_width kind self.old.layout.device }
        ensures { self.new ≡ with_rows kind bank first (rows_of (plane_width kind self.old.layout.device) count (bits_of bytes.now)) self.old }
    {
        match kind {
            PlaneKind::Cram => self.set_cram_rows(bank, first, count, bytes),
            PlaneKind::Bram => self.set_bram_rows(bank, first, count, bytes),
        }
    }

    /// Sets rows of a bank's configuration plane to the bits of bytes, as `set_rows` does.
    fn set_cram_rows(&mut self, bank: usize, first: usize, count: usize, bytes: &[u8])
        requires bank { bank < 4 }
        requires rows { first + count ≤ cram_height self.old.layout.device }
        requires bytes { 8 * length bytes.now ≡ count * cram_width self.old.layout.device }
        ensures { self.new ≡ with_rows Cram bank first (rows_of (cram_width self.old.layout.device) count (bits_of bytes.now)) self.old }
    {
        // Tells the proof the sizes of the planes.
        let _ = &self.layout;
        let plane = self.cram_mut(bank);
        plane.put_bytes(first, count, bytes);
    }

    /// Sets rows of a bank's RAM plane to the bits of bytes, as `set_rows` does.
    fn set_bram_rows(&mut self, bank: usize, first: usize, count: usize, bytes: &[u8])
        requires bank { bank < 4 }
        requires rows { first + count ≤ bram_height self.old.layout.device }
        requires bytes { 8 * length bytes.now ≡ count * bram_width self.old.layout.device }
        ensures { self.new ≡ with_rows Bram bank first (rows_of (bram_width self.old.layout.device) count (bits_of bytes.now)) self.old }
    {
        // Tells the proof the sizes of the planes.
        let _ = &self.layout;
        let plane = self.bram_mut(bank);
        plane.put_bytes(first, count, bytes);
    }
}
