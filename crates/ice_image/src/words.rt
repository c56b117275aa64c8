// The words in the RAM planes.
ghost use Rattle.std.specs.Prelude.{◌≡◌, Some};
ghost use Rattle.plane_map.specs.Layout.{kind_of};
ghost use Rattle.ice_image.specs.Configuration.{AreBanks, IsBramSize, SameBut};
ghost use Rattle.ice_image.specs.Contents.{word_value, word_bit_place, IsPlaceOfWord};
ghost use Rattle.ice_image.specs.Written.{IsWritten, bit_of_word, gained_bit};

use crate::banks::Banks;
use crate::runs::{run_word, set_run_ones, write_run};
use bit_plane::Bits;
use plane_map::{Layout, TileKind};

/// A word of the RAM whose lower tile is at (x, y).
pub(crate) fn read_word<P: Bits>(layout: &Layout, bram: &Banks<P>, x: u8, y: u8, word: u8) -> u16
    requires lower { kind_of layout.now.device x y ≡ Some TileKind.RamB }
    requires size { IsBramSize layout.now.device P.WIDTH P.HEIGHT }
    ensures { result ≡ word_value layout.now bram.now x y word }
{
    run_word(bram, layout.word_run(x, y, word), 16) as u16
}

/// Sets a word of the RAM whose lower tile is at (x, y).
pub(crate) fn write_word<P: Bits>(
    layout: &Layout,
    bram: &mut Banks<P>,
    x: u8,
    y: u8,
    word: u8,
    value: u16,
)
    requires lower { kind_of layout.now.device x y ≡ Some TileKind.RamB }
    requires size { IsBramSize layout.now.device P.WIDTH P.HEIGHT }
    requires whole { AreBanks P.WIDTH P.HEIGHT bram.old }
    ensures written { IsWritten (word_bit_place layout.now x y word) (bit_of_word 16 value) 16 bram.old bram.new }
    ensures value { word_value layout.now bram.new x y word ≡ value }
    ensures others { SameBut (IsPlaceOfWord layout.now x y word) bram.old bram.new }
    ensures whole { AreBanks P.WIDTH P.HEIGHT bram.new }
{
    write_run(bram, layout.word_run(x, y, word), 16, value as u64);
}

/// Sets the bits of a word of the RAM whose lower tile is at (x, y) at which `ones` has a 1.
pub(crate) fn set_ones_of_word<P: Bits>(
    layout: &Layout,
    bram: &mut Banks<P>,
    x: u8,
    y: u8,
    word: u8,
    ones: u16,
)
    requires lower { kind_of layout.now.device x y ≡ Some TileKind.RamB }
    requires size { IsBramSize layout.now.device P.WIDTH P.HEIGHT }
    requires whole { AreBanks P.WIDTH P.HEIGHT bram.old }
    ensures written { IsWritten (word_bit_place layout.now x y word) (gained_bit (word_bit_place layout.now x y word) bram.old ones) 16 bram.old bram.new }
    ensures whole { AreBanks P.WIDTH P.HEIGHT bram.new }
{
    set_run_ones(bram, layout.word_run(x, y, word), 16, ones as u64);
}
