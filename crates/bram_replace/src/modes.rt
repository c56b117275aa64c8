// Read modes of RAMs.
ghost use Rattle.std.specs.Prelude.{◌≡◌, ◌<◌, ℕ, List, true, Some};
ghost use Rattle.text_lines.specs.Lines.{lines_of};
ghost use Rattle.text_lines.specs.Words.{numbers_of, words_of};
ghost use Rattle.plane_map.specs.Layout.{kind_of};
ghost use Rattle.plane_map.specs.declared.tile.TileKind.TheVariants.{RamB};
ghost use Rattle.ice_image.specs.Either.{configuration_of, device_of};
ghost use Rattle.asc_text.specs.Faults.{tile_named};
ghost use Rattle.asc_text.specs.Characters.{HasBits};
ghost use Rattle.asc_text.specs.Rams.{is_ram_data};
ghost use Rattle.asc_text.specs.Statements.{ram_data_of_numbers, statement_in};
ghost use Rattle.bram_replace.specs.ReadModes.{mode_bit, mode_for, modes_in, read_mode};

use asc_text::TileXy;
use ice_image::AnyImage;
use plane_map::TileBit;
use text_lines::{Separators, split_word, trimmed, two_numbers};

/// Whether each RAM is taken in its read mode, the `READ_MODE` of `SB_RAM40_4K`.
#[derive(Clone, Copy, Debug, PartialEq, Eq)]
pub enum ReadModes {
    /// Each RAM is taken for one of 256 words of 16 bits, which is mode 0.
    Ignored,
    /// A RAM in read mode m is taken for one of 256 * 2^m words of 16 / 2^m bits. The tile above a RAM has its mode; if the text has no
    /// such tile, the mode is 0.
    Followed,
}

/// The mode in which the RAM of a statement is taken, in a text that gives this image.
pub(crate) fn mode_of(modes: ReadModes, image: &AnyImage, statement: &[u8]) -> u8
    requires ram { is_ram_data (statement_in statement.now) ≡ true }
    requires there { (ram : TileXy) → tile_named (statement_in statement.now) ≡ Some ram → kind_of (device_of image.now) ram.x ram.y ≡ Some RamB }
    ensures is { (text : List ℕ) → HasBits text (configuration_of image.now)
        → result ≡ mode_for (modes_in modes (lines_of text)) (tile_named (statement_in statement.now)) }
    ensures few { result < 4 }
{
    match modes {
        ReadModes::Ignored => 0,
        ReadModes::Followed => {
            let ram = ram_named(statement);
            read_mode(image, ram.x as u8, ram.y as u8)
        }
    }
}

/// The RAM that a statement names.
fn ram_named(statement: &[u8]) -> TileXy
    requires { is_ram_data (statement_in statement.now) ≡ true }
    ensures { tile_named (statement_in statement.now) ≡ Some result }
{
    match split_word(Separators::Spaces, trimmed(statement)) {
        Some((_, numbers)) => ram_at(numbers),
        None => unreachable!(),
    }
}

/// The RAM that two numbers name.
fn ram_at(numbers: &[u8]) -> TileXy
    requires { is_ram_data (ram_data_of_numbers (numbers_of (words_of Separators.Spaces numbers.now))) ≡ true }
    ensures { tile_named (ram_data_of_numbers (numbers_of (words_of Separators.Spaces numbers.now))) ≡ Some result }
{
    match two_numbers(Separators::Spaces, numbers) {
        Some((x, y)) => TileXy { x, y },
        None => unreachable!(),
    }
}

/// The read mode of a RAM: RamConfig.CBIT_2, and twice RamConfig.CBIT_3.
fn read_mode(image: &AnyImage, x: u8, y: u8) -> u8
    requires { kind_of (device_of image.now) x y ≡ Some RamB }
    ensures is { (text : List ℕ) → HasBits text (configuration_of image.now) → result ≡ read_mode (lines_of text) x y }
    ensures few { result < 4 }
{
    mode_bit(image, x, y, 3) + 2 * mode_bit(image, x, y, 2)
}

/// A bit of the tile above a RAM, in column 7.
fn mode_bit(image: &AnyImage, x: u8, y: u8, row: u8) -> u8
    requires kind { kind_of (device_of image.now) x y ≡ Some RamB }
    requires row { row < 16 }
    ensures is { (text : List ℕ) → HasBits text (configuration_of image.now) → result ≡ mode_bit (lines_of text) x y row }
    ensures few { result < 2 }
{
    let at = TileBit {
        x,
        y: y + 1,
        row,
        col: 7,
    };
    u8::from(image.tile_bit(at))
}
