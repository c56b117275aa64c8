// The statement `.device`.
ghost use Rattle.std.specs.Prelude.{◌≡◌, ◌∷◌, [], Option, Some};
ghost use Rattle.text_lines.specs.Words.{numbers_of};
ghost use Rattle.chipdb_lines.specs.Words.{words_in};
ghost use Rattle.chipdb_lines.specs.Statements.{chip_of_numbers, chip_of_words};

use plane_map::DeviceName;
use text_lines::{Separators, split_word, three_numbers};

/// The device of a database, and its number of nets.
#[derive(Clone, Copy, Debug, PartialEq, Eq)]
pub struct Chip {
    pub device: DeviceName,
    pub nets: u32,
}

/// The device that the words NAME, WIDTH, HEIGHT and NUM_NETS give.
#[tactic(auto, unfolding(crate::specs::Statements::chip_of_words))]
pub(crate) fn chip_of(words: &[u8]) -> Option<Chip>
    ensures { result ≡ chip_of_words (words_in words.now) }
{
    match split_word(Separators::SpacesAndTabs, words) {
        None => None,
        Some((name, sizes)) => sized_chip(DeviceName::named_with_database(name), sizes),
    }
}

/// The device with the words WIDTH, HEIGHT and NUM_NETS.
fn sized_chip(device: Option<DeviceName>, sizes: &[u8]) -> Option<Chip>
    ensures { result ≡ chip_of_numbers device (numbers_of (words_in sizes.now)) }
{
    match device {
        None => None,
        Some(device) => match three_numbers(Separators::SpacesAndTabs, sizes) {
            None => None,
            Some((width, height, nets)) => checked_chip(device, width, height, nets),
        },
    }
}

/// The device, if its grid has that size and the number of nets is allowed.
fn checked_chip(device: DeviceName, width: u32, height: u32, nets: u32) -> Option<Chip>
    ensures { result ≡ chip_of_numbers (Some device) (Some (width ∷ height ∷ nets ∷ [])) }
{
    if width == device.columns() && height == device.rows() && nets <= 16_777_216 {
        Some(Chip { device, nets })
    } else {
        None
    }
}
