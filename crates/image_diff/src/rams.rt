// Words of RAMs that differ.
ghost use Rattle.std.specs.Prelude.{◌≡◌, ◌++◌, ◌∷◌, [], OnOk, Some, codes};
ghost use Rattle.index_search.specs.Places.{gathered_below};
ghost use Rattle.text_lines.specs.Written.{text_of};
ghost use Rattle.plane_map.specs.Layout.{grid_width, kind_of};
ghost use Rattle.ice_image.specs.Either.{configuration_of};
ghost use Rattle.asc_text.specs.Canonical.{grid_line};
ghost use Rattle.image_diff.specs.Differences.{all_ram_changes, ram_changes, word_changes, word_line};

use asc_text::{append_hexadecimal, append_number, end_line};
use ice_image::AnyImage;
use plane_map::{TileKind, kind_on};
use std::alloc::AllocError;

/// Appends all words of RAMs that differ, RAM by RAM.
#[tactic(auto, using(asc_text::proofs::Pieces::joined), unfolding(index_search::specs::Places::gathered_below, crate::specs::Differences::all_ram_changes))]
pub(crate) fn append_rams(
    text: &mut Vec<u8>,
    first: &AnyImage,
    second: &AnyImage,
) -> Result<(), AllocError>
    requires { (configuration_of second.now).layout.device ≡ (configuration_of first.now).layout.device }
    ensures { OnOk result (text.new.items ≡ text.old.items ++ text_of (all_ram_changes (configuration_of first.now) (configuration_of second.now))) }
{
    for y in 0..first.device().rows() {
        append_grid_row(text, first, second, y as u8)?;
    }
    Ok(())
}

/// Appends the words that differ of the RAMs in one row of the grid.
#[tactic(auto, using(asc_text::proofs::Pieces::joined), unfolding(index_search::specs::Places::gathered_below))]
fn append_grid_row(
    text: &mut Vec<u8>,
    first: &AnyImage,
    second: &AnyImage,
    y: u8,
) -> Result<(), AllocError>
    requires { (configuration_of second.now).layout.device ≡ (configuration_of first.now).layout.device }
    ensures { OnOk result (text.new.items ≡ text.old.items ++ text_of (gathered_below (grid_width (configuration_of first.now).layout.device) (λ x. ram_changes (configuration_of first.now) (configuration_of second.now) x y (kind_of (configuration_of first.now).layout.device x y)))) }
{
    for x in 0..first.device().columns() {
        append_place(text, first, second, x as u8, y)?;
    }
    Ok(())
}

/// Appends the words that differ of the RAM whose lower tile is at (x, y), if there is one.
fn append_place(
    text: &mut Vec<u8>,
    first: &AnyImage,
    second: &AnyImage,
    x: u8,
    y: u8,
) -> Result<(), AllocError>
    requires { (configuration_of second.now).layout.device ≡ (configuration_of first.now).layout.device }
    ensures { OnOk result (text.new.items ≡ text.old.items ++ text_of (ram_changes (configuration_of first.now) (configuration_of second.now) x y (kind_of (configuration_of first.now).layout.device x y))) }
{
    match kind_on(first.device(), u32::from(x), u32::from(y)) {
        None => Ok(()),
        Some(kind) => append_tile(text, first, second, kind, x, y),
    }
}

/// Appends the words that differ of a RAM, if this is its lower tile.
#[tactic(auto, using(asc_text::proofs::Pieces::joined))]
fn append_tile(
    text: &mut Vec<u8>,
    first: &AnyImage,
    second: &AnyImage,
    kind: TileKind,
    x: u8,
    y: u8,
) -> Result<(), AllocError>
    requires first { kind_of (configuration_of first.now).layout.device x y ≡ Some kind }
    requires second { kind_of (configuration_of second.now).layout.device x y ≡ Some kind }
    ensures { OnOk result (text.new.items ≡ text.old.items ++ text_of (ram_changes (configuration_of first.now) (configuration_of second.now) x y (Some kind))) }
{
    match kind {
        TileKind::Io => Ok(()),
        TileKind::Logic => Ok(()),
        TileKind::RamB => append_ram(text, first, second, x, y),
        TileKind::RamT => Ok(()),
    }
}

/// Appends the words of a RAM that differ.
fn append_ram(
    text: &mut Vec<u8>,
    first: &AnyImage,
    second: &AnyImage,
    x: u8,
    y: u8,
) -> Result<(), AllocError>
    requires first { kind_of (configuration_of first.now).layout.device x y ≡ Some TileKind.RamB }
    requires second { kind_of (configuration_of second.now).layout.device x y ≡ Some TileKind.RamB }
    ensures { OnOk result (text.new.items ≡ text.old.items ++ text_of (gathered_below 256 (word_changes (configuration_of first.now) (configuration_of second.now) x y))) }
{
    for word in 0..256u16 {
        append_word(text, first, second, x, y, word as u8)?;
    }
    Ok(())
}

/// Appends a word, if it differs.
#[tactic(auto, unfolding(text_lines::specs::Written::text_of))]
fn append_word(
    text: &mut Vec<u8>,
    first: &AnyImage,
    second: &AnyImage,
    x: u8,
    y: u8,
    word: u8,
) -> Result<(), AllocError>
    requires first { kind_of (configuration_of first.now).layout.device x y ≡ Some TileKind.RamB }
    requires second { kind_of (configuration_of second.now).layout.device x y ≡ Some TileKind.RamB }
    ensures { OnOk result (text.new.items ≡ text.old.items ++ text_of (word_changes (configuration_of first.now) (configuration_of second.now) x y word)) }
{
    let before = first.ram_word(x, y, word);
    let after = second.ram_word(x, y, word);
    if before == after {
        Ok(())
    } else {
        append_words(text, x, y, word, before, after)
    }
}

/// Appends the line of a word that differs.
#[tactic(auto, unfolding(text_lines::specs::Written::text_of))]
fn append_words(
    text: &mut Vec<u8>,
    x: u8,
    y: u8,
    word: u8,
    before: u16,
    after: u16,
) -> Result<(), AllocError>
    ensures { OnOk result (text.new.items ≡ text.old.items ++ text_of (word_line x y word before after ∷ [])) }
{
    append_name(text, x, y)?;
    text.extend_from_slice(b" word")?;
    append_number(text, u32::from(word))?;
    text.extend_from_slice(b": -")?;
    append_hexadecimal(text, before)?;
    text.extend_from_slice(b" +")?;
    append_hexadecimal(text, after)?;
    end_line(text)
}

/// Appends `ram` and the place of a RAM.
fn append_name(text: &mut Vec<u8>, x: u8, y: u8) -> Result<(), AllocError>
    ensures { OnOk result (text.new.items ≡ text.old.items ++ grid_line (codes "ram") x y) }
{
    text.extend_from_slice(b"ram")?;
    append_number(text, u32::from(x))?;
    append_number(text, u32::from(y))
}
