// Lines of the statements `.gbufin` and `.gbufpin`.
ghost use Rattle.std.specs.Prelude.{◌≡◌, ◌∷◌, [], Some};
ghost use Rattle.text_lines.specs.Words.{numbers_of};
ghost use Rattle.chipdb_lines.specs.Words.{words_in};
ghost use Rattle.chipdb_lines.specs.Items.{global_input_of, global_input_of_numbers, global_pin_of, global_pin_of_numbers};

use crate::cause::DbCause;
use crate::kinds::is_kind_at;
use plane_map::{DeviceName, TileKind};
use text_lines::{Separators, four_numbers, three_numbers};

/// An io tile whose net `fabout` drives a global net, 0 to 7.
#[derive(Clone, Copy, Debug, PartialEq, Eq)]
pub struct GlobalInput {
    pub x: u8,
    pub y: u8,
    pub global: u8,
}

/// A pad of an io tile, 0 or 1, that drives a global net, 0 to 7.
#[derive(Clone, Copy, Debug, PartialEq, Eq)]
pub struct GlobalPin {
    pub x: u8,
    pub y: u8,
    pub pad: u8,
    pub global: u8,
}

/// Reads the words `X Y GLB` of a line of `.gbufin`.
///
/// # Errors
/// `Number` if the words aren't three numbers, the last at most 7; else `TileKind` if there is no io tile at (X, Y).
#[tactic(auto, unfolding(crate::specs::Items::global_input_of))]
pub fn global_input(device: DeviceName, words: &[u8]) -> Result<GlobalInput, DbCause>
    ensures { result ≡ global_input_of device (words_in words.now) }
{
    match three_numbers(Separators::SpacesAndTabs, words) {
        None => Err(DbCause::Number),
        Some((x, y, global)) => checked_input(device, x, y, global),
    }
}

/// Checks the numbers X, Y and GLB.
fn checked_input(device: DeviceName, x: u32, y: u32, global: u32) -> Result<GlobalInput, DbCause>
    ensures { result ≡ global_input_of_numbers device (Some (x ∷ y ∷ global ∷ [])) }
{
    if global > 7 {
        Err(DbCause::Number)
    } else if is_kind_at(device, TileKind::Io, x, y) {
        Ok(GlobalInput {
            x: x as u8,
            y: y as u8,
            global: global as u8,
        })
    } else {
        Err(DbCause::TileKind)
    }
}

/// Reads the words `X Y PIO GLB` of a line of `.gbufpin`.
///
/// # Errors
/// `Number` if the words aren't four numbers, PIO at most 1 and GLB at most 7; else `TileKind` if there is no io tile at (X, Y).
#[tactic(auto, unfolding(crate::specs::Items::global_pin_of))]
pub fn global_pin(device: DeviceName, words: &[u8]) -> Result<GlobalPin, DbCause>
    ensures { result ≡ global_pin_of device (words_in words.now) }
{
    match four_numbers(Separators::SpacesAndTabs, words) {
        None => Err(DbCause::Number),
        Some((x, y, pad, global)) => checked_pin(device, x, y, pad, global),
    }
}

/// Checks the numbers X, Y, PIO and GLB.
fn checked_pin(
    device: DeviceName,
    x: u32,
    y: u32,
    pad: u32,
    global: u32,
) -> Result<GlobalPin, DbCause>
    ensures { result ≡ global_pin_of_numbers device (Some (x ∷ y ∷ pad ∷ global ∷ [])) }
{
    if pad > 1 || global > 7 {
        Err(DbCause::Number)
    } else if is_kind_at(device, TileKind::Io, x, y) {
        Ok(GlobalPin {
            x: x as u8,
            y: y as u8,
            pad: pad as u8,
            global: global as u8,
        })
    } else {
        Err(DbCause::TileKind)
    }
}
