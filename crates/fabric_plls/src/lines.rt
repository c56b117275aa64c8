// Lines of PLLs, and what they name.
ghost use Rattle.std.specs.Prelude.{◌≡◌, ◌++◌, bytes_eq, codes, find, IfOk, option_copied, Some};
ghost use Rattle.std.specs.Option.{option_map};
ghost use Rattle.ice_image.specs.Either.{configuration_of};
ghost use Rattle.chipdb_reader.specs.Fit.{IsFit};
ghost use Rattle.chipdb_reader.specs.Kept.{database_in, pll_line, pll_of};
ghost use Rattle.fabric_model.specs.Nets.{net_named};
ghost use Rattle.fabric_model.specs.Plls.{line_named, is_line_on, net_by, pin_by, pin_number};

use crate::tile::io_tile;
use chipdb_reader::{ChipDb, PinXy, PllCell, PllLine};
use fabric_model::is_on;
use ice_image::AnyImage;
use plane_map::TileKind;
use std::alloc::{AllocError, Global};

/// The line that has the name.
fn line_in<'a>(lines: &'a [PllLine], name: &[u8]) -> Option<&'a PllLine>
    ensures { option_copied result ≡ find (λ line. bytes_eq name.now line.name.items) lines.now }
{
    lines.iter().find(|line| name == line.name.as_slice())
}

/// The line of a PLL that has the name.
fn line_named<'a>(pll: &'a PllCell, name: &[u8]) -> Option<&'a PllLine>
    ensures { option_map pll_line (option_copied result) ≡ line_named name.now (pll_of pll.now) }
{
    line_in(&pll.lines, name)
}

// ---- functions

/// The name of the function that a line names by its word.
fn function_name(alloc: Global, word: &[u8]) -> Result<Vec<u8>, AllocError>
    ensures { IfOk result (λ name. name.items ≡ codes "PLL." ++ word.now) }
{
    let mut name = b"PLL.".to_vec(alloc)?;
    name.extend_from_slice(word)?;
    Ok(name)
}

/// Whether the function is on that a line of a PLL names. It isn't if there is no line of that name, or no io tile at its place.
///
/// # Errors
/// `AllocError` if memory is out, and for no other cause.
pub(crate) fn is_line_on(
    alloc: Global,
    db: &ChipDb,
    image: &AnyImage,
    pll: &PllCell,
    name: &[u8],
) -> Result<bool, AllocError>
    ensures { IfOk result (λ on. on ≡ is_line_on (database_in db.now) (configuration_of image.now) (line_named name.now (pll_of pll.now))) }
{
    match line_named(pll, name) {
        None => Ok(false),
        Some(line) => is_named_on(alloc, db, image, line),
    }
}

/// Whether the function that a line names is on there.
fn is_named_on(
    alloc: Global,
    db: &ChipDb,
    image: &AnyImage,
    line: &PllLine,
) -> Result<bool, AllocError>
    ensures { IfOk result (λ on. on ≡ is_line_on (database_in db.now) (configuration_of image.now) (Some (pll_line line.now))) }
{
    match io_tile(image, line.x, line.y) {
        None => Ok(false),
        Some(tile) => {
            let name = function_name(alloc, &line.word)?;
            Ok(is_on(db, image, TileKind::Io, tile.x, tile.y, &name))
        }
    }
}

// ---- pins

/// The number of a pin.
fn pin_number(word: &[u8]) -> Option<u8>
    ensures { result ≡ pin_number word.now }
{
    if b"0".as_slice() == word {
        Some(0)
    } else if b"1".as_slice() == word {
        Some(1)
    } else {
        None
    }
}

/// The pin that a line of a PLL tells, which is one of an io tile.
pub(crate) fn pin_by(image: &AnyImage, pll: &PllCell, name: &[u8]) -> Option<PinXy>
    ensures { result ≡ pin_by (configuration_of image.now) (line_named name.now (pll_of pll.now)) }
{
    match line_named(pll, name) {
        None => None,
        Some(line) => pin_at(image, line),
    }
}

/// The pin of an io tile that a line tells.
fn pin_at(image: &AnyImage, line: &PllLine) -> Option<PinXy>
    ensures { result ≡ pin_by (configuration_of image.now) (Some (pll_line line.now)) }
{
    match io_tile(image, line.x, line.y) {
        None => None,
        Some(tile) => match pin_number(&line.word) {
            None => None,
            Some(n) => Some(PinXy {
                x: tile.x,
                y: tile.y,
                n,
            }),
        },
    }
}

// ---- nets

/// The net of a name at a place, which may be outside of the grid.
fn net_at(db: &ChipDb, x: u32, y: u32, name: &[u8]) -> Option<u32>
    requires { IsFit (database_in db.now) }
    ensures { result ≡ net_named (database_in db.now) x y name.now }
{
    if x < 256 && y < 256 {
        db.net_of(x as u8, y as u8, name)
    } else {
        None
    }
}

/// The net that a line of a PLL tells.
pub(crate) fn net_by(db: &ChipDb, pll: &PllCell, name: &[u8]) -> Option<u32>
    requires { IsFit (database_in db.now) }
    ensures { result ≡ net_by (database_in db.now) (line_named name.now (pll_of pll.now)) }
{
    match line_named(pll, name) {
        None => None,
        Some(line) => net_at(db, line.x, line.y, &line.word),
    }
}
