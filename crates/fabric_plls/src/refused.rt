// PLLs that aren't taken.
ghost use Rattle.std.specs.Prelude.{◌≡◌, ◌||◌, IfOk, take};
ghost use Rattle.std.specs.Option.{option_map};
ghost use Rattle.std.specs.List.{flat_map};
ghost use Rattle.ice_image.specs.Either.{configuration_of};
ghost use Rattle.chipdb_reader.specs.Fit.{IsFit};
ghost use Rattle.chipdb_reader.specs.Kept.{database_in, pll_of};
ghost use Rattle.fabric_model.specs.declared.pll.PllOutput.TheVariants as output;
ghost use Rattle.fabric_model.specs.Plls.{is_misplaced, is_same_pin, is_refused_as, output_pin, refused_tiles};
ghost use Rattle.fabric_model.specs.Tiles.{first_of};
ghost use Rattle.fabric_plls.specs.Tiles.{place_of};

use crate::outputs::output_pin;
use crate::sources::append_sources;
use crate::tile::TilePlace;
use crate::types::pll_type;
use chipdb_reader::{ChipDb, PinXy, PllCell};
use fabric_model::{PllOutput, PllSource, PllType, is_pin_at, is_pll_place};
use ice_image::AnyImage;
use std::alloc::{AllocError, Global};

/// Whether an output has no pin, or that of one of these outputs.
fn is_misplaced(sources: &[PllSource], pin: Option<PinXy>) -> bool
    ensures { result ≡ is_misplaced sources.now pin }
{
    match pin {
        None => true,
        Some(pin) => is_pll_place(sources, pin.x, pin.y, pin.n),
    }
}

/// Whether two outputs have one pin.
fn is_same_pin(pin: Option<PinXy>, other: Option<PinXy>) -> bool
    ensures { result ≡ is_same_pin pin other }
{
    match pin {
        None => false,
        Some(pin) => is_pin_at(pin.x, pin.y, pin.n, other),
    }
}

/// Whether a PLL of that type isn't taken, whose outputs `a` and `b` have these pins, given the outputs of the PLLs before it.
fn is_refused_as(sources: &[PllSource], a: Option<PinXy>, b: Option<PinXy>, kind: PllType) -> bool
    ensures { result ≡ is_refused_as sources.now a b kind }
{
    match kind {
        PllType::Off => false,
        PllType::OneOutput => is_misplaced(sources, a),
        PllType::TwoOutputs => {
            is_misplaced(sources, a) || (is_misplaced(sources, b) || is_same_pin(a, b))
        }
        PllType::Unknown => true,
    }
}

/// Whether a PLL of that type isn't taken, given the outputs of the PLLs before it.
fn is_refused(sources: &[PllSource], image: &AnyImage, pll: &PllCell, kind: PllType) -> bool
    ensures { result ≡ is_refused_as sources.now (output_pin (configuration_of image.now) (pll_of pll.now) output.A) (output_pin (configuration_of image.now) (pll_of pll.now) output.B) kind }
{
    let a = output_pin(image, pll, PllOutput::A);
    let b = output_pin(image, pll, PllOutput::B);
    is_refused_as(sources, a, b, kind)
}

/// The tile of the first PLL that isn't taken.
///
/// # Errors
/// `AllocError` if memory is out, and for no other cause.
pub(crate) fn first_refused(
    alloc: Global,
    db: &ChipDb,
    image: &AnyImage,
) -> Result<Option<TilePlace>, AllocError>
    requires { IsFit (database_in db.now) }
    ensures { IfOk result (λ tile. option_map place_of tile ≡ first_of (refused_tiles (database_in db.now) (configuration_of image.now))) }
{
    let mut sources = Vec::new(alloc);
    for pll in db.plls() {
        let kind = pll_type(alloc, db, image, pll)?;
        if is_refused(&sources, image, pll, kind) {
            return Ok(Some(TilePlace { x: pll.x, y: pll.y }));
        }
        append_sources(&mut sources, db, image, pll, kind)?;
    }
    Ok(None)
}
