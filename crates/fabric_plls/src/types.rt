// Types of PLLs.
ghost use Rattle.std.specs.Prelude.{◌≡◌, IfOk};
ghost use Rattle.ice_image.specs.Either.{configuration_of};
ghost use Rattle.chipdb_reader.specs.Kept.{database_in, pll_of};
ghost use Rattle.fabric_model.specs.Plls.{pll_type, type_by};

use crate::lines::is_line_on;
use chipdb_reader::{ChipDb, PllCell};
use fabric_model::PllType;
use ice_image::AnyImage;
use std::alloc::{AllocError, Global};

/// The type that three bits form.
fn type_by(high: bool, middle: bool, low: bool) -> PllType
    ensures { result ≡ type_by high middle low }
{
    match (high, middle, low) {
        (false, false, false) => PllType::Off,
        (false, true, _) => PllType::OneOutput,
        (true, true, _) | (true, false, false) => PllType::TwoOutputs,
        (_, false, true) => PllType::Unknown,
    }
}

/// The type of a PLL.
///
/// # Errors
/// `AllocError` if memory is out, and for no other cause.
#[tactic(auto, unfolding(fabric_model::specs::Plls::pll_type))]
pub(crate) fn pll_type(
    alloc: Global,
    db: &ChipDb,
    image: &AnyImage,
    pll: &PllCell,
) -> Result<PllType, AllocError>
    ensures { IfOk result (λ kind. kind ≡ pll_type (database_in db.now) (configuration_of image.now) (pll_of pll.now)) }
{
    let high = is_line_on(alloc, db, image, pll, b"PLLTYPE_2")?;
    let middle = is_line_on(alloc, db, image, pll, b"PLLTYPE_1")?;
    let low = is_line_on(alloc, db, image, pll, b"PLLTYPE_0")?;
    Ok(type_by(high, middle, low))
}
