// The pins and nets of outputs.
ghost use Rattle.std.specs.Prelude.{◌≡◌};
ghost use Rattle.ice_image.specs.Either.{configuration_of};
ghost use Rattle.chipdb_reader.specs.Fit.{IsFit};
ghost use Rattle.chipdb_reader.specs.Kept.{database_in, pll_of};
ghost use Rattle.fabric_model.specs.Plls.{output_line, output_pin, output_net};

use crate::lines::{net_by, pin_by};
use chipdb_reader::{ChipDb, PinXy, PllCell};
use fabric_model::PllOutput;
use ice_image::AnyImage;

/// The name of the line of an output.
fn output_line(output: PllOutput) -> &'static [u8]
    ensures { result.now ≡ output_line output }
{
    match output {
        PllOutput::A => b"PLLOUT_A",
        PllOutput::B => b"PLLOUT_B",
        PllOutput::Lock => b"LOCK",
        PllOutput::Sdo => b"SDO",
    }
}

/// The pin of an output `a` or `b`, if it has one.
#[tactic(auto, unfolding(fabric_model::specs::Plls::output_pin))]
pub(crate) fn output_pin(image: &AnyImage, pll: &PllCell, output: PllOutput) -> Option<PinXy>
    ensures { result ≡ output_pin (configuration_of image.now) (pll_of pll.now) output }
{
    pin_by(image, pll, output_line(output))
}

/// The net of `lock` or `sdo`, if it has one.
#[tactic(auto, unfolding(fabric_model::specs::Plls::output_net))]
pub(crate) fn output_net(db: &ChipDb, pll: &PllCell, output: PllOutput) -> Option<u32>
    requires { IsFit (database_in db.now) }
    ensures { result ≡ output_net (database_in db.now) (pll_of pll.now) output }
{
    net_by(db, pll, output_line(output))
}
