// The outputs of PLLs that are on, with their pins and nets.
ghost use Rattle.std.specs.Prelude.{◌≡◌, ◌++◌, IfOk, OnOk};
ghost use Rattle.std.specs.List.{flat_map, list_any};
ghost use Rattle.ice_image.specs.Either.{configuration_of};
ghost use Rattle.chipdb_reader.specs.Fit.{IsFit};
ghost use Rattle.chipdb_reader.specs.Kept.{database_in, pll_of};
ghost use Rattle.fabric_model.specs.Plls.{outputs_in, clock_source, signal_source, source_of, sources_in, pll_sources, is_pll_place, is_pin_at};

use crate::outputs::{output_net, output_pin};
use crate::types::pll_type;
use chipdb_reader::{ChipDb, PinXy, PllCell};
use fabric_model::{PllOutput, PllSource, PllType, io_net};
use ice_image::AnyImage;
use std::alloc::{AllocError, Global};

/// Appends an output `a` or `b`, if it has a pin.
fn append_clock(
    sources: &mut Vec<PllSource>,
    db: &ChipDb,
    pll: &PllCell,
    output: PllOutput,
    pin: Option<PinXy>,
) -> Result<(), AllocError>
    ensures { OnOk result (sources.new.items ≡ sources.old.items ++ clock_source (database_in db.now) (pll_of pll.now) output pin) }
{
    match pin {
        None => Ok(()),
        Some(pin) => {
            sources.push(PllSource {
                x: pll.x,
                y: pll.y,
                output,
                pin: Some(pin),
                net: io_net(db, pin.x, pin.y, pin.n, b"/D_IN_0"),
            })?;
            Ok(())
        }
    }
}

/// Appends `lock` or `sdo`.
fn append_signal(
    sources: &mut Vec<PllSource>,
    db: &ChipDb,
    pll: &PllCell,
    output: PllOutput,
) -> Result<(), AllocError>
    requires { IsFit (database_in db.now) }
    ensures { OnOk result (sources.new.items ≡ sources.old.items ++ signal_source (database_in db.now) (pll_of pll.now) output) }
{
    sources.push(PllSource {
        x: pll.x,
        y: pll.y,
        output,
        pin: None,
        net: output_net(db, pll, output),
    })?;
    Ok(())
}

/// Appends an output.
fn append_source(
    sources: &mut Vec<PllSource>,
    db: &ChipDb,
    image: &AnyImage,
    pll: &PllCell,
    output: PllOutput,
) -> Result<(), AllocError>
    requires { IsFit (database_in db.now) }
    ensures { OnOk result (sources.new.items ≡ sources.old.items ++ source_of (database_in db.now) (configuration_of image.now) (pll_of pll.now) output) }
{
    match output {
        PllOutput::A | PllOutput::B => {
            append_clock(sources, db, pll, output, output_pin(image, pll, output))
        }
        PllOutput::Lock | PllOutput::Sdo => append_signal(sources, db, pll, output),
    }
}

/// The outputs that a PLL of that type has.
fn outputs_in(kind: PllType) -> &'static [PllOutput]
    ensures { result.now ≡ outputs_in kind }
{
    match kind {
        PllType::Off => &[],
        PllType::OneOutput => &[PllOutput::A, PllOutput::Lock, PllOutput::Sdo],
        PllType::TwoOutputs => &[PllOutput::A, PllOutput::B, PllOutput::Lock, PllOutput::Sdo],
        PllType::Unknown => &[PllOutput::Lock, PllOutput::Sdo],
    }
}

/// Appends the outputs of a PLL of that type.
pub(crate) fn append_sources(
    sources: &mut Vec<PllSource>,
    db: &ChipDb,
    image: &AnyImage,
    pll: &PllCell,
    kind: PllType,
) -> Result<(), AllocError>
    requires { IsFit (database_in db.now) }
    ensures { OnOk result (sources.new.items ≡ sources.old.items ++ flat_map (source_of (database_in db.now) (configuration_of image.now) (pll_of pll.now)) (outputs_in kind)) }
{
    for output in outputs_in(kind) {
        append_source(sources, db, image, pll, *output)?;
    }
    Ok(())
}

/// Appends the outputs of a PLL, if it is on.
#[tactic(auto, unfolding(fabric_model::specs::Plls::sources_in))]
fn append_pll(
    sources: &mut Vec<PllSource>,
    alloc: Global,
    db: &ChipDb,
    image: &AnyImage,
    pll: &PllCell,
) -> Result<(), AllocError>
    requires { IsFit (database_in db.now) }
    ensures { OnOk result (sources.new.items ≡ sources.old.items ++ sources_in (database_in db.now) (configuration_of image.now) (pll_of pll.now)) }
{
    let kind = pll_type(alloc, db, image, pll)?;
    append_sources(sources, db, image, pll, kind)
}

/// The outputs of all PLLs that are on, by PLL.
///
/// # Errors
/// `AllocError` if memory is out, and for no other cause.
pub(crate) fn sources(
    alloc: Global,
    db: &ChipDb,
    image: &AnyImage,
) -> Result<Vec<PllSource>, AllocError>
    requires { IsFit (database_in db.now) }
    ensures { IfOk result (λ sources. sources.items ≡ flat_map (sources_in (database_in db.now) (configuration_of image.now)) (database_in db.now).plls) }
{
    let mut sources = Vec::new(alloc);
    for pll in db.plls() {
        append_pll(&mut sources, alloc, db, image, pll)?;
    }
    Ok(sources)
}
