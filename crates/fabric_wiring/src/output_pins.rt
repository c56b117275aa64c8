// The outputs of a fabric.
ghost use Rattle.std.specs.Prelude.{◌≡◌, ◌++◌, map, filter, flat_map, IfOk, OnOk};
ghost use Rattle.fabric_model.specs.Pins.{drives};
ghost use Rattle.fabric_model.specs.Fabric.{Fabric};
ghost use Rattle.fabric_model.specs.Outputs.{outputs_of};
ghost use Rattle.fabric_wiring.specs.Outputs.{output_of, enable_from, outputs_from};
ghost use Rattle.fabric_wiring.specs.Parts.{ArePartsOf};

use crate::parts::Parts;
use crate::registers::flip_count;
use fabric_model::{Pin, PinSignals, Signal};
use std::alloc::{AllocError, Global};

/// An output of a pin, and what it puts out.
#[derive(Clone, Copy, Debug, PartialEq, Eq)]
pub struct Output {
    pub pin: Pin,
    /// Whether it says when the pin drives its pad; if not, it is what the pin drives it with.
    pub enable: bool,
    pub source: Signal,
}

/// Appends the output enable of a pin, if it drives its pad at times.
fn append_enable(
    outputs: &mut Vec<Output>,
    signals: &PinSignals<'_>,
    pin: Pin,
) -> Result<(), AllocError>
    ensures { OnOk result (map output_of outputs.new.items ≡ map output_of outputs.old.items ++ enable_from signals.now pin) }
{
    if !pin.is_switched() {
        return Ok(());
    }
    outputs.push(Output {
        pin,
        enable: true,
        source: signals.enable_signal(pin)?,
    })?;
    Ok(())
}

/// Appends the outputs of a pin that drives its pad.
fn append_outputs(
    outputs: &mut Vec<Output>,
    signals: &PinSignals<'_>,
    pin: Pin,
) -> Result<(), AllocError>
    ensures { OnOk result (map output_of outputs.new.items ≡ map output_of outputs.old.items ++ outputs_from signals.now pin) }
{
    let source = signals.data_signal(pin)?;
    outputs.push(Output {
        pin,
        enable: false,
        source,
    })?;
    append_enable(outputs, signals, pin)
}

/// The outputs of the pins among pins that drive their pads.
fn outputs_among(
    alloc: Global,
    signals: &PinSignals<'_>,
    pins: &[Pin],
) -> Result<Vec<Output>, AllocError>
    ensures { IfOk result (λ outputs. map output_of outputs.items ≡ flat_map (outputs_from signals.now) (filter drives pins.now)) }
{
    let mut outputs = Vec::new(alloc);
    for pin in pins {
        if pin.drives() {
            append_outputs(&mut outputs, signals, *pin)?;
        }
    }
    Ok(outputs)
}

/// Finds the outputs of a fabric from its parts: those of each pin that drives its pad, in the order of the pins.
///
/// # Errors
/// `AllocError` if memory is out, or if there are so many registers or input ports that an index needs more than 32 bits.
pub fn outputs(alloc: Global, parts: &Parts) -> Result<Vec<Output>, AllocError>
    ghost fabric: { Fabric }
    requires parts { ArePartsOf fabric parts.now }
    ensures { IfOk result (λ outputs. map output_of outputs.items ≡ outputs_of fabric) }
{
    let signals = PinSignals::new(alloc, flip_count(&parts.lcs), &parts.pins, &parts.plls)?;
    outputs_among(alloc, &signals, &parts.pins)
}
