// The pin file of a tool that takes a design: what is asked for, the pins of its package, and its refusals.
ghost use Rattle.std.specs.Prelude.{◌≡◌, ℕ, List, IfOk};
ghost use Rattle.std.specs.Option.{option_map};
ghost use Rattle.pin_file.specs.Feeding.{kept_in};
ghost use Rattle.pin_file.specs.Packages.{package_of};
ghost use Rattle.pin_file.specs.declared.fault.PinFileFault.TheVariants.{At};
ghost use Rattle.tool_run.specs.Lines.{refusal_text};
ghost use Rattle.tool_run.specs.Needs.{text_of};
ghost use Rattle.design_answers.specs.PinRequests.{named_by, pins_of_request};
ghost use Rattle.design_answers.specs.Pins.{HasPins, StopsForPins, pin_cause_text, pin_fault_text};

use pin_file::{PackagePins, PinFileCause, PinFileFault, PinReader};
use std::alloc::AllocError;
use tool_inputs::refusal;
use tool_run::{Refusal, Stop, decimal, text};

/// The most bytes that a pin file may have.
pub const PINS_LIMIT: usize = 1_048_576;

/// A pin file, and the package whose pins it names.
#[derive(Clone, Copy, Debug, PartialEq, Eq)]
pub struct PinRequest<'a> {
    pub file: &'a str,
    pub package_name: &'a str,
}

/// The pin file and its package, if both are given (`Some(Some(..))`) or neither is (`Some(None)`).
pub fn pins_wanted<'a>(
    file: Option<&'a str>,
    package_name: Option<&'a str>,
) -> Option<Option<PinRequest<'a>>>
    ensures { option_map pins_of_request result ≡ named_by (text_of file.entry) (text_of package_name.entry) }
{
    match (file, package_name) {
        (Some(file), Some(package_name)) => Some(Some(PinRequest { file, package_name })),
        (None, None) => Some(None),
        (Some(_), None) | (None, Some(_)) => None,
    }
}

/// The pins of the package that were read from the database.
///
/// # Errors
/// `AllocError` if memory was out.
pub fn package_pins(pins: Option<PinReader>) -> Result<PackagePins, AllocError>
    ensures { IfOk result (λ kept. (package_name text : List ℕ) → HasPins package_name text pins → kept_in kept ≡ package_of package_name text) }
{
    match pins {
        Some(reader) => reader.finish(),
        None => Err(AllocError),
    }
}

// Why a line of a pin file is refused, after a colon.
fn pin_cause_text(cause: PinFileCause) -> &'static str
    ensures { result.now ≡ pin_cause_text cause }
{
    match cause {
        PinFileCause::Statement => ": Statement",
        PinFileCause::Package => ": Package",
        PinFileCause::Pin => ": Pin",
    }
}

// The refusal of a pin file: the line and the cause.
fn pin_refusal(line: u64, cause: PinFileCause) -> Refusal<'static>
    ensures { refusal_text result ≡ pin_fault_text (At line cause) }
{
    refusal(decimal("pin file line ", line), text(pin_cause_text(cause)))
}

/// The stop of a tool for a pin file with this fault.
pub fn pin_stop(fault: PinFileFault) -> Stop<'static>
    ensures { StopsForPins fault result }
{
    match fault {
        PinFileFault::At { line, cause } => Stop::Refused(pin_refusal(line, cause)),
        PinFileFault::Memory(_) => Stop::Memory,
    }
}
