// The names of pins as they stand in a pin file.
ghost use Rattle.std.specs.Prelude.{◌≡◌, None, Some, if◌then◌else◌, option_map, IfOk, IfErr, OnOk};
ghost use Rattle.index_search.specs.Places.{or_else};
ghost use Rattle.pin_file.specs.declared.place.PinPlace.{PinPlace as Place};
ghost use Rattle.pin_file.specs.Faults.{Tells, cause_in, cause_of, fault_with, pin_fault_of, place_in};
ghost use Rattle.pin_file.specs.Feeding.{kept_in};
ghost use Rattle.pin_file.specs.Lines.{line_of};
ghost use Rattle.pin_file.specs.PortNames.{is_place};

use crate::fault::{PinFileCause, PinFileFault};
use crate::line::{LineKind, line_kind, plain_line};
use crate::package_pins::PackagePins;
use crate::place::PinPlace;
use crate::refusal::PinLineRefusal;
use indexmap::IndexMap;
use std::alloc::{AllocError, Global};
use text_lines::first_line;

/// The names that a pin file gives to pins, as they stand in it, by the places of the pins.
#[derive(Drop)]
pub struct GivenNames {
    names: IndexMap<PinPlace, Vec<u8>>,
    alloc: Global,
}

impl GivenNames {
    ghost use Rattle.pin_file.specs.GivenNames.{name_if_at, name_in_line, name_kept};
    ghost use Rattle.pin_file.specs.inside.Reading.{RefusesFor, said_by};

    /// No name is given yet. It takes no memory.
    #[tactic(auto, unfolding(crate::specs::GivenNames::name_kept))]
    fn new(alloc: Global) -> GivenNames
        ensures { (place : Place) → name_kept result place ≡ None }
    {
        GivenNames {
            names: IndexMap::new(alloc),
            alloc,
        }
    }

    /// The name that is given to the pin at a place, if there is one.
    #[tactic(auto, unfolding(crate::specs::GivenNames::name_kept))]
    pub fn name_at(&self, place: PinPlace) -> Option<&[u8]>
        ensures { option_map (λ name. name.now) result ≡ name_kept self.now place }
    {
        match self.names.get(&place) {
            None => None,
            Some(name) => Some(name),
        }
    }

    /// Takes the next line.
    fn accept(&mut self, chosen: &PackagePins, line: &[u8]) -> Result<(), PinLineRefusal>
        ensures taken { OnOk result ((place : Place) → name_kept self.new place
            ≡ or_else (name_kept self.old place) (name_in_line (kept_in chosen.now) place (line_of line.now))) }
        ensures fits { OnOk result (cause_of (kept_in chosen.now) (line_of line.now) ≡ None) }
        ensures refused { IfErr result (RefusesFor (cause_of (kept_in chosen.now) (line_of line.now))) }
    {
        let plain = plain_line(self.alloc, line)?;
        self.accept_kind(chosen, line_kind(&plain))
    }

    /// Takes a line of that kind.
    fn accept_kind(
        &mut self,
        chosen: &PackagePins,
        kind: LineKind<'_>,
    ) -> Result<(), PinLineRefusal>
        ensures taken { OnOk result ((place : Place) → name_kept self.new place
            ≡ or_else (name_kept self.old place) (name_in_line (kept_in chosen.now) place (said_by kind.entry))) }
        ensures fits { OnOk result (cause_of (kept_in chosen.now) (said_by kind.entry) ≡ None) }
        ensures refused { IfErr result (RefusesFor (cause_of (kept_in chosen.now) (said_by kind.entry))) }
    {
        match kind {
            LineKind::Passed => Ok(()),
            LineKind::Port { name, pin } => self.accept_port(chosen, name, pin),
            LineKind::Unknown => Err(PinLineRefusal::Cause(PinFileCause::Statement)),
        }
    }

    /// Takes a line that gives NAME to a pin.
    fn accept_port(
        &mut self,
        chosen: &PackagePins,
        name: &[u8],
        pin: &[u8],
    ) -> Result<(), PinLineRefusal>
        ensures taken { OnOk result ((place : Place) → name_kept self.new place
            ≡ or_else (name_kept self.old place) (name_if_at place name.now (place_in (kept_in chosen.now) pin.now))) }
        ensures fits { OnOk result (cause_in (place_in (kept_in chosen.now) pin.now) ≡ None) }
        ensures refused { IfErr result (RefusesFor (cause_in (place_in (kept_in chosen.now) pin.now))) }
    {
        match chosen.place_in(pin) {
            Ok(place) => Ok(self.give(place, name)?),
            Err(cause) => Err(PinLineRefusal::Cause(cause)),
        }
    }

    /// Gives NAME to the pin at a place, if it has no name yet.
    fn give(&mut self, place: PinPlace, name: &[u8]) -> Result<(), AllocError>
        ensures { OnOk result ((other : Place) → name_kept self.new other
            ≡ or_else (name_kept self.old other) (if is_place other place then Some name.now else None)) }
    {
        if self.name_at(place).is_some() {
            return Ok(());
        }
        let name = Vec::from_slice(self.alloc, name)?;
        insert(&mut self.names, place, name)
    }
}

ghost use Rattle.std.specs.Prelude.{◌++◌, ◌∷◌, []};
ghost use Rattle.std.specs.Map.{lookup};

/// Gives a name to the pin at a place that has none.
fn insert(
    names: &mut IndexMap<PinPlace, Vec<u8>>,
    place: PinPlace,
    name: Vec<u8>,
) -> Result<(), AllocError>
    requires { lookup (is_place place) names.old.entries ≡ None }
    ensures { OnOk result (names.new.entries ≡ names.old.entries ++ (place, name) ∷ []) }
{
    match names.insert(place, name) {
        Ok(_) => Ok(()),
        Err(e) => Err(AllocError::from(e)),
    }
}

ghost use Rattle.pin_file.specs.GivenNames.{name_given, name_in_line as name_in_line_for, name_kept as name_kept_in};

/// Reads a pin file: the names that it gives to the pins of a package, as they stand in it. If several lines name one pin, the first counts. The
/// lines are those that [`pin_names`](crate::pin_names) takes.
///
/// # Errors
/// `PinFileFault::At` with the first faulty line and the first of its causes. `PinFileFault::Memory` if memory is out; it may come in place of any
/// other answer.
///
/// # Example
/// ```ignore
/// use pin_file::{PinPlace, given_names};
///
/// let names = given_names(alloc, b"set_io led[3] 96\n", &pins)?; // `pins` are the `PackagePins` of tq144
/// // names.name_at(PinPlace { x: 13, y: 12, pio: 1 }) is `led[3]`
/// ```
pub fn given_names(
    alloc: Global,
    text: &[u8],
    pins: &PackagePins,
) -> Result<GivenNames, PinFileFault>
    ensures names { IfOk result (λ names. (place : Place) → name_kept_in names place ≡ name_given (kept_in pins.now) text.now place) }
    ensures accepted { OnOk result (pin_fault_of (kept_in pins.now) text.now ≡ None) }
    ensures refused { IfErr result (Tells (pin_fault_of (kept_in pins.now) text.now)) }
{
    let mut names = GivenNames::new(alloc);
    let mut left = text;
    let mut count = 0;
    while let Some(line) = first_line(left) {
        take_line(&mut names, count + 1, pins, line.content)?;
        count += 1;
        left = line.rest;
    }
    Ok(names)
}

/// Takes the next line, which is line `number` of the file.
fn take_line(
    names: &mut GivenNames,
    number: u64,
    pins: &PackagePins,
    line: &[u8],
) -> Result<(), PinFileFault>
    ensures taken { OnOk result ((place : Place) → name_kept_in names.new place
        ≡ or_else (name_kept_in names.old place) (name_in_line_for (kept_in pins.now) place (line_of line.now))) }
    ensures fits { OnOk result (cause_of (kept_in pins.now) (line_of line.now) ≡ None) }
    ensures refused { IfErr result (Tells (fault_with number (cause_of (kept_in pins.now) (line_of line.now)))) }
{
    match names.accept(pins, line) {
        Ok(()) => Ok(()),
        Err(refusal) => Err(refusal.of_line(number)),
    }
}
