// The ports that the lines of a pin file have named.
ghost use Rattle.std.specs.Prelude.{◌≡◌, ◌∷◌, [], None, List, IfErr, OnOk};
ghost use Rattle.pin_file.specs.declared.place.PinPlace.{PinPlace as Place};
ghost use Rattle.pin_file.specs.declared.place.PortPin.{PortPin as PinWithPort};

use crate::fault::PinFileCause;
use crate::line::{LineKind, line_kind, plain_line};
use crate::name_set::NameSet;
use crate::package_pins::PackagePins;
use crate::pin_name::PinName;
use crate::place::{PinPlace, PortPin};
use crate::place_set::PlaceSet;
use crate::port_name::{names_with, port_name};
use crate::port_pins::PortPins;
use crate::refusal::PinLineRefusal;
use std::alloc::{AllocError, Global};
use vlog_module::Name;

/// The ports that the lines so far have named. The places that the lines name and all names of ports are kept for searches.
#[derive(Drop)]
pub(crate) struct Ports {
    list: Vec<PinName>,
    places: PlaceSet,
    names: NameSet,
    pins: PortPins,
    alloc: Global,
}

impl Ports {
    ghost use Rattle.pin_file.specs.Faults.{cause_in, cause_of, name_at, name_by, name_if, named_if_free, place_by, place_in, place_or_none};
    ghost use Rattle.pin_file.specs.Feeding.{kept_in};
    ghost use Rattle.pin_file.specs.Lines.{line_of};
    ghost use Rattle.pin_file.specs.PortNames.{all_names, pin_at, port_name};
    ghost use Rattle.pin_file.specs.inside.Reading.{Grows, Holds, RefusesFor, pin_kept, said_by};

    /// No port is named yet. `pins` are the pins that have ports.
    pub(crate) fn new(alloc: Global, pins: PortPins) -> Ports
        ensures { (given : List PinWithPort) → ((place : Place) → pin_kept pins place ≡ pin_at given place) → Holds given [] [] result }
    {
        Ports {
            list: Vec::new(alloc),
            places: PlaceSet::new(alloc),
            names: NameSet::new(alloc),
            pins,
            alloc,
        }
    }

    /// The ports, after all lines were read.
    pub(crate) fn finish(self) -> Vec<PinName>
        ensures { result.items ≡ self.list.items }
    {
        let Ports { list, .. } = self;
        list
    }

    /// Takes the next line.
    pub(crate) fn accept(&mut self, chosen: &PackagePins, line: &[u8]) -> Result<(), PinLineRefusal>
        ensures taken { OnOk result (Grows self.old self.new (place_by (kept_in chosen.now) (line_of line.now))
            (λ pins earlier named. name_by (kept_in chosen.now) pins earlier named (line_of line.now))) }
        ensures fits { OnOk result (cause_of (kept_in chosen.now) (line_of line.now) ≡ None) }
        ensures refused { IfErr result (RefusesFor (cause_of (kept_in chosen.now) (line_of line.now))) }
    {
        let plain = plain_line(self.alloc, line)?;
        self.accept_kind(chosen, line_kind(&plain))
    }

    /// Takes a line of that kind.
    fn accept_kind(
        &mut self,
        chosen: &PackagePins,
        kind: LineKind<'_>,
    ) -> Result<(), PinLineRefusal>
        ensures taken { OnOk result (Grows self.old self.new (place_by (kept_in chosen.now) (said_by kind.entry))
            (λ pins earlier named. name_by (kept_in chosen.now) pins earlier named (said_by kind.entry))) }
        ensures fits { OnOk result (cause_of (kept_in chosen.now) (said_by kind.entry) ≡ None) }
        ensures refused { IfErr result (RefusesFor (cause_of (kept_in chosen.now) (said_by kind.entry))) }
    {
        match kind {
            LineKind::Passed => Ok(()),
            LineKind::Port { name, pin } => self.accept_port(chosen, name, pin),
            LineKind::Unknown => Err(PinLineRefusal::Cause(PinFileCause::Statement)),
        }
    }

    /// Takes a line that gives NAME to a pin.
    fn accept_port(
        &mut self,
        chosen: &PackagePins,
        name: &[u8],
        pin: &[u8],
    ) -> Result<(), PinLineRefusal>
        ensures taken { OnOk result (Grows self.old self.new (place_or_none (place_in (kept_in chosen.now) pin.now))
            (λ pins earlier named. name_if pins earlier named name.now (place_in (kept_in chosen.now) pin.now))) }
        ensures fits { OnOk result (cause_in (place_in (kept_in chosen.now) pin.now) ≡ None) }
        ensures refused { IfErr result (RefusesFor (cause_in (place_in (kept_in chosen.now) pin.now))) }
    {
        match chosen.place_in(pin) {
            Ok(place) => Ok(self.accept_at(place, name)?),
            Err(cause) => Err(PinLineRefusal::Cause(cause)),
        }
    }

    /// Takes a line that gives NAME to the pin at a place.
    fn accept_at(&mut self, place: PinPlace, name: &[u8]) -> Result<(), AllocError>
        ensures { OnOk result (Grows self.old self.new (place ∷ []) (λ pins earlier named. name_at pins earlier named name.now place)) }
    {
        if self.places.insert(place)? {
            self.name_at(place, name)
        } else {
            Ok(())
        }
    }

    /// Gives NAME to the pin at a place that no earlier line names.
    fn name_at(&mut self, place: PinPlace, name: &[u8]) -> Result<(), AllocError>
        ensures { OnOk result (Grows self.old self.new [] (λ pins earlier named. named_if_free (all_names pins named) place (port_name name.now) (pin_at pins place))) }
    {
        match self.pins.at(place) {
            None => Ok(()),
            Some(pin) => self.name_pin(place, pin, name),
        }
    }

    /// Gives NAME to a pin with ports, if none of the names of its ports is given yet.
    fn name_pin(&mut self, place: PinPlace, pin: PortPin, name: &[u8]) -> Result<(), AllocError>
        requires { pin_kept self.old.pins place ≡ Some pin }
        ensures { OnOk result (Grows self.old self.new [] (λ pins earlier named. named_if_free (all_names pins named) place (port_name name.now) (Some pin))) }
    {
        let port = port_name(self.alloc, name)?;
        let names = names_with(self.alloc, &port, pin)?;
        if self.names.has_any(&names) {
            return Ok(());
        }
        let name = Name::new(self.alloc, &port)?;
        self.list.push(PinName { place, name })?;
        self.names.insert_all(names)
    }
}
