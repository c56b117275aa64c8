// The names of ports.
ghost use Rattle.std.specs.Prelude.{◌≡◌, ◌++◌, find, option_map, IfOk, OnOk, Some};
ghost use Rattle.pin_file.specs.PortNames.{is_place, enable_name as enable_name_after, input_name as input_name_after};
ghost use Rattle.port_names.specs.Named.{renaming_by, pin_renaming, port_renaming};

use crate::pins::place_of;
use fabric_model::{InputPort, Pin, has_outside};
use fabric_module::{enable_name, input_port_name, port_name};
use pin_file::{PinName, PinPlace};
use std::alloc::{AllocError, Global};
use vlog_module::Name;

/// The first port at a place, in the order of the pin file.
fn port_at(named: &[PinName], place: PinPlace) -> Option<&PinName>
    ensures { option_map (λ port. port.now) result ≡ find (λ port. is_place place port.place) named.now }
{
    named.iter().find(|port| {
        place.x == port.place.x && place.y == port.place.y && place.pio == port.place.pio
    })
}

/// A name with `_en` after it.
#[tactic(auto, using(crate::proofs::After::after_named))]
fn enable_name_after(alloc: Global, name: &Name) -> Result<Name, AllocError>
    ensures { IfOk result (λ made. made ≡ enable_name_after name.now) }
{
    let mut bytes = Vec::from_slice(alloc, name.bytes())?;
    bytes.extend_from_slice(b"_en")?;
    Name::new(alloc, &bytes)
}

/// A name with `_in` after it.
#[tactic(auto, using(crate::proofs::After::inside_named))]
fn input_name_after(alloc: Global, name: &Name) -> Result<Name, AllocError>
    ensures { IfOk result (λ made. made ≡ input_name_after name.now) }
{
    let mut bytes = Vec::from_slice(alloc, name.bytes())?;
    bytes.extend_from_slice(b"_in")?;
    Name::new(alloc, &bytes)
}

/// Appends the names that a pin's ports have, each with the new name that it gets from `name`.
fn append_names(
    alloc: Global,
    pin: &Pin,
    name: &Name,
    names: &mut Vec<(Name, Name)>,
) -> Result<(), AllocError>
    ensures { OnOk result (names.new.items ≡ names.old.items ++ renaming_by pin.now (Some name.now)) }
{
    let port = port_name(alloc, pin)?;
    let given = Name::new(alloc, name.bytes())?;
    names.push((port, given))?;
    if pin.is_switched() {
        let enable = enable_name(alloc, pin)?;
        let given = enable_name_after(alloc, name)?;
        names.push((enable, given))?;
    }
    if has_outside(*pin) {
        let (x, y, n) = (pin.x, pin.y, pin.n);
        let outside = input_port_name(alloc, &InputPort::Outside { x, y, n })?;
        let given = input_name_after(alloc, name)?;
        names.push((outside, given))?;
    }
    Ok(())
}

/// Appends the names that a pin's ports have, each with its new name, if the pin file names the pin's place.
fn append_pin(
    alloc: Global,
    pin: &Pin,
    named: &[PinName],
    names: &mut Vec<(Name, Name)>,
) -> Result<(), AllocError>
    ensures { OnOk result (names.new.items ≡ names.old.items ++ pin_renaming named.now pin.now) }
{
    match port_at(named, place_of(pin)) {
        None => Ok(()),
        Some(port) => append_names(alloc, pin, &port.name, names),
    }
}

/// The names of the ports that the pin file names, each with its new name.
#[tactic(auto, unfolding(crate::specs::Named::port_renaming))]
pub(crate) fn port_renaming(
    alloc: Global,
    pins: &[Pin],
    named: &[PinName],
) -> Result<Vec<(Name, Name)>, AllocError>
    ensures { IfOk result (λ names. names.items ≡ port_renaming named.now pins.now) }
{
    let mut names = Vec::new(alloc);
    for pin in pins {
        append_pin(alloc, pin, named, &mut names)?;
    }
    Ok(names)
}
