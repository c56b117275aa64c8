// Names of ports.
ghost use Rattle.std.specs.Prelude.{◌≡◌, ◌++◌, ◌∷◌, [], get_or, if◌then◌else◌, map, IfOk, OnOk};
ghost use Rattle.std.specs.Char.{is_ascii_digit};
ghost use Rattle.std.specs.List.{list_any};
ghost use Rattle.vlog_module.specs.Names.{IsName};
ghost use Rattle.pin_file.specs.PortNames.{begins_numbered, has_own_form, is_underscore, is_usable, name_byte, names_with, plain_name, port_name, usable_name, without_end};

use crate::place::PortPin;
use std::alloc::{AllocError, Global};
use vlog_module::is_name;

/// The name of the port that a line calls NAME.
#[tactic(auto, unfolding(crate::specs::PortNames::port_name))]
pub(crate) fn port_name(alloc: Global, name: &[u8]) -> Result<Vec<u8>, AllocError>
    ensures name { IfOk result (λ port. port.items ≡ port_name name.now) }
    ensures usable { IfOk result (λ port. IsName port.items) }
{
    let plain = plain_name(alloc, name)?;
    usable_name(alloc, plain)
}

/// NAME with `_` for each byte that isn't a letter, a digit or `_`, and without any `_` at its end.
#[tactic(auto, unfolding(crate::specs::PortNames::plain_name))]
fn plain_name(alloc: Global, name: &[u8]) -> Result<Vec<u8>, AllocError>
    ensures { IfOk result (λ plain. plain.items ≡ plain_name name.now) }
{
    let bytes = name_bytes(alloc, name)?;
    Vec::from_slice(alloc, without_end(&bytes))
}

/// The name itself if a port can have it, else the name with `p_` before it.
fn usable_name(alloc: Global, name: Vec<u8>) -> Result<Vec<u8>, AllocError>
    ensures { IfOk result (λ usable. usable.items ≡ usable_name name.items) }
{
    if is_usable(&name) {
        return Ok(name);
    }
    with_ending(alloc, b"p_".as_slice(), &name)
}

/// Whether a port can have a name: it is a name of the Verilog subset, and hasn't the form of a name that a module uses itself.
fn is_usable(name: &[u8]) -> bool
    ensures { result ≡ is_usable name.now }
{
    is_name(name) && !has_own_form(name)
}

/// The bytes, with `_` for each that isn't a letter, a digit or `_`.
fn name_bytes(alloc: Global, bytes: &[u8]) -> Result<Vec<u8>, AllocError>
    ensures { IfOk result (λ name. name.items ≡ map name_byte bytes.now) }
{
    let mut name = Vec::new(alloc);
    for byte in bytes {
        name.push(name_byte(*byte))?;
    }
    Ok(name)
}

/// The byte itself if it is a letter, a digit or `_`, else `_`.
fn name_byte(byte: u8) -> u8
    ensures { result ≡ name_byte byte }
{
    if byte.is_ascii_alphabetic() || byte == b'_' || byte.is_ascii_digit() {
        byte
    } else {
        b'_'
    }
}

/// The bytes without any `_` at their end.
fn without_end(bytes: &[u8]) -> &[u8]
    ensures { result.now ≡ without_end bytes.now }
{
    let mut end = bytes.len();
    while 0 < end && is_underscore(bytes[end - 1]) {
        end -= 1;
    }
    &bytes[..end]
}

/// Whether the byte is `_`.
fn is_underscore(byte: u8) -> bool
    ensures { result ≡ is_underscore byte }
{
    byte == b'_'
}

/// A name with an ending.
fn with_ending(alloc: Global, name: &[u8], ending: &[u8]) -> Result<Vec<u8>, AllocError>
    ensures { IfOk result (λ longer. longer.items ≡ name.now ++ ending.now) }
{
    let mut longer = Vec::from_slice(alloc, name)?;
    longer.extend_from_slice(ending)?;
    Ok(longer)
}

/// Appends a name with an ending to a list of names, if it is wanted.
fn push_if(
    names: &mut Vec<Vec<u8>>,
    wanted: bool,
    alloc: Global,
    name: &[u8],
    ending: &[u8],
) -> Result<(), AllocError>
    ensures { OnOk result (map (λ name. name.items) names.new.items ≡ map (λ name. name.items) names.old.items ++ (if wanted then (name.now ++ ending.now) ∷ [] else [])) }
{
    if wanted {
        let longer = with_ending(alloc, name, ending)?;
        names.push(longer)?;
    }
    Ok(())
}

/// The names of a pin's ports, if the first one has that name.
pub(crate) fn names_with(
    alloc: Global,
    name: &[u8],
    pin: PortPin,
) -> Result<Vec<Vec<u8>>, AllocError>
    ensures { IfOk result (λ names. map (λ name. name.items) names.items ≡ names_with name.now pin) }
{
    let mut names = Vec::new(alloc);
    let first = Vec::from_slice(alloc, name)?;
    names.push(first)?;
    push_if(&mut names, pin.enable, alloc, name, b"_en".as_slice())?;
    push_if(&mut names, pin.outside, alloc, name, b"_in".as_slice())?;
    Ok(names)
}

/// How the names begin that a module uses itself.
const OWN_BEGINNINGS: [&str; 13] = [
    "n_", "ff_", "pi_", "po_", "rd_", "mem_", "io_", "pj_", "ci_", "pq_", "co_", "pe_", "pll_",
];

/// Whether a name has the form of a name that a module uses itself.
#[tactic(auto, unfolding(crate::specs::PortNames::has_own_form, crate::specs::PortNames::own_beginnings))]
pub(crate) fn has_own_form(name: &[u8]) -> bool
    ensures { result ≡ has_own_form name.now }
{
    begins_with_one(name, &OWN_BEGINNINGS)
}

/// Whether a name begins with one of these, and a digit follows.
fn begins_with_one(name: &[u8], beginnings: &[&str]) -> bool
    ensures { result ≡ list_any (λ beginning. begins_numbered name.now beginning.now) beginnings.now }
{
    beginnings
        .iter()
        .any(|beginning| begins_numbered(name, beginning.as_bytes()))
}

/// Whether a name begins so, and a digit follows.
fn begins_numbered(name: &[u8], beginning: &[u8]) -> bool
    ensures { result ≡ begins_numbered name.now beginning.now }
{
    name.starts_with(beginning) && has_digit_at(name, beginning.len())
}

/// Whether there is a digit at an index.
#[tactic(auto, using(crate::proofs::NameSteps::digit_past))]
fn has_digit_at(name: &[u8], place: usize) -> bool
    ensures { result ≡ is_ascii_digit (get_or name.now place 0) }
{
    if place < name.len() {
        name[place].is_ascii_digit()
    } else {
        false
    }
}
