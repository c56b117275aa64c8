// Values by their indexes.
ghost use Rattle.std.specs.Prelude.{◌≡◌, ◌+◌, ◌<◌, ◌^◌, List, [], ◌∷◌, reverse, IfOk, MatchOption};
ghost use Rattle.vlog_module.specs.Names.{IsName};
ghost use Rattle.vlog_forms.specs.Items.{atom_in, atoms_in, following, bit_in, edge_in, index_in, name_in, word_in};
ghost use Rattle.vlog_forms.specs.Reading.{values_of};
ghost use Rattle.vlog_forms.specs.Values.{Value as Meant, seen};
ghost use Rattle.vlog_form_parser.specs.Found.{all_found};
ghost use Rattle.vlog_form_parser.specs.Named.{AreNamed, IsNamed};

use crate::Found;
use std::alloc::{AllocError, Global};
use vlog_forms::Value;
use vlog_module::{Atom, Atoms, Name};

/// The atoms at this many indexes from one on, the last one first.
pub(crate) fn atoms_at(
    alloc: Global,
    values: &[Found<'_>],
    place: usize,
    count: usize,
) -> Result<Atoms, AllocError>
    requires named { AreNamed (values_of (all_found values.now)) }
    requires small { place + count < 2 ^ 64 }
    ensures { IfOk result (λ atoms. atoms ≡ reverse (atoms_in count (following place (values_of (all_found values.now))))) }
{
    let mut atoms = Atoms::new(alloc);
    let mut left = count;
    while 0 < left {
        left -= 1;
        atoms.push(atom_at(alloc, values, place + left)?)?;
    }
    Ok(atoms)
}

/// The value at an index, if there is one.
fn value_at<'a>(values: &[Found<'a>], place: usize) -> Option<Value<'a>>
    ensures { MatchOption result (following place (values_of (all_found values.now)) ≡ [])
        (λ value. (rest : List Meant) × (following place (values_of (all_found values.now)) ≡ seen value ∷ rest)) }
{
    if place < values.len() {
        Some(values[place].value)
    } else {
        None
    }
}

/// The atom at an index; `1'b0` if no atom is there.
pub(crate) fn atom_at(alloc: Global, values: &[Found<'_>], place: usize) -> Result<Atom, AllocError>
    requires { AreNamed (values_of (all_found values.now)) }
    ensures { IfOk result (λ atom. atom ≡ atom_in (following place (values_of (all_found values.now)))) }
{
    match value_at(values, place) {
        Some(value) => atom_of(alloc, value),
        None => Ok(Atom::Bit(false)),
    }
}

/// The atom that a value is; `1'b0` if it is none.
fn atom_of(alloc: Global, value: Value<'_>) -> Result<Atom, AllocError>
    requires { IsNamed (seen value) }
    ensures { IfOk result (λ atom. (rest : List Meant) → atom ≡ atom_in (seen value.entry ∷ rest)) }
{
    match value {
        Value::AtomBit(bit) => Ok(Atom::Bit(bit)),
        Value::AtomName(name) => Ok(Atom::Whole(Name::new(alloc, name)?)),
        Value::AtomPart(name, k) => Ok(Atom::Part {
            name: Name::new(alloc, name)?,
            k,
        }),
        Value::Name(_, _) => Ok(Atom::Bit(false)),
        Value::Edge(_) => Ok(Atom::Bit(false)),
        Value::Bit(_) => Ok(Atom::Bit(false)),
        Value::Word(_) => Ok(Atom::Bit(false)),
        Value::Index(_) => Ok(Atom::Bit(false)),
    }
}

/// The name at an index; `x` if no name is there.
///
/// # Errors
/// `AllocError` if memory is out, and for no other cause.
pub fn name_at(alloc: Global, values: &[Found<'_>], place: usize) -> Result<Name, AllocError>
    requires { AreNamed (values_of (all_found values.now)) }
    ensures { IfOk result (λ name. name ≡ name_in (following place (values_of (all_found values.now)))) }
{
    Name::new(alloc, text_at(values, place))
}

/// The text of the name at an index; `x` if no name is there.
pub fn text_at<'a>(values: &[Found<'a>], place: usize) -> &'a [u8]
    ensures text { result.now ≡ name_in (following place (values_of (all_found values.now))) }
    ensures named { AreNamed (values_of (all_found values.now)) → IsName result.now }
{
    match value_at(values, place) {
        Some(value) => text_of(value),
        None => b"x",
    }
}

/// The name that a value is; `x` if it is none.
#[tactic(auto, unfolding(vlog_module::specs::Names::is_name, vlog_module::specs::Names::reserved_words))]
pub fn text_of<'a>(value: Value<'a>) -> &'a [u8]
    ensures name { result.now ≡ name_in (seen value.entry ∷ []) }
    ensures text { (rest : List Meant) → result.now ≡ name_in (seen value.entry ∷ rest) }
    ensures named { IsNamed (seen value.entry) → IsName result.now }
{
    match value {
        Value::Name(_, name) => name,
        Value::Edge(_) => b"x",
        Value::Bit(_) => b"x",
        Value::Word(_) => b"x",
        Value::Index(_) => b"x",
        Value::AtomBit(_) => b"x",
        Value::AtomName(_) => b"x",
        Value::AtomPart(_, _) => b"x",
    }
}

/// Whether the edge at an index is `negedge`; `posedge` if no edge is there.
pub(crate) fn edge_at(values: &[Found<'_>], place: usize) -> bool
    ensures { result ≡ edge_in (following place (values_of (all_found values.now))) }
{
    match value_at(values, place) {
        Some(value) => edge_of(value),
        None => false,
    }
}

/// Whether the edge that a value is is `negedge`; `posedge` if it is none.
fn edge_of(value: Value<'_>) -> bool
    ensures { (rest : List Meant) → result ≡ edge_in (seen value.entry ∷ rest) }
{
    match value {
        Value::Edge(falling) => falling,
        Value::Name(_, _) => false,
        Value::Bit(_) => false,
        Value::Word(_) => false,
        Value::Index(_) => false,
        Value::AtomBit(_) => false,
        Value::AtomName(_) => false,
        Value::AtomPart(_, _) => false,
    }
}

/// The bit at an index; 0 if no bit is there.
pub fn bit_at(values: &[Found<'_>], place: usize) -> bool
    ensures { result ≡ bit_in (following place (values_of (all_found values.now))) }
{
    match value_at(values, place) {
        Some(value) => bit_of(value),
        None => false,
    }
}

/// The bit that a value is; 0 if it is none.
fn bit_of(value: Value<'_>) -> bool
    ensures { (rest : List Meant) → result ≡ bit_in (seen value.entry ∷ rest) }
{
    match value {
        Value::Bit(bit) => bit,
        Value::Name(_, _) => false,
        Value::Edge(_) => false,
        Value::Word(_) => false,
        Value::Index(_) => false,
        Value::AtomBit(_) => false,
        Value::AtomName(_) => false,
        Value::AtomPart(_, _) => false,
    }
}

/// The word at an index; 0 if no word is there.
pub(crate) fn word_at(values: &[Found<'_>], place: usize) -> u16
    ensures { result ≡ word_in (following place (values_of (all_found values.now))) }
{
    match value_at(values, place) {
        Some(value) => word_of(value),
        None => 0,
    }
}

/// The word that a value is; 0 if it is none.
fn word_of(value: Value<'_>) -> u16
    ensures { (rest : List Meant) → result ≡ word_in (seen value.entry ∷ rest) }
{
    match value {
        Value::Word(word) => word,
        Value::Name(_, _) => 0,
        Value::Edge(_) => 0,
        Value::Bit(_) => 0,
        Value::Index(_) => 0,
        Value::AtomBit(_) => 0,
        Value::AtomName(_) => 0,
        Value::AtomPart(_, _) => 0,
    }
}

/// The index that the value at an index is; 0 if it is none.
pub fn index_at(values: &[Found<'_>], place: usize) -> u8
    ensures { result ≡ index_in (following place (values_of (all_found values.now))) }
{
    match value_at(values, place) {
        Some(value) => index_of(value),
        None => 0,
    }
}

/// The index that a value is; 0 if it is none.
fn index_of(value: Value<'_>) -> u8
    ensures { (rest : List Meant) → result ≡ index_in (seen value.entry ∷ rest) }
{
    match value {
        Value::Index(k) => k,
        Value::Name(_, _) => 0,
        Value::Edge(_) => 0,
        Value::Bit(_) => 0,
        Value::Word(_) => 0,
        Value::AtomBit(_) => 0,
        Value::AtomName(_) => 0,
        Value::AtomPart(_, _) => 0,
    }
}
