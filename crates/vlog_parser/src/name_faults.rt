// Faults of names.
ghost use Rattle.std.specs.Prelude.{◌≡◌, ◌+◌, ◌≤◌, ◌<◌, [], ◌∷◌, length, IfOk};
ghost use Rattle.std.specs.Option.{option_map};
ghost use Rattle.vlog_module.specs.WellFormed.{Scope};
ghost use Rattle.vlog_forms.specs.Values.{seen};
ghost use Rattle.vlog_forms.specs.Reading.{values_of};
ghost use Rattle.vlog_forms.specs.Outcome.{fault_from, name_fault, twice_fault, use_fault, value_uses};
ghost use Rattle.vlog_form_parser.specs.Found.{all_found};
ghost use Rattle.vlog_parser.specs.Scopes.{Holds};
ghost use Rattle.vlog_parser.specs.Seen.{seen_fault, seen_use};

use crate::names::Names;
use crate::uses::{Use, use_of};
use name_set::NameSet;
use std::alloc::{AllocError, Global};
use vlog_form_parser::{Found, text_of};
use vlog_forms::VlogCause;

/// A fault: an offset of the text, and the cause.
#[derive(Clone, Copy, Debug)]
pub struct Fault {
    pub offset: usize,
    pub cause: VlogCause,
}

/// The first name, from left to right, that isn't declared, isn't what it is used as, or is declared or assigned before.
pub fn name_fault<'a>(names: &Names<'_>, values: &[Found<'a>]) -> Option<Fault>
    ensures { (scope : Scope) → Holds names.now scope → option_map seen_fault result ≡ name_fault scope (all_found values.now) }
{
    fault_from(names, values, 0, values)
}

/// The first fault among the last values of an item, which begin at an index.
fn fault_from<'a>(
    names: &Names<'_>,
    values: &[Found<'a>],
    place: usize,
    more: &[Found<'a>],
) -> Option<Fault>
    requires { place + length more.now ≤ length values.now }
    ensures { (scope : Scope) → Holds names.now scope
        → option_map seen_fault result ≡ fault_from scope (values_of (all_found values.now)) place (all_found more.now) }
{
    match more {
        [] => None,
        [one, rest @ ..] => match value_fault(names, *one, values, place) {
            Some(fault) => Some(fault),
            None => fault_from(names, values, place + 1, rest),
        },
    }
}

/// The fault of the name in a value, if there is one; `place` is the value's index among the values of the item.
fn value_fault(
    names: &Names<'_>,
    one: Found<'_>,
    values: &[Found<'_>],
    place: usize,
) -> Option<Fault>
    requires { place < length values.now }
    ensures { (scope : Scope) → Holds names.now scope
        → option_map seen_fault result ≡ use_fault scope one.entry.at (value_uses (seen one.entry.value) (values_of (all_found values.now)) place) }
{
    match use_of(one.value, values, place) {
        Some(used) => use_fault(names, one.at, used),
        None => None,
    }
}

/// The fault of a use of a name, if there is one.
fn use_fault(names: &Names<'_>, at: usize, used: Use<'_>) -> Option<Fault>
    ensures { (scope : Scope) → Holds names.now scope → option_map seen_fault result ≡ use_fault scope at (seen_use used.entry ∷ []) }
{
    if names.is_known(used) {
        if names.is_first(used) {
            None
        } else {
            Some(Fault {
                offset: at,
                cause: VlogCause::AssignedTwice,
            })
        }
    } else {
        Some(Fault {
            offset: at,
            cause: VlogCause::Undeclared,
        })
    }
}

/// The fault of the first port name that is listed twice, if there is one.
pub fn twice_fault(alloc: Global, names: &[Found<'_>]) -> Result<Option<Fault>, AllocError>
    ensures { IfOk result (λ fault. option_map seen_fault fault ≡ twice_fault [] (all_found names.now)) }
{
    let mut before = NameSet::new(alloc);
    for one in names {
        let name = text_of(one.value);
        if before.contains(name) {
            return Ok(Some(Fault {
                offset: one.at,
                cause: VlogCause::AssignedTwice,
            }));
        }
        before.push(name)?;
    }
    Ok(None)
}
