// Declarations of ports.
ghost use Rattle.std.specs.Prelude.{◌≡◌, ◌≤◌, [], ◌∷◌, List, length, IfOk, OnOk};
ghost use Rattle.vlog_tokens.specs.Tokens.{spots_at};
ghost use Rattle.vlog_forms.specs.Outcome.{is_output, ports_outcome};
ghost use Rattle.vlog_forms.specs.Reading.{found_at, values_of};
ghost use Rattle.vlog_forms.specs.Reading.{Found as Meant};
ghost use Rattle.vlog_forms.specs.Values.{seen};
ghost use Rattle.vlog_form_parser.specs.Found.{all_found};
ghost use Rattle.vlog_form_parser.specs.Named.{AreNamed, IsNamed};
ghost use Rattle.vlog_parser.specs.Drafts.{IsKept};
ghost use Rattle.vlog_parser.specs.Steps.{Declares, DeclaresOne};

use crate::draft::{Draft, push_port};
use crate::fault::{ParseRefusal, refusal_of};
use std::alloc::Global;
use vlog_form_parser::{Found, port_forms, read_forms, text_of};
use vlog_forms::Form;

/// Reads the declarations of the ports, in the order of their names.
pub(crate) fn read_ports<'a>(
    alloc: Global,
    bytes: &'a [u8],
    from: usize,
    names: &[Found<'a>],
    draft: &mut Draft<'a>,
) -> Result<usize, ParseRefusal>
    requires within { from ≤ length bytes.now }
    requires named { AreNamed (values_of (all_found names.now)) }
    requires empty { draft.old.items.items ≡ [] }
    requires kept { IsKept draft.old }
    ensures declares { Declares (ports_outcome (length bytes.now) (all_found names.now) draft.old.ports.items (spots_at bytes.now from)) bytes.now draft.new.ports.items result }
    ensures kept { OnOk result (IsKept draft.new) }
    ensures empty { OnOk result (draft.new.items.items ≡ []) }
    ensures name { OnOk result (draft.new.name ≡ draft.old.name) }
    ensures within { IfOk result (λ end. end ≤ length bytes.now) }
{
    let mut values = Vec::new(alloc);
    let mut from = from;
    for one in names {
        match read_port(alloc, bytes, from, *one, &mut values, draft) {
            Ok(end) => from = end,
            Err(refusal) => return Err(refusal),
        }
    }
    Ok(from)
}

/// Reads the declaration of the port with this name.
fn read_port<'a>(
    alloc: Global,
    bytes: &'a [u8],
    from: usize,
    one: Found<'a>,
    values: &mut Vec<Found<'a>>,
    draft: &mut Draft<'a>,
) -> Result<usize, ParseRefusal>
    requires within { from ≤ length bytes.now }
    requires named { IsNamed (seen one.value) }
    requires empty { draft.old.items.items ≡ [] }
    requires kept { IsKept draft.old }
    ensures declares { (names : List Meant) → DeclaresOne (ports_outcome (length bytes.now) (found_at one.entry.at (seen one.entry.value) ∷ names) draft.old.ports.items (spots_at bytes.now from))
        (ports_outcome (length bytes.now) names) bytes.now draft.new.ports.items result }
    ensures kept { OnOk result (IsKept draft.new) }
    ensures empty { OnOk result (draft.new.items.items ≡ []) }
    ensures name { OnOk result (draft.new.name ≡ draft.old.name) }
    ensures within { IfOk result (λ end. end ≤ length bytes.now) }
{
    match read_forms(bytes, from, &[one], port_forms(), values) {
        Err(stop) => Err(refusal_of(stop)),
        Ok(whole) => match push_port(alloc, draft, text_of(one.value), is_output(whole.form)) {
            Ok(()) => Ok(whole.end),
            Err(refused) => Err(ParseRefusal::Memory(refused)),
        },
    }
}

/// Whether a form declares an output.
fn is_output(form: Form) -> bool
    ensures { result ≡ is_output form }
{
    matches!(form, Form::Output)
}
