// `endmodule`.
ghost use Rattle.std.specs.Prelude.{◌≡◌, ◌≤◌, ◌||◌, length, not};
ghost use Rattle.std.specs.List.{list_all};
ghost use Rattle.vlog_tokens.specs.Tokens.{spots_at};
ghost use Rattle.vlog_forms.specs.Outcome.{are_assigned, at_end, ending, is_end};
ghost use Rattle.name_set.specs.Sets.{has_name};
ghost use Rattle.vlog_parser.specs.Drafts.{IsKept, so_far};
ghost use Rattle.vlog_parser.specs.Steps.{Ends};

use crate::draft::Draft;
use crate::fault::ParseRefusal;
use crate::name_faults::Fault;
use crate::names::Names;
use vlog_forms::{Form, VlogCause};
use vlog_module::Port;
use vlog_tokens::next_token;

/// Whether a form is `endmodule`.
pub(crate) fn is_end(form: Form) -> bool
    ensures { result ≡ is_end form }
{
    matches!(form, Form::End)
}

/// Ends a module with `endmodule`, which begins at one offset and ends at another.
pub(crate) fn end_module(
    bytes: &[u8],
    at: usize,
    end: usize,
    draft: &Draft<'_>,
) -> Result<(), ParseRefusal>
    requires within { end ≤ length bytes.now }
    requires kept { IsKept draft.now }
    ensures { Ends (ending (so_far draft.now) at (spots_at bytes.now end)) (so_far draft.now) result }
{
    if are_assigned(draft) {
        end_text(bytes, end, draft)
    } else {
        Err(ParseRefusal::Fault(Fault {
            offset: at,
            cause: VlogCause::Undeclared,
        }))
    }
}

/// Takes the end of the text after `endmodule`. Another token is a fault.
fn end_text(bytes: &[u8], from: usize, draft: &Draft<'_>) -> Result<(), ParseRefusal>
    requires { from ≤ length bytes.now }
    ensures { Ends (at_end (so_far draft.now) (spots_at bytes.now from)) (so_far draft.now) result }
{
    match next_token(bytes, from) {
        None => Ok(()),
        Some(spot) => Err(ParseRefusal::Fault(Fault {
            offset: spot.at,
            cause: VlogCause::Syntax,
        })),
    }
}

/// Whether each output is assigned.
fn are_assigned(draft: &Draft<'_>) -> bool
    requires { IsKept draft.now }
    ensures { result ≡ are_assigned draft.now.ports.items draft.now.items.items }
{
    all_assigned(&draft.names, &draft.ports)
}

/// Whether each output among these ports is assigned.
fn all_assigned(names: &Names<'_>, ports: &[Port]) -> bool
    ensures { result ≡ list_all (λ port. not port.output || has_name names.now.assigned port.name) ports.now }
{
    ports.iter().all(|port| !port.output || names.is_assigned(port.name.bytes()))
}
