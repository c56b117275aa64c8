// Items.
ghost use Rattle.std.specs.Prelude.{◌≡◌, ◌≤◌, [], false, length, IfOk, OnOk};
ghost use Rattle.std.specs.Option.{option_map};
ghost use Rattle.vlog_tokens.specs.Tokens.{spots_at};
ghost use Rattle.vlog_module.specs.Uses.{uses_of};
ghost use Rattle.vlog_forms.specs.Items.{item_of};
ghost use Rattle.vlog_forms.specs.Reading.{all_forms, offset_of, read_forms, values_of};
ghost use Rattle.vlog_forms.specs.Outcome.{after, is_end, item_fault, item_outcome, uses_in, with_item};
ghost use Rattle.vlog_form_parser.specs.Found.{all_found};
ghost use Rattle.vlog_form_parser.specs.Readings.{whole_of};
ghost use Rattle.vlog_form_parser.specs.Named.{AreNamed};
ghost use Rattle.vlog_parser.specs.Seen.{seen_fault};
ghost use Rattle.vlog_parser.specs.Drafts.{IsKept, next_scope, so_far};
ghost use Rattle.vlog_parser.specs.Steps.{Adds, Ends, IsAt, IsAfter, Steps, items_from};

use crate::draft::{Draft, push_item, section_of};
use crate::ending::{end_module, is_end};
use crate::fault::{ParseRefusal, refusal_of};
use crate::name_faults::{Fault, name_fault};
use std::alloc::Global;
use vlog_form_parser::{Found, Whole, all_forms, item_of, read_forms};
use vlog_forms::{Form, VlogCause};
use vlog_module::Item;
use vlog_tokens::next_token;

/// What an item that fits a form does to a module.
#[derive(Clone, Copy, Debug)]
pub(crate) enum Step {
    /// It is added; this is the offset after it.
    Next(usize),
    /// It is `endmodule`, and the module is finished.
    Done,
}

/// Reads items up to `endmodule`, after which nothing may follow.
pub(crate) fn read_items<'a>(
    alloc: Global,
    bytes: &'a [u8],
    from: usize,
    draft: &mut Draft<'a>,
) -> Result<(), ParseRefusal>
    requires within { from ≤ length bytes.now }
    requires kept { IsKept draft.old }
    ensures { Ends (items_from bytes.now (so_far draft.old) from) (so_far draft.new) result }
{
    let mut values = Vec::new(alloc);
    let mut from = from;
    loop {
        match read_item(alloc, bytes, from, &mut values, draft) {
            Err(refusal) => return Err(refusal),
            Ok(Step::Done) => return Ok(()),
            Ok(Step::Next(end)) => from = end,
        }
    }
}

/// Reads an item or `endmodule`. The values that the list had are dropped.
fn read_item<'a>(
    alloc: Global,
    bytes: &'a [u8],
    from: usize,
    values: &mut Vec<Found<'a>>,
    draft: &mut Draft<'a>,
) -> Result<Step, ParseRefusal>
    requires within { from ≤ length bytes.now }
    requires kept { IsKept draft.old }
    ensures steps { Steps (λ more. after (read_forms (length bytes.now) [] all_forms (spots_at bytes.now from))
        (item_outcome more (so_far draft.old) (offset_of (length bytes.now) (spots_at bytes.now from)))) bytes.now (so_far draft.new) result }
    ensures kept { OnOk result (IsKept draft.new) }
    ensures shorter { IfOk result (IsAfter bytes.now from) }
{
    match read_forms(bytes, from, &[], all_forms(), values) {
        Err(stop) => Err(refusal_of(stop)),
        Ok(whole) => take_whole(
            alloc,
            bytes,
            token_offset(bytes, from),
            whole,
            values,
            draft,
        ),
    }
}

/// The offset of the next token, or the length of the text if there is none.
fn token_offset(bytes: &[u8], from: usize) -> usize
    requires { from ≤ length bytes.now }
    ensures { result ≡ offset_of (length bytes.now) (spots_at bytes.now from) }
{
    match next_token(bytes, from) {
        Some(spot) => spot.at,
        None => bytes.len(),
    }
}

/// Takes an item that fits a form and begins at an offset.
fn take_whole<'a>(
    alloc: Global,
    bytes: &'a [u8],
    at: usize,
    whole: Whole,
    values: &[Found<'a>],
    draft: &mut Draft<'a>,
) -> Result<Step, ParseRefusal>
    requires within { whole.end ≤ length bytes.now }
    requires named { AreNamed (values_of (all_found values.now)) }
    requires uses { is_end whole.form ≡ false
        → uses_of (item_of whole.form (values_of (all_found values.now))) ≡ uses_in (values_of (all_found values.now)) }
    requires kept { IsKept draft.old }
    ensures steps { Steps (λ more. item_outcome more (so_far draft.old) at (whole_of whole bytes.now (all_found values.now))) bytes.now (so_far draft.new) result }
    ensures kept { OnOk result (IsKept draft.new) }
    ensures end { IfOk result (IsAt whole.end) }
{
    if is_end(whole.form) {
        match end_module(bytes, at, whole.end, draft) {
            Ok(()) => Ok(Step::Done),
            Err(refusal) => Err(refusal),
        }
    } else {
        match take_item(alloc, at, whole.form, values, draft) {
            Ok(()) => Ok(Step::Next(whole.end)),
            Err(refusal) => Err(refusal),
        }
    }
}

/// Adds the item of a form and values, if it has no fault here.
fn take_item<'a>(
    alloc: Global,
    at: usize,
    form: Form,
    values: &[Found<'a>],
    draft: &mut Draft<'a>,
) -> Result<(), ParseRefusal>
    requires named { AreNamed (values_of (all_found values.now)) }
    requires uses { uses_of (item_of form (values_of (all_found values.now))) ≡ uses_in (values_of (all_found values.now)) }
    requires kept { IsKept draft.old }
    ensures adds { Adds (item_fault (next_scope (so_far draft.old)) at (item_of form (values_of (all_found values.now))) (all_found values.now))
        (with_item (so_far draft.old) (item_of form (values_of (all_found values.now)))) (so_far draft.new) result }
    ensures kept { OnOk result (IsKept draft.new) }
{
    match item_of(alloc, form, values) {
        Err(refused) => Err(ParseRefusal::Memory(refused)),
        Ok(item) => match fault_of(at, &item, values, draft) {
            Some(fault) => Err(ParseRefusal::Fault(fault)),
            None => match push_item(draft, item, values) {
                Ok(()) => Ok(()),
                Err(refused) => Err(ParseRefusal::Memory(refused)),
            },
        },
    }
}

/// The fault of an item that begins at an offset.
fn fault_of(at: usize, item: &Item, values: &[Found<'_>], draft: &Draft<'_>) -> Option<Fault>
    requires { IsKept draft.now }
    ensures { option_map seen_fault result ≡ item_fault (next_scope (so_far draft.now)) at item.now (all_found values.now) }
{
    if section_of(item) < draft.section {
        Some(Fault {
            offset: at,
            cause: VlogCause::Order,
        })
    } else {
        name_fault(&draft.names, values)
    }
}
