// Parses modules.
ghost use Rattle.std.specs.Prelude.{◌≡◌, ◌≤◌, [], length, None, Ok, IfOk, IfErr, MatchResult};
ghost use Rattle.vlog_tokens.specs.Tokens.{spots_at};
ghost use Rattle.vlog_module.specs.Parts.{Parts};
ghost use Rattle.vlog_forms.specs.Items.{IsSpelling, name_in};
ghost use Rattle.vlog_forms.specs.Reading.{values_of};
ghost use Rattle.vlog_forms.specs.Outcome.{outcome_of, ports_next, ports_outcome, vlog_fault_of};
ghost use Rattle.vlog_form_parser.specs.Found.{all_found};
ghost use Rattle.vlog_form_parser.specs.Named.{AreNamed};
ghost use Rattle.vlog_parser.specs.Answers.{RefusesAt, Takes, Tells};
ghost use Rattle.vlog_parser.specs.Decided.{IsDecided};
ghost use Rattle.vlog_parser.specs.Drafts.{so_far};

use crate::draft::{Draft, new_draft};
use crate::fault::{ParseRefusal, VlogFault, refusal_of};
use crate::header::read_header;
use crate::items::read_items;
use crate::name_faults::twice_fault;
use crate::ports::read_ports;
use std::alloc::Global;
use vlog_form_parser::{Found, name_at};
use vlog_module::{Module, Name};

/// The module that a text spells. A text either spells exactly one module or has exactly one first fault.
///
/// # Errors
/// [`VlogFault::At`] if the text spells no module: the cause of its first fault, and the offset of the token at fault (the length of the
/// text if it ends there). [`VlogFault::Memory`] if memory is out; it may come in place of any other answer.
///
/// # Example
/// ```ignore
/// match parse(alloc, b"module m (q); output q; assign q = 1'b1; endmodule") {
///     Ok(module) => assert!(module.items().len() == 1),
///     Err(VlogFault::At { offset, cause }) => panic!("{cause:?} at byte {offset}"),
///     Err(VlogFault::Memory(_)) => panic!("out of memory"),
/// }
/// ```
pub fn parse(alloc: Global, bytes: &[u8]) -> Result<Module, VlogFault>
    ensures spells { IfOk result (λ taken. IsSpelling bytes.now taken) }
    ensures takes { (m : Parts) → IsSpelling bytes.now m → Takes m result }
    ensures tells { IfErr result (λ fault. Tells (vlog_fault_of bytes.now) fault) }
    ensures alone { (m n : Parts) → IsSpelling bytes.now m → IsSpelling bytes.now n → m ≡ n }
    ensures decided { IsDecided bytes.now }
{
    match parse_module(alloc, bytes) {
        Ok(parsed) => Ok(parsed),
        Err(ParseRefusal::Fault(fault)) => Err(VlogFault::At {
            offset: fault.offset as u64,
            cause: fault.cause,
        }),
        Err(ParseRefusal::Memory(refused)) => Err(VlogFault::Memory(refused)),
    }
}

/// Parses a text, and says why if it spells no module.
fn parse_module(alloc: Global, bytes: &[u8]) -> Result<Module, ParseRefusal>
    ensures { MatchResult result (λ parsed. outcome_of bytes.now ≡ Ok parsed) (λ refusal. RefusesAt (outcome_of bytes.now) refusal) }
{
    let mut head = Vec::new(alloc);
    let mut names = Vec::new(alloc);
    match read_header(bytes, &mut head, &mut names) {
        Err(stop) => Err(refusal_of(stop)),
        Ok(end) => match twice_fault(alloc, &names) {
            Err(refused) => Err(ParseRefusal::Memory(refused)),
            Ok(Some(fault)) => Err(ParseRefusal::Fault(fault)),
            Ok(None) => parse_named(alloc, bytes, end, &head, &names),
        },
    }
}

/// The rest of a module, after its header.
fn parse_named<'a>(
    alloc: Global,
    bytes: &'a [u8],
    from: usize,
    head: &[Found<'a>],
    names: &[Found<'a>],
) -> Result<Module, ParseRefusal>
    requires within { from ≤ length bytes.now }
    requires head { AreNamed (values_of (all_found head.now)) }
    requires names { AreNamed (values_of (all_found names.now)) }
    requires outcome { outcome_of bytes.now ≡ ports_outcome (length bytes.now) (all_found names.now) [] (spots_at bytes.now from)
        (ports_next (length bytes.now) (name_in (values_of (all_found head.now)))) }
    ensures { MatchResult result (λ parsed. outcome_of bytes.now ≡ Ok parsed) (λ refusal. RefusesAt (outcome_of bytes.now) refusal) }
{
    match name_at(alloc, head, 0) {
        Err(refused) => Err(ParseRefusal::Memory(refused)),
        Ok(name) => parse_body(alloc, bytes, from, name, names),
    }
}

/// The rest of a module with this name, after its header.
fn parse_body<'a>(
    alloc: Global,
    bytes: &'a [u8],
    from: usize,
    name: Name,
    names: &[Found<'a>],
) -> Result<Module, ParseRefusal>
    requires within { from ≤ length bytes.now }
    requires names { AreNamed (values_of (all_found names.now)) }
    requires outcome { outcome_of bytes.now ≡ ports_outcome (length bytes.now) (all_found names.now) [] (spots_at bytes.now from) (ports_next (length bytes.now) name) }
    ensures { MatchResult result (λ parsed. outcome_of bytes.now ≡ Ok parsed) (λ refusal. RefusesAt (outcome_of bytes.now) refusal) }
{
    let mut draft = new_draft(alloc, name);
    match read_ports(alloc, bytes, from, names, &mut draft) {
        Err(refusal) => Err(refusal),
        Ok(end) => match read_items(alloc, bytes, end, &mut draft) {
            Err(refusal) => Err(refusal),
            Ok(()) => Ok(whole_module(bytes, draft)),
        },
    }
}

/// The module of the parts that were read.
fn whole_module(bytes: &[u8], draft: Draft<'_>) -> Module
    requires { outcome_of bytes.now ≡ Ok (so_far draft) }
    ensures { outcome_of bytes.now ≡ Ok result }
{
    Module::of(draft.name, draft.ports, draft.items)
}
