// The lists in their lanes, and their text, before the first event. In the text each list has its heading, and the line of the start in place
// of each of its lines.
ghost use Rattle.std.specs.Prelude.{◌≡◌, ◌+◌, ◌++◌, ◌^◌, ◌≤◌, [], All, IfNone, IfOk, IfSome, OnOk, false, flat_map, length, map, sum_by, vec_capacity};
ghost use Rattle.vlog_run.specs.Text.{entry_line};
ghost use Rattle.vlog_module.specs.Parts.{Parts};
ghost use Rattle.vlog_semantics.specs.Run.{start};
ghost use Rattle.vlog_sweep.specs.Strands.{Stands, begun_text, list_size};

use crate::list::EventList;
use crate::strand::{Strand, first_strand};
use std::alloc::{AllocError, Global};
use vlog_semantics::Event;

/// How many bytes the part of a list has, if each line has `width` bytes. None if the number doesn't fit.
fn list_size(list: &EventList, width: usize) -> Option<usize>
    ensures some { IfSome result (λ size. size ≡ list_size width list.now) }
    ensures none { IfNone result (2 ^ 64 ≤ list_size width list.now) }
{
    let later_lines = list.events.len().checked_mul(width)?;
    let lines = later_lines.checked_add(width)?;
    lines.checked_add(list.heading.len())
}

/// How many bytes the parts of all lists have. None if the number doesn't fit.
fn whole_size(lists: &[EventList], width: usize) -> Option<usize>
    ensures some { IfSome result (λ size. size ≡ sum_by (list_size width) lists.now) }
    ensures none { IfNone result (2 ^ 64 ≤ sum_by (list_size width) lists.now) }
{
    let mut size: usize = 0;
    for list in lists {
        size = size.checked_add(list_size(list, width)?)?;
    }
    Some(size)
}

/// An empty text, with room for the parts of all lists.
fn room_for(alloc: Global, lists: &[EventList], width: usize) -> Result<Vec<u8>, AllocError>
    ensures empty { IfOk result (λ text. text.items ≡ []) }
    ensures room { IfOk result (λ text. sum_by (list_size width) lists.now ≤ vec_capacity text) }
{
    match whole_size(lists, width) {
        Some(size) => Vec::with_capacity(alloc, size),
        None => Err(AllocError),
    }
}

/// Adds a line for each event.
fn add_lines(text: &mut Vec<u8>, events: &[Event], line: &[u8]) -> Result<(), AllocError>
    ensures { OnOk result (text.new.items ≡ text.old.items ++ flat_map (λ event. line.now) events.now) }
{
    for _event in events {
        text.extend_from_slice(line)?;
    }
    Ok(())
}

/// Adds the heading of a list and its lines.
fn add_list<'a>(
    text: &mut Vec<u8>,
    list: &'a EventList,
    line: &[u8],
) -> Result<Strand<'a>, AllocError>
    ensures list { IfOk result (λ strand. strand.list.now ≡ list.entry.now) }
    ensures taken { IfOk result (λ strand. strand.taken ≡ 0) }
    ensures at { IfOk result (λ strand. strand.at ≡ length text.old.items + (length list.entry.now.heading.items + length line.now)) }
    ensures text { OnOk result (text.new.items ≡ text.old.items ++ begun_text line.now list.entry.now) }
{
    text.extend_from_slice(&list.heading)?;
    text.extend_from_slice(line)?;
    let at = text.len();
    add_lines(text, &list.events, line)?;
    Ok(first_strand(list, at))
}

/// The lists in their lanes before the first event, and their text, in which each line is the line of the start.
pub(crate) fn begin<'a>(
    alloc: Global,
    lists: &'a [EventList],
    line: &[u8],
) -> Result<(Vec<Strand<'a>>, Vec<u8>), AllocError>
    ensures stands { (m : Parts) → line.now ≡ entry_line false (start m) → IfOk result (λ given. Stands m line.now given.0.items given.1.items) }
    ensures lists { IfOk result (λ given. map (λ strand. strand.list.now) given.0.items ≡ lists.entry.now) }
    ensures taken { IfOk result (λ given. All (λ strand. strand.taken ≡ 0) given.0.items) }
{
    let mut strands = Vec::with_capacity(alloc, lists.len())?;
    let mut text = room_for(alloc, lists, line.len())?;
    for list in lists {
        let strand = add_list(&mut text, list, line)?;
        strands.push(strand)?;
    }
    Ok((strands, text))
}

/// The lists in their lanes before the first event, if their events have no lines.
pub(crate) fn at_start<'a>(
    alloc: Global,
    lists: &'a [EventList],
) -> Result<Vec<Strand<'a>>, AllocError>
    ensures lists { IfOk result (λ strands. map (λ strand. strand.list.now) strands.items ≡ lists.entry.now) }
    ensures taken { IfOk result (λ strands. All (λ strand. strand.taken ≡ 0) strands.items) }
{
    let mut strands = Vec::with_capacity(alloc, lists.len())?;
    for list in lists {
        strands.push(first_strand(list, 0))?;
    }
    Ok(strands)
}
