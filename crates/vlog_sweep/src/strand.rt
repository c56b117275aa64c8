// How far a list is run.
ghost use Rattle.std.specs.Prelude.{◌≡◌};
ghost use Rattle.std.specs.Option.{option_map};
ghost use Rattle.vlog_sweep.specs.Strands.{left_of, next_of};

use crate::list::EventList;
use vlog_semantics::Event;

/// A list in its lane.
#[derive(Clone, Copy)]
pub(crate) struct Strand<'a> {
    pub(crate) list: &'a EventList,
    /// How many events the lane has had.
    pub(crate) taken: usize,
    /// The offset of its next line in the text; 0 where the events have no lines.
    pub(crate) at: usize,
}

/// A list in its lane before its first event, with the offset of its next line.
pub(crate) fn first_strand<'a>(list: &'a EventList, at: usize) -> Strand<'a>
    ensures list { result.list.now ≡ list.entry.now }
    ensures taken { result.taken ≡ 0 }
    ensures at { result.at ≡ at }
{
    Strand { list, taken: 0, at }
}

/// The next event of a list, if any is left.
pub(crate) fn next_event(strand: &Strand<'_>) -> Option<Event>
    ensures { result ≡ next_of strand.now }
{
    strand.list.events.get(strand.taken).copied()
}

/// The input of the next event, if any is left.
pub(crate) fn next_input(strand: &Strand<'_>) -> Option<usize>
    ensures { result ≡ option_map (λ event. event.pin) (next_of strand.now) }
{
    match next_event(strand) {
        Some(event) => Some(event.pin),
        None => None,
    }
}

/// How many events are left.
pub(crate) fn left(strand: &Strand<'_>) -> usize
    ensures { result ≡ left_of strand.now }
{
    strand.list.events.len().saturating_sub(strand.taken)
}
