// Reads a line of a list of events of the long form.
ghost use Rattle.std.specs.Prelude.{◌≡◌, ◌<◌, ◌==◌, IfSome, MatchOption, None, Some, length, position};
ghost use Rattle.vlog_semantics.specs.Slots.{slot_of};
ghost use Rattle.long_events.specs.Steps.{after_piece, after_tilde, count_of, first_piece, given_of, pin_toggled, repeat_of, step_of, toggle_of, toggled_of};

use crate::step::Step;
use seeds::seed_of;
use vlog_module::is_word;
use vlog_run::{EventFault, event_of};
use vlog_semantics::{Event, Slots};

/// What a line says that isn't empty.
#[tactic(auto, unfolding(crate::specs::Steps::step_of))]
pub(crate) fn step_of(pins: &Slots, line: u64, content: &[u8]) -> Result<Step, EventFault>
    ensures { result ≡ step_of (slot_of pins.now) line content.now }
{
    let (piece, after) = cut_piece(content);
    if content == b"end".as_slice() {
        Ok(Step::End)
    } else if piece == b"repeat".as_slice() {
        repeat_of(line, count_of(after))
    } else if let Some(word) = after_tilde(after) {
        toggle_of(pins, line, piece, word)
    } else {
        given_of(event_of(pins, line, content))
    }
}

/// A line up to its first space, and after it.
fn cut_piece(line: &[u8]) -> (&[u8], &[u8])
    ensures first { result.0.now ≡ first_piece line.now }
    ensures after { result.1.now ≡ after_piece line.now }
{
    match space_in(line) {
        Some(space) => (&line[..space], &line[space + 1..]),
        None => (line, &[]),
    }
}

/// The place of the first space.
fn space_in(line: &[u8]) -> Option<usize>
    ensures place { result ≡ position (λ byte. byte == 32) line.now }
    ensures within { IfSome result (λ place. place < length line.now) }
{
    line.iter().position(|byte| *byte == b' ')
}

/// The word after `~ `, if a text begins so.
fn after_tilde(text: &[u8]) -> Option<&[u8]>
    ensures { MatchOption result (after_tilde text.now ≡ None) (λ word. after_tilde text.now ≡ Some word.now) }
{
    match text {
        [b'~', b' ', word @ ..] => Some(word),
        _ => None,
    }
}

/// The count that a word writes.
fn count_of(word: &[u8]) -> Option<u32>
    ensures { result ≡ count_of word.now }
{
    match seed_of(word) {
        Some(number) if 0 < number && number <= u64::from(u32::MAX) => Some(number as u32),
        _ => None,
    }
}

/// A `repeat` with this count; a fault if there is none.
fn repeat_of(line: u64, count: Option<u32>) -> Result<Step, EventFault>
    ensures { result ≡ repeat_of line count }
{
    match count {
        Some(count) => Ok(Step::Repeat { count }),
        None => Err(EventFault::Form { line }),
    }
}

/// A line whose input, by its name, gets the other bit as often as a word says.
fn toggle_of(pins: &Slots, line: u64, name: &[u8], word: &[u8]) -> Result<Step, EventFault>
    ensures { result ≡ toggle_of (slot_of pins.now) line name.now word.now }
{
    if !is_word(name) {
        return Err(EventFault::Form { line });
    }
    match count_of(word) {
        Some(count) => pin_toggled(line, pins.slot(name), count),
        None => Err(EventFault::Form { line }),
    }
}

/// The input with this index gets the other bit so many times; a fault if its name is no input.
fn pin_toggled(line: u64, pin: Option<usize>, count: u32) -> Result<Step, EventFault>
    ensures { result ≡ pin_toggled line pin count }
{
    match pin {
        Some(pin) => Ok(Step::Toggle { pin, count }),
        None => Err(EventFault::Pin { line }),
    }
}

/// An event as a step.
fn given_of(event: Result<Event, EventFault>) -> Result<Step, EventFault>
    ensures { result ≡ given_of event }
{
    match event {
        Ok(event) => Ok(Step::Give(event)),
        Err(fault) => Err(fault),
    }
}
