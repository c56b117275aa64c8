// Which lists take their next event together.
ghost use Rattle.std.specs.Prelude.{◌≡◌, ◌<◌, ◌≤◌, ℕ, All, None, Some, get_or, length, map, true};
ghost use Rattle.vlog_lanes.specs.Showing.{input_count};
ghost use Rattle.vlog_semantics.specs.Values.{number_of};
ghost use Rattle.vlog_sweep.specs.Strands.{Called, has_bit, is_on, left_of, next_of};
ghost use Rattle.vlog_sweep.specs.declared.strand.Strand.{Strand as strand_of};

use crate::strand::{Strand, left, next_event, next_input};
use vlog_lanes::{Call, Lanes};
use vlog_semantics::Event;

/// The input of the next event of a list that has most events left, so that lists with the same inputs go in step. None if no list has an
/// event left.
fn next_pin(strands: &[Strand<'_>]) -> Option<usize>
    ensures none { result ≡ None → (k : ℕ) (d : strand_of) → k < length strands.now → left_of (get_or strands.now k d) ≡ 0 }
    ensures some { (pin : ℕ) → result ≡ Some pin → (k : ℕ) × (k < length strands.now) × ((d : strand_of) → is_on pin (next_of (get_or strands.now k d)) ≡ true) }
{
    let mut most = 0;
    let mut pin = None;
    for strand in strands {
        if left(strand) > most {
            most = left(strand);
            pin = next_input(strand);
        }
    }
    pin
}

/// Whether an event is on this input.
fn is_on(pin: usize, event: Option<Event>) -> bool
    ensures { result ≡ is_on pin event }
{
    match event {
        Some(event) => event.pin == pin,
        None => false,
    }
}

/// The bit of an event; 0 if there is none.
fn has_bit(event: Option<Event>) -> bool
    ensures { result ≡ has_bit event }
{
    match event {
        Some(event) => event.bit,
        None => false,
    }
}

/// A call for the lanes whose next event is on this input, with the bits of those events.
fn call_on(strands: &[Strand<'_>], pin: usize) -> Call
    requires { length strands.now ≤ 64 }
    ensures pin { result.pin ≡ pin }
    ensures active { result.active ≡ number_of (map (λ strand. is_on pin (next_of strand)) strands.now) }
    ensures bits { result.bits ≡ number_of (map (λ strand. has_bit (next_of strand)) strands.now) }
{
    let mut active = 0;
    let mut bits = 0;
    for lane in (0..strands.len()).rev() {
        let event = next_event(&strands[lane]);
        active = 2 * active + u64::from(is_on(pin, event));
        bits = 2 * bits + u64::from(has_bit(event));
    }
    Call { pin, active, bits }
}

/// Gives the next event of a list that has most events left to its lane, and the events on the same input to the lanes of the other lists
/// whose next they are. Returns the lanes that had an event. None if no list has an event left.
pub(crate) fn call_next(lanes: &mut Lanes, strands: &[Strand<'_>]) -> Option<u64>
    requires few { length strands.now ≤ 64 }
    requires inputs { All (λ strand. All (λ event. event.pin < input_count lanes.old) strand.list.now.events.items) strands.now }
    ensures kept { result ≡ None → lanes.new ≡ lanes.old }
    ensures none { result ≡ None → (k : ℕ) (d : strand_of) → k < length strands.now → left_of (get_or strands.now k d) ≡ 0 }
    ensures some { (active : ℕ) → result ≡ Some active → Called lanes.old lanes.new strands.now active }
{
    match next_pin(strands) {
        Some(pin) => {
            let call = call_on(strands, pin);
            lanes.event(call.pin, call.active, call.bits);
            Some(call.active)
        }
        None => None,
    }
}
