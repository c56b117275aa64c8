// Moves: changes of inputs.
ghost use Rattle.std.specs.Prelude.{◌≡◌};
ghost use Rattle.long_events.specs.Moves.{event_by};

use vlog_semantics::{Event, bit_at};

/// A change of an input.
#[derive(Clone, Copy, Debug, PartialEq, Eq)]
pub enum Move {
    /// The input of an event gets its bit.
    Given(Event),
    /// The input of this index gets the other bit.
    Toggled(usize),
}

/// The event of a move, if the inputs have these bits.
pub(crate) fn event_by(bits: &[bool], found: Move) -> Event
    ensures { result ≡ event_by bits.now found }
{
    match found {
        Move::Given(event) => event,
        Move::Toggled(pin) => Event {
            pin,
            bit: !bit_at(bits, pin),
        },
    }
}
