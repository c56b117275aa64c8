// The events of the generated design.
ghost use Rattle.std.specs.Prelude.{◌≡◌, IfOk};
ghost use Rattle.ice_gen.specs.Events.{event_of, generated_events};

use crate::draws::Draws;
use std::alloc::{AllocError, Global};

/// A new value of one of the two input pins of the generated design.
#[derive(Clone, Copy, Debug, PartialEq, Eq)]
pub struct PinEvent {
    /// Whether it is the second pin, `io_0_2_0`, or the first, `io_0_1_0`.
    pub second: bool,
    pub bit: bool,
}

/// `count` events for the generated design. The seed fixes them.
///
/// # Errors
/// `AllocError` if memory is out, and for no other cause.
#[tactic(auto, using(crate::proofs::Texts::joined), unfolding(index_search::specs::Places::gathered_below, crate::specs::Events::generated_events))]
pub fn events(alloc: Global, seed: u64, count: usize) -> Result<Vec<PinEvent>, AllocError>
    ensures { IfOk result (λ events. events.items ≡ generated_events seed count) }
{
    let mut draws = Draws::new(seed.wrapping_add(1));
    let mut events = Vec::new(alloc);
    for _ in 0..count {
        events.push(event_of(draws.next()))?;
    }
    Ok(events)
}

/// The event of a draw.
fn event_of(draw: u16) -> PinEvent
    ensures { result ≡ event_of draw }
{
    PinEvent {
        second: draw & 1 == 1,
        bit: draw >> 1 & 1 == 1,
    }
}
