// Where the events of a list of the long form go on.
ghost use Rattle.std.specs.Prelude.{◌≡◌, ◌<◌, ◌≤◌, ◌+◌, ◌^◌, ◌++◌, [], length, slice_get, IfNone, OnSome};
ghost use Rattle.std.specs.Option.{option_to_list};

use crate::moves::Move;
use crate::step::Step;

/// The most `repeat`s that are inside one another.
pub(crate) const MOST_LEVELS: usize = 8;

/// A `repeat` whose `end` is still to come.
#[derive(Clone, Copy)]
pub(crate) struct Frame {
    /// The place of the first step of its body.
    pub(crate) start: usize,
    /// How many times the body comes after this time.
    pub(crate) left: u32,
}

/// Where the moves of steps go on.
#[derive(Clone, Copy)]
pub(crate) struct Cursor {
    /// The place of the next step.
    pub(crate) place: usize,
    /// The input of the last step that toggled one, and how many times it still gets the other bit.
    pub(crate) pin: usize,
    pub(crate) toggles: u32,
    /// The open `repeat`s, the outermost first; there are `depth` of them.
    pub(crate) frames: [Frame; 8],
    pub(crate) depth: usize,
}

/// What a cursor does next.
#[derive(Clone, Copy)]
pub(crate) enum Turn {
    Moved(Move),
    /// It goes to another step.
    Turned,
    /// No step is left.
    Ended,
}

/// The step at a place, if there is one.
fn step_at(steps: &[Step], place: usize) -> Option<Step>
    ensures is { result ≡ slice_get steps.now place }
    ensures within { OnSome result (place < length steps.now) }
{
    steps.get(place).copied()
}

impl Cursor {
    ghost use Rattle.long_events.specs.inside.Cursors.{Does, Stands, begun, closed, moves_left, opened, ticks_left};

    /// A cursor before the first step.
    pub(crate) fn new() -> Cursor
        ensures { result ≡ begun }
    {
        Cursor {
            place: 0,
            pin: 0,
            toggles: 0,
            frames: [Frame { start: 0, left: 0 }; 8],
            depth: 0,
        }
    }

    /// Enters the body of a `repeat`.
    fn open(&mut self, count: u32)
        requires deep { self.old.depth < length self.old.frames }
        requires some { 0 < count }
        requires place { self.old.place + 1 < 2 ^ 64 }
        ensures { self.new ≡ opened self.old count }
    {
        self.place += 1;
        self.frames[self.depth] = Frame {
            start: self.place,
            left: count - 1,
        };
        self.depth += 1;
    }

    /// Ends the body of the innermost `repeat`: it comes once more, or the steps after its `end` come.
    fn close(&mut self)
        requires open { 0 < self.old.depth }
        requires deep { self.old.depth ≤ length self.old.frames }
        requires place { self.old.place + 1 < 2 ^ 64 }
        ensures { self.new ≡ closed self.old }
    {
        let frame = &mut self.frames[self.depth - 1];
        if frame.left > 0 {
            frame.left -= 1;
            self.place = frame.start;
        } else {
            self.place += 1;
            self.depth -= 1;
        }
    }

    /// Does what comes next.
    fn turn(&mut self, steps: &[Step]) -> Turn
        requires { Stands steps.now self.old }
        ensures stands { Stands steps.now self.new }
        ensures does { Does result (ticks_left steps.now self.old) (ticks_left steps.now self.new) }
    {
        if self.toggles > 0 {
            self.toggles -= 1;
            return Turn::Moved(Move::Toggled(self.pin));
        }
        match step_at(steps, self.place) {
            None => Turn::Ended,
            Some(Step::Give(event)) => {
                self.place += 1;
                Turn::Moved(Move::Given(event))
            }
            Some(Step::Toggle { pin, count }) => {
                self.place += 1;
                self.pin = pin;
                self.toggles = count;
                Turn::Turned
            }
            Some(Step::Repeat { count }) => {
                self.open(count);
                Turn::Turned
            }
            Some(Step::End) => {
                self.close();
                Turn::Turned
            }
        }
    }

    /// The next move, if any is left.
    pub(crate) fn next_move(&mut self, steps: &[Step]) -> Option<Move>
        requires { Stands steps.now self.old }
        ensures stands { Stands steps.now self.new }
        ensures moves { moves_left steps.now self.old ≡ option_to_list result ++ moves_left steps.now self.new }
        ensures ended { IfNone result (moves_left steps.now self.old ≡ []) }
    {
        loop {
            match self.turn(steps) {
                Turn::Moved(found) => return Some(found),
                Turn::Turned => {}
                Turn::Ended => return None,
            }
        }
    }
}
