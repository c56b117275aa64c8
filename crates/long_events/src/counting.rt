// Counts the moves of steps.
ghost use Rattle.std.specs.Prelude.{◌≡◌, ◌<◌, ◌+◌, List, [], ◌∷◌, length, true};
ghost use Rattle.long_events.specs.Moves.{moves_of};
ghost use Rattle.long_events.specs.inside.Counting.{HasRoom, Tallies, added, begun, capped, repeated};
ghost use Rattle.long_events.specs.inside.Nesting.{nests};
ghost use Rattle.long_events.specs.declared.step.Step.{Step as step_of};

use crate::step::Step;

/// The counts of the moves of steps that are taken from the last one to the first: those up to the next `end` whose `repeat` isn't taken
/// yet, those after it, and so on. Counts stay at `u64::MAX`.
#[derive(Clone, Copy)]
pub(crate) struct Tally {
    /// The counts, the last part first; there are `depth` and one of them.
    pub(crate) counts: [u64; 9],
    pub(crate) depth: usize,
}

impl Tally {
    /// No steps.
    fn new() -> Tally
        ensures { Tallies result [] }
    {
        Tally {
            counts: [0; 9],
            depth: 0,
        }
    }

    /// Takes the step before those that are taken.
    fn take(&mut self, step: Step)
        requires deep { self.old.depth < length self.old.counts }
        requires room { HasRoom self.old.depth step }
        ensures { (rest : List step_of) → Tallies self.old rest → Tallies self.new (step ∷ rest) }
    {
        match step {
            Step::Give(_) => self.add(1),
            Step::Toggle { pin: _, count } => self.add(u64::from(count)),
            Step::Repeat { count } => self.repeat(u64::from(count)),
            Step::End => self.begin(),
        }
    }

    /// Adds moves to the first part.
    fn add(&mut self, count: u64)
        requires { self.old.depth < length self.old.counts }
        ensures { self.new ≡ added self.old count }
    {
        let total = &mut self.counts[self.depth];
        *total = total.saturating_add(count);
    }

    /// Repeats the first part so many times, before the second one.
    fn repeat(&mut self, count: u64)
        requires deep { self.old.depth < length self.old.counts }
        requires inside { 0 < self.old.depth }
        ensures { self.new ≡ repeated self.old count }
    {
        let body = self.counts[self.depth].saturating_mul(count);
        self.depth -= 1;
        self.add(body);
    }

    /// Begins a part.
    fn begin(&mut self)
        requires { self.old.depth + 1 < length self.old.counts }
        ensures { self.new ≡ begun self.old }
    {
        self.depth += 1;
        self.counts[self.depth] = 0;
    }
}

/// How many moves steps stand for; `u64::MAX` if there are more.
pub(crate) fn count_moves(steps: &[Step]) -> u64
    requires { nests 0 steps.now ≡ true }
    ensures { result ≡ capped (length (moves_of steps.now)) }
{
    let mut tally = Tally::new();
    let mut place = steps.len();
    while place > 0 {
        place -= 1;
        tally.take(steps[place]);
    }
    tally.counts[0]
}
