// Random numbers.
ghost use Rattle.std.specs.Prelude.{◌≡◌, ◌+◌, ◌<◌, ◌^◌};
ghost use Rattle.ice_gen.specs.Draws.{draw, state_after};

/// The draws of a seed, one after the other.
#[derive(Clone, Copy, Debug)]
pub(crate) struct Draws {
    pub(crate) seed: u64,
    /// How many were drawn.
    pub(crate) count: u64,
    state: u64,
    ghost reached: { state ≡ state_after seed count },
}

impl Draws {
    /// The generator before its first draw.
    #[tactic(auto, unfolding(crate::specs::Draws::state_after))]
    pub(crate) fn new(seed: u64) -> Draws
        ensures seed { result.seed ≡ seed }
        ensures count { result.count ≡ 0 }
    {
        Draws {
            seed,
            count: 0,
            state: seed,
        }
    }

    /// The next draw.
    #[tactic(auto, unfolding(crate::specs::Draws::state_after))]
    pub(crate) fn next(&mut self) -> u16
        requires { self.old.count + 1 < 2 ^ 64 }
        ensures draw { result ≡ draw self.old.seed self.old.count }
        ensures seed { self.new.seed ≡ self.old.seed }
        ensures count { self.new.count ≡ self.old.count + 1 }
    {
        self.count += 1;
        self.state = self
            .state
            .wrapping_mul(6364136223846793005)
            .wrapping_add(1442695040888963407);
        (self.state >> 48) as u16
    }
}
