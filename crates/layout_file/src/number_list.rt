// A few numbers, kept without allocating.
ghost use Rattle.std.specs.Prelude.{◌≡◌, ◌<◌, [], ◌∷◌, ◌++◌, length, nat_le};

use std::marker::Model;

/// At most 18 numbers.
#[derive(Drop)]
pub(crate) struct NumberList {
    numbers: [u32; 18],
    count: usize,
}

impl Model for NumberList {
    ghost use Rattle.std.specs.Prelude.{ℕ, List, take, ◌≤◌};

    ghost Value = { List ℕ };

    ghost view = { λ list. take list.count list.numbers };

    ghost invariant = { λ list. list.count ≤ 18 };
}

impl NumberList {
    /// No numbers.
    pub(crate) fn new() -> NumberList
        ensures { result ≡ [] }
    {
        NumberList {
            numbers: [0; 18],
            count: 0,
        }
    }

    /// Whether there is no room for another number.
    pub(crate) fn is_full(&self) -> bool
        ensures { result ≡ nat_le 18 (length self.now) }
    {
        18 <= self.count
    }

    /// Adds a number at the end.
    pub(crate) fn push(&mut self, number: u32)
        requires { length self.old < 18 }
        ensures { self.new ≡ self.old ++ number ∷ [] }
    {
        self.numbers[self.count] = number;
        self.count += 1;
    }

    /// The numbers.
    pub(crate) fn items(&self) -> &[u32]
        ensures { result.now ≡ self.now }
    {
        &self.numbers[..self.count]
    }
}
