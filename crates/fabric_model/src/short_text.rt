// Short texts, such as names that have numbers in them.
ghost use Rattle.std.specs.Prelude.{◌≡◌, ◌+◌, ◌≤◌, ◌++◌, [], List, ℕ, length, take, decimal};
ghost use Rattle.fabric_model.specs.Nets.{with_number, ending_in};

use itoa::Buffer;
use std::marker::Model;

/// A text of at most 40 bytes, such as `lutff_3/in_2` or `ram/RADDR_7`. It allocates no memory.
#[derive(Drop)]
pub struct ShortText {
    bytes: [u8; 40],
    length: usize,
}

impl Model for ShortText {
    ghost Value = { List ℕ };

    ghost view = { λ name. take name.length name.bytes };

    ghost invariant = { λ name. name.length ≤ 40 };
}

impl ShortText {
    /// The name with a number between two texts.
    pub fn with_number(before: &[u8], number: u8, after: &[u8]) -> ShortText
        requires { length before.now + length after.now ≤ 36 }
        ensures name { result ≡ with_number before.now number after.now }
        ensures short { length result ≤ length before.now + length after.now + 3 }
    {
        let mut name = ShortText::of(before);
        name.push_small(number);
        name.push(after);
        name
    }

    /// The name with a number after a text.
    pub fn ending_in(before: &[u8], number: u8) -> ShortText
        requires { length before.now ≤ 36 }
        ensures name { result ≡ ending_in before.now number }
        ensures short { length result ≤ length before.now + 3 }
    {
        let mut name = ShortText::of(before);
        name.push_small(number);
        name
    }

    /// The bytes of the name.
    pub fn bytes(&self) -> &[u8]
        ensures { result.now ≡ self.now }
    {
        &self.bytes[..self.length]
    }

    /// The text of these bytes.
    pub fn of(text: &[u8]) -> ShortText
        requires { length text.now ≤ 40 }
        ensures { result ≡ text.now }
    {
        let mut name = ShortText {
            bytes: [0; 40],
            length: 0,
        };
        name.push(text);
        name
    }

    /// Appends a number of at most three digits, in decimal.
    pub fn push_small(&mut self, number: u8)
        requires { length self.old + 3 ≤ 40 }
        ensures pushed { self.new ≡ self.old ++ decimal number }
        ensures short { length self.new ≤ length self.old + 3 }
    {
        self.push(Buffer::new().format(number).as_bytes());
    }

    /// Appends a number, in decimal.
    pub fn push_number(&mut self, number: u32)
        requires { length self.old + 10 ≤ 40 }
        ensures pushed { self.new ≡ self.old ++ decimal number }
        ensures short { length self.new ≤ length self.old + 10 }
    {
        self.push(Buffer::new().format(number).as_bytes());
    }

    /// Appends bytes.
    pub fn push(&mut self, text: &[u8])
        requires { length self.old + length text.now ≤ 40 }
        ensures { self.new ≡ self.old ++ text.now }
    {
        let end = self.length + text.len();
        self.bytes[self.length..end].copy_from_slice(text);
        self.length = end;
    }
}
