//! Narrow words of a RAM: each word of 16 bits holds 1, 2, 4 or 8 of them in modes 0 to 3.
//!
//! A narrow word is known by its mode and its high part, which is below the number of narrow words in a word. They have one bit each in
//! turn: in mode 1 the narrow word of high part 0 has the bits 0, 2, 4 and so on, and that of high part 1 the bits 1, 3, 5 and so on.
//!
//! No call takes memory or can fail.
#![tactic(auto)]

ghost use Rattle.std.specs.Prelude.{◌≡◌, ℕ, ◌+◌, ◌*◌, ◌/◌, ◌^◌, ◌<◌, ◌≤◌, length, get_or};
ghost use Rattle.narrow_words.specs.Narrow.{share, bit_at, put_bit, got_bit, narrow_bit};

/// How many narrow words a word holds in a mode: 1, 2, 4 or 8.
pub fn share(mode: u8) -> u8
    requires mode { mode < 4 }
    ensures is { result ≡ share mode }
    ensures few { result ≤ 8 }
{
    match mode {
        0 => 1,
        1 => 2,
        2 => 4,
        _ => 8,
    }
}

/// Bit `b` of a number.
fn bit_at(number: u16, b: u8) -> bool
    requires few { b < 16 }
    ensures { result ≡ bit_at number b }
{
    (number >> b) % 2 == 1
}

/// Bit `b` of `word` after the narrow word `high` is put into it.
fn put_bit(mode: u8, word: u16, high: u8, value: u16, b: u8) -> bool
    requires mode { mode < 4 }
    requires few { b < 16 }
    ensures { result ≡ put_bit mode (bit_at word) high (bit_at value) b }
{
    let share = share(mode);
    if b % share == high {
        bit_at(value, b / share)
    } else {
        bit_at(word, b)
    }
}

/// Bit `b` of the narrow word `high` as `get` gives it.
fn got_bit(mode: u8, word: u16, high: u8, b: u8) -> bool
    requires mode { mode < 4 }
    requires high { high < share mode }
    requires few { b < 16 }
    ensures { result ≡ got_bit mode (bit_at word) high b }
{
    if b % share(mode) == 0 {
        bit_at(word, b + high)
    } else {
        false
    }
}

/// The word with `value` put into it as its narrow word of high part `high`. No tool of this project needs it: it is for users of the
/// library.
pub fn put(mode: u8, word: u16, high: u8, value: u16) -> u16
    requires mode { mode < 4 }
    requires high { high < share mode }
    requires value { value < 2 ^ (16 / share mode) }
    ensures { (b : ℕ) → b < 16 → bit_at result b ≡ put_bit mode (bit_at word) high (bit_at value) b }
{
    let mut result = 0;
    for k in 0..16u8 {
        result = 2 * result + u16::from(put_bit(mode, word, high, value, 15 - k));
    }
    result
}

/// The narrow word of high part `high`, got from the word. Its bits are at the places of those of high part 0, and all other bits are 0. No
/// tool of this project needs it: it is for users of the library.
pub fn get(mode: u8, word: u16, high: u8) -> u16
    requires mode { mode < 4 }
    requires high { high < share mode }
    ensures { (b : ℕ) → b < 16 → bit_at result b ≡ got_bit mode (bit_at word) high b }
{
    let mut result = 0;
    for k in 0..16u8 {
        result = 2 * result + u16::from(got_bit(mode, word, high, 15 - k));
    }
    result
}

/// The narrow word at an address of 256 words. The low eight bits of the address choose the word, the bits above them are the high part. No
/// tool of this project needs it: it is for users of the library.
pub fn narrow(mode: u8, words: &[u16], address: u16) -> u16
    requires mode { mode < 4 }
    requires words { length words.now ≡ 256 }
    requires address { address < 256 * share mode }
    ensures bits { (d : ℕ) → d < 16 / share mode → bit_at result d ≡ narrow_bit mode (λ a b. bit_at (get_or words.now a 0) b) address d }
    ensures small { result < 2 ^ (16 / share mode) }
{
    let share = share(mode);
    let word = words[usize::from(address % 256)];
    let high = (address / 256) as u8;
    let count = 16 / share;
    let mut result = 0;
    for k in 0..count {
        result = 2 * result + u16::from(bit_at(word, share * (count - 1 - k) + high));
    }
    result
}
