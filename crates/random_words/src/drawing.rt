// The text of a draw.
ghost use Rattle.std.specs.Prelude.{◌≡◌, ◌≤◌, ◌<◌, ◌++◌, length, slice_index, IfOk, OnOk};
ghost use Rattle.hex.specs.Hex.{lower_digits};
ghost use Rattle.bram_replace.specs.HexText.{contents_of};
ghost use Rattle.random_words.specs.Draws.{digit_at, digits_from, drawn, drawn_from, state_after, state_of};
ghost use Rattle.random_words.specs.Taken.{HasSize};

use crate::size::MemorySize;
use rand_core::SeedableRng;
use rand_core::utils::NextWord;
use rand_xoshiro::Xoshiro256PlusPlus;
use std::alloc::{AllocError, Global};

/// The sixteen digits.
const DIGITS: &[u8; 16] = b"0123456789abcdef";

/// The generator of a draw, at its beginning.
#[tactic(auto, unfolding(crate::specs::Draws::state_of))]
pub(crate) fn generator(seed: u64, draw: u32) -> Xoshiro256PlusPlus
    requires { draw < 16 }
    ensures { result ≡ state_of seed draw }
{
    Xoshiro256PlusPlus::seed_from_u64(seed.wrapping_add(u64::from(draw) << 60))
}

/// The digit with this value.
fn digit_with(value: u64) -> u8
    requires { value < 16 }
    ensures { result ≡ slice_index lower_digits value }
{
    DIGITS[value as usize]
}

/// The next digit.
fn digit(rng: &mut Xoshiro256PlusPlus) -> u8
    ensures digit { result ≡ digit_at rng.old 0 }
    ensures state { rng.new ≡ state_after 1 rng.old }
{
    digit_with(rng.next_word() >> 60)
}

/// Appends the next digits.
fn append_digits(
    text: &mut Vec<u8>,
    rng: &mut Xoshiro256PlusPlus,
    count: u32,
) -> Result<(), AllocError>
    ensures text { OnOk result (text.new.items ≡ text.old.items ++ digits_from rng.old count) }
    ensures state { OnOk result (rng.new ≡ state_after count rng.old) }
{
    for _ in 0..count {
        text.push(digit(rng))?;
    }
    Ok(())
}

/// The text of the draw that begins with this generator.
pub(crate) fn drawn_from(
    alloc: Global,
    size: MemorySize,
    rng: Xoshiro256PlusPlus,
) -> Result<Vec<u8>, AllocError>
    ensures { IfOk result (λ text. text.items ≡ drawn_from size.width size.depth rng) }
{
    let mut rng = rng;
    let mut text = Vec::new(alloc);
    for _ in 0..size.depth() {
        append_digits(&mut text, &mut rng, size.digits())?;
        text.push(b'\n')?;
    }
    Ok(text)
}

/// The text of a draw.
pub(crate) fn drawn(
    alloc: Global,
    size: MemorySize,
    seed: u64,
    draw: u32,
) -> Result<Vec<u8>, AllocError>
    requires { draw < 16 }
    ensures text { IfOk result (λ text. text.items ≡ drawn size.width size.depth seed draw) }
    ensures size { IfOk result (λ text. HasSize size.width size.depth (contents_of text.items)) }
    ensures length { IfOk result (λ text. length text.items ≤ 16777216) }
{
    drawn_from(alloc, size, generator(seed, draw))
}
