//! Seeds, as the words of a command line write them.
//!
//! No call takes memory or can fail.
#![tactic(auto)]

ghost use Rattle.std.specs.Prelude.{◌≡◌, ◌≤◌, ◌&&◌, length, nat_lt, nat_le, true};
ghost use Rattle.std.specs.Char.{is_ascii_digit};
ghost use Rattle.std.specs.List.{list_all};
ghost use Rattle.text_lines.specs.Words.{digits_value};
ghost use Rattle.seeds.specs.Seeds.{seed_of};

/// The most digits of a seed.
const SEED_DIGITS: usize = 20;

/// The seed that a word writes in decimal digits, if it writes one.
#[tactic(auto, unfolding(crate::specs::Seeds::seed_of))]
pub fn seed_of(word: &[u8]) -> Option<u64>
    ensures { result ≡ seed_of word.now }
{
    if is_seed(word) {
        let value = digits_value(word);
        if value <= u64::MAX as u128 {
            return Some(value as u64);
        }
    }
    None
}

/// Whether a word can be a seed by its length and its bytes.
fn is_seed(word: &[u8]) -> bool
    ensures { result ≡ (nat_lt 0 (length word.now) && (nat_le (length word.now) 20 && list_all is_ascii_digit word.now)) }
{
    0 < word.len() && word.len() <= SEED_DIGITS && are_digits(word)
}

/// Whether each byte is a decimal digit.
fn are_digits(word: &[u8]) -> bool
    ensures { result ≡ list_all is_ascii_digit word.now }
{
    word.iter().all(|byte| byte.is_ascii_digit())
}

/// The number that at most twenty digits write, the most significant first.
fn digits_value(digits: &[u8]) -> u128
    requires digits { list_all is_ascii_digit digits.now ≡ true }
    requires few { length digits.now ≤ 20 }
    ensures { result ≡ digits_value digits.now }
{
    let mut value = 0;
    for digit in digits {
        value = 10 * value + u128::from(*digit - b'0');
    }
    value
}
