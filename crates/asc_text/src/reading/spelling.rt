// How statements are spelled.
ghost use Rattle.std.specs.Prelude.{◌≡◌, ◌<◌, ℕ, List, drop, length, Some, IfSome};
ghost use Rattle.text_lines.specs.declared.words.Separators.TheVariants.{Spaces};
ghost use Rattle.text_lines.specs.Words.{first_word, after_word, number_of, numbers_of, words_of};
ghost use Rattle.text_lines.specs.Numbers.{StartsWithNumber};
ghost use Rattle.asc_text.specs.declared.statement.Statement.TheVariants.{Symbol};
ghost use Rattle.asc_text.specs.inside.Keywords.{spelled_as};
ghost use Rattle.plane_map.specs.DeviceWords.{device_named};
ghost use Rattle.asc_text.specs.Statements.{begins_with_dot, device_of_words, extra_bit_of_numbers, name_after, name_in, no_sleep_of_words, ram_data_of_numbers, range_named, range_of_words, spelled, statement_in, switch_named, symbol_of_parts, tile_of_numbers, warm_boot_of_words};

use crate::reading::keyword::{Keyword, keyword_of};
use crate::statement::Statement;
use ice_image::Range;
use plane_map::{DeviceName, TileKind};
use text_lines::{
    Separators, number, number_before, one_word, split_word, three_numbers, trimmed, two_numbers,
};

/// Whether the line begins with a dot.
pub(crate) fn begins_with_dot(line: &[u8]) -> bool
    ensures { result ≡ begins_with_dot line.now }
{
    matches!(line, [b'.', ..])
}

/// The statement that the line is, or `None` if it is not a valid statement.
#[tactic(auto, unfolding(crate::specs::Statements::statement_in))]
pub(crate) fn statement_in(line: &[u8]) -> Option<Statement>
    ensures { result ≡ statement_in line.now }
{
    if !begins_with_dot(line) {
        return None;
    }
    let line = trimmed(line);
    match plain_symbol(line) {
        Some(net) => Some(Statement::Symbol { net }),
        None => statement_by_words(line),
    }
}

/// The net that the line names, if it is `.sym NET NAME` with one space before the number. A line may be a valid `.sym` statement even
/// if the answer is `None`.
#[tactic(auto, unfolding(crate::specs::Statements::statement_in))]
#[inline(always)]
pub(crate) fn plain_symbol_in(line: &[u8]) -> Option<u32>
    ensures { IfSome result (λ net. statement_in line.now ≡ Some (Symbol net)) }
{
    if begins_with_dot(line) {
        plain_symbol(trimmed(line))
    } else {
        None
    }
}

/// The net of `.sym NET NAME` with one space before the number, as most such lines have it. It looks only at the first byte of the
/// name.
fn plain_symbol(line: &[u8]) -> Option<u32>
    ensures { IfSome result (λ net. spelled (first_word Spaces line.now) (after_word Spaces line.now) ≡ Some (Symbol net)) }
{
    if 5 <= line.len() && &line[..5] == b".sym ".as_slice() {
        number_before_name(&line[5..])
    } else {
        None
    }
}

/// The number at the front of a text, if one space and at least one more byte follow it.
fn number_before_name(text: &[u8]) -> Option<u32>
    ensures { IfSome result (λ number. (name : List ℕ) × StartsWithNumber 32 text.now number name × (0 < length name)) }
{
    match number_before(b' ', text) {
        Some((number, [_, ..])) => Some(number),
        _ => None,
    }
}

/// The statement of a line by its words.
#[inline(never)]
fn statement_by_words(line: &[u8]) -> Option<Statement>
    ensures { result ≡ spelled (first_word Spaces line.now) (after_word Spaces line.now) }
{
    match split_word(Separators::Spaces, line) {
        None => None,
        Some((keyword, following)) => spelled(keyword, following),
    }
}

/// The name that the line gives to a net.
#[tactic(auto, unfolding(crate::specs::Statements::name_in))]
pub(crate) fn name_in(line: &[u8]) -> &[u8]
    ensures { result.now ≡ name_in line.now }
{
    after_space(after_word(after_word(trimmed(line))))
}

/// The statement of a keyword and the text after it.
#[tactic(auto, using(crate::proofs::Spellings::spelled_by_keyword))]
fn spelled(keyword: &[u8], following: &[u8]) -> Option<Statement>
    ensures { result ≡ spelled keyword.now following.now }
{
    match keyword_of(keyword) {
        None => None,
        Some(keyword) => spelled_as(keyword, following),
    }
}

/// The statement of a known keyword and the text after it.
fn spelled_as(keyword: Keyword, following: &[u8]) -> Option<Statement>
    ensures { result ≡ spelled_as keyword following.now }
{
    match keyword {
        Keyword::Comment => Some(Statement::Comment),
        Keyword::Device => device_of(following),
        Keyword::WarmBoot => warm_boot_of(following),
        Keyword::FrequencyRange => range_of(following),
        Keyword::NoSleep => no_sleep_of(following),
        Keyword::Tile(kind) => tile_of(kind, following),
        Keyword::RamData => ram_data_of(following),
        Keyword::ExtraBit => extra_bit_of(following),
        Keyword::Symbol => symbol_of(following),
    }
}

/// The statement `.device` with the text after it.
fn device_of(following: &[u8]) -> Option<Statement>
    ensures { result ≡ device_of_words (words_of Spaces following.now) }
{
    match one_word(Separators::Spaces, following) {
        None => None,
        Some(word) => Some(Statement::Device(DeviceName::named(word))),
    }
}

/// The statement `.warmboot` with the text after it.
fn warm_boot_of(following: &[u8]) -> Option<Statement>
    ensures { result ≡ warm_boot_of_words (words_of Spaces following.now) }
{
    match one_word(Separators::Spaces, following) {
        None => None,
        Some(word) => Some(Statement::WarmBoot(switch_named(word))),
    }
}

/// The statement `.freqrange` with the text after it.
fn range_of(following: &[u8]) -> Option<Statement>
    ensures { result ≡ range_of_words (words_of Spaces following.now) }
{
    match one_word(Separators::Spaces, following) {
        None => None,
        Some(word) => Some(Statement::FrequencyRange(range_named(word))),
    }
}

/// The statement `.nosleep` with the text after it.
fn no_sleep_of(following: &[u8]) -> Option<Statement>
    ensures { result ≡ no_sleep_of_words (words_of Spaces following.now) }
{
    match one_word(Separators::Spaces, following) {
        None => None,
        Some(word) => Some(Statement::NoSleep(switch_named(word))),
    }
}

/// The statement of a tile of this kind, with the text after its keyword.
fn tile_of(kind: TileKind, following: &[u8]) -> Option<Statement>
    ensures { result ≡ tile_of_numbers kind (numbers_of (words_of Spaces following.now)) }
{
    match two_numbers(Separators::Spaces, following) {
        None => None,
        Some((x, y)) => Some(Statement::Tile { kind, x, y }),
    }
}

/// The statement `.ram_data` with the text after it.
fn ram_data_of(following: &[u8]) -> Option<Statement>
    ensures { result ≡ ram_data_of_numbers (numbers_of (words_of Spaces following.now)) }
{
    match two_numbers(Separators::Spaces, following) {
        None => None,
        Some((x, y)) => Some(Statement::RamData { x, y }),
    }
}

/// The statement `.extra_bit` with the text after it.
fn extra_bit_of(following: &[u8]) -> Option<Statement>
    ensures { result ≡ extra_bit_of_numbers (numbers_of (words_of Spaces following.now)) }
{
    match three_numbers(Separators::Spaces, following) {
        None => None,
        Some((bank, x, y)) => Some(Statement::ExtraBit { bank, x, y }),
    }
}

/// The statement `.sym` with the text after it.
#[tactic(auto, unfolding(text_lines::specs::Words::number_of))]
fn symbol_of(following: &[u8]) -> Option<Statement>
    ensures { result ≡ symbol_of_parts (number_of (first_word Spaces following.now)) (name_after following.now) }
{
    match split_word(Separators::Spaces, following) {
        None => None,
        Some((word, rest)) => named(number(word), after_space(rest)),
    }
}

/// The `.sym` statement of a net's number and name.
fn named(net: Option<u32>, name: &[u8]) -> Option<Statement>
    ensures { result ≡ symbol_of_parts net name.now }
{
    match (net, name) {
        (Some(net), [_, ..]) => Some(Statement::Symbol { net }),
        _ => None,
    }
}

/// The text after one space.
fn after_space(rest: &[u8]) -> &[u8]
    ensures { result.now ≡ drop 1 rest.now }
{
    match rest {
        [] => &[],
        [_, name @ ..] => name,
    }
}

/// The text after the first word.
#[tactic(auto, using(text_lines::proofs::Spaced::after_no_word))]
fn after_word(line: &[u8]) -> &[u8]
    ensures { result.now ≡ after_word Spaces line.now }
{
    match split_word(Separators::Spaces, line) {
        None => &[],
        Some((_, following)) => following,
    }
}

/// The Boolean that `enabled` or `disabled` names, or `None` for another word.
fn switch_named(word: &[u8]) -> Option<bool>
    ensures { result ≡ switch_named word.now }
{
    if word == b"enabled".as_slice() {
        Some(true)
    } else if word == b"disabled".as_slice() {
        Some(false)
    } else {
        None
    }
}

/// The oscillator range that a word names, or `None` for another word.
fn range_named(word: &[u8]) -> Option<Range>
    ensures { result ≡ range_named word.now }
{
    if word == b"low".as_slice() {
        Some(Range::Low)
    } else if word == b"medium".as_slice() {
        Some(Range::Medium)
    } else if word == b"high".as_slice() {
        Some(Range::High)
    } else {
        None
    }
}
