// What a line of a layout file says.
ghost use Rattle.std.specs.Prelude.{◌≡◌, ◌∷◌, true, MatchOption};
ghost use Rattle.text_lines.specs.declared.words.Separators.TheVariants.{Spaces};
ghost use Rattle.text_lines.specs.Words.{numbers_of, words_of};
ghost use Rattle.layout_file.specs.Lines.{answer_of, flag_line_of, is_remark, line_of, line_of_words, list_line, section_of, without_blanks};
ghost use Rattle.layout_file.specs.inside.Reading.{Says, is_long};

use crate::field::{Flag, Numbers};
use crate::number_list::NumberList;
use plane_map::DeviceName;
use text_lines::{Separators, number, one_word, split_word, trimmed};

/// What kind of line it is.
#[derive(Drop)]
pub(crate) enum LineKind {
    /// A line that is skipped: a remark, or a line with no word.
    Passed,
    /// The beginning of a section, with its device, or `None` if the word names no device.
    Section(Option<DeviceName>),
    /// A field with its numbers.
    List(Numbers, NumberList),
    /// A field with `yes` or `no`.
    Answer(Flag, bool),
    /// No line of a layout file, or one with more numbers than any field has.
    Unknown,
}

/// What a line says.
#[tactic(auto, unfolding(crate::specs::Lines::line_of))]
pub(crate) fn line_kind(line: &[u8]) -> LineKind
    ensures { Says result (line_of line.now) }
{
    if is_remark(line) {
        return LineKind::Passed;
    }
    match split_word(Separators::Spaces, without_blanks(trimmed(line))) {
        None => LineKind::Passed,
        Some((word, following)) => kind_of_words(word, following),
    }
}

/// Whether a line begins with `#`.
fn is_remark(line: &[u8]) -> bool
    ensures { result ≡ is_remark line.now }
{
    match line {
        [] => false,
        [first, ..] => *first == b'#',
    }
}

/// A line without the blanks at its start.
#[tactic(auto, unfolding(crate::specs::Lines::without_blanks))]
fn without_blanks(line: &[u8]) -> &[u8]
    ensures { result.now ≡ without_blanks line.now }
{
    let mut left = line;
    while let [b' ' | b'\t', rest @ ..] = left {
        left = rest;
    }
    left
}

/// What a line says, by its first word and the text after it.
fn kind_of_words(word: &[u8], following: &[u8]) -> LineKind
    ensures { Says result (line_of_words (word.now ∷ words_of Spaces following.now)) }
{
    if word == b".layout".as_slice() {
        return section_kind(following);
    }
    match (Numbers::named(word), Flag::named(word)) {
        (Some(field), _) => list_kind(field, following),
        (None, Some(field)) => answer_kind(field, following),
        (None, None) => LineKind::Unknown,
    }
}

/// What a line says that begins a section, by the text after its first word.
fn section_kind(following: &[u8]) -> LineKind
    ensures { Says result (section_of (words_of Spaces following.now)) }
{
    match one_word(Separators::Spaces, following) {
        None => LineKind::Unknown,
        Some(word) => LineKind::Section(DeviceName::named(word)),
    }
}

/// What a line says that names a field of numbers, by the text after its first word.
fn list_kind(field: Numbers, following: &[u8]) -> LineKind
    ensures { Says result (list_line field (numbers_of (words_of Spaces following.now))) }
{
    match number_list(following) {
        None => LineKind::Unknown,
        Some(numbers) => LineKind::List(field, numbers),
    }
}

/// What a line says that names a field of `yes` or `no`, by the text after its first word.
fn answer_kind(field: Flag, following: &[u8]) -> LineKind
    ensures { Says result (flag_line_of field (words_of Spaces following.now)) }
{
    match one_word(Separators::Spaces, following) {
        None => LineKind::Unknown,
        Some(word) => match answer(word) {
            None => LineKind::Unknown,
            Some(value) => LineKind::Answer(field, value),
        },
    }
}

/// The Boolean that `yes` or `no` says, or `None` for another word.
fn answer(word: &[u8]) -> Option<bool>
    ensures { result ≡ answer_of word.now }
{
    if word == b"yes".as_slice() {
        Some(true)
    } else if word == b"no".as_slice() {
        Some(false)
    } else {
        None
    }
}

/// The numbers that the words say, or `None` if a word isn't a number or there are more than 18.
fn number_list(words: &[u8]) -> Option<NumberList>
    ensures { MatchOption result (is_long (numbers_of (words_of Spaces words.now)) ≡ true)
        (λ numbers. numbers_of (words_of Spaces words.now) ≡ Some numbers) }
{
    let mut numbers = NumberList::new();
    let mut left = words;
    while let Some((word, following)) = split_word(Separators::Spaces, left) {
        let Some(value) = number(word) else {
            return None;
        };
        if numbers.is_full() {
            return None;
        }
        numbers.push(value);
        left = following;
    }
    Some(numbers)
}
