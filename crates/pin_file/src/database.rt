// Lines of a chip database that list the pins of a package.
ghost use Rattle.std.specs.Prelude.{◌≡◌, ℕ, List, None, Some, bytes_eq, if◌then◌else◌, MatchOption};
ghost use Rattle.text_lines.specs.declared.words.Separators.TheVariants.{SpacesAndTabs};
ghost use Rattle.text_lines.specs.Words.{words_of};
ghost use Rattle.pin_file.specs.Packages.{begins_package, is_head, is_remark, is_statement, place_in_line, place_in_words};

use crate::place::PinPlace;
use text_lines::{Separators, one_word, split_word, three_numbers};

/// Whether the line is a statement.
pub(crate) fn is_statement(line: &[u8]) -> bool
    ensures { result ≡ is_statement line.now }
{
    matches!(line, [b'.', ..])
}

/// Whether the line is a comment.
fn is_remark(line: &[u8]) -> bool
    ensures { result ≡ is_remark line.now }
{
    matches!(line, [b'#', ..])
}

/// Whether the line is `.pins PACKAGE` with that package's name.
#[tactic(auto, unfolding(crate::specs::Packages::begins_package))]
pub(crate) fn begins_package(name: &[u8], line: &[u8]) -> bool
    ensures { result ≡ begins_package name.now line.now }
{
    is_statement(line) && is_head(name, line)
}

/// Whether the words are `.pins` and the package's name.
fn is_head(name: &[u8], line: &[u8]) -> bool
    ensures { result ≡ is_head name.now (words_of SpacesAndTabs line.now) }
{
    match split_word(Separators::SpacesAndTabs, line) {
        None => false,
        Some((word, following)) => match one_word(Separators::SpacesAndTabs, following) {
            None => false,
            Some(other) => word == b".pins".as_slice() && other == name,
        },
    }
}

/// The pin of a line `PIN X Y PIO`, and its place. `None` if the line has another form.
#[tactic(auto, unfolding(crate::specs::Packages::place_in_line))]
pub(crate) fn pin_in_line(line: &[u8]) -> Option<(&[u8], PinPlace)>
    ensures { MatchOption result ((pin : List ℕ) → place_in_line pin line.now ≡ None)
        (λ found. (pin : List ℕ) → place_in_line pin line.now ≡ (if bytes_eq found.0.now pin then Some found.1 else None)) }
{
    if is_statement(line) || is_remark(line) {
        None
    } else {
        pin_in_words(line)
    }
}

/// The pin and its place, for a line that is neither a statement nor a comment.
fn pin_in_words(line: &[u8]) -> Option<(&[u8], PinPlace)>
    ensures { MatchOption result ((pin : List ℕ) → place_in_words pin (words_of SpacesAndTabs line.now) ≡ None)
        (λ found. (pin : List ℕ) → place_in_words pin (words_of SpacesAndTabs line.now) ≡ (if bytes_eq found.0.now pin then Some found.1 else None)) }
{
    let (pin, following) = split_word(Separators::SpacesAndTabs, line)?;
    let (x, y, pio) = three_numbers(Separators::SpacesAndTabs, following)?;
    Some((pin, PinPlace { x, y, pio }))
}
