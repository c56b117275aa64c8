// What a line of a list of names says.
ghost use Rattle.std.specs.Prelude.{◌≡◌};
ghost use Rattle.std.specs.Char.{is_ascii_graphic};
ghost use Rattle.std.specs.List.{list_all};
ghost use Rattle.text_lines.specs.Words.{words_of};
ghost use Rattle.text_lines.specs.declared.words.Separators.TheVariants.{SpacesAndTabs};
ghost use Rattle.wire_names.specs.Lines.{is_label, line_of, line_of_two, line_of_words};
ghost use Rattle.wire_names.specs.inside.Reading.{said_by};

use text_lines::{Separators, one_word, split_word};

/// What a line is.
#[derive(Clone, Copy)]
pub(crate) enum LineKind<'a> {
    /// It has no word, and is skipped.
    Passed,
    /// It gives a wire a name.
    Named { wire: &'a [u8], name: &'a [u8] },
    /// It isn't a line of a list of names.
    Unknown,
}

/// What a line says.
#[tactic(auto, unfolding(crate::specs::Lines::line_of))]
pub(crate) fn line_kind(line: &[u8]) -> LineKind<'_>
    ensures { said_by result ≡ line_of line.now }
{
    match split_word(Separators::SpacesAndTabs, line) {
        None => LineKind::Passed,
        Some((wire, following)) => match one_word(Separators::SpacesAndTabs, following) {
            None => LineKind::Unknown,
            Some(name) => named_if_label(wire, name),
        },
    }
}

/// What a line of these two words says.
fn named_if_label<'a>(wire: &'a [u8], name: &'a [u8]) -> LineKind<'a>
    ensures { said_by result ≡ line_of_two wire.now name.now }
{
    if is_label(name) {
        LineKind::Named { wire, name }
    } else {
        LineKind::Unknown
    }
}

/// Whether a wire can be called so: one or more printable characters without spaces.
pub(crate) fn is_label(name: &[u8]) -> bool
    ensures { result ≡ is_label name.now }
{
    0 < name.len() && are_printable(name)
}

/// Whether each byte is a printable character and no space.
fn are_printable(bytes: &[u8]) -> bool
    ensures { result ≡ list_all is_ascii_graphic bytes.now }
{
    bytes.iter().all(|byte| byte.is_ascii_graphic())
}
