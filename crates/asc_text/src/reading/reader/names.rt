// Lines that name nets in their usual form, one after the other: the text of a routed design has very many of them.
ghost use Rattle.std.specs.Prelude.{◌≡◌, false, IfSome};
ghost use Rattle.asc_text.specs.declared.reading.reader.Expected.TheVariants.{Statement as AnyStatement};
ghost use Rattle.asc_text.specs.inside.Reading.{ReaderState, TakesFirst, TakesLines};

use crate::reading::reader::plain::TakenLines;
use crate::reading::spelling::plain_symbol_in;
use text_lines::first_line;

/// The most lines that are taken at once.
const MOST_LINES: u8 = 255;

/// Takes the lines at the front of a text that name nets in their usual form, up to 255 of them. If a statement is expected and the text
/// is not in a comment, they change nothing.
pub(super) fn take_names(text: &[u8]) -> TakenLines<'_>
    ensures { (s : ReaderState) → s.expected ≡ AnyStatement → s.in_comment ≡ false → TakesLines s text.now result.count result.rest.now s }
{
    let mut count = 0;
    let mut left = text;
    while count < MOST_LINES {
        match after_name(left) {
            Some(rest) => left = rest,
            None => return TakenLines { count, rest: left },
        }
        count += 1;
    }
    TakenLines { count, rest: left }
}

/// The text after its first line, if that line names a net in its usual form.
#[inline(always)]
fn after_name(text: &[u8]) -> Option<&[u8]>
    ensures { IfSome result (λ rest. (s : ReaderState) → s.expected ≡ AnyStatement → s.in_comment ≡ false → TakesFirst s text.now rest.now s) }
{
    // The end of any other line is not looked for.
    if !may_name(text) {
        return None;
    }
    match first_line(text) {
        Some(line) => match plain_symbol_in(line.content) {
            Some(_) => Some(line.rest),
            None => None,
        },
        None => None,
    }
}

/// Whether the first line may name a net, by its first bytes.
fn may_name(text: &[u8]) -> bool {
    matches!(text, [b'.', b's', ..])
}
