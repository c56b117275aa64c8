// Lines from the front of a text, and blanks at the end of a line.
ghost use Rattle.std.specs.Prelude.{◌≡◌, ◌∷◌, ◌++◌, [], ◌<◌, ◌-◌, ◌==◌, length, take, get_or, position, nat_lt, not, ◌&&◌, IfSome, MatchOption, if◌then◌else◌};
ghost use Rattle.std.specs.List.{list_any, position_or_len};
ghost use Rattle.text_lines.specs.Lines.{is_blank, lines_of, trimmed, whole_lines_of};

use memchr::memchr;

/// The first line of a text, and what follows it.
#[derive(Clone, Copy, Debug, PartialEq, Eq)]
pub struct FirstLine<'a> {
    /// The line without its end.
    pub content: &'a [u8],
    /// The line with its end, LF or CR LF, if it has one.
    pub whole: &'a [u8],
    /// The text after the line and its end.
    pub rest: &'a [u8],
}

/// The first line of a text, or `None` if the text is empty.
pub fn first_line<'a>(text: &'a [u8]) -> Option<FirstLine<'a>>
    ensures lines { MatchOption result (text.now ≡ [])
        (λ line. lines_of text.now ≡ line.content.now ∷ lines_of line.rest.now) }
    ensures whole_lines { IfSome result (λ line. whole_lines_of text.now ≡ line.whole.now ∷ whole_lines_of line.rest.now) }
    ensures parts { IfSome result (λ line. text.now ≡ line.whole.now ++ line.rest.now) }
    ensures shorter { IfSome result (λ line. length line.rest.now < length text.now) }
{
    first_line_near(text, 0)
}

/// The first line of a text, or `None` if the text is empty. It is found faster if LF comes after exactly `len` bytes.
pub fn first_line_near<'a>(text: &'a [u8], len: usize) -> Option<FirstLine<'a>>
    ensures lines { MatchOption result (text.now ≡ [])
        (λ line. lines_of text.now ≡ line.content.now ∷ lines_of line.rest.now) }
    ensures whole_lines { IfSome result (λ line. whole_lines_of text.now ≡ line.whole.now ∷ whole_lines_of line.rest.now) }
    ensures parts { IfSome result (λ line. text.now ≡ line.whole.now ++ line.rest.now) }
    ensures shorter { IfSome result (λ line. length line.rest.now < length text.now) }
{
    if text.is_empty() {
        return None;
    }
    let end = length_before_lf(text, len);
    if end < text.len() {
        Some(FirstLine {
            content: without_cr(&text[..end]),
            whole: &text[..end + 1],
            rest: &text[end + 1..],
        })
    } else {
        Some(FirstLine {
            content: text,
            whole: text,
            rest: &[],
        })
    }
}

/// The line without the spaces and tabs at its end.
pub fn trimmed(line: &[u8]) -> &[u8]
    ensures { result.now ≡ trimmed line.now }
{
    let mut end = line.len();
    while 0 < end && is_blank(line[end - 1]) {
        end -= 1;
    }
    &line[..end]
}

/// Whether the byte is a space or a tab.
pub fn is_blank(byte: u8) -> bool
    ensures { result ≡ is_blank byte }
{
    byte == b' ' || byte == b'\t'
}

/// A line that LF ended, without a CR at its end.
fn without_cr(line: &[u8]) -> &[u8]
    ensures { result.now ≡ (if get_or line.now (length line.now - 1) 0 == 13
        then take (length line.now - 1) line.now else line.now) }
{
    match line.last() {
        Some(b'\r') => &line[..line.len() - 1],
        _ => line,
    }
}

/// How many bytes come before the first LF; all of them if there is no LF. The guess is tried first.
fn length_before_lf(text: &[u8], guess: usize) -> usize
    ensures { result ≡ position_or_len (λ byte. byte == 10) text.now }
{
    if is_first_lf(text, guess) {
        return guess;
    }
    match first_lf(text) {
        Some(offset) => offset,
        None => text.len(),
    }
}

/// Whether the first LF is at that offset.
fn is_first_lf(text: &[u8], offset: usize) -> bool
    ensures { result ≡ (nat_lt offset (length text.now) && (get_or text.now offset 0 == 10) && not (list_any (λ byte. byte == 10) (take offset text.now))) }
{
    offset < text.len() && text[offset] == b'\n' && !has_lf(&text[..offset])
}

/// Whether one of the bytes is LF. It looks at all bytes, which is faster than stopping at the first LF.
fn has_lf(bytes: &[u8]) -> bool
    ensures { result ≡ list_any (λ byte. byte == 10) bytes.now }
{
    let mut found = false;
    for byte in bytes {
        found |= *byte == b'\n';
    }
    found
}

/// The offset of the first LF.
pub fn first_lf(text: &[u8]) -> Option<usize>
    ensures { result ≡ position (λ byte. byte == 10) text.now }
{
    memchr(b'\n', text)
}
