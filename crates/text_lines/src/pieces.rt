// Texts that come in pieces: where their lines end.
ghost use Rattle.std.specs.Prelude.{◌≡◌, ◌≤◌, ◌<◌, ◌++◌, [], length, take, drop};
ghost use Rattle.text_lines.specs.Pieces.{ended_lines, HasWholeLines};

use crate::lines::first_lf;

/// A piece of a text, cut where lines end.
#[derive(Clone, Copy, Debug, PartialEq, Eq)]
pub struct PieceLines<'a> {
    /// The bytes, LF at their end, that complete the line which earlier pieces began. Empty if they began none, or if this piece doesn't
    /// complete it.
    pub end: &'a [u8],
    /// The lines that begin and end in the piece.
    pub lines: &'a [u8],
    /// The bytes after the last LF. They continue the line that earlier pieces began, if it hasn't ended.
    pub unended: &'a [u8],
}

/// Cuts a piece that follows `kept`, the bytes of a line that hasn't ended.
pub fn cut_piece<'a>(kept: &[u8], piece: &'a [u8]) -> PieceLines<'a>
    ensures parts { piece.now ≡ result.end.now ++ result.lines.now ++ result.unended.now }
    ensures ended { 0 < length result.end.now → HasWholeLines (kept.now ++ result.end.now) }
    ensures going_on { length result.end.now ≡ 0 → 0 < length kept.now → result.lines.now ≡ [] }
    ensures lines { HasWholeLines result.lines.now }
    ensures rest { ended_lines result.unended.now ≡ 0 }
{
    if kept.is_empty() {
        return cut_after(&[], piece);
    }
    match first_lf(piece) {
        Some(offset) => cut_after(&piece[..offset + 1], &piece[offset + 1..]),
        None => PieceLines {
            end: &[],
            lines: &[],
            unended: piece,
        },
    }
}

/// Cuts the bytes that follow the end of a line.
fn cut_after<'a>(end: &'a [u8], bytes: &'a [u8]) -> PieceLines<'a>
    ensures end { result.end.now ≡ end.now }
    ensures parts { bytes.now ≡ result.lines.now ++ result.unended.now }
    ensures lines { HasWholeLines result.lines.now }
    ensures rest { ended_lines result.unended.now ≡ 0 }
{
    let len = length_of_whole_lines(bytes);
    PieceLines {
        end,
        lines: &bytes[..len],
        unended: &bytes[len..],
    }
}

/// The length in bytes of the lines of a text that LF ends.
fn length_of_whole_lines(text: &[u8]) -> usize
    ensures within { result ≤ length text.now }
    ensures whole { HasWholeLines (take result text.now) }
    ensures rest { ended_lines (drop result text.now) ≡ 0 }
{
    let mut len = text.len();
    while 0 < len {
        if text[len - 1] == b'\n' {
            return len;
        }
        len -= 1;
    }
    0
}
