// A preamble that may begin in one piece and end in the next, if only the last three bytes of the earlier pieces are kept.
ghost use Rattle.std.specs.Prelude.{◌≡◌, ◌+◌, ◌-◌, ◌<◌, ◌≤◌, ◌++◌, Some, None, IfSome, length, take, drop};
ghost use Rattle.bin_stream.specs.Front.{preamble_offset};

use super::front::preamble_offset;
use crate::marks::PREAMBLE;

/// How many bytes at the end may belong to a preamble that isn't complete.
pub(crate) const KEPT: usize = 3;

/// The last three bytes before a piece and its first bytes, at most three.
#[derive(Clone, Copy)]
struct Edge {
    bytes: [u8; 6],
    count: usize,
}

/// The bytes at the boundary before a piece.
fn edge_of(last: [u8; 3], piece: &[u8]) -> Edge
    ensures within { result.count ≤ 6 }
    ensures bytes { take result.count result.bytes ≡ last ++ take 3 piece.now }
{
    let [a, b, c] = last;
    match piece {
        [] => Edge {
            bytes: [a, b, c, 0, 0, 0],
            count: 3,
        },
        [d] => Edge {
            bytes: [a, b, c, *d, 0, 0],
            count: 4,
        },
        [d, e] => Edge {
            bytes: [a, b, c, *d, *e, 0],
            count: 5,
        },
        [d, e, f, ..] => Edge {
            bytes: [a, b, c, *d, *e, *f],
            count: 6,
        },
    }
}

/// The index in a piece right after the first preamble, which may begin in the last three bytes before the piece.
pub(crate) fn start_after(last: [u8; 3], piece: &[u8]) -> Option<usize>
    ensures within { IfSome result (λ start. start ≤ length piece.now) }
    ensures found { IfSome result (λ start. preamble_offset (last ++ piece.now) ≡ Some (start - 1)) }
    ensures some { IfSome result (λ start. 0 < start) }
    ensures none { result ≡ None → preamble_offset (last ++ piece.now) ≡ None }
{
    let edge = edge_of(last, piece);
    match preamble_offset(&edge.bytes[..edge.count]) {
        Some(offset) => Some(offset + PREAMBLE.len() - KEPT),
        None => start_within(piece),
    }
}

/// The index right after the first preamble in a piece.
fn start_within(piece: &[u8]) -> Option<usize>
    ensures within { IfSome result (λ start. (4 ≤ start) × (start ≤ length piece.now)) }
    ensures found { IfSome result (λ start. preamble_offset piece.now ≡ Some (start - 4)) }
    ensures none { result ≡ None → preamble_offset piece.now ≡ None }
{
    match preamble_offset(piece) {
        Some(offset) => Some(offset + PREAMBLE.len()),
        None => None,
    }
}

/// The last three bytes after a piece has come.
pub(crate) fn last_after(last: [u8; 3], piece: &[u8]) -> [u8; 3]
    ensures { result ≡ drop (length piece.now) (last ++ piece.now) }
{
    if piece.len() >= KEPT {
        last_three(piece)
    } else {
        let edge = edge_of(last, piece);
        last_three(&edge.bytes[..edge.count])
    }
}

/// The last three bytes.
pub(crate) fn last_three(bytes: &[u8]) -> [u8; 3]
    requires { 3 ≤ length bytes.now }
    ensures { result ≡ drop (length bytes.now - 3) bytes.now }
{
    let count = bytes.len();
    [bytes[count - 3], bytes[count - 2], bytes[count - 1]]
}
