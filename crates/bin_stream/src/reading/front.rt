// The front of a bitstream: the bytes before its preamble.
ghost use Rattle.std.specs.Prelude.{◌≡◌, ◌+◌, ◌<◌, ◌≤◌, ◌∷◌, [], ◌++◌, IfSome, IfOk, OnOk, IsTrue, length, filter, position, if◌then◌else◌};
ghost use Rattle.std.specs.List.{position_or_len};
ghost use Rattle.bin_stream.specs.Front.{is_preamble_at, preamble_offset, pieces_of, is_comment_line, comment_of};
ghost use Rattle.bin_stream.specs.inside.Pieces.{is_piece_end};

use crate::marks::{COMMENT_START, PREAMBLE};
use ice_image::{Comment, is_comment_line};
use std::alloc::{AllocError, Global};

/// The first offset of the preamble.
pub(crate) fn preamble_offset(bytes: &[u8]) -> Option<usize>
    ensures offset { result ≡ preamble_offset bytes.now }
    ensures within { IfSome result (λ offset. offset + 4 ≤ length bytes.now) }
{
    for offset in 0..bytes.len() {
        if is_preamble_at(bytes, offset) {
            return Some(offset);
        }
    }
    None
}

/// Whether the preamble is at an offset. Most bytes aren't its first one, so that byte is tested first.
fn is_preamble_at(bytes: &[u8], offset: usize) -> bool
    requires { offset < length bytes.now }
    ensures value { result ≡ is_preamble_at bytes.now offset }
    ensures within { IsTrue result → offset + 4 ≤ length bytes.now }
{
    bytes[offset] == PREAMBLE[0] && bytes[offset..].starts_with(&PREAMBLE)
}

/// The comment in the bytes before the preamble, or `None` if there is none.
#[tactic(auto, unfolding(crate::specs::Front::comment_of))]
pub(crate) fn comment_of(alloc: Global, front: &[u8]) -> Result<Option<Comment>, AllocError>
    ensures { IfOk result (λ comment. comment ≡ comment_of front.now) }
{
    if !front.starts_with(&COMMENT_START) {
        return Ok(None);
    }
    let comment = lines_of(alloc, &front[COMMENT_START.len()..])?;
    Ok(Some(comment))
}

/// The lines of a comment: the pieces between bytes 00 and FF that may be lines.
fn lines_of(alloc: Global, bytes: &[u8]) -> Result<Comment, AllocError>
    ensures { IfOk result (λ comment. comment ≡ filter is_comment_line (pieces_of bytes.now)) }
{
    let mut comment = Comment::new(alloc);
    let mut start = 0;
    loop {
        let rest = &bytes[start..];
        let end = piece_length(rest);
        append_piece(&mut comment, &rest[..end])?;
        if end == rest.len() {
            return Ok(comment);
        }
        start += end + 1;
    }
}

/// Adds a piece to a comment, if it may be a line.
fn append_piece(comment: &mut Comment, piece: &[u8]) -> Result<(), AllocError>
    ensures { OnOk result (comment.new ≡ comment.old ++ filter is_comment_line (piece.now ∷ [])) }
{
    if is_comment_line(piece) {
        comment.push(piece)
    } else {
        Ok(())
    }
}

/// How many bytes come before the first 00 or FF; all of them if there is none.
fn piece_length(bytes: &[u8]) -> usize
    ensures { result ≡ position_or_len is_piece_end bytes.now }
{
    match piece_end(bytes) {
        Some(offset) => offset,
        None => bytes.len(),
    }
}

/// The offset of the first byte 00 or FF.
fn piece_end(bytes: &[u8]) -> Option<usize>
    ensures { result ≡ position is_piece_end bytes.now }
{
    bytes.iter().position(|byte| *byte == 0 || *byte == 0xFF)
}
