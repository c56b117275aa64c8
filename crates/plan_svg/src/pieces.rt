// Texts that are put together of pieces.
ghost use Rattle.std.specs.Prelude.{◌≡◌, ◌++◌, OnOk};
ghost use Rattle.plan_svg.specs.Pieces.{joined, spelled, word_digits, word_if};

use itoa::Buffer;
use std::alloc::AllocError;

/// A piece of a text.
#[derive(Clone, Copy)]
pub(crate) enum Piece<'a> {
    /// Bytes as they are.
    Text(&'a [u8]),
    /// One byte.
    Letter(u8),
    /// A decimal number.
    Number(u64),
    /// Four hexadecimal digits.
    Word(u16),
}

/// Appends pieces, one after the other.
pub(crate) fn push(text: &mut Vec<u8>, pieces: &[Piece<'_>]) -> Result<(), AllocError>
    ensures { OnOk result (text.new.items ≡ text.old.items ++ joined pieces.now) }
{
    for piece in pieces {
        push_piece(text, *piece)?;
    }
    Ok(())
}

/// Appends a piece.
fn push_piece(text: &mut Vec<u8>, piece: Piece<'_>) -> Result<(), AllocError>
    ensures { OnOk result (text.new.items ≡ text.old.items ++ spelled piece.entry) }
{
    match piece {
        Piece::Text(bytes) => text.extend_from_slice(bytes),
        Piece::Letter(letter) => Ok(text.push(letter)?),
        Piece::Number(number) => text.extend_from_slice(Buffer::new().format(number).as_bytes()),
        Piece::Word(word) => push_word(text, word),
    }
}

/// Appends the four hexadecimal digits of a word, the highest first.
fn push_word(text: &mut Vec<u8>, word: u16) -> Result<(), AllocError>
    ensures { OnOk result (text.new.items ≡ text.old.items ++ word_digits word) }
{
    let mut digits = [0; 4];
    hex::encode_to_slice(word.to_be_bytes(), &mut digits).unwrap();
    text.extend_from_slice(&digits)
}

/// A word as a piece, or an empty one if a test fails.
pub(crate) fn word_if(passes: bool, word: &'static [u8]) -> Piece<'static>
    ensures { spelled result ≡ word_if passes word.now }
{
    if passes {
        Piece::Text(word)
    } else {
        Piece::Text(b"")
    }
}
