// Writing the comment of an image.
ghost use Rattle.std.specs.Prelude.{◌≡◌, ◌++◌, ◌∷◌, [], OnOk, IfSome, All, flat_map};
ghost use Rattle.ice_image.specs.CommentLines.{IsCommentLine};
ghost use Rattle.ice_image.specs.Either.{configuration_of};
ghost use Rattle.bin_stream.specs.CanonicalBytes.{comment_bytes};

use crate::marks::{COMMENT_END, COMMENT_START};
use ice_image::{AnyImage, Comment};
use std::alloc::AllocError;

/// Appends the comment of an image, if there is one.
pub(crate) fn append_comment(out: &mut Vec<u8>, image: &AnyImage) -> Result<(), AllocError>
    ensures bytes { OnOk result (out.new.items ≡ out.old.items ++ comment_bytes (configuration_of image.now).comment) }
    ensures lines { OnOk result (IfSome (configuration_of image.now).comment (All IsCommentLine)) }
{
    match image.comment() {
        Some(comment) => {
            out.extend_from_slice(&COMMENT_START)?;
            append_lines(out, comment)?;
            out.extend_from_slice(&COMMENT_END)
        }
        None => Ok(()),
    }
}

/// Appends the lines of a comment.
fn append_lines(out: &mut Vec<u8>, comment: &Comment) -> Result<(), AllocError>
    ensures bytes { OnOk result (out.new.items ≡ out.old.items ++ flat_map (λ line. line ++ 0 ∷ []) comment.now) }
    ensures lines { All IsCommentLine comment.now }
{
    for index in 0..comment.len() {
        append_line(out, comment.line(index))?;
    }
    Ok(())
}

/// Appends a line of a comment, and its end.
fn append_line(out: &mut Vec<u8>, line: &[u8]) -> Result<(), AllocError>
    ensures { OnOk result (out.new.items ≡ out.old.items ++ (line.now ++ 0 ∷ [])) }
{
    out.extend_from_slice(line)?;
    out.push(0)?;
    Ok(())
}
