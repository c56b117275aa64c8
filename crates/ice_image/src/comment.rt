// The comment of an image.
ghost use Rattle.std.specs.Prelude.{◌≡◌, ◌<◌, ◌++◌, ◌∷◌, [], ◌↔◌, length, slice_index_or, All, IsTrue, IfOk, OnErr};
ghost use Rattle.ice_image.specs.CommentLines.{IsCommentLine};

use std::alloc::{AllocError, Global};
use std::marker::Model;

/// The lines of a comment.
#[derive(Drop)]
pub struct Comment {
    lines: Vec<Vec<u8>>,
    alloc: Global,
}

impl Model for Comment {
    ghost use Rattle.std.specs.Prelude.{List, ℕ, map, All};
    ghost use Rattle.ice_image.specs.CommentLines.{IsCommentLine};

    ghost Value = { List (List ℕ) };

    ghost view = { λ comment. map (λ line. line.items) comment.lines.items };

    ghost invariant = { λ comment. All IsCommentLine (map (λ line. line.items) comment.lines.items) };
}

impl Comment {
    /// A comment without lines.
    pub fn new(alloc: Global) -> Comment
        ensures { result ≡ [] }
    {
        Comment {
            lines: Vec::new(alloc),
            alloc,
        }
    }

    /// Appends a line.
    ///
    /// # Errors
    /// `AllocError` if memory is out, and for no other cause.
    pub fn push(&mut self, line: &[u8]) -> Result<(), AllocError>
        requires { IsCommentLine line.now }
        ensures pushed { IfOk result (λ _. self.new ≡ self.old ++ line.now ∷ []) }
        ensures unchanged { OnErr result (self.new ≡ self.old) }
    {
        let bytes = Vec::from_slice(self.alloc, line)?;
        self.lines.push(bytes)?;
        Ok(())
    }

    /// How many lines there are.
    pub fn len(&self) -> usize
        ensures count { result ≡ length self.now }
        ensures lines { All IsCommentLine self.now }
    {
        self.lines.len()
    }

    /// The bytes of the line at an index; indexes count from 0.
    pub fn line(&self, index: usize) -> &[u8]
        requires { index < length self.now }
        ensures { result.now ≡ slice_index_or self.now index [] }
    {
        &self.lines[index]
    }
}

/// Whether bytes may be a line of a comment.
pub fn is_comment_line(line: &[u8]) -> bool
    ensures { IsTrue result ↔ IsCommentLine line.now }
{
    !line.is_empty() && line[0] != b'.' && line.iter().all(|byte| 0x20 <= *byte && *byte <= 0x7e)
}
