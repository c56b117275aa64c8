// Feeds a text in pieces to a consumer of lines.
ghost use Rattle.std.specs.Prelude.{◌≡◌, ℕ, ◌+◌, ◌<◌, ◌≤◌, ◌++◌, [], List, length, vec_len, Some, None, Err, IfOk, IfErr, OnOk};
ghost use Rattle.std.specs.Option.{ForNone};
ghost use Rattle.text_lines.specs.Lines.{lines_of};
ghost use Rattle.text_lines.specs.Pieces.{HasWholeLines, ended_lines};
ghost use Rattle.text_lines.specs.Feeding.{TakesLines, RefusesLines, HasFront, StandsFor, taker_of, refusal_of, fed_with};

use crate::pieces::cut_piece;
use std::alloc::{AllocError, Global};

/// A consumer of the lines of a text, which come in their order.
pub trait LineTaker: Sized + Drop {
    /// Why a line is refused.
    type Refusal: Copy;

    /// What contracts know besides the taker, for example the options under which it reads.
    ghost Setting: { Type 0 };

    /// In a setting, the taker has taken these lines.
    ghost has_taken: { Setting → Self → List (List ℕ) → Type 0 };

    /// In a setting, a text of these lines is refused with this refusal.
    ghost refuses: { Setting → List (List ℕ) → Self.Refusal → Type 0 };

    /// What holds of a taker until it refuses.
    ghost is_ready: { Self → Type 0 };

    /// How many bytes count towards the taker's limit.
    ghost fed: { Self → ℕ };

    /// The most bytes that it takes.
    ghost MOST: { ℕ };

    /// The refusal for out of memory, which may come in place of any other answer.
    fn out_of_memory(e: AllocError) -> Self::Refusal
        ensures { (setting : Setting) (lines : List (List ℕ)) → refuses setting lines result };

    /// Takes the lines of a text, which follow the lines taken before.
    ///
    /// # Errors
    /// The refusal of the first line that the taker refuses, or `out_of_memory`.
    fn take_lines(&mut self, text: &[u8]) -> Result<(), Self::Refusal>
        requires ready { is_ready self.old }
        requires room { fed self.old + length text.now ≤ MOST }
        ensures ready { OnOk result (is_ready self.new) }
        ensures bound { OnOk result (fed self.new ≤ fed self.old + length text.now) }
        ensures taken { OnOk result (TakesLines has_taken self.old self.new (lines_of text.now)) }
        ensures refused { IfErr result (RefusesLines has_taken refuses self.old (lines_of text.now)) };
}

/// Feeds a text in pieces to a taker, each line once it has ended. Of each piece it copies only the bytes that end the line kept so far,
/// and those that begin a line that hasn't ended.
#[derive(Drop)]
pub struct LineFeed<T, R> {
    taker: T,
    /// The refusal of the taker, or out of memory. After it nothing more is taken.
    refusal: Option<R>,
    /// The bytes after the last LF.
    kept: Vec<u8>,
}

impl<T: LineTaker> LineFeed<T, T::Refusal> {
    /// A feed that has been given nothing yet. It takes no memory.
    pub fn new(alloc: Global, taker: T) -> Self
        ensures stands { (setting : T.Setting) → T.has_taken setting taker [] → StandsFor T.has_taken T.refuses setting [] result }
        ensures taker { taker_of result ≡ taker }
        ensures fed { fed_with T.fed result ≡ T.fed taker }
        ensures fresh { refusal_of result ≡ None }
    {
        LineFeed {
            taker,
            refusal: None,
            kept: Vec::new(alloc),
        }
    }

    /// Takes the next bytes.
    ///
    /// # Errors
    /// The taker's refusal of a line that has ended, or `out_of_memory`. The refusal stays, whatever follows: each later call returns it
    /// again.
    pub fn feed(&mut self, piece: &[u8]) -> Result<(), T::Refusal>
        requires ready { ForNone (refusal_of self.old) (T.is_ready (taker_of self.old)) }
        requires room { ForNone (refusal_of self.old) (fed_with T.fed self.old + length piece.now ≤ T.MOST) }
        ensures ready { ForNone (refusal_of self.new) (T.is_ready (taker_of self.new)) }
        ensures bound { ForNone (refusal_of self.new) (fed_with T.fed self.new ≤ fed_with T.fed self.old + length piece.now) }
        ensures stands { (setting : T.Setting) (text : List ℕ) → StandsFor T.has_taken T.refuses setting text self.old
            → StandsFor T.has_taken T.refuses setting (text ++ piece.now) self.new }
        ensures refused { IfErr result (λ refusal. (setting : T.Setting) (text more : List ℕ) → StandsFor T.has_taken T.refuses setting text self.old
            → T.refuses setting (lines_of (text ++ piece.now ++ more)) refusal) }
        ensures clear { OnOk result (refusal_of self.new ≡ None) }
        ensures kept { IfErr result (λ refusal. refusal_of self.new ≡ Some refusal) }
        ensures again { (refusal : T.Refusal) → refusal_of self.old ≡ Some refusal → result ≡ Err refusal }
    {
        if let Some(refusal) = self.refusal {
            return Err(refusal);
        }
        match take_piece(&mut self.taker, &mut self.kept, piece) {
            Ok(()) => Ok(()),
            Err(refusal) => {
                self.refusal = Some(refusal);
                Err(refusal)
            }
        }
    }

    /// The taker after the last line, whether or not LF ends that line.
    ///
    /// # Errors
    /// The refusal that an earlier call returned, the taker's refusal of the last line, or `out_of_memory`.
    pub fn finish(self) -> Result<T, T::Refusal>
        requires ready { ForNone (refusal_of self) (T.is_ready (taker_of self)) }
        requires room { ForNone (refusal_of self) (fed_with T.fed self ≤ T.MOST) }
        ensures ready { IfOk result T.is_ready }
        ensures bound { IfOk result (λ taker. T.fed taker ≤ fed_with T.fed self) }
        ensures taken { IfOk result (λ taker. (setting : T.Setting) (text : List ℕ) → StandsFor T.has_taken T.refuses setting text self
            → T.has_taken setting taker (lines_of text)) }
        ensures refused { IfErr result (λ refusal. (setting : T.Setting) (text : List ℕ) → StandsFor T.has_taken T.refuses setting text self
            → T.refuses setting (lines_of text) refusal) }
        ensures again { (refusal : T.Refusal) → refusal_of self ≡ Some refusal → result ≡ Err refusal }
    {
        let LineFeed {
            taker,
            refusal,
            kept,
        } = self;
        match refusal {
            None => take_last(taker, &kept),
            Some(refusal) => Err(refusal),
        }
    }
}

/// Takes a piece that follows the kept bytes.
fn take_piece<T: LineTaker>(
    taker: &mut T,
    kept: &mut Vec<u8>,
    piece: &[u8],
) -> Result<(), T::Refusal>
    requires ready { T.is_ready taker.old }
    requires room { T.fed taker.old + vec_len kept.old + length piece.now ≤ T.MOST }
    ensures ready { OnOk result (T.is_ready taker.new) }
    ensures bound { OnOk result (T.fed taker.new + vec_len kept.new ≤ T.fed taker.old + vec_len kept.old + length piece.now) }
    ensures taken { OnOk result ((setting : T.Setting) (text : List ℕ) → HasFront T.has_taken setting text taker.old kept.old.items
        → HasFront T.has_taken setting (text ++ piece.now) taker.new kept.new.items) }
    ensures refused { IfErr result (λ refusal. (setting : T.Setting) (text more : List ℕ) → HasFront T.has_taken setting text taker.old kept.old.items
        → T.refuses setting (lines_of (text ++ piece.now ++ more)) refusal) }
{
    let cut = cut_piece(kept, piece);
    take_kept(taker, kept, cut.end)?;
    taker.take_lines(cut.lines)?;
    keep::<T>(kept, cut.unended)
}

/// Takes the line whose beginning is kept, together with the bytes that end it. If `end` is empty, the line hasn't ended.
fn take_kept<T: LineTaker>(taker: &mut T, kept: &mut Vec<u8>, end: &[u8]) -> Result<(), T::Refusal>
    requires ready { T.is_ready taker.old }
    requires room { T.fed taker.old + vec_len kept.old + length end.now ≤ T.MOST }
    requires ended { 0 < length end.now → HasWholeLines (kept.old.items ++ end.now) }
    ensures ready { OnOk result (T.is_ready taker.new) }
    ensures bound { OnOk result (T.fed taker.new + vec_len kept.new ≤ T.fed taker.old + vec_len kept.old + length end.now) }
    ensures empty { OnOk result (0 < length end.now → kept.new.items ≡ []) }
    ensures same { OnOk result (length end.now ≡ 0 → kept.new.items ≡ kept.old.items) }
    ensures taken { OnOk result ((setting : T.Setting) (text : List ℕ) → HasFront T.has_taken setting text taker.old kept.old.items
        → HasFront T.has_taken setting (text ++ end.now) taker.new kept.new.items) }
    ensures refused { IfErr result (λ refusal. (setting : T.Setting) (text more : List ℕ) → HasFront T.has_taken setting text taker.old kept.old.items
        → T.refuses setting (lines_of (text ++ end.now ++ more)) refusal) }
{
    if end.is_empty() {
        return Ok(());
    }
    keep::<T>(kept, end)?;
    taker.take_lines(kept)?;
    kept.clear();
    Ok(())
}

/// Appends bytes to those that are kept.
fn keep<T: LineTaker>(kept: &mut Vec<u8>, bytes: &[u8]) -> Result<(), T::Refusal>
    ensures kept { OnOk result (kept.new.items ≡ kept.old.items ++ bytes.now) }
    ensures refused { IfErr result (λ refusal. (setting : T.Setting) (lines : List (List ℕ)) → T.refuses setting lines refusal) }
{
    match kept.extend_from_slice(bytes) {
        Ok(()) => Ok(()),
        Err(e) => Err(T::out_of_memory(e)),
    }
}

/// Takes the last line, which the end of the text ends. Its beginning is kept, if there is such a line.
fn take_last<T: LineTaker>(taker: T, kept: &[u8]) -> Result<T, T::Refusal>
    requires ready { T.is_ready taker }
    requires room { T.fed taker + length kept.now ≤ T.MOST }
    ensures ready { IfOk result T.is_ready }
    ensures bound { IfOk result (λ last. T.fed last ≤ T.fed taker + length kept.now) }
    ensures taken { IfOk result (λ last. (setting : T.Setting) (text : List ℕ) → HasFront T.has_taken setting text taker kept.now
        → T.has_taken setting last (lines_of text)) }
    ensures refused { IfErr result (λ refusal. (setting : T.Setting) (text : List ℕ) → HasFront T.has_taken setting text taker kept.now
        → T.refuses setting (lines_of text) refusal) }
{
    let mut taker = taker;
    taker.take_lines(kept)?;
    Ok(taker)
}
