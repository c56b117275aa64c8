// What a tool makes of bytes that come piece by piece.
ghost use Rattle.std.specs.Prelude.{◌≡◌, ◌∷◌, [], ◌+◌, ◌++◌, ◌<◌, ◌≤◌, ◌^◌, ℕ, List, Option, length, IfOk, IfErr};
ghost use Rattle.ice_io.specs.Takers.{TakesMore};
ghost use Rattle.tool_run.specs.Needs.{text_of};
ghost use Rattle.tool_run.specs.Tasks.{Answer, Both};
ghost use Rattle.tool_run.specs.Stops.{StopsWith};

use crate::product::Product;
use crate::tool::Stop;
use std::alloc::Global;

/// A tool that takes the texts of its needs one after the other, each piece by piece, and makes the bytes for its target while
/// they are written. So neither need lie in memory all at once. A layout file, if one is named, is loaded whole before the first text.
pub trait PieceTool {
    /// What the tool makes of the bytes of the layout file, if one is named, and of those of its needs, in their order.
    ghost answer_of: { Self → Option (List ℕ) → List (List ℕ) → Answer };

    /// What the tool keeps of the texts that it has taken. A refusal is kept too.
    type Intake: Drop;

    /// The bytes for the target, and those for the file beside it if there is one, as the tool gives them.
    type Made: Product;

    /// Under a layout file, an intake has taken these texts whole, and these bytes of the next.
    ghost takes: { Self → Option (List ℕ) → List (List ℕ) → Self.Intake → List ℕ → Type 0 };

    /// How many bytes of the next text count towards the most that an intake takes.
    ghost fed: { Self.Intake → ℕ };

    /// An intake that has taken nothing; or why there is none, whatever the texts are. The texts are passed over then, and that is
    /// told after the last of them.
    fn begin(&self, alloc: Global, layout: Option<&[u8]>) -> Result<Self::Intake, Stop<'static>>
        ensures taken { IfOk result (λ intake. takes self.now (text_of layout.entry) [] intake []) }
        ensures none { IfOk result (λ intake. fed intake ≡ 0) }
        ensures stops { IfErr result (λ stop. (texts : List (List ℕ)) → StopsWith (answer_of self.now (text_of layout.entry) texts) stop) };

    /// Takes the next piece of a text, of at most 65,536 bytes.
    fn feed(&self, intake: &mut Self::Intake, piece: &[u8])
        requires few { fed intake.old + length piece.now < 2 ^ 32 }
        requires short { length piece.now ≤ 65536 }
        ensures taken { (layout : Option (List ℕ)) → TakesMore (takes self.now layout) intake.old intake.new piece.now }
        ensures bound { fed intake.new ≤ fed intake.old + length piece.now };

    /// Ends the text that was taken last.
    fn close(&self, intake: &mut Self::Intake)
        ensures closed { (layout : Option (List ℕ)) (texts : List (List ℕ)) (bytes : List ℕ) → takes self.now layout texts intake.old bytes
            → takes self.now layout (texts ++ bytes ∷ []) intake.new [] }
        ensures none { fed intake.new ≡ 0 };

    /// The bytes for the target and for the file beside it, or why there are none, after the last text.
    fn finish(&self, alloc: Global, intake: Self::Intake) -> Result<Self::Made, Stop<'_>>
        ensures bytes { IfOk result (λ made. (layout : Option (List ℕ)) (texts : List (List ℕ)) → takes self.now layout texts intake []
            → answer_of self.now layout texts ≡ Both (Self.Made.bytes made) (Self.Made.beside made)) }
        ensures stops { IfErr result (λ stop. (layout : Option (List ℕ)) (texts : List (List ℕ)) → takes self.now layout texts intake []
            → StopsWith (answer_of self.now layout texts) stop) };
}
