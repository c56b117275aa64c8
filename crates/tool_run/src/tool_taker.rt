// A tool and its intake, as what takes bytes and keeps texts.
ghost use Rattle.std.specs.Prelude.{◌≡◌, ◌∷◌, [], ◌++◌, ℕ, List, Option};
ghost use Rattle.tool_run.specs.Intakes.{TakesOrStops, fed_or_none};

use crate::keeper::Keeper;
use crate::load::{Load, LoadStop, feed_one};
use crate::piece_tool::PieceTool;
use crate::tool::Stop;
use ice_io::{Files, Source, Taker};
use std::alloc::Global;

/// A tool that takes the bytes of its needs into its intake, or passes them over if it has none.
pub(crate) struct ToolTaker<'a, T: PieceTool> {
    pub(crate) tool: &'a T,
    pub(crate) intake: Result<T::Intake, Stop<'static>>,
}

impl<T: PieceTool> Taker for ToolTaker<'_, T> {
    ghost use Rattle.std.specs.Prelude.{◌≡◌, ℕ, List, Option};
    ghost use Rattle.tool_run.specs.Intakes.{TakesOrStops, fed_or_none};

    // The tool, its layout file, and the texts of the needs before.
    ghost Setting = { T × Option (List ℕ) × List (List ℕ) };

    ghost has_taken = { λ setting taker bytes. (taker.tool.now ≡ setting.0)
        × TakesOrStops (T.takes setting.0 setting.1 setting.2) (T.answer_of setting.0 setting.1) taker.intake bytes };

    ghost fed = { λ taker. fed_or_none T.fed taker.intake };

    fn take(&mut self, piece: &[u8]) {
        match &mut self.intake {
            Ok(intake) => self.tool.feed(intake, piece),
            Err(_) => {}
        }
    }
}

impl<T: PieceTool> ToolTaker<'_, T> {
    // Ends the text that was taken last.
    fn close(&mut self)
        ensures closed { (layout : Option (List ℕ)) (texts : List (List ℕ)) (bytes : List ℕ)
            → TakesOrStops (T.takes self.old.tool.now layout texts) (T.answer_of self.old.tool.now layout) self.old.intake bytes
            → TakesOrStops (T.takes self.old.tool.now layout (texts ++ bytes ∷ [])) (T.answer_of self.old.tool.now layout) self.new.intake [] }
        ensures none { fed_or_none T.fed self.new.intake ≡ 0 }
        ensures same_tool { self.new.tool ≡ self.old.tool }
    {
        match &mut self.intake {
            Ok(intake) => self.tool.close(intake),
            Err(_) => {}
        }
    }
}

/// Texts that are taken in pieces.
impl<T: PieceTool> Keeper for ToolTaker<'_, T> {
    ghost use Rattle.std.specs.Prelude.{◌≡◌, [], ℕ, List, Option};
    ghost use Rattle.tool_run.specs.Intakes.{TakesOrStops, fed_or_none};

    // The tool and its layout file.
    ghost Setting = { T × Option (List ℕ) };

    ghost has_kept = { λ setting taker texts. (taker.tool.now ≡ setting.0)
        × TakesOrStops (T.takes setting.0 setting.1 texts) (T.answer_of setting.0 setting.1) taker.intake [] };

    ghost is_ready = { λ taker. fed_or_none T.fed taker.intake ≡ 0 };

    fn keep_text<'a, F: Files, I: Source>(
        &mut self,
        alloc: Global,
        load: Load<'a>,
        files: &mut F,
        input: &mut I,
    ) -> Result<(), LoadStop<'a>> {
        match feed_one(alloc, load, files, input, self) {
            Ok(()) => {
                self.close();
                Ok(())
            }
            Err(stop) => Err(stop),
        }
    }
}
