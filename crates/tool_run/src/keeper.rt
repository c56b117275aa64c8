// What keeps the texts of needs.
ghost use Rattle.std.specs.Prelude.{◌≡◌, ◌∷◌, [], ℕ, List, ◌<◌, ◌≤◌, ◌^◌, true, false, IfErr, OnOk};
ghost use Rattle.std.specs.Io.KnownBytes.{IsAtEnd};
ghost use Rattle.tool_run.specs.Counts.{NeverFall, counts};
ghost use Rattle.tool_run.specs.Needs.{is_stream, need_of};
ghost use Rattle.tool_run.specs.Keeping.{KeepsTexts};
ghost use Rattle.tool_run.specs.Loads.{IsTextOf, StopsLoading};

use crate::load::{Load, LoadStop, load_one};
use ice_io::{Files, Source};
use std::alloc::Global;

/// What keeps the texts of needs, one after the other.
pub(crate) trait Keeper {
    /// What contracts see beside a keeper, as the tool that takes the texts.
    ghost Setting: { Type 0 };

    /// In a setting, a keeper has kept these texts, and nothing of another.
    ghost has_kept: { Setting → Self → List (List ℕ) → Type 0 };

    /// A keeper may keep a text.
    ghost is_ready: { Self → Type 0 };

    /// Keeps the text of the next need.
    fn keep_text<'a, F: Files, I: Source>(
        &mut self,
        alloc: Global,
        load: Load<'a>,
        files: &mut F,
        input: &mut I,
    ) -> Result<(), LoadStop<'a>>
        requires limit { load.limit < 2 ^ 32 }
        requires ready { is_ready self.old }
        ensures text { OnOk result ((bytes : List ℕ) × IsTextOf (F.contents files.old) (I.left input.old) (need_of load.entry) bytes
            × KeepsTexts has_kept self.old self.new (bytes ∷ [])) }
        ensures ready { OnOk result (is_ready self.new) }
        ensures stops { IfErr result (StopsLoading (F.contents files.old) (F.steady files.old) I.left (counts I.faults I.bytes_read) (need_of load.entry ∷ [])
            (counts F.load_faults F.bytes_read files.old) (counts F.load_faults F.bytes_read files.new) input.old input.new) }
        ensures end { OnOk result (is_stream (need_of load.entry).name ≡ true → IsAtEnd (I.left input.new)) }

        ensures same_contents { F.contents files.new ≡ F.contents files.old }
        ensures same_steady { F.steady files.new ≡ F.steady files.old }
        ensures same_stores { counts F.store_faults F.stores files.new ≡ counts F.store_faults F.stores files.old }
        ensures loads { NeverFall (counts F.load_faults F.bytes_read files.old) (counts F.load_faults F.bytes_read files.new) }
        ensures unread { is_stream (need_of load.entry).name ≡ false → input.new ≡ input.old }
        ensures unasked { is_stream (need_of load.entry).name ≡ true → files.new ≡ files.old };
}

/// Texts that are kept whole.
impl Keeper for Vec<Vec<u8>> {
    ghost use Rattle.std.specs.Prelude.{◌≡◌, map, vec_items};

    ghost Setting = { Unit {0} };

    ghost has_kept = { λ setting texts kept. map vec_items texts.items ≡ kept };

    ghost is_ready = { λ texts. Unit {0} };

    fn keep_text<'a, F: Files, I: Source>(
        &mut self,
        alloc: Global,
        load: Load<'a>,
        files: &mut F,
        input: &mut I,
    ) -> Result<(), LoadStop<'a>> {
        match load_one(alloc, load, files, input) {
            Ok(bytes) => {
                self.push(bytes)?;
                Ok(())
            }
            Err(stop) => Err(stop),
        }
    }
}
