// The law of modules whose names are replaced.
ghost use Rattle.std.specs.Prelude.{ℕ, List};
ghost use Rattle.vlog_module.specs.Parts.{Parts};
ghost use Rattle.port_names.specs.Law.{RenamingKeepsRuns};

/// A module with new names is well-formed and runs as the module did with the old ones, for every module and every renaming that is fresh
/// for it. The call does nothing: its clause is the law. No code of this project calls it: it is for users of the library.
pub fn renaming_keeps_runs()
    ensures { (renaming : List (List ℕ × List ℕ)) (m : Parts) → RenamingKeepsRuns renaming m }
{}
