// The law of lists of names.
ghost use Rattle.std.specs.Prelude.{ℕ, List};
ghost use Rattle.vlog_module.specs.Parts.{Parts};
ghost use Rattle.wire_names.specs.Law.{FreeNamesAreRead};

/// A list of names that are free has no fault, and gives these names, for every module and all names that are wanted for its wires. The
/// call does nothing: its clause is the law. No code of this project calls it: it is for users of the library.
pub fn free_names_have_no_fault()
    ensures { (m : Parts) (wanted : List (List ℕ × List ℕ)) → FreeNamesAreRead m wanted }
{}
