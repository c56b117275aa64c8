// The law of the columns of a RAM.
ghost use Rattle.std.specs.Prelude.{ℕ, ◌<◌};
ghost use Rattle.bram_replace.specs.ReadModes.{ColumnsAreWords};

/// In each read mode the columns of a RAM have each bit of its words once. The call does nothing: its clause is the law. No code of this
/// project calls it: it is for users of the library.
pub fn ram_columns_are_its_words()
    ensures { (mode : ℕ) → mode < 4 → ColumnsAreWords mode }
{}
