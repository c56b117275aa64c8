// The law of RAMs in narrow modes.
ghost use Rattle.std.specs.Prelude.{◌≡◌, ℕ, Option, false};
ghost use Rattle.ice_image.specs.Configuration.{Configuration};
ghost use Rattle.chipdb_reader.specs.Database.{Database};
ghost use Rattle.fabric_model.specs.declared.options.FabricOptions.{FabricOptions as options_of};
ghost use Rattle.fabric_model.specs.Fabric.{fabric_with};
ghost use Rattle.fabric_model.specs.NarrowMemories.{RamsAreMemories};
ghost use Rattle.fabric_model.specs.Steps.{is_on_register};

/// A used RAM in a narrow mode works as a memory of narrow words, in each step of each run of the fabric of each database and image, with any
/// options. Without the option for it no register is a clock, so an event has one step, whose edges are all edges of clocks. The call does
/// nothing: its clauses are the law. No code of this project calls it: it is for users of the library.
pub fn narrow_rams_are_memories()
    ensures memories { (options : options_of) (db : Database) (image : Configuration) → RamsAreMemories options db image }
    ensures alone { (options : options_of) (db : Database) (image : Configuration) (net : Option ℕ) → options.register_clocks ≡ false
        → is_on_register (fabric_with options db image) net ≡ false }
{}
