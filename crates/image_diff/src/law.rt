// The laws of the text that tells differences.
ghost use Rattle.std.specs.Prelude.{ℕ};
ghost use Rattle.plane_map.specs.declared.tile.TileKind.{TileKind};
ghost use Rattle.ice_image.specs.Configuration.{Configuration};
ghost use Rattle.chipdb_reader.specs.Database.{Database};
ghost use Rattle.image_diff.specs.Laws.{TellsDifferences, TellsExchanged, TellsNothingOfAlike};

/// Nothing is told of two images of one layout exactly where their settings and all of their bits are the same. The call does nothing: its
/// clause is the law.
pub fn nothing_of_alike()
    ensures { (database : Database) (first second : Configuration) → TellsNothingOfAlike database first second }
{}

/// Which lines the text has, and where: each stands exactly where one of the two images alone has it. The call does nothing: its clause is
/// the law.
pub fn lines_are_told()
    ensures { (database : Database) (first second : Configuration) → TellsDifferences database first second }
{}

/// What exchanging two images does to what is told of a tile. The call does nothing: its clause is the law.
pub fn images_are_exchanged()
    ensures { (database : Database) (first second : Configuration) (x y : ℕ) (kind : TileKind) → TellsExchanged database first second x y kind }
{}
