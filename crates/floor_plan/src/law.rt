// The laws of floor plans.
ghost use Rattle.std.specs.Prelude.{Bool, List, ℕ};
ghost use Rattle.ice_image.specs.Configuration.{Configuration};
ghost use Rattle.chipdb_reader.specs.Database.{Database};
ghost use Rattle.chipdb_reader.specs.Faults.{DbMeans};
ghost use Rattle.chipdb_reader.specs.Fit.{IsFit};
ghost use Rattle.floor_plan.specs.Laws.{CountsAgree, HasTiles, LinksAgree, StandsOnce};
ghost use Rattle.floor_plan.specs.Plans.{floor_plan};

/// Each used logic cell, each tile of a used RAM and each pin that is a port has one mark in the plan, which says what it is and stands in the tile at
/// its place, and there are no other marks. The call does nothing: its clause is the law.
pub fn parts_stand_once()
    ensures { (all : Bool) (db : Database) (image : Configuration) → StandsOnce all db image (floor_plan all db image) }
{}

/// The tiles of a plan are those of the device, each with the number of links that are on in it. The call does nothing: its clause is the law.
pub fn tiles_are_those_of_the_device()
    ensures { (all : Bool) (db : Database) (image : Configuration) → HasTiles db image (floor_plan all db image) }
{}

/// The marks and the global networks of a plan are as many as `image_stat` tells. The call does nothing: its clause is the law.
pub fn marks_are_counted()
    ensures { (all : Bool) (db : Database) (image : Configuration) → CountsAgree all db image (floor_plan all db image) }
{}

/// So are the links of all tiles, by a database for the device of the image whose lines name tiles of that device (`links`), as each database that a
/// text means is (`fit`). The call does nothing: its clauses are the law.
pub fn links_are_counted()
    ensures links { (all : Bool) (db : Database) (image : Configuration) → LinksAgree all db image }
    ensures fit { (text : List ℕ) (db : Database) → DbMeans text db → IsFit db }
{}
