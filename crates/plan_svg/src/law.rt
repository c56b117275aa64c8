// The laws of pictures.
ghost use Rattle.std.specs.Prelude.{List, ℕ};
ghost use Rattle.plan_marks.specs.Plans.{Plan};
ghost use Rattle.plan_svg.specs.declared.sheet.Sheet.{Sheet};
ghost use Rattle.plan_svg.specs.Laws.{CellsLie, DrawsPlan, LiesAsOnChip, PinsLie, PlacesMarks};
ghost use Rattle.plan_svg.specs.Names.{Names, Says, cut, label, shown};

/// The picture of each plan, whatever the names of pins are, is a well-formed document of XML. For each class of marks it has as many elements of
/// the class as the plan has such marks. The call does nothing: its clause is the law.
pub fn picture_draws_the_plan()
    ensures { (names : Names) (plan : Plan) → DrawsPlan names plan }
{}

/// In the picture of each plan, each tile has one group at its place, in which the elements of its marks stand, and each frame and each badge stands
/// in no group. The call does nothing: its clause is the law.
pub fn marks_are_placed()
    ensures { (names : Names) (plan : Plan) → PlacesMarks names plan }
{}

/// Tiles lie on each sheet as on the chip, and so do the cells and the pins of a tile. The call does nothing: its clauses are the law.
pub fn places_are_as_on_the_chip()
    ensures tiles { (sheet : Sheet) → LiesAsOnChip sheet }
    ensures cells { CellsLie }
    ensures pins { PinsLie }
{}

/// The text of each name, cut for a place with `first` and `last` bytes at its ends, is one that an XML reader reads as its printable characters, with
/// `?` for each other byte. The call does nothing: its clause is the law.
pub fn names_are_said()
    ensures { (first last : ℕ) (name : List ℕ) → Says (label first last name) (shown (cut first last name)) }
{}
