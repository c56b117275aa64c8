// Cascaded RAMs, which aren't taken.
ghost use Rattle.std.specs.Prelude.{◌≡◌, All};
ghost use Rattle.std.specs.List.{flat_map};
ghost use Rattle.ice_image.specs.Either.{configuration_of};
ghost use Rattle.chipdb_reader.specs.Kept.{database_in};
ghost use Rattle.fabric_model.specs.Rams.{is_cascaded};
ghost use Rattle.fabric_model.specs.Tiles.{first_of};
ghost use Rattle.fabric_parts.specs.Rams.{HasRam};
ghost use Rattle.fabric_parts.specs.RamFaults.{cascade_at, cascade_fault};

use chipdb_reader::{ChipDb, TileXy8};
use fabric_model::is_any_on;
use ice_image::AnyImage;
use plane_map::TileKind;

/// The first cascaded RAM.
pub(crate) fn first_cascaded(db: &ChipDb, image: &AnyImage, rams: &[TileXy8]) -> Option<TileXy8>
    requires { All (λ tile. HasRam image.now tile.x tile.y) rams.now }
    ensures { first_of (flat_map (λ tile. cascade_at (database_in db.now) (configuration_of image.now) tile.x tile.y) rams.now) ≡ cascade_fault result }
{
    for ram in rams {
        if is_cascaded(db, image, ram.x, ram.y) {
            return Some(*ram);
        }
    }
    None
}

/// Whether a RAM is cascaded: a function whose name starts with `RamCascade.` is on in one of its tiles.
fn is_cascaded(db: &ChipDb, image: &AnyImage, x: u8, y: u8) -> bool
    requires { HasRam image.now x y }
    ensures { result ≡ is_cascaded (database_in db.now) (configuration_of image.now) x y }
{
    is_any_on(db, image, TileKind::RamB, x, y, b"RamCascade.")
        || is_any_on(db, image, TileKind::RamT, x, y + 1, b"RamCascade.")
}
