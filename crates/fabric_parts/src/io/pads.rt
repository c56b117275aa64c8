// Pins that are pads of global networks.
ghost use Rattle.std.specs.Prelude.{◌≡◌};
ghost use Rattle.ice_image.specs.Either.{configuration_of};
ghost use Rattle.chipdb_reader.specs.Kept.{database_in};
ghost use Rattle.fabric_model.specs.Pins.{is_global_pad};
ghost use Rattle.fabric_parts.specs.Globals.{AreOneDevice};

use crate::io::globals::global_pad;
use chipdb_reader::ChipDb;
use fabric_model::is_pin_at;
use ice_image::AnyImage;

/// Whether a pin is the pad of a global network that the image lets its pad drive.
pub(crate) fn is_global_pad(db: &ChipDb, image: &AnyImage, x: u8, y: u8, n: u8) -> bool
    requires { AreOneDevice db.now image.now }
    ensures { result ≡ is_global_pad (database_in db.now) (configuration_of image.now) x y n }
{
    for g in 0..8 {
        if is_pin_at(x, y, n, global_pad(db, image, g)) {
            return true;
        }
    }
    false
}
