// Modes of RAMs.
ghost use Rattle.std.specs.Prelude.{◌≡◌, ◌+◌, codes};
ghost use Rattle.ice_image.specs.Either.{configuration_of};
ghost use Rattle.chipdb_reader.specs.Kept.{database_in};
ghost use Rattle.fabric_model.specs.Rams.{mode_of, read_mode, write_mode};
ghost use Rattle.plane_map.specs.declared.tile.TileKind.TheVariants.{RamT};
ghost use Rattle.fabric_model.specs.Nets.{ending_in};
ghost use Rattle.fabric_model.specs.On.{is_function_on};
ghost use Rattle.fabric_parts.specs.Rams.{HasRam};

use chipdb_reader::ChipDb;
use fabric_model::{ShortText, is_on};
use ice_image::AnyImage;
use plane_map::TileKind;

/// The mode in which the words of a RAM are read.
pub(crate) fn read_mode(db: &ChipDb, image: &AnyImage, x: u8, y: u8) -> u8
    requires { HasRam image.now x y }
    ensures { result ≡ read_mode (database_in db.now) (configuration_of image.now) x y }
{
    mode(db, image, x, y, 2, 3)
}

/// The mode in which the words of a RAM are written.
pub(crate) fn write_mode(db: &ChipDb, image: &AnyImage, x: u8, y: u8) -> u8
    requires { HasRam image.now x y }
    ensures { result ≡ write_mode (database_in db.now) (configuration_of image.now) x y }
{
    mode(db, image, x, y, 0, 1)
}

/// The mode that two functions of the upper tile form: the values of `RamConfig.CBIT_low` and `RamConfig.CBIT_high`.
fn mode(db: &ChipDb, image: &AnyImage, x: u8, y: u8, low: u8, high: u8) -> u8
    requires { HasRam image.now x y }
    ensures { result ≡ mode_of (database_in db.now) (configuration_of image.now) x y low high }
{
    let ones = u8::from(is_config_on(db, image, x, y, low));
    let twos = u8::from(is_config_on(db, image, x, y, high));
    ones + 2 * twos
}

/// Whether the function `RamConfig.CBIT_k` is on in the upper tile.
fn is_config_on(db: &ChipDb, image: &AnyImage, x: u8, y: u8, k: u8) -> bool
    requires { HasRam image.now x y }
    ensures { result ≡ is_function_on (database_in db.now) (configuration_of image.now) RamT x (y + 1) (ending_in (codes "RamConfig.CBIT_") k) }
{
    let name = ShortText::ending_in(b"RamConfig.CBIT_", k);
    is_on(db, image, TileKind::RamT, x, y + 1, name.bytes())
}
