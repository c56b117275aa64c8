// What several tests need: what calls on images require, tested at run time.
ghost use Rattle.std.specs.Prelude.{◌≡◌, Some, IsTrue};
ghost use Rattle.plane_map.specs.Layout.{kind_of, IsInCram};

mod boot_files;
mod generated;
mod images;
mod packing;
mod texts;
mod words;

use plane_map::{DeviceName, Place, TileKind, kind_on};

fn is_lower_ram(device: DeviceName, x: u8, y: u8) -> bool
    ensures { IsTrue result → kind_of device x y ≡ Some TileKind.RamB }
{
    kind_on(device, u32::from(x), u32::from(y)) == Some(TileKind::RamB)
}

fn is_in_cram(device: DeviceName, at: Place) -> bool
    ensures { IsTrue result → IsInCram device at }
{
    at.bank < 4 && u32::from(at.px) < device.cram_columns() && u32::from(at.py) < device.cram_rows()
}
