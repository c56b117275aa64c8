// Nets of pins, and pins of outputs of PLLs.
ghost use Rattle.std.specs.Prelude.{◌≡◌, ◌≤◌, length};
ghost use Rattle.chipdb_reader.specs.Kept.{database_in};
ghost use Rattle.fabric_model.specs.Nets.{io_net};
ghost use Rattle.fabric_model.specs.Plls.{is_pin_at, is_pll_place};

use crate::pll::PllSource;
use crate::short_text::ShortText;
use chipdb_reader::{ChipDb, PinXy};

/// The net of a port of pin `n`. The port is the part of the name after the pin, such as `/D_IN_0`.
pub fn io_net(db: &ChipDb, x: u8, y: u8, n: u8, port: &[u8]) -> Option<u32>
    requires { length port.now ≤ 20 }
    ensures { result ≡ io_net (database_in db.now) x y n port.now }
{
    db.net_of(x, y, ShortText::with_number(b"io_", n, port).bytes())
}

/// Whether a pin is that one; false if there is none.
pub fn is_pin_at(x: u8, y: u8, n: u8, pin: Option<PinXy>) -> bool
    ensures { result ≡ is_pin_at x y n pin }
{
    match pin {
        None => false,
        Some(pin) => pin.x == x && (pin.y == y && pin.n == n),
    }
}

/// Whether a pin is that of one of these outputs of PLLs.
pub fn is_pll_place(sources: &[PllSource], x: u8, y: u8, n: u8) -> bool
    ensures { result ≡ is_pll_place sources.now x y n }
{
    sources.iter().any(|source| is_pin_at(x, y, n, source.pin))
}
