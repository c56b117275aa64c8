// The columns of bits that the columns of tiles take: how many each, and where each begins.
ghost use Rattle.std.specs.Prelude.{◌≡◌, ◌≤◌, ◌<◌, ◌-◌, ◌^◌, ◌++◌, length, replicate};
ghost use Rattle.plane_map.specs.Inside.{starts_below};
ghost use Rattle.plane_map.specs.Layout.{half_width, standard_widths, start_in};

use crate::device::DeviceName;

/// The standard widths, with 0 after the last one.
#[tactic(auto, unfolding(crate::specs::Layout::standard_widths))]
pub(crate) fn standard_widths(device: DeviceName) -> [u16; 17]
    ensures { result ≡ standard_widths device ++ replicate (17 - half_width device) 0 }
{
    match device {
        DeviceName::Lp384 => [18, 54, 54, 54, 0, 0, 0, 0, 0, 0, 0, 0, 0, 0, 0, 0, 0],
        DeviceName::Hx1k => [18, 54, 54, 42, 54, 54, 54, 0, 0, 0, 0, 0, 0, 0, 0, 0, 0],
        DeviceName::Hx8k => [
            18, 54, 54, 54, 54, 54, 54, 54, 42, 54, 54, 54, 54, 54, 54, 54, 54,
        ],
    }
}

/// The widths, with 0 after the last one.
pub(crate) fn padded(widths: &[u16]) -> [u16; 17]
    requires { length widths.now ≤ 17 }
    ensures { result ≡ widths.now ++ replicate (17 - length widths.now) 0 }
{
    let mut all = [0; 17];
    all[..widths.len()].copy_from_slice(widths);
    all
}

/// How many columns of bits the columns of tiles before each one take.
pub(crate) fn starts_of(widths: &[u16; 17]) -> [u16; 17]
    requires { start_in widths.now 17 < 2 ^ 16 }
    ensures { result ≡ starts_below widths.now 17 }
{
    let mut starts = [0; 17];
    let mut start = 0;
    for distance in 0..17 {
        starts[distance] = start;
        start += widths[distance];
    }
    starts
}
