// Global nets that drive a net.
ghost use Rattle.std.specs.Prelude.{◌≡◌, ◌==◌, length};
ghost use Rattle.std.specs.List.{list_any};
ghost use Rattle.image_stat.specs.Counts.{globals_among};

use fabric_model::GlobalNet;

/// How many global nets drive at least one of these nets.
pub(crate) fn globals(nets: &[GlobalNet]) -> usize
    ensures { result ≡ length (globals_among nets.now) }
{
    let mut count = 0;
    for g in 0..8 {
        if drives(nets, g) {
            count += 1;
        }
    }
    count
}

/// Whether global net `g` drives one of these nets.
fn drives(nets: &[GlobalNet], g: u8) -> bool
    ensures { result ≡ list_any (λ global. global.g == g) nets.now }
{
    nets.iter().any(|net| net.g == g)
}
