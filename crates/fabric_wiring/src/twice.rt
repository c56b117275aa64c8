// The least class of joined nets with two drivers.
ghost use Rattle.std.specs.Prelude.{◌≡◌};
ghost use Rattle.fabric_wiring.specs.Passed.{lesser};

use fabric_model::Driver;

/// A class of joined nets with two drivers or more, and its first two drivers.
#[derive(Clone, Copy)]
pub(crate) struct Twice {
    pub(crate) net: u32,
    pub(crate) first: Driver,
    pub(crate) second: Driver,
}

/// The lesser of two classes of joined nets; the one that was found before if they are the same.
pub(crate) fn lesser(before: Option<Twice>, found: Twice) -> Option<Twice>
    ensures { result ≡ lesser before found }
{
    match before {
        None => Some(found),
        Some(kept) => {
            if found.net < kept.net {
                Some(found)
            } else {
                Some(kept)
            }
        }
    }
}
