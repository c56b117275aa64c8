// Nets that may be missing, and whether they are read.
ghost use Rattle.std.specs.Prelude.{◌≡◌, ◌<◌, length, IfSome};
ghost use Rattle.fabric_model.specs.BelongTogether.{is_some_read_in};

use crate::Links;

/// Whether a net is read; false if there is no net.
pub fn is_some_read(links: &Links, net: Option<u32>) -> bool
    requires { IfSome net (λ net. net < length links.now.classes) }
    ensures { result ≡ is_some_read_in links.now net }
{
    match net {
        None => false,
        Some(net) => links.is_read(net),
    }
}
