// Outputs of PLLs that are input ports.
ghost use Rattle.std.specs.Prelude.{◌≡◌, ◌<◌, length, filter, All, IfSome, IfOk};
ghost use Rattle.ice_image.specs.Either.{configuration_of};
ghost use Rattle.chipdb_reader.specs.Kept.{database_in};
ghost use Rattle.fabric_model.specs.PllPorts.{is_some_global, is_source_read};
ghost use Rattle.fabric_model.specs.BelongTogether.{BelongTogether};
ghost use Rattle.fabric_parts.specs.Globals.{AreOneDevice};

use crate::io::pads::is_global_pad;
use chipdb_reader::{ChipDb, PinXy};
use fabric_model::{Links, PllSource, is_some_read};
use ice_image::AnyImage;
use std::alloc::{AllocError, Global};

/// Whether the pin is that of the pad of a global network that the image lets its pad drive; false if there is no pin.
fn is_some_global(db: &ChipDb, image: &AnyImage, pin: Option<PinXy>) -> bool
    requires { AreOneDevice db.now image.now }
    ensures { result ≡ is_some_global (database_in db.now) (configuration_of image.now) pin }
{
    match pin {
        None => false,
        Some(pin) => is_global_pad(db, image, pin.x, pin.y, pin.n),
    }
}

/// Whether an output of a PLL is a port.
fn is_source_read(db: &ChipDb, image: &AnyImage, links: &Links, source: PllSource) -> bool
    requires together { BelongTogether db.now image.now links.now }
    requires net { IfSome source.net (λ net. net < length links.now.classes) }
    ensures { result ≡ is_source_read (database_in db.now) (configuration_of image.now) source }
{
    is_some_read(links, source.net) || is_some_global(db, image, source.pin)
}

/// The outputs of PLLs that are ports, among all outputs.
pub(crate) fn pll_ports(
    alloc: Global,
    db: &ChipDb,
    image: &AnyImage,
    links: &Links,
    sources: &[PllSource],
) -> Result<Vec<PllSource>, AllocError>
    requires together { BelongTogether db.now image.now links.now }
    requires nets { All (λ source. IfSome source.net (λ net. net < length links.now.classes)) sources.now }
    ensures { IfOk result (λ ports. ports.items ≡ filter (is_source_read (database_in db.now) (configuration_of image.now)) sources.now) }
{
    let mut ports = Vec::new(alloc);
    for source in sources {
        if is_source_read(db, image, links, *source) {
            ports.push(*source)?;
        }
    }
    Ok(ports)
}
