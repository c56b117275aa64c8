// The names of pins: as text of XML, and shortened.
ghost use Rattle.std.specs.Prelude.{◌≡◌, ◌++◌, option_map, OnOk};
ghost use Rattle.plan_svg.specs.Names.{escaped, escaped_byte, label, name_of, names_in};

use pin_file::{GivenNames, PinPlace};
use std::alloc::AllocError;

/// The name of pin `n` of the tile at (x, y), if there is a pin file and it gives one.
pub(crate) fn name_of(names: Option<&GivenNames>, x: u8, y: u8, n: u8) -> Option<&[u8]>
    ensures { option_map (λ name. name.now) result ≡ name_of (names_in names.entry) x y n }
{
    match names {
        None => None,
        Some(names) => names.name_at(PinPlace {
            x: u32::from(x),
            y: u32::from(y),
            pio: u32::from(n),
        }),
    }
}

/// Appends a name as text of XML: printable characters of ASCII, some of them as entities, and `?` for each other byte.
#[tactic(auto, unfolding(crate::specs::Names::escaped))]
fn push_escaped(text: &mut Vec<u8>, name: &[u8]) -> Result<(), AllocError>
    ensures { OnOk result (text.new.items ≡ text.old.items ++ escaped name.now) }
{
    for byte in name {
        push_byte(text, *byte)?;
    }
    Ok(())
}

/// Appends a byte of a name as text of XML.
fn push_byte(text: &mut Vec<u8>, byte: u8) -> Result<(), AllocError>
    ensures { OnOk result (text.new.items ≡ text.old.items ++ escaped_byte byte) }
{
    match byte {
        b'&' => text.extend_from_slice(b"&amp;"),
        b'<' => text.extend_from_slice(b"&lt;"),
        b'>' => text.extend_from_slice(b"&gt;"),
        b'"' => text.extend_from_slice(b"&quot;"),
        b'\'' => text.extend_from_slice(b"&apos;"),
        b' '..=b'~' => Ok(text.push(byte)?),
        _ => Ok(text.push(b'?')?),
    }
}

/// Appends a name; of one that is longer than `first + last + 2` bytes the first and the last bytes, and two dots between them.
#[tactic(auto, unfolding(crate::specs::Names::label))]
pub(crate) fn push_label(
    text: &mut Vec<u8>,
    first: u8,
    last: u8,
    name: &[u8],
) -> Result<(), AllocError>
    ensures { OnOk result (text.new.items ≡ text.old.items ++ label first last name.now) }
{
    let (first, last) = (usize::from(first), usize::from(last));
    if name.len() <= first + last + 2 {
        return push_escaped(text, name);
    }
    push_escaped(text, &name[..first])?;
    text.extend_from_slice(b"..")?;
    push_escaped(text, &name[name.len() - last..])
}
