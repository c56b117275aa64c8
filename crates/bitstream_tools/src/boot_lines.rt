// The lines that tell what is in a boot file.
ghost use Rattle.std.specs.Prelude.{◌≡◌, ◌++◌, map, IfOk, OnOk};
ghost use Rattle.boot_file.specs.Meaning.{boot_of, placed_of};
ghost use Rattle.bitstream_tools.specs.Split.{cold_line, image_line, image_lines, listed, power_line};

use boot_file::{BootFile, BootImage};
use itoa::Buffer;
use std::alloc::{AllocError, Global};

/// The lines of a boot file.
#[tactic(auto, unfolding(crate::specs::Split::listed))]
pub(crate) fn listed(alloc: Global, file: &BootFile) -> Result<Vec<u8>, AllocError>
    ensures { IfOk result (λ text. text.items ≡ listed (boot_of file.now)) }
{
    let mut text = Vec::new(alloc);
    append_cold(&mut text, file.cold)?;
    append_power(&mut text, file.power)?;
    append_images(&mut text, file.images.as_slice())?;
    Ok(text)
}

// Appends the line that tells whether the pins choose the image at a cold boot.
fn append_cold(text: &mut Vec<u8>, cold: bool) -> Result<(), AllocError>
    ensures { OnOk result (text.new.items ≡ text.old.items ++ cold_line cold) }
{
    if cold {
        text.extend_from_slice(b"cold yes\n")
    } else {
        text.extend_from_slice(b"cold no\n")
    }
}

// Appends the line with the index of the image that is booted at power-on.
fn append_power(text: &mut Vec<u8>, index: u32) -> Result<(), AllocError>
    ensures { OnOk result (text.new.items ≡ text.old.items ++ power_line index) }
{
    text.extend_from_slice(b"power ")?;
    text.extend_from_slice(Buffer::new().format(index).as_bytes())?;
    text.push(b'\n')?;
    Ok(())
}

// Appends a line for each image.
fn append_images(text: &mut Vec<u8>, images: &[BootImage]) -> Result<(), AllocError>
    ensures { OnOk result (text.new.items ≡ text.old.items ++ image_lines (map placed_of images.now)) }
{
    for (index, placed) in images.iter().enumerate() {
        append_image(text, index, placed)?;
    }
    Ok(())
}

// Appends the line of an image: its index, its address and its device.
fn append_image(text: &mut Vec<u8>, index: usize, placed: &BootImage) -> Result<(), AllocError>
    ensures { OnOk result (text.new.items ≡ text.old.items ++ image_line index (placed_of placed.now)) }
{
    text.extend_from_slice(b"image ")?;
    text.extend_from_slice(Buffer::new().format(index).as_bytes())?;
    text.extend_from_slice(b" at ")?;
    text.extend_from_slice(Buffer::new().format(placed.address).as_bytes())?;
    text.extend_from_slice(b" device ")?;
    text.extend_from_slice(placed.image.device().word())?;
    text.push(b'\n')?;
    Ok(())
}
