// Extra bits that differ.
ghost use Rattle.std.specs.Prelude.{◌≡◌, ◌==◌, ◌&&◌, ◌++◌, ◌∷◌, [], length, if◌then◌else◌, IfOk, OnOk};
ghost use Rattle.text_lines.specs.Written.{text_of};
ghost use Rattle.ice_image.specs.Either.{configuration_of};
ghost use Rattle.chipdb_reader.specs.Kept.{database_in};
ghost use Rattle.image_diff.specs.Differences.{extra_changes, extras_without, is_set_extra};

use crate::lines::append_each;
use chipdb_reader::ChipDb;
use ice_image::AnyImage;
use image_explain::extra_names;
use plane_map::Place;
use std::alloc::{AllocError, Global};

/// Appends the extra bits that one image alone has, if there are any.
pub(crate) fn append_extras(
    text: &mut Vec<u8>,
    alloc: Global,
    db: &ChipDb,
    first: &AnyImage,
    second: &AnyImage,
) -> Result<(), AllocError>
    ensures { OnOk result (text.new.items ≡ text.old.items ++ text_of (extra_changes (database_in db.now).extras (extras_without (configuration_of second.now) (configuration_of first.now)) (extras_without (configuration_of first.now) (configuration_of second.now)))) }
{
    let first_alone = extras_without(alloc, second, first)?;
    let second_alone = extras_without(alloc, first, second)?;
    append_places(text, alloc, db, &first_alone, &second_alone)
}

/// The set extra bits of an image that aren't set extra bits of another.
#[tactic(auto, unfolding(crate::specs::Differences::extras_without))]
fn extras_without(
    alloc: Global,
    other: &AnyImage,
    image: &AnyImage,
) -> Result<Vec<Place>, AllocError>
    ensures { IfOk result (λ places. places.items ≡ extras_without (configuration_of other.now) (configuration_of image.now)) }
{
    let places = image.extra_bits(alloc)?;
    let mut alone = Vec::new(alloc);
    for at in &places {
        push_unless(&mut alone, is_set_extra(other, *at), *at)?;
    }
    Ok(alone)
}

/// Adds a place, unless it is told not to.
fn push_unless(places: &mut Vec<Place>, is_left_out: bool, at: Place) -> Result<(), AllocError>
    ensures { OnOk result (places.new.items ≡ places.old.items ++ (if is_left_out then [] else at ∷ [])) }
{
    if !is_left_out {
        places.push(at)?;
    }
    Ok(())
}

/// Whether a place has an extra bit, and it is set.
fn is_set_extra(image: &AnyImage, at: Place) -> bool
    ensures { result ≡ is_set_extra (configuration_of image.now) at }
{
    match image.extra_place(u32::from(at.bank), u32::from(at.px), u32::from(at.py)) {
        None => false,
        Some(at) => image.cram_bit(at),
    }
}

/// Whether there are no places.
fn are_none(first: &[Place], second: &[Place]) -> bool
    ensures { result ≡ ((length first.now == 0) && (length second.now == 0)) }
{
    first.len() == 0 && second.len() == 0
}

/// Appends these places under their statement, if there are any.
fn append_places(
    text: &mut Vec<u8>,
    alloc: Global,
    db: &ChipDb,
    first: &[Place],
    second: &[Place],
) -> Result<(), AllocError>
    ensures { OnOk result (text.new.items ≡ text.old.items ++ text_of (extra_changes (database_in db.now).extras first.now second.now)) }
{
    if are_none(first, second) {
        return Ok(());
    }
    let first = extra_names(alloc, db, first)?;
    let second = extra_names(alloc, db, second)?;
    text.extend_from_slice(b".extra_bits\n")?;
    append_each(text, b'-', &first)?;
    append_each(text, b'+', &second)
}
