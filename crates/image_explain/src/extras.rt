// The lines of the set extra bits.
ghost use Rattle.std.specs.Prelude.{◌≡◌, ◌++◌, ◌∷◌, cond, IfOk, OnOk, None, Some, map};
ghost use Rattle.std.specs.BTreeMap.{get, is_at};
ghost use Rattle.image_explain.specs.declared.keys.PlaceKey.{PlaceKey as KeyOf};
ghost use Rattle.text_lines.specs.Written.{text_of};
ghost use Rattle.ice_image.specs.Either.{configuration_of};
ghost use Rattle.ice_image.specs.Bits.{set_extras};
ghost use Rattle.chipdb_reader.specs.Kept.{database_in};
ghost use Rattle.image_explain.specs.Explained.{extra_lines, extra_text, name_or_place};
ghost use Rattle.image_explain.specs.Inside.{lists_of};
ghost use Rattle.image_explain.specs.Keys.{FindsExtras, place_cmp, place_key};

use crate::keys::PlaceKey;
use crate::lines::push_line;
use asc_text::{append_number, end_line};
use chipdb_reader::{ChipDb, Extra};
use ice_image::AnyImage;
use plane_map::Place;
use std::alloc::{AllocError, Global};
use std::collections::BTreeMap;

/// Appends the set extra bits, by bank, then by row, then by column, if there are any.
pub(crate) fn append_extras(
    text: &mut Vec<u8>,
    alloc: Global,
    db: &ChipDb,
    image: &AnyImage,
) -> Result<(), AllocError>
    ensures { OnOk result (text.new.items ≡ text.old.items ++ text_of (extra_lines (database_in db.now).extras (set_extras (configuration_of image.now)))) }
{
    let places = image.extra_bits(alloc)?;
    append_places(text, alloc, db, &places)
}

/// The text that `explain` writes for each of these places: the first name that the database gives for it, or else `? BANK X Y`.
///
/// # Errors
/// `AllocError` if memory is out, and for no other cause.
pub fn extra_names(alloc: Global, db: &ChipDb, places: &[Place]) -> Result<Vec<Vec<u8>>, AllocError>
    ensures { IfOk result (λ names. lists_of names.items ≡ map (extra_text (database_in db.now).extras) places.now) }
{
    let firsts = first_extras(alloc, db.extras())?;
    let mut names = Vec::new(alloc);
    for at in places {
        let name = extra_name(alloc, db, &firsts, *at)?;
        push_line(&mut names, name)?;
    }
    Ok(names)
}

/// The text of a place.
fn extra_name(
    alloc: Global,
    db: &ChipDb,
    firsts: &BTreeMap<PlaceKey, Extra>,
    at: Place,
) -> Result<Vec<u8>, AllocError>
    requires { FindsExtras firsts.now db.now.extras }
    ensures { IfOk result (λ name. name.items ≡ extra_text (database_in db.now).extras at) }
{
    let mut name = Vec::new(alloc);
    append_extra(&mut name, db, firsts, at)?;
    Ok(name)
}

/// Appends these places under their statement, if there are any.
fn append_places(
    text: &mut Vec<u8>,
    alloc: Global,
    db: &ChipDb,
    places: &[Place],
) -> Result<(), AllocError>
    ensures { OnOk result (text.new.items ≡ text.old.items ++ text_of (extra_lines (database_in db.now).extras places.now)) }
{
    if places.len() == 0 {
        return Ok(());
    }
    let firsts = first_extras(alloc, db.extras())?;
    text.extend_from_slice(b".extra_bits\n")?;
    append_each(text, db, &firsts, places)
}

/// Appends a line for each place.
#[tactic(auto, using(asc_text::proofs::Pieces::joined))]
fn append_each(
    text: &mut Vec<u8>,
    db: &ChipDb,
    firsts: &BTreeMap<PlaceKey, Extra>,
    places: &[Place],
) -> Result<(), AllocError>
    requires { FindsExtras firsts.now db.now.extras }
    ensures { OnOk result (text.new.items ≡ text.old.items ++ text_of (map (extra_text (database_in db.now).extras) places.now)) }
{
    for at in places {
        append_extra(text, db, firsts, *at)?;
        end_line(text)?;
    }
    Ok(())
}

/// Appends an extra bit, by its first name or else by its place.
fn append_extra(
    text: &mut Vec<u8>,
    db: &ChipDb,
    firsts: &BTreeMap<PlaceKey, Extra>,
    at: Place,
) -> Result<(), AllocError>
    requires { FindsExtras firsts.now db.now.extras }
    ensures { OnOk result (text.new.items ≡ text.old.items ++ extra_text (database_in db.now).extras at) }
{
    match first_at(firsts, at) {
        Some(extra) => {
            text.extend_from_slice(db.text(extra.name))?;
            Ok(())
        }
        None => append_place(text, at),
    }
}

/// Appends a place that has no name.
fn append_place(text: &mut Vec<u8>, at: Place) -> Result<(), AllocError>
    ensures { OnOk result (text.new.items ≡ text.old.items ++ name_or_place at None) }
{
    text.push(b'?')?;
    append_number(text, u32::from(at.bank))?;
    append_number(text, u32::from(at.px))?;
    append_number(text, u32::from(at.py))
}

/// The first extra bit of each place.
fn first_extras(alloc: Global, extras: &[Extra]) -> Result<BTreeMap<PlaceKey, Extra>, AllocError>
    ensures { IfOk result (λ firsts. FindsExtras firsts extras.now) }
{
    let mut firsts = BTreeMap::new(alloc);
    for place in (0..extras.len()).rev() {
        put_first(&mut firsts, extras[place])?;
    }
    Ok(firsts)
}

/// Puts an extra bit before the others of its place.
fn put_first(firsts: &mut BTreeMap<PlaceKey, Extra>, extra: Extra) -> Result<(), AllocError>
    ensures { OnOk result ((key : KeyOf) → get place_cmp firsts.new key ≡ cond (is_at (place_cmp (place_key extra.at)) key) (Some extra) (get place_cmp firsts.old key)) }
{
    let key = PlaceKey {
        bank: extra.at.bank,
        px: extra.at.px,
        py: extra.at.py,
    };
    match firsts.insert(key, extra) {
        Ok(_) => Ok(()),
        Err(e) => Err(AllocError::from(e)),
    }
}

/// The first extra bit of a place.
fn first_at(firsts: &BTreeMap<PlaceKey, Extra>, at: Place) -> Option<Extra>
    ensures { result ≡ get place_cmp firsts.now (place_key at) }
{
    let key = PlaceKey {
        bank: at.bank,
        px: at.px,
        py: at.py,
    };
    firsts.get(&key).copied()
}
