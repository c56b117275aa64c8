// The set bits of the configuration planes that belong to no tile, looked for by words. The places that belong to tiles are marked in planes of
// their own, in two rows of each bank, since all rows of inner tiles have the same columns, and those of the end rows too. Only a set bit that
// isn't marked is looked at.
ghost use Rattle.std.specs.Prelude.{◌≡◌, ℕ, ◌+◌, ◌-◌, ◌^◌, ◌<◌, ◌≤◌, [], ◌∷◌, ◌++◌, true, false, nat_lt, if◌then◌else◌, IfOk, MatchOption};
ghost use Rattle.plane_map.specs.Layout.{IsLayout, IsInCram, columns_at, cram_height};
ghost use Rattle.ice_image.specs.Bits.{number_bit};
ghost use Rattle.ice_image.specs.Configuration.{IsCramSize, AreBanks, place_bit};
ghost use Rattle.ice_image.specs.Contents.{tile_place};
ghost use Rattle.ice_image.specs.Extras.{AreSetExtras};
ghost use Rattle.ice_image.specs.Owned.{is_extra, is_owned};
ghost use Rattle.ice_image.specs.Written.{HasExtras, AreMarks, AreKept, IsMarked, AreMarked, IsWritten, bit_of_word, is_set_extra, free_places};

use crate::banks::Banks;
use crate::tiles::write_row;
use bit_plane::Bits;
use plane_map::{Layout, Place, TileRow};
use std::alloc::{AllocError, Global};

/// All set extra bits, by bank, then by row, then by column.
pub(crate) fn extras_of<P: Bits>(
    layout: &Layout,
    cram: &Banks<P>,
    alloc: Global,
) -> Result<Vec<Place>, AllocError>
    requires layout { IsLayout layout.now }
    requires size { IsCramSize layout.now.device P.WIDTH P.HEIGHT }
    ensures { IfOk result (λ places. AreSetExtras layout.now cram.now places.items) }
{
    let owned = owned_places(layout, alloc)?;
    let mut places = Vec::new(alloc);
    for bank in 0..4 {
        append_bank(layout, cram, &owned, bank, &mut places)?;
    }
    Ok(places)
}

/// Appends the set extra bits of a bank.
fn append_bank<P: Bits>(
    layout: &Layout,
    cram: &Banks<P>,
    owned: &Banks<P>,
    bank: u8,
    places: &mut Vec<Place>,
) -> Result<(), AllocError>
    requires layout { IsLayout layout.now }
    requires size { IsCramSize layout.now.device P.WIDTH P.HEIGHT }
    requires bank { bank < 4 }
    requires owned { AreMarked layout.now 4 owned.now }
    requires before { HasExtras layout.now cram.now (record { bank = bank; px = 0; py = 0 }) places.old.items }
    ensures { IfOk result (λ _. HasExtras layout.now cram.now (record { bank = bank + 1; px = 0; py = 0 }) places.new.items) }
{
    for py in 0..P::HEIGHT {
        append_row(layout, cram, owned, bank, py as u16, places)?;
    }
    Ok(())
}

/// Appends the set extra bits of a row.
fn append_row<P: Bits>(
    layout: &Layout,
    cram: &Banks<P>,
    owned: &Banks<P>,
    bank: u8,
    py: u16,
    places: &mut Vec<Place>,
) -> Result<(), AllocError>
    requires layout { IsLayout layout.now }
    requires size { IsCramSize layout.now.device P.WIDTH P.HEIGHT }
    requires bank { bank < 4 }
    requires row { py < P.HEIGHT }
    requires owned { AreMarked layout.now 4 owned.now }
    requires before { HasExtras layout.now cram.now (record { bank = bank; px = 0; py = py }) places.old.items }
    ensures { IfOk result (λ _. HasExtras layout.now cram.now (record { bank = bank; px = 0; py = py + 1 }) places.new.items) }
{
    let mut px = 0;
    while px < P::WIDTH {
        let count = at_most_64(P::WIDTH - px);
        let free = free_bits(layout, cram, owned, bank, px, py, count);
        append_free(bank, px as u16, py, count, free, places)?;
        px += count;
    }
    Ok(())
}

/// The lesser of a number and 64.
fn at_most_64(count: usize) -> usize
    requires { 0 < count }
    ensures some { 0 < result }
    ensures within { result ≤ count }
    ensures few { result ≤ 64 }
{
    if count < 64 { count } else { 64 }
}

/// Which of `count` bits of a row, from a column on, are set and belong to no tile.
fn free_bits<P: Bits>(
    layout: &Layout,
    cram: &Banks<P>,
    owned: &Banks<P>,
    bank: u8,
    px: usize,
    py: u16,
    count: usize,
) -> u64
    requires layout { IsLayout layout.now }
    requires size { IsCramSize layout.now.device P.WIDTH P.HEIGHT }
    requires bank { bank < 4 }
    requires count { count ≤ 64 }
    requires columns { px + count ≤ P.WIDTH }
    requires row { py < P.HEIGHT }
    requires owned { AreMarked layout.now 4 owned.now }
    ensures { (k : ℕ) → k < count → number_bit result k ≡ is_set_extra layout.now cram.now (record { bank = bank; px = px + k; py = py }) }
{
    let set = cram.row_bits(bank as usize, px, py as usize, count);
    set & !owned.row_bits(bank as usize, px, marks_of(py), count)
}

/// The row of the marked planes that says which places of a row belong to tiles.
fn marks_of(py: u16) -> usize
    ensures { result ≡ (if nat_lt py 16 then 0 else 16) }
{
    if py < 16 { 0 } else { 16 }
}

/// Appends the places of the set bits of a word, whose bits lie in a row from a column on.
fn append_free(
    bank: u8,
    px: u16,
    py: u16,
    count: usize,
    free: u64,
    places: &mut Vec<Place>,
) -> Result<(), AllocError>
    requires columns { px + count < 2 ^ 16 }
    requires few { count ≤ 64 }
    ensures { IfOk result (λ _. places.new.items ≡ places.old.items ++ free_places bank px py free count) }
{
    if free == 0 {
        return Ok(());
    }
    for k in 0..count {
        let at = Place {
            bank,
            px: px + k as u16,
            py,
        };
        push_where(free >> k & 1 == 1, at, places)?;
    }
    Ok(())
}

/// Appends a place if `is_asked`.
fn push_where(is_asked: bool, at: Place, places: &mut Vec<Place>) -> Result<(), AllocError>
    ensures { IfOk result (λ _. places.new.items ≡ places.old.items ++ (if is_asked then at ∷ [] else [])) }
{
    if is_asked {
        places.push(at)?;
    }
    Ok(())
}

/// Planes in which places that belong to tiles are set: in each bank all such places of row 0, which lies in an end row of tiles, and all
/// of row 16, which lies in an inner row of tiles.
fn owned_places<P: Bits>(layout: &Layout, alloc: Global) -> Result<Banks<P>, AllocError>
    requires layout { IsLayout layout.now }
    requires size { IsCramSize layout.now.device P.WIDTH P.HEIGHT }
    ensures { IfOk result (λ owned. AreMarked layout.now 4 owned) }
{
    let mut owned = Banks::zeroed(alloc)?;
    mark_banks(layout, &mut owned);
    Ok(owned)
}

/// Sets these places in blank planes.
fn mark_banks<P: Bits>(layout: &Layout, owned: &mut Banks<P>)
    requires layout { IsLayout layout.now }
    requires size { IsCramSize layout.now.device P.WIDTH P.HEIGHT }
    requires whole { AreBanks P.WIDTH P.HEIGHT owned.old }
    requires blank { (at : Place) → place_bit owned.old at ≡ false }
    ensures { AreMarked layout.now 4 owned.new }
{
    for bank in 0..4 {
        mark_row(layout, owned, bank, 0);
        mark_row(layout, owned, bank, 16);
    }
}

/// Sets all places of a row that belong to tiles.
fn mark_row<P: Bits>(layout: &Layout, owned: &mut Banks<P>, bank: u8, py: u16)
    requires layout { IsLayout layout.now }
    requires size { IsCramSize layout.now.device P.WIDTH P.HEIGHT }
    requires whole { AreBanks P.WIDTH P.HEIGHT owned.old }
    requires bank { bank < 4 }
    requires row { py < cram_height layout.now.device }
    requires marks { AreMarks layout.now owned.old }
    ensures whole { AreBanks P.WIDTH P.HEIGHT owned.new }
    ensures marks { AreMarks layout.now owned.new }
    ensures kept { AreKept owned.old owned.new }
    ensures marked { IsMarked layout.now owned.new bank py }
{
    let at = layout.tile_row_at(bank, py);
    for x in 0..layout.device().columns() {
        mark_tile(layout, owned, x as u8, at);
    }
}

/// Sets all places of a row of a tile.
fn mark_tile<P: Bits>(layout: &Layout, owned: &mut Banks<P>, x: u8, at: TileRow)
    requires layout { IsLayout layout.now }
    requires row { at.row < 16 }
    requires size { IsCramSize layout.now.device P.WIDTH P.HEIGHT }
    requires whole { AreBanks P.WIDTH P.HEIGHT owned.old }
    ensures whole { AreBanks P.WIDTH P.HEIGHT owned.new }
    ensures written { IsWritten (tile_place layout.now x at.y at.row) (bit_of_word (columns_at layout.now.device x at.y) (2 ^ 64 - 1)) (columns_at layout.now.device x at.y) owned.old owned.new }
{
    write_row(layout, owned, x, at.y, at.row, u64::MAX);
}

/// The place of the configuration planes with these numbers, or `None` if there is no such place or it belongs to a tile.
pub(crate) fn extra_place(layout: &Layout, bank: u32, px: u32, py: u32) -> Option<Place>
    ensures { MatchOption result (is_extra layout.now (record { bank = bank; px = px; py = py }) ≡ false)
        (λ at. (is_extra layout.now at ≡ true) × (at ≡ record { bank = bank; px = px; py = py })) }
{
    let device = layout.device();
    if bank >= 4 || px >= device.cram_columns() || py >= device.cram_rows() {
        return None;
    }
    let at = Place {
        bank: bank as u8,
        px: px as u16,
        py: py as u16,
    };
    if is_owned(layout, at) { None } else { Some(at) }
}

/// Whether a place of the configuration planes belongs to a tile.
fn is_owned(layout: &Layout, at: Place) -> bool
    requires { IsInCram layout.now.device at }
    ensures { result ≡ is_owned layout.now at }
{
    layout.owner_of(at).is_some()
}
