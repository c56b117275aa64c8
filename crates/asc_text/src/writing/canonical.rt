// The canonical text of an image, made while it is written.
ghost use Rattle.std.specs.Prelude.{◌≡◌, ◌+◌, ◌*◌, ◌≤◌, ◌<◌, ◌^◌, ◌++◌, length, vec_len, vec_capacity, IfOk, OnErr};
ghost use Rattle.ice_io.specs.Faults.{Rose};
ghost use Rattle.text_lines.specs.Written.{text_of};
ghost use Rattle.plane_map.specs.Layout.{max_side};
ghost use Rattle.ice_image.specs.Either.{configuration_of};
ghost use Rattle.asc_text.specs.Canonical.{all_tile_lines};
ghost use Rattle.asc_text.specs.inside.Room.{row_room};
ghost use Rattle.ice_io.specs.Put.{Sends};

use crate::writing::extras::append_extra_bits;
use crate::writing::tiles::append_grid_row;
use crate::writing::writer::append_head;
use ice_image::AnyImage;
use ice_io::{Content, PutFault, Sink, write_whole};
use plane_map::MAX_SIDE;
use std::alloc::{AllocError, Global};

/// Room for the text of a row of the grid: `MAX_SIDE` tiles and RAMs, each with sixteen lines of at most 65 bytes below its statement.
const ROW_ROOM: usize = MAX_SIDE * (66 + 32 * 65);

/// The canonical text of an image, made while it is written. Only the text of one row of the grid is in memory at a time, besides
/// the lines before and after the tiles.
#[derive(Drop)]
pub struct CanonicalText {
    image: AnyImage,
    // The lines before the tiles and the lines after them, and where the latter begin.
    around: Vec<u8>,
    following: usize,
    row: Vec<u8>,
    ghost within: { following ≤ vec_len around },
    ghost room: { row_room ≤ vec_capacity row },
}

impl CanonicalText {
    ghost use Rattle.std.specs.Prelude.{◌≡◌, [], IfOk};
    ghost use Rattle.layout_file.specs.declared.layouts.Layouts.{Layouts};
    ghost use Rattle.layout_file.specs.Layouts.{HasLayout};
    ghost use Rattle.ice_image.specs.Either.{configuration_of};
    ghost use Rattle.asc_text.specs.Canonical.{asc_text_of};
    ghost use Rattle.asc_text.specs.Meaning.{AscMeans};
    ghost use Rattle.asc_text.specs.InPieces.{canonical_in};

    /// The canonical text of this image. All memory is allocated here: the lines before and after the tiles, and room for a row of the
    /// grid.
    ///
    /// # Errors
    /// `AllocError` if memory is out, and for no other cause.
    pub fn of(alloc: Global, image: AnyImage) -> Result<CanonicalText, AllocError>
        ensures text { IfOk result (λ text. canonical_in text ≡ asc_text_of (configuration_of image)) }
        ensures means { IfOk result (λ text. (layouts : Layouts) → HasLayout layouts (configuration_of image).layout → AscMeans layouts (canonical_in text) (configuration_of image) []) }
    {
        let mut around = Vec::new(alloc);
        append_head(&mut around, &image)?;
        let following = around.len();
        append_extra_bits(&mut around, &image, alloc)?;
        let row = Vec::with_capacity(alloc, ROW_ROOM)?;
        Ok(CanonicalText {
            image,
            around,
            following,
            row,
        })
    }
}

/// Writes the text piece by piece; the text of a row of the grid is made when it is written.
impl Content for CanonicalText {
    ghost use Rattle.asc_text.specs.InPieces.{canonical_in};

    ghost bytes = { canonical_in };

    fn write_to<K: Sink>(self, sink: &mut K) -> Result<(), PutFault> {
        let CanonicalText {
            image,
            around,
            following,
            mut row,
        } = self;
        match write_around(
            sink,
            &around[..following],
            &image,
            &around[following..],
            &mut row,
        ) {
            Ok(_) => Ok(()),
            Err(fault) => Err(fault),
        }
    }
}

/// Writes the lines before the tiles, all tiles and the lines after them, and returns how many bytes were written.
fn write_around<K: Sink>(
    sink: &mut K,
    before: &[u8],
    image: &AnyImage,
    following: &[u8],
    row: &mut Vec<u8>,
) -> Result<usize, PutFault>
    requires few { length before.now + length following.now < 2 ^ 63 }
    requires room { row_room ≤ vec_capacity row.old }
    ensures sends { Sends (K.held sink.old) (K.held sink.new) 0 (before.now ++ text_of (all_tile_lines (configuration_of image.now)) ++ following.now) result }
    ensures never_falls { K.faults sink.old ≤ K.faults sink.new }
    ensures failed { OnErr result (Rose (K.faults sink.old) (K.faults sink.new)) }
{
    let start = write_piece(sink, before, 0)?;
    let end = write_tiles(sink, image, row, start)?;
    write_piece(sink, following, end)
}

/// Writes a piece of a text of which `sent` bytes have been written, and returns how many have been written then.
fn write_piece<K: Sink>(sink: &mut K, piece: &[u8], sent: usize) -> Result<usize, PutFault>
    requires { sent + length piece.now < 2 ^ 64 }
    ensures sends { Sends (K.held sink.old) (K.held sink.new) sent piece.now result }
    ensures never_falls { K.faults sink.old ≤ K.faults sink.new }
    ensures failed { OnErr result (Rose (K.faults sink.old) (K.faults sink.new)) }
{
    match write_whole(sink, piece) {
        Ok(()) => Ok(sent + piece.len()),
        Err(PutFault::Failed { written }) => Err(PutFault::Failed {
            written: sent + written,
        }),
    }
}

/// Writes all tiles of a text of which `before` bytes have been written, and returns how many have been written then. The text of each
/// row of the grid is made in `row`, which has enough room.
fn write_tiles<K: Sink>(
    sink: &mut K,
    image: &AnyImage,
    row: &mut Vec<u8>,
    before: usize,
) -> Result<usize, PutFault>
    requires room { row_room ≤ vec_capacity row.old }
    requires before { before < 2 ^ 63 }
    ensures sends { Sends (K.held sink.old) (K.held sink.new) before (text_of (all_tile_lines (configuration_of image.now))) result }
    ensures few { IfOk result (λ end. end ≤ before + max_side * row_room) }
    ensures never_falls { K.faults sink.old ≤ K.faults sink.new }
    ensures failed { OnErr result (Rose (K.faults sink.old) (K.faults sink.new)) }
{
    let mut sent = before;
    for y in 0..image.device().rows() {
        row.clear();
        append_grid_row(row, image, y as u8).unwrap();
        sent = write_piece(sink, row, sent)?;
    }
    Ok(sent)
}
