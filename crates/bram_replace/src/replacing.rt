// Replacing the RAMs in a whole text.
ghost use Rattle.std.specs.Prelude.{◌≡◌, ◌<◌, ◌+◌, ◌^◌, ◌++◌, ◌==◌, ◌&&◌, ℕ, List, None, length, get_or, drop, bytes_eq, IfOk, OnOk, IfErr};
ghost use Rattle.index_search.specs.Places.{gathered_below};
ghost use Rattle.text_lines.specs.Lines.{line_at, lines_of, whole_lines_of};
ghost use Rattle.text_lines.specs.Words.{first_word};
ghost use Rattle.layout_file.specs.Layouts.{standard_layouts};
ghost use Rattle.ice_image.specs.Either.{configuration_of};
ghost use Rattle.asc_text.specs.Characters.{HasBits};
ghost use Rattle.asc_text.specs.Faults.{asc_fault_of};
ghost use Rattle.asc_text.specs.Meaning.{AscMeans, asc_symbols_of};
ghost use Rattle.asc_text.specs.Statements.{ram_data_keyword};
ghost use Rattle.bram_replace.specs.Columns.{column_count};
ghost use Rattle.asc_text.specs.Rams.{BeginsWithRam, is_ram_line};
ghost use Rattle.bram_replace.specs.Passed.{Passes};
ghost use Rattle.bram_replace.specs.ReadModes.{by_columns, modes_in, no_modes};
ghost use Rattle.bram_replace.specs.Replaced.{bits_after, bram_fault, columns_found, found_in, memory_line_with, ram_bits, replaced, text_fault, TellsBram};

use crate::columns::Columns;
use crate::fault::BramFault;
use crate::hex_file::HexFile;
use crate::modes::{ReadModes, mode_of};
use crate::ram::{append_lines, ram_bits, replace_in_mode};
use asc_text::{AscFault, read_image_with};
use ice_image::AnyImage;
use layout_file::Layouts;
use std::alloc::{AllocError, Global};
use text_lines::{Separators, first_line, split_word, trimmed};

/// A text with other contents of its RAMs.
#[derive(Drop)]
pub struct Replaced {
    /// The text.
    pub bytes: Vec<u8>,
    /// For each column of the first file, to how many bit columns of RAMs it was equal.
    pub found: Vec<u32>,
}

/// The text in which each bit column of a RAM that is equal to a column of `from` is replaced by the column of the same index of `to`.
/// Everything else stays unchanged, including line ends. `icebram` calls [`replace_with`]: this is the short form, for users of the
/// library.
///
/// # Errors
/// The first cause in the order of [`BramFault`]; `BramFault::Memory` if memory is out.
pub fn replace(
    alloc: Global,
    asc: &[u8],
    from: &HexFile,
    to: &HexFile,
) -> Result<Replaced, BramFault>
    ensures bytes { IfOk result (λ answer. answer.bytes.items ≡ replaced asc.now from.now to.now no_modes) }
    ensures found { IfOk result (λ answer. answer.found.items ≡ found_in asc.now from.now no_modes) }
    ensures accepted { OnOk result (bram_fault asc.now from.now to.now ≡ None) }
    ensures refused { IfErr result (TellsBram (bram_fault asc.now from.now to.now)) }
{
    replace_with(alloc, asc, from, to, ReadModes::Ignored)
}

/// The text in which the RAMs are replaced as by [`replace`], each taken in its read mode if `modes` says so.
///
/// # Errors
/// As [`replace`].
///
/// # Example
/// ```ignore
/// let from = HexFile::read(alloc, from_text)?;
/// let to = HexFile::read(alloc, to_text)?;
/// if let Ok(answer) = replace_with(alloc, asc, &from, &to, ReadModes::Followed) {
///     out.extend_from_slice(answer.bytes.as_slice())?;
/// }
/// ```
pub fn replace_with(
    alloc: Global,
    asc: &[u8],
    from: &HexFile,
    to: &HexFile,
    modes: ReadModes,
) -> Result<Replaced, BramFault>
    ensures bytes { IfOk result (λ answer. answer.bytes.items ≡ replaced asc.now from.now to.now (modes_in modes (lines_of asc.now))) }
    ensures found { IfOk result (λ answer. answer.found.items ≡ found_in asc.now from.now (modes_in modes (lines_of asc.now))) }
    ensures accepted { OnOk result (bram_fault asc.now from.now to.now ≡ None) }
    ensures refused { IfErr result (TellsBram (bram_fault asc.now from.now to.now)) }
{
    if !have_one_shape(from, to) {
        return Err(BramFault::Shape);
    }
    let columns = Columns::of(alloc, from)?;
    let image = image_of(alloc, asc)?;
    let answer = replace_rams(alloc, asc, &image, modes, &columns, to)?;
    Ok(answer)
}

/// Whether two files are equal in their numbers of digits and of words.
fn have_one_shape(from: &HexFile, to: &HexFile) -> bool
    ensures { result ≡ ((from.now.digits == to.now.digits) && (length from.now.words == length to.now.words)) }
{
    from.digits() == to.digits() && from.word_count() == to.word_count()
}

/// The image that the text gives under the standard layouts.
fn image_of(alloc: Global, asc: &[u8]) -> Result<AnyImage, BramFault>
    ensures means { IfOk result (λ image. AscMeans standard_layouts asc.now (configuration_of image) (asc_symbols_of asc.now)) }
    ensures bits { IfOk result (λ image. HasBits asc.now (configuration_of image)) }
    ensures refused { IfErr result (TellsBram (text_fault (asc_fault_of standard_layouts asc.now))) }
{
    match read_image_with(alloc, asc, Layouts::standard()) {
        Ok(image) => Ok(image),
        Err(AscFault::Memory(e)) => Err(BramFault::Memory(e)),
        Err(AscFault::At { line, tile, cause }) => Err(BramFault::Asc(AscFault::At {
            line,
            tile,
            cause,
        })),
    }
}

/// Replaces the RAMs of a text that gives this image.
fn replace_rams(
    alloc: Global,
    asc: &[u8],
    image: &AnyImage,
    modes: ReadModes,
    columns: &Columns,
    to: &HexFile,
) -> Result<Replaced, AllocError>
    requires means { AscMeans standard_layouts asc.now (configuration_of image.now) (asc_symbols_of asc.now) }
    requires bits { HasBits asc.now (configuration_of image.now) }
    requires same { column_count to.now ≡ column_count columns.now.file.now }
    ensures bytes { IfOk result (λ answer. answer.bytes.items ≡ replaced asc.now columns.now.file.now to.now (modes_in modes (lines_of asc.now))) }
    ensures found { IfOk result (λ answer. answer.found.items ≡ found_in asc.now columns.now.file.now (modes_in modes (lines_of asc.now))) }
{
    let mut bytes = Vec::new(alloc);
    let mut found = vec![in alloc; 0; columns.count()]?;
    let mut left = asc;
    while let Some(line) = first_line(left) {
        bytes.extend_from_slice(line.whole)?;
        left = line.rest;
        if !is_ram_data(line.content) {
            left = append_others(&mut bytes, left)?;
            continue;
        }
        let mode = mode_of(modes, image, line.content);
        left = replace_ram(left, mode, columns, to, &mut bytes, &mut found)?;
    }
    Ok(Replaced { bytes, found })
}

/// Appends the lines up to the next statement of a RAM's contents, all at once, and returns the text after them.
fn append_others<'a>(bytes: &mut Vec<u8>, text: &'a [u8]) -> Result<&'a [u8], AllocError>
    ensures { IfOk result (λ rest. (passed : List ℕ) × Passes text.now passed rest.now × (bytes.new.items ≡ bytes.old.items ++ passed)) }
{
    let rest = from_ram(text);
    bytes.extend_from_slice(&text[..text.len() - rest.len()])?;
    Ok(rest)
}

/// The text from the next statement of a RAM's contents on, or an empty text if there is none.
fn from_ram(text: &[u8]) -> &[u8]
    ensures { (passed : List ℕ) × Passes text.now passed result.now }
{
    let mut left = text;
    while let Some(line) = first_line(left) {
        if is_ram_data(line.content) {
            return left;
        }
        left = line.rest;
    }
    left
}

/// Whether the line is the statement of a RAM's contents, in a text that can be read.
fn is_ram_data(line: &[u8]) -> bool
    ensures { result ≡ is_ram_line line.now }
{
    matches!(line, [b'.', ..]) && has_ram_keyword(trimmed(line))
}

/// Whether the first word is `.ram_data`.
fn has_ram_keyword(line: &[u8]) -> bool
    ensures { result ≡ bytes_eq (first_word Separators.Spaces line.now) ram_data_keyword }
{
    match split_word(Separators::Spaces, line) {
        None => false,
        Some((word, _)) => word == b".ram_data".as_slice(),
    }
}

/// Replaces the RAM in this mode whose lines begin the text, and returns the text after them.
fn replace_ram<'a>(
    text: &'a [u8],
    mode: u8,
    columns: &Columns,
    to: &HexFile,
    bytes: &mut Vec<u8>,
    found: &mut [u32],
) -> Result<&'a [u8], AllocError>
    requires begins { BeginsWithRam (lines_of text.now) }
    requires mode { mode < 4 }
    requires counts { length found.old ≡ column_count columns.now.file.now }
    requires same { column_count to.now ≡ column_count columns.now.file.now }
    requires room { (column : ℕ) → get_or found.old column 0 < 2 ^ 31 }
    ensures bytes { OnOk result (let before = ram_bits (lines_of text.now) in bytes.new.items ≡ bytes.old.items
        ++ gathered_below 16 (λ row. memory_line_with before (bits_after columns.now.file.now to.now mode before) row (line_at (whole_lines_of text.now) row))) }
    ensures found { (column : ℕ) → column < column_count columns.now.file.now → get_or found.new column 0
        ≡ get_or found.old column 0 + length (columns_found columns.now.file.now (by_columns mode (ram_bits (lines_of text.now))) column) }
    ensures lines { IfOk result (λ left. lines_of left.now ≡ drop 16 (lines_of text.now)) }
    ensures whole_lines { IfOk result (λ left. whole_lines_of left.now ≡ drop 16 (whole_lines_of text.now)) }
{
    let old = ram_bits(text);
    let mut new = old;
    replace_in_mode(&mut new, mode, columns, to, found);
    append_lines(bytes, text, &old, &new)
}
