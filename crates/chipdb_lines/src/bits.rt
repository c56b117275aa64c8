// Bits of tiles: words such as `B1[36]`, and a table of lists of them.
ghost use Rattle.std.specs.Prelude.{◌≡◌, ◌≤◌, ◌<◌, ◌-◌, ◌^◌, ◌++◌, ◌∷◌, [], ℕ, List, ◌&&◌, ◌==◌, get_or, nat_lt, length, true, false, IfOk, IfSome, MatchOption, MatchResult, position, Some, None, if◌then◌else◌, is_some, OnErr, OnOk};
ghost use Rattle.std.specs.Bool.{MatchBool};
ghost use Rattle.std.specs.List.{position_or_len, before_first, after_first};
ghost use Rattle.std.specs.Result.{result_err};
ghost use Rattle.plane_map.specs.declared.tile.RowCol.{RowCol as Bit};
ghost use Rattle.chipdb_lines.specs.Words.{bit_by, bit_of, bits_of, is_bracket, words_in};
ghost use Rattle.chipdb_lines.specs.Statements.{is_in_columns, tile_bits_of};
ghost use Rattle.chipdb_lines.specs.Spans.{bits_in, AddsSpan, Extends, IsSpanOf};
ghost use Rattle.chipdb_lines.specs.Kept.{bits_named, AddsList, NamesBit, Reports, StartsWithWord, Tells};
ghost use Rattle.text_lines.specs.Words.{number_of};
ghost use Rattle.chipdb_lines.specs.declared.cause.DbCause.TheVariants.{BitName, BitRange};

use crate::cause::{DbCause, DbLineRefusal};
use plane_map::RowCol;
use std::alloc::{AllocError, Global};
use std::marker::Model;
use text_lines::{Separators, number, number_before, split_word};

/// A list of bits in a table, by its index in the table, counted from 0.
#[derive(Clone, Copy, Debug, PartialEq, Eq)]
pub struct BitList {
    place: u32,
}

/// Where the bits of a list are.
#[derive(Clone, Copy, Debug)]
struct Span {
    start: usize,
    count: u8,
}

/// Lists of bits in the order in which they were added; in contracts, the list of these lists.
#[derive(Drop)]
pub struct BitTable {
    bits: Vec<RowCol>,
    spans: Vec<Span>,
}

impl Model for BitTable {
    ghost use Rattle.std.specs.Prelude.{List, ◌^◌, ◌<◌, length, map, All};
    ghost use Rattle.plane_map.specs.declared.tile.RowCol.{RowCol as Bit};
    ghost use Rattle.chipdb_lines.specs.Spans.{bits_in, IsSpanOf};

    ghost Value = { List (List Bit) };

    ghost view = { λ table. map (bits_in table.bits.items) table.spans.items };

    ghost invariant = { λ table. (length table.spans.items < 2 ^ 32)
        × All (IsSpanOf (length table.bits.items)) table.spans.items };
}

impl BitTable {
    /// A table without lists. It takes no memory yet.
    pub fn new(alloc: Global) -> BitTable
        ensures { result ≡ [] }
    {
        BitTable {
            bits: Vec::new(alloc),
            spans: Vec::new(alloc),
        }
    }

    /// The bits of a list. Empty if the list is one of another table and has no place in this one.
    pub fn get(&self, list: BitList) -> &[RowCol]
        ensures bits { result.now ≡ bits_named self.now list }
        ensures few { length result.now ≤ 64 }
    {
        match self.spans.get(list.place as usize) {
            None => &[],
            Some(span) => bits_of(&self.bits, *span),
        }
    }

    /// Adds the list of the bits that the words name. These are at most 64 bits of a tile with `columns` columns of bits. After an error
    /// the table is as it was.
    pub(crate) fn add(&mut self, columns: usize, words: &[u8]) -> Result<BitList, DbLineRefusal>
        requires columns { columns ≤ 256 }
        requires room { length self.old < 2 ^ 32 - 1 }
        ensures added { IfOk result (AddsList self.old self.new) }
        ensures named { Tells (tile_bits_of columns (words_in words.now)) (bits_named self.new) result }
        ensures unchanged { OnErr result (self.new ≡ self.old) }
    {
        let place = self.spans.len() as u32;
        let span = push_bits(&mut self.bits, columns, words)?;
        push_span(&mut self.spans, span)?;
        Ok(BitList { place })
    }

    /// Removes the list that was added last.
    pub(crate) fn remove_last(&mut self)
        ensures { (lists : List (List Bit)) (last : List Bit) → self.old ≡ lists ++ last ∷ [] → self.new ≡ lists }
    {
        let _ = self.spans.pop();
    }
}

/// Adds a span.
fn push_span(spans: &mut Vec<Span>, span: Span) -> Result<(), AllocError>
    ensures pushed { OnOk result (spans.new.items ≡ spans.old.items ++ span ∷ []) }
    ensures unchanged { OnErr result (spans.new.items ≡ spans.old.items) }
{
    spans.push(span).map_err(AllocError::from)
}

/// The bits of a span.
fn bits_of(bits: &[RowCol], span: Span) -> &[RowCol]
    requires { IsSpanOf (length bits.now) span }
    ensures { result.now ≡ bits_in bits.now span }
{
    let rest = &bits[span.start..];
    &rest[..span.count as usize]
}

/// Adds the bits that the words name to a table. These are at most 64 bits of a tile with `columns` columns of bits. After an error the
/// table is as it was.
fn push_bits(bits: &mut Vec<RowCol>, columns: usize, words: &[u8]) -> Result<Span, DbLineRefusal>
    requires { columns ≤ 256 }
    ensures added { IfOk result (AddsSpan bits.old.items bits.new.items) }
    ensures named { Tells (tile_bits_of columns (words_in words.now)) (bits_in bits.new.items) result }
    ensures unchanged { OnErr result (bits.new.items ≡ bits.old.items) }
{
    let start = bits.len();
    let span = push_each(bits, columns, words);
    if span.is_err() {
        bits.truncate(start);
    }
    span
}

/// Adds the bits that the words name, one by one, to a table. After an error some of the bits may have been added.
#[tactic(auto, unfolding(crate::specs::Statements::tile_bits_of))]
fn push_each(bits: &mut Vec<RowCol>, columns: usize, words: &[u8]) -> Result<Span, DbLineRefusal>
    requires { columns ≤ 256 }
    ensures grown { Extends bits.old.items bits.new.items }
    ensures added { IfOk result (AddsSpan bits.old.items bits.new.items) }
    ensures named { Tells (tile_bits_of columns (words_in words.now)) (bits_in bits.new.items) result }
{
    let start = bits.len();
    let mut left = words;
    while let Some(next) = next_bit(left) {
        if !push_bit(bits, columns, next.bit)? {
            return Err(DbLineRefusal::Cause(cause_before(next.rest)));
        }
        left = next.rest;
    }
    let count = bits.len() - start;
    if count <= 64 {
        Ok(Span {
            start,
            count: count as u8,
        })
    } else {
        Err(DbLineRefusal::Cause(DbCause::CellBits))
    }
}

/// Adds the bit that a word names to a table, and returns whether it is a bit of the tile. Adds nothing if the word names no such bit.
fn push_bit(
    bits: &mut Vec<RowCol>,
    columns: usize,
    bit: Option<(u32, u32)>,
) -> Result<bool, DbLineRefusal>
    requires { columns ≤ 256 }
    ensures named { (word : List ℕ) → NamesBit word bit → MatchResult result
        (λ is_there. MatchBool is_there
        ((bit : RowCol) × (bit_of word ≡ Some bit) × (is_in_columns columns bit ≡ true) × (bits.new.items ≡ bits.old.items ++ bit ∷ []))
        ((bit : RowCol) × (bit_of word ≡ Some bit) × (is_in_columns columns bit ≡ false) × (bits.new.items ≡ bits.old.items)))
        (λ refusal. Reports (if is_some (bit_of word) then None else Some BitName) refusal) }
    ensures unchanged { OnErr result (bits.new.items ≡ bits.old.items) }
{
    match bit {
        None => Err(DbLineRefusal::Cause(DbCause::BitName)),
        Some((row, col)) if row < 16 && (col as usize) < columns => {
            bits.push(RowCol {
                row: row as u8,
                col: col as u8,
            })
            .map_err(AllocError::from)?;
            Ok(true)
        }
        Some(_) => Ok(false),
    }
}

/// The row and column that a word names, if it names a bit, and what follows the word.
#[derive(Clone, Copy)]
struct NextBit<'a> {
    bit: Option<(u32, u32)>,
    rest: &'a [u8],
}

/// The bit that the next word names, or `None` if there is no word.
fn next_bit(words: &[u8]) -> Option<NextBit<'_>>
    ensures words { MatchOption result (words_in words.now ≡ []) (λ next. StartsWithWord (words_in words.now) next.bit (words_in next.rest.now)) }
    ensures shorter { IfSome result (λ next. length next.rest.now < length words.now) }
{
    match usual_bit(words) {
        Some(next) => Some(next),
        None => spaced_bit(words),
    }
}

/// A fast path of `next_bit` for the usual form: at most one space before the word, and one space or the end after it. `None` for any other
/// form, and for a word that names no bit.
fn usual_bit(words: &[u8]) -> Option<NextBit<'_>>
    ensures words { IfSome result (λ next. StartsWithWord (words_in words.now) next.bit (words_in next.rest.now)) }
    ensures shorter { IfSome result (λ next. length next.rest.now < length words.now) }
{
    match words {
        [b' ', after @ ..] => bit_after_space(after),
        _ => bit_in_front(words),
    }
}

/// The fast path after the space before the word.
fn bit_after_space(words: &[u8]) -> Option<NextBit<'_>>
    ensures words { IfSome result (λ next. StartsWithWord (words_in (32 ∷ words.now)) next.bit (words_in next.rest.now)) }
    ensures shorter { IfSome result (λ next. length next.rest.now < length words.now) }
{
    bit_in_front(words)
}

/// The fast path for a text that begins with the word.
fn bit_in_front(words: &[u8]) -> Option<NextBit<'_>>
    ensures words { IfSome result (λ next. StartsWithWord (words_in words.now) next.bit (words_in next.rest.now)) }
    ensures shorter { IfSome result (λ next. length next.rest.now < length words.now) }
{
    match words {
        [b'B', after @ ..] => bit_after(after),
        _ => None,
    }
}

/// The fast path after the `B` of the word.
fn bit_after(words: &[u8]) -> Option<NextBit<'_>>
    ensures words { IfSome result (λ next. StartsWithWord (words_in (66 ∷ words.now)) next.bit (words_in next.rest.now)) }
    ensures shorter { IfSome result (λ next. length next.rest.now < length words.now) }
{
    let (row, after) = number_before(b'[', words)?;
    let (col, rest) = number_before(b']', after)?;
    if ends_word(rest) {
        Some(NextBit {
            bit: Some((row, col)),
            rest,
        })
    } else {
        None
    }
}

/// Whether a word ends before this text: the text is empty or begins with a space.
fn ends_word(rest: &[u8]) -> bool
    ensures { result ≡ (get_or rest.now 0 32 == 32) }
{
    match rest {
        [] => true,
        [byte, ..] => *byte == b' ',
    }
}

/// The bit that the next word names, with any separators.
fn spaced_bit(words: &[u8]) -> Option<NextBit<'_>>
    ensures words { MatchOption result (words_in words.now ≡ []) (λ next. StartsWithWord (words_in words.now) next.bit (words_in next.rest.now)) }
    ensures shorter { IfSome result (λ next. length next.rest.now < length words.now) }
{
    match split_word(Separators::SpacesAndTabs, words) {
        None => None,
        Some((word, rest)) => Some(NextBit {
            bit: bit_of(word),
            rest,
        }),
    }
}

/// What is wrong with a line that has a bit outside of the tile before these words. A word that names no bit takes precedence.
fn cause_before(words: &[u8]) -> DbCause
    ensures { result ≡ (if is_some (bits_of (words_in words.now)) then BitRange else BitName) }
{
    let mut left = words;
    while let Some((word, rest)) = split_word(Separators::SpacesAndTabs, left) {
        if bit_of(word).is_none() {
            return DbCause::BitName;
        }
        left = rest;
    }
    DbCause::BitRange
}

/// The row and the column that a word names.
#[tactic(auto, unfolding(crate::specs::Words::bit_of))]
fn bit_of(word: &[u8]) -> Option<(u32, u32)>
    ensures { MatchOption result (bit_of word.now ≡ None) (λ bit. bit_of word.now ≡ Some (record { row = bit.0; col = bit.1 })) }
{
    let length = word.len();
    if 2 <= length && word[0] == b'B' && word[length - 1] == b']' {
        bit_in(&word[1..length - 1])
    } else {
        None
    }
}

/// The row before the first `[` and the column after it.
fn bit_in(inside: &[u8]) -> Option<(u32, u32)>
    ensures { MatchOption result
        (bit_by (number_of (before_first is_bracket inside.now)) (number_of (after_first is_bracket inside.now)) ≡ None)
        (λ bit. bit_by (number_of (before_first is_bracket inside.now)) (number_of (after_first is_bracket inside.now)) ≡ Some (record { row = bit.0; col = bit.1 })) }
{
    let place = bracket_place(inside)?;
    match (number(&inside[..place]), number(&inside[place + 1..])) {
        (Some(row), Some(col)) => Some((row, col)),
        _ => None,
    }
}

/// The index of the first `[`.
fn bracket_place(inside: &[u8]) -> Option<usize>
    ensures { result ≡ position is_bracket inside.now }
{
    inside.iter().position(|byte| *byte == b'[')
}
