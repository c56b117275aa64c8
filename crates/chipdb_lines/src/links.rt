// The statements `.buffer` and `.routing`, and their lines. A line in its usual form, the values, a space, a number and LF, is taken straight
// from the text (`choice_line`). That is there for speed alone: the clauses of `read` would hold without it.
ghost use Rattle.std.specs.Prelude.{◌≡◌, ◌≤◌, ◌<◌, ◌-◌, ◌^◌, ◌∷◌, ◌++◌, ◌==◌, ◌&&◌, ◌||◌, get_or, length, nat_lt, IfOk, IfSome, MatchOption, OnErr, false};
ghost use Rattle.std.specs.Bool.{OnTrue};
ghost use Rattle.std.specs.List.{list_all};
ghost use Rattle.plane_map.specs.Layout.{kind_of};
ghost use Rattle.chipdb_lines.specs.Words.{has_none, is_values, words_in};
ghost use Rattle.chipdb_lines.specs.Statements.{link_at, link_of_words};
ghost use Rattle.chipdb_lines.specs.Items.{choice_by, choice_of};
ghost use Rattle.chipdb_lines.specs.Kept.{choice_named, head_named, AddsHead, HasChoice, IsChoiceLine, Reads, Tells, WritesValues};

use crate::bits::{BitList, BitTable};
use crate::cause::{DbCause, DbLineRefusal};
use crate::chip::Chip;
use crate::words::has_no_word;
use plane_map::{TileKind, kind_on, tile_width};
use text_lines::{Separators, number, number_before, one_word, split_word};

/// A statement of links: the tile, the net that they drive, and the bits that choose among them.
#[derive(Clone, Copy, Debug, PartialEq, Eq)]
pub struct LinkHead {
    pub x: u8,
    pub y: u8,
    pub dst: u32,
    pub bits: BitList,
    /// How many bits there are in the list.
    pub count: u8,
}

/// One line of such a statement: the source net, and the values of the bits that choose it. The value of the first bit is the lowest bit of
/// the number.
#[derive(Clone, Copy, Debug, PartialEq, Eq)]
pub struct Choice {
    pub src: u32,
    pub values: u64,
}

/// Reads the words `X Y DST BIT ...`, and adds the list of the bits to the table.
pub(crate) fn link_head(
    chip: Chip,
    words: &[u8],
    bits: &mut BitTable,
) -> Result<LinkHead, DbLineRefusal>
    requires { length bits.old < 2 ^ 32 - 1 }
    ensures unchanged { OnErr result (bits.new ≡ bits.old) }
    ensures added { IfOk result (AddsHead bits.old bits.new) }
    ensures says { Tells (link_of_words chip (words_in words.now)) (head_named bits.new) result }
{
    match usual_head(words) {
        Some(head) => link_into(chip, head.x, head.y, head.dst, head.bits, bits),
        None => spaced_head(chip, words, bits),
    }
}

/// A tile, a net, and the words of at least one bit.
#[derive(Clone, Copy)]
struct UsualHead<'a> {
    x: u32,
    y: u32,
    dst: u32,
    bits: &'a [u8],
}

/// A fast path for the usual form of `X Y DST BIT ...`: exactly one space before each of the first three words, and one after them. `None`
/// for any other form, and for words that are refused.
fn usual_head(words: &[u8]) -> Option<UsualHead<'_>>
    ensures { IfSome result (λ head. (chip : Chip)
        → link_of_words chip (words_in words.now) ≡ link_at chip.nets head.x head.y head.dst (kind_of chip.device head.x head.y) (words_in head.bits.now)) }
{
    match words {
        [b' ', after @ ..] => head_after_space(after),
        _ => None,
    }
}

/// The fast path after the first space.
fn head_after_space(words: &[u8]) -> Option<UsualHead<'_>>
    ensures { IfSome result (λ head. (chip : Chip)
        → link_of_words chip (words_in (32 ∷ words.now)) ≡ link_at chip.nets head.x head.y head.dst (kind_of chip.device head.x head.y) (words_in head.bits.now)) }
{
    let (x, after) = number_before(b' ', words)?;
    let (y, after) = number_before(b' ', after)?;
    let (dst, bits) = number_before(b' ', after)?;
    if has_no_word(bits) {
        None
    } else {
        Some(UsualHead { x, y, dst, bits })
    }
}

/// Reads the words `X Y DST BIT ...`, with any separators.
#[tactic(auto, unfolding(crate::specs::Statements::link_of_words, text_lines::specs::Words::numbers_of))]
fn spaced_head(chip: Chip, words: &[u8], bits: &mut BitTable) -> Result<LinkHead, DbLineRefusal>
    requires { length bits.old < 2 ^ 32 - 1 }
    ensures unchanged { OnErr result (bits.new ≡ bits.old) }
    ensures added { IfOk result (AddsHead bits.old bits.new) }
    ensures says { Tells (link_of_words chip (words_in words.now)) (head_named bits.new) result }
{
    match head_words(words) {
        None => Err(DbLineRefusal::Cause(DbCause::Number)),
        Some(head) => match (number(head.x), number(head.y), number(head.dst)) {
            (Some(x), Some(y), Some(dst)) => link_into(chip, x, y, dst, head.bits, bits),
            _ => Err(DbLineRefusal::Cause(DbCause::Number)),
        },
    }
}

/// The words of a statement of links.
#[derive(Clone, Copy)]
struct HeadWords<'a> {
    x: &'a [u8],
    y: &'a [u8],
    dst: &'a [u8],
    /// The words of at least one bit.
    bits: &'a [u8],
}

/// Splits the words `X`, `Y` and `DST` from the words of at least one bit.
#[tactic(auto, using(crate::proofs::Heads::link_without_bits), unfolding(crate::specs::Statements::link_of_words))]
fn head_words(words: &[u8]) -> Option<HeadWords<'_>>
    ensures { MatchOption result ((chip : Chip) → link_of_words chip (words_in words.now) ≡ Err DbCause.Number)
        (λ head. (words_in words.now ≡ head.x.now ∷ head.y.now ∷ head.dst.now ∷ words_in head.bits.now)
        × (has_none (words_in head.bits.now) ≡ false)) }
{
    let (x, after) = split_word(Separators::SpacesAndTabs, words)?;
    let (y, after) = split_word(Separators::SpacesAndTabs, after)?;
    let (dst, bits) = split_word(Separators::SpacesAndTabs, after)?;
    if has_no_word(bits) {
        None
    } else {
        Some(HeadWords { x, y, dst, bits })
    }
}

/// The statement of links into a net of the tile at (x, y), with the words of its bits.
#[tactic(auto, using(crate::proofs::Heads::columns_small))]
fn link_into(
    chip: Chip,
    x: u32,
    y: u32,
    dst: u32,
    words: &[u8],
    bits: &mut BitTable,
) -> Result<LinkHead, DbLineRefusal>
    requires { length bits.old < 2 ^ 32 - 1 }
    ensures unchanged { OnErr result (bits.new ≡ bits.old) }
    ensures added { IfOk result (AddsHead bits.old bits.new) }
    ensures says { Tells (link_at chip.nets x y dst (kind_of chip.device x y) (words_in words.now)) (head_named bits.new) result }
{
    match kind_on(chip.device, x, y) {
        None => Err(DbLineRefusal::Cause(DbCause::TileKind)),
        Some(kind) if dst < chip.nets => {
            let list = bits.add(tile_width(kind), words)?;
            Ok(LinkHead {
                x: x as u8,
                y: y as u8,
                dst,
                bits: list,
                count: bits.get(list).len() as u8,
            })
        }
        Some(_) => Err(DbLineRefusal::Cause(DbCause::NetRange)),
    }
}

/// Reads the words `VALUES SRC` of a line below a statement of links with `count` bits.
///
/// # Errors
/// `Number` if there aren't two words, the second a number; else `NetRange` if the device has no net SRC; else `ValueLength` if VALUES
/// isn't one `0` or `1` for each bit.
#[tactic(auto, unfolding(crate::specs::Items::choice_of))]
pub fn choice_item(nets: u32, count: usize, words: &[u8]) -> Result<Choice, DbCause>
    requires { count ≤ 64 }
    ensures says { Reads (choice_of nets count (words_in words.now)) (choice_named count) result }
    ensures small { IfOk result (λ choice. choice.values < 2 ^ count) }
{
    match split_word(Separators::SpacesAndTabs, words) {
        None => Err(DbCause::Number),
        Some((values, after)) => match one_word(Separators::SpacesAndTabs, after) {
            None => Err(DbCause::Number),
            Some(src) => choice_by(nets, count, values, number(src)),
        },
    }
}

/// A line of a statement of links at the front of a text, and what follows it.
#[derive(Clone, Copy, Debug)]
pub struct ChoiceLine<'a> {
    pub choice: Choice,
    /// The text after the line and its LF.
    pub rest: &'a [u8],
}

/// A fast path for the usual form of a line `VALUES SRC` at the front of a text: one space between the two words, and LF right after them.
/// `None` for any other form, and for a line that is refused. It looks no further than this line.
pub fn choice_line(nets: u32, count: usize, text: &[u8]) -> Option<ChoiceLine<'_>>
    requires { count ≤ 64 }
    ensures { MatchOption result (HasChoice nets count text.now → ⊥) (IsChoiceLine nets count text.now) }
{
    if has_space_after(count, text) {
        after_values(nets, &text[..count], &text[count + 1..])
    } else {
        None
    }
}

/// Whether there is a space after the first `count` bytes, and `count` isn't 0.
fn has_space_after(count: usize, text: &[u8]) -> bool
    ensures is { result ≡ (nat_lt 0 count && nat_lt count (length text.now) && (get_or text.now count 0 == 32)) }
    ensures inside { OnTrue result ((0 < count) × (count < length text.now) × (get_or text.now count 0 ≡ 32)) }
{
    0 < count && count < text.len() && text[count] == b' '
}

/// The fast path after the values and the space.
fn after_values<'a>(nets: u32, values: &[u8], text: &'a [u8]) -> Option<ChoiceLine<'a>>
    requires some { 0 < length values.now }
    requires few { length values.now ≤ 64 }
    ensures { MatchOption result (HasChoice nets (length values.now) (values.now ++ (32 ∷ text.now)) → ⊥)
        (IsChoiceLine nets (length values.now) (values.now ++ (32 ∷ text.now))) }
{
    let (src, rest) = number_before(b'\n', text)?;
    let values = values_in(values)?;
    if src < nets {
        Some(ChoiceLine {
            choice: Choice { src, values },
            rest,
        })
    } else {
        None
    }
}

/// The choice that the word `VALUES` and the number SRC make.
fn choice_by(nets: u32, count: usize, values: &[u8], src: Option<u32>) -> Result<Choice, DbCause>
    requires { count ≤ 64 }
    ensures says { Reads (choice_by nets count values.now src) (choice_named count) result }
    ensures small { IfOk result (λ choice. choice.values < 2 ^ count) }
{
    match src {
        None => Err(DbCause::Number),
        Some(src) if src < nets => match values_of(count, values) {
            None => Err(DbCause::ValueLength),
            Some(values) => Ok(Choice { src, values }),
        },
        Some(_) => Err(DbCause::NetRange),
    }
}

/// The values that a word has, if it has one for each of `count` bits.
fn values_of(count: usize, word: &[u8]) -> Option<u64>
    requires { count ≤ 64 }
    ensures { MatchOption result (is_values count word.now ≡ false)
        (λ values. (length word.now ≡ count) × WritesValues word.now values) }
{
    if word.len() == count {
        values_in(word)
    } else {
        None
    }
}

/// The number that a word of `0` and `1` writes, the lowest bit first. `None` if a byte is neither `0` nor `1`.
fn values_in(word: &[u8]) -> Option<u64>
    requires { length word.now ≤ 64 }
    ensures { MatchOption result (list_all (λ byte. (byte == 48) || (byte == 49)) word.now ≡ false) (WritesValues word.now) }
{
    let mut values = 0;
    let mut left = word.len();
    while 0 < left {
        left -= 1;
        let byte = word[left];
        if !is_value(byte) {
            return None;
        }
        values = 2 * values + u64::from(byte - b'0');
    }
    Some(values)
}

/// Whether a byte is `0` or `1`.
fn is_value(byte: u8) -> bool
    ensures { result ≡ ((byte == 48) || (byte == 49)) }
{
    byte == b'0' || byte == b'1'
}
