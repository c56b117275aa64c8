// The statement `.extra_cell` of a PLL, and the lines below it.
ghost use Rattle.std.specs.Prelude.{◌≡◌, ◌∷◌, [], List, MatchOption, None, Some};
ghost use Rattle.text_lines.specs.Words.{numbers_of};
ghost use Rattle.plane_map.specs.declared.tile.RowCol.{RowCol as Bit};
ghost use Rattle.chipdb_lines.specs.Words.{words_in};
ghost use Rattle.chipdb_lines.specs.Statements.{cell_of_kind, extra_cell_of, pll_of_numbers};
ghost use Rattle.chipdb_lines.specs.Items.{pll_line_of, pll_line_of_numbers};
ghost use Rattle.chipdb_lines.specs.Kept.{block_named, pll_line_named, AddsBelow};

use crate::statements::Below;
use text_lines::{Separators, number, one_word, split_word};

/// A line below the statement of a PLL: the name of a part, a place, and a word that says what the part is there.
#[derive(Clone, Copy, Debug)]
pub struct PllItem<'a> {
    pub name: &'a [u8],
    pub x: u32,
    pub y: u32,
    pub word: &'a [u8],
}

/// Reads the words `X Y PLL` of `.extra_cell`. With other words the lines below it are skipped.
#[tactic(auto, unfolding(crate::specs::Statements::extra_cell_of))]
pub(crate) fn extra_cell(words: &[u8]) -> Below
    ensures says { (bits : List (List Bit)) → block_named bits result ≡ extra_cell_of (words_in words.now) }
    ensures added { (bits : List (List Bit)) → AddsBelow bits bits result }
{
    match split_word(Separators::SpacesAndTabs, words) {
        None => Below::Passed,
        Some((x, after)) => cell_in_column(x, after),
    }
}

/// Reads the words `Y PLL`, which follow the word `X`.
#[tactic(auto, unfolding(crate::specs::Statements::extra_cell_of))]
fn cell_in_column(x: &[u8], words: &[u8]) -> Below
    ensures says { (bits : List (List Bit)) → block_named bits result ≡ extra_cell_of (x.now ∷ words_in words.now) }
    ensures added { (bits : List (List Bit)) → AddsBelow bits bits result }
{
    match split_word(Separators::SpacesAndTabs, words) {
        None => Below::Passed,
        Some((y, after)) => cell_at(x, y, after),
    }
}

/// Reads the words `PLL`, which follow the words `X` and `Y`.
#[tactic(auto, unfolding(crate::specs::Statements::extra_cell_of))]
fn cell_at(x: &[u8], y: &[u8], words: &[u8]) -> Below
    ensures says { (bits : List (List Bit)) → block_named bits result ≡ extra_cell_of (x.now ∷ y.now ∷ words_in words.now) }
    ensures added { (bits : List (List Bit)) → AddsBelow bits bits result }
{
    match one_word(Separators::SpacesAndTabs, words) {
        None => Below::Passed,
        Some(kind) => cell_of_kind(x, y, kind),
    }
}

/// Reads the words X and Y of a cell of a kind.
fn cell_of_kind(x: &[u8], y: &[u8], kind: &[u8]) -> Below
    ensures says { (bits : List (List Bit)) → block_named bits result ≡ cell_of_kind x.now y.now kind.now }
    ensures added { (bits : List (List Bit)) → AddsBelow bits bits result }
{
    if kind == b"PLL".as_slice() {
        pll_at(x, y)
    } else {
        Below::Passed
    }
}

/// The lines below the statement of a PLL, if the words X and Y are numbers.
#[tactic(auto, unfolding(text_lines::specs::Words::numbers_of))]
fn pll_at(x: &[u8], y: &[u8]) -> Below
    ensures says { (bits : List (List Bit)) → block_named bits result ≡ pll_of_numbers (numbers_of (x.now ∷ y.now ∷ [])) }
    ensures added { (bits : List (List Bit)) → AddsBelow bits bits result }
{
    match number(x) {
        None => Below::Passed,
        Some(x) => match number(y) {
            None => Below::Passed,
            Some(y) => Below::Pll(x, y),
        },
    }
}

/// Reads the words `NAME X Y WORD` of a line below the statement of a PLL. `None` for a line of another form, which says nothing.
#[tactic(auto, unfolding(crate::specs::Items::pll_line_of))]
pub fn pll_item(words: &[u8]) -> Option<PllItem<'_>>
    ensures { MatchOption result (pll_line_of (words_in words.now) ≡ None)
        (λ item. pll_line_of (words_in words.now) ≡ Some (pll_line_named item)) }
{
    match split_word(Separators::SpacesAndTabs, words) {
        None => None,
        Some((name, after)) => item_named(name, after),
    }
}

/// Reads the words `X Y WORD`, which follow the word `NAME`.
#[tactic(auto, unfolding(crate::specs::Items::pll_line_of))]
fn item_named<'a>(name: &'a [u8], words: &'a [u8]) -> Option<PllItem<'a>>
    ensures { MatchOption result (pll_line_of (name.now ∷ words_in words.now) ≡ None)
        (λ item. pll_line_of (name.now ∷ words_in words.now) ≡ Some (pll_line_named item)) }
{
    match split_word(Separators::SpacesAndTabs, words) {
        None => None,
        Some((x, after)) => item_in_column(name, x, after),
    }
}

/// Reads the words `Y WORD`, which follow the words `NAME` and `X`.
#[tactic(auto, unfolding(crate::specs::Items::pll_line_of))]
fn item_in_column<'a>(name: &'a [u8], x: &[u8], words: &'a [u8]) -> Option<PllItem<'a>>
    ensures { MatchOption result (pll_line_of (name.now ∷ x.now ∷ words_in words.now) ≡ None)
        (λ item. pll_line_of (name.now ∷ x.now ∷ words_in words.now) ≡ Some (pll_line_named item)) }
{
    match split_word(Separators::SpacesAndTabs, words) {
        None => None,
        Some((y, after)) => item_at(name, x, y, after),
    }
}

/// Reads the words `WORD`, which follow the words `NAME`, `X` and `Y`.
#[tactic(auto, unfolding(crate::specs::Items::pll_line_of))]
fn item_at<'a>(name: &'a [u8], x: &[u8], y: &[u8], words: &'a [u8]) -> Option<PllItem<'a>>
    ensures { MatchOption result (pll_line_of (name.now ∷ x.now ∷ y.now ∷ words_in words.now) ≡ None)
        (λ item. pll_line_of (name.now ∷ x.now ∷ y.now ∷ words_in words.now) ≡ Some (pll_line_named item)) }
{
    match one_word(Separators::SpacesAndTabs, words) {
        None => None,
        Some(word) => item_with(name, x, y, word),
    }
}

/// The line of four words, if X and Y are numbers.
#[tactic(auto, unfolding(text_lines::specs::Words::numbers_of))]
fn item_with<'a>(name: &'a [u8], x: &[u8], y: &[u8], word: &'a [u8]) -> Option<PllItem<'a>>
    ensures { MatchOption result (pll_line_of_numbers name.now word.now (numbers_of (x.now ∷ y.now ∷ [])) ≡ None)
        (λ item. pll_line_of_numbers name.now word.now (numbers_of (x.now ∷ y.now ∷ [])) ≡ Some (pll_line_named item)) }
{
    match number(x) {
        None => None,
        Some(x) => match number(y) {
            None => None,
            Some(y) => Some(PllItem { name, x, y, word }),
        },
    }
}
