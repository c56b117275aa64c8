// Lines of the statement `.net`. A line in its usual form is taken straight from the text (`usual_name`). That is there for speed alone.
ghost use Rattle.std.specs.Prelude.{◌≡◌, ◌∷◌, ℕ, ◌&&◌, not, nat_lt, length, IfSome, Ok};
ghost use Rattle.std.specs.List.{list_all};
ghost use Rattle.text_lines.specs.Lines.{is_blank};
ghost use Rattle.chipdb_lines.specs.Words.{words_in};
ghost use Rattle.chipdb_lines.specs.Items.{name_of};
ghost use Rattle.chipdb_lines.specs.Kept.{name_named, Reads};

use crate::cause::DbCause;
use crate::kinds::is_in_grid;
use plane_map::DeviceName;
use text_lines::{Separators, is_blank, number, number_before, one_word, split_word};

/// A name of a net at a place of the grid.
#[derive(Clone, Copy, Debug)]
pub struct NameItem<'a> {
    pub x: u8,
    pub y: u8,
    pub name: &'a [u8],
}

/// Reads the words `X Y NAME` of a line of `.net`.
///
/// # Errors
/// `Number` if the words aren't two numbers and a name, or (X, Y) is outside of the grid.
pub fn name_item(device: DeviceName, words: &[u8]) -> Result<NameItem<'_>, DbCause>
    ensures { (net : ℕ) → Reads (name_of device net (words_in words.now)) (name_named net) result }
{
    match usual_name(device, words) {
        Some(item) => Ok(item),
        None => spaced_name(device, words),
    }
}

/// A fast path of `name_item` for the usual form, with exactly one space between two words and no other separator. `None` for any other
/// form, and for words that are refused.
fn usual_name(device: DeviceName, words: &[u8]) -> Option<NameItem<'_>>
    ensures { IfSome result (λ item. (net : ℕ) → name_of device net (words_in words.now) ≡ Ok (name_named net item)) }
{
    let (x, after) = number_before(b' ', words)?;
    let (y, name) = number_before(b' ', after)?;
    if is_in_grid(device, x, y) && is_one_word(name) {
        Some(NameItem {
            x: x as u8,
            y: y as u8,
            name,
        })
    } else {
        None
    }
}

/// Whether this is exactly one word: at least one byte, and no space or tab.
fn is_one_word(name: &[u8]) -> bool
    ensures { result ≡ (nat_lt 0 (length name.now) && list_all (λ byte. not (is_blank byte)) name.now) }
{
    0 < name.len() && has_no_blank(name)
}

/// Whether no byte is a space or a tab.
fn has_no_blank(name: &[u8]) -> bool
    ensures { result ≡ list_all (λ byte. not (is_blank byte)) name.now }
{
    name.iter().all(|byte| !is_blank(*byte))
}

/// Reads the words `X Y NAME`, with any separators.
#[tactic(auto, unfolding(crate::specs::Items::name_of))]
fn spaced_name(device: DeviceName, words: &[u8]) -> Result<NameItem<'_>, DbCause>
    ensures { (net : ℕ) → Reads (name_of device net (words_in words.now)) (name_named net) result }
{
    match split_word(Separators::SpacesAndTabs, words) {
        None => Err(DbCause::Number),
        Some((x, after)) => name_in_column(device, x, after),
    }
}

/// Reads the words `Y NAME`, which follow the word `X`.
#[tactic(auto, unfolding(crate::specs::Items::name_of))]
fn name_in_column<'a>(
    device: DeviceName,
    x: &[u8],
    words: &'a [u8],
) -> Result<NameItem<'a>, DbCause>
    ensures { (net : ℕ) → Reads (name_of device net (x.now ∷ words_in words.now)) (name_named net) result }
{
    match split_word(Separators::SpacesAndTabs, words) {
        None => Err(DbCause::Number),
        Some((y, after)) => name_at(device, x, y, after),
    }
}

/// Reads the words `NAME`, which follow the words `X` and `Y`.
#[tactic(auto, unfolding(crate::specs::Items::name_of, text_lines::specs::Words::numbers_of))]
fn name_at<'a>(
    device: DeviceName,
    x: &[u8],
    y: &[u8],
    words: &'a [u8],
) -> Result<NameItem<'a>, DbCause>
    ensures { (net : ℕ) → Reads (name_of device net (x.now ∷ y.now ∷ words_in words.now)) (name_named net) result }
{
    match one_word(Separators::SpacesAndTabs, words) {
        None => Err(DbCause::Number),
        Some(name) => match (number(x), number(y)) {
            (Some(x), Some(y)) if is_in_grid(device, x, y) => Ok(NameItem {
                x: x as u8,
                y: y as u8,
                name,
            }),
            _ => Err(DbCause::Number),
        },
    }
}
