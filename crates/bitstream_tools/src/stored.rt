// The images that `icemulti` stores, and how they are joined.
ghost use Rattle.std.specs.Prelude.{◌≡◌, ◌<◌, ◌≤◌, ◌==◌, length, map, position, get_or, unwrap_or, IfOk, IfSome};
ghost use Rattle.std.specs.Str.{bytes_eq};
ghost use Rattle.std.specs.List.{list_any};
ghost use Rattle.tool_run.specs.Needs.{need_of};
ghost use Rattle.bitstream_tools.specs.Multi.{image_need};
ghost use Rattle.bitstream_tools.specs.Stored.{image_of, names_once, names_stored, options_for, stock_options, word_booted};

use crate::pack::TEXT_LIMIT;
use boot_file::Options;
use std::alloc::{AllocError, Global};
use tool_run::Load;

/// The images that are stored, and how they are joined.
#[derive(Drop)]
pub(crate) struct Plan<'a> {
    pub(crate) loads: Vec<Load<'a>>,
    pub(crate) options: Options,
}

/// The plan for these names. By the stock tool's rules a file that is named again is stored once, and a header without an image boots
/// the one of power-on. The options count the names.
pub(crate) fn planned<'a>(
    alloc: Global,
    as_stock: bool,
    names: &[&'a str],
    options: Options,
) -> Result<Plan<'a>, AllocError>
    requires few { length names.now ≤ 4 }
    requires power_on { options.power_on < length names.now }
    ensures loads { IfOk result (λ plan. map need_of plan.loads.items ≡ map image_need (names_stored as_stock (map (λ name. name.now) names.now))) }
    ensures options { IfOk result (λ plan. plan.options ≡ options_for as_stock (map (λ name. name.now) names.now) options) }
{
    if !as_stock {
        let loads = loads_of(alloc, names)?;
        return Ok(Plan { loads, options });
    }
    let stored = names_once(alloc, names)?;
    let stored = stored.as_slice();
    Ok(Plan {
        loads: loads_of(alloc, stored)?,
        options: stock_options(names, stored, options),
    })
}

// The loads of the images of these names.
fn loads_of<'a>(alloc: Global, names: &[&'a str]) -> Result<Vec<Load<'a>>, AllocError>
    ensures { IfOk result (λ loads. map need_of loads.items ≡ map image_need (map (λ name. name.now) names.now)) }
{
    let mut loads = Vec::new(alloc);
    for name in names {
        loads.push(Load {
            name: Some(*name),
            limit: TEXT_LIMIT,
        })?;
    }
    Ok(loads)
}

// Each name once, in the order of the first words that give them.
fn names_once<'a>(alloc: Global, names: &[&'a str]) -> Result<Vec<&'a str>, AllocError>
    ensures are { IfOk result (λ stored. map (λ name. name.now) stored.items ≡ names_once (map (λ name. name.now) names.now)) }
    ensures few { IfOk result (λ stored. length stored.items ≤ length names.now) }
{
    let mut stored = Vec::new(alloc);
    for name in names {
        if !has_name(stored.as_slice(), name) {
            stored.push(*name)?;
        }
    }
    Ok(stored)
}

// Whether a name is among those that are stored.
fn has_name(stored: &[&str], name: &str) -> bool
    ensures { result ≡ list_any (λ one. bytes_eq one.now name.now) stored.now }
{
    stored.iter().any(|one| one.as_bytes() == name.as_bytes())
}

// The options for the stored images.
fn stock_options(names: &[&str], stored: &[&str], options: Options) -> Options
    requires stored { map (λ name. name.now) stored.now ≡ names_once (map (λ name. name.now) names.now) }
    requires few { length stored.now ≤ 4 }
    requires power_on { options.power_on < length names.now }
    ensures { result ≡ stock_options (map (λ name. name.now) names.now) options }
{
    let power_on = options.power_on;
    Options {
        power_on: image_of(names, stored, power_on as usize),
        entries: [
            entry_of(names, stored, power_on, 0),
            entry_of(names, stored, power_on, 1),
            entry_of(names, stored, power_on, 2),
            entry_of(names, stored, power_on, 3),
        ],
        ..options
    }
}

// The index of the stored image that the header of an entry boots: that of its own word, or that of power-on.
fn entry_of(names: &[&str], stored: &[&str], power_on: u32, entry: usize) -> u32
    requires stored { map (λ name. name.now) stored.now ≡ names_once (map (λ name. name.now) names.now) }
    requires few { length stored.now ≤ 4 }
    requires power_on { power_on < length names.now }
    ensures { result ≡ image_of (map (λ name. name.now) names.now) (word_booted (map (λ name. name.now) names.now) power_on entry) }
{
    let word = if entry < names.len() {
        entry
    } else {
        power_on as usize
    };
    image_of(names, stored, word)
}

// The index of the stored image of a word.
fn image_of(names: &[&str], stored: &[&str], word: usize) -> u32
    requires stored { map (λ name. name.now) stored.now ≡ names_once (map (λ name. name.now) names.now) }
    requires few { length stored.now ≤ 4 }
    requires word { word < length names.now }
    ensures { result ≡ image_of (map (λ name. name.now) names.now) word }
{
    let name = names[word];
    match index_of(stored, name) {
        Some(index) => index as u32,
        None => 0,
    }
}

// The index of a name among those that are stored.
fn index_of(stored: &[&str], name: &str) -> Option<usize>
    ensures is { result ≡ position (λ one. bytes_eq one.now name.now) stored.now }
    ensures within { IfSome result (λ index. index < length stored.now) }
{
    stored
        .iter()
        .position(|one| one.as_bytes() == name.as_bytes())
}
