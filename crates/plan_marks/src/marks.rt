// The classes of marks, and how many have them.
ghost use Rattle.std.specs.Prelude.{◌≡◌, ◌+◌, count_by, IfOk};
ghost use Rattle.plan_marks.specs.Plans.{all_cells, all_pins, all_rams, cell_class, cells_in, class_of, count_of, has_class, pin_class, pins_in, plan_in, rams_in};

use crate::plan::{CellPart, FloorPlan, Mark, Part, PinPart, PlanTile};
use plane_map::TileKind;
use std::alloc::AllocError;

/// The class of a used cell: `l` a LUT alone, `f` one with a flip-flop, `c` one with a carry, `d` one with both.
pub fn cell_class(cell: CellPart) -> u8
    ensures { result ≡ cell_class cell }
{
    match (cell.carry, cell.flip) {
        (false, false) => b'l',
        (false, true) => b'f',
        (true, false) => b'c',
        (true, true) => b'd',
    }
}

/// The class of a pin that is a port: `i` one that never drives its pad, `o` one that always does, `b` one that does at times. `j`, `p` and `q`
/// are those with a register.
pub fn pin_class(pin: PinPart) -> u8
    ensures { result ≡ pin_class pin }
{
    if pin.is_switched {
        if pin.has_register { b'q' } else { b'b' }
    } else if pin.is_output {
        if pin.has_register { b'p' } else { b'o' }
    } else if pin.has_register {
        b'j'
    } else {
        b'i'
    }
}

/// The class of what stands in a tile.
fn class_of(part: Part) -> u8
    ensures { result ≡ class_of part }
{
    match part {
        Part::Cell(cell) => cell_class(cell),
        Part::Lower(_) => b'r',
        Part::Upper(_) => b'u',
        Part::Pin(pin) => pin_class(pin),
    }
}

/// Whether a mark has one of these classes.
fn has_class(classes: &[u8], mark: Mark) -> bool
    ensures { result ≡ has_class classes.now mark }
{
    let class = class_of(mark.part);
    classes.iter().any(|other| *other == class)
}

/// How many of these marks have one of these classes.
fn count_among(classes: &[u8], marks: &[Mark]) -> usize
    ensures { result ≡ count_by (has_class classes.now) marks.now }
{
    marks
        .iter()
        .filter(|mark| has_class(classes, **mark))
        .count()
}

/// A sum.
///
/// # Errors
/// `AllocError` if it needs more than 64 bits: so much has no room in memory.
fn sum(first: u64, second: u64) -> Result<u64, AllocError>
    ensures { IfOk result (λ sum. sum ≡ first + second) }
{
    first.checked_add(second).ok_or(AllocError)
}

/// How many marks of a plan have one of these classes. `r` is the lower tile of a RAM, and `u` the upper one.
///
/// # Errors
/// `AllocError` if the count needs more than 64 bits: so many marks have no room in memory.
#[tactic(auto, unfolding(crate::specs::Plans::count_of))]
pub fn count_of(classes: &[u8], plan: &FloorPlan) -> Result<u64, AllocError>
    ensures { IfOk result (λ count. count ≡ count_of classes.now (plan_in plan.now)) }
{
    let mut count = 0;
    for tile in &plan.tiles {
        count = sum(count, count_among(classes, &tile.marks) as u64)?;
    }
    Ok(count)
}

/// How many logic cells a tile has.
fn cells_in(kind: TileKind) -> u64
    ensures { result ≡ cells_in kind }
{
    match kind {
        TileKind::Logic => 8,
        TileKind::Io | TileKind::RamB | TileKind::RamT => 0,
    }
}

/// How many RAMs have their lower tile there.
fn rams_in(kind: TileKind) -> u64
    ensures { result ≡ rams_in kind }
{
    match kind {
        TileKind::RamB => 1,
        TileKind::Io | TileKind::Logic | TileKind::RamT => 0,
    }
}

/// How many pins a tile has.
fn pins_in(kind: TileKind) -> u64
    ensures { result ≡ pins_in kind }
{
    match kind {
        TileKind::Io => 2,
        TileKind::Logic | TileKind::RamB | TileKind::RamT => 0,
    }
}

/// How many logic cells the device of a plan has.
///
/// # Errors
/// `AllocError` if the count needs more than 64 bits.
#[tactic(auto, unfolding(crate::specs::Plans::all_cells))]
pub fn all_cells(plan: &FloorPlan) -> Result<u64, AllocError>
    ensures { IfOk result (λ count. count ≡ all_cells (plan_in plan.now)) }
{
    let mut count = 0;
    for tile in &plan.tiles {
        count = sum(count, cells_in(tile.kind))?;
    }
    Ok(count)
}

/// How many RAMs it has.
///
/// # Errors
/// `AllocError` if the count needs more than 64 bits.
#[tactic(auto, unfolding(crate::specs::Plans::all_rams))]
pub fn all_rams(plan: &FloorPlan) -> Result<u64, AllocError>
    ensures { IfOk result (λ count. count ≡ all_rams (plan_in plan.now)) }
{
    let mut count = 0;
    for tile in &plan.tiles {
        count = sum(count, rams_in(tile.kind))?;
    }
    Ok(count)
}

/// How many pins it has, ports or not.
///
/// # Errors
/// `AllocError` if the count needs more than 64 bits.
#[tactic(auto, unfolding(crate::specs::Plans::all_pins))]
pub fn all_pins(plan: &FloorPlan) -> Result<u64, AllocError>
    ensures { IfOk result (λ count. count ≡ all_pins (plan_in plan.now)) }
{
    let mut count = 0;
    for tile in &plan.tiles {
        count = sum(count, pins_in(tile.kind))?;
    }
    Ok(count)
}
