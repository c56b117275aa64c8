// Watches flip-flops: marks tell which ones may change their registers.
ghost use Rattle.std.specs.Prelude.{◌≡◌, ◌↔◌, ◌<◌, ◌+◌, ◌∷◌, ◌^◌, [], ℕ, IfOk, OnOk, flat_map, get_or, length, map, take, true};
ghost use Rattle.vlog_engine.specs.Circuits.{flip_gates};
ghost use Rattle.vlog_engine.specs.Flips.{AreApart, flip_cells, flip_gate};
ghost use Rattle.vlog_engine.specs.Marks.{has};
ghost use Rattle.vlog_engine.specs.Watching.{AddsReader, AddsWires, HasSameItems};
ghost use Rattle.vlog_engine.specs.declared.groups.Group.{Group as group_of};

use crate::flips::Flip;
use crate::groups::Group;
use crate::readers::add_reader;
use std::alloc::AllocError;

/// Whether the registers of flip-flops rise, so that no two are the same.
fn are_apart(flips: &[Flip]) -> bool
    ensures { result ≡ true ↔ AreApart flips.now }
{
    for place in 1..flips.len() {
        if flips[place].target <= flips[place - 1].target {
            return false;
        }
    }
    true
}

/// Whether a list ends with a number.
fn ends_with(list: &[usize], number: usize) -> bool
    ensures { result ≡ true → has list.now number ≡ true }
{
    match list.last() {
        Some(last) => *last == number,
        None => false,
    }
}

/// Adds a wire to the list of a cell, unless it is the last one there.
fn add_once(readers: &mut Vec<Vec<usize>>, cell: usize, place: usize) -> Result<(), AllocError>
    ensures { OnOk result (AddsReader place (cell ∷ []) readers.old.items readers.new.items) }
{
    if cell < readers.len() && ends_with(&readers[cell], place) {
        return Ok(());
    }
    add_reader(readers, cell, place)?;
    Ok(())
}

/// Adds a wire to the lists of these cells, to none twice in turn.
fn add_to_each(
    readers: &mut Vec<Vec<usize>>,
    cells: &[usize],
    place: usize,
) -> Result<(), AllocError>
    ensures { OnOk result (AddsReader place cells.now readers.old.items readers.new.items) }
{
    for cell in cells {
        add_once(readers, *cell, place)?;
    }
    Ok(())
}

/// Watches a flip-flop as the wire with this index: adds it to the lists of all cells that it reads.
fn add_flip(readers: &mut Vec<Vec<usize>>, place: usize, flip: &Flip) -> Result<(), AllocError>
    ensures { OnOk result (AddsReader place (flip_cells flip.now) readers.old.items readers.new.items) }
{
    let cells = [
        flip.enable,
        flip.reset,
        flip.target,
        flip.a,
        flip.b,
        flip.c,
        flip.d,
    ];
    add_to_each(readers, &cells, place)
}

/// Watches flip-flops as the wires from this index on.
fn add_flips(readers: &mut Vec<Vec<usize>>, first: usize, flips: &[Flip]) -> Result<(), AllocError>
    requires { first + length flips.now < 2 ^ 64 }
    ensures { OnOk result (AddsWires first (map flip_gate flips.now) readers.old.items readers.new.items) }
{
    for (place, flip) in flips.iter().enumerate() {
        add_flip(readers, first + place, flip)?;
    }
    Ok(())
}

/// Watches the flip-flops of a group as the wires from this index on, and returns the index after the last one.
pub(crate) fn watch_group(
    readers: &mut Vec<Vec<usize>>,
    first: usize,
    group: &mut Group,
) -> Result<usize, AllocError>
    ensures end { IfOk result (λ end. end ≡ first + length group.old.flips.items) }
    ensures items { OnOk result (HasSameItems group.old group.new) }
    ensures place { OnOk result (group.new.first_place ≡ first) }
    ensures apart { OnOk result (group.new.are_apart ≡ true ↔ AreApart group.old.flips.items) }
    ensures wires { OnOk result (AddsWires first (flip_gates group.old) readers.old.items readers.new.items) }
{
    let end = first.checked_add(group.flips.len()).ok_or(AllocError)?;
    add_flips(readers, first, &group.flips)?;
    group.first_place = first;
    group.are_apart = are_apart(&group.flips);
    Ok(end)
}

/// Watches the flip-flops of each group as the wires from this index on, and returns the index after the last one.
pub(crate) fn watch_groups(
    readers: &mut Vec<Vec<usize>>,
    first: usize,
    groups: &mut Vec<Group>,
) -> Result<usize, AllocError>
    ensures end { IfOk result (λ end. end ≡ first + length (flat_map flip_gates groups.old.items)) }
    ensures count { OnOk result (length groups.new.items ≡ length groups.old.items) }
    ensures items { OnOk result ((pin : ℕ) (none : group_of) → pin < length groups.old.items → HasSameItems (get_or groups.old.items pin none) (get_or groups.new.items pin none)) }
    ensures place { OnOk result ((pin : ℕ) (none : group_of) → pin < length groups.old.items → (get_or groups.new.items pin none).first_place ≡ first + length (flat_map flip_gates (take pin groups.old.items))) }
    ensures apart { OnOk result ((pin : ℕ) (none : group_of) → pin < length groups.old.items → ((get_or groups.new.items pin none).are_apart ≡ true ↔ AreApart (get_or groups.old.items pin none).flips.items)) }
    ensures wires { OnOk result (AddsWires first (flat_map flip_gates groups.old.items) readers.old.items readers.new.items) }
{
    let mut next = first;
    for pin in 0..groups.len() {
        next = watch_group(readers, next, &mut groups[pin])?;
    }
    Ok(next)
}
