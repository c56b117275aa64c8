// What each edge of an input runs: its sensitivity lists.
ghost use Rattle.std.specs.Prelude.{◌≡◌, ◌≢◌, ◌<◌, ◌+◌, ◌*◌, ◌++◌, ◌^◌, [], ℕ, Bool, List, IfOk, OnOk, flat_map, get_or, length};
ghost use Rattle.std.specs.List.{All};
ghost use Rattle.vlog_engine.specs.Groups.{EachGets, IsEmpty, IsGroup, event_of};
ghost use Rattle.vlog_semantics.specs.Steps.{is_between};
ghost use Rattle.vlog_engine.specs.StepKinds.Step.{at_event, at_wave};
ghost use Rattle.vlog_engine.specs.declared.groups.Group.{Group as group_of};
ghost use Rattle.vlog_semantics.specs.declared.event.Event.{Event as any_event};

use crate::flips::{Flip, push_flip};
use crate::resolved::{resolved_flip, resolved_read, resolved_write};
use std::alloc::{AllocError, Global};
use vlog_semantics::{Event, FlipFlop, Plan, Read, Write, is_edge_of};

/// The clocked items that are sensitive to an event, over cells.
#[derive(Drop)]
pub(crate) struct Group {
    /// Where the flip-flops are watched: the index of the first one.
    pub(crate) first_place: usize,
    /// Whether the registers of the flip-flops rise, so that no two are the same.
    pub(crate) are_apart: bool,
    pub(crate) flips: Vec<Flip>,
    pub(crate) reads: Vec<Read>,
    pub(crate) writes: Vec<Write>,
}

impl Group {
    ghost use Rattle.std.specs.Prelude.{◌≡◌, [], false};

    /// Whether there are reads or writes of memories.
    pub(crate) fn has_ports(&self) -> bool
        ensures reads { result ≡ false → self.now.reads.items ≡ [] }
        ensures writes { result ≡ false → self.now.writes.items ≡ [] }
    {
        !self.reads.is_empty() || !self.writes.is_empty()
    }
}

/// A clocked item of a plan.
trait Clocked {
    /// The input that clocks it.
    ghost pin_of: { Self → ℕ };

    /// What it gives the group of an event: itself, over cells, if it is sensitive to the event, else nothing.
    ghost given: { any_event → ℕ → ℕ → ℕ → List ℕ → Self → List Self };

    /// A group gets more of these items, and of no others.
    ghost Grows: { group_of → List Self → group_of → Type 0 };

    /// The input that clocks it.
    fn pin(&self) -> usize
        ensures { result ≡ pin_of self.now };

    /// Adds itself, over cells, to the group of an event, if it is sensitive to that.
    fn add_to(
        &self,
        group: &mut Group,
        event: Event,
        first: usize,
        bits: usize,
        words: usize,
        roots: &[usize],
    ) -> Result<(), AllocError>
        requires { bits + 16 * words + 2 < 2 ^ 64 }
        ensures { OnOk result (Grows group.old (given event first bits words roots.now self.now) group.new) };

    /// What it gives the group of waves: itself, over cells, if its clock is a register, else nothing.
    ghost waved: { ℕ → ℕ → ℕ → ℕ → ℕ → List ℕ → Self → List Self };

    /// Adds itself, over cells, to the group of waves, if its clock is a register: a cell from `from` up to `end`.
    fn add_wave(
        &self,
        group: &mut Group,
        from: usize,
        end: usize,
        bits: usize,
        words: usize,
        roots: &[usize],
    ) -> Result<(), AllocError>
        requires { bits + 16 * words + 2 < 2 ^ 64 }
        ensures { OnOk result (Grows group.old (waved from end end bits words roots.now self.now) group.new) };

    /// A group that stays as it is gets nothing.
    ghost none: { (group : group_of) → Grows group [] group };

    /// What a group gets in two steps it gets in one.
    ghost more: { (old middle new : group_of) (items others : List Self) → Grows old items middle → Grows middle others new → Grows old (items ++ others) new };

    /// It gives nothing to the groups of other inputs.
    ghost apart: { (event : any_event) (first bits words : ℕ) (roots : List ℕ) (item : Self) → event.pin ≢ pin_of item → given event first bits words roots item ≡ [] };
}

/// A flip-flop whose register doesn't come before the first wire is left out.
impl Clocked for FlipFlop {
    ghost use Rattle.vlog_engine.specs.Clocked.{Gets-more, Gets-none, flip-apart};
    ghost use Rattle.vlog_engine.specs.Groups.{Gets, flip_at};

    ghost pin_of = { λ flip. flip.edge.clock };

    ghost given = { λ event. flip_at (at_event event) };

    ghost Grows = { λ old flips new. Gets old flips [] [] new };

    fn pin(&self) -> usize {
        self.edge.clock
    }

    fn add_to(
        &self,
        group: &mut Group,
        event: Event,
        first: usize,
        bits: usize,
        words: usize,
        roots: &[usize],
    ) -> Result<(), AllocError> {
        if is_edge_of(event, self.edge) && self.target < first {
            push_flip(&mut group.flips, resolved_flip(bits, words, roots, self))?;
        }
        Ok(())
    }

    ghost waved = { λ from end. flip_at (at_wave from end [] []) };

    fn add_wave(
        &self,
        group: &mut Group,
        from: usize,
        end: usize,
        bits: usize,
        words: usize,
        roots: &[usize],
    ) -> Result<(), AllocError> {
        if is_between(from, end, self.edge.clock) && self.target < end {
            push_flip(&mut group.flips, resolved_flip(bits, words, roots, self))?;
        }
        Ok(())
    }

    ghost none = { Gets-none };

    ghost more = { λ old middle new flips others. Gets-more old middle new flips others [] [] [] [] };

    ghost apart = { flip-apart };
}

impl Clocked for Read {
    ghost use Rattle.vlog_engine.specs.Clocked.{Gets-more, Gets-none, read-apart};
    ghost use Rattle.vlog_engine.specs.Groups.{Gets, read_at};

    ghost pin_of = { λ read. read.port.edge.clock };

    ghost given = { λ event first. read_at (at_event event) };

    ghost Grows = { λ old reads new. Gets old [] reads [] new };

    fn pin(&self) -> usize {
        self.port.edge.clock
    }

    fn add_to(
        &self,
        group: &mut Group,
        event: Event,
        _first: usize,
        bits: usize,
        words: usize,
        roots: &[usize],
    ) -> Result<(), AllocError> {
        if is_edge_of(event, self.port.edge) {
            group.reads.push(resolved_read(bits, words, roots, self))?;
        }
        Ok(())
    }

    ghost waved = { λ from end first. read_at (at_wave from end [] []) };

    fn add_wave(
        &self,
        group: &mut Group,
        from: usize,
        end: usize,
        bits: usize,
        words: usize,
        roots: &[usize],
    ) -> Result<(), AllocError> {
        if is_between(from, end, self.port.edge.clock) {
            group.reads.push(resolved_read(bits, words, roots, self))?;
        }
        Ok(())
    }

    ghost none = { Gets-none };

    ghost more = { λ old middle new reads others. Gets-more old middle new [] [] reads others [] [] };

    ghost apart = { λ event first. read-apart event };
}

impl Clocked for Write {
    ghost use Rattle.vlog_engine.specs.Clocked.{Gets-more, Gets-none, write-apart};
    ghost use Rattle.vlog_engine.specs.Groups.{Gets, write_at};

    ghost pin_of = { λ write. write.port.edge.clock };

    ghost given = { λ event first. write_at (at_event event) };

    ghost Grows = { λ old writes new. Gets old [] [] writes new };

    fn pin(&self) -> usize {
        self.port.edge.clock
    }

    fn add_to(
        &self,
        group: &mut Group,
        event: Event,
        _first: usize,
        bits: usize,
        words: usize,
        roots: &[usize],
    ) -> Result<(), AllocError> {
        if is_edge_of(event, self.port.edge) {
            group.writes.push(resolved_write(bits, words, roots, self))?;
        }
        Ok(())
    }

    ghost waved = { λ from end first. write_at (at_wave from end [] []) };

    fn add_wave(
        &self,
        group: &mut Group,
        from: usize,
        end: usize,
        bits: usize,
        words: usize,
        roots: &[usize],
    ) -> Result<(), AllocError> {
        if is_between(from, end, self.port.edge.clock) {
            group.writes.push(resolved_write(bits, words, roots, self))?;
        }
        Ok(())
    }

    ghost none = { Gets-none };

    ghost more = { λ old middle new writes others. Gets-more old middle new [] [] [] [] writes others };

    ghost apart = { λ event first. write-apart event };
}

/// Whether a slot is one of the registers, which stand from slot `from` up to slot `end`.
fn is_between(from: usize, end: usize, slot: usize) -> bool
    ensures { result ≡ is_between from end slot }
{
    from <= slot && slot < end
}

/// Adds the items whose clock is a register to the group of waves.
fn add_waves<T: Clocked>(
    group: &mut Group,
    from: usize,
    end: usize,
    bits: usize,
    words: usize,
    roots: &[usize],
    items: &[T],
) -> Result<(), AllocError>
    requires { bits + 16 * words + 2 < 2 ^ 64 }
    ensures { OnOk result (T.Grows group.old (flat_map (T.waved from end end bits words roots.now) items.now) group.new) }
{
    for item in items {
        item.add_wave(group, from, end, bits, words, roots)?;
    }
    Ok(())
}

/// An empty group, which isn't watched yet. It takes no memory for items yet.
fn empty_group(alloc: Global) -> Group
    ensures { IsEmpty result }
{
    Group {
        first_place: 0,
        are_apart: false,
        flips: Vec::new(alloc),
        reads: Vec::new(alloc),
        writes: Vec::new(alloc),
    }
}

/// What waves run: the items whose clock is a register. The registers have the cells from `from` up to `end`, at which wires begin.
pub(crate) fn waves_of(
    alloc: Global,
    from: usize,
    end: usize,
    bits: usize,
    words: usize,
    roots: &[usize],
    plan: &Plan,
) -> Result<Group, AllocError>
    requires { bits + 16 * words + 2 < 2 ^ 64 }
    ensures { (earlier now : List Bool) → IfOk result (IsGroup (at_wave from end earlier now) end bits words roots.now plan.now) }
{
    let mut group = empty_group(alloc);
    add_waves(&mut group, from, end, bits, words, roots, &plan.flips)?;
    add_waves(&mut group, from, end, bits, words, roots, &plan.reads)?;
    add_waves(&mut group, from, end, bits, words, roots, &plan.writes)?;
    Ok(group)
}

/// Adds an item to the group of the input that clocks it, if it is sensitive to that input's change to this bit.
fn add<T: Clocked>(
    groups: &mut Vec<Group>,
    bit: bool,
    first: usize,
    bits: usize,
    words: usize,
    roots: &[usize],
    item: &T,
) -> Result<(), AllocError>
    requires { bits + 16 * words + 2 < 2 ^ 64 }
    ensures { OnOk result (EachGets T.Grows (λ pin. T.given (event_of pin bit) first bits words roots.now item.now) groups.old.items groups.new.items) }
{
    let pin = item.pin();
    if pin < groups.len() {
        let event = Event { pin, bit };
        item.add_to(&mut groups[pin], event, first, bits, words, roots)?;
    }
    Ok(())
}

/// Adds each item to the group of the input that clocks it, if it is sensitive to that input's change to this bit.
fn add_all<T: Clocked>(
    groups: &mut Vec<Group>,
    bit: bool,
    first: usize,
    bits: usize,
    words: usize,
    roots: &[usize],
    items: &[T],
) -> Result<(), AllocError>
    requires { bits + 16 * words + 2 < 2 ^ 64 }
    ensures { OnOk result (EachGets T.Grows (λ pin. flat_map (T.given (event_of pin bit) first bits words roots.now) items.now) groups.old.items groups.new.items) }
{
    for item in items {
        add(groups, bit, first, bits, words, roots, item)?;
    }
    Ok(())
}

/// An empty group for each of this many inputs. It takes no memory for items yet.
fn empty_groups(alloc: Global, pins: usize) -> Result<Vec<Group>, AllocError>
    ensures count { IfOk result (λ groups. length groups.items ≡ pins) }
    ensures empty { IfOk result (λ groups. All IsEmpty groups.items) }
{
    let mut groups = Vec::with_capacity(alloc, pins)?;
    for _ in 0..pins {
        groups.push(empty_group(alloc))?;
    }
    Ok(groups)
}

/// For each of this many inputs, what its change to this bit runs.
pub(crate) fn groups_of(
    alloc: Global,
    pins: usize,
    bit: bool,
    first: usize,
    bits: usize,
    words: usize,
    roots: &[usize],
    plan: &Plan,
) -> Result<Vec<Group>, AllocError>
    requires { bits + 16 * words + 2 < 2 ^ 64 }
    ensures count { IfOk result (λ groups. length groups.items ≡ pins) }
    ensures each { IfOk result (λ groups. (pin : ℕ) (none : group_of) → pin < pins
        → IsGroup (at_event (record { pin = pin; bit = bit })) first bits words roots.now plan.now (get_or groups.items pin none)) }
{
    let mut groups = empty_groups(alloc, pins)?;
    add_all(&mut groups, bit, first, bits, words, roots, &plan.flips)?;
    add_all(&mut groups, bit, first, bits, words, roots, &plan.reads)?;
    add_all(&mut groups, bit, first, bits, words, roots, &plan.writes)?;
    Ok(groups)
}
