// A module over cells.
ghost use Rattle.std.specs.Prelude.{◌≡◌, ◌<◌, ◌≤◌, ◌+◌, ◌*◌, ◌^◌, ℕ, IfOk, length, vec_len};

use crate::building::{gates_of, outputs_of, settles_of};
use crate::edges::Cause;
use crate::groups::{Group, groups_of, waves_of};
use crate::readers::readers_of;
use crate::roots::roots_of;
use crate::watching::{watch_group, watch_groups};
use std::alloc::{AllocError, Global};
use vlog_semantics::{Event, Gate, Operand, Settle, SlotLayout};

/// A module over cells: each name of one bit has a cell, then each bit of the registers of 16 bits, then 0 and 1.
#[derive(Drop)]
pub(crate) struct Circuit {
    /// How many names of one bit there are.
    pub(crate) bits: usize,
    /// The root of each cell: the cell for which it is an alias, or the cell itself.
    pub(crate) roots: Vec<usize>,
    /// The wires that aren't aliases, in the order of the text, which is a topological order.
    pub(crate) gates: Vec<Gate>,
    /// The fan-out of each cell, as indexes of what is watched; the wire whose cell it is counts too.
    pub(crate) readers: Vec<Vec<usize>>,
    /// How many are watched: the wires, and then the flip-flops of each group.
    pub(crate) watched_count: usize,
    pub(crate) settles: Vec<Settle>,
    pub(crate) outputs: Vec<Operand>,
    /// What the rising edge of each input runs.
    pub(crate) rising: Vec<Group>,
    /// What the falling edge of each input runs.
    pub(crate) falling: Vec<Group>,
    /// What waves run: the items whose clock is a register.
    pub(crate) waves: Group,
}

ghost use Rattle.vlog_engine.specs.Circuits.{AreWaves, IsCircuit};

impl Circuit {
    ghost use Rattle.vlog_engine.specs.Circuits.{AreWaves, IsCircuit, IsWatched, watched};
    ghost use Rattle.vlog_engine.specs.Groups.{IsGroup};
    ghost use Rattle.vlog_engine.specs.StepKinds.Step.{at_event};
    ghost use Rattle.vlog_engine.specs.Triggers.{IsCauseOf, HasPin, step_by};
    ghost use Rattle.std.specs.Prelude.{List, Bool};
    ghost use Rattle.vlog_semantics.specs.declared.plan.Plan.{Plan as plan_of};

    /// What an event runs.
    pub(crate) fn group(&self, event: Event) -> &Group
        requires rising { event.pin < vec_len self.now.rising }
        requires falling { event.pin < vec_len self.now.falling }
        ensures group { (first bits words : ℕ) (plan : plan_of) → IsCircuit first bits words plan self.now → IsGroup (at_event event) first bits words self.now.roots.items plan result.now }
        ensures watched { (first bits words : ℕ) (plan : plan_of) → IsCircuit first bits words plan self.now → IsWatched (watched self.now) result.now }
    {
        if event.bit {
            &self.rising[event.pin]
        } else {
            &self.falling[event.pin]
        }
    }

    /// What a step runs.
    pub(crate) fn group_by(&self, cause: Cause) -> &Group
        requires rising { HasPin (vec_len self.now.rising) cause }
        requires falling { HasPin (vec_len self.now.falling) cause }
        ensures group { (from first bits words : ℕ) (plan : plan_of) (earlier now : List Bool) → IsCircuit first bits words plan self.now → AreWaves from first bits words self.now.roots.items plan self.now.waves
            → IsCauseOf from first cause → IsGroup (step_by cause earlier now) first bits words self.now.roots.items plan result.now }
        ensures watched { (first bits words : ℕ) (plan : plan_of) → IsCircuit first bits words plan self.now → IsWatched (watched self.now) result.now }
    {
        match cause {
            Cause::Event(event) => self.group(event),
            Cause::Registers { .. } => &self.waves,
        }
    }
}

/// The circuit of a layout with `bits` names of one bit and `words` registers of 16 bits.
pub(crate) fn circuit_of(
    alloc: Global,
    layout: &SlotLayout,
    bits: usize,
    words: usize,
) -> Result<Circuit, AllocError>
    requires room { bits + 16 * words + 2 < 2 ^ 64 }
    requires first { layout.now.first_wire ≤ bits }
    ensures circuit { IfOk result (IsCircuit layout.now.first_wire bits words layout.now.plan) }
    ensures waves { IfOk result (λ circuit. AreWaves layout.now.input_count layout.now.first_wire bits words circuit.roots.items layout.now.plan circuit.waves) }
    ensures rising { IfOk result (λ circuit. length circuit.rising.items ≡ layout.now.input_count) }
    ensures falling { IfOk result (λ circuit. length circuit.falling.items ≡ layout.now.input_count) }
{
    let zero = bits + 16 * words;
    let plan = &layout.plan;
    let (first, pins) = (layout.first_wire, layout.input_count);
    let roots = roots_of(alloc, zero + 2, zero, &plan.gates, &plan.settles)?;
    let gates = gates_of(alloc, &roots, &plan.gates)?;
    let mut readers = readers_of(alloc, zero + 2, &gates)?;
    let settles = settles_of(alloc, bits, words, &roots, &plan.settles)?;
    let outputs = outputs_of(alloc, bits, words, &roots, &plan.outputs)?;
    let mut rising = groups_of(alloc, pins, true, first, bits, words, &roots, plan)?;
    let mut falling = groups_of(alloc, pins, false, first, bits, words, &roots, plan)?;
    let mut waves = waves_of(alloc, pins, first, bits, words, &roots, plan)?;
    let next = watch_groups(&mut readers, gates.len(), &mut rising)?;
    let next = watch_groups(&mut readers, next, &mut falling)?;
    let watched_count = watch_group(&mut readers, next, &mut waves)?;
    Ok(Circuit {
        bits,
        roots,
        gates,
        readers,
        watched_count,
        settles,
        outputs,
        rising,
        falling,
        waves,
    })
}
