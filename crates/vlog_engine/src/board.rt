// A module that runs in lanes.
ghost use Rattle.std.specs.Prelude.{◌≡◌, ◌<◌, ◌≤◌, ◌+◌, ◌*◌, ℕ, IfOk, false, get_or, is_some, length, map, not, take, true, vec_len, if◌then◌else◌};
ghost use Rattle.std.specs.Option.{option_map};
ghost use Rattle.vlog_engine.specs.Circuits.{AreWaves, IsCircuit};
ghost use Rattle.vlog_engine.specs.Lanes.{AreLanes};
ghost use Rattle.vlog_engine.specs.Moments.{moments_size};

use crate::changes::{Change, both, changed_lanes, is_none};
use crate::circuit::Circuit;
use crate::clocking::clock;
use crate::edges::{Cause, wave_lanes};
use crate::moments::Moments;
use crate::outputs::write_outputs;
use crate::parts::show_cells;
use crate::reading::{cell_at, part};
use crate::settling::settle;
use crate::start::{Started, Wires, started_of};
use crate::trigger::Trigger;
use crate::value::Value;
use std::alloc::{AllocError, Global};
use vlog_module::Module;
use vlog_semantics::{Event, Memory, SlotLayout, Start, Written, lay_out, word_at, word_in};

/// A module that runs in lanes, each over its own events. This is an event-driven simulation: an event computes only what its change can
/// reach.
///
/// All memory is taken when a board is made.
#[derive(Drop)]
pub struct Board<V: Value> {
    layout: SlotLayout,
    circuit: Circuit,
    /// The bits of names, then those of words, then 0 and 1. A wire that only copies has no cell of its own.
    cells: Vec<V>,
    /// Marks on wires that may be out of date and on flip-flops that may change their registers, 64 in a word.
    marks: Vec<u64>,
    /// The registers of 16 bits, for each lane.
    words: Vec<Vec<u16>>,
    memories: Vec<Vec<Memory>>,
    outputs: Vec<V>,
    /// Room for the next registers of 16 bits of a lane.
    next_words: Vec<u16>,
    /// Room for what writes write to the memories of a lane.
    written: Vec<Option<Written>>,
    /// Room for what a step changes.
    changes: Vec<Change<V>>,
    /// The values between which waves have their edges.
    moments: Moments<V>,
    ghost circuit_is: { IsCircuit layout.first_wire circuit.bits (vec_len next_words) layout.plan circuit },
    ghost waves_are: { AreWaves layout.input_count layout.first_wire circuit.bits (vec_len next_words) circuit.roots.items layout.plan circuit.waves },
    ghost rising_room: { vec_len circuit.rising ≡ layout.input_count },
    ghost falling_room: { vec_len circuit.falling ≡ layout.input_count },
    ghost cells_room: { vec_len cells ≡ circuit.bits + 16 * vec_len next_words + 2 },
    ghost sources_room: { layout.first_wire ≤ circuit.bits },
    ghost earlier_room: { vec_len moments.earlier ≡ moments_size layout },
    ghost next_room: { vec_len moments.next ≡ moments_size layout },
    ghost lanes: { AreLanes V.LANES (vec_len next_words) words.items },
    ghost memory_lanes: { vec_len memories ≡ V.LANES },
    ghost writes_room: { vec_len written ≡ vec_len layout.plan.writes },
    ghost outputs_room: { vec_len outputs ≡ vec_len layout.plan.outputs },
    ghost flips_room: { vec_len layout.plan.flips ≤ vec_len changes },
    ghost settles_room: { vec_len layout.plan.settles ≤ vec_len changes },
}

/// How many inputs and registers are kept for waves: all, or none if no register is a clock.
fn moments_size(layout: &SlotLayout) -> usize
    ensures { result ≡ moments_size layout.now }
{
    if layout.plan.clocks.is_empty() {
        0
    } else {
        layout.first_wire
    }
}

impl<V: Value> Board<V> {
    ghost use Rattle.vlog_engine.specs.Boards.{IsChangedIn, IsClockedIn, IsIdleIn, IsSettledIn, IsShownIn, IsTrackedIn, Shows, StaysLaidOut, cells_in, input_count};
    ghost use Rattle.vlog_engine.specs.Waves.{AwaitsWaves, earlier_in, next_in};
    ghost use Rattle.vlog_engine.specs.Triggers.{HasPin, IsCauseOf, step_by};
    ghost use Rattle.std.specs.List.{list_any};
    ghost use Rattle.vlog_engine.specs.Lanes.{lane_bits, list_of};
    ghost use Rattle.vlog_engine.specs.StepKinds.Step.{at_event, at_wave};
    ghost use Rattle.vlog_module.specs.Maps.{value_in};
    ghost use Rattle.vlog_module.specs.Parts.{Parts};
    ghost use Rattle.vlog_semantics.specs.Entries.{Entry};
    ghost use Rattle.vlog_semantics.specs.ModuleSlots.{memory_names, register_names, wire_names, word_names};
    ghost use Rattle.vlog_semantics.specs.Named.{has_name, values_of};
    ghost use Rattle.vlog_semantics.specs.Steps.{is_at, slots_between};
    ghost use Rattle.vlog_semantics.specs.Run.{changed as changed_entry, followed, input_names, is_same_bit, start};

    /// The module after the start, in each lane: inputs are 0, registers and memories have their start values.
    ///
    /// # Errors
    /// `AllocError` if memory is out, and for no other cause.
    pub fn new(alloc: Global, module: &Module) -> Result<Board<V>, AllocError>
        ensures { IfOk result (λ board. (lane : ℕ) → lane < V.LANES → Shows board lane «module».now (start «module».now)) }
    {
        // A module is well-formed, so its inputs and registers have names of their own.
        let _ = module.items();
        let start = lay_out(alloc, module)?;
        let Start {
            layout,
            bits,
            words: next_words,
            memories,
            cells,
        } = start;
        let started = started_of(alloc, &layout, &bits, &next_words, &memories, cells)?;
        let moments = Moments::new(alloc, moments_size(&layout))?;
        let Started {
            wires,
            outputs,
            words,
            memories,
            written,
        } = started;
        let Wires {
            circuit,
            cells,
            marks,
            changes,
        } = wires;
        Ok(Board {
            layout,
            circuit,
            cells,
            marks,
            words,
            memories,
            outputs,
            next_words,
            written,
            changes,
            moments,
        })
    }

    /// Gives an input a bit in some lanes. A lane that has a 1 in `active` gets its bit of `bits`; the other lanes get no event. `pin` is
    /// the index of the input among the inputs, in the order of the ports, from 0.
    pub fn event(&mut self, pin: usize, active: V, bits: V)
        requires { pin < input_count self.old }
        ensures shows { (lane : ℕ) (m : Parts) (entry : Entry) → Shows self.old lane m entry
            → Shows self.new lane m (if V.at active lane then followed m entry (record { pin = pin; bit = V.at bits lane }) else entry) }
        ensures inputs { input_count self.new ≡ input_count self.old }
    {
        let changed = changed_lanes(active, bits, cell_at(&self.cells, pin));
        if is_none(changed) {
            return;
        }
        self.change(pin, bits, changed);
    }

    /// Changes an input in the lanes that have a 1 in `changed`, where it becomes their bit of `bits`: the first step, and then the waves.
    fn change(&mut self, pin: usize, bits: V, changed: V)
        requires { pin < input_count self.old }
        ensures same { StaysLaidOut self.old self.new }
        ensures changed { (lane : ℕ) (m : Parts) (entry : Entry) → V.at changed lane ≡ true → Shows self.old lane m entry
            → Shows self.new lane m (changed_entry m entry (record { pin = pin; bit = V.at bits lane })) }
        ensures idle { (lane : ℕ) → lane < V.LANES → V.at changed lane ≡ false → IsIdleIn lane self.old self.new }
    {
        self.keep();
        self.begin(pin, bits, changed);
        self.turn();
        self.run_waves(changed);
    }

    /// Keeps the values before a step.
    fn keep(&mut self)
        ensures same { StaysLaidOut self.old self.new }
        ensures idle { (lane : ℕ) → IsIdleIn lane self.old self.new }
        ensures earlier { self.new.moments.earlier ≡ self.old.moments.earlier }
        ensures next { (lane : ℕ) → next_in self.new lane ≡ take (moments_size self.old.layout) (cells_in self.old lane) }
    {
        self.moments.keep(&self.cells);
    }

    /// The step is done: the values before it are those before the last step.
    fn turn(&mut self)
        ensures same { StaysLaidOut self.old self.new }
        ensures idle { (lane : ℕ) → IsIdleIn lane self.old self.new }
        ensures earlier { self.new.moments.earlier ≡ self.old.moments.next }
    {
        self.moments.turn();
    }

    /// Runs the first step of an event, in which an input changes in the lanes that have a 1 in `changed`.
    fn begin(&mut self, pin: usize, bits: V, changed: V)
        requires { pin < input_count self.old }
        ensures same { StaysLaidOut self.old self.new }
        ensures moments { self.new.moments ≡ self.old.moments }
        ensures changed { (lane : ℕ) → lane < V.LANES → V.at changed lane ≡ true → IsChangedIn (at_event (record { pin = pin; bit = V.at bits lane })) lane self.old self.new }
        ensures idle { (lane : ℕ) → lane < V.LANES → V.at changed lane ≡ false → IsIdleIn lane self.old self.new }
    {
        let rising = Event { pin, bit: true };
        let falling = Event { pin, bit: false };
        self.clock(Cause::Event(rising), both(bits, changed));
        self.clock(
            Cause::Event(falling),
            V::select(bits, V::every(false), changed),
        );
        self.settle(changed);
        self.show(changed);
    }

    /// Runs the waves that come after the first step of an event in active lanes. Lanes in which none comes any more rest.
    fn run_waves(&mut self, active: V)
        ensures same { StaysLaidOut self.old self.new }
        ensures shown { (lane : ℕ) (m : Parts) (last : Entry) → V.at active lane ≡ true → AwaitsWaves self.old lane m (vec_len self.old.layout.plan.clocks) last → Shows self.new lane m last }
        ensures idle { (lane : ℕ) → lane < V.LANES → V.at active lane ≡ false → IsIdleIn lane self.old self.new }
    {
        for _ in 0..self.layout.plan.clocks.len() {
            let lanes = self.wave_lanes(active);
            if is_none(lanes) {
                return;
            }
            self.keep();
            self.run_wave(lanes);
            self.turn();
        }
    }

    /// The active lanes in which a wave comes: those in which an item has its edge by a register that the last step changed.
    fn wave_lanes(&self, active: V) -> V
        ensures { (lane : ℕ) → lane < V.LANES → V.at result lane
            ≡ (if V.at active lane then list_any (is_at (slots_between self.now.layout.input_count self.now.layout.first_wire (earlier_in self.now lane) (cells_in self.now lane))) self.now.layout.plan.clocks.items else false) }
    {
        let (first, end) = (self.layout.input_count, self.layout.first_wire);
        let earlier = &self.moments.earlier;
        wave_lanes(
            &self.layout.plan.clocks,
            first,
            end,
            active,
            earlier,
            &self.cells,
        )
    }

    /// Runs a wave in these lanes.
    fn run_wave(&mut self, lanes: V)
        ensures same { StaysLaidOut self.old self.new }
        ensures moments { self.new.moments ≡ self.old.moments }
        ensures changed { (lane : ℕ) → lane < V.LANES → V.at lanes lane ≡ true
            → IsChangedIn (at_wave self.old.layout.input_count self.old.layout.first_wire (earlier_in self.old lane) (cells_in self.old lane)) lane self.old self.new }
        ensures idle { (lane : ℕ) → lane < V.LANES → V.at lanes lane ≡ false → IsIdleIn lane self.old self.new }
    {
        let cause = Cause::Registers {
            first: self.layout.input_count,
            end: self.layout.first_wire,
        };
        self.clock(cause, lanes);
        self.settle(lanes);
        self.show(lanes);
    }

    /// Runs the first half of a step in active lanes: the clocked items, and then the input of an event, which changes.
    fn clock(&mut self, cause: Cause, active: V)
        requires pin { HasPin (input_count self.old) cause }
        requires cause { IsCauseOf self.old.layout.input_count self.old.layout.first_wire cause }
        ensures same { StaysLaidOut self.old self.new }
        ensures moments { self.new.moments ≡ self.old.moments }
        ensures clocked { (lane : ℕ) → lane < V.LANES → V.at active lane ≡ true → IsClockedIn (step_by cause (earlier_in self.old lane) (cells_in self.old lane)) lane self.old self.new }
        ensures tracked { (lane : ℕ) → lane < V.LANES → IsTrackedIn self.old lane → IsTrackedIn self.new lane }
        ensures idle { (lane : ℕ) → lane < V.LANES → V.at active lane ≡ false → IsIdleIn lane self.old self.new }
    {
        if is_none(active) {
            return;
        }
        let circuit = &self.circuit;
        // Read so that the proof knows that this count, which bounds the places of all flip-flops, is a `usize`.
        let _watched_count = circuit.watched_count;
        let trigger = Trigger {
            cause,
            active,
            earlier: &self.moments.earlier,
            group: circuit.group_by(cause),
            readers: &circuit.readers,
            bits: circuit.bits,
        };
        clock(
            &trigger,
            &mut self.cells,
            &mut self.marks,
            &mut self.words,
            &mut self.next_words,
            &mut self.memories,
            &mut self.written,
            &mut self.changes,
        );
    }

    /// Computes the wires in active lanes, and then the asynchronous sets and resets of registers.
    fn settle(&mut self, active: V)
        ensures same { StaysLaidOut self.old self.new }
        ensures moments { self.new.moments ≡ self.old.moments }
        ensures settled { (lane : ℕ) → lane < V.LANES → IsSettledIn (V.at active lane) lane self.old self.new }
    {
        settle(
            &self.circuit,
            active,
            &mut self.cells,
            &mut self.marks,
            &mut self.changes,
        );
    }

    /// Gives the outputs their values in active lanes.
    fn show(&mut self, active: V)
        ensures same { StaysLaidOut self.old self.new }
        ensures moments { self.new.moments ≡ self.old.moments }
        ensures shown { (lane : ℕ) → lane < V.LANES → IsShownIn (V.at active lane) lane self.old self.new }
    {
        write_outputs(
            &self.circuit.outputs,
            active,
            &self.cells,
            &mut self.outputs,
        );
    }

    /// How many inputs there are.
    pub fn inputs(&self) -> usize
        ensures is { result ≡ input_count self.now }
        ensures shown { (lane : ℕ) (m : Parts) (entry : Entry) → Shows self.now lane m entry → result ≡ length (input_names m.ports) }
    {
        self.layout.input_count
    }

    /// The values of the outputs, in the order of the ports.
    pub fn outputs(&self) -> &[V]
        ensures { (lane : ℕ) (m : Parts) (entry : Entry) → Shows self.now lane m entry → lane_bits V.at lane result.now ≡ values_of entry.outputs }
    {
        &self.outputs
    }

    /// The value of the register of one bit with this name, if there is one.
    pub fn register(&self, name: &[u8]) -> Option<V>
        ensures is { (lane : ℕ) (m : Parts) (entry : Entry) → Shows self.now lane m entry
            → option_map (λ value. V.at value lane) result ≡ value_in entry.registers name.now }
        ensures declared { (lane : ℕ) (m : Parts) (entry : Entry) → Shows self.now lane m entry → is_some result ≡ has_name (register_names m.items) name.now }
    {
        match self.layout.places.registers.slot(name) {
            Some(slot) => Some(cell_at(&self.cells, slot)),
            None => None,
        }
    }

    /// The word of the register of 16 bits with this name, in a lane, if there is one.
    pub fn register_word(&self, lane: usize, name: &[u8]) -> Option<u16>
        requires { lane < V.LANES }
        ensures is { (m : Parts) (entry : Entry) → Shows self.now lane m entry → result ≡ value_in entry.words name.now }
        ensures declared { (m : Parts) (entry : Entry) → Shows self.now lane m entry → is_some result ≡ has_name (word_names m.items) name.now }
    {
        match self.layout.places.words.slot(name) {
            Some(slot) => Some(word_at(self.words(lane), slot)),
            None => None,
        }
    }

    /// The word at an address of the memory with this name, in a lane, if there is one.
    pub fn word(&self, lane: usize, memory: &[u8], address: u8) -> Option<u16>
        requires { lane < V.LANES }
        ensures is { (m : Parts) (entry : Entry) → Shows self.now lane m entry
            → result ≡ option_map (λ words. get_or words address 0) (value_in entry.memories memory.now) }
        ensures declared { (m : Parts) (entry : Entry) → Shows self.now lane m entry → is_some result ≡ has_name (memory_names m.items) memory.now }
    {
        match self.layout.places.memories.slot(memory) {
            Some(place) => Some(word_in(self.memories(lane), place, address)),
            None => None,
        }
    }

    /// The values of the inputs, in the order of the ports.
    pub fn input_bits(&self) -> &[V]
        ensures { (lane : ℕ) (m : Parts) (entry : Entry) → Shows self.now lane m entry → lane_bits V.at lane result.now ≡ values_of entry.inputs }
    {
        part(&self.cells, 0, self.layout.input_count)
    }

    /// The values of the registers of one bit, in the order of their declarations.
    pub fn registers(&self) -> &[V]
        ensures { (lane : ℕ) (m : Parts) (entry : Entry) → Shows self.now lane m entry → lane_bits V.at lane result.now ≡ values_of entry.registers }
    {
        part(&self.cells, self.layout.input_count, self.layout.first_wire)
    }

    /// The registers of 16 bits of a lane, in the order of their declarations.
    pub fn words(&self, lane: usize) -> &[u16]
        requires { lane < V.LANES }
        ensures is { result.now ≡ list_of lane self.now.words.items }
        ensures shown { (m : Parts) (entry : Entry) → Shows self.now lane m entry → result.now ≡ values_of entry.words }
    {
        &self.words[lane]
    }

    /// The memories of a lane.
    fn memories(&self, lane: usize) -> &[Memory]
        requires { lane < V.LANES }
        ensures { result.now ≡ list_of lane self.now.memories.items }
    {
        &self.memories[lane]
    }

    /// Copies the values of all wires, in the order of their declarations, to `wires`, which has to be as long.
    pub fn copy_wires(&self, wires: &mut [V])
        ensures { (lane : ℕ) (m : Parts) (entry : Entry) → Shows self.now lane m entry → length wires.old ≡ length (wire_names m.items)
            → lane_bits V.at lane wires.new ≡ values_of entry.wires }
    {
        let circuit = &self.circuit;
        let roots = part(&circuit.roots, self.layout.first_wire, circuit.bits);
        show_cells(roots, &self.cells, wires);
    }
}
