// A module that runs in sixty-four bit-parallel lanes.
ghost use Rattle.std.specs.Prelude.{◌≡◌, ◌<◌, ℕ, All, IfOk, get_or, is_some, length, if◌then◌else◌};
ghost use Rattle.std.specs.Option.{option_map};

use crate::call::Call;
use std::alloc::{AllocError, Global};
use vlog_engine::Board;
use vlog_module::Module;

/// A module that runs in sixty-four bit-parallel lanes, each over its own events.
///
/// All memory is taken when the lanes are made.
///
/// # Example
/// ```ignore
/// // The input of `module` is the clock of a register, which becomes 1; the output is the register.
/// let mut lanes = Lanes::new(alloc, &module)?;
/// lanes.event(0, 0b01, 0b11);
/// assert!(lanes.outputs() == [1_u64].as_slice());
/// lanes.event(0, u64::MAX, 0);
/// lanes.run(&[Call { pin: 0, active: 0b10, bits: 0b10 }]);
/// assert!(lanes.outputs() == [3_u64].as_slice());
/// ```
#[derive(Drop)]
pub struct Lanes {
    board: Board<u64>,
}

impl Lanes {
    ghost use Rattle.vlog_module.specs.Maps.{value_in};
    ghost use Rattle.vlog_module.specs.Parts.{Parts};
    ghost use Rattle.vlog_semantics.specs.Entries.{Entry};
    ghost use Rattle.vlog_semantics.specs.ModuleSlots.{memory_names, register_names, word_names};
    ghost use Rattle.vlog_semantics.specs.Named.{has_name, values_of};
    ghost use Rattle.vlog_semantics.specs.Run.{followed, input_names, last_of, module_run, run_from, start};
    ghost use Rattle.vlog_semantics.specs.Values.{bit_of};
    ghost use Rattle.vlog_lanes.specs.Lanes.{lane_event, lane_events, lane_of};
    ghost use Rattle.vlog_lanes.specs.Showing.{Shows, input_count};

    /// The module after the start, in each lane: inputs are 0, registers and memories have their start values.
    ///
    /// # Errors
    /// `AllocError` if memory is out, and for no other cause.
    pub fn new(alloc: Global, module: &Module) -> Result<Lanes, AllocError>
        ensures { IfOk result (λ lanes. (lane : ℕ) → lane < 64 → Shows lanes lane «module».now (start «module».now)) }
    {
        Ok(Lanes {
            board: Board::new(alloc, module)?,
        })
    }

    /// Gives an input a bit in some lanes. A lane that has a 1 in `active` gets its bit of `bits`, where lane 0 has the lowest; the other
    /// lanes get no event. `pin` is the index of the input among the inputs, in the order of the ports, from 0.
    pub fn event(&mut self, pin: usize, active: u64, bits: u64)
        requires { pin < input_count self.old }
        ensures shows { (lane : ℕ) (m : Parts) (entry : Entry) → lane < 64 → Shows self.old lane m entry
            → Shows self.new lane m (if bit_of active lane then followed m entry (lane_event pin bits lane) else entry) }
        ensures inputs { input_count self.new ≡ input_count self.old }
    {
        self.board.event(pin, active, bits);
    }

    /// Makes the calls, one after another. `vlogsweep` makes one call at a time, by [`Lanes::event`]: this is for users of the library who
    /// have a list.
    pub fn run(&mut self, calls: &[Call])
        requires { All (λ call. call.pin < input_count self.old) calls.now }
        ensures from_start { (lane : ℕ) (m : Parts) → lane < 64 → Shows self.old lane m (start m)
            → Shows self.new lane m (last_of (start m) (module_run m (lane_events calls.now lane))) }
        ensures shows { (lane : ℕ) (m : Parts) (entry : Entry) → lane < 64 → Shows self.old lane m entry
            → Shows self.new lane m (last_of entry (run_from m entry (lane_events calls.now lane))) }
        ensures inputs { input_count self.new ≡ input_count self.old }
    {
        for call in calls {
            self.event(call.pin, call.active, call.bits);
        }
    }

    /// How many inputs there are. No tool of this project needs it: it is for users of the library.
    pub fn inputs(&self) -> usize
        ensures is { result ≡ input_count self.now }
        ensures shown { (lane : ℕ) (m : Parts) (entry : Entry) → Shows self.now lane m entry → result ≡ length (input_names m.ports) }
    {
        self.board.inputs()
    }

    /// The bits of the outputs in all lanes, in the order of the ports; lane 0 has the lowest bit of each word.
    pub fn outputs(&self) -> &[u64]
        ensures { (lane : ℕ) (m : Parts) (entry : Entry) → Shows self.now lane m entry → lane_of lane result.now ≡ values_of entry.outputs }
    {
        self.board.outputs()
    }

    /// The bits of the register of one bit with this name, in all lanes, if there is one. No tool of this project needs it: it is for users
    /// of the library.
    pub fn register(&self, name: &[u8]) -> Option<u64>
        ensures is { (lane : ℕ) (m : Parts) (entry : Entry) → Shows self.now lane m entry
            → option_map (λ word. bit_of word lane) result ≡ value_in entry.registers name.now }
        ensures declared { (lane : ℕ) (m : Parts) (entry : Entry) → Shows self.now lane m entry → is_some result ≡ has_name (register_names m.items) name.now }
    {
        self.board.register(name)
    }

    /// The word of the register of 16 bits with this name, in a lane, if there is one. No tool of this project needs it: it is for users of
    /// the library.
    pub fn register_word(&self, lane: usize, name: &[u8]) -> Option<u16>
        requires { lane < 64 }
        ensures is { (m : Parts) (entry : Entry) → Shows self.now lane m entry → result ≡ value_in entry.words name.now }
        ensures declared { (m : Parts) (entry : Entry) → Shows self.now lane m entry → is_some result ≡ has_name (word_names m.items) name.now }
    {
        self.board.register_word(lane, name)
    }

    /// The word at an address of the memory with this name, in a lane, if there is one. No tool of this project needs it: it is for users
    /// of the library.
    pub fn word(&self, lane: usize, memory: &[u8], address: u8) -> Option<u16>
        requires { lane < 64 }
        ensures is { (m : Parts) (entry : Entry) → Shows self.now lane m entry
            → result ≡ option_map (λ words. get_or words address 0) (value_in entry.memories memory.now) }
        ensures declared { (m : Parts) (entry : Entry) → Shows self.now lane m entry → is_some result ≡ has_name (memory_names m.items) memory.now }
    {
        self.board.word(lane, memory, address)
    }
}
