// A module that runs.
ghost use Rattle.std.specs.Prelude.{◌≡◌, ◌<◌, All, IfOk, get_or, is_some, length};
ghost use Rattle.std.specs.Option.{option_map};

use std::alloc::{AllocError, Global};
use vlog_engine::Board;
use vlog_module::Module;
use vlog_semantics::Event;

/// A module that runs: its state after the start, and after each event.
///
/// All memory is taken when a runner is made.
///
/// # Example
/// ```ignore
/// // The output of `module` is the opposite of its input.
/// let mut runner = Runner::new(alloc, &module)?;
/// assert!(runner.outputs() == [true].as_slice());
/// runner.event(0, true);
/// assert!(runner.outputs() == [false].as_slice());
/// runner.run(&[Event { pin: 0, bit: false }, Event { pin: 0, bit: true }]);
/// assert!(runner.outputs() == [false].as_slice());
/// ```
#[derive(Drop)]
pub struct Runner {
    board: Board<bool>,
}

impl Runner {
    ghost use Rattle.vlog_module.specs.Maps.{value_in};
    ghost use Rattle.vlog_module.specs.Parts.{Parts};
    ghost use Rattle.vlog_semantics.specs.Entries.{Entry};
    ghost use Rattle.vlog_semantics.specs.ModuleSlots.{memory_names, register_names, wire_names, word_names};
    ghost use Rattle.vlog_semantics.specs.Named.{has_name, values_of};
    ghost use Rattle.vlog_semantics.specs.Run.{followed, input_names, last_of, module_run, run_from, start};
    ghost use Rattle.vlog_run.specs.Showing.{Shows, input_count};

    /// The module after the start: inputs are 0, registers and memories have their start values.
    ///
    /// # Errors
    /// `AllocError` if memory is out, and for no other cause.
    pub fn new(alloc: Global, module: &Module) -> Result<Runner, AllocError>
        ensures { IfOk result (λ runner. Shows runner «module».now (start «module».now)) }
    {
        Ok(Runner {
            board: Board::new(alloc, module)?,
        })
    }

    /// Gives an input a bit. `pin` is the index of the input among the inputs, in the order of the ports, from 0.
    pub fn event(&mut self, pin: usize, bit: bool)
        requires { pin < input_count self.old }
        ensures shows { (m : Parts) (entry : Entry) → Shows self.old m entry
            → Shows self.new m (followed m entry (record { pin = pin; bit = bit })) }
        ensures inputs { input_count self.new ≡ input_count self.old }
    {
        self.board.event(pin, true, bit);
    }

    /// Runs events, one after another. The tools give one event at a time, by [`Runner::event`]: this is for users of the library who have
    /// a list.
    pub fn run(&mut self, events: &[Event])
        requires { All (λ event. event.pin < input_count self.old) events.now }
        ensures from_start { (m : Parts) → Shows self.old m (start m) → Shows self.new m (last_of (start m) (module_run m events.now)) }
        ensures shows { (m : Parts) (entry : Entry) → Shows self.old m entry → Shows self.new m (last_of entry (run_from m entry events.now)) }
        ensures inputs { input_count self.new ≡ input_count self.old }
    {
        for event in events {
            self.event(event.pin, event.bit);
        }
    }

    /// How many inputs there are. No tool of this project needs it: it is for users of the library.
    pub fn inputs(&self) -> usize
        ensures is { result ≡ input_count self.now }
        ensures shown { (m : Parts) (entry : Entry) → Shows self.now m entry → result ≡ length (input_names m.ports) }
    {
        self.board.inputs()
    }

    /// The bits of the outputs, in the order of the ports.
    pub fn outputs(&self) -> &[bool]
        ensures { (m : Parts) (entry : Entry) → Shows self.now m entry → result.now ≡ values_of entry.outputs }
    {
        self.board.outputs()
    }

    /// The bit of the register of one bit with this name, if there is one. No tool of this project needs it: it is for users of the
    /// library.
    pub fn register(&self, name: &[u8]) -> Option<bool>
        ensures is { (m : Parts) (entry : Entry) → Shows self.now m entry → result ≡ value_in entry.registers name.now }
        ensures declared { (m : Parts) (entry : Entry) → Shows self.now m entry → is_some result ≡ has_name (register_names m.items) name.now }
    {
        self.board.register(name)
    }

    /// The word of the register of 16 bits with this name, if there is one. No tool of this project needs it: it is for users of the
    /// library.
    pub fn register_word(&self, name: &[u8]) -> Option<u16>
        ensures is { (m : Parts) (entry : Entry) → Shows self.now m entry → result ≡ value_in entry.words name.now }
        ensures declared { (m : Parts) (entry : Entry) → Shows self.now m entry → is_some result ≡ has_name (word_names m.items) name.now }
    {
        self.board.register_word(0, name)
    }

    /// The word at an address of the memory with this name, if there is one. No tool of this project needs it: it is for users of the
    /// library.
    pub fn word(&self, memory: &[u8], address: u8) -> Option<u16>
        ensures is { (m : Parts) (entry : Entry) → Shows self.now m entry
            → result ≡ option_map (λ words. get_or words address 0) (value_in entry.memories memory.now) }
        ensures declared { (m : Parts) (entry : Entry) → Shows self.now m entry → is_some result ≡ has_name (memory_names m.items) memory.now }
    {
        self.board.word(0, memory, address)
    }

    /// The bits of the inputs, in the order of the ports.
    pub fn input_bits(&self) -> &[bool]
        ensures { (m : Parts) (entry : Entry) → Shows self.now m entry → result.now ≡ values_of entry.inputs }
    {
        self.board.input_bits()
    }

    /// The bits of the registers of one bit, in the order of their declarations.
    pub fn registers(&self) -> &[bool]
        ensures { (m : Parts) (entry : Entry) → Shows self.now m entry → result.now ≡ values_of entry.registers }
    {
        self.board.registers()
    }

    /// The registers of 16 bits, in the order of their declarations.
    pub fn words(&self) -> &[u16]
        ensures { (m : Parts) (entry : Entry) → Shows self.now m entry → result.now ≡ values_of entry.words }
    {
        self.board.words(0)
    }

    /// Copies the bits of all wires, in the order of their declarations, to `wires`, which has to be as long.
    pub fn copy_wires(&self, wires: &mut [bool])
        ensures { (m : Parts) (entry : Entry) → Shows self.now m entry → length wires.old ≡ length (wire_names m.items) → wires.new ≡ values_of entry.wires }
    {
        self.board.copy_wires(wires);
    }
}
