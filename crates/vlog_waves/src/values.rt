// The values of all variables.
ghost use Rattle.std.specs.Prelude.{◌≡◌, ◌+◌, ◌<◌, ◌^◌, false, get_or, length, vec_len, if◌then◌else◌};
ghost use Rattle.vlog_waves.specs.Variables.{port_bits};

use crate::items::count_wires;
use std::alloc::{AllocError, Global};
use vlog_module::{Module, Port};
use vlog_run::Runner;
use vlog_semantics::{bit_at, copy_bits, copy_words};

/// The values of the ports, the registers of one bit, the registers of 16 bits and the wires, each in their order. There are fewer than
/// 2^56 of each, since no memory has room for more.
#[derive(Drop)]
pub(crate) struct Values {
    pub(crate) ports: Vec<bool>,
    pub(crate) registers: Vec<bool>,
    pub(crate) words: Vec<u16>,
    pub(crate) wires: Vec<bool>,
    ghost few: { vec_len ports + vec_len registers + vec_len words + vec_len wires < 2 ^ 58 },
}

impl Values {
    ghost use Rattle.std.specs.Prelude.{IfOk};
    ghost use Rattle.vlog_module.specs.Parts.{Parts};
    ghost use Rattle.vlog_semantics.specs.Entries.{Entry};
    ghost use Rattle.vlog_run.specs.Showing.{Shows};
    ghost use Rattle.vlog_waves.specs.Variables.{values_in};
    ghost use Rattle.vlog_waves.specs.inside.Values.{AreAlike, Fits, event_room, values_held};

    /// The values of a module's variables in the state of a runner.
    pub(crate) fn new(alloc: Global, module: &Module, runner: &Runner) -> Result<Values, AllocError>
        ensures fits { (entry : Entry) → Shows runner.now «module».now entry → IfOk result (λ values. Fits «module».now values) }
        ensures held { (entry : Entry) → Shows runner.now «module».now entry → IfOk result (λ values. values_held values ≡ values_in «module».now entry) }
    {
        let mut values = Values::with_room(
            alloc,
            module.ports().len(),
            runner.registers().len(),
            runner.words().len(),
            count_wires(module.items()),
        )?;
        values.take(module.ports(), runner);
        Ok(values)
    }

    /// This many values of each kind, all 0.
    fn with_room(
        alloc: Global,
        ports: usize,
        registers: usize,
        words: usize,
        wires: usize,
    ) -> Result<Values, AllocError>
        ensures ports { IfOk result (λ values. vec_len values.ports ≡ ports) }
        ensures registers { IfOk result (λ values. vec_len values.registers ≡ registers) }
        ensures words { IfOk result (λ values. vec_len values.words ≡ words) }
        ensures wires { IfOk result (λ values. vec_len values.wires ≡ wires) }
    {
        let ports = vec![in alloc; false; ports]?;
        let registers = vec![in alloc; false; registers]?;
        let words = vec![in alloc; 0; words]?;
        let wires = vec![in alloc; false; wires]?;
        let most = 1 << 56;
        if ports.len() < most
            && registers.len() < most
            && words.len() < most
            && wires.len() < most
        {
            Ok(Values {
                ports,
                registers,
                words,
                wires,
            })
        } else {
            Err(AllocError)
        }
    }

    /// Takes the values from the state of a runner; the ports are those of its module.
    pub(crate) fn take(&mut self, ports: &[Port], runner: &Runner)
        ensures alike { AreAlike self.old self.new }
        ensures held { (m : Parts) (entry : Entry) → Shows runner.now m entry → ports.now ≡ m.ports → Fits m self.old → values_held self.new ≡ values_in m entry }
    {
        copy_ports(
            ports,
            runner.input_bits(),
            runner.outputs(),
            &mut self.ports,
        );
        copy_bits(runner.registers(), &mut self.registers);
        copy_words(runner.words(), &mut self.words);
        runner.copy_wires(&mut self.wires);
    }

    /// The number of the first register of one bit, as a variable.
    pub(crate) fn first_register(&self) -> usize
        ensures { result ≡ vec_len self.now.ports }
    {
        self.ports.len()
    }

    /// The number of the first register of 16 bits, as a variable.
    pub(crate) fn first_word(&self) -> usize
        ensures { result ≡ vec_len self.now.ports + vec_len self.now.registers }
    {
        self.first_register() + self.registers.len()
    }

    /// The number of the first wire, as a variable.
    pub(crate) fn first_wire(&self) -> usize
        ensures { result ≡ vec_len self.now.ports + vec_len self.now.registers + vec_len self.now.words }
    {
        self.first_word() + self.words.len()
    }

    /// The most bytes that the lines of an event may have: 32 for each line.
    pub(crate) fn event_room(&self) -> usize
        ensures { result ≡ event_room self.now }
    {
        32 * (self.first_wire() + self.wires.len()) + 32
    }
}

/// The bit of a port, from the bits of the inputs and the bits of the outputs.
fn port_bit(output: bool, inputs: &[bool], input: usize, outputs: &[bool], place: usize) -> bool
    ensures { result ≡ (if output then get_or outputs.now place false else get_or inputs.now input false) }
{
    if output {
        bit_at(outputs, place)
    } else {
        bit_at(inputs, input)
    }
}

/// The index of the next input after a port.
fn next_input(output: bool, input: usize) -> usize
    requires { input + 1 < 2 ^ 64 }
    ensures { result ≡ (if output then input else input + 1) }
{
    if output { input } else { input + 1 }
}

/// Sets `bits` to the bits of the ports, from those of the inputs and those of the outputs. `bits` has to be as long as `ports`.
fn copy_ports(ports: &[Port], inputs: &[bool], outputs: &[bool], bits: &mut [bool])
    ensures { length bits.old ≡ length ports.now → bits.new ≡ port_bits ports.now inputs.now outputs.now }
{
    if bits.len() != ports.len() {
        return;
    }
    let mut input = 0;
    for place in 0..ports.len() {
        let output = ports[place].output;
        bits[place] = port_bit(output, inputs, input, outputs, place - input);
        input = next_input(output, input);
    }
}
