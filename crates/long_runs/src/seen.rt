// The values that a line has.
ghost use Rattle.std.specs.Prelude.{◌≡◌, ◌<◌, ◌↔◌, All, Bool, IfOk, IsTrue, false, true};
ghost use Rattle.vlog_module.specs.Parts.{Parts};
ghost use Rattle.vlog_semantics.specs.Entries.{Entry};
ghost use Rattle.vlog_run.specs.Showing.{Shows};
ghost use Rattle.vlog_run.specs.Text.{entry_line};
ghost use Rattle.vlog_semantics.specs.Named.{values_of};

use std::alloc::{AllocError, Global};
use vlog_run::Runner;
use vlog_semantics::{copy_bits, copy_words};

/// The values of the outputs, of the registers of one bit, and of those of 16 bits.
#[derive(Drop)]
pub(crate) struct Seen {
    outputs: Vec<bool>,
    registers: Vec<bool>,
    words: Vec<u16>,
}

impl Seen {
    ghost use Rattle.long_runs.specs.inside.Values.{HasNames, Sees};

    /// The values of the state of a runner.
    pub(crate) fn new(alloc: Global, runner: &Runner) -> Result<Seen, AllocError>
        ensures { (m : Parts) (entry : Entry) (registers : Bool) → Shows runner.now m entry → IfOk result (λ seen. Sees seen registers entry) }
    {
        let outputs = Vec::from_slice(alloc, runner.outputs())?;
        let registers = Vec::from_slice(alloc, runner.registers())?;
        let words = Vec::from_slice(alloc, runner.words())?;
        Ok(Seen {
            outputs,
            registers,
            words,
        })
    }

    /// Whether the line of the state of a runner has these values.
    pub(crate) fn is_same(&self, runner: &Runner, registers: bool) -> bool
        ensures sees { (m : Parts) (entry : Entry) → Shows runner.now m entry → result ≡ true → Sees self.now registers entry }
        ensures other { (m : Parts) (before entry : Entry) → Sees self.now registers before → Shows runner.now m entry → result ≡ false
            → entry_line registers before ≡ entry_line registers entry → ⊥ }
    {
        are_same_bits(&self.outputs, runner.outputs()) && (!registers || self.has_registers(runner))
    }

    /// Whether the registers of a runner have these values.
    fn has_registers(&self, runner: &Runner) -> bool
        ensures bits { (m : Parts) (entry : Entry) → Shows runner.now m entry → result ≡ true → self.now.registers.items ≡ values_of entry.registers }
        ensures words { (m : Parts) (entry : Entry) → Shows runner.now m entry → result ≡ true → self.now.words.items ≡ values_of entry.words }
        ensures other { (m : Parts) (before entry : Entry) → self.now.registers.items ≡ values_of before.registers → self.now.words.items ≡ values_of before.words
            → Shows runner.now m entry → result ≡ false → entry_line true before ≡ entry_line true entry → ⊥ }
    {
        are_same_bits(&self.registers, runner.registers())
            && are_same_words(&self.words, runner.words())
    }

    /// Takes the values of the line of the state of a runner of the same module.
    pub(crate) fn take(&mut self, runner: &Runner, registers: bool)
        ensures { (m : Parts) (before entry : Entry) → HasNames m before → HasNames m entry → Sees self.old registers before → Shows runner.now m entry → Sees self.new registers entry }
    {
        copy_bits(runner.outputs(), &mut self.outputs);
        if registers {
            copy_bits(runner.registers(), &mut self.registers);
            copy_words(runner.words(), &mut self.words);
        }
    }
}

/// Whether two lists of bits are the same.
fn are_same_bits(some: &[bool], others: &[bool]) -> bool
    ensures { IsTrue result ↔ (some.now ≡ others.now) }
{
    some == others
}

/// Whether two lists of words are the same. Each word has 16 bits.
fn are_same_words(some: &[u16], others: &[u16]) -> bool
    ensures same { IsTrue result ↔ (some.now ≡ others.now) }
    ensures some_fit { All (λ word. word < 65536) some.now }
    ensures others_fit { All (λ word. word < 65536) others.now }
{
    some == others
}
