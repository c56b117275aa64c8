// The state between the lines of a database, and how a line is taken.
ghost use Rattle.std.specs.Prelude.{◌≡◌, ◌-◌, ◌^◌, ◌<◌, ◌≤◌, ℕ, List, length, IfOk, IfErr, OnErr, OnOk, MatchOption, MatchResult, None, false};
ghost use Rattle.std.specs.Result.{result_err};
ghost use Rattle.chipdb_lines.specs.Words.{has_none, own_words, words_in};
ghost use Rattle.chipdb_lines.specs.Items.{choice_of, global_input_of, global_pin_of};
ghost use Rattle.chipdb_lines.specs.Kept.{BeginsWithPair, Reports};

use crate::buffers::Buffers;
use crate::items::{Extra, Function, LinkLine, NetName};
use crate::nets::Nets;
use crate::plls::Plls;
use crate::texts::Texts;
use chipdb_lines::{
    Below, BitTable, Chip, Choice, DbLineRefusal, GlobalInput, GlobalPin, LinkHead, choice_item,
    choice_line, extra_item, function_item, global_input, global_pin, is_statement, name_item,
    own_words, pll_item, statement,
};
use plane_map::{DeviceName, TileKind};
use std::alloc::{AllocError, Global};

/// What the lines so far have given, and how the next ones are read.
#[derive(Drop)]
pub(crate) struct DatabaseState {
    pub(crate) chip: Option<Chip>,
    below: Below,
    pub(crate) texts: Texts,
    pub(crate) bits: BitTable,
    pub(crate) nets: Nets,
    pub(crate) buffers: Buffers,
    pub(crate) routings: Vec<LinkLine>,
    pub(crate) functions: Vec<Function>,
    pub(crate) extras: Vec<Extra>,
    pub(crate) global_inputs: Vec<GlobalInput>,
    pub(crate) global_pins: Vec<GlobalPin>,
    pub(crate) plls: Plls,
}

impl DatabaseState {
    ghost use Rattle.chipdb_reader.specs.Nets.{IsNetIndex};
    ghost use Rattle.chipdb_reader.specs.Texts.{IsIndexed};
    ghost use Rattle.chipdb_reader.specs.Buffers.{IsChosen};
    ghost use Rattle.chipdb_reader.specs.Reading.{BeginsBlock, BufferRefusal, ForCause, IsReady, IsUnread, NameRefusal, PushesBuffer, PushesExtra, PushesFunction, PushesName, RefusesFirst, RefusesItem, RefusesLine, RefusesWords, StatementRefusal, TakesFirst, TakesItem, TakesLine, TakesPllLine, TakesStatement, TakesWords, begin_cause};

    /// A reader that has read no line. It takes no memory yet.
    pub(crate) fn new(alloc: Global) -> DatabaseState
        ensures { IsUnread result }
    {
        DatabaseState {
            chip: None,
            below: Below::Passed,
            texts: Texts::new(alloc),
            bits: BitTable::new(alloc),
            nets: Nets::new(alloc),
            buffers: Buffers::new(alloc),
            routings: Vec::new(alloc),
            functions: Vec::new(alloc),
            extras: Vec::new(alloc),
            global_inputs: Vec::new(alloc),
            global_pins: Vec::new(alloc),
            plls: Plls::new(alloc),
        }
    }

    /// Takes the next line.
    pub(crate) fn accept(&mut self, line: &[u8]) -> Result<(), DbLineRefusal>
        requires ready { IsReady self.old }
        requires room { length self.old.texts.arena < 2 ^ 32 - 1 }
        requires lists { length self.old.bits < 2 ^ 32 - 1 }
        ensures taken { IfOk result (λ _. TakesLine self.old line.now self.new) }
        ensures refused { IfErr result (ForCause (RefusesLine self.old line.now)) }
    {
        if is_statement(line) {
            self.accept_statement(line)
        } else {
            match own_words(line) {
                None => Ok(()),
                Some(words) => self.accept_words(words),
            }
        }
    }

    /// A fast path of `accept` for a line of links in its usual form: takes the first line of a text, and returns what follows it. `None`
    /// if the line has another form.
    pub(crate) fn accept_choice<'a>(
        &mut self,
        text: &'a [u8],
    ) -> Result<Option<&'a [u8]>, DbLineRefusal>
        requires { IsReady self.old }
        ensures taken { IfOk result (λ rest. MatchOption rest (self.new ≡ self.old) (λ rest. TakesFirst self.old text.now rest.now self.new)) }
        ensures refused { IfErr result (ForCause (RefusesFirst self.old text.now)) }
    {
        match (self.chip, self.below) {
            (Some(chip), Below::Buffers(head)) => self.first_buffer(chip, head, text),
            (Some(chip), Below::Routings(head)) => self.first_routing(chip, head, text),
            _ => Ok(None),
        }
    }

    /// The fast path below a `.buffer`.
    fn first_buffer<'a>(
        &mut self,
        chip: Chip,
        head: LinkHead,
        text: &'a [u8],
    ) -> Result<Option<&'a [u8]>, DbLineRefusal>
        requires chosen { IsChosen self.old.buffers }
        requires few { head.count ≤ 64 }
        ensures taken { IfOk result (λ rest. MatchOption rest (self.new ≡ self.old) (λ rest. BeginsWithPair text.now rest.now (λ words. TakesItem self.old chip (Below.Buffers head) words self.new))) }
        ensures refused { IfErr result (ForCause (λ cause. (rest : List ℕ) × BeginsWithPair text.now rest (λ words. RefusesItem self.old chip (Below.Buffers head) words cause))) }
    {
        match choice_line(chip.nets, head.count as usize, text) {
            None => Ok(None),
            Some(line) => match self.buffers.add(link(head, line.choice)) {
                Err(refusal) => Err(refusal),
                Ok(()) => Ok(Some(line.rest)),
            },
        }
    }

    /// The fast path below a `.routing`.
    fn first_routing<'a>(
        &mut self,
        chip: Chip,
        head: LinkHead,
        text: &'a [u8],
    ) -> Result<Option<&'a [u8]>, DbLineRefusal>
        requires { head.count ≤ 64 }
        ensures taken { IfOk result (λ rest. MatchOption rest (self.new ≡ self.old) (λ rest. BeginsWithPair text.now rest.now (λ words. TakesItem self.old chip (Below.Routings head) words self.new))) }
        ensures refused { IfErr result (Reports None) }
    {
        match choice_line(chip.nets, head.count as usize, text) {
            None => Ok(None),
            Some(line) => match self.routings.push(link(head, line.choice)) {
                Err(e) => Err(DbLineRefusal::Memory(AllocError::from(e))),
                Ok(()) => Ok(Some(line.rest)),
            },
        }
    }

    /// Takes a statement.
    fn accept_statement(&mut self, line: &[u8]) -> Result<(), DbLineRefusal>
        requires ready { IsReady self.old }
        requires lists { length self.old.bits < 2 ^ 32 - 1 }
        ensures taken { IfOk result (λ _. TakesStatement self.old line.now self.new) }
        ensures refused { IfErr result (ForCause (StatementRefusal self.old line.now)) }
    {
        let below = statement(self.chip, line, &mut self.bits)?;
        self.begin(below)
    }

    /// Begins the lines below a statement.
    fn begin(&mut self, below: Below) -> Result<(), DbLineRefusal>
        requires { IsNetIndex self.old.nets }
        ensures begun { IfOk result (λ _. BeginsBlock self.old below self.new) }
        ensures fits { OnOk result (begin_cause self.old.nets below ≡ None) }
        ensures refused { IfErr result (Reports (begin_cause self.old.nets below)) }
    {
        self.below = below;
        self.buffers.begin();
        match below {
            Below::Device(chip) => {
                self.chip = first_chip(self.chip, chip);
                Ok(())
            }
            Below::Names(net) => self.nets.begin(net),
            Below::Pll(x, y) => begin_pll(&mut self.plls, x, y),
            _ => Ok(()),
        }
    }

    /// Takes the words of a line for the statement above it.
    fn accept_words(&mut self, words: &[u8]) -> Result<(), DbLineRefusal>
        requires ready { IsReady self.old }
        requires room { length self.old.texts.arena < 2 ^ 32 - 1 }
        requires lists { length self.old.bits < 2 ^ 32 - 1 }
        requires some { has_none (words_in words.now) ≡ false }
        ensures taken { IfOk result (λ _. TakesWords self.old self.old.chip (words_in words.now) self.new) }
        ensures refused { IfErr result (ForCause (RefusesWords self.old self.old.chip (words_in words.now))) }
    {
        match self.chip {
            None => Ok(()),
            Some(chip) => self.accept_item(chip, words),
        }
    }

    /// Takes the words of a line for the statement above it, after the device was given.
    fn accept_item(&mut self, chip: Chip, words: &[u8]) -> Result<(), DbLineRefusal>
        requires ready { IsReady self.old }
        requires room { length self.old.texts.arena < 2 ^ 32 - 1 }
        requires lists { length self.old.bits < 2 ^ 32 - 1 }
        ensures taken { IfOk result (λ _. TakesItem self.old chip self.old.below (words_in words.now) self.new) }
        ensures refused { IfErr result (ForCause (RefusesItem self.old chip self.old.below (words_in words.now))) }
    {
        match self.below {
            Below::Passed | Below::Device(_) => Ok(()),
            Below::GlobalInputs => push_global_input(&mut self.global_inputs, chip.device, words),
            Below::GlobalPins => push_global_pin(&mut self.global_pins, chip.device, words),
            Below::Functions(kind) => self.accept_function(kind, words),
            Below::ExtraBits => self.accept_extra(chip.device, words),
            Below::Names(net) => self.accept_name(chip.device, net, words),
            Below::Buffers(head) => self.accept_buffer(chip.nets, head, words),
            Below::Routings(head) => push_routing(&mut self.routings, chip.nets, head, words),
            Below::Pll(_, _) => self.accept_pll_line(words),
        }
    }

    /// Takes a line of a PLL. A line of another form is skipped.
    fn accept_pll_line(&mut self, words: &[u8]) -> Result<(), DbLineRefusal>
        ensures taken { IfOk result (λ _. TakesPllLine self.old (pll_line_of (words_in words.now)) self.new) }
        ensures refused { IfErr result (Reports None) }
    {
        match pll_item(words) {
            None => Ok(()),
            Some(item) => match self.plls.add(item) {
                Ok(()) => Ok(()),
                Err(e) => Err(DbLineRefusal::Memory(e)),
            },
        }
    }

    /// Takes a line of functions.
    fn accept_function(&mut self, kind: TileKind, words: &[u8]) -> Result<(), DbLineRefusal>
        requires indexed { IsIndexed self.old.texts }
        requires room { length self.old.texts.arena < 2 ^ 32 - 1 }
        requires lists { length self.old.bits < 2 ^ 32 - 1 }
        ensures taken { IfOk result (λ _. PushesFunction kind (words_in words.now) self.old self.new) }
        ensures refused { IfErr result (Reports (result_err (function_of kind (words_in words.now)))) }
    {
        let item = function_item(kind, words, &mut self.bits)?;
        let name = self.texts.intern(item.name)?;
        self.functions
            .push(Function {
                kind,
                name,
                bits: item.bits,
            })
            .map_err(AllocError::from)?;
        Ok(())
    }

    /// Takes a line of extra bits.
    fn accept_extra(&mut self, device: DeviceName, words: &[u8]) -> Result<(), DbLineRefusal>
        requires indexed { IsIndexed self.old.texts }
        requires room { length self.old.texts.arena < 2 ^ 32 - 1 }
        ensures taken { IfOk result (λ _. PushesExtra device (words_in words.now) self.old self.new) }
        ensures refused { IfErr result (Reports (result_err (extra_of device (words_in words.now)))) }
    {
        match extra_item(device, words) {
            Err(cause) => Err(DbLineRefusal::Cause(cause)),
            Ok(item) => {
                let name = self.texts.intern(item.name)?;
                self.extras
                    .push(Extra { name, at: item.at })
                    .map_err(AllocError::from)?;
                Ok(())
            }
        }
    }

    /// Takes a name of a net.
    fn accept_name(
        &mut self,
        device: DeviceName,
        net: u32,
        words: &[u8],
    ) -> Result<(), DbLineRefusal>
        requires indexed { IsIndexed self.old.texts }
        requires nets { IsNetIndex self.old.nets }
        requires last { self.old.nets.last ≡ Some net }
        requires room { length self.old.texts.arena < 2 ^ 32 - 1 }
        ensures taken { IfOk result (λ _. PushesName device net (words_in words.now) self.old self.new) }
        ensures refused { IfErr result (ForCause (NameRefusal device net (words_in words.now) self.old)) }
    {
        match name_item(device, words) {
            Err(cause) => Err(DbLineRefusal::Cause(cause)),
            Ok(item) => {
                let name = self.texts.intern(item.name)?;
                self.nets.add(
                    net,
                    NetName {
                        x: item.x,
                        y: item.y,
                        name,
                    },
                )
            }
        }
    }

    /// Takes a line of a `.buffer`.
    fn accept_buffer(
        &mut self,
        nets: u32,
        head: LinkHead,
        words: &[u8],
    ) -> Result<(), DbLineRefusal>
        requires chosen { IsChosen self.old.buffers }
        requires few { head.count ≤ 64 }
        ensures taken { IfOk result (λ _. PushesBuffer nets head (words_in words.now) self.old self.new) }
        ensures refused { IfErr result (ForCause (BufferRefusal nets head (words_in words.now) self.old)) }
    {
        match choice_item(nets, head.count as usize, words) {
            Err(cause) => Err(DbLineRefusal::Cause(cause)),
            Ok(choice) => self.buffers.add(link(head, choice)),
        }
    }
}

ghost use Rattle.std.specs.Prelude.{Some};
ghost use Rattle.index_search.specs.Places.{or_else};
ghost use Rattle.chipdb_lines.specs.Items.{extra_of, function_of, pll_line_of};
ghost use Rattle.chipdb_reader.specs.Plls.{BeginsPll};
ghost use Rattle.chipdb_reader.specs.Reading.{Pushes, PushesRouting, link_with};

/// The device that was given before, or this one if none was.
fn first_chip(earlier: Option<Chip>, chip: Chip) -> Option<Chip>
    ensures { result ≡ or_else earlier (Some chip) }
{
    match earlier {
        Some(earlier) => Some(earlier),
        None => Some(chip),
    }
}

/// Begins the lines of the PLL at (x, y).
fn begin_pll(plls: &mut Plls, x: u32, y: u32) -> Result<(), DbLineRefusal>
    ensures begun { IfOk result (λ _. BeginsPll plls.old plls.new x y) }
    ensures refused { IfErr result (Reports None) }
{
    plls.begin(x, y)?;
    Ok(())
}

/// The link that a line of a statement gives.
fn link(head: LinkHead, choice: Choice) -> LinkLine
    ensures { result ≡ link_with head choice }
{
    LinkLine {
        x: head.x,
        y: head.y,
        dst: head.dst,
        src: choice.src,
        bits: head.bits,
        values: choice.values,
    }
}

/// Takes a line of a `.routing`.
fn push_routing(
    routings: &mut Vec<LinkLine>,
    nets: u32,
    head: LinkHead,
    words: &[u8],
) -> Result<(), DbLineRefusal>
    requires { head.count ≤ 64 }
    ensures taken { MatchResult result
        (λ _. PushesRouting nets head (words_in words.now) routings.old.items routings.new.items)
        (Reports (result_err (choice_of nets head.count (words_in words.now)))) }
    ensures unchanged { OnErr result (routings.new.items ≡ routings.old.items) }
{
    match choice_item(nets, head.count as usize, words) {
        Err(cause) => Err(DbLineRefusal::Cause(cause)),
        Ok(choice) => {
            routings.push(link(head, choice)).map_err(AllocError::from)?;
            Ok(())
        }
    }
}

/// Takes a line of a `.gbufin`.
fn push_global_input(
    inputs: &mut Vec<GlobalInput>,
    device: DeviceName,
    words: &[u8],
) -> Result<(), DbLineRefusal>
    ensures taken { MatchResult result
        (λ _. Pushes (global_input_of device (words_in words.now)) inputs.old.items inputs.new.items)
        (Reports (result_err (global_input_of device (words_in words.now)))) }
    ensures unchanged { OnErr result (inputs.new.items ≡ inputs.old.items) }
{
    match global_input(device, words) {
        Err(cause) => Err(DbLineRefusal::Cause(cause)),
        Ok(input) => {
            inputs.push(input).map_err(AllocError::from)?;
            Ok(())
        }
    }
}

/// Takes a line of a `.gbufpin`.
fn push_global_pin(
    pins: &mut Vec<GlobalPin>,
    device: DeviceName,
    words: &[u8],
) -> Result<(), DbLineRefusal>
    ensures taken { MatchResult result
        (λ _. Pushes (global_pin_of device (words_in words.now)) pins.old.items pins.new.items)
        (Reports (result_err (global_pin_of device (words_in words.now)))) }
    ensures unchanged { OnErr result (pins.new.items ≡ pins.old.items) }
{
    match global_pin(device, words) {
        Err(cause) => Err(DbLineRefusal::Cause(cause)),
        Ok(pin) => {
            pins.push(pin).map_err(AllocError::from)?;
            Ok(())
        }
    }
}
