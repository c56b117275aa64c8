// Makes the lines of a run, piece by piece.
ghost use Rattle.std.specs.Prelude.{◌≡◌, ◌<◌, ◌≤◌, ◌+◌, ◌-◌, [], ◌∷◌, ◌++◌, All, IfOk, decimal, length, vec_capacity, vec_len};
ghost use Rattle.vlog_module.specs.Parts.{Parts};
ghost use Rattle.vlog_semantics.specs.Entries.{Entry};
ghost use Rattle.vlog_semantics.specs.Run.{followed, start};
ghost use Rattle.vlog_run.specs.Showing.{Shows, input_count};
ghost use Rattle.vlog_run.specs.Text.{entry_line};
ghost use Rattle.long_events.specs.Streams.{events_left};
ghost use Rattle.long_runs.specs.Shown.{numbered_line};
ghost use Rattle.long_runs.specs.declared.form.Shown.TheVariants.{Changes};
ghost use Rattle.long_runs.specs.inside.Printing.{HasRoom, end_text, event_text, start_text};
ghost use Rattle.long_runs.specs.inside.Values.{HasNames, Sees};

use crate::form::{LineForm, Shown};
use crate::seen::Seen;
use long_events::EventStream;
use run_pieces::push_number;
use std::alloc::{AllocError, Global};
use vlog_module::Module;
use vlog_run::{Event, Runner, push_byte, push_line};

/// A piece has at least so many bytes, unless it is the last one.
const PIECE: usize = 65_536;

/// The most bytes of a number and the space after it.
const NUMBER: usize = 32;

/// A run whose lines are made piece by piece. All memory is taken when it is made.
#[derive(Drop)]
pub(crate) struct Printer {
    runner: Runner,
    pub(crate) form: LineForm,
    /// The values of the line before, if changes are shown.
    seen: Seen,
    /// The last piece.
    pub(crate) text: Vec<u8>,
    /// The most bytes of a line with a number before it.
    pub(crate) line_room: usize,
    /// How many events there are.
    pub(crate) count: u64,
}

/// Adds the line of a runner.
fn put_line(text: &mut Vec<u8>, runner: &Runner, registers: bool)
    requires { HasRoom (vec_len text.old) (vec_capacity text.old) runner.now registers }
    ensures text { (m : Parts) (entry : Entry) → Shows runner.now m entry → text.new.items ≡ text.old.items ++ entry_line registers entry }
    ensures room { vec_capacity text.old ≤ vec_capacity text.new }
{
    push_line(text, runner, registers).unwrap();
}

/// Adds a number and a space.
fn put_number(text: &mut Vec<u8>, number: u64)
    requires { vec_len text.old + 32 ≤ vec_capacity text.old }
    ensures text { text.new.items ≡ text.old.items ++ (decimal number ++ 32 ∷ []) }
    ensures room { vec_capacity text.old ≤ vec_capacity text.new }
{
    push_number(text, number).unwrap();
    push_byte(text, b' ').unwrap();
}

/// Adds a number, a space and the line of a runner.
fn put_numbered_line(text: &mut Vec<u8>, runner: &Runner, registers: bool, number: u64)
    requires { HasRoom (vec_len text.old + 32) (vec_capacity text.old) runner.now registers }
    ensures text { (m : Parts) (entry : Entry) → Shows runner.now m entry → text.new.items ≡ text.old.items ++ numbered_line number (entry_line registers entry) }
    ensures room { vec_capacity text.old ≤ vec_capacity text.new }
{
    put_number(text, number);
    put_line(text, runner, registers);
}

/// Adds what is shown of the start.
fn put_start(text: &mut Vec<u8>, runner: &Runner, form: LineForm)
    requires { HasRoom (vec_len text.old + 32) (vec_capacity text.old) runner.now form.registers }
    ensures text { (m : Parts) (entry : Entry) → Shows runner.now m entry → text.new.items ≡ text.old.items ++ start_text form.shown form.registers entry }
    ensures room { vec_capacity text.old ≤ vec_capacity text.new }
{
    match form.shown {
        Shown::All => put_line(text, runner, form.registers),
        Shown::Changes => put_numbered_line(text, runner, form.registers, 0),
        Shown::Last => {}
    }
}

/// Adds what is shown after all events.
fn put_end(text: &mut Vec<u8>, runner: &Runner, form: LineForm)
    requires { HasRoom (vec_len text.old) (vec_capacity text.old) runner.now form.registers }
    ensures text { (m : Parts) (entry : Entry) → Shows runner.now m entry → text.new.items ≡ text.old.items ++ end_text form.shown form.registers entry }
    ensures room { vec_capacity text.old ≤ vec_capacity text.new }
{
    match form.shown {
        Shown::All | Shown::Changes => {}
        Shown::Last => put_line(text, runner, form.registers),
    }
}

/// Adds the line of a runner with a number before it, if the values of the line before are others.
fn put_changed(text: &mut Vec<u8>, seen: &mut Seen, runner: &Runner, registers: bool, number: u64)
    requires { HasRoom (vec_len text.old + 32) (vec_capacity text.old) runner.now registers }
    ensures text { (m : Parts) (before entry : Entry) → HasNames m before → HasNames m entry → Sees seen.old registers before → Shows runner.now m entry
        → text.new.items ≡ text.old.items ++ event_text Changes registers number before entry }
    ensures seen { (m : Parts) (before entry : Entry) → HasNames m before → HasNames m entry → Sees seen.old registers before → Shows runner.now m entry
        → Sees seen.new registers entry }
    ensures room { vec_capacity text.old ≤ vec_capacity text.new }
{
    if !seen.is_same(runner, registers) {
        put_numbered_line(text, runner, registers, number);
        seen.take(runner, registers);
    }
}

/// Adds what is shown of an event, after which the runner has its state.
fn put_event(text: &mut Vec<u8>, seen: &mut Seen, runner: &Runner, form: LineForm, number: u64)
    requires { HasRoom (vec_len text.old + 32) (vec_capacity text.old) runner.now form.registers }
    ensures text { (m : Parts) (before entry : Entry) → HasNames m before → HasNames m entry → (form.shown ≡ Changes → Sees seen.old form.registers before) → Shows runner.now m entry
        → text.new.items ≡ text.old.items ++ event_text form.shown form.registers number before entry }
    ensures seen { (m : Parts) (before entry : Entry) → HasNames m before → HasNames m entry → (form.shown ≡ Changes → Sees seen.old form.registers before) → Shows runner.now m entry
        → form.shown ≡ Changes → Sees seen.new form.registers entry }
    ensures room { vec_capacity text.old ≤ vec_capacity text.new }
{
    match form.shown {
        Shown::All => put_line(text, runner, form.registers),
        Shown::Changes => put_changed(text, seen, runner, form.registers, number),
        Shown::Last => {}
    }
}

/// The most bytes of a line of a runner with a number before it.
fn line_room(alloc: Global, runner: &Runner, registers: bool) -> Result<usize, AllocError>
    ensures { (m : Parts) (entry : Entry) → Shows runner.now m entry → IfOk result (λ room. room ≡ 32 + length (entry_line registers entry)) }
{
    let mut line = Vec::new(alloc);
    push_line(&mut line, runner, registers)?;
    Ok(line.len() + NUMBER)
}

/// An empty piece, with room for `line_room` bytes more than it may have.
fn empty_piece(alloc: Global, line_room: usize) -> Result<Vec<u8>, AllocError>
    ensures empty { IfOk result (λ text. text.items ≡ []) }
    ensures room { IfOk result (λ text. 65536 + line_room ≤ vec_capacity text) }
{
    match line_room.checked_add(PIECE) {
        Some(room) => Vec::with_capacity(alloc, room),
        None => Err(AllocError),
    }
}

impl Printer {
    ghost use Rattle.std.specs.Prelude.{true};
    ghost use Rattle.long_runs.specs.inside.Printing.{IsPrinting, Makes, Prints, StaysFormed, event_text, start_text};

    /// The run of a module at its start, over so many events. The piece is what is shown of the start.
    pub(crate) fn new(
        alloc: Global,
        module: &Module,
        count: u64,
        form: LineForm,
    ) -> Result<Printer, AllocError>
        ensures prints { IfOk result (λ printer. Prints printer «module».now (start «module».now)) }
        ensures text { IfOk result (λ printer. printer.text.items ≡ start_text form.shown form.registers (start «module».now)) }
        ensures form { IfOk result (λ printer. printer.form ≡ form) }
        ensures count { IfOk result (λ printer. printer.count ≡ count) }
    {
        let runner = Runner::new(alloc, module)?;
        let seen = Seen::new(alloc, &runner)?;
        let line_room = line_room(alloc, &runner, form.registers)?;
        let mut text = empty_piece(alloc, line_room)?;
        put_start(&mut text, &runner, form);
        Ok(Printer {
            runner,
            form,
            seen,
            text,
            line_room,
            count,
        })
    }

    /// Makes the next piece of what is shown of these events, and tells whether more may follow.
    pub(crate) fn next_piece(&mut self, events: &mut EventStream) -> bool
        requires printing { IsPrinting self.old }
        requires inputs { All (λ event. event.pin < input_count self.old.runner) (events_left events.old) }
        requires counted { length (events_left events.old) ≤ self.old.count }
        ensures makes { (m : Parts) (entry : Entry) → Prints self.old m entry → Makes self.old self.new m entry (events_left events.old) (events_left events.new) result }
        ensures full { result ≡ true → 65536 ≤ vec_len self.new.text }
        ensures inputs { All (λ event. event.pin < input_count self.new.runner) (events_left events.new) }
        ensures counted { length (events_left events.new) ≤ self.new.count }
        ensures formed { StaysFormed self.old self.new }
    {
        self.begin();
        while self.text.len() < PIECE {
            match events.next_event() {
                Some(event) => self.event(event, self.count - events.left()),
                None => {
                    self.end();
                    return false;
                }
            }
        }
        true
    }

    /// Begins a piece.
    fn begin(&mut self)
        ensures empty { self.new.text.items ≡ [] }
        ensures prints { (m : Parts) (entry : Entry) → Prints self.old m entry → Prints self.new m entry }
        ensures formed { StaysFormed self.old self.new }
    {
        self.text.clear();
    }

    /// Adds what is shown after all events.
    fn end(&mut self)
        requires printing { IsPrinting self.old }
        requires short { vec_len self.old.text < 65536 }
        ensures text { (m : Parts) (entry : Entry) → Prints self.old m entry
            → self.new.text.items ≡ self.old.text.items ++ end_text self.old.form.shown self.old.form.registers entry }
        ensures prints { (m : Parts) (entry : Entry) → Prints self.old m entry → Prints self.new m entry }
        ensures formed { StaysFormed self.old self.new }
    {
        put_end(&mut self.text, &self.runner, self.form);
    }

    /// Gives an input a bit, and adds what is shown of the event, whose number this is.
    fn event(&mut self, event: Event, number: u64)
        requires printing { IsPrinting self.old }
        requires pin { event.pin < input_count self.old.runner }
        requires short { vec_len self.old.text < 65536 }
        ensures text { (m : Parts) (entry : Entry) → Prints self.old m entry
            → self.new.text.items ≡ self.old.text.items ++ event_text self.old.form.shown self.old.form.registers number entry (followed m entry event) }
        ensures prints { (m : Parts) (entry : Entry) → Prints self.old m entry → Prints self.new m (followed m entry event) }
        ensures formed { StaysFormed self.old self.new }
    {
        self.runner.event(event.pin, event.bit);
        put_event(
            &mut self.text,
            &mut self.seen,
            &self.runner,
            self.form,
            number,
        );
    }
}
