// The lines of a run, made while they are written.
ghost use Rattle.std.proofs.Props.{props};
ghost use Rattle.std.specs.Prelude.{◌≡◌, ◌+◌, ◌*◌, ◌<◌, ◌≤◌, ◌^◌, All, IfNone, IfSome, length, nat_lt, vec_len};
ghost use Rattle.vlog_semantics.specs.Run.{start};
ghost use Rattle.vlog_run.specs.Showing.{input_count};
ghost use Rattle.run_pieces.specs.Shapes.{in_range-prop, shaped-prop};
ghost use Rattle.long_events.specs.Streams.{events_left};
ghost use Rattle.long_runs.specs.Shown.{head_text, most_lines};
ghost use Rattle.long_runs.specs.inside.Printing.{Prints, start_text};

use crate::fault::LinesFault;
use crate::form::{LineForm, Shown};
use crate::head::head_of;
use crate::printer::Printer;
use crate::sending::write_lines;
use ice_io::{Content, PutFault, Sink};
use long_events::EventStream;
use std::alloc::Global;
use vlog_module::Module;

/// The lines of a module's run over events that are shown. They are made while they are written: only a piece of them is in memory at a time.
///
/// # Example
/// ```ignore
/// let events = read_long_events(alloc, &module, b"clk ~ 1000000\n")?;
/// let form = LineForm { shown: Shown::Changes, registers: false, head: true };
/// let lines = RunLines::new(alloc, module, events, form)?;
/// let mut sink = MemSink::new(alloc, 4096, 512, Vec::new(alloc))?;
/// let done = lines.write_to(&mut sink);
/// ```
#[derive(Drop)]
pub struct RunLines {
    module: Module,
    events: EventStream,
    /// The line with the names, if it is asked for.
    head: Vec<u8>,
    printer: Printer,
    ghost inputs: { All (λ event. event.pin < input_count printer.runner) (events_left events) },
    ghost counted: { printer.count ≡ length (events_left events) },
    ghost few: { vec_len head + most_lines printer.form.shown (length (events_left events)) * printer.line_room < 2 ^ 64 },
    ghost headed: { head.items ≡ head_text «module» printer.form },
    ghost prints: { Prints printer «module» (start «module») } by { Prim.hlevel (props, shaped-prop, in_range-prop) },
    ghost started: { printer.text.items ≡ start_text printer.form.shown printer.form.registers (start «module») },
}

impl RunLines {
    ghost use Rattle.std.specs.Prelude.{IfErr, IfOk, OnOk, true};
    ghost use Rattle.vlog_semantics.specs.Run.{input_names};
    ghost use Rattle.long_runs.specs.Shown.{TellsLines, is_countable, shown_text};
    ghost use Rattle.long_runs.specs.Whole.{lines_in};

    /// Prepares the lines of this module's run over these events. All memory is taken here.
    ///
    /// # Errors
    /// [`LinesFault::Long`] if the most bytes that the lines may have don't fit 64 bits. Out of memory may come in place of any other answer.
    pub fn new(
        alloc: Global,
        module: Module,
        events: EventStream,
        form: LineForm,
    ) -> Result<RunLines, LinesFault>
        requires { All (λ event. event.pin < length (input_names «module».ports)) (events_left events) }
        ensures lines { IfOk result (λ lines. lines_in lines ≡ shown_text «module» (events_left events) form) }
        ensures counted { OnOk result (is_countable «module» (length (events_left events)) form ≡ true) }
        ensures refused { IfErr result (TellsLines (is_countable «module» (length (events_left events)) form)) }
    {
        let head = head_of(alloc, &module, form)?;
        let printer = Printer::new(alloc, &module, events.left(), form)?;
        if fits(head.len(), form.shown, events.left(), printer.line_room) {
            Ok(RunLines {
                module,
                events,
                head,
                printer,
            })
        } else {
            Err(LinesFault::Long)
        }
    }
}

/// Whether the most bytes of a head and of the lines of a run with so many events, each of so many bytes, fit 64 bits.
fn fits(head: usize, shown: Shown, events: u64, room: usize) -> bool
    requires { 0 < room }
    ensures { result ≡ nat_lt (head + most_lines shown events * room) (2 ^ 64) }
{
    match most_lines(shown, events) {
        Some(lines) => match lines.checked_mul(room as u64) {
            Some(most) => most.checked_add(head as u64).is_some(),
            None => false,
        },
        None => false,
    }
}

/// The most lines that are shown of a run with so many events, if that fits 64 bits.
fn most_lines(shown: Shown, events: u64) -> Option<u64>
    ensures some { IfSome result (λ lines. lines ≡ most_lines shown events) }
    ensures none { IfNone result (2 ^ 64 ≤ most_lines shown events) }
{
    match shown {
        Shown::All | Shown::Changes => events.checked_add(1),
        Shown::Last => Some(1),
    }
}

/// The lines are made when they are written, and each piece goes out in as many writes as the sink takes for it.
impl Content for RunLines {
    ghost use Rattle.long_runs.specs.Whole.{lines_in};

    ghost bytes = { lines_in };

    fn write_to<K: Sink>(self, sink: &mut K) -> Result<(), PutFault> {
        let RunLines {
            module: _,
            mut events,
            head,
            mut printer,
        } = self;
        match write_lines(sink, &head, &mut events, &mut printer) {
            Ok(_) => Ok(()),
            Err(fault) => Err(fault),
        }
    }
}
