// The waves of `vlogrun`: a VCD (value change dump).
ghost use Rattle.std.specs.Prelude.{◌≡◌, [], IfOk, IfErr};
ghost use Rattle.tool_run.specs.Stops.{StopsWith};
ghost use Rattle.tool_run.specs.Tasks.{Done};
ghost use Rattle.vlog_forms.specs.Outcome.{outcome_of};
ghost use Rattle.vlog_waves.specs.Whole.{waves_in};
ghost use Rattle.wire_names.specs.Faults.{names_fault_of};
ghost use Rattle.module_tools.specs.Events.{list_fault};
ghost use Rattle.module_tools.specs.Vlogrun.{run_of, run_over, waves_of, waves_over};
ghost use Rattle.module_tools.specs.declared.told.Told.TheVariants.{Waves as WavesTold};

use crate::events::read_list;
use crate::faults::{list_refusal, names_refusal, vlog_refusal};
use crate::told::EventsForm;
use long_events::LongFault;
use std::alloc::Global;
use tool_run::{Stop, Tool, loaded_at};
use vlog_parser::{Module, VlogFault, parse};
use vlog_run::EventFault;
use vlog_waves::{Waves, WavesFault};
use wire_names::{WireNames, WireNamesFault, read_names};

/// Loads a module and a list of events, runs the module over the events, and tells the waves of the run.
#[derive(Clone, Copy, Debug, PartialEq, Eq)]
pub(crate) struct Tracing {
    pub(crate) form: EventsForm,
}

impl Tool for Tracing {
    ghost use Rattle.module_tools.specs.Vlogrun.{vlogrun_answer};
    ghost use Rattle.module_tools.specs.declared.told.Told.TheVariants.{Waves as WavesTold};

    ghost answer_of = { λ tool texts. vlogrun_answer WavesTold tool.form texts };

    type Made = Waves;

    fn answer(&self, alloc: Global, loaded: &Vec<Vec<u8>>) -> Result<Waves, Stop<'_>> {
        let (text, events) = (loaded_at(loaded, 0), loaded_at(loaded, 1));
        trace_texts(alloc, text, events, self.form)
    }
}

/// Loads a module, a list of names for its wires, and a list of events, runs the module over the events, and tells the waves of the run with
/// these names.
#[derive(Clone, Copy, Debug, PartialEq, Eq)]
pub(crate) struct NamedTracing {
    pub(crate) form: EventsForm,
}

impl Tool for NamedTracing {
    ghost use Rattle.module_tools.specs.Vlogrun.{waves_answer};

    ghost answer_of = { λ tool texts. waves_answer tool.form texts };

    type Made = Waves;

    fn answer(&self, alloc: Global, loaded: &Vec<Vec<u8>>) -> Result<Waves, Stop<'_>> {
        trace_named_texts(
            alloc,
            loaded_at(loaded, 0),
            loaded_at(loaded, 1),
            loaded_at(loaded, 2),
            self.form,
        )
    }
}

// The waves of the run of a module over events, from the texts of both.
#[tactic(auto, using(crate::proofs::Outcomes::outcome_spelled, crate::proofs::Outcomes::outcome_faulty))]
fn trace_texts(
    alloc: Global,
    text: &[u8],
    events: &[u8],
    form: EventsForm,
) -> Result<Waves, Stop<'static>>
    ensures bytes { IfOk result (λ waves. run_of WavesTold form (outcome_of text.now) events.now ≡ Done (waves_in waves)) }
    ensures stops { IfErr result (StopsWith (run_of WavesTold form (outcome_of text.now) events.now)) }
{
    match parse(alloc, text) {
        Ok(module) => trace_module(alloc, module, WireNames::none(alloc), events, form),
        Err(VlogFault::At { offset, cause }) => Err(Stop::Refused(vlog_refusal(offset, cause))),
        Err(VlogFault::Memory(_)) => Err(Stop::Memory),
    }
}

// The waves of the run of a module over events, with names of wires, from the texts of all three.
#[tactic(auto, using(crate::proofs::Outcomes::outcome_spelled, crate::proofs::Outcomes::outcome_faulty))]
fn trace_named_texts(
    alloc: Global,
    text: &[u8],
    list: &[u8],
    events: &[u8],
    form: EventsForm,
) -> Result<Waves, Stop<'static>>
    ensures bytes { IfOk result (λ waves. waves_of form (outcome_of text.now) list.now events.now ≡ Done (waves_in waves)) }
    ensures stops { IfErr result (StopsWith (waves_of form (outcome_of text.now) list.now events.now)) }
{
    match parse(alloc, text) {
        Ok(module) => trace_list(alloc, module, list, events, form),
        Err(VlogFault::At { offset, cause }) => Err(Stop::Refused(vlog_refusal(offset, cause))),
        Err(VlogFault::Memory(_)) => Err(Stop::Memory),
    }
}

// The waves of the run of a module over events, with the names of a list.
fn trace_list(
    alloc: Global,
    module: Module,
    list: &[u8],
    events: &[u8],
    form: EventsForm,
) -> Result<Waves, Stop<'static>>
    ensures bytes { IfOk result (λ waves. waves_over form «module» list.now events.now (names_fault_of «module» list.now) ≡ Done (waves_in waves)) }
    ensures stops { IfErr result (StopsWith (waves_over form «module» list.now events.now (names_fault_of «module» list.now))) }
{
    match read_names(alloc, &module, list) {
        Ok(names) => trace_module(alloc, module, names, events, form),
        Err(WireNamesFault::At { line, cause }) => Err(Stop::Refused(names_refusal(line, cause))),
        Err(WireNamesFault::Memory(_)) => Err(Stop::Memory),
    }
}

// The waves of the run of a module over events, with these names of wires.
fn trace_module(
    alloc: Global,
    module: Module,
    names: WireNames,
    events: &[u8],
    form: EventsForm,
) -> Result<Waves, Stop<'static>>
    ensures bytes { IfOk result (λ waves. run_over WavesTold form names «module» events.now (list_fault form «module».ports events.now) ≡ Done (waves_in waves)) }
    ensures stops { IfErr result (StopsWith (run_over WavesTold form names «module» events.now (list_fault form «module».ports events.now))) }
{
    match read_list(alloc, &module, events, form) {
        Ok(events) => match Waves::new(alloc, module, names, events) {
            Ok(waves) => Ok(waves),
            Err(WavesFault::Long) => Err(Stop::Refused(list_refusal(LongFault::Long))),
            Err(WavesFault::Memory(_)) => Err(Stop::Memory),
        },
        Err(LongFault::Event(EventFault::Memory(_))) => Err(Stop::Memory),
        Err(fault) => Err(Stop::Refused(list_refusal(fault))),
    }
}
