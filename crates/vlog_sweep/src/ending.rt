// The text after the last event, if each list has one line.
ghost use Rattle.std.specs.Prelude.{◌≡◌, ◌<◌, ◌≤◌, ◌++◌, ℕ, IfOk, OnOk, false, flat_map, fold, get_or, length};
ghost use Rattle.vlog_module.specs.Parts.{Parts};
ghost use Rattle.vlog_semantics.specs.Run.{followed, start};
ghost use Rattle.vlog_run.specs.Text.{entry_line};
ghost use Rattle.vlog_sweep.specs.Strands.{line_of};
ghost use Rattle.vlog_sweep.specs.Sweep.{last_text};
ghost use Rattle.vlog_sweep.specs.declared.list.EventList.{EventList as list_of};

use crate::lines::lane_line;
use crate::list::EventList;
use std::alloc::{AllocError, Global};

/// Adds the heading of a list and the line of its lane.
fn add_last(
    alloc: Global,
    text: &mut Vec<u8>,
    list: &EventList,
    outputs: &[u64],
    lane: u32,
) -> Result<(), AllocError>
    requires { lane < 64 }
    ensures { OnOk result (text.new.items ≡ text.old.items ++ (list.now.heading.items ++ line_of outputs.now lane)) }
{
    let line = lane_line(alloc, outputs, lane)?;
    text.extend_from_slice(&list.heading)?;
    text.extend_from_slice(&line)?;
    Ok(())
}

/// The heading of each list and the line of its lane, from the outputs after the last event.
pub(crate) fn last_lines(
    alloc: Global,
    lists: &[EventList],
    outputs: &[u64],
) -> Result<Vec<u8>, AllocError>
    requires { length lists.now ≤ 64 }
    ensures { (m : Parts) → ((k : ℕ) (d : list_of) → k < length lists.now
        → line_of outputs.now k ≡ entry_line false (fold (followed m) (start m) (get_or lists.now k d).events.items))
        → IfOk result (λ text. text.items ≡ flat_map (last_text m) lists.now) }
{
    let mut text = Vec::new(alloc);
    for lane in 0..lists.len() {
        add_last(alloc, &mut text, &lists[lane], outputs, lane as u32)?;
    }
    Ok(text)
}
