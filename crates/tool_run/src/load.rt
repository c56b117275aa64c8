// The bytes that a tool needs, loaded in order.
ghost use Rattle.std.specs.Prelude.{◌≡◌, ◌∷◌, [], ◌+◌, ◌++◌, ℕ, List, length, ◌<◌, ◌≤◌, ◌^◌, true, false, map, vec_items, IfOk, IfErr, OnOk};
ghost use Rattle.std.specs.declared.alloc.AllocError.{AllocError};
ghost use Rattle.std.specs.Io.KnownBytes.{IsAtEnd};
ghost use Rattle.ice_io.specs.Takers.{TakesMore};
ghost use Rattle.tool_run.specs.Counts.{NeverFall, counts};
ghost use Rattle.tool_run.specs.Needs.{IsSound, is_stream, layout_need, need_of, reads_files, reads_input};
ghost use Rattle.tool_run.specs.Keeping.{KeepsTexts};
ghost use Rattle.tool_run.specs.Loads.{AreTextsOf, IsReached, IsTextOf, StopsLoading};

use crate::keeper::Keeper;
use ice_io::{Files, Source, TakeFault, Taker, feed_all, load_into, read_all};
use std::alloc::{AllocError, AllocFailed, Global};

/// Bytes that a tool needs: those of a file, or of standard input if there is no name.
#[derive(Clone, Copy, Debug, PartialEq, Eq)]
pub struct Load<'a> {
    pub name: Option<&'a str>,
    /// More bytes than these are refused.
    pub limit: usize,
}

/// The most bytes of a layout file.
const LAYOUT_LIMIT: usize = 65_536;

/// A layout file, as what is loaded.
pub(crate) fn layout_load(name: &str) -> Load<'_>
    ensures { need_of result ≡ layout_need name.now }
{
    Load {
        name: Some(name),
        limit: LAYOUT_LIMIT,
    }
}

/// Why bytes could not be loaded.
#[derive(Clone, Copy, Debug, PartialEq, Eq)]
pub(crate) enum LoadStop<'a> {
    /// This load failed.
    Failed(Load<'a>),
    /// This load has more bytes than its limit.
    TooLong(Load<'a>),
    /// Out of memory.
    Memory,
}

impl<'a, T: Drop> From<AllocFailed<T>> for LoadStop<'a> {
    ghost use Rattle.tool_run.specs.declared.load.LoadStop.TheVariants.{Memory};

    ghost from_gives = { λ _ stop. stop ≡ Memory };

    fn from(_: AllocFailed<T>) -> LoadStop<'a> {
        LoadStop::Memory
    }
}

// Why a load stopped at that fault.
fn stop_of(fault: TakeFault, load: Load<'_>) -> LoadStop<'_>
    ensures failed { fault ≡ TakeFault.Failed → result ≡ LoadStop.Failed load.entry }
    ensures too_long { fault ≡ TakeFault.TooLong → result ≡ LoadStop.TooLong load.entry }
    ensures memory { (e : AllocError) → fault ≡ TakeFault.Memory e → result ≡ LoadStop.Memory }
{
    match fault {
        TakeFault::Failed => LoadStop::Failed(load),
        TakeFault::TooLong => LoadStop::TooLong(load),
        TakeFault::Memory(_) => LoadStop::Memory,
    }
}

/// The bytes of one need.
pub(crate) fn load_one<'a, F: Files, I: Source>(
    alloc: Global,
    load: Load<'a>,
    files: &mut F,
    input: &mut I,
) -> Result<Vec<u8>, LoadStop<'a>>
    requires { load.limit < 2 ^ 32 }
    ensures text { IfOk result (λ bytes. IsTextOf (F.contents files.old) (I.left input.old) (need_of load.entry) bytes.items) }
    ensures stops { IfErr result (StopsLoading (F.contents files.old) (F.steady files.old) I.left (counts I.faults I.bytes_read) (need_of load.entry ∷ [])
        (counts F.load_faults F.bytes_read files.old) (counts F.load_faults F.bytes_read files.new) input.old input.new) }
    ensures end { OnOk result (is_stream (need_of load.entry).name ≡ true → IsAtEnd (I.left input.new)) }

    ensures same_contents { F.contents files.new ≡ F.contents files.old }
    ensures same_steady { F.steady files.new ≡ F.steady files.old }
    ensures same_stores { counts F.store_faults F.stores files.new ≡ counts F.store_faults F.stores files.old }
    ensures loads { NeverFall (counts F.load_faults F.bytes_read files.old) (counts F.load_faults F.bytes_read files.new) }
    ensures unread { is_stream (need_of load.entry).name ≡ false → input.new ≡ input.old }
    ensures unasked { is_stream (need_of load.entry).name ≡ true → files.new ≡ files.old }
{
    match load.name {
        Some(name) => match files.load(alloc, name, load.limit) {
            Ok(bytes) => Ok(bytes),
            Err(fault) => Err(stop_of(fault, load)),
        },
        None => match read_all(alloc, input, load.limit) {
            Ok(bytes) => Ok(bytes),
            Err(fault) => Err(stop_of(fault, load)),
        },
    }
}

/// Gives the bytes of one need to a taker, in pieces.
pub(crate) fn feed_one<'a, K: Taker, F: Files, I: Source>(
    alloc: Global,
    load: Load<'a>,
    files: &mut F,
    input: &mut I,
    taker: &mut K,
) -> Result<(), LoadStop<'a>>
    requires limit { load.limit < 2 ^ 32 }
    requires none { K.fed taker.old ≡ 0 }
    ensures text { OnOk result ((bytes : List ℕ) × IsTextOf (F.contents files.old) (I.left input.old) (need_of load.entry) bytes
        × TakesMore K.has_taken taker.old taker.new bytes) }
    ensures stops { IfErr result (StopsLoading (F.contents files.old) (F.steady files.old) I.left (counts I.faults I.bytes_read) (need_of load.entry ∷ [])
        (counts F.load_faults F.bytes_read files.old) (counts F.load_faults F.bytes_read files.new) input.old input.new) }
    ensures end { OnOk result (is_stream (need_of load.entry).name ≡ true → IsAtEnd (I.left input.new)) }

    ensures same_contents { F.contents files.new ≡ F.contents files.old }
    ensures same_steady { F.steady files.new ≡ F.steady files.old }
    ensures same_stores { counts F.store_faults F.stores files.new ≡ counts F.store_faults F.stores files.old }
    ensures loads { NeverFall (counts F.load_faults F.bytes_read files.old) (counts F.load_faults F.bytes_read files.new) }
    ensures unread { is_stream (need_of load.entry).name ≡ false → input.new ≡ input.old }
    ensures unasked { is_stream (need_of load.entry).name ≡ true → files.new ≡ files.old }
{
    match load.name {
        Some(name) => match load_into(alloc, files, name, load.limit, taker) {
            Ok(()) => Ok(()),
            Err(fault) => Err(stop_of(fault, load)),
        },
        None => match feed_all(alloc, input, load.limit, taker) {
            Ok(()) => Ok(()),
            Err(fault) => Err(stop_of(fault, load)),
        },
    }
}

/// Loads the text of each need into a keeper, in order. The first that fails decides.
pub(crate) fn load_all<'a, K: Keeper, F: Files, I: Source>(
    alloc: Global,
    loads: &[Load<'a>],
    files: &mut F,
    input: &mut I,
    keeper: &mut K,
) -> Result<(), LoadStop<'a>>
    requires sound { IsSound (map need_of loads.now) }
    requires ready { K.is_ready keeper.old }
    ensures texts { OnOk result ((texts : List (List ℕ)) × AreTextsOf (F.contents files.old) (I.left input.old) (map need_of loads.now) texts
        × KeepsTexts K.has_kept keeper.old keeper.new texts) }
    ensures stops { IfErr result (StopsLoading (F.contents files.old) (F.steady files.old) I.left (counts I.faults I.bytes_read) (map need_of loads.now)
        (counts F.load_faults F.bytes_read files.old) (counts F.load_faults F.bytes_read files.new) input.old input.new) }
    ensures end { OnOk result (reads_input (map need_of loads.now) ≡ true → IsAtEnd (I.left input.new)) }

    ensures same_contents { F.contents files.new ≡ F.contents files.old }
    ensures same_stores { counts F.store_faults F.stores files.new ≡ counts F.store_faults F.stores files.old }
    ensures unread { reads_input (map need_of loads.now) ≡ false → input.new ≡ input.old }
    ensures unreached { IsReached (F.contents files.old) I.left (map need_of loads.now) input.old input.new }
    ensures unasked { reads_files (map need_of loads.now) ≡ false → files.new ≡ files.old }
{
    for load in loads {
        match keeper.keep_text(alloc, *load, files, input) {
            Ok(()) => {}
            Err(stop) => return Err(stop),
        }
    }
    Ok(())
}
