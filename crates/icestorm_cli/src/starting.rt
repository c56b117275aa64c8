// From the program's arguments to a status.
ghost use Rattle.std.specs.Prelude.{◌≡◌, ◌≢◌, IfErr, IfOk, drop, map, string_bytes};
ghost use Rattle.std.specs.IoError.{error_kind};
ghost use Rattle.std.specs.Vec.Iter.{into_iter_items};
ghost use Rattle.icestorm_cli.specs.Starts.{Keeps, Starts};

use crate::running::run;
use std::alloc::{AllocError, Global};
use std::env::Args;
use std::io::{self, ErrorKind};
use tool_run::Host;

/// The exit status if memory is out for the arguments.
const OUT_OF_MEMORY: u8 = 5;

/// The exit status if an argument isn't UTF-8.
const USAGE_ERROR: u8 = 2;

/// The exit status if the environment gives no arguments, by the kind of its error: out of memory, or an argument that isn't UTF-8.
fn status_without_args(kind: ErrorKind) -> u8
    ensures memory { kind ≡ ErrorKind.OutOfMemory → result ≡ 5 }
    ensures other { kind ≢ ErrorKind.OutOfMemory → result ≡ 2 }
{
    match kind {
        ErrorKind::OutOfMemory => OUT_OF_MEMORY,
        _ => USAGE_ERROR,
    }
}

/// All arguments in a list, in their order, or `AllocError` if memory is out.
fn listed(alloc: Global, args: Args) -> Result<Vec<String>, AllocError>
    ensures { IfOk result (λ list. list.items ≡ into_iter_items args) }
{
    let mut list = Vec::with_capacity(alloc, args.len())?;
    for arg in args {
        list.push(arg).map_err(AllocError::from)?;
    }
    Ok(list)
}

/// Does what the arguments after the first one ask for.
fn run_args<H: Host>(alloc: Global, args: &[String], host: &mut H) -> u8
    ensures { Keeps H.outside (drop 1 (map string_bytes args.now)) result (H.scene host.old) (H.scene host.new) }
{
    match args {
        [] => run(alloc, args, host),
        [_, args @ ..] => run(alloc, args, host),
    }
}

/// Lists the arguments and does what those after the first one ask for.
fn start_args<H: Host>(alloc: Global, args: Args, host: &mut H) -> u8
    ensures { Starts H.outside (map string_bytes (into_iter_items args)) result (H.scene host.old) (H.scene host.new) }
{
    match listed(alloc, args) {
        Ok(args) => run_args(alloc, args.as_slice(), host),
        Err(AllocError) => OUT_OF_MEMORY,
    }
}

/// Runs the program with the arguments that the environment gives, the first of which is the program's own name, and answers the exit
/// status. It does what the other arguments ask for. If memory is out for them, or if the environment gives an error in place of
/// arguments, nothing is touched: the status is 5 for out of memory, and 2 for an argument that isn't UTF-8.
pub fn start<H: Host>(alloc: Global, args: io::Result<Args>, host: &mut H) -> u8
    ensures given { IfOk args (λ args. Starts H.outside (map string_bytes (into_iter_items args)) result (H.scene host.old) (H.scene host.new)) }
    ensures memory { IfErr args (λ error. error_kind error ≡ ErrorKind.OutOfMemory → result ≡ 5) }
    ensures other { IfErr args (λ error. error_kind error ≢ ErrorKind.OutOfMemory → result ≡ 2) }
    ensures untouched { IfErr args (λ error. H.scene host.new ≡ H.scene host.old) }
{
    match args {
        Ok(args) => start_args(alloc, args, host),
        Err(error) => status_without_args(error.kind()),
    }
}
