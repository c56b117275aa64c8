//! Project IceStorm's bitstream tools in one program: the first word of the command line is the tool.
#![tactic(auto)]

mod running;
mod starting;
mod tool;

use crate::starting::start;
use ice_io::{DirFiles, StdSink, StdSource};
use std::env;
use std::process::ExitCode;
use tool_run::FilesAndStreams;

fn main(rt: HostRuntime) -> ExitCode {
    let mut host = FilesAndStreams {
        files: DirFiles::new(&rt),
        input: StdSource::new(rt.stdin()),
        output: StdSink::new(rt.stdout()),
        errors: StdSink::new(rt.stderr()),
    };
    let args = env::args(&rt);
    ExitCode::from(start(rt.alloc(), args, &mut host))
}

#[cfg(test)]
mod tests;
