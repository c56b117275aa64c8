// Runs over files and streams in memory, whose calls fail in turn. Whole runs of the built program are in check/transcripts.
ghost use Rattle.std.specs.Prelude.{◌≤◌};

mod small;
mod steps;
mod turns;

use crate::running::run;
use ice_io::{MemFiles, MemSink, MemSource, NamedFile};
use std::alloc::{AllocError, Global};
use tool_run::FilesAndStreams;

/// The name and the bytes of a file.
type Named<'a> = (&'a str, &'a [u8]);

/// How many bytes a read gives at most, and a write takes at most.
#[derive(Clone, Copy, Debug, PartialEq, Eq)]
enum Part {
    Large,
    Middle,
    Small,
}

impl Part {
    /// The number of bytes.
    fn most(self) -> usize
        ensures { 1 ≤ result }
    {
        match self {
            Part::Large => 10_000,
            Part::Middle => 500,
            Part::Small => 16,
        }
    }
}

/// How many bytes standard output takes.
const OUTPUT_ROOM: usize = 1_000_000;

/// What a run begins with.
#[derive(Clone, Copy)]
struct Setup<'a> {
    files: &'a [Named<'a>],
    /// How many bytes the file `out` takes.
    room: usize,
    /// How many bytes a read gives at most, and a write takes at most.
    part: Part,
    input: &'a [u8],
    /// The call of files that fails, counted from 1, or 0 if none fails. Reads and stores are counted together.
    failing_call: u64,
    /// The read of the input that fails, counted from 1, or 0.
    failing_read: u64,
    /// The write of standard output that fails, counted from 1, or 0.
    failing_write: u64,
    /// The write of standard error that fails, counted from 1, or 0. Each write has at most 7 bytes.
    failing_line: u64,
}

/// No files, an empty input, and nothing that fails.
const PLAIN: Setup<'static> = Setup {
    files: &[],
    room: 0,
    part: Part::Large,
    input: b"",
    failing_call: 0,
    failing_read: 0,
    failing_write: 0,
    failing_line: 0,
};

/// How a run ended: its status, what it wrote, and the bytes of the file `out`.
#[derive(Drop)]
struct Ended {
    status: u8,
    output: Vec<u8>,
    errors: Vec<u8>,
    stored: Vec<u8>,
}

impl Ended {
    /// Whether the run ended with this status and this line on standard error.
    fn says(&self, status: u8, line: &str) -> bool {
        self.status == status && self.errors.as_slice() == line.as_bytes()
    }

    /// Whether the run ended with this status and this line on standard error, and wrote nothing to standard output.
    fn refuses(&self, status: u8, line: &str) -> bool {
        self.says(status, line) && self.output.is_empty()
    }
}

/// The files and streams of a run.
#[derive(Drop)]
struct Stage {
    host: FilesAndStreams<MemFiles, MemSource, MemSink, MemSink>,
}

impl Stage {
    fn new(alloc: Global, setup: Setup<'_>) -> Result<Stage, AllocError> {
        let host = FilesAndStreams {
            files: files_of(alloc, setup)?,
            input: MemSource::new(
                setup.input.to_vec(alloc)?,
                setup.part.most(),
                [setup.failing_read].to_vec(alloc)?,
            ),
            output: sink(alloc, OUTPUT_ROOM, setup.part.most(), setup.failing_write)?,
            errors: sink(alloc, 100, 7, setup.failing_line)?,
        };
        Ok(Stage { host })
    }

    /// Runs the program with these words, and answers the status.
    fn run(&mut self, alloc: Global, words: &[&str]) -> Result<u8, AllocError> {
        let line = line_of(alloc, words)?;
        Ok(run(alloc, &line, &mut self.host))
    }

    /// How the run ended, which had this status.
    fn left(&self, alloc: Global, status: u8) -> Result<Ended, AllocError> {
        Ok(Ended {
            status,
            output: self.host.output.bytes().to_vec(alloc)?,
            errors: self.host.errors.bytes().to_vec(alloc)?,
            stored: self
                .host
                .files
                .bytes_of("out")
                .unwrap_or(&[])
                .to_vec(alloc)?,
        })
    }
}

/// A file of this name with these bytes.
fn file_of(alloc: Global, name: &str, bytes: &[u8]) -> Result<NamedFile, AllocError> {
    Ok(NamedFile {
        name: String::from_str(alloc, name)?,
        bytes: bytes.to_vec(alloc)?,
    })
}

/// The files of a run.
fn files_of(alloc: Global, setup: Setup<'_>) -> Result<MemFiles, AllocError> {
    let mut files = Vec::new(alloc);
    for (name, bytes) in setup.files {
        files.push(file_of(alloc, name, bytes)?)?;
    }
    let failing = [setup.failing_call].to_vec(alloc)?;
    MemFiles::new(alloc, files, "out", setup.room, setup.part.most(), failing)
}

/// A sink for at most `room` bytes, which takes at most `most` bytes in one write. The write with the number `failing` fails.
fn sink(alloc: Global, room: usize, most: usize, failing: u64) -> Result<MemSink, AllocError>
    requires { 1 ≤ most }
{
    MemSink::new(alloc, room, most, [failing].to_vec(alloc)?)
}

/// The command line of these words.
fn line_of(alloc: Global, words: &[&str]) -> Result<Vec<String>, AllocError> {
    let mut line = Vec::new(alloc);
    for word in words {
        line.push(String::from_str(alloc, word)?)?;
    }
    Ok(line)
}

/// How a run of these words ends.
fn outcome(alloc: Global, setup: Setup<'_>, words: &[&str]) -> Result<Ended, AllocError> {
    let mut stage = Stage::new(alloc, setup)?;
    let status = stage.run(alloc, words)?;
    stage.left(alloc, status)
}

/// The bytes that a tool writes to standard output for an input, or nothing if it refuses that.
fn made(alloc: Global, words: &[&str], input: &[u8]) -> Result<Vec<u8>, AllocError> {
    let Ended { output, .. } = outcome(alloc, Setup { input, ..PLAIN }, words)?;
    Ok(output)
}
