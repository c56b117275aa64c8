//! Input and output: sources of bytes, sinks for bytes, and files by name. Each counts its failures; sources and files count the bytes that
//! were read, and files the stores that were begun.
//!
//! The sources, sinks and files in memory know their bytes, and fail at the calls that you choose. `StdSource`, `StdSink` and
//! `DirFiles` stand over the standard library. They promise that all bytes were read or written, and an exact count if not;
//! what lies in a file of the system, only the system knows.
#![tactic(auto)]

mod content;
mod dir_files;
mod files;
mod gathering;
mod kept_file;
mod mem_files;
mod memory;
mod named_file;
mod pieces;
mod real;
mod room;
mod sink;
mod source;
mod taker;

pub use content::Content;
pub use dir_files::DirFiles;
pub use files::{ContentFault, Files, StoreFault, load_into};
pub use mem_files::MemFiles;
pub use memory::{MemSink, MemSource};
pub use named_file::NamedFile;
pub use real::{StdSink, StdSource};
pub use sink::{PutFault, Sink, write_whole};
pub use source::{Failed, Source, TakeFault, read_all};
pub use taker::{Taker, feed_all};
