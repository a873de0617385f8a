//! Where bytes come from and where they go: sources and sinks, in memory for tests and over std's readers and
//! writers for the program.
//!
//! Uses `s7_base` for `NoMemory`. A source may tell the bytes that are still to come, and a sink those that
//! it took. Each counts its faults, so that a fault which is answered can be traced to the object that was
//! given. `read_all` and `write_all` say in every case what became of the bytes.
#![tactic(auto)]

pub use mem_sink::MemSink;
pub use mem_source::{MemSource, SureSource};
pub use no_file::NoFile;
pub use read::{ReadRefusal, read_all};
pub use sink::Sink;
pub use source::{Failed, Source};
pub use std_streams::{StdSink, StdSource};
pub use write::{WriteFault, write_all};

mod mem_sink;
mod mem_source;
mod no_file;
mod plan;
mod read;
mod sink;
mod source;
mod std_streams;
mod write;
