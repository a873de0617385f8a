//! `stl2st` reads Statement List for the S7-300 and writes Structured Text that does exactly what the source
//! did, or names the first broken rule and its line. It runs both on memory images.
//!
//! The call that it makes, `stl2st` of `command_answers`, has the promises of the program as its clauses.
//! Here it gets arguments and streams, with the image that `image_name` of `command_words` finds, and the
//! number of its status is that of the process. Cases of the call are in `worked_rows`.
#![tactic(auto)]

use crate::image_file::ImageFile;
use command_answers::{Status, stl2st};
use command_words::image_name;
use s7_io::{NoFile, StdSink, StdSource};
use std::process::ExitCode;
use std::{env, io};

mod image_file;

/// The words after the program's name.
fn arguments(rt: &HostRuntime) -> io::Result<Vec<String>> {
    let mut words = Vec::new(rt.alloc());
    for word in env::args(rt)?.skip(1) {
        words.push(word)?;
    }
    Ok(words)
}

fn run(rt: &HostRuntime) -> Status {
    let words = match arguments(rt) {
        Ok(words) => words,
        Err(error) if error.kind() == io::ErrorKind::OutOfMemory => return Status::NoMemory,
        // A word that is no text is part of no command.
        Err(_) => Vec::new(rt.alloc()),
    };
    let words = words.as_slice();
    let mut program = StdSource::new(rt.reader());
    let mut out = StdSink::new(io::writer(rt));
    match image_name(words) {
        Some(name) => {
            let mut image = StdSource::new(ImageFile::of_name(rt, name));
            stl2st(rt.alloc(), words, &mut program, &mut image, &mut out)
        }
        None => {
            let mut image = NoFile::new();
            stl2st(rt.alloc(), words, &mut program, &mut image, &mut out)
        }
    }
}

fn main(rt: HostRuntime) -> ExitCode {
    ExitCode::from(run(&rt).number())
}
