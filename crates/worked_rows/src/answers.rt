//! What the program answers to a case.
use case_rows::{Case, Faults};
use command_answers::{Status, stl2st};
use command_words::image_name;
use s7_base::NoMemory;
use s7_io::{MemSink, MemSource, NoFile, Source, SureSource};
use std::alloc::Global;

/// The status with which the program ends, and what it has written.
pub type Answer = (Status, MemSink);

/// The answer to these arguments, for a source and what else the case gives. As the program's own `main`
/// does, it gives a missing file where the arguments name no image.
pub fn answer(
    alloc: Global,
    words: &[String],
    source: &[u8],
    case: &Case,
) -> Result<Answer, NoMemory> {
    if image_name(words).is_some() && case.faults.has_file {
        let image = case.image.as_slice();
        let mut image = MemSource::new(alloc, image, 4, &[case.faults.image])?;
        answer_over(alloc, words, source, &mut image, case.faults)
    } else {
        let mut image = NoFile::new();
        answer_over(alloc, words, source, &mut image, case.faults)
    }
}

/// The answer to these arguments over an image. A source of which no read fails is one that can't fail.
fn answer_over<M: Source>(
    alloc: Global,
    words: &[String],
    source: &[u8],
    image: &mut M,
    faults: Faults,
) -> Result<Answer, NoMemory> {
    if faults.read == 0 {
        let mut program = SureSource::new(alloc, source, 4096)?;
        answer_from(alloc, words, &mut program, image, faults)
    } else {
        let mut program = MemSource::new(alloc, source, 20, &[faults.read])?;
        answer_from(alloc, words, &mut program, image, faults)
    }
}

fn answer_from<P: Source, M: Source>(
    alloc: Global,
    words: &[String],
    program: &mut P,
    image: &mut M,
    faults: Faults,
) -> Result<Answer, NoMemory> {
    let mut out = MemSink::new(alloc, faults.room, 7, &[faults.write])?;
    let status = stl2st(alloc, words, program, image, &mut out);
    Ok((status, out))
}
