//! Cases for what no clause says: that the calls succeed where memory is found, how much is asked of a
//! source, and what comes of a reader or a writer that fails in the middle.

use crate::wants::{wants, wants_text};
use s7_base::NoMemory;
use s7_io::{
    Failed, MemSink, MemSource, NoFile, ReadRefusal, Source, StdSink, StdSource, SureSource,
    WriteFault, read_all, write_all,
};
use std::alloc::Global;
use std::fmt::Display;
use std::io;
use std::io::{Read, Write};
use std::process::Abort;
use std::test::Fail;

const TEXT: &[u8; 70] = b"The network reads the whole block before it checks a single statement.";

/// A reader that gives any bytes, and notes what it is asked for.
#[derive(Drop)]
struct Watched {
    left: usize,
    piece: usize,
    given: usize,
    longest: usize,
    furthest: usize,
    reads: usize,
}

impl Source for Watched {
    ghost use Rattle.std.specs.Prelude.{None};

    ghost left = { λ _. None };

    ghost faults = { λ _. 0 };

    fn read(&mut self, buf: &mut [u8]) -> Result<usize, Failed> {
        self.longest = self.longest.max(buf.len());
        self.furthest = self.furthest.max(self.given.saturating_add(buf.len()));
        let count = buf.len().min(self.piece).min(self.left);
        if count > 0 {
            self.reads = self.reads.saturating_add(1);
        }
        self.left -= count;
        self.given = self.given.saturating_add(count);
        Ok(count)
    }
}

/// A reader of four bytes and a writer, one byte a call, which err once.
#[derive(Drop)]
struct Flaky {
    calls: u32,
    errs_at: u32,
}

impl Flaky {
    fn call(&mut self) -> io::Result<u32> {
        self.calls = self.calls.saturating_add(1);
        if self.calls == self.errs_at {
            return Err(io::Error::other("unplugged"));
        }
        Ok(self.calls)
    }
}

impl Read for Flaky {
    fn read(&mut self, buf: &mut [u8]) -> io::Result<usize> {
        let call = self.call()?;
        if call > 5 || buf.is_empty() {
            return Ok(0);
        }
        buf[0] = b'x';
        Ok(1)
    }
}

impl Write for Flaky {
    fn write(&mut self, buf: &[u8]) -> io::Result<usize> {
        self.call()?;
        Ok(buf.len().min(1))
    }

    fn flush(&mut self) -> io::Result<()> {
        Ok(())
    }
}

/// A writer that takes nothing and says that all is well.
#[derive(Drop)]
struct Stuck;

impl Write for Stuck {
    fn write(&mut self, _buf: &[u8]) -> io::Result<usize> {
        Ok(0)
    }

    fn flush(&mut self) -> io::Result<()> {
        Ok(())
    }
}

/// How many bytes are read up to a limit, or why none.
fn size_read<S: Source>(alloc: Global, source: &mut S, limit: usize) -> Result<usize, ReadRefusal> {
    read_all(alloc, source, limit).map(|bytes| bytes.len())
}

/// The bytes that are there, how many come at once, and the limit.
type Asked = (usize, usize, usize);

/// The answer, the longest request, the furthest request, and the number of reads that gave bytes.
type Needed = (Result<usize, ReadRefusal>, usize, usize, usize);

const TOO_LONG: Result<usize, ReadRefusal> = Err(ReadRefusal::TooLong);

static NEEDS: [(Asked, Needed); 8] = [
    ((0, 1, 0), (Ok(0), 1, 1, 0)),
    ((1, 1, 0), (TOO_LONG, 1, 1, 1)),
    ((10, 3, 10), (Ok(10), 11, 11, 4)),
    ((10, 3, 9), (TOO_LONG, 10, 10, 4)),
    ((6, 1, 5), (TOO_LONG, 6, 6, 6)),
    ((9000, 9000, 9000), (Ok(9000), 4096, 9001, 3)),
    ((9001, 4096, 9000), (TOO_LONG, 4096, 9001, 3)),
    ((5000, 5000, usize::MAX), (Ok(5000), 4096, 9096, 2)),
];

/// What a read needs.
fn needs_of(alloc: Global, asked: &Asked) -> Needed {
    let (left, piece, limit) = *asked;
    let mut source = Watched {
        left,
        piece,
        given: 0,
        longest: 0,
        furthest: 0,
        reads: 0,
    };
    let size = size_read(alloc, &mut source, limit);
    (size, source.longest, source.furthest, source.reads)
}

fn want_needs(rt: &impl Abort, alloc: Global, rows: &[(Asked, Needed)]) {
    for (asked, wanted) in rows {
        wants(rt, asked, &needs_of(alloc, asked), wanted);
    }
}

#[test]
fn read_all_asks_for_no_more_than_it_needs(rt: HostRuntime) {
    want_needs(&rt, rt.alloc(), &NEEDS);
}

/// The number of the read that fails, the limit, and the answers of two reads to the end.
type Ended = (
    u32,
    usize,
    Result<usize, ReadRefusal>,
    Result<usize, ReadRefusal>,
);

/// Cases of a text that comes in four reads, and its end in a fifth.
static ENDS: [Ended; 4] = [
    (9, 70, Ok(70), Ok(0)),
    (3, 70, Err(ReadRefusal::ReadFault), Ok(30)),
    (5, 70, Err(ReadRefusal::ReadFault), Ok(0)),
    (9, 69, Err(ReadRefusal::TooLong), Ok(0)),
];

fn wants_ended(rt: &impl Abort, alloc: Global, row: &Ended) -> Result<(), NoMemory> {
    let (fails, limit, first, second) = *row;
    let mut source = MemSource::new(alloc, TEXT, 20, &[fails])?;
    let found = size_read(alloc, &mut source, limit);
    let then = size_read(alloc, &mut source, limit);
    wants(rt, &(fails, limit), &(found, then), &(first, second));
    Ok(())
}

fn want_ended(rt: &impl Abort, alloc: Global, rows: &[Ended]) -> Result<(), NoMemory> {
    for row in rows {
        wants_ended(rt, alloc, row)?;
    }
    Ok(())
}

/// Tests that all that a source has is this text.
fn wants_bytes<S: Source>(
    rt: &impl Abort,
    alloc: Global,
    source: &mut S,
    text: &[u8],
) -> Result<(), ReadRefusal> {
    let bytes = read_all(alloc, source, 70)?;
    wants_text(rt, text, bytes.as_slice(), text);
    Ok(())
}

#[test]
fn a_source_is_read_to_its_end_or_its_fault(rt: HostRuntime) -> Result<(), Fail> {
    Ok(want_ended(&rt, rt.alloc(), &ENDS)?)
}

#[test]
fn a_sure_source_has_no_fault(rt: HostRuntime) -> Result<(), Fail> {
    let mut sure = SureSource::new(rt.alloc(), TEXT, 20)?;
    Ok(wants_bytes(&rt, rt.alloc(), &mut sure, TEXT)?)
}

#[test]
fn a_file_that_is_not_there_is_not_read(rt: HostRuntime) -> Result<(), Fail> {
    let mut missing = NoFile::new();
    let read = size_read(rt.alloc(), &mut missing, 70);
    wants(&rt, &"no file", &read, &Err(ReadRefusal::ReadFault));
    Ok(())
}

/// Bytes to write, the number of the write that fails, the answer, and the bytes that the sink has taken.
type Taken = (&'static [u8], u32, Result<(), WriteFault>, &'static [u8]);

static TAKEN: [Taken; 3] = [
    (b"0123456789", 9, Ok(()), b"0123456789"),
    (b"0123456789ab", 9, Err(WriteFault), b"0123456789"),
    (b"0123456789", 2, Err(WriteFault), b"0123"),
];

fn wants_taken(rt: &impl Abort, alloc: Global, row: &Taken) -> Result<(), NoMemory> {
    let (bytes, fails, answer, taken) = row;
    let mut sink = MemSink::new(alloc, 10, 4, &[*fails])?;
    wants(rt, fails, &write_all(&mut sink, bytes), answer);
    wants_text(rt, bytes, sink.taken(), taken);
    Ok(())
}

fn want_taken(rt: &impl Abort, alloc: Global, rows: &[Taken]) -> Result<(), NoMemory> {
    for row in rows {
        wants_taken(rt, alloc, row)?;
    }
    Ok(())
}

#[test]
fn a_sink_takes_all_bytes_or_those_before_its_fault(rt: HostRuntime) -> Result<(), Fail> {
    Ok(want_taken(&rt, rt.alloc(), &TAKEN)?)
}

const FLAKY: Flaky = Flaky {
    calls: 0,
    errs_at: 3,
};

#[test]
fn readers_of_std_serve(rt: HostRuntime) -> Result<(), Fail> {
    let mut source = StdSource::new(TEXT.as_slice());
    wants_bytes(&rt, rt.alloc(), &mut source, TEXT)?;
    let mut source = StdSource::new(FLAKY);
    let read = size_read(rt.alloc(), &mut source, 70);
    wants(&rt, &"errs once", &read, &Err(ReadRefusal::ReadFault));
    Ok(wants_bytes(&rt, rt.alloc(), &mut source, b"xx")?)
}

#[test]
fn a_vector_is_written_to(rt: HostRuntime) -> Result<(), Fail> {
    let mut taken = Vec::new(rt.alloc());
    let mut sink = StdSink::new(&mut taken);
    wants(&rt, &"a vector", &write_all(&mut sink, TEXT), &Ok(()));
    wants_text(&rt, b"a vector", taken.as_slice(), TEXT);
    Ok(())
}

#[test]
fn writers_of_std_serve(rt: HostRuntime) -> Result<(), Fail> {
    let mut sink = StdSink::new(FLAKY);
    let found = (write_all(&mut sink, TEXT), write_all(&mut sink, TEXT));
    wants(&rt, &"errs once", &found, &(Err(WriteFault), Ok(())));

    let mut sink = StdSink::new(Stuck);
    let found = (write_all(&mut sink, TEXT), write_all(&mut sink, b""));
    wants(&rt, &"stuck", &found, &(Err(WriteFault), Ok(())));
    Ok(())
}

/// Refusals of a read, and their texts.
static REFUSALS: [(ReadRefusal, &[u8]); 3] = [
    (ReadRefusal::ReadFault, b"a read failed"),
    (ReadRefusal::TooLong, b"the input is longer than its limit"),
    (ReadRefusal::NoMemory, b"out of memory"),
];

fn wants_shown(
    rt: &impl Abort,
    alloc: Global,
    refusal: &impl Display,
    text: &[u8],
) -> Result<(), NoMemory> {
    let shown = format!(in alloc; "{refusal}")?;
    wants_text(rt, text, shown.as_bytes(), text);
    Ok(())
}

fn want_shown(
    rt: &impl Abort,
    alloc: Global,
    rows: &[(ReadRefusal, &[u8])],
) -> Result<(), NoMemory> {
    for (refusal, text) in rows {
        wants_shown(rt, alloc, refusal, text)?;
    }
    Ok(())
}

#[test]
fn refusals_name_their_cause(rt: HostRuntime) -> Result<(), Fail> {
    want_shown(&rt, rt.alloc(), &REFUSALS)?;
    Ok(wants_shown(&rt, rt.alloc(), &WriteFault, b"a write failed")?)
}
