//! The edge to the outside: std's readers and writers as a source and a sink.
//!
//! What a file or a terminal holds is not known, so neither tells its bytes. Both count what failed.
ghost use Rattle.std.specs.Prelude.{◌≡◌, ◌<◌, ◌≤◌, length, IfOk};
ghost use Rattle.std.specs.Io.KnownBytes.{ReadConsumes, WriteAppends};
ghost use Rattle.s7_io.specs.Faults.{CountsFault};
ghost use Rattle.s7_io.specs.StdStreams.{reader_of, writer_of};

use crate::sink::Sink;
use crate::source::{Failed, Source};
use std::io::{Read, Write};

/// A reader as a source. Each error of the reader is a fault, an interrupted call among them.
#[derive(Debug, Drop)]
pub struct StdSource<R> {
    inner: R,
    count: u64,
}

impl<R: Read> StdSource<R> {
    /// A source over a reader that has not failed yet.
    pub fn new(inner: R) -> StdSource<R>
        ensures reader { reader_of result ≡ inner }
        ensures faults { ⟦<StdSource<R> as Source>⟧.faults result ≡ 0 }
    {
        StdSource { inner, count: 0 }
    }
}

impl<R: Read> Source for StdSource<R> {
    ghost use Rattle.std.specs.Prelude.{None};

    ghost left = { λ _. None };

    ghost faults = { λ source. source.count };

    fn read(&mut self, buf: &mut [u8]) -> Result<usize, Failed>
        ensures within { IfOk result (λ n. n ≤ length buf.new) }
        ensures passed_on { ReadConsumes (R.remaining (reader_of self.old))
            (R.remaining (reader_of self.new)) result buf.new }
        ensures counted { let faults = ⟦<StdSource<R> as Source>⟧.faults in
            CountsFault result (faults self.old) (faults self.new) }
        ensures later { let faults = ⟦<StdSource<R> as Source>⟧.faults in
            faults self.old ≤ faults self.new }
    {
        match self.inner.read(buf) {
            Ok(count) => Ok(count),
            Err(_) => {
                self.count = self.count.saturating_add(1);
                Err(Failed)
            }
        }
    }
}

/// A writer as a sink. Each error of the writer is a fault, an interrupted call among them. It is
/// never flushed, so the writer is to keep nothing back.
#[derive(Debug, Drop)]
pub struct StdSink<W> {
    inner: W,
    count: u64,
}

impl<W: Write> StdSink<W> {
    /// A sink over a writer that has not failed yet.
    pub fn new(inner: W) -> StdSink<W>
        ensures writer { writer_of result ≡ inner }
        ensures faults { ⟦<StdSink<W> as Sink>⟧.faults result ≡ 0 }
    {
        StdSink { inner, count: 0 }
    }
}

impl<W: Write> Sink for StdSink<W> {
    ghost use Rattle.std.specs.Prelude.{None};

    ghost taken = { λ _. None };

    ghost faults = { λ sink. sink.count };

    /// A writer that takes nothing of a piece that is not empty has failed.
    fn write(&mut self, piece: &[u8]) -> Result<usize, Failed>
        ensures within { IfOk result (λ n. n ≤ length piece.now) }
        ensures some { 0 < length piece.now → IfOk result (λ n. 0 < n) }
        ensures passed_on { WriteAppends (W.contents (writer_of self.old))
            (W.contents (writer_of self.new)) result piece.now }
        ensures counted { let faults = ⟦<StdSink<W> as Sink>⟧.faults in
            CountsFault result (faults self.old) (faults self.new) }
        ensures later { let faults = ⟦<StdSink<W> as Sink>⟧.faults in
            faults self.old ≤ faults self.new }
    {
        match self.inner.write(piece) {
            Ok(count) if count > 0 || piece.is_empty() => Ok(count),
            _ => {
                self.count = self.count.saturating_add(1);
                Err(Failed)
            }
        }
    }
}
