//! Writing bytes to a sink, all of them.
ghost use Rattle.std.specs.Prelude.{◌≤◌, OnOk, OnErr};
ghost use Rattle.s7_io.specs.Sink.{Took, TookFewer};
ghost use Rattle.s7_io.specs.Faults.{Rose};

use crate::sink::Sink;
use crate::source::Failed;
use thiserror::Error;

/// A sink failed before it had taken all the bytes.
#[derive(Clone, Copy, Debug, PartialEq, Eq, Error)]
#[error("a write failed")]
pub struct WriteFault;

/// Writes all the bytes to a sink. Takes no memory.
pub fn write_all<K: Sink>(sink: &mut K, bytes: &[u8]) -> Result<(), WriteFault>
    ensures ok { OnOk result (Took (K.taken sink.old) (K.taken sink.new) bytes.now) }
    ensures fault { OnErr result (TookFewer (K.taken sink.old) (K.taken sink.new) bytes.now) }
    ensures later { K.faults sink.old ≤ K.faults sink.new }
    ensures cause { OnErr result (Rose (K.faults sink.old) (K.faults sink.new)) }
{
    let mut done = 0;
    while done < bytes.len() {
        match sink.write(&bytes[done..]) {
            Ok(count) => done += count,
            Err(Failed) => return Err(WriteFault),
        }
    }
    Ok(())
}
