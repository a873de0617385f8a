//! The call that `main` makes: reads, judges, translates or runs, and writes.
//!
//! `writes` is the theorem: for `translate` it says that the written text means what the source means.
//! What the other clauses say of the text, `translated` and `complete`, follows from it.
ghost use Rattle.std.specs.Prelude.{◌≡◌, ◌⊎◌, ◌≤◌};
ghost use Rattle.command_words.specs.Command.{command_of_words};
ghost use Rattle.command_answers.specs.Devices.{NoCountFell, WriteFailed, devices, output};
ghost use Rattle.command_answers.specs.Inputs.{Reads};
ghost use Rattle.command_answers.specs.Promises.{Completes, HasCause, Translated, Writes};
ghost use Rattle.command_answers.specs.inner.Replies.{Ends};

use crate::reply::{Stop, reply_to};
use crate::status::Status;
use s7_io::{Sink, Source, write_all};
use std::alloc::Global;

/// Writes a text, and answers its status where it was written whole.
fn finish<K: Sink>(out: &mut K, status: Status, text: &[u8]) -> Status
    ensures ends { Ends (K.taken out.old) (K.taken out.new) status text.now result }
    ensures cause { (result ≡ status) ⊎ WriteFailed (output K.Sink out.old out.new) }
    ensures later { K.faults out.old ≤ K.faults out.new }
{
    match write_all(out, text) {
        Ok(()) => status,
        Err(_) => Status::WriteFault,
    }
}

/// Does what the arguments of the program ask for.
///
/// `program` is the source that the command reads, `image` the memory image of a command that has one,
/// and `out` takes the text. All memory is taken before the first byte is written.
pub fn stl2st<P: Source, M: Source, K: Sink>(
    alloc: Global,
    words: &[String],
    program: &mut P,
    image: &mut M,
    out: &mut K,
) -> Status
    // THE THEOREM. By the status, what the sink took is an answer to the arguments, the source and the
    // image; for `translate` it is a text that means what the source means.
    ensures writes { Writes (command_of_words words.now) result
        (devices P.Source M.Source K.Sink program.old image.old out.old program.new image.new out.new) }

    // Where `translate` is done, the written text means what the source means.
    ensures translated { Translated (command_of_words words.now) result
        (devices P.Source M.Source K.Sink program.old image.old out.old program.new image.new out.new) }

    // Told inputs get an answer, where no read and no write fails and memory is found.
    ensures complete { Completes (command_of_words words.now) result
        (devices P.Source M.Source K.Sink program.old image.old out.old program.new image.new out.new) }

    // The inputs are read as far as they are needed.
    ensures reads { Reads (command_of_words words.now) result
        (devices P.Source M.Source K.Sink program.old image.old out.old program.new image.new out.new) }

    // Each fault that is answered is one of a device.
    ensures cause { HasCause (command_of_words words.now) result
        (devices P.Source M.Source K.Sink program.old image.old out.old program.new image.new out.new) }

    // No count of faults falls.
    ensures counts { NoCountFell
        (devices P.Source M.Source K.Sink program.old image.old out.old program.new image.new out.new) }
{
    match reply_to(alloc, words, program, image) {
        Ok(reply) => finish(out, reply.status, reply.text.as_bytes()),
        Err(Stop::ReadFault) => Status::ReadFault,
        Err(Stop::NoMemory) => Status::NoMemory,
    }
}
