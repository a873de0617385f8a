//! Reading a source to its end.
ghost use Rattle.std.specs.Prelude.{◌≡◌, ◌≢◌, ◌+◌, ◌≤◌, ◌⊎◌, List, ℕ, length, IfOk, IsOk};
ghost use Rattle.s7_io.specs.Source.{GaveAll, GaveExactly, GaveAtMost};
ghost use Rattle.s7_io.specs.Faults.{Rose};
ghost use Rattle.s7_io.specs.declared.read.ReadRefusal.TheVariants.{NoMemory};

use crate::source::{Failed, Source};
use std::alloc::{AllocError, Global};
use thiserror::Error;

/// How many bytes are asked for at most in one read.
const PIECE: usize = 4096;

/// Why a source was not read to its end.
#[derive(Clone, Copy, Debug, PartialEq, Eq, Error)]
pub enum ReadRefusal {
    #[error("a read failed")]
    ReadFault,

    #[error("the input is longer than its limit")]
    TooLong,

    #[error("out of memory")]
    NoMemory,
}

impl From<AllocError> for ReadRefusal {
    ghost from_gives = { λ _ refusal. refusal ≡ NoMemory };

    fn from(_error: AllocError) -> ReadRefusal {
        ReadRefusal::NoMemory
    }
}

/// Reads a source to its end, which comes after at most `limit` bytes.
///
/// Each read asks for at most 4,096 bytes, and no read asks for more than one byte past the limit: that byte
/// shows that the input is too long. After a refusal the bytes read so far are lost.
pub fn read_all<S: Source>(alloc: Global, src: &mut S, limit: usize) -> Result<Vec<u8>, ReadRefusal>
    ensures whole { IfOk result (λ bytes. GaveAll (S.left src.old) (S.left src.new) bytes.items) }
    ensures within { IfOk result (λ bytes. length bytes.items ≤ limit) }

    // The input is too long exactly where one byte more than the limit was read.
    ensures too_long { result ≡ Err ReadRefusal.TooLong
        → GaveExactly (S.left src.old) (S.left src.new) (limit + 1) }
    ensures otherwise { result ≢ Err ReadRefusal.TooLong
        → GaveAtMost (S.left src.old) (S.left src.new) limit }

    ensures later { S.faults src.old ≤ S.faults src.new }
    ensures read_fault { result ≡ Err ReadRefusal.ReadFault
        → Rose (S.faults src.old) (S.faults src.new) }

    // An input that is told and within its limit is read, where no fault comes and memory is found.
    ensures complete { (bytes : List ℕ) → S.left src.old ≡ Some bytes → length bytes ≤ limit
        → ¬ Rose (S.faults src.old) (S.faults src.new)
        → IsOk result ⊎ (result ≡ Err ReadRefusal.NoMemory) }
{
    let mut bytes = Vec::new(alloc);
    let mut piece = [0u8; PIECE];
    'pieces: loop {
        let left = limit - bytes.len();
        let room = left.saturating_add(1).min(PIECE);
        match src.read(&mut piece[..room]) {
            Ok(0) => return Ok(bytes),
            Ok(count) => {
                if count > left {
                    return Err(ReadRefusal::TooLong);
                }
                bytes.extend_from_slice(&piece[..count])?;
            }
            Err(Failed) => return Err(ReadRefusal::ReadFault),
        }
    }
}
