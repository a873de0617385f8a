//! A text that is mostly short.
ghost use Rattle.std.specs.Prelude.{◌≡◌, IfOk, IfSome};
ghost use Rattle.s7_base.specs.SmallText.{bytes_of};

use crate::boxed::Boxed;
use crate::list::List;
use crate::memory::NoMemory;
use crate::text::front_of;
use std::alloc::Global;
use std::marker::Model;

/// How many bytes a text keeps without memory of its own.
const ROOM: usize = 14;

/// Where the bytes of a text are.
#[derive(Debug, Drop)]
enum Bytes {
    /// The number of bytes, and the bytes, at the front of the array.
    Here(u8, [u8; ROOM]),

    There(Boxed<List<u8>>),
}

/// A text that contracts see as the list of its bytes. Up to 14 bytes take no memory of their own.
///
/// Tokens and mnemonics have few bytes, and a text has many of them.
#[derive(Debug, Drop)]
pub struct SmallText {
    bytes: Bytes,
}

impl Model for SmallText {
    ghost use Rattle.std.specs.Prelude.{List, ℕ};
    ghost use Rattle.s7_base.specs.SmallText.{bytes_of};

    ghost Value = { List ℕ };

    ghost view = { λ text. bytes_of text.bytes };
}

fn short(bytes: &[u8]) -> Option<Bytes>
    ensures { IfSome result (λ short. bytes_of short ≡ bytes.now) }
{
    let size = bytes.len();
    if size > ROOM {
        return None;
    }
    let mut room = [0; ROOM];
    room[..size].copy_from_slice(bytes);
    Some(Bytes::Here(size as u8, room))
}

impl SmallText {
    /// A text of these bytes. Takes memory only for more than 14.
    pub fn new(alloc: Global, bytes: &[u8]) -> Result<SmallText, NoMemory>
        ensures { IfOk result (λ text. text ≡ bytes.now) }
    {
        if let Some(bytes) = short(bytes) {
            return Ok(SmallText { bytes });
        }
        let list = List::from_vec(Vec::from_slice(alloc, bytes)?);
        Ok(SmallText {
            bytes: Bytes::There(Boxed::new(alloc, list)?),
        })
    }

    /// The bytes in their order.
    pub fn as_slice(&self) -> &[u8]
        ensures { result.now ≡ self.now }
    {
        match &self.bytes {
            Bytes::Here(size, room) => front_of(room, usize::from(*size)),
            Bytes::There(list) => list.get().as_slice(),
        }
    }
}
