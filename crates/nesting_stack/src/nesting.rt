//! The stack of open brackets.
ghost use Rattle.std.specs.Prelude.{◌≡◌, ◌≤◌, [], length};
ghost use Rattle.nesting_stack.specs.Entries.{IsPopped, IsPushed, most_open};

use s7_base::{Check, Entry};
use std::marker::Model;

/// The most brackets that may be open.
const ROOM: usize = 7;

/// The entry of a free place, where no bracket is open.
const EMPTY: Entry = Entry {
    check: Check::A,
    rlo: false,
    orb: false,
    nfc: false,
};

/// No further bracket may be opened.
#[derive(Clone, Copy, Debug, PartialEq, Eq)]
pub struct Full;

/// The open brackets, at most seven. The entries after the free places are theirs, the last one first.
#[derive(Debug, Drop)]
pub struct Nesting {
    entries: [Entry; ROOM],
    free: usize,
}

impl Model for Nesting {
    ghost use Rattle.std.specs.Prelude.{List, drop, ◌≤◌};
    ghost use Rattle.s7_base.specs.declared.check.Entry.{Entry};

    ghost Value = { List Entry };

    ghost view = { λ n. drop n.free n.entries };

    ghost invariant = { λ n. n.free ≤ 7 };
}

impl Nesting {
    /// No bracket is open.
    pub fn new() -> Nesting
        ensures { result ≡ [] }
    {
        Nesting {
            entries: [EMPTY; ROOM],
            free: ROOM,
        }
    }

    /// Opens a bracket; `Full` exactly where seven are open.
    pub fn push(&mut self, e: Entry) -> Result<(), Full>
        ensures { IsPushed e result self.old self.new }
    {
        if self.free == 0 {
            return Err(Full);
        }
        self.free -= 1;
        self.entries[self.free] = e;
        Ok(())
    }

    /// Closes the last bracket; `None` exactly where none is open.
    pub fn pop(&mut self) -> Option<Entry>
        ensures { IsPopped result self.old self.new }
    {
        if self.free == ROOM {
            return None;
        }
        let e = self.entries[self.free];
        self.free += 1;
        Some(e)
    }

    /// How many brackets are open.
    pub fn depth(&self) -> u8
        ensures depth { result ≡ length self.now }
        ensures most { length self.now ≤ most_open }
    {
        self.entries[self.free..].len() as u8
    }
}
