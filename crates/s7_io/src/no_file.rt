//! A source for a file that does not exist.
ghost use Rattle.std.specs.Prelude.{◌≡◌, ◌≤◌, IsErr};
ghost use Rattle.s7_io.specs.Faults.{one_more};

use crate::source::{Failed, Source};
use std::marker::Model;

/// A source that tells nothing, and whose every read fails.
#[derive(Debug, Drop)]
pub struct NoFile {
    count: u64,
}

impl Model for NoFile {
    ghost use Rattle.std.specs.Prelude.{ℕ};

    ghost Value = { ℕ };

    ghost view = { λ file. file.count };
}

impl NoFile {
    /// A source that has not been read yet.
    pub fn new() -> NoFile
        ensures { result ≡ 0 }
    {
        NoFile { count: 0 }
    }
}

impl Source for NoFile {
    ghost use Rattle.std.specs.Prelude.{None};

    ghost left = { λ _. None };

    ghost faults = { λ file. file };

    fn read(&mut self, _buf: &mut [u8]) -> Result<usize, Failed>
        ensures fails { IsErr result }
        ensures count { self.new ≡ one_more self.old }
        ensures later { self.old ≤ self.new }
    {
        self.count = self.count.saturating_add(1);
        Err(Failed)
    }
}
