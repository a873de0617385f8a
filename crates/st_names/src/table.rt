//! Tables of what is declared under names, which keep the first declaration of each.
ghost use Rattle.std.specs.Prelude.{◌≡◌, [], IfOk, OnOk, is_some, not};
ghost use Rattle.st_names.specs.Names.{look_up, with_entry};

use indexmap::IndexMap;
use s7_base::NoMemory;
use std::alloc::Global;
use std::marker::Model;

/// Values under keys. Contracts see it as the list of keys and values, in the order in which they came.
#[derive(Drop)]
pub struct Table<T> {
    entries: IndexMap<Vec<u8>, T>,
}

impl<T> Model for Table<T> {
    ghost use Rattle.std.specs.Prelude.{ℕ, List, map};
    ghost use Rattle.std.specs.Coded.{coded_list, coded×, coded_ℕ};

    ghost Value = { List (List ℕ × T) };

    ghost coded = { coded_list (coded× (coded_list coded_ℕ) T.code) };

    ghost view = { λ table. map (λ e. (e.0.items, e.1)) table.entries.entries };
}

impl<T: Copy> Table<T> {
    /// The empty table.
    pub fn new(alloc: Global) -> Table<T>
        ensures { result ≡ [] }
    {
        Table {
            entries: IndexMap::new(alloc),
        }
    }

    /// The value under a key.
    pub fn look_up(&self, key: &[u8]) -> Option<T>
        ensures { result ≡ look_up key.now self.now }
    {
        self.entries.get(key).copied()
    }

    /// Declares a key, and says whether it was new. A key that is declared already keeps its value.
    pub fn declare(&mut self, key: Vec<u8>, value: T) -> Result<bool, NoMemory>
        ensures new { IfOk result (λ new. new ≡ not (is_some (look_up key.items self.old))) }
        ensures table { OnOk result (self.new ≡ with_entry key.items value self.old) }
    {
        if self.look_up(key.as_slice()).is_some() {
            return Ok(false);
        }
        self.entries.insert(key, value)?;
        Ok(true)
    }
}
