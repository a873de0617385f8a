//! Names with their first declarations.
ghost use Rattle.std.specs.Prelude.{◌≡◌, [], OnOk};
ghost use Rattle.stl_rules.specs.DeclarationRules.{key_of};
ghost use Rattle.component_index.specs.inner.Scopes.{entry_of, table_of, with_entry};

use crate::scope::Entry;
use indexmap::IndexMap;
use name_tables::key_of;
use s7_base::NoMemory;
use std::alloc::Global;

/// The entries of the first declarations of names.
#[derive(Drop)]
pub struct Table<'d> {
    /// The entries by the names in capitals.
    names: IndexMap<Vec<u8>, Entry<'d>>,
}

impl<'d> Table<'d> {
    /// The empty table.
    pub fn new(alloc: Global) -> Table<'d>
        ensures { table_of result ≡ [] }
    {
        Table {
            names: IndexMap::new(alloc),
        }
    }

    /// Takes memory for this many more names.
    pub fn reserve(&mut self, count: usize) -> Result<(), NoMemory>
        ensures { OnOk result (table_of self.new ≡ table_of self.old) }
    {
        Ok(self.names.reserve(count)?)
    }

    /// The entry of a key.
    pub fn find(&self, key: &[u8]) -> Option<Entry<'d>>
        ensures { result ≡ entry_of key.now (table_of self.now) }
    {
        self.names.get(key).copied()
    }

    /// Puts the entry of a name that has none.
    pub fn add_entry(
        &mut self,
        alloc: Global,
        name: &[u8],
        entry: Entry<'d>,
    ) -> Result<(), NoMemory>
        ensures { OnOk result (table_of self.new ≡ with_entry (key_of name.now) entry.entry (table_of self.old)) }
    {
        let key = key_of(alloc, name)?;
        if self.find(key.as_slice()).is_some() {
            return Ok(());
        }
        self.names.insert(key, entry)?;
        Ok(())
    }
}
