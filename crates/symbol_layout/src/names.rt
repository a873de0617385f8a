//! The names of a scope.
ghost use Rattle.std.specs.Prelude.{◌≡◌, [], IfOk, OnOk, not};
ghost use Rattle.stl_rules.specs.DeclarationRules.{is_named, key_of, with_name};

use indexmap::IndexSet;
use s7_base::NoMemory;
use std::alloc::Global;
use std::marker::Model;

/// The names of a scope so far. Contracts see them as the list of their keys.
#[derive(Drop)]
pub struct Names {
    keys: IndexSet<Vec<u8>>,
}

impl Model for Names {
    ghost use Rattle.std.specs.Prelude.{ℕ, List, map};
    ghost use Rattle.std.specs.Coded.{coded_list, coded_ℕ};

    ghost Value = { List (List ℕ) };

    ghost coded = { coded_list (coded_list coded_ℕ) };

    ghost view = { λ names. map (λ key. key.items) names.keys.keys };
}

impl Names {
    /// The empty set of names.
    pub fn new(alloc: Global) -> Names
        ensures { result ≡ [] }
    {
        Names {
            keys: IndexSet::new(alloc),
        }
    }

    /// Takes memory for this many more names.
    pub fn reserve(&mut self, count: usize) -> Result<(), NoMemory>
        ensures { OnOk result (self.new ≡ self.old) }
    {
        Ok(self.keys.reserve(count)?)
    }

    /// Adds a name to those of the scope, and says whether it was new.
    pub fn declare(&mut self, key: Vec<u8>) -> Result<bool, NoMemory>
        ensures new { IfOk result (λ new. new ≡ not (is_named key.items self.old)) }
        ensures names { OnOk result (self.new ≡ with_name key.items self.old) }
    {
        Ok(self.keys.insert(key)?)
    }
}

/// The key by which a name is compared.
pub fn key_of(alloc: Global, name: &[u8]) -> Result<Vec<u8>, NoMemory>
    ensures { IfOk result (λ key. key.items ≡ key_of name.now) }
{
    Ok(name.to_ascii_uppercase(alloc)?)
}
