//! The names that a text has already.
ghost use Rattle.std.specs.Prelude.{◌≡◌, ◌∷◌, ◌++◌, ◌&&◌, [], IfOk, OnOk, fold, if◌then◌else◌};
ghost use Rattle.st_tree.specs.Naming.{is_free, is_name, is_new, key_of};
ghost use Rattle.st_globals.specs.inner.Names.{with_local, with_name, with_unit};

use indexmap::IndexSet;
use s7_base::NoMemory;
use st_tree::{Local, Pou, is_free, is_name, key_of};
use std::alloc::Global;
use std::marker::Model;

/// Names, by what they are compared by. Contracts see the list of these keys.
#[derive(Drop)]
pub struct Names {
    keys: IndexSet<Vec<u8>>,
}

impl Model for Names {
    ghost use Rattle.std.specs.Prelude.{ℕ, List, map};
    ghost use Rattle.std.specs.Coded.{coded_list, coded_ℕ};

    ghost Value = { List (List ℕ) };

    ghost coded = { coded_list (coded_list coded_ℕ) };

    ghost view = { λ names. map (λ key. key.items) names.keys.keys };
}

impl Names {
    fn new(alloc: Global) -> Names
        ensures { result ≡ [] }
    {
        Names {
            keys: IndexSet::new(alloc),
        }
    }

    /// Adds a name, and says whether it was new.
    fn insert(&mut self, alloc: Global, name: &[u8]) -> Result<bool, NoMemory>
        ensures new { IfOk result (λ new. new ≡ is_new (key_of name.now) self.old) }
        ensures names { OnOk result (self.new ≡ with_name self.old (key_of name.now)) }
    {
        let key = key_of(alloc, name)?;
        Ok(self.keys.insert(key)?)
    }

    fn insert_locals(&mut self, alloc: Global, locals: &[Local]) -> Result<(), NoMemory>
        ensures { OnOk result (self.new ≡ fold with_local self.old locals.now) }
    {
        for local in locals {
            self.insert(alloc, local.name.as_slice())?;
        }
        Ok(())
    }

    fn insert_unit(&mut self, alloc: Global, unit: &Pou) -> Result<(), NoMemory>
        ensures { OnOk result (self.new ≡ with_unit self.old unit.now) }
    {
        self.insert(alloc, unit.name.as_slice())?;
        self.insert_locals(alloc, unit.formals.as_slice())?;
        self.insert_locals(alloc, unit.locals.as_slice())
    }

    /// The names of some units, their formals and their locals.
    pub fn of_units(alloc: Global, units: &[Pou]) -> Result<Names, NoMemory>
        ensures { IfOk result (λ names. names ≡ fold with_unit [] units.now) }
    {
        let mut names = Names::new(alloc);
        for unit in units {
            names.insert_unit(alloc, unit)?;
        }
        Ok(names)
    }

    /// Adds a name for a global where it is one that a global may have, and says whether it is.
    pub fn insert_global(&mut self, alloc: Global, name: &[u8]) -> Result<bool, NoMemory>
        ensures new { IfOk result (λ new. new ≡ (is_name name.now && is_free name.now && is_new (key_of name.now) self.old)) }
        ensures names { IfOk result (λ new. self.new ≡ (if new then self.old ++ key_of name.now ∷ [] else self.old)) }
    {
        if !is_name(name) || !is_free(name) {
            return Ok(false);
        }
        self.insert(alloc, name)
    }
}
