//! The globals of a text: the symbols by which its statements may name places.
ghost use Rattle.std.specs.Prelude.{◌≡◌, ◌&&◌, ℕ, IfOk, List, OnOk, [], is_some, not};
ghost use Rattle.std.specs.List.{list_any};
ghost use Rattle.std.specs.Map.{lookup};
ghost use Rattle.st_tree.specs.declared.expr.Var.{Var};
ghost use Rattle.st_globals.specs.Globals.{globals_of, located, with_symbol};
ghost use Rattle.st_globals.specs.inner.Tables.{Tracks, is_same_key, keys_with_numbers, with_keys};

use crate::keys::{PlaceKey, key_of_symbol, look_up};
use crate::names::Names;
use crate::variables::places_in;
use indexmap::{IndexMap, IndexSet};
use s7_base::{List, NoMemory};
use st_tree::{Located, Pou, type_of_width};
use std::alloc::Global;
use stl_tree::Symbol;

/// Globals, the number of each under the key of its place, and all names that a text has with them.
#[derive(Drop)]
pub struct Globals {
    pub list: List<Located>,
    pub numbers: IndexMap<PlaceKey, u32>,
    names: Names,
}

/// A symbol as a global.
fn located(alloc: Global, symbol: &Symbol) -> Result<Located, NoMemory>
    ensures { IfOk result (λ global. global ≡ located symbol.now) }
{
    Ok(Located {
        name: symbol.name.copy(alloc)?,
        place: symbol.place,
        ty: type_of_width(symbol.width),
    })
}

/// Whether a place is one that is named, and no global has it.
fn is_needed(places: &IndexSet<PlaceKey>, numbers: &IndexMap<PlaceKey, u32>, key: PlaceKey) -> bool
    ensures { result ≡ (list_any (is_same_key key) places.now.keys && not (is_some (lookup (is_same_key key) numbers.now.entries))) }
{
    places.contains(&key) && look_up(numbers, key).is_none()
}

impl Globals {
    /// Makes a symbol a global if a place that is named needs it and it may have its name.
    fn add(
        &mut self,
        alloc: Global,
        places: &IndexSet<PlaceKey>,
        symbol: &Symbol,
    ) -> Result<(), NoMemory>
        ensures { OnOk result ((names : List (List ℕ)) (vars : List Var) → places.now.keys ≡ with_keys [] vars
            → Tracks names self.old.list self.old.names self.old.numbers.entries
            → Tracks names self.new.list self.new.names self.new.numbers.entries
            × (self.new.list ≡ with_symbol names vars self.old.list symbol.now)) }
    {
        let key = key_of_symbol(symbol);
        if !is_needed(places, &self.numbers, key) {
            return Ok(());
        }
        let number = u32::try_from(self.list.len()).or(Err(NoMemory))?;
        if !self.names.insert_global(alloc, symbol.name.as_slice())? {
            return Ok(());
        }
        self.numbers.insert(key, number)?;
        self.list.push(located(alloc, symbol)?)
    }
}

/// The globals of a text with these units, from the symbols in the order of their table.
pub fn globals_of(alloc: Global, units: &[Pou], symbols: &[Symbol]) -> Result<Globals, NoMemory>
    ensures list { IfOk result (λ globals. globals.list ≡ globals_of units.now symbols.now) }
    ensures numbers { IfOk result (λ globals. globals.numbers.entries ≡ keys_with_numbers 0 globals.list) }
{
    let places = places_in(alloc, units)?;
    let mut globals = Globals {
        list: List::new(alloc),
        numbers: IndexMap::new(alloc),
        names: Names::of_units(alloc, units)?,
    };
    for symbol in symbols {
        globals.add(alloc, &places, symbol)?;
    }
    Ok(globals)
}
