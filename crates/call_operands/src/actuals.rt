//! The actuals of a call by the names of formals.
ghost use Rattle.std.specs.Prelude.{◌≡◌, IfOk, map, option_and_then, option_map, slice_get};
ghost use Rattle.name_tables.specs.Places.{first_place};
ghost use Rattle.stl_rules.specs.Calls.{actual_named, are_repeated};
ghost use Rattle.stl_rules.specs.DeclarationRules.{key_of};
ghost use Rattle.call_operands.specs.inner.ActualPlaces.{AreActualPlaces, has_actual_key, lacks, lacks_at, lacks_one};

use indexmap::IndexMap;
use name_tables::{key_of, look_up, put_place};
use s7_base::NoMemory;
use std::alloc::Global;
use std::marker::Model;
use stl_tree::RawActual;
use symbol_layout::Names;

/// The actuals of a call, which are found by the names of formals. Contracts see the actuals.
#[derive(Drop)]
pub struct Actuals<'t> {
    all: &'t [RawActual],

    /// The place of the first actual of each formal, by its name in capitals.
    places: IndexMap<Vec<u8>, usize>,
}

impl<'t> Model for Actuals<'t> {
    ghost use Rattle.std.specs.Prelude.{List, map};
    ghost use Rattle.std.specs.Coded.{codes};
    ghost use Rattle.stl_tree.specs.declared.raw.RawActual.{RawActual};
    ghost use Rattle.stl_tree.specs.contracts.raw.RawActual as actual;
    ghost use Rattle.call_operands.specs.inner.ActualPlaces.{AreActualPlaces};

    ghost Value = { List RawActual };

    ghost coded = { Prim.hlevel (codes, actual.the_row.coded) };

    ghost view = { λ a. a.all.now };

    ghost invariant = { λ a. AreActualPlaces a.all.now (map (λ e. (e.0.items, e.1)) a.places.entries) };
}

/// The places of the first actuals of all formals.
fn places_of(alloc: Global, all: &[RawActual]) -> Result<IndexMap<Vec<u8>, usize>, NoMemory>
    ensures { IfOk result (λ places. AreActualPlaces all.now (map (λ e. (e.0.items, e.1)) places.entries)) }
{
    let mut places = IndexMap::with_capacity(alloc, all.len())?;
    for place in 0..all.len() {
        let actual = &all[place];
        let key = key_of(alloc, actual.formal.as_slice())?;
        put_place(&mut places, key, place)?;
    }
    Ok(places)
}

/// The actual at a place.
fn actual_at<'t>(all: &'t [RawActual], place: Option<usize>) -> Option<&'t RawActual>
    ensures { option_map (λ a. a.now) result ≡ option_and_then (λ n. slice_get all.now n) place }
{
    all.get(place?)
}

impl<'t> Actuals<'t> {
    /// The actuals of a call, to be found by the names of formals.
    pub fn new(alloc: Global, all: &'t [RawActual]) -> Result<Actuals<'t>, NoMemory>
        ensures { IfOk result (λ actuals. actuals ≡ all.now) }
    {
        let places = places_of(alloc, all)?;
        Ok(Actuals { all, places })
    }

    /// The actuals in their order.
    pub fn all(&self) -> &'t [RawActual]
        ensures { result.now ≡ self.now }
    {
        self.all
    }

    /// Whether no actual gives the formal of a key.
    fn lacks(&self, key: &[u8]) -> bool
        ensures { result ≡ lacks self.now key.now }
    {
        look_up(&self.places, key).is_none()
    }

    /// Whether no actual gives the formal of the key at a place of a table.
    #[tactic(auto, using(crate::proofs::Misses::at_places))]
    fn lacks_at(&self, names: &IndexMap<Vec<u8>, usize>, place: usize) -> bool
        ensures { result ≡ lacks_at self.now (slice_get (map (λ e. e.0.items) names.now.entries) place) }
    {
        match names.get_index(place) {
            Some((key, _)) => self.lacks(key.as_slice()),
            None => false,
        }
    }

    /// Whether no actual gives the formal of one of some keys, those of a table.
    #[tactic(auto, using(crate::proofs::Misses::key_laws))]
    pub fn lacks_one(&self, names: &IndexMap<Vec<u8>, usize>) -> bool
        ensures { result ≡ lacks_one self.now (map (λ e. e.0.items) names.now.entries) }
    {
        for place in 0..names.len() {
            if self.lacks_at(names, place) {
                return true;
            }
        }
        false
    }

    /// The place of the first of the actuals that gives the formal of a name.
    fn place_of(&self, alloc: Global, name: &[u8]) -> Result<Option<usize>, NoMemory>
        ensures { IfOk result (λ place. place ≡ first_place (has_actual_key (key_of name.now)) self.now) }
    {
        let key = key_of(alloc, name)?;
        Ok(look_up(&self.places, key.as_slice()))
    }

    /// The first of the actuals that gives the formal of a name.
    pub fn actual_named(
        &self,
        alloc: Global,
        name: &[u8],
    ) -> Result<Option<&'t RawActual>, NoMemory>
        ensures { IfOk result (λ a. option_map (λ a. a.now) a ≡ actual_named self.now name.now) }
    {
        let place = self.place_of(alloc, name)?;
        Ok(actual_at(self.all, place))
    }
}

/// Whether some actuals give one formal twice.
pub fn are_repeated(alloc: Global, all: &[RawActual]) -> Result<bool, NoMemory>
    ensures { IfOk result (λ repeated. repeated ≡ are_repeated all.now) }
{
    let mut names = Names::new(alloc);
    for actual in all {
        let key = key_of(alloc, actual.formal.as_slice())?;
        let new = names.declare(key)?;
        if !new {
            return Ok(true);
        }
    }
    Ok(false)
}
