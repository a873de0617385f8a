//! The symbol table of a text, by names.
ghost use Rattle.std.specs.Prelude.{◌≡◌, IfOk, map, option_and_then, option_map, slice_get, take};
ghost use Rattle.name_tables.specs.Places.{first_place};
ghost use Rattle.stl_rules.specs.DeclarationRules.{is_named, key_of};
ghost use Rattle.stl_rules.specs.Names.{block_number, is_same_kind, number_at, symbol_named};
ghost use Rattle.name_tables.specs.Before.{names_before};
ghost use Rattle.name_tables.specs.inner.Places.{AreNamePlaces, has_key};
ghost use Rattle.stl_tree.specs.declared.raw.SymbolLine.{SymbolLine};

use crate::first_places::{key_of, look_up, put_place};
use indexmap::IndexMap;
use s7_base::{NoMemory, Reason};
use std::alloc::Global;
use std::marker::Model;
use stl_tree::{BlockKind, RawName, SymbolAddress, SymbolLine};

/// The lines of a symbol table, which are found by names. Contracts see the lines.
#[derive(Drop)]
pub struct Symbols<'t> {
    lines: &'t [SymbolLine],

    /// The place of the first line of each name, in capitals.
    places: IndexMap<Vec<u8>, usize>,
}

impl<'t> Model for Symbols<'t> {
    ghost use Rattle.std.specs.Prelude.{List, map};
    ghost use Rattle.stl_tree.specs.declared.raw.SymbolLine.{SymbolLine};
    ghost use Rattle.name_tables.specs.inner.Places.{AreNamePlaces};

    ghost Value = { List SymbolLine };

    ghost view = { λ s. s.lines.now };

    ghost invariant = { λ s. AreNamePlaces s.lines.now (map (λ e. (e.0.items, e.1)) s.places.entries) };
}

/// The places of the first lines of all names.
fn places_of(alloc: Global, lines: &[SymbolLine]) -> Result<IndexMap<Vec<u8>, usize>, NoMemory>
    ensures { IfOk result (λ places. AreNamePlaces lines.now (map (λ e. (e.0.items, e.1)) places.entries)) }
{
    let mut places = IndexMap::with_capacity(alloc, lines.len())?;
    for place in 0..lines.len() {
        let line = &lines[place];
        let key = key_of(alloc, line.name.as_slice())?;
        put_place(&mut places, key, place)?;
    }
    Ok(places)
}

fn address_of(line: &SymbolLine) -> SymbolAddress
    ensures { result ≡ line.now.address }
{
    line.address
}

/// The address of the line at a place.
fn address_at(lines: &[SymbolLine], place: Option<usize>) -> Option<SymbolAddress>
    ensures { result ≡ option_map (λ (line : SymbolLine). line.address) (option_and_then (λ n. slice_get lines.now n) place) }
{
    let line = lines.get(place?)?;
    Some(address_of(line))
}

fn is_same_kind(kind: BlockKind, its_kind: BlockKind) -> bool
    ensures { result ≡ is_same_kind kind its_kind }
{
    kind == its_kind
}

/// The number of a block of a kind by the address of its symbol.
fn number_at(kind: BlockKind, address: Option<SymbolAddress>) -> Result<u32, Reason>
    ensures { result ≡ number_at kind address }
{
    match address {
        None => Err(Reason::UnknownName),
        Some(SymbolAddress::Block(its_kind, number)) => {
            if is_same_kind(kind, its_kind) {
                Ok(number)
            } else {
                Err(Reason::BadOperand)
            }
        }
        Some(_) => Err(Reason::BadOperand),
    }
}

impl<'t> Symbols<'t> {
    /// The lines of a symbol table, to be found by names.
    pub fn new(alloc: Global, lines: &'t [SymbolLine]) -> Result<Symbols<'t>, NoMemory>
        ensures { IfOk result (λ symbols. symbols ≡ lines.now) }
    {
        let places = places_of(alloc, lines)?;
        Ok(Symbols { lines, places })
    }

    /// The place of the first line of a name.
    fn place_of(&self, alloc: Global, name: &[u8]) -> Result<Option<usize>, NoMemory>
        ensures { IfOk result (λ place. place ≡ first_place (has_key (key_of name.now)) self.now) }
    {
        let key = key_of(alloc, name)?;
        Ok(look_up(&self.places, key.as_slice()))
    }

    /// The address of a name.
    #[tactic(auto, using(crate::proofs::Places::named_at))]
    pub fn address_named(
        &self,
        alloc: Global,
        name: &[u8],
    ) -> Result<Option<SymbolAddress>, NoMemory>
        ensures { IfOk result (λ address. address ≡ symbol_named self.now name.now) }
    {
        let place = self.place_of(alloc, name)?;
        Ok(address_at(self.lines, place))
    }

    /// Whether a line before a place has the name.
    #[tactic(auto, using(crate::proofs::Places::name_repeated))]
    pub fn is_repeated(&self, alloc: Global, place: usize, name: &[u8]) -> Result<bool, NoMemory>
        ensures { IfOk result (λ repeated. repeated ≡ is_named (key_of name.now) (names_before (take place self.now))) }
    {
        match self.place_of(alloc, name)? {
            Some(first) => Ok(first < place),
            None => Ok(false),
        }
    }

    /// The number of a block of a kind that is written as a symbol.
    pub fn number_named(
        &self,
        alloc: Global,
        kind: BlockKind,
        name: &[u8],
    ) -> Result<Result<u32, Reason>, NoMemory>
        ensures { IfOk result (λ number. number ≡ number_at kind (symbol_named self.now name.now)) }
    {
        let address = self.address_named(alloc, name)?;
        Ok(number_at(kind, address))
    }

    /// The number of a block of a kind.
    pub fn block_number(
        &self,
        alloc: Global,
        kind: BlockKind,
        name: &RawName,
    ) -> Result<Result<u32, Reason>, NoMemory>
        ensures { IfOk result (λ number. number ≡ block_number self.now kind name.now) }
    {
        match name {
            RawName::Number(number) => Ok(Ok(*number)),
            RawName::Name(name) => self.number_named(alloc, kind, name.as_slice()),
        }
    }
}
