//! The formals of a block by their names.
ghost use Rattle.std.specs.Prelude.{◌≡◌, ◌++◌, IfOk, OnOk, map, option_map};
ghost use Rattle.block_variables.specs.inner.FormalPlaces.{AreFormalPlaces, formal_found};
ghost use Rattle.block_variables.specs.inner.Kept.{component_of, formal_of, formals_made, own_sections};
ghost use Rattle.stl_rules.specs.Interfaces.{formal_at, formal_named, formals_of, width_or_bit};

use crate::rules::result_declared;
use component_index::Components;
use indexmap::IndexMap;
use name_tables::{key_of, look_up, put_place};
use s7_base::{List, NoMemory, Width};
use std::alloc::Global;
use std::marker::Model;
use stl_rules::Component;
use stl_tree::{BlockKind, Declaration, ElemType, Formal, Mode, RawBlock};
use symbol_layout::{elementary, width_of};

/// Formals that are found by their names. Contracts see the formals.
#[derive(Drop)]
pub struct Formals {
    all: List<Formal>,

    /// The place of the first formal of each name, in capitals.
    places: IndexMap<Vec<u8>, usize>,
}

impl Model for Formals {
    ghost use Rattle.std.specs.Prelude.{List, map};
    ghost use Rattle.stl_tree.specs.declared.program.Formal.{Formal};
    ghost use Rattle.block_variables.specs.inner.FormalPlaces.{AreFormalPlaces};

    ghost Value = { List Formal };

    ghost view = { λ f. f.all };

    ghost invariant = { λ f. AreFormalPlaces f.all (map (λ e. (e.0.items, e.1)) f.places.entries) };
}

/// The width of a formal.
fn width_or_bit(kind: Option<ElemType>) -> Width
    ensures { result ≡ width_or_bit kind }
{
    match kind {
        Some(kind) => width_of(kind),
        None => Width::Bit,
    }
}

/// A formal at the place of a component.
fn formal_at(
    alloc: Global,
    mode: Mode,
    d: &Declaration,
    at: Option<Component>,
) -> Result<Formal, NoMemory>
    ensures { IfOk result (λ f. f ≡ formal_at (mode, d.now) at) }
{
    let name = d.name.copy(alloc)?;
    let width = width_or_bit(elementary(&d.ty));
    match at {
        Some(at) => Ok(Formal {
            name,
            mode,
            width,
            byte: at.byte,
            bit: at.bit,
        }),
        None => Ok(Formal {
            name,
            mode,
            width,
            byte: 0,
            bit: 0,
        }),
    }
}

/// The component of a formal: in the instance of a function block, and nowhere else.
#[tactic(auto, using(crate::proofs::Interfaces::of_function_block))]
fn component_of(
    alloc: Global,
    raw: &RawBlock,
    interface: &Components<'_>,
    name: &[u8],
) -> Result<Option<Component>, NoMemory>
    requires { interface.now ≡ own_sections raw.now }
    ensures { IfOk result (λ at. at ≡ component_of raw.now name.now) }
{
    match raw.kind {
        BlockKind::Fb => interface.component_named(alloc, name),
        BlockKind::Ob | BlockKind::Fc | BlockKind::Db => Ok(None),
    }
}

/// The formal of a declaration.
fn formal_of(
    alloc: Global,
    raw: &RawBlock,
    interface: &Components<'_>,
    mode: Mode,
    d: &Declaration,
) -> Result<Formal, NoMemory>
    requires { interface.now ≡ own_sections raw.now }
    ensures { IfOk result (λ f. f ≡ formal_of raw.now mode d.now) }
{
    let at = component_of(alloc, raw, interface, d.name.as_slice())?;
    formal_at(alloc, mode, d, at)
}

/// Adds the formals of declarations.
fn put_formals(
    alloc: Global,
    raw: &RawBlock,
    interface: &Components<'_>,
    mode: Mode,
    decls: &[Declaration],
    all: &mut List<Formal>,
) -> Result<(), NoMemory>
    requires { interface.now ≡ own_sections raw.now }
    ensures { OnOk result (all.new ≡ all.old ++ map (formal_of raw.now mode) decls.now) }
{
    for d in decls {
        all.push(formal_of(alloc, raw, interface, mode, d)?)?;
    }
    Ok(())
}

/// The formals of a function or a function block, by the index of its interface.
fn formals_by(
    alloc: Global,
    raw: &RawBlock,
    interface: &Components<'_>,
) -> Result<List<Formal>, NoMemory>
    requires { interface.now ≡ own_sections raw.now }
    ensures { IfOk result (λ all. all ≡ formals_made raw.now) }
{
    let output = result_declared(alloc, raw)?;
    let mut all = List::new(alloc);
    put_formals(
        alloc,
        raw,
        interface,
        Mode::Input,
        raw.inputs.as_slice(),
        &mut all,
    )?;
    put_formals(
        alloc,
        raw,
        interface,
        Mode::Output,
        raw.outputs.as_slice(),
        &mut all,
    )?;
    put_formals(
        alloc,
        raw,
        interface,
        Mode::Output,
        output.as_slice(),
        &mut all,
    )?;
    put_formals(
        alloc,
        raw,
        interface,
        Mode::InOut,
        raw.in_outs.as_slice(),
        &mut all,
    )?;
    Ok(all)
}

/// The formals of a block, by the index of its interface.
#[tactic(auto, using(crate::proofs::FormalLists::of_kind))]
fn formals_of(
    alloc: Global,
    raw: &RawBlock,
    interface: &Components<'_>,
) -> Result<List<Formal>, NoMemory>
    requires { interface.now ≡ own_sections raw.now }
    ensures { IfOk result (λ all. all ≡ formals_of raw.now) }
{
    match raw.kind {
        BlockKind::Fc | BlockKind::Fb => formals_by(alloc, raw, interface),
        BlockKind::Ob | BlockKind::Db => Ok(List::new(alloc)),
    }
}

fn copy_of(alloc: Global, formal: &Formal) -> Result<Formal, NoMemory>
    ensures { IfOk result (λ copy. copy ≡ formal.now) }
{
    Ok(Formal {
        name: formal.name.copy(alloc)?,
        mode: formal.mode,
        width: formal.width,
        byte: formal.byte,
        bit: formal.bit,
    })
}

/// The places of the first formals of all names.
fn places_of(alloc: Global, all: &[Formal]) -> Result<IndexMap<Vec<u8>, usize>, NoMemory>
    ensures { IfOk result (λ places. AreFormalPlaces all.now (map (λ e. (e.0.items, e.1)) places.entries)) }
{
    let mut places = IndexMap::with_capacity(alloc, all.len())?;
    for place in 0..all.len() {
        let formal = &all[place];
        let key = key_of(alloc, formal.name.as_slice())?;
        put_place(&mut places, key, place)?;
    }
    Ok(places)
}

/// The formal at a place, with this place; one whose place has more than 32 bits counts as out of memory.
fn formal_found(all: &[Formal], place: Option<usize>) -> Result<Option<(u32, &Formal)>, NoMemory>
    ensures { IfOk result (λ f. option_map (λ p. (p.0, p.1.now)) f ≡ formal_found all.now place) }
{
    let Some(place) = place else {
        return Ok(None);
    };
    let Some(formal) = all.get(place) else {
        return Ok(None);
    };
    if place > u32::MAX as usize {
        return Err(NoMemory);
    }
    Ok(Some((place as u32, formal)))
}

impl Formals {
    /// The formals of a block, by the index of its interface.
    pub fn new(
        alloc: Global,
        raw: &RawBlock,
        interface: &Components<'_>,
    ) -> Result<Formals, NoMemory>
        requires { interface.now ≡ own_sections raw.now }
        ensures { IfOk result (λ all. all ≡ formals_of raw.now) }
    {
        let all = formals_of(alloc, raw, interface)?;
        let places = places_of(alloc, all.as_slice())?;
        Ok(Formals { all, places })
    }

    /// The formals in their order.
    pub fn all(&self) -> &[Formal]
        ensures { result.now ≡ self.now }
    {
        self.all.as_slice()
    }

    /// The place of the first formal of each name, by its key.
    pub fn places(&self) -> &IndexMap<Vec<u8>, usize>
        ensures { AreFormalPlaces self.now (map (λ e. (e.0.items, e.1)) result.now.entries) }
    {
        &self.places
    }

    /// A copy of the formals.
    pub fn copy(&self, alloc: Global) -> Result<List<Formal>, NoMemory>
        ensures { IfOk result (λ all. all ≡ self.now) }
    {
        let mut all = List::new(alloc);
        for formal in self.all.as_slice() {
            all.push(copy_of(alloc, formal)?)?;
        }
        Ok(all)
    }

    /// The formal of a name, with its place.
    #[tactic(auto, using(crate::proofs::FormalLists::named_at))]
    pub fn formal_named(
        &self,
        alloc: Global,
        name: &[u8],
    ) -> Result<Option<(u32, &Formal)>, NoMemory>
        ensures { IfOk result (λ f. option_map (λ p. (p.0, p.1.now)) f ≡ formal_named 0 self.now name.now) }
    {
        let key = key_of(alloc, name)?;
        formal_found(self.all.as_slice(), look_up(&self.places, key.as_slice()))
    }
}
