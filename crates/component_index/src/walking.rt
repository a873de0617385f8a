//! Steps of a path from scope to scope.
ghost use Rattle.std.specs.Prelude.{◌≡◌, IfOk, IfSome, option_map};
ghost use Rattle.stl_rules.specs.DeclarationRules.{key_of};
ghost use Rattle.stl_rules.specs.Paths.{element_at, after_step, after_path};
ghost use Rattle.component_index.specs.inner.Scopes.{AreScopes, IsAt, LeadsTo, entry_at, entry_in, declarations_in, entry_from, placed_of_entry};
ghost use Rattle.symbol_layout.specs.Kept.{capped_placed};
ghost use Rattle.symbol_layout.specs.Structs.{AreBits, struct_in};

use crate::scope::{Entry, Inner, StructScope};
use name_tables::key_of;
use s7_base::NoMemory;
use std::alloc::Global;
use stl_tree::{DeclType, PathStep};
use symbol_layout::{elements_before, extent_by, product, sum};

/// The entry of the first declaration of a key in a scope.
fn entry_in<'d>(scope: &StructScope<'d>, key: &[u8]) -> Option<Entry<'d>>
    ensures { result ≡ entry_in key.now scope.now }
{
    scope.names.find(key)
}

/// The entry of the first declaration of a key in the scope of this number.
fn entry_at<'d>(scopes: &[StructScope<'d>], number: usize, key: &[u8]) -> Option<Entry<'d>>
    ensures { result ≡ entry_at scopes.now number key.now }
{
    let scope = scopes.get(number)?;
    entry_in(scope, key)
}

/// An entry, moved to a scope that begins at bit `start`.
fn entry_from<'d>(start: u64, found: Option<Entry<'d>>) -> Option<Entry<'d>>
    ensures { result ≡ option_map (entry_from start) found.entry }
{
    let entry = found?;
    Some(Entry {
        place: sum(start, entry.place),
        ty: entry.ty,
        inner: entry.inner,
    })
}

/// The entry of the first declaration of a name in a scope that begins at bit `start`.
fn entry_of_name<'d>(
    alloc: Global,
    scopes: &[StructScope<'d>],
    number: usize,
    start: u64,
    name: &[u8],
) -> Result<Option<Entry<'d>>, NoMemory>
    ensures { IfOk result (λ found. found ≡ option_map (entry_from start) (entry_at scopes.now number (key_of name.now))) }
{
    let key = key_of(alloc, name)?;
    Ok(entry_from(start, entry_at(scopes, number, key.as_slice())))
}

/// The entry of one element of an array that begins at bit `place`.
#[tactic(auto, using(symbol_layout::proofs::Kept::kept_element))]
fn element_at<'d>(
    place: u64,
    inner: Inner,
    bounds: &[(i64, i64)],
    ty: &'d DeclType,
    indices: &[i64],
) -> Option<Entry<'d>>
    requires { AreBits inner.bits (struct_in ty.now) }
    ensures same { option_map placed_of_entry result ≡ capped_placed (element_at place bounds.now ty.now indices.now) }
    ensures inner { IfSome result (λ entry. entry.inner ≡ inner) }
    ensures its_type { IfSome result (λ entry. entry.ty.now ≡ ty.now) }
{
    let before = elements_before(bounds, indices)?;
    let place = sum(place, product(before, extent_by(ty, inner.bits).bits));
    Some(Entry { place, ty, inner })
}

/// The entry after one more step of a path, from a type at a place.
#[tactic(auto, using(crate::proofs::Stepping::named_in_scope))]
fn after_step<'d>(
    alloc: Global,
    scopes: &[StructScope<'d>],
    at: Entry<'d>,
    step: &PathStep,
) -> Result<Option<Entry<'d>>, NoMemory>
    requires scopes { AreScopes scopes.now }
    requires at { IsAt (declarations_in scopes.now) at }
    ensures { IfOk result (LeadsTo (declarations_in scopes.now) (after_step at.entry.place at.entry.ty.now step.now)) }
{
    match at.ty {
        DeclType::Elementary(_) => Ok(None),
        DeclType::DateAndTime => Ok(None),
        DeclType::Array(bounds, element) => match step {
            PathStep::Name(_) => Ok(None),
            PathStep::Index(indices) => Ok(element_at(
                at.place,
                at.inner,
                bounds.as_slice(),
                element.get(),
                indices.as_slice(),
            )),
        },
        DeclType::Struct(_) => match step {
            PathStep::Name(name) => {
                entry_of_name(alloc, scopes, at.inner.scope, at.place, name.as_slice())
            }
            PathStep::Index(_) => Ok(None),
        },
    }
}

/// The entry after all steps of a path.
pub fn after_path<'d>(
    alloc: Global,
    scopes: &[StructScope<'d>],
    start: Entry<'d>,
    path: &[PathStep],
) -> Result<Option<Entry<'d>>, NoMemory>
    requires scopes { AreScopes scopes.now }
    requires start { IsAt (declarations_in scopes.now) start }
    ensures { IfOk result (λ found. option_map placed_of_entry found ≡ capped_placed (after_path path.now (placed_of_entry start.entry))) }
{
    let mut at = start;
    for step in path {
        match after_step(alloc, scopes, at, step)? {
            Some(next) => at = next,
            None => return Ok(None),
        }
    }
    Ok(Some(at))
}
