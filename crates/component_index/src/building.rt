//! Tables and scopes made from declarations.
ghost use Rattle.std.specs.Prelude.{◌≡◌, ◌≤◌, ◌^◌, IfOk, OnOk};
ghost use Rattle.stl_rules.specs.Extents.{end_behind, end_of_all, extent_of, place_behind};
ghost use Rattle.stl_rules.specs.Paths.{named_behind, named_in};
ghost use Rattle.component_index.specs.inner.Scopes.{Adds, AreScopes, Grows, IsInner, IsOf, IsTable, declarations_in, table_of};
ghost use Rattle.symbol_layout.specs.Kept.{sections_now, capped_bits};
ghost use Rattle.symbol_layout.specs.Structs.{AreBits, struct_in};

use crate::scope::{Entry, Inner, StructScope};
use crate::table::Table;
use s7_base::NoMemory;
use std::alloc::Global;
use stl_tree::{DeclType, Declaration};
use symbol_layout::{end_behind, even_extent, extent_by, place_behind, section_behind};

/// The entry of a declaration of a type after one that ends at `end`.
fn entry_behind<'d>(end: u64, ty: &'d DeclType, inner: Inner) -> Entry<'d>
    requires end { end ≤ 2 ^ 60 }
    requires bits { AreBits inner.bits (struct_in ty.now) }
    ensures place { result.place ≡ place_behind end (extent_of ty.now) }
    ensures its_type { result.ty.now ≡ ty.now }
    ensures inner { result.inner ≡ inner }
{
    let place = place_behind(end, extent_by(ty, inner.bits));
    Entry { place, ty, inner }
}

/// Where a declaration of a type ends that follows one ending at `end`.
fn end_of(end: u64, ty: &DeclType, inner: Inner) -> u64
    requires end { end ≤ 2 ^ 60 }
    requires bits { AreBits inner.bits (struct_in ty.now) }
    ensures { result ≡ capped_bits (end_behind end (extent_of ty.now)) }
{
    end_behind(end, extent_by(ty, inner.bits))
}

/// Appends a scope to the others, where its names and its end are known.
#[tactic(auto, using(crate::proofs::Growing::pushed_grows, crate::proofs::Growing::pushed_held, crate::proofs::Growing::pushed_scopes))]
fn put_scope<'d>(
    scopes: &mut Vec<StructScope<'d>>,
    decls: &'d [Declaration],
    names: Table<'d>,
    end: u64,
) -> Result<Inner, NoMemory>
    requires scopes { AreScopes scopes.old.items }
    requires names { IsTable (declarations_in scopes.old.items) (named_behind 0 decls.now) (table_of names) }
    requires end { end ≡ capped_bits (end_of_all 0 decls.now) }
    ensures scopes { OnOk result (AreScopes scopes.new.items) }
    ensures grown { OnOk result (Grows scopes.old.items scopes.new.items) }
    ensures own { IfOk result (λ inner. IsOf (declarations_in scopes.new.items) inner decls.now) }
{
    let scope = scopes.len();
    scopes.push(StructScope { decls, names })?;
    Ok(Inner {
        scope,
        bits: even_extent(end).bits,
    })
}

/// Appends the scopes inside a type to the others, and gives that of the STRUCT inside.
#[cycle(building)]
fn put_inner<'d>(
    alloc: Global,
    scopes: &mut Vec<StructScope<'d>>,
    ty: &'d DeclType,
) -> Result<Inner, NoMemory>
    requires { AreScopes scopes.old.items }
    ensures scopes { OnOk result (AreScopes scopes.new.items) }
    ensures grown { OnOk result (Grows scopes.old.items scopes.new.items) }
    ensures inner { IfOk result (λ inner. IsInner (declarations_in scopes.new.items) inner ty.now) }
{
    match ty {
        DeclType::Elementary(_) => Ok(Inner { scope: 0, bits: 0 }),
        DeclType::DateAndTime => Ok(Inner { scope: 0, bits: 0 }),
        DeclType::Array(_, element) => put_inner(alloc, scopes, element.get()),
        DeclType::Struct(parts) => {
            let mut names = Table::new(alloc);
            let end = put_section(alloc, scopes, &mut names, 0, parts.as_slice())?;
            put_scope(scopes, parts.as_slice(), names, end)
        }
    }
}

/// Adds declarations that follow one ending at `end` to a table, appends the scopes inside them to the
/// others, and gives the end of the last one.
#[cycle(building)]
fn put_section<'d>(
    alloc: Global,
    scopes: &mut Vec<StructScope<'d>>,
    names: &mut Table<'d>,
    start: u64,
    decls: &'d [Declaration],
) -> Result<u64, NoMemory>
    requires scopes { AreScopes scopes.old.items }
    requires start { start ≤ 2 ^ 60 }
    ensures scopes { OnOk result (AreScopes scopes.new.items) }
    ensures grown { OnOk result (Grows scopes.old.items scopes.new.items) }
    ensures names { OnOk result (Adds (declarations_in scopes.new.items) (named_behind start decls.now) (table_of names.old) (table_of names.new)) }
    ensures end { IfOk result (λ end. end ≡ capped_bits (end_of_all start decls.now)) }
{
    names.reserve(decls.len())?;
    let mut end = start;
    for d in decls {
        let inner = put_inner(alloc, scopes, &d.ty)?;
        names.add_entry(alloc, d.name.as_slice(), entry_behind(end, &d.ty, inner))?;
        end = end_of(end, &d.ty, inner);
    }
    Ok(end)
}

/// The table of sections; the scopes inside them are appended to the others.
pub fn put_sections<'d>(
    alloc: Global,
    scopes: &mut Vec<StructScope<'d>>,
    sections: &[&'d [Declaration]],
) -> Result<Table<'d>, NoMemory>
    requires { AreScopes scopes.old.items }
    ensures scopes { OnOk result (AreScopes scopes.new.items) }
    ensures names { IfOk result (λ names. IsTable (declarations_in scopes.new.items) (named_in 0 (sections_now sections.now)) (table_of names)) }
{
    let mut names = Table::new(alloc);
    let mut end = 0;
    for section in sections {
        end = put_section(alloc, scopes, &mut names, section_behind(end), section)?;
    }
    Ok(names)
}
