//! Units: what they are in the tree, what they call, and the rules that are broken in them.
ghost use Rattle.std.specs.Prelude.{◌≡◌, [], ◌∷◌, ◌++◌, IfOk, OnOk};
ghost use Rattle.st_rules.specs.Calls.{all_calls};
ghost use Rattle.st_rules.specs.Declarations.{all_inside};
ghost use Rattle.st_rules.specs.Units.{all_unit_breaks, all_units, breaks_of_unit, calls_of_unit, calls_of_units, scope_in, unit_breaks, unit_in, unit_of};

use crate::call::all_calls;
use call_chains::Call;
use s7_base::{Break, List, NoMemory};
use st_names::lists::put_breaks;
use st_names::scope::{Formals, Meaning, NameScope};
use st_names::table::Table;
use st_scopes::{all_inside, locals_of};
use st_statement_types::statements;
use st_tree::{Pou, RawPou};
use std::alloc::Global;

/// The units of a text, what each of them calls, and the rules that are broken in them.
#[derive(Drop)]
pub struct Units {
    pub units: List<Pou>,
    pub calls: List<List<Call>>,
    pub breaks: List<Break>,
}

/// Replaces the names of a unit in the scope by those of another unit.
fn enter(
    alloc: Global,
    scope: &mut NameScope,
    raw: &RawPou,
    breaks: &mut List<Break>,
) -> Result<(), NoMemory>
    ensures breaks { OnOk result (breaks.new ≡ breaks.old ++ (all_inside raw.now.formals raw.now.locals).breaks) }
    ensures scope { OnOk result (scope.new ≡ scope_in scope.old.outer scope.old.formals raw.now) }
{
    let inside = all_inside(alloc, raw.formals.as_slice(), raw.locals.as_slice())?;
    put_breaks(breaks, inside.breaks.as_slice())?;
    scope.inner = inside.names;
    Ok(())
}

/// A unit of the tree, from a raw one. The scope has its names afterwards.
fn unit_in(
    alloc: Global,
    scope: &mut NameScope,
    raw: &RawPou,
    breaks: &mut List<Break>,
) -> Result<Pou, NoMemory>
    ensures unit { IfOk result (λ unit. unit ≡ unit_in (scope_in scope.old.outer scope.old.formals raw.now) raw.now) }
    ensures breaks { OnOk result (breaks.new ≡ breaks.old
        ++ unit_breaks (scope_in scope.old.outer scope.old.formals raw.now) raw.now) }
    ensures scope { OnOk result (scope.new ≡ scope_in scope.old.outer scope.old.formals raw.now) }
{
    enter(alloc, scope, raw, breaks)?;
    let body = statements(alloc, scope, raw.body.as_slice(), breaks)?;
    Ok(Pou {
        program: raw.program,
        name: raw.name.copy(alloc)?,
        formals: locals_of(alloc, raw.formals.as_slice())?,
        locals: locals_of(alloc, raw.locals.as_slice())?,
        body,
    })
}

fn with_unit(
    alloc: Global,
    scope: &mut NameScope,
    raw: &RawPou,
    all: &mut Units,
) -> Result<(), NoMemory>
    ensures units { OnOk result (all.new.units ≡ all.old.units
        ++ unit_of scope.old.outer scope.old.formals raw.now ∷ []) }
    ensures calls { OnOk result (all.new.calls ≡ all.old.calls
        ++ calls_of_unit scope.old.outer scope.old.formals raw.now ∷ []) }
    ensures breaks { OnOk result (all.new.breaks ≡ all.old.breaks
        ++ breaks_of_unit scope.old.outer scope.old.formals raw.now) }
    ensures outer { OnOk result (scope.new.outer ≡ scope.old.outer) }
    ensures formals { OnOk result (scope.new.formals ≡ scope.old.formals) }
{
    let unit = unit_in(alloc, scope, raw, &mut all.breaks)?;
    let mut calls = List::new(alloc);
    all_calls(alloc, scope, raw.body.as_slice(), &mut calls)?;
    all.units.push(unit)?;
    all.calls.push(calls)
}

/// Appends units of a text to others.
fn put_units(
    alloc: Global,
    scope: &mut NameScope,
    raws: &[RawPou],
    all: &mut Units,
) -> Result<(), NoMemory>
    ensures units { OnOk result (all.new.units ≡ all.old.units ++ all_units scope.old.outer scope.old.formals raws.now) }
    ensures calls { OnOk result (all.new.calls
        ≡ all.old.calls ++ calls_of_units scope.old.outer scope.old.formals raws.now) }
    ensures breaks { OnOk result (all.new.breaks
        ≡ all.old.breaks ++ all_unit_breaks scope.old.outer scope.old.formals raws.now) }
{
    for raw in raws {
        with_unit(alloc, scope, raw, all)?;
    }
    Ok(())
}

fn units_from(alloc: Global, scope: &mut NameScope, raws: &[RawPou]) -> Result<Units, NoMemory>
    ensures units { IfOk result (λ all. all.units ≡ all_units scope.old.outer scope.old.formals raws.now) }
    ensures calls { IfOk result (λ all. all.calls ≡ calls_of_units scope.old.outer scope.old.formals raws.now) }
    ensures breaks { IfOk result (λ all. all.breaks ≡ all_unit_breaks scope.old.outer scope.old.formals raws.now) }
{
    let mut all = Units {
        units: List::new(alloc),
        calls: List::new(alloc),
        breaks: List::new(alloc),
    };
    put_units(alloc, scope, raws, &mut all)?;
    Ok(all)
}

/// All units of a text, by what is declared outside them and the formals of each.
pub fn all_units(
    alloc: Global,
    outer: Table<Meaning>,
    formals: List<Formals>,
    raws: &[RawPou],
) -> Result<Units, NoMemory>
    ensures units { IfOk result (λ all. all.units ≡ all_units outer formals raws.now) }
    ensures calls { IfOk result (λ all. all.calls ≡ calls_of_units outer formals raws.now) }
    ensures breaks { IfOk result (λ all. all.breaks ≡ all_unit_breaks outer formals raws.now) }
{
    let mut scope = NameScope {
        outer,
        formals,
        inner: Table::new(alloc),
    };
    units_from(alloc, &mut scope, raws)
}
