//! A text with its names, types and places: its tree, or the first rule that is broken.
ghost use Rattle.std.specs.Prelude.{◌≡◌, ◌++◌, map, IfErr, IfOk, OnOk};
ghost use Rattle.st_rules.specs.Declarations.{all_outside, formals_of};
ghost use Rattle.st_rules.specs.Typed.{breaks_of, calls_in, names_of, tree_of, HasTree, IsChain, IsChainRefused, IsRefused};
ghost use Rattle.st_rules.specs.Units.{all_unit_breaks, all_units, calls_of_units};

use crate::depth::first_long_chain;
use crate::unit::{Units, all_units};
use call_chains::{Call, first_cycle};
use s7_base::{Break, Line, List, NoMemory, Reason, Rejection, first_of_all};
use st_names::lists::put_breaks;
use st_names::scope::Meaning;
use st_names::table::Table;
use st_scopes::{all_globals, all_outside, formals_of};
use st_tree::{RawPou, RawSt, StProgram};
use std::alloc::Global;

/// The result for a text: its tree where no rule is broken, the calls of its units, and the rules that are
/// broken.
#[derive(Drop)]
pub struct Judgement {
    pub tree: StProgram,
    pub calls: List<List<Call>>,
    pub breaks: List<Break>,
}

/// The units of a text, by what is declared outside them.
fn units_of(alloc: Global, outer: Table<Meaning>, raws: &[RawPou]) -> Result<Units, NoMemory>
    ensures units { IfOk result (λ all. all.units ≡ all_units outer (map formals_of raws.now) raws.now) }
    ensures calls { IfOk result (λ all. all.calls ≡ calls_of_units outer (map formals_of raws.now) raws.now) }
    ensures breaks { IfOk result (λ all. all.breaks ≡ all_unit_breaks outer (map formals_of raws.now) raws.now) }
{
    let formals = formals_of(alloc, raws)?;
    all_units(alloc, outer, formals, raws)
}

/// Broken rules of three kinds, one kind after the other.
fn all_breaks(
    mut first: List<Break>,
    second: &[Break],
    third: &[Break],
) -> Result<List<Break>, NoMemory>
    ensures { IfOk result (λ all. all ≡ first ++ (second.now ++ third.now)) }
{
    put_breaks(&mut first, second)?;
    put_breaks(&mut first, third)?;
    Ok(first)
}

/// The units of a text, and all rules that are broken in it; those of its globals are given.
fn units_in(alloc: Global, raw: &RawSt, globals: &[Break]) -> Result<Units, NoMemory>
    ensures units { IfOk result (λ all. all.units ≡ (tree_of raw.now).pous) }
    ensures calls { IfOk result (λ all. all.calls ≡ calls_in raw.now) }
    ensures breaks { IfOk result (λ all. all.breaks
        ≡ (all_outside raw.now.globals raw.now.pous).breaks
        ++ (globals.now ++ all_unit_breaks (names_of raw.now) (map formals_of raw.now.pous) raw.now.pous)) }
{
    let pous = raw.pous.as_slice();
    let outside = all_outside(alloc, raw.globals.as_slice(), pous)?;
    let inside = units_of(alloc, outside.names, pous)?;
    let breaks = all_breaks(outside.breaks, globals, inside.breaks.as_slice())?;
    Ok(Units {
        units: inside.units,
        calls: inside.calls,
        breaks,
    })
}

fn judge(alloc: Global, raw: &RawSt) -> Result<Judgement, NoMemory>
    ensures tree { IfOk result (λ judged. judged.tree ≡ tree_of raw.now) }
    ensures calls { IfOk result (λ judged. judged.calls ≡ calls_in raw.now) }
    ensures breaks { IfOk result (λ judged. judged.breaks ≡ breaks_of raw.now) }
{
    let globals = all_globals(alloc, raw.globals.as_slice())?;
    let inside = units_in(alloc, raw, globals.breaks.as_slice())?;
    Ok(Judgement {
        tree: StProgram {
            dbs: List::from_vec(globals.blocks),
            globals: globals.located,
            pous: inside.units,
        },
        calls: inside.calls,
        breaks: inside.breaks,
    })
}

/// Names the first rule that the chain of calls breaks.
fn judge_calls(alloc: Global, graph: &[List<Call>], units: &[RawPou]) -> Result<(), Rejection>
    ensures ok { OnOk result (IsChain graph.now units.now) }
    ensures err { IfErr result (IsChainRefused graph.now units.now) }
{
    if let Some(line) = first_cycle(alloc, graph)? {
        return Err(Rejection::Refused(line, Reason::CallCycle));
    }
    if let Some(first) = first_long_chain(alloc, graph, units)? {
        return Err(Rejection::Refused(first.line, first.rule));
    }
    if units.is_empty() {
        return Err(Rejection::Refused(Line(1), Reason::NoBlocks));
    }
    Ok(())
}

fn typed_from(alloc: Global, raw: &RawSt) -> Result<StProgram, Rejection>
    ensures tree { IfOk result (HasTree raw.now) }
    ensures refused { IfErr result (IsRefused raw.now) }
{
    let judged = judge(alloc, raw)?;
    if let Some(first) = first_of_all(judged.breaks.as_slice()) {
        return Err(Rejection::Refused(first.line, first.rule));
    }
    match judge_calls(alloc, judged.calls.as_slice(), raw.pous.as_slice()) {
        Ok(()) => Ok(judged.tree),
        Err(refusal) => Err(refusal),
    }
}

/// The tree of a text by its raw tree, or the first rule that is broken.
pub fn typed(alloc: Global, raw: RawSt) -> Result<StProgram, Rejection>
    ensures tree { IfOk result (HasTree raw) }
    ensures refused { IfErr result (IsRefused raw) }
{
    typed_from(alloc, &raw)
}
