//! The rules that declarations break, but for their length.
ghost use Rattle.std.specs.Prelude.{◌≡◌, [], ◌++◌, nat_le, int_le, OnOk};
ghost use Rattle.std.specs.List.{list_all};
ghost use Rattle.stl_rules.specs.DeclarationRules.{are_bounds, array_breaks, declaration_breaks, is_array, is_bound, is_named, key_of, break_if_repeated, scope_breaks, section_breaks, takes, type_breaks, value_breaks, with_name};
ghost use Rattle.symbol_layout.specs.Kept.{sections_now};
ghost use Rattle.symbol_layout.specs.inner.Scopes.{names_behind};

use crate::initial::are_values;
use crate::names::{Names, key_of};
use s7_base::{Break, Line, List, NoMemory, Reason, note};
use std::alloc::Global;
use stl_tree::{DeclType, Declaration};

/// The most dimensions of an array.
const MOST_DIMENSIONS: usize = 6;

fn is_bound(bound: i64) -> bool
    ensures { result ≡ is_bound bound }
{
    -32_768 <= bound && bound <= 32_767
}

fn are_bounds(bounds: (i64, i64)) -> bool
    ensures { result ≡ are_bounds bounds }
{
    is_bound(bounds.0) && is_bound(bounds.1) && bounds.0 <= bounds.1
}

fn are_all_bounds(bounds: &[(i64, i64)]) -> bool
    ensures { result ≡ list_all are_bounds bounds.now }
{
    bounds.iter().all(|dimension| are_bounds(*dimension))
}

fn is_array(bounds: &[(i64, i64)]) -> bool
    ensures { result ≡ is_array bounds.now }
{
    are_all_bounds(bounds) && bounds.len() <= MOST_DIMENSIONS
}

fn judge_array(line: Line, bounds: &[(i64, i64)], breaks: &mut List<Break>) -> Result<(), NoMemory>
    ensures { OnOk result (breaks.new ≡ breaks.old ++ array_breaks line bounds.now) }
{
    if is_array(bounds) {
        Ok(())
    } else {
        note(breaks, line, Reason::BadType)
    }
}

fn judge_values(d: &Declaration, breaks: &mut List<Break>) -> Result<(), NoMemory>
    ensures { OnOk result (breaks.new ≡ breaks.old ++ value_breaks d.now.line (takes d.now.ty) d.now.initial) }
{
    if are_values(&d.ty, d.initial.as_slice()) {
        Ok(())
    } else {
        note(breaks, d.line, Reason::BadOperand)
    }
}

/// Adds a declaration's name to those of its scope, and notes the rule that it breaks.
fn judge_name(
    alloc: Global,
    names: &mut Names,
    d: &Declaration,
    breaks: &mut List<Break>,
) -> Result<(), NoMemory>
    ensures names { OnOk result (names.new ≡ with_name (key_of d.now.name) names.old) }
    ensures breaks { OnOk result (breaks.new ≡ breaks.old ++ break_if_repeated d.now.line (is_named (key_of d.now.name) names.old)) }
{
    let key = key_of(alloc, d.name.as_slice())?;
    let new = names.declare(key)?;
    if !new {
        note(breaks, d.line, Reason::DuplicateName)?;
    }
    Ok(())
}

/// Notes the rules that are broken in a type on a line.
#[cycle(judge)]
fn judge_type(
    alloc: Global,
    ty: &DeclType,
    line: Line,
    breaks: &mut List<Break>,
) -> Result<(), NoMemory>
    ensures { OnOk result (breaks.new ≡ breaks.old ++ type_breaks ty.now line) }
{
    match ty {
        DeclType::Elementary(_) => Ok(()),
        DeclType::DateAndTime => Ok(()),
        DeclType::Array(bounds, element) => {
            judge_array(line, bounds.as_slice(), breaks)?;
            judge_type(alloc, element.get(), line, breaks)
        }
        DeclType::Struct(parts) => {
            let mut names = Names::new(alloc);
            judge_scope(alloc, &mut names, parts.as_slice(), breaks)
        }
    }
}

/// Notes the rules that are broken in a declaration, but for its name.
#[cycle(judge)]
fn judge_declaration(
    alloc: Global,
    d: &Declaration,
    breaks: &mut List<Break>,
) -> Result<(), NoMemory>
    ensures { OnOk result (breaks.new ≡ breaks.old ++ declaration_breaks d.now) }
{
    judge_type(alloc, &d.ty, d.line, breaks)?;
    judge_values(d, breaks)
}

/// Notes the rules that are broken in declarations of a scope, after those that have its names so far.
#[cycle(judge)]
fn judge_scope(
    alloc: Global,
    names: &mut Names,
    decls: &[Declaration],
    breaks: &mut List<Break>,
) -> Result<(), NoMemory>
    ensures names { OnOk result (names.new ≡ names_behind names.old decls.now) }
    ensures breaks { OnOk result (breaks.new ≡ breaks.old ++ scope_breaks names.old decls.now) }
{
    names.reserve(decls.len())?;
    for d in decls {
        judge_name(alloc, names, d, breaks)?;
        judge_declaration(alloc, d, breaks)?;
    }
    Ok(())
}

/// Notes the rules that are broken in sections, which are one scope.
pub fn judge_sections(
    alloc: Global,
    sections: &[&[Declaration]],
    breaks: &mut List<Break>,
) -> Result<(), NoMemory>
    ensures { OnOk result (breaks.new ≡ breaks.old ++ section_breaks (sections_now sections.now)) }
{
    let mut names = Names::new(alloc);
    for section in sections {
        judge_scope(alloc, &mut names, section, breaks)?;
    }
    Ok(())
}
