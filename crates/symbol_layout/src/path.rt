//! Where the component that a path names lies.
ghost use Rattle.std.specs.Prelude.{◌≡◌, ◌≤◌, ◌^◌};
ghost use Rattle.std.specs.Option.{option_map};
ghost use Rattle.s7_base.specs.Tokens.{is_same_word};
ghost use Rattle.stl_rules.specs.Paths.{component_at, component_in, element_at, elements_before, is_index, named_behind, named_in, after_step, after_path};
ghost use Rattle.symbol_layout.specs.Kept.{capped_bits, capped_placed, placed_of_code};
ghost use Rattle.symbol_layout.specs.inner.Capped.{next_row, row_behind};

use crate::extent::{
    end_behind, end_of_all, extent_of, indices_in, place_behind, product, section_behind, sum,
};
use crate::initial::elementary;
use crate::place::Placed;
use s7_base::{List, rest_after};
use stl_rules::Component;
use stl_tree::{DeclType, Declaration, Declarations, PathStep};

/// The last bit of the byte 4,294,967,295.
const LAST_BIT: u64 = (1 << 35) - 1;

fn is_index(bounds: (i64, i64), index: i64) -> bool
    ensures { result ≡ is_index bounds index }
{
    bounds.0 <= index && index <= bounds.1
}

/// How many elements of a dimension come before one at `index`, after `rows` whole lines of the dimension;
/// `None` where the index is outside its bounds.
#[tactic(auto, using(crate::proofs::Kept::rows_kept))]
fn row_behind(rows: u64, bounds: (i64, i64), index: i64) -> Option<u64>
    ensures { result ≡ option_map capped_bits (row_behind rows bounds index) }
{
    if is_index(bounds, index) {
        let inner = index.abs_diff(bounds.0);
        Some(sum(product(rows, indices_in(bounds)), inner))
    } else {
        None
    }
}

/// How many elements of a dimension come before one at the first of some indices, after `rows` whole lines of
/// the dimension; `None` where there is no index, or it is outside the bounds.
fn next_row(rows: u64, bounds: (i64, i64), indices: &[i64]) -> Option<u64>
    ensures { result ≡ option_map capped_bits (next_row rows bounds indices.now) }
{
    match indices {
        [] => None,
        [index, ..] => row_behind(rows, bounds, *index),
    }
}

/// How many elements of an array come before the one with these indices; `None` where they fit no element.
pub fn elements_before(bounds: &[(i64, i64)], indices: &[i64]) -> Option<u64>
    ensures { result ≡ option_map capped_bits (elements_before 0 bounds.now indices.now) }
{
    let mut rows = 0;
    let mut rest = indices;
    for dimension in bounds {
        rows = next_row(rows, *dimension, rest)?;
        rest = rest_after(rest, 1);
    }
    if rest.is_empty() { Some(rows) } else { None }
}

fn is_same_name(a: &[u8], b: &[u8]) -> bool
    ensures { result ≡ is_same_word a.now b.now }
{
    a.eq_ignore_ascii_case(b)
}

/// The first declaration of a name among those from bit `start` on.
#[tactic(auto, using(crate::proofs::Kept::kept_named))]
fn named_behind<'d>(decls: &'d [Declaration], name: &[u8], start: u64) -> Option<Placed<'d>>
    requires { start ≤ 2 ^ 60 }
    ensures { option_map placed_of_code result ≡ capped_placed (named_behind start decls.now name.now) }
{
    let mut end = start;
    for d in decls {
        let extent = extent_of(&d.ty);
        if is_same_name(d.name.as_slice(), name) {
            let place = place_behind(end, extent);
            return Some(Placed { place, ty: &d.ty });
        }
        end = end_behind(end, extent);
    }
    None
}

/// One element of an array that begins at a place in bits.
#[tactic(auto, using(crate::proofs::Kept::kept_element))]
fn element_at<'d>(
    place: u64,
    bounds: &[(i64, i64)],
    ty: &'d DeclType,
    indices: &[i64],
) -> Option<Placed<'d>>
    ensures { option_map placed_of_code result ≡ capped_placed (element_at place bounds.now ty.now indices.now) }
{
    let before = elements_before(bounds, indices)?;
    let place = sum(place, product(before, extent_of(ty).bits));
    Some(Placed { place, ty })
}

/// The type after one more step of a path, from a type at a place.
#[tactic(auto, using(stl_rules::proofs::Equations::step_equations))]
fn after_step<'d>(at: Placed<'d>, step: &PathStep) -> Option<Placed<'d>>
    requires { at.place ≤ 2 ^ 60 }
    ensures { option_map placed_of_code result ≡ capped_placed (after_step at.entry.place at.entry.ty.now step.now) }
{
    match at.ty {
        DeclType::Elementary(_) => None,
        DeclType::DateAndTime => None,
        DeclType::Array(bounds, element) => match step {
            PathStep::Name(_) => None,
            PathStep::Index(indices) => element_at(
                at.place,
                bounds.as_slice(),
                element.get(),
                indices.as_slice(),
            ),
        },
        DeclType::Struct(parts) => match step {
            PathStep::Name(name) => named_behind(parts.as_slice(), name.as_slice(), at.place),
            PathStep::Index(_) => None,
        },
    }
}

/// The type after all steps of a path.
#[tactic(auto, using(crate::proofs::Kept::kept_walked))]
fn after_path<'d>(start: Placed<'d>, path: &[PathStep]) -> Option<Placed<'d>>
    requires { start.place ≤ 2 ^ 60 }
    ensures { option_map placed_of_code result ≡ capped_placed (after_path path.now (placed_of_code start.entry)) }
{
    let mut at = start;
    for step in path {
        at = after_step(at, step)?;
    }
    Some(at)
}

/// The component of a path that leads to a type at a place.
pub fn component_at(at: Placed<'_>) -> Component
    ensures { result ≡ component_at (placed_of_code at.entry) }
{
    let place = at.place.min(LAST_BIT);
    Component {
        byte: (place / 8) as u32,
        bit: (place % 8) as u8,
        kind: elementary(at.ty),
    }
}

/// The first declaration of a name in sections.
fn named_in<'d>(sections: &'d [List<Declaration>], name: &[u8]) -> Option<Placed<'d>>
    ensures { option_map placed_of_code result ≡ capped_placed (named_in 0 sections.now name.now) }
{
    let mut end = 0;
    for section in sections {
        let start = section_behind(end);
        if let Some(at) = named_behind(section.as_slice(), name, start) {
            return Some(at);
        }
        end = end_of_all(start, section.as_slice());
    }
    None
}

/// The component that a path names; `None` exactly where it names nothing that is declared. Takes no memory.
/// A place past the byte 4,294,967,295 is kept as the last bit of that byte, which no declarations within a
/// limit have.
pub fn component(decls: &Declarations, path: &[PathStep]) -> Option<Component>
    ensures { result ≡ component_in decls.now.sections path.now }
{
    let [first, ..] = path else {
        return None;
    };
    match first {
        PathStep::Index(_) => None,
        PathStep::Name(name) => {
            let start = named_in(decls.sections.as_slice(), name.as_slice())?;
            let at = after_path(start, rest_after(path, 1))?;
            Some(component_at(at))
        }
    }
}
