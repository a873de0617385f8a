//! The first declaration at which the length passes a limit.
ghost use Rattle.std.specs.Prelude.{◌≡◌, ◌≤◌, ◌^◌, IfSome};
ghost use Rattle.stl_rules.specs.Extents.{extent_of, place_behind};
ghost use Rattle.stl_rules.specs.TooLarge.{first_large, first_large_in, inside, passes};
ghost use Rattle.symbol_layout.specs.Kept.{sections_now};
ghost use Rattle.symbol_layout.specs.inner.Capped.{end_within};

use crate::extent::{end_behind, end_of_all, extent_of, place_behind, section_behind};
use s7_base::Line;
use stl_tree::{DeclType, Declaration};

fn passes(limit: u32, end: u64) -> bool
    requires { end ≤ 2 ^ 60 }
    ensures { result ≡ passes limit end }
{
    u64::from(limit) < end.next_multiple_of(16) / 8
}

/// The place in bits of a declaration after one that ends at `end`.
fn place_of(end: u64, d: &Declaration) -> u64
    requires { end ≤ 2 ^ 60 }
    ensures same { result ≡ place_behind end (extent_of d.now.ty) }
    ensures few { result ≤ 2 ^ 60 }
{
    place_behind(end, extent_of(&d.ty))
}

/// The end in bits of a declaration after one that ends at `end`, if the length does not pass the limit
/// there.
#[tactic(auto, using(crate::proofs::Limits::within))]
fn end_within(limit: u32, end: u64, d: &Declaration) -> Option<u64>
    requires { end ≤ 2 ^ 60 }
    ensures same { result ≡ end_within limit end d.now }
    ensures few { IfSome result (λ next. next ≤ 2 ^ 60) }
{
    let next = end_behind(end, extent_of(&d.ty));
    if passes(limit, next) {
        None
    } else {
        Some(next)
    }
}

/// The line of the first declaration inside a type, at a place in bits, at which the length passes the limit.
#[cycle(large)]
#[tactic(auto, using(stl_rules::proofs::Equations::inside_equations))]
fn first_inside(limit: u32, ty: &DeclType, place: u64) -> Option<Line>
    requires { place ≤ 2 ^ 60 }
    ensures { result ≡ inside limit ty.now place }
{
    match ty {
        DeclType::Elementary(_) => None,
        DeclType::DateAndTime => None,
        DeclType::Array(_, element) => first_inside(limit, element.get(), place),
        DeclType::Struct(parts) => first_large(limit, parts.as_slice(), place),
    }
}

/// The line of the first of some declarations, in the order of their ends, at which the length passes the
/// limit.
#[cycle(large)]
fn first_large(limit: u32, decls: &[Declaration], start: u64) -> Option<Line>
    requires { start ≤ 2 ^ 60 }
    ensures { result ≡ first_large limit start decls.now }
{
    let mut end = start;
    for d in decls {
        if let Some(line) = first_inside(limit, &d.ty, place_of(end, d)) {
            return Some(line);
        }
        match end_within(limit, end, d) {
            Some(next) => end = next,
            None => return Some(d.line),
        }
    }
    None
}

/// The line of the first declaration of sections at which the length passes the limit.
pub fn first_large_in(limit: u32, sections: &[&[Declaration]]) -> Option<Line>
    ensures { result ≡ first_large_in limit 0 (sections_now sections.now) }
{
    let mut end = 0;
    for section in sections {
        let start = section_behind(end);
        if let Some(line) = first_large(limit, section, start) {
            return Some(line);
        }
        end = end_of_all(start, section);
    }
    None
}
