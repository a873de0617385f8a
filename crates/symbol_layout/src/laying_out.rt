//! The length of declarations, and their initial bytes.
ghost use Rattle.std.specs.Prelude.{◌≡◌, IfOk};
ghost use Rattle.s7_base.specs.Answers.{Answers};
ghost use Rattle.s7_base.specs.Broken.{first_of_all};
ghost use Rattle.stl_rules.specs.DeclarationRules.{section_breaks};
ghost use Rattle.stl_rules.specs.Layouts.{breaks_in, layout_of, length_of, too_large};
ghost use Rattle.stl_rules.specs.TooLarge.{first_large_in};
ghost use Rattle.symbol_layout.specs.Kept.{sections_now};

use crate::bits::bytes_of;
use crate::contents::bits_of_sections;
use crate::extent::end_of_sections;
use crate::rules::judge_sections;
use crate::too_large::first_large_in;
use s7_base::{Break, List, NoMemory, Reason, Rejection, first_of_all, note};
use std::alloc::Global;
use stl_rules::Layout;
use stl_tree::{Declaration, Declarations};

/// The first rule that sections break within a limit, in bytes.
pub fn first_break(
    alloc: Global,
    sections: &[&[Declaration]],
    limit: u32,
) -> Result<Option<Break>, NoMemory>
    ensures { IfOk result (λ first. first ≡ first_of_all (breaks_in limit (sections_now sections.now))) }
{
    let mut breaks = List::new(alloc);
    judge_sections(alloc, sections, &mut breaks)?;
    if let Some(line) = first_large_in(limit, sections) {
        note(&mut breaks, line, Reason::TooLarge)?;
    }
    Ok(first_of_all(breaks.as_slice()))
}

/// The first rule that sections break, but for their length.
pub fn first_in_sections(
    alloc: Global,
    sections: &[&[Declaration]],
) -> Result<Option<Break>, NoMemory>
    ensures { IfOk result (λ first. first ≡ first_of_all (section_breaks (sections_now sections.now))) }
{
    let mut breaks = List::new(alloc);
    judge_sections(alloc, sections, &mut breaks)?;
    Ok(first_of_all(breaks.as_slice()))
}

/// The rule that sections break which are longer than a limit, in bytes.
pub fn first_large(sections: &[&[Declaration]], limit: u32) -> Option<Break>
    ensures { result ≡ first_of_all (too_large (first_large_in limit 0 (sections_now sections.now))) }
{
    let line = first_large_in(limit, sections)?;
    Some(Break {
        line,
        rule: Reason::TooLarge,
    })
}

/// The length of sections. One above 4,294,967,295 counts as out of memory.
#[tactic(auto, using(crate::proofs::Limits::capped_length))]
fn length_of(sections: &[&[Declaration]]) -> Result<u32, NoMemory>
    ensures { IfOk result (λ length. length ≡ length_of (sections_now sections.now)) }
{
    let length = end_of_sections(sections).next_multiple_of(16) / 8;
    if length > u64::from(u32::MAX) {
        return Err(NoMemory);
    }
    Ok(length as u32)
}

/// The layout of sections that are borrowed one by one, as `layout` gives it.
pub fn layout_of(
    alloc: Global,
    sections: &[&[Declaration]],
    limit: u32,
) -> Result<Layout, Rejection>
    ensures { Answers result (layout_of limit (sections_now sections.now)) }
{
    if let Some(first) = first_break(alloc, sections, limit)? {
        return Err(Rejection::Refused(first.line, first.rule));
    }
    let length = length_of(sections)?;
    let bits = bits_of_sections(alloc, sections)?;
    let initial = List::from_vec(bytes_of(alloc, bits)?);
    Ok(Layout { length, initial })
}

/// The sections of declarations, borrowed one by one.
fn sections_of(alloc: Global, decls: &Declarations) -> Result<Vec<&[Declaration]>, NoMemory>
    ensures { IfOk result (λ sections. sections_now sections.items ≡ decls.now.sections) }
{
    let mut sections = Vec::with_capacity(alloc, decls.sections.len())?;
    for section in decls.sections.as_slice() {
        sections.push(section.as_slice())?;
    }
    Ok(sections)
}

/// The layout of declarations, or the first rule that they break: `DuplicateName`, `BadType`, `BadOperand` of
/// an initial value, or `TooLarge` at the first declaration, in the order of their ends, at which the length
/// passes the limit, in bytes.
pub fn layout(alloc: Global, decls: &Declarations, limit: u32) -> Result<Layout, Rejection>
    ensures { Answers result (layout_of limit decls.now.sections) }
{
    let sections = sections_of(alloc, decls)?;
    layout_of(alloc, sections.as_slice(), limit)
}
