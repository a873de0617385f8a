//! The rules of bodies.
ghost use Rattle.std.specs.Prelude.{◌≡◌, ◌++◌, IfOk, OnOk, slice_get};
ghost use Rattle.std.specs.List.{flat_map};
ghost use Rattle.s7_base.specs.Broken.{first_of_all};
ghost use Rattle.stl_rules.specs.BodyRules.{body_breaks, formal_too_many, instruction_too_many, most_formals, most_instructions};
ghost use Rattle.stl_rules.specs.Interfaces.{formals_declared, result_declared};
ghost use Rattle.stl_checks.specs.inner.Formals.{formal_lines, lines_made, lines_of};
ghost use Rattle.stl_rules.specs.Stages.{bodies};

use crate::brackets::note_brackets;
use crate::labels::note_labels;
use body_labels::Labels;
use s7_base::{Break, Line, List, NoMemory, Reason, first_of_all, note};
use std::alloc::Global;
use stl_tree::{BlockKind, Declaration, RawBlock, RawInstr, RawProgram};

/// The most instructions of a body before its end word.
const MOST_INSTRUCTIONS: usize = 32_768;

/// The most formals of a block.
const MOST_FORMALS: usize = 64;

/// Notes the rule that is broken where a body has an instruction too many.
fn note_too_many(breaks: &mut List<Break>, body: &[RawInstr]) -> Result<(), NoMemory>
    ensures { OnOk result (breaks.new ≡ breaks.old ++ instruction_too_many (slice_get body.now most_instructions)) }
{
    match body.get(MOST_INSTRUCTIONS) {
        Some(raw) => note(breaks, raw.line, Reason::TooManyInstructions),
        None => Ok(()),
    }
}

/// Adds the lines of declarations.
fn put_lines(lines: &mut List<Line>, decls: &[Declaration]) -> Result<(), NoMemory>
    ensures { OnOk result (lines.new ≡ lines.old ++ lines_of decls.now) }
{
    for d in decls {
        lines.push(d.line)?;
    }
    Ok(())
}

/// Adds the line of the result of a function, that of its heading; no other block has one.
fn put_result_line(lines: &mut List<Line>, block: &RawBlock) -> Result<(), NoMemory>
    ensures { OnOk result (lines.new ≡ lines.old ++ lines_of (result_declared block.now.kind block.now.line block.now.result)) }
{
    match (block.kind, block.result) {
        (BlockKind::Fc, Some(_)) => lines.push(block.line),
        _ => Ok(()),
    }
}

/// The lines of the formals of a function or a function block.
fn lines_by(alloc: Global, block: &RawBlock) -> Result<List<Line>, NoMemory>
    ensures { IfOk result (λ lines. lines ≡ lines_made block.now) }
{
    let mut lines = List::new(alloc);
    put_lines(&mut lines, block.inputs.as_slice())?;
    put_lines(&mut lines, block.outputs.as_slice())?;
    put_result_line(&mut lines, block)?;
    put_lines(&mut lines, block.in_outs.as_slice())?;
    Ok(lines)
}

/// The lines of the formals of a block.
#[tactic(auto, using(crate::proofs::Formals::of_kind))]
fn lines_of_formals(alloc: Global, block: &RawBlock) -> Result<List<Line>, NoMemory>
    ensures { IfOk result (λ lines. lines ≡ formal_lines block.now) }
{
    match block.kind {
        BlockKind::Fc | BlockKind::Fb => lines_by(alloc, block),
        BlockKind::Ob | BlockKind::Db => Ok(List::new(alloc)),
    }
}

/// Notes the rule that is broken where a block has a formal too many.
#[tactic(auto, using(crate::proofs::Formals::too_many))]
fn note_formal(alloc: Global, breaks: &mut List<Break>, block: &RawBlock) -> Result<(), NoMemory>
    ensures { OnOk result (breaks.new ≡ breaks.old ++ formal_too_many (slice_get (formals_declared block.now) most_formals)) }
{
    let lines = lines_of_formals(alloc, block)?;
    match lines.as_slice().get(MOST_FORMALS) {
        Some(line) => note(breaks, *line, Reason::TooManyParameters),
        None => Ok(()),
    }
}

/// Notes the rules that the body of a block breaks.
fn note_body(alloc: Global, breaks: &mut List<Break>, block: &RawBlock) -> Result<(), NoMemory>
    ensures { OnOk result (breaks.new ≡ breaks.old ++ body_breaks block.now) }
{
    let body = block.body.as_slice();
    note_brackets(breaks, block.end_line, body)?;
    let labels = Labels::new(alloc, body)?;
    note_labels(breaks, &labels, body)?;
    note_too_many(breaks, body)?;
    note_formal(alloc, breaks, block)
}

/// Notes the rules that the bodies of blocks break.
fn note_bodies(alloc: Global, breaks: &mut List<Break>, blocks: &[RawBlock]) -> Result<(), NoMemory>
    ensures { OnOk result (breaks.new ≡ breaks.old ++ flat_map body_breaks blocks.now) }
{
    for block in blocks {
        note_body(alloc, breaks, block)?;
    }
    Ok(())
}

/// The first rule that the bodies of a text break.
pub fn first_in_bodies(alloc: Global, raw: &RawProgram) -> Result<Option<Break>, NoMemory>
    ensures { IfOk result (λ first. first ≡ first_of_all (bodies raw.now)) }
{
    let mut breaks = List::new(alloc);
    note_bodies(alloc, &mut breaks, raw.blocks.as_slice())?;
    Ok(first_of_all(breaks.as_slice()))
}
