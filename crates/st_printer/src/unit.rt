//! Units, and the whole text.
ghost use Rattle.std.specs.Prelude.{◌≡◌, ◌++◌, codes, flat_map, IfOk, OnOk};
ghost use Rattle.st_tree.specs.Spelling.{line, local_text, section_text, unit_word, unit_text, spelling};

use crate::global::put_globals;
use crate::statement::{Context, put_body, put_line};
use crate::text::{put_blanks, put_bytes, put_text};
use crate::variable::put_type;
use s7_base::NoMemory;
use st_tree::{Local, Pou, StProgram};
use std::alloc::Global;

/// The bytes of the whole text.
pub fn print(alloc: Global, tree: &StProgram) -> Result<Vec<u8>, NoMemory>
    ensures { IfOk result (λ text. text.items ≡ spelling tree.now) }
{
    let mut out = Vec::new(alloc);
    put_globals(&mut out, tree)?;
    put_units(&mut out, tree, tree.pous.as_slice())?;
    Ok(out)
}

fn put_units(out: &mut Vec<u8>, tree: &StProgram, units: &[Pou]) -> Result<(), NoMemory>
    ensures { OnOk result (out.new.items ≡ out.old.items ++ flat_map (unit_text tree.now) units.now) }
{
    for unit in units {
        put_unit(out, tree, unit)?;
    }
    Ok(())
}

#[tactic(auto, unfolding(st_tree::specs::Spelling::local_text, st_tree::specs::Spelling::line))]
fn put_local(out: &mut Vec<u8>, local: &Local) -> Result<(), NoMemory>
    ensures { OnOk result (out.new.items ≡ out.old.items ++ local_text local.now) }
{
    put_blanks(out, 2)?;
    put_bytes(out, local.name.as_slice())?;
    put_type(out, local.ty)
}

fn put_locals(out: &mut Vec<u8>, locals: &[Local]) -> Result<(), NoMemory>
    ensures { OnOk result (out.new.items ≡ out.old.items ++ flat_map local_text locals.now) }
{
    for local in locals {
        put_local(out, local)?;
    }
    Ok(())
}

/// Appends a section of a unit; an empty one is not written.
fn put_section(out: &mut Vec<u8>, word: &str, locals: &[Local]) -> Result<(), NoMemory>
    ensures { OnOk result (out.new.items ≡ out.old.items ++ section_text word.now locals.now) }
{
    if locals.is_empty() {
        return Ok(());
    }
    put_line(out, 1, word)?;
    put_locals(out, locals)?;
    put_line(out, 1, "END_VAR")
}

fn unit_word(program: bool) -> &'static str
    ensures { result.now ≡ unit_word program }
{
    if program { "PROGRAM" } else { "FUNCTION" }
}

#[tactic(auto, unfolding(st_tree::specs::Spelling::line))]
fn put_heading(out: &mut Vec<u8>, unit: &Pou) -> Result<(), NoMemory>
    ensures { OnOk result (out.new.items ≡ out.old.items
        ++ line 0 (unit_word unit.now.program ++ codes " " ++ unit.now.name)) }
{
    put_text(out, unit_word(unit.program))?;
    put_text(out, " ")?;
    put_bytes(out, unit.name.as_slice())?;
    put_text(out, "\n")
}

#[tactic(auto, unfolding(st_tree::specs::Spelling::line))]
fn put_end(out: &mut Vec<u8>, unit: &Pou) -> Result<(), NoMemory>
    ensures { OnOk result (out.new.items ≡ out.old.items ++ line 0 (codes "END_" ++ unit_word unit.now.program)) }
{
    put_text(out, "END_")?;
    put_text(out, unit_word(unit.program))?;
    put_text(out, "\n")
}

#[tactic(auto, unfolding(st_tree::specs::Spelling::unit_text))]
fn put_unit(out: &mut Vec<u8>, tree: &StProgram, unit: &Pou) -> Result<(), NoMemory>
    ensures { OnOk result (out.new.items ≡ out.old.items ++ unit_text tree.now unit.now) }
{
    put_heading(out, unit)?;
    put_section(out, "VAR_IN_OUT", unit.formals.as_slice())?;
    put_section(out, "VAR_TEMP", unit.locals.as_slice())?;
    let at = Context {
        tree,
        unit,
        level: 1,
    };
    put_body(out, at, unit.body.as_slice())?;
    put_end(out, unit)
}
