//! Calls from outside: the unit that one means, whether it fits, and what it gives the unit.
ghost use Rattle.std.specs.Prelude.{◌≡◌, ◌++◌, [], codes, decimal, length, vec_capacity, ◌≤◌, ◌<◌, IfOk, MatchOption, None, OnOk, List, slice_get, ℕ};
ghost use Rattle.std.specs.Str.{str_eq_ignore_ascii_case};
ghost use Rattle.memory_areas.specs.Areas.{IsMemoryOf};
ghost use Rattle.memory_areas.specs.declared.data_block.DataBlock.{DataBlock};
ghost use Rattle.memory_areas.specs.Memory.{Decides};
ghost use Rattle.st_runner.specs.inner.View.{AreReachable};
ghost use Rattle.st_tree.specs.StRun.{FitFormals, FitsUnit, called_name, formals_given, is_meant, references, unit_called};

use memory_areas::{BlockName, Call, Memory, Place, fits_width};
use s7_base::{NoMemory, Width};
use st_tree::{Local, Pou, width_at};
use std::alloc::Global;

fn put_text(out: &mut Vec<u8>, text: &str) -> Result<(), NoMemory>
    ensures { OnOk result (out.new.items ≡ out.old.items ++ text.now) }
{
    out.extend_from_slice(text.as_bytes())?;
    Ok(())
}

fn word_with_number(alloc: Global, kind: &str, number: u16) -> Result<Vec<u8>, NoMemory>
    ensures { IfOk result (λ name. name.items ≡ kind.now ++ decimal number) }
{
    let mut name = Vec::new(alloc);
    put_text(&mut name, kind)?;
    let digits = number.to_string(alloc)?;
    put_text(&mut name, digits.as_str())?;
    Ok(name)
}

/// The name of the unit that a call means.
pub fn called_name(alloc: Global, block: BlockName) -> Result<Vec<u8>, NoMemory>
    ensures { IfOk result (λ name. name.items ≡ called_name block) }
{
    match block {
        BlockName::Ob(number) => word_with_number(alloc, "OB", number),
        BlockName::Fc(number) => word_with_number(alloc, "FC", number),
        BlockName::Fb(number) => word_with_number(alloc, "FB", number),
    }
}

/// Whether a unit is the one that a call means.
fn is_meant(block: BlockName, name: &[u8], unit: &Pou) -> bool
    requires { name.now ≡ called_name block }
    ensures { result ≡ is_meant block unit.now }
{
    unit.name.as_slice().eq_ignore_ascii_case(name)
        && matches!(block, BlockName::Ob(_)) == unit.program
}

/// The position of the unit that a call means.
pub fn unit_called(block: BlockName, name: &[u8], units: &[Pou]) -> Option<usize>
    requires { name.now ≡ called_name block }
    ensures { MatchOption result (unit_called block units.now ≡ None)
        (λ n. (n < length units.now) × (unit_called block units.now ≡ slice_get units.now n)) }
{
    let mut rest = units;
    let mut at = 0;
    while let Some((unit, behind)) = rest.split_first() {
        if is_meant(block, name, unit) {
            return Some(at);
        }
        rest = behind;
        at += 1;
    }
    None
}

/// Whether the actuals fit the formals.
fn fit_formals(memory: &Memory, formals: &[Local], actuals: &[(Place, Width)]) -> bool
    ensures { (blocks : List DataBlock) → IsMemoryOf blocks memory.now.areas
        → Decides result (FitFormals blocks formals.now actuals.now) }
{
    let mut formals_left = formals;
    let mut actuals_left = actuals;
    while let Some((formal, formals_behind)) = formals_left.split_first() {
        let Some((actual, actuals_behind)) = actuals_left.split_first() else {
            return false;
        };
        if !fits_width(memory, width_at(formal.ty), actual.0, actual.1) {
            return false;
        }
        formals_left = formals_behind;
        actuals_left = actuals_behind;
    }
    actuals_left.is_empty()
}

/// Whether a call fits the unit that it means.
pub fn fits_unit(memory: &Memory, unit: &Pou, call: &Call) -> bool
    ensures { (blocks : List DataBlock) → IsMemoryOf blocks memory.now.areas
        → Decides result (FitsUnit blocks unit.now call.now.block call.now.instance call.now.actuals) }
{
    match call.block {
        BlockName::Ob(_) => true,
        BlockName::Fc(_) => fit_formals(memory, unit.formals.as_slice(), call.actuals.as_slice()),
        BlockName::Fb(_) => unit.formals.len() == 0 && memory.has_block(call.instance),
    }
}
