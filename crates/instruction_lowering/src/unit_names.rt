//! What the formals of units are called.
ghost use Rattle.std.specs.Prelude.{◌≡◌, ◌++◌, [], not, codes, decimal, length, IfOk};
ghost use Rattle.st_tree.specs.Naming.{is_new, key_of};
ghost use Rattle.st_tree.specs.WellTyped.{keys_of};
ghost use Rattle.st_tree.specs.StRun.{called_name};
ghost use Rattle.instruction_lowering.specs.UnitNames.{formals_from, may_keep, name_of_formal, unit_formals, until_new};

use itoa::Buffer;
use s7_base::{List, NoMemory};
use st_tree::{Local, is_free, is_name, key_of, type_of_width};
use std::alloc::Global;
use stl_tree::{Block, BlockName, Formal};

/// The name of the unit of a block.
pub fn unit_name(alloc: Global, name: BlockName) -> Result<List<u8>, NoMemory>
    ensures { IfOk result (λ text. text ≡ called_name name) }
{
    match name {
        BlockName::Ob(number) => word_with_number(alloc, "OB", u32::from(number)),
        BlockName::Fc(number) => word_with_number(alloc, "FC", u32::from(number)),
        BlockName::Fb(number) => word_with_number(alloc, "FB", u32::from(number)),
    }
}

fn word_with_number(alloc: Global, word: &str, number: u32) -> Result<List<u8>, NoMemory>
    ensures { IfOk result (λ text. text ≡ word.now ++ decimal number) }
{
    let mut text = Vec::from_slice(alloc, word.as_bytes())?;
    text.extend_from_slice(Buffer::new().format(number).as_bytes())?;
    Ok(List::from_vec(text))
}

/// The formals of the unit of a block: only a function has any.
pub fn unit_formals(alloc: Global, block: &Block) -> Result<List<Local>, NoMemory>
    ensures { IfOk result (λ formals. formals ≡ unit_formals block.now.name block.now.formals) }
{
    match block.name {
        BlockName::Fc(_) => named_formals(alloc, block.formals.as_slice()),
        BlockName::Ob(_) | BlockName::Fb(_) => Ok(List::new(alloc)),
    }
}

#[tactic(auto, using(crate::proofs::FormalNames::one_more_formal))]
fn named_formals(alloc: Global, formals: &[Formal]) -> Result<List<Local>, NoMemory>
    ensures { IfOk result (λ named. named ≡ formals_from [] 0 formals.now) }
{
    let mut named = List::new(alloc);
    let mut rest = formals;
    while let Some((formal, behind)) = rest.split_first() {
        let name = name_of_formal(alloc, named.as_slice(), formal.name.as_slice())?;
        let ty = type_of_width(formal.width);
        named.push(Local { name, ty })?;
        rest = behind;
    }
    Ok(named)
}

/// The name of the next formal: its own where it may keep that, else `P` and its position from 1.
fn name_of_formal(alloc: Global, earlier: &[Local], name: &[u8]) -> Result<List<u8>, NoMemory>
    ensures { IfOk result (λ text. text ≡ name_of_formal (keys_of earlier.now) (length earlier.now) name.now) }
{
    if is_name(name) && is_free(name) && !has_name(alloc, earlier, name)? {
        return Ok(List::from_vec(Vec::from_slice(alloc, name)?));
    }
    let position = u32::try_from(earlier.len()).map_err(|_| NoMemory)?;
    let position = position.checked_add(1).ok_or(NoMemory)?;
    let own = word_with_number(alloc, "P", position)?;
    until_new(alloc, earlier, own)
}

/// A name with `_` added at its end until no earlier formal has it.
fn until_new(alloc: Global, earlier: &[Local], name: List<u8>) -> Result<List<u8>, NoMemory>
    ensures { IfOk result (λ text. text ≡ until_new (length earlier.now) (keys_of earlier.now) name) }
{
    let mut name = name;
    let mut rest = earlier;
    while let Some((_, behind)) = rest.split_first() {
        if !has_name(alloc, earlier, name.as_slice())? {
            return Ok(name);
        }
        name.push(b'_')?;
        rest = behind;
    }
    Ok(name)
}

/// Whether one of some formals has a name, in any case.
pub fn has_name(alloc: Global, formals: &[Local], name: &[u8]) -> Result<bool, NoMemory>
    ensures { IfOk result (λ found. found ≡ not (is_new (key_of name.now) (keys_of formals.now))) }
{
    let key = key_of(alloc, name)?;
    let mut rest = formals;
    while let Some((formal, behind)) = rest.split_first() {
        let other = key_of(alloc, formal.name.as_slice())?;
        if key.as_slice() == other.as_slice() {
            return Ok(true);
        }
        rest = behind;
    }
    Ok(false)
}
