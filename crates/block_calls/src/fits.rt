//! Whether a call from outside fits a program.
ghost use Rattle.std.specs.Prelude.{◌≡◌, ◌≤◌, List, MatchOption, None, Some, get_or, length, map};
ghost use Rattle.memory_areas.specs.Areas.{IsMemoryOf};
ghost use Rattle.memory_areas.specs.Memory.{Decides};
ghost use Rattle.memory_areas.specs.OutsideActuals.{FitWidths};
ghost use Rattle.memory_areas.specs.declared.data_block.DataBlock.{DataBlock};
ghost use Rattle.block_calls.specs.inner.Called.{IsCalled};
ghost use Rattle.stl_tree.specs.StlRun.{Fits, FitsBlock, IsInstance, block_named, is_same_name, widths_of};
ghost use Rattle.stl_tree.specs.declared.program.Block.{Block};
ghost use Rattle.stl_tree.specs.declared.program.Formal.{Formal};

use memory_areas::{Memory, Place, fits_width};
use s7_base::Width;
use stl_tree::{Block, BlockName, Call, Formal, Instance, Program};

fn is_same_name(a: BlockName, b: BlockName) -> bool
    ensures { result ≡ is_same_name a b }
{
    a == b
}

/// The position of the block of a name, the first where there are several.
fn block_named(blocks: &[Block], name: BlockName) -> Option<usize>
    ensures { result ≡ block_named name blocks.now }
{
    blocks
        .iter()
        .position(|block| is_same_name(block.name, name))
}

/// Whether actuals fit formals.
fn fit_formals(memory: &Memory, formals: &[Formal], actuals: &[(Place, Width)]) -> bool
    ensures { (blocks : List DataBlock) → IsMemoryOf blocks memory.now.areas
        → Decides result (FitWidths blocks (map (λ (f : Formal). f.width) formals.now) actuals.now) }
{
    let mut formals_left = formals;
    let mut actuals_left = actuals;
    while let Some((formal, formals_behind)) = formals_left.split_first() {
        let Some((actual, actuals_behind)) = actuals_left.split_first() else {
            return false;
        };
        if !fits_width(memory, formal.width, actual.0, actual.1) {
            return false;
        }
        formals_left = formals_behind;
        actuals_left = actuals_behind;
    }
    actuals_left.is_empty()
}

/// Whether a data block is an instance of the function block of a number.
fn is_instance(instances: &[Instance], db: u16, fb: u16) -> bool
    ensures { Decides result (IsInstance instances.now db fb) }
{
    let mut left = instances;
    while let Some((instance, behind)) = left.split_first() {
        if instance.db == db && instance.fb == fb {
            return true;
        }
        left = behind;
    }
    false
}

/// Whether a call fits the block that it means.
fn fits_block(memory: &Memory, program: &Program, block: &Block, call: &Call) -> bool
    requires { IsMemoryOf program.now.dbs memory.now.areas }
    ensures { Decides result (FitsBlock program.now block.now call.now.block call.now.instance call.now.actuals) }
{
    match call.block {
        BlockName::Ob(_) => true,
        BlockName::Fc(_) => fit_formals(memory, block.formals.as_slice(), call.actuals.as_slice()),
        BlockName::Fb(number) => {
            is_instance(program.instances.as_slice(), call.instance, number)
        }
    }
}

/// The position of the block that a call from outside runs, if the call fits.
pub fn block_called(memory: &Memory, program: &Program, call: &Call) -> Option<usize>
    requires { IsMemoryOf program.now.dbs memory.now.areas }
    ensures { IsCalled program.now call.now result }
{
    let block = block_named(program.blocks.as_slice(), call.block)?;
    if fits_block(memory, program, &program.blocks.as_slice()[block], call) {
        Some(block)
    } else {
        None
    }
}
