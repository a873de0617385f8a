//! The data blocks of a program, for its graph.
ghost use Rattle.std.specs.Prelude.{◌≡◌, All, IfOk, OnOk};
ghost use Rattle.st_tree.specs.Proper.{IsDataBlock};

use memory_areas::DataBlock;
use s7_base::{List, NoMemory};
use std::alloc::Global;

/// A copy of data blocks: the same numbers and bytes, which a graph may have.
#[tactic(auto, using(crate::proofs::BlockBytes::one_more))]
pub fn copy_blocks(alloc: Global, blocks: &[DataBlock]) -> Result<List<DataBlock>, NoMemory>
    ensures copies { IfOk result (λ copies. copies ≡ blocks.now) }
    ensures bytes { OnOk result (All IsDataBlock blocks.now) }
{
    let mut copies = List::new(alloc);
    for block in blocks {
        let copy = copied_block(alloc, block)?;
        copies.push(copy)?;
    }
    Ok(copies)
}

fn copied_block(alloc: Global, block: &DataBlock) -> Result<DataBlock, NoMemory>
    ensures copy { IfOk result (λ copy. copy ≡ block.now) }
    ensures bytes { OnOk result (IsDataBlock block.now) }
{
    let _number = block.number;
    let copy = block.copy(alloc)?;
    Ok(copy)
}
