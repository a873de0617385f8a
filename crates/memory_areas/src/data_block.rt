//! Data blocks.
ghost use Rattle.std.specs.Prelude.{◌≡◌, ◌<◌, All, IfOk, OnOk, true};
ghost use Rattle.memory_areas.specs.Areas.{AreBlocks, IsSized};
ghost use Rattle.memory_areas.specs.Memory.{HasBytes};

use crate::sizes::{LEAST_BLOCK_BYTES, MOST_BLOCK_BYTES, MOST_BLOCKS};
use s7_base::{List, NoMemory};
use std::alloc::Global;

/// A data block: its number, from 1, and its bytes.
#[derive(Debug, Drop, PartialEq)]
pub struct DataBlock {
    pub number: u16,
    pub bytes: List<u8>,
}

/// A copy of some bytes. That they are bytes is what their type says, which a clause on a block does not
/// know.
pub fn copy_of_bytes(alloc: Global, bytes: &[u8]) -> Result<Vec<u8>, NoMemory>
    ensures same { IfOk result (λ copy. copy.items ≡ bytes.now) }
    ensures small { OnOk result (All (λ b. b < 256) bytes.now) }
{
    Ok(Vec::from_slice(alloc, bytes)?)
}

impl DataBlock {
    /// A block of the same number and bytes.
    pub fn copy(&self, alloc: Global) -> Result<DataBlock, NoMemory>
        ensures same { IfOk result (λ block. block ≡ self.now) }
        ensures bytes { OnOk result (HasBytes self.now) }
    {
        let bytes = copy_of_bytes(alloc, self.bytes.as_slice())?;
        Ok(DataBlock {
            number: self.number,
            bytes: List::from_vec(bytes),
        })
    }
}

fn is_sized(block: &DataBlock) -> bool
    ensures yes { result ≡ true → IsSized block.now }
    ensures no { IsSized block.now → result ≡ true }
{
    let count = block.bytes.len();
    LEAST_BLOCK_BYTES <= count && count <= MOST_BLOCK_BYTES
}

/// Whether a memory may have these data blocks.
pub fn are_blocks(blocks: &[DataBlock]) -> bool
    ensures yes { result ≡ true → AreBlocks blocks.now }
    ensures no { AreBlocks blocks.now → result ≡ true }
{
    let mut least = 1;
    for block in blocks {
        let number = u32::from(block.number);
        if number < least || !is_sized(block) {
            return false;
        }
        least = number + 1;
    }
    blocks.len() <= MOST_BLOCKS
}
