//! Data blocks in their order.
ghost use Rattle.std.specs.Prelude.{◌≡◌, IfOk};
ghost use Rattle.stl_rules.specs.DataBlocks.{in_order};
ghost use Rattle.data_contents.specs.Order.{AreInOrder};

use memory_areas::DataBlock;
use s7_base::{List, NoMemory};

/// Data blocks in the order of their numbers; those of one number stay in the order of the text.
pub fn in_order(blocks: List<DataBlock>) -> Result<List<DataBlock>, NoMemory>
    ensures value { IfOk result (λ sorted. sorted ≡ in_order blocks) }
    ensures order { IfOk result (λ sorted. AreInOrder blocks sorted) }
{
    let mut items = blocks.into_vec();
    items.sort_by_key(|block| block.number)?;
    Ok(List::from_vec(items))
}
