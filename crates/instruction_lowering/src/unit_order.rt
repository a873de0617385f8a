//! In which order the units of a graph program stand: functions, then function blocks, then organization blocks, each by
//! number.
ghost use Rattle.std.specs.Prelude.{◌≡◌, All, IfOk, map};
ghost use Rattle.stl_tree.specs.Accepted.{AreDistinct, IsAcceptedBlock};
ghost use Rattle.instruction_lowering.specs.UnitNames.{in_order, order_of};
ghost use Rattle.instruction_lowering.specs.inner.UnitOrder.{AreBlocksAt, Pair, unit_positions};

use s7_base::NoMemory;
use std::alloc::Global;
use stl_tree::{Block, BlockName};

/// The place of a name in the order of units.
fn order_of(name: BlockName) -> u32
    ensures { result ≡ order_of name }
{
    match name {
        BlockName::Fc(number) => u32::from(number),
        BlockName::Fb(number) => 0x10000 + u32::from(number),
        BlockName::Ob(number) => 0x20000 + u32::from(number),
    }
}

/// The positions of blocks, in the order of their units.
pub fn in_order(alloc: Global, blocks: &[Block]) -> Result<Vec<u32>, NoMemory>
    ensures { IfOk result (λ order. AreBlocksAt blocks.now order.items (in_order blocks.now)) }
{
    let mut places = Vec::new(alloc);
    let mut position: u32 = 0;
    let mut rest = blocks;
    while let Some((block, behind)) = rest.split_first() {
        places.push((order_of(block.name), position))?;
        position = position.checked_add(1).ok_or(NoMemory)?;
        rest = behind;
    }
    places.sort()?;
    positions_of(alloc, places.as_slice())
}

/// The positions of some places.
fn positions_of(alloc: Global, places: &[(u32, u32)]) -> Result<Vec<u32>, NoMemory>
    ensures { IfOk result (λ positions. positions.items ≡ map (λ (place : Pair). place.1) places.now) }
{
    let mut positions = Vec::new(alloc);
    let mut rest = places;
    while let Some((place, behind)) = rest.split_first() {
        positions.push(place.1)?;
        rest = behind;
    }
    Ok(positions)
}

/// The position of the unit of each block, of which no two have one name, by the positions of the blocks in the order
/// of their units.
pub fn unit_positions(alloc: Global, blocks: &[Block], order: &[u32]) -> Result<Vec<u32>, NoMemory>
    requires accepted { All IsAcceptedBlock blocks.now }
    requires distinct { AreDistinct blocks.now }
    requires order { AreBlocksAt blocks.now order.now (in_order blocks.now) }
    ensures { IfOk result (λ positions. positions.items ≡ unit_positions blocks.now) }
{
    let mut positions = Vec::new(alloc);
    positions.resize(blocks.len(), 0)?;
    let mut unit: u32 = 0;
    let mut rest = order;
    while let Some((block, behind)) = rest.split_first() {
        if let Some(position) = positions.get_mut(*block as usize) {
            *position = unit;
        }
        unit = unit.checked_add(1).ok_or(NoMemory)?;
        rest = behind;
    }
    Ok(positions)
}
