//! Where the actuals of a call are.
ghost use Rattle.std.specs.Prelude.{◌≡◌, ◌<◌, ◌≤◌, All, Ok, length};
ghost use Rattle.memory_areas.specs.Memory.{HasBlocks, IsActivation, Writes};
ghost use Rattle.memory_areas.specs.declared.sizes.TheConstants.{ACTIVATIONS};
ghost use Rattle.block_calls.specs.inner.Views.{AreLocated, AreSmall, IsGivable, IsGivableActual, IsSmall, now_of};
ghost use Rattle.stl_registers.specs.Values.{values};
ghost use Rattle.stl_tree.specs.Calls.{actual_place, actual_places, cell_of, given_place, tested_place, with_constant, with_constants};
ghost use Rattle.stl_tree.specs.StlRun.{formals_at};

use crate::places::Places;
use crate::stack::Stack;
use memory_areas::{Area, Memory, Place};
use s7_base::{Fault, Width};
use stl_registers::{Registers, write_number};
use stl_tree::{Actual, Formal, Operand, Program};

/// The formals of the block at a position; none where there is no such block.
pub fn formals_at(program: &Program, block: u32) -> &[Formal]
    ensures { result.now ≡ formals_at program.now block }
{
    match program.blocks.as_slice().get(block as usize) {
        Some(block) => block.formals.as_slice(),
        None => &[],
    }
}

/// Where a constant stands that a call gives to a formal: each formal of an activation has four bytes.
fn cell_of(depth: u8, k: u32) -> Place
    requires { k < 64 }
    ensures { result ≡ cell_of depth k }
{
    Place {
        area: Area::Cell(depth),
        byte: 4 * k,
        bit: 0,
    }
}

/// A place, if an access of a width to it has no fault.
fn tested_place(memory: &Memory, place: Place, width: Width) -> Result<Option<Place>, Fault>
    requires { IsActivation place.area }
    ensures { result ≡ tested_place width place memory.now }
{
    memory.find(place, width)?;
    Ok(Some(place))
}

/// The place of an operand that is given to a call. A number of a data block that is written in it opens
/// nothing.
fn given_place(
    stack: &Stack,
    memory: &Memory,
    registers: Registers,
    width: Width,
    operand: &Operand,
) -> Result<Option<Place>, Fault>
    requires { IsGivable operand.now stack.now }
    ensures { result ≡ given_place width operand.now (now_of (values registers) memory.now stack.now) }
{
    match *operand {
        Operand::Direct(name, byte, bit) => {
            let area = name.area(registers.db, registers.di, stack.number());
            tested_place(memory, Place { area, byte, bit }, width)
        }
        Operand::Opened(number, byte, bit) => {
            let area = Area::Db(number);
            tested_place(memory, Place { area, byte, bit }, width)
        }
        Operand::Formal(k) => Ok(Some(stack.formal(k))),
        _ => unreachable!(),
    }
}

/// The place of the actual of the formal at a position.
fn actual_place(
    stack: &Stack,
    memory: &Memory,
    registers: Registers,
    k: u32,
    width: Width,
    actual: &Actual,
) -> Result<Option<Place>, Fault>
    requires few { k < 64 }
    requires givable { IsGivableActual actual.now stack.now }
    ensures { result ≡ actual_place (length stack.now) k width actual.now (now_of (values registers) memory.now stack.now) }
{
    match actual {
        Actual::Missing => Ok(None),
        Actual::Constant(_) => Ok(Some(cell_of(stack.depth(), k))),
        Actual::At(operand) => given_place(stack, memory, registers, width, operand),
    }
}

/// Finds the actuals in the order of the formals. The first fault is that of the call.
pub fn locate(
    stack: &Stack,
    memory: &Memory,
    registers: Registers,
    formals: &[Formal],
    actuals: &[Actual],
    places: &mut Places,
) -> Result<(), Fault>
    requires few { length formals.now ≤ 64 }
    requires givable { All (λ a. IsGivableActual a stack.now) actuals.now }
    ensures { AreLocated (actual_places (length stack.now) 0 formals.now actuals.now (now_of (values registers) memory.now stack.now))
        result places.new }
{
    places.clear();
    let mut k = 0;
    let mut formals_left = formals;
    let mut actuals_left = actuals;
    while let Some((formal, formals_behind)) = formals_left.split_first() {
        let Some((actual, actuals_behind)) = actuals_left.split_first() else {
            return Ok(());
        };
        let place = actual_place(stack, memory, registers, k, formal.width, actual)?;
        places.push(place);
        k += 1;
        formals_left = formals_behind;
        actuals_left = actuals_behind;
    }
    Ok(())
}

/// Writes an actual that is a constant into its cell.
fn write_constant(
    memory: &mut Memory,
    depth: u8,
    k: u32,
    width: Width,
    actual: &Actual,
) -> Result<(), Fault>
    requires depth { depth < ACTIVATIONS }
    requires few { k < 64 }
    requires small { IsSmall width actual.now }
    ensures { Writes (with_constant depth k width actual.now memory.old) result memory.old memory.new }
{
    match actual {
        Actual::Constant(value) => write_number(memory, cell_of(depth, k), width, *value),
        _ => Ok(()),
    }
}

/// Writes the constants among the actuals of a call of a block into their cells.
pub fn write_constants(
    memory: &mut Memory,
    program: &Program,
    block: u32,
    depth: u8,
    actuals: &[Actual],
)
    requires depth { depth < ACTIVATIONS }
    requires few { length (formals_at program.now block) ≤ 64 }
    requires small { AreSmall (formals_at program.now block) actuals.now }
    requires memory { HasBlocks program.now.dbs memory.old }
    ensures constants { with_constants depth 0 (formals_at program.now block) actuals.now memory.old ≡ Ok memory.new }
    ensures memory { HasBlocks program.now.dbs memory.new }
{
    let mut k = 0;
    let mut formals_left = formals_at(program, block);
    let mut actuals_left = actuals;
    while let Some((formal, formals_behind)) = formals_left.split_first() {
        let Some((actual, actuals_behind)) = actuals_left.split_first() else {
            return;
        };
        match write_constant(memory, depth, k, formal.width, actual) {
            Ok(()) | Err(_) => {}
        }
        k += 1;
        formals_left = formals_behind;
        actuals_left = actuals_behind;
    }
}
