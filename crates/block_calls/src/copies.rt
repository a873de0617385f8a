//! What an instance takes when its block begins, and gives back when it ends.
ghost use Rattle.std.specs.Prelude.{◌≡◌, All, Ok};
ghost use Rattle.memory_areas.specs.Memory.{HasBlocks, IsActivation, Writes};
ghost use Rattle.block_calls.specs.Fitting.{AreReached};
ghost use Rattle.block_calls.specs.inner.Copies.{copied_by};
ghost use Rattle.block_calls.specs.inner.Views.{IsActivationIfGiven};
ghost use Rattle.stl_tree.specs.Accepted.{LiesInInstance};
ghost use Rattle.stl_tree.specs.Calls.{all_copied, is_given_back, is_taken, place_in_instance, with_copy};
ghost use Rattle.stl_tree.specs.StlRun.{formals_at};

use crate::actuals::formals_at;
use memory_areas::{Area, Memory, Place};
use s7_base::{Fault, Width};
use stl_registers::{read_number, write_number};
use stl_tree::{Formal, Mode, Program};

/// Which way values are copied between an instance and the actuals of its formals.
#[derive(Clone, Copy, Debug)]
pub enum Way {
    /// From the actuals, when the block begins.
    In,

    /// To the actuals, when it has ended.
    Back,
}

/// Whether a formal takes its value from the actual when its block begins.
fn is_taken(mode: Mode) -> bool
    ensures { result ≡ is_taken mode }
{
    match mode {
        Mode::Input | Mode::InOut => true,
        Mode::Output => false,
    }
}

/// Whether a formal gives its value to the actual when its block has ended.
fn is_given_back(mode: Mode) -> bool
    ensures { result ≡ is_given_back mode }
{
    match mode {
        Mode::Input => false,
        Mode::Output | Mode::InOut => true,
    }
}

/// The place of a formal in an instance.
fn place_in_instance(instance: u16, formal: &Formal) -> Place
    ensures place { result ≡ place_in_instance instance formal.now }
    ensures activation { IsActivation result.area }
{
    Place {
        area: Area::Db(instance),
        byte: formal.byte,
        bit: formal.bit,
    }
}

/// Copies the number of a width from one place to another.
#[tactic(auto, using(crate::proofs::Copying::part_of_small))]
fn copy(memory: &mut Memory, width: Width, from: Place, to: Place) -> Result<(), Fault>
    requires from { IsActivation from.area }
    requires to { IsActivation to.area }
    ensures { Writes (with_copy width from to memory.old) result memory.old memory.new }
{
    let number = read_number(memory, from, width)?;
    write_number(memory, to, width, number)
}

/// Copies between a formal in an instance and its actual, where it is there and the formal is copied this way.
fn copy_one(
    memory: &mut Memory,
    way: Way,
    instance: u16,
    formal: &Formal,
    actual: Option<Place>,
) -> Result<(), Fault>
    requires { IsActivationIfGiven actual }
    ensures { Writes (copied_by way instance formal.now actual memory.old) result memory.old memory.new }
{
    let Some(actual) = actual else {
        return Ok(());
    };
    let own = place_in_instance(instance, formal);
    match way {
        Way::In if is_taken(formal.mode) => copy(memory, formal.width, actual, own),
        Way::Back if is_given_back(formal.mode) => copy(memory, formal.width, own, actual),
        _ => Ok(()),
    }
}

/// Copies between an instance and the actuals of the formals of its block, in their order.
pub fn copy_all(
    memory: &mut Memory,
    way: Way,
    program: &Program,
    block: u32,
    instance: u16,
    places: &[Option<Place>],
)
    requires memory { HasBlocks program.now.dbs memory.old }
    requires lie { All (LiesInInstance program.now.dbs instance) (formals_at program.now block) }
    requires reached { AreReached program.now.dbs (formals_at program.now block) places.now }
    ensures copied { all_copied (copied_by way instance) (formals_at program.now block) places.now memory.old ≡ Ok memory.new }
    ensures memory { HasBlocks program.now.dbs memory.new }
{
    let formals = formals_at(program, block);
    let count = formals.len().min(places.len());
    for k in 0..count {
        match copy_one(memory, way, instance, &formals[k], places[k]) {
            Ok(()) | Err(_) => {}
        }
    }
}
