//! What a runner reserves, and where its first unit begins.
ghost use Rattle.std.specs.Prelude.{◌≡◌, ◌*◌, ◌≤◌, ◌∷◌, [], length, vec_capacity, IfOk, ℕ};
ghost use Rattle.memory_areas.specs.declared.sizes.TheConstants.{ACTIVATIONS};
ghost use Rattle.st_runner.specs.declared.frame.Frame.TheVariants.{Rest};
ghost use Rattle.st_runner.specs.declared.steps.TheConstants.{UNIT_FRAMES};
ghost use Rattle.st_runner.specs.inner.Ready.{most_formals, most_locals};
ghost use Rattle.st_runner.specs.inner.View.{AreFrames, AreReachable, IsFrame, IsSound, numbers_of, activation_view, state_of};
ghost use Rattle.st_tree.specs.Calls.{activation_of};
ghost use Rattle.st_tree.specs.StRun.{formals_given, references, registers_at_start, state_at_start};

use crate::call::zero_locals;
use crate::frame::Frame;
use crate::registers::Registers;
use crate::state::{Activation, State};
use crate::steps::UNIT_FRAMES;
use memory_areas::{ACTIVATIONS, BlockName, Call, Memory, Place};
use s7_base::{NoMemory, Reg, Width};
use st_tree::{Local, Pou, Reference, Stmt};
use std::alloc::Global;

/// The most locals of a unit.
pub fn most_locals(units: &[Pou]) -> usize
    ensures { result ≡ most_locals units.now }
{
    let mut most = 0;
    let mut rest = units;
    while let Some((unit, behind)) = rest.split_first() {
        most = most.max(unit.locals.len());
        rest = behind;
    }
    most
}

/// The most formals of a unit.
pub fn most_formals(units: &[Pou]) -> usize
    ensures { result ≡ most_formals units.now }
{
    let mut most = 0;
    let mut rest = units;
    while let Some((unit, behind)) = rest.split_first() {
        most = most.max(unit.formals.len());
        rest = behind;
    }
    most
}

/// An activation with room for this many locals and formals.
pub fn activation(alloc: Global, locals: usize, formals: usize) -> Result<Activation, NoMemory>
    ensures frame { IfOk result (λ a. IsFrame locals formals a) }
{
    Ok(Activation {
        locals: Vec::with_capacity(alloc, locals)?,
        formals: Vec::with_capacity(alloc, formals)?,
    })
}

/// The activations for calls: all but the first.
pub fn spare(alloc: Global, locals: usize, formals: usize) -> Result<Vec<Activation>, NoMemory>
    ensures frames { IfOk result (λ spare. AreFrames locals formals spare.items) }
    ensures count { IfOk result (λ spare. length spare.items ≡ 7) }
    ensures room { IfOk result (λ spare. ACTIVATIONS ≤ vec_capacity spare) }
{
    let mut spare = Vec::with_capacity(alloc, ACTIVATIONS)?;
    for _ in 0..ACTIVATIONS - 1 {
        spare.push_reserved(activation(alloc, locals, formals)?);
    }
    Ok(spare)
}

/// The registers at the start of a call.
pub fn registers_at_start(block: BlockName, instance: u16) -> Registers
    ensures { numbers_of result ≡ registers_at_start block instance }
{
    let mut registers = Registers::zero();
    if let BlockName::Fb(_) = block {
        registers.give_number(Reg::DiNo, i64::from(instance));
    }
    registers
}

/// Gives formals the places of actuals from outside.
fn give_formals(given: &mut Vec<Reference>, formals: &[Local], actuals: &[(Place, Width)])
    requires { length formals.now ≤ vec_capacity given.old }
    ensures formals { given.new.items ≡ references formals.now actuals.now }
    ensures capacity { vec_capacity given.new ≡ vec_capacity given.old }
{
    given.clear();
    let mut formals_left = formals;
    let mut actuals_left = actuals;
    while let Some((formal, formals_behind)) = formals_left.split_first() {
        let Some((actual, actuals_behind)) = actuals_left.split_first() else {
            return;
        };
        given.push_reserved(Reference::Place(actual.0, formal.ty));
        formals_left = formals_behind;
        actuals_left = actuals_behind;
    }
}

/// Makes an activation that of a unit that is called from outside.
fn begin(first: &mut Activation, unit: &Pou, call: &Call)
    requires locals { length unit.now.locals ≤ vec_capacity first.old.locals }
    requires formals { length unit.now.formals ≤ vec_capacity first.old.formals }
    ensures activation_view { activation_view first.new
        ≡ activation_of unit.now (formals_given call.now.block unit.now.formals call.now.actuals) }
    ensures locals_room { vec_capacity first.new.locals ≡ vec_capacity first.old.locals }
    ensures formals_room { vec_capacity first.new.formals ≡ vec_capacity first.old.formals }
{
    zero_locals(&mut first.locals, unit.locals.as_slice());
    match call.block {
        BlockName::Fc(_) => give_formals(
            &mut first.formals,
            unit.formals.as_slice(),
            call.actuals.as_slice(),
        ),
        BlockName::Ob(_) => first.formals.clear(),
        BlockName::Fb(_) => first.formals.clear(),
    }
}

/// The state in which a unit begins that is called from outside.
pub fn start(
    alloc: Global,
    units: &[Pou],
    unit: &Pou,
    mut memory: Memory,
    call: &Call,
) -> Result<State, NoMemory>
    requires locals { length unit.now.locals ≤ most_locals units.now }
    requires formals { length unit.now.formals ≤ most_formals units.now }
    requires reachable { AreReachable (formals_given call.now.block unit.now.formals call.now.actuals) }
    ensures begins { IfOk result (λ state. state_of state ≡ state_at_start unit.now call.now memory.areas) }
    ensures sound { IfOk result (λ state. IsSound (most_locals units.now) (most_formals units.now) state) }
    ensures one { IfOk result (λ state. length state.activations.items ≡ 1) }
{
    let locals = most_locals(units);
    let formals = most_formals(units);
    let mut first = activation(alloc, locals, formals)?;
    let spare = spare(alloc, locals, formals)?;
    let mut activations = Vec::with_capacity(alloc, ACTIVATIONS)?;
    begin(&mut first, unit, call);
    activations.push_reserved(first);
    memory.clear_all();
    Ok(State {
        memory,
        registers: registers_at_start(call.block, call.instance),
        activations,
        spare,
    })
}

/// The statements of the first unit, whose parts start at a place, with room for all frames that may wait.
pub fn frames<'t>(alloc: Global, body: &'t [Stmt], at: usize) -> Result<Vec<Frame<'t>>, NoMemory>
    ensures items { IfOk result (λ work. work.items ≡ Rest body.entry at ∷ []) }
    ensures room { IfOk result (λ work. vec_capacity work ≡ ACTIVATIONS * UNIT_FRAMES) }
{
    let mut work = Vec::with_capacity(alloc, ACTIVATIONS * UNIT_FRAMES)?;
    work.push_reserved(Frame::Rest(body, at));
    Ok(work)
}
