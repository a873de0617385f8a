//! The activations of a run, and what their number and the blocks above them say.
ghost use Rattle.std.specs.Prelude.{◌≡◌, ◌≢◌, ◌≤◌, [], All, IfOk, Some, length, map, true};
ghost use Rattle.memory_areas.specs.Areas.{IsMemoryOf};
ghost use Rattle.memory_areas.specs.Memory.{HasBlocks};
ghost use Rattle.memory_areas.specs.declared.sizes.TheConstants.{ACTIVATIONS};
ghost use Rattle.block_calls.specs.Fitting.{AreActivationsOf, StandsIn};
ghost use Rattle.block_calls.specs.Scenes.{IsRunningBlock, HasEntered, HasLeft, HasStarted, Scene};
ghost use Rattle.block_calls.specs.inner.Views.{HasPlace};
ghost use Rattle.stl_registers.specs.Values.{values};
ghost use Rattle.stl_tree.specs.Accepted.{IsAccepted};
ghost use Rattle.stl_tree.specs.Now.{depth};
ghost use Rattle.stl_tree.specs.Operands.{formal_place};
ghost use Rattle.stl_tree.specs.StlRun.{instance_called, places_given};

use crate::actuals::{formals_at, locate, write_constants};
use crate::copies::{Way, copy_all};
use crate::fits::block_called;
use crate::places::Places;
use crate::stack::Stack;
use memory_areas::{Memory, Place};
use s7_base::{Fault, NoMemory};
use std::alloc::Global;
use std::marker::Model;
use stl_registers::Registers;
use stl_tree::{BlockCall, BlockName, Call, Program};

/// The activations of a run, at most eight. Room for all and for their formals is reserved once.
#[derive(Drop)]
pub struct Frames {
    stack: Stack,

    /// Where the places of actuals are put while they are found.
    spare: Places,
}

impl Model for Frames {
    ghost use Rattle.std.specs.Prelude.{List};
    ghost use Rattle.stl_tree.specs.Now.{Activation};

    ghost Value = { List Activation };

    ghost view = { λ f. f.stack };
}

/// The instance with which the block of a call from outside begins.
fn instance_called(call: &Call) -> u16
    ensures { result ≡ instance_called call.now.block call.now.instance }
{
    match call.block {
        BlockName::Ob(_) | BlockName::Fc(_) => 0,
        BlockName::Fb(_) => call.instance,
    }
}

/// The places of the formals of the block of a call from outside, of which only a function has any.
fn give_places(call: &Call, places: &mut Places)
    requires { length (places_given call.now.block call.now.actuals) ≤ 64 }
    ensures { places.new ≡ places_given call.now.block call.now.actuals }
{
    places.clear();
    if let BlockName::Fc(_) = call.block {
        let mut left = call.actuals.as_slice();
        while let Some((actual, behind)) = left.split_first() {
            places.push(Some(actual.0));
            left = behind;
        }
    }
}

impl Frames {
    /// No block runs.
    pub fn new(alloc: Global) -> Result<Frames, NoMemory>
        ensures { IfOk result (λ frames. frames ≡ []) }
    {
        Ok(Frames {
            stack: Stack::new(alloc)?,
            spare: Places::new(alloc)?,
        })
    }

    /// How many activations there are.
    pub fn depth(&self) -> u8
        ensures depth { result ≡ length self.now }
        ensures most { result ≤ ACTIVATIONS }
    {
        self.stack.depth()
    }

    /// The position of the running block in the program.
    pub fn block(&self) -> u32
        requires { self.now ≢ [] }
        ensures { IsRunningBlock self.now result }
    {
        self.stack.running().block
    }

    /// The place of a formal of the running activation.
    pub fn formal(&self, k: u32) -> Place
        requires { HasPlace k self.now }
        ensures { formal_place k self.now ≡ Some result }
    {
        self.stack.formal(k)
    }

    /// Begins the run of a call, where it fits. False exactly where it does not; then nothing changes.
    pub fn start(
        &mut self,
        memory: &mut Memory,
        registers: &mut Registers,
        program: &Program,
        call: &Call,
    ) -> bool
        requires accepted { IsAccepted program.now }
        requires memory { IsMemoryOf program.now.dbs memory.old.areas }
        requires none { self.old ≡ [] }
        ensures answer { HasStarted program.now call.now result
            (record { registers = values registers.old; memory = memory.old; activations = self.old })
            (record { registers = values registers.new; memory = memory.new; activations = self.new }) }
        ensures fitting { result ≡ true → AreActivationsOf program.now self.new }
        ensures kept { result ≡ true → HasBlocks program.now.dbs memory.new }
    {
        let Some(block) = block_called(memory, program, call) else {
            return false;
        };
        let instance = instance_called(call);
        give_places(call, &mut self.spare);
        self.stack
            .push(block as u32, instance, 0, 0, &mut self.spare, 0);
        memory.clear_all();
        *registers = Registers::start().di_opened(instance);
        true
    }

    /// Calls a block, or answers the first fault of its actuals in the order of the formals, with all unchanged.
    /// The running block continues at a position when the called one has ended.
    pub fn enter(
        &mut self,
        memory: &mut Memory,
        registers: &mut Registers,
        program: &Program,
        call: &BlockCall,
        next: u32,
    ) -> Result<(), Fault>
        requires accepted { IsAccepted program.now }
        requires memory { HasBlocks program.now.dbs memory.old }
        requires fitting { AreActivationsOf program.now self.old }
        requires call { StandsIn program.now self.old call.now }
        ensures answer { HasEntered program.now call.now next result
            (record { registers = values registers.old; memory = memory.old; activations = self.old })
            (record { registers = values registers.new; memory = memory.new; activations = self.new }) }
        ensures fitting { AreActivationsOf program.now self.new }
        ensures kept { HasBlocks program.now.dbs memory.new }
    {
        let formals = formals_at(program, call.block);
        let actuals = call.actuals.as_slice();
        locate(
            &self.stack,
            memory,
            *registers,
            formals,
            actuals,
            &mut self.spare,
        )?;
        let depth = self.stack.depth();
        memory.clear(depth);
        write_constants(memory, program, call.block, depth, actuals);
        if call.instance != 0 {
            copy_all(
                memory,
                Way::In,
                program,
                call.block,
                call.instance,
                self.spare.as_slice(),
            );
        }
        self.stack.push(
            call.block,
            call.instance,
            registers.db,
            registers.di,
            &mut self.spare,
            next,
        );
        if call.instance != 0 {
            *registers = registers.di_opened(call.instance);
        }
        Ok(())
    }

    /// Ends the running block and answers where its caller continues; `None` exactly where no block called it.
    pub fn leave(
        &mut self,
        memory: &mut Memory,
        registers: &mut Registers,
        program: &Program,
    ) -> Option<u32>
        requires accepted { IsAccepted program.now }
        requires memory { HasBlocks program.now.dbs memory.old }
        requires fitting { AreActivationsOf program.now self.old }
        requires running { self.old ≢ [] }
        ensures answer { HasLeft program.now result
            (record { registers = values registers.old; memory = memory.old; activations = self.old })
            (record { registers = values registers.new; memory = memory.new; activations = self.new }) }
        ensures fitting { AreActivationsOf program.now self.new }
        ensures kept { HasBlocks program.now.dbs memory.new }
    {
        if self.stack.depth() == 1 {
            self.stack.pop();
            return None;
        }
        let done = self.stack.running();
        if done.instance != 0 {
            copy_all(
                memory,
                Way::Back,
                program,
                done.block,
                done.instance,
                done.formals.as_slice(),
            );
        }
        registers.db = done.db;
        registers.di = done.di;
        self.stack.pop();
        Some(self.stack.running().at)
    }
}
