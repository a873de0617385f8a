//! The machine.
ghost use Rattle.std.specs.Prelude.{◌≡◌, ◌≢◌, ◌+◌, ◌^◌, ◌<◌, [], IfSome, MatchOption, Some, None};
ghost use Rattle.block_calls.specs.Fitting.{StandsIn};
ghost use Rattle.memory_areas.specs.Areas.{IsMemoryOf};
ghost use Rattle.status_word.specs.Flags.{bits};
ghost use Rattle.stl_machine.specs.Machine.{IsNew, memory_of, outcome_of};
ghost use Rattle.stl_machine.specs.declared.machine.Progress.TheVariants.{Running};
ghost use Rattle.stl_machine.specs.inner.Effects.{next_of};
ghost use Rattle.stl_machine.specs.inner.Operands.{HasPlaces};
ghost use Rattle.stl_machine.specs.inner.RegisterInstructions.{IsNoCall};
ghost use Rattle.stl_machine.specs.inner.Runs.{IsSound, IsStateOf};
ghost use Rattle.stl_machine.specs.inner.Views.{now_of, standing};
ghost use Rattle.stl_tree.specs.Accepted.{IsAccepted};
ghost use Rattle.stl_tree.specs.Instructions.{effect_of};
ghost use Rattle.stl_tree.specs.Jumps.{after_asking};
ghost use Rattle.stl_tree.specs.StlRun.{after_effect, after_return, at_block_entry, instruction, step_by, steps_on};

use crate::effect::{Effect, effect_of};
use crate::state::State;
use block_calls::Frames;
use memory_areas::Memory;
use nesting_stack::Nesting;
use s7_base::{Fault, Outcome};
use status_word::{Flag, Status};
use std::alloc::Global;
use std::marker::Model;
use stl_registers::Registers;
use stl_tree::{BlockCall, Call, Instr, Op, Program};

/// Why there is no machine.
#[derive(Clone, Copy, Debug, PartialEq, Eq)]
pub enum MachineRefusal {
    /// The call does not fit the program.
    BadCall,

    /// Memory ran out.
    NoMemory,
}

/// Whether a run goes on or is over.
#[derive(Clone, Copy, Debug)]
enum Progress {
    Running,
    Over(Option<Fault>),
}

/// A run of a block of a program, which can be continued in any portions of steps.
#[derive(Drop)]
pub struct Machine<'p> {
    program: &'p Program,
    state: State,
    progress: Progress,
}

impl<'p> Model for Machine<'p> {
    ghost use Rattle.stl_machine.specs.inner.Runs.{IsSound};
    ghost use Rattle.stl_machine.specs.inner.Views.{standing};
    ghost use Rattle.stl_tree.specs.Accepted.{IsAccepted};
    ghost use Rattle.stl_tree.specs.StlRun.{Standing};

    ghost Value = { Standing };

    ghost view = { λ m. standing m.program.now m.progress m.state };

    ghost invariant = { λ m. IsAccepted m.program.now × IsSound m.program.now m.progress m.state };
}

/// The next instruction; none where the run is over, or where no instruction follows.
#[tactic(auto, using(crate::proofs::Activations::next_is_there))]
fn next_of<'p>(program: &'p Program, progress: Progress, state: &State) -> Option<&'p Instr>
    ensures instruction { MatchOption result (next_of (standing program.now progress state.now) ≡ None)
        (λ instr. next_of (standing program.now progress state.now) ≡ Some instr.now) }
    ensures running { IfSome result (λ instr. progress ≡ Running) }
    ensures there { IfSome result (λ instr. instruction program.now (now_of state.now).activations ≡ Some instr.now) }
{
    if let Progress::Over(_) = progress {
        return None;
    }
    if state.frames.depth() == 0 {
        return None;
    }
    let block = program
        .blocks
        .as_slice()
        .get(state.frames.block() as usize)?;
    block.body.as_slice().get(state.at)
}

/// Ends the running block: its caller goes on, with the data blocks that were open there, or the run is over.
fn after_return(program: &Program, state: &mut State) -> Progress
    requires accepted { IsAccepted program.now }
    requires sound { IsStateOf program.now state.old }
    requires running { state.old.frames ≢ [] }
    ensures run { standing program.now result state.new ≡ after_return program.now (now_of state.old).activations (now_of state.old) }
    ensures sound { IsSound program.now result state.new }
{
    match state
        .frames
        .leave(&mut state.memory, &mut state.registers, program)
    {
        Some(at) => {
            state.at = at as usize;
            Progress::Running
        }
        None => Progress::Over(None),
    }
}

/// Begins a block, or ends the run by the fault of an actual.
#[tactic(auto, using(crate::proofs::Calls::entered_at))]
fn at_block_entry(program: &Program, call: &BlockCall, state: &mut State) -> Progress
    requires accepted { IsAccepted program.now }
    requires sound { IsStateOf program.now state.old }
    requires call { StandsIn program.now state.old.frames call.now }
    requires room { state.old.at < 2 ^ 31 }
    ensures run { standing program.now result state.new ≡ at_block_entry program.now call.now (now_of state.old) }
    ensures sound { IsSound program.now result state.new }
{
    let next = (state.at + 1) as u32;
    match state.frames.enter(&mut state.memory, &mut state.registers, program, call, next) {
        Ok(()) => {
            state.at = 0;
            Progress::Running
        }
        Err(fault) => Progress::Over(Some(fault)),
    }
}

/// Does an instruction that is no call. The progress is written only where it changes, which a step seldom
/// does.
#[tactic(auto, using(crate::proofs::Activations::goes_on, crate::proofs::Activations::goes_to))]
fn after_effect(program: &Program, op: &Op, state: &mut State, progress: &mut Progress)
    requires accepted { IsAccepted program.now }
    requires no_call { IsNoCall op.now }
    requires running { progress.old ≡ Running }
    requires sound { IsStateOf program.now state.old }
    requires places { HasPlaces op.now state.old.frames }
    requires begun { state.old.frames ≢ [] }
    requires room { state.old.at < 2 ^ 31 }
    ensures run { standing program.now progress.new state.new
        ≡ after_effect program.now (now_of state.old) (effect_of op.now (now_of state.old)) }
    ensures sound { IsSound program.now progress.new state.new }
{
    match effect_of(op, state) {
        Ok(Effect::Next) => state.at += 1,
        Ok(Effect::Go(to)) => state.at = to,
        Ok(Effect::Leave) => *progress = after_return(program, state),
        Err(fault) => *progress = Progress::Over(Some(fault)),
    }
}

/// The status word at a call by `CC`, whether it is made or not.
fn after_asking(status: Status) -> Status
    ensures { bits result ≡ after_asking (bits status) }
{
    status.ended().put(Flag::Rlo, true)
}

/// Does the next instruction of a run that is not over.
fn step_by(program: &Program, instr: &Instr, state: &mut State, progress: &mut Progress)
    requires accepted { IsAccepted program.now }
    requires running { progress.old ≡ Running }
    requires sound { IsStateOf program.now state.old }
    requires next { instruction program.now (now_of state.old).activations ≡ Some instr.now }
    ensures run { standing program.now progress.new state.new ≡ step_by (Some instr.now) program.now (now_of state.old) }
    ensures sound { IsSound program.now progress.new state.new }
{
    match &instr.op {
        Op::Call(call) => {
            state.registers.status = state.registers.status.ended();
            *progress = at_block_entry(program, call, state);
        }
        Op::CallIf(call) => {
            let rlo = state.registers.status.get(Flag::Rlo);
            state.registers.status = after_asking(state.registers.status);
            if rlo {
                *progress = at_block_entry(program, call, state);
            } else {
                state.at += 1;
            }
        }
        op => after_effect(program, op, state, progress),
    }
}

impl<'p> Machine<'p> {
    /// A machine at the start of a call, its registers and local data zero.
    pub fn new(
        alloc: Global,
        program: &'p Program,
        mut memory: Memory,
        call: &Call,
    ) -> Result<Machine<'p>, MachineRefusal>
        requires accepted { IsAccepted program.now }
        requires memory { IsMemoryOf program.now.dbs memory.areas }
        ensures { IsNew program.now call.now memory.areas result }
    {
        let Ok(mut frames) = Frames::new(alloc) else {
            return Err(MachineRefusal::NoMemory);
        };
        let mut registers = Registers::start();
        if !frames.start(&mut memory, &mut registers, program, call) {
            return Err(MachineRefusal::BadCall);
        }
        Ok(Machine {
            program,
            state: State {
                registers,
                brackets: Nesting::new(),
                memory,
                frames,
                at: 0,
            },
            progress: Progress::Running,
        })
    }

    /// Takes at most `n` further steps, an instruction each. A run that is over stays as it is.
    pub fn run(&mut self, n: u64) -> Outcome
        ensures state { self.new ≡ steps_on n self.old }
        ensures outcome { result ≡ outcome_of self.new }
    {
        for _ in 0..n {
            let Some(instr) = next_of(self.program, self.progress, &self.state) else {
                break;
            };
            step_by(self.program, instr, &mut self.state, &mut self.progress);
        }
        self.outcome()
    }

    /// The memory at this point of the run.
    pub fn memory(&self) -> &Memory
        ensures { result.now ≡ memory_of self.now }
    {
        &self.state.memory
    }

    fn outcome(&self) -> Outcome
        ensures { result ≡ outcome_of self.now }
    {
        match self.progress {
            Progress::Running => Outcome::Going,
            Progress::Over(fault) => Outcome::Ended(fault),
        }
    }
}
