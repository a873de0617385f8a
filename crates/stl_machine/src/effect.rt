//! What one instruction does.
ghost use Rattle.std.specs.Prelude.{◌≡◌, ◌≢◌, ◌^◌, ◌<◌, []};
ghost use Rattle.status_word.specs.Flags.{bits};
ghost use Rattle.stl_machine.specs.inner.Effects.{Does};
ghost use Rattle.stl_machine.specs.inner.Operands.{HasPlaceInArLoad, HasPlaceInArStore, HasPlaceInCheck, HasPlaceInLoad, HasPlaceInOpen, HasPlaceOf, HasPlaces, IsTaken};
ghost use Rattle.stl_machine.specs.inner.RegisterInstructions.{IsNoCall, IsOnRegisters};
ghost use Rattle.stl_machine.specs.inner.Views.{now_of};
ghost use Rattle.stl_registers.specs.Values.{values};
ghost use Rattle.stl_tree.specs.Instructions.{at_edge, block_opened, effect_of, on_accu1, on_registers, on_status, store_where_rlo};
ghost use Rattle.stl_tree.specs.Jumps.{going_where};
ghost use Rattle.stl_tree.specs.Now.{with_registers};
ghost use Rattle.stl_tree.specs.declared.program.Op.TheVariants as op;

use crate::state::State;
use address_registers::Pointer;
use s7_base::{Check, Fault, Width, low_byte, low_word};
use status_word::{Flag, Status};
use stl_registers::{Registers, read_number, write_number};
use stl_tree::{Ar, ArLoad, ArStore, BitArg, JumpTest, LoadArg, Op, OpenArg, Operand, UnaryRow};

/// How a run continues after an instruction.
#[derive(Clone, Copy)]
pub enum Effect {
    /// The next instruction follows.
    Next,

    /// The instruction at this position of the body follows.
    Go(usize),

    /// The block ends.
    Leave,
}

/// Sets the status word; the next instruction follows.
fn next_with(status: Status, state: &mut State) -> Result<Effect, Fault>
    ensures { Does (on_status (λ before. bits status) (now_of state.old)) result state.old state.new }
{
    state.registers.status = status;
    Ok(Effect::Next)
}

/// Sets the registers; the next instruction follows.
fn next_on(registers: Registers, state: &mut State) -> Result<Effect, Fault>
    ensures { Does (on_registers (λ before. values registers) (now_of state.old)) result state.old state.new }
{
    state.registers = registers;
    Ok(Effect::Next)
}

/// The effect of a check of a bit or of the status word.
fn check(check: Check, argument: &BitArg, state: &mut State) -> Result<Effect, Fault>
    requires { HasPlaceInCheck argument.now state.old.frames }
    ensures { Does (effect_of (op.Check check argument.now) (now_of state.old)) result state.old state.new }
{
    let bit = match argument {
        BitArg::At(operand) => {
            let place = state.place_of(operand)?;
            state.memory.read_bit(place)?
        }
        BitArg::Flag(test) => state.registers.status.test(*test),
    };
    next_with(state.registers.status.checked(check, bit), state)
}

/// The effect of `=`.
fn assign(operand: &Operand, state: &mut State) -> Result<Effect, Fault>
    requires { HasPlaceOf operand.now state.old.frames }
    ensures { Does (effect_of (op.Assign operand.now) (now_of state.old)) result state.old state.new }
{
    let place = state.place_of(operand)?;
    let status = state.registers.status;
    let rlo = status.get(Flag::Rlo);
    state.memory.write_bit(place, rlo)?;
    next_with(status.stored(rlo), state)
}

/// The effect of `S` and `R`: where the RLO is 1, the bit becomes this value.
fn set_to(value: bool, operand: &Operand, state: &mut State) -> Result<Effect, Fault>
    requires { HasPlaceOf operand.now state.old.frames }
    ensures { Does (store_where_rlo value operand.now (now_of state.old)) result state.old state.new }
{
    let place = state.place_of(operand)?;
    let status = state.registers.status;
    let bit = state.memory.read_bit(place)?;
    let stands = if status.get(Flag::Rlo) { value } else { bit };
    state.memory.write_bit(place, stands)?;
    next_with(status.stored(stands), state)
}

/// The effect of `FP`, where the edge is a rising one, and `FN`.
fn edge(rising: bool, operand: &Operand, state: &mut State) -> Result<Effect, Fault>
    requires { HasPlaceOf operand.now state.old.frames }
    ensures { Does (at_edge rising operand.now (now_of state.old)) result state.old state.new }
{
    let place = state.place_of(operand)?;
    let status = state.registers.status;
    let old = state.memory.read_bit(place)?;
    state.memory.write_bit(place, status.get(Flag::Rlo))?;
    next_with(status.edge(rising, old), state)
}

/// The effect of `L`.
fn load(argument: &LoadArg, state: &mut State) -> Result<Effect, Fault>
    requires { HasPlaceInLoad argument.now state.old.frames }
    ensures { Does (effect_of (op.Load argument.now) (now_of state.old)) result state.old state.new }
{
    let value = match argument {
        LoadArg::At(operand, width) => {
            let place = state.place_of(operand)?;
            read_number(&state.memory, place, *width)?
        }
        LoadArg::Constant(value) => *value,
    };
    next_on(state.registers.after_load(value), state)
}

/// The effect of `T`.
fn transfer(operand: &Operand, width: Width, state: &mut State) -> Result<Effect, Fault>
    requires { HasPlaceOf operand.now state.old.frames }
    ensures { Does (effect_of (op.Transfer operand.now width) (now_of state.old)) result state.old state.new }
{
    let place = state.place_of(operand)?;
    write_number(&mut state.memory, place, width, state.registers.accu1)?;
    Ok(Effect::Next)
}

/// The effect of `LAR1` and `LAR2`.
fn load_pointer(register: Ar, from: &ArLoad, state: &mut State) -> Result<Effect, Fault>
    requires { HasPlaceInArLoad from.now state.old.frames }
    ensures { Does (effect_of (op.LoadAr register from.now) (now_of state.old)) result state.old state.new }
{
    let registers = match from {
        ArLoad::Accu1 => state.registers.accu1_pointed(register),
        ArLoad::Constant(p) => state.registers.with_pointer(register, Pointer(*p)),
        ArLoad::At(operand) => {
            let place = state.place_of(operand)?;
            let p = state.memory.read_dword(place)?;
            state.registers.with_pointer(register, Pointer(p))
        }
        ArLoad::OtherAr => state.registers.other_loaded(register),
    };
    next_on(registers, state)
}

/// The effect of `TAR1` and `TAR2`.
fn store_pointer(register: Ar, to: &ArStore, state: &mut State) -> Result<Effect, Fault>
    requires { HasPlaceInArStore to.now state.old.frames }
    ensures { Does (effect_of (op.StoreAr register to.now) (now_of state.old)) result state.old state.new }
{
    match to {
        ArStore::Accu1 => next_on(state.registers.pointer_loaded(register), state),
        ArStore::At(operand) => {
            let place = state.place_of(operand)?;
            let p = state.registers.pointer(register);
            state.memory.write_dword(place, p.0)?;
            Ok(Effect::Next)
        }
        ArStore::OtherAr => next_on(state.registers.other_stored(register), state),
    }
}

/// The number of the data block that `OPN` opens.
fn opened_number(argument: &OpenArg, state: &mut State) -> Result<u16, Fault>
    requires { HasPlaceInOpen argument.now state.old.frames }
    ensures number { IsTaken (λ row. block_opened row argument.now (now_of state.old)) result state.new }
    ensures memory { state.new.memory ≡ state.old.memory }
    ensures frames { state.new.frames ≡ state.old.frames }
    ensures at { state.new.at ≡ state.old.at }
{
    match argument {
        OpenArg::Number(number) => Ok(*number),
        OpenArg::At(operand) => {
            let place = state.place_of(operand)?;
            state.memory.read_word(place)
        }
    }
}

/// The effect of `OPN` of a data block.
fn open_db(argument: &OpenArg, state: &mut State) -> Result<Effect, Fault>
    requires { HasPlaceInOpen argument.now state.old.frames }
    ensures { Does (effect_of (op.OpenDb argument.now) (now_of state.old)) result state.old state.new }
{
    let number = opened_number(argument, state)?;
    next_on(state.registers.db_opened(number), state)
}

/// The effect of `OPN` of an instance.
fn open_di(argument: &OpenArg, state: &mut State) -> Result<Effect, Fault>
    requires { HasPlaceInOpen argument.now state.old.frames }
    ensures { Does (effect_of (op.OpenDi argument.now) (now_of state.old)) result state.old state.new }
{
    let number = opened_number(argument, state)?;
    next_on(state.registers.di_opened(number), state)
}

/// The effect of an instruction on ACCU1 alone.
fn on_accu1(of: UnaryRow, state: &mut State) -> Result<Effect, Fault>
    ensures { Does (on_accu1 of (now_of state.old)) result state.old state.new }
{
    next_on(state.registers.after_conversion(of)?, state)
}

/// The effect of an opening bracket.
fn open(of: Check, state: &mut State) -> Result<Effect, Fault>
    ensures { Does (effect_of (op.Bracket of) (now_of state.old)) result state.old state.new }
{
    state.open(of);
    Ok(Effect::Next)
}

/// The effect of `)`.
fn close(state: &mut State) -> Result<Effect, Fault>
    ensures { Does (effect_of op.Close (now_of state.old)) result state.old state.new }
{
    state.close();
    Ok(Effect::Next)
}

/// Sets the registers; the body goes on at a position, or with the next instruction.
fn go_where(made: bool, to: u32, registers: Registers, state: &mut State) -> Result<Effect, Fault>
    ensures { Does (going_where made to (with_registers (λ before. values registers) (now_of state.old))) result state.old state.new }
{
    state.registers = registers;
    if made {
        Ok(Effect::Go(to as usize))
    } else {
        Ok(Effect::Next)
    }
}

/// The effect of a jump.
fn jump(test: JumpTest, to: u32, state: &mut State) -> Result<Effect, Fault>
    ensures { Does (effect_of (op.Jump test to) (now_of state.old)) result state.old state.new }
{
    let before = state.registers;
    go_where(before.is_made(test), to, before.after_test(test), state)
}

/// The effect of `LOOP`.
fn count_down(to: u32, state: &mut State) -> Result<Effect, Fault>
    ensures { Does (effect_of (op.Loop to) (now_of state.old)) result state.old state.new }
{
    let counted = state.registers.after_addition(Width::Word, -1);
    go_where(low_word(counted.accu1) != 0, to, counted, state)
}

/// The effect of `JL`, which goes on at one of the `JU` after it, or at its label.
#[tactic(auto, using(crate::proofs::Activations::position_there))]
fn choose(count: u8, label: u32, state: &State) -> Result<Effect, Fault>
    requires running { state.now.frames ≢ [] }
    requires room { state.now.at < 2 ^ 31 }
    ensures { Does (effect_of (op.JumpList count label) (now_of state.now)) result state.now state.now }
{
    let number = low_byte(state.registers.accu1);
    if number < count {
        Ok(Effect::Go(state.at + 1 + usize::from(number)))
    } else {
        Ok(Effect::Go(label as usize))
    }
}

/// The effect of the end word of a block.
fn leave(state: &mut State) -> Result<Effect, Fault>
    ensures { Does (effect_of op.BlockEnd (now_of state.old)) result state.old state.new }
{
    state.registers.status = state.registers.status.ended();
    Ok(Effect::Leave)
}

/// The effect of `BEC`.
fn leave_if(state: &mut State) -> Result<Effect, Fault>
    ensures { Does (effect_of op.BlockEndIf (now_of state.old)) result state.old state.new }
{
    if state.registers.status.get(Flag::Rlo) {
        leave(state)
    } else {
        next_with(state.registers.status.after_jump(), state)
    }
}

/// The effect of an instruction on the registers alone.
fn on_registers(op: &Op, state: &mut State) -> Result<Effect, Fault>
    requires { IsOnRegisters op.now }
    ensures { Does (effect_of op.now (now_of state.old)) result state.old state.new }
{
    let before = state.registers;
    let registers = match op {
        Op::LoadStw => before.status_loaded(),
        Op::TransferStw => before.status_stored(),
        Op::LoadDbNo => before.db_number_loaded(),
        Op::LoadDiNo => before.di_number_loaded(),
        Op::Arith(of) => before.after_arithmetic(*of),
        Op::AddWord(n) => before.after_addition(Width::Word, i32::from(*n)),
        Op::AddDword(n) => before.after_addition(Width::Dword, *n),
        Op::Inc(n) => before.counted_up(*n),
        Op::Dec(n) => before.counted_down(*n),
        Op::Compare(test, width) => before.after_comparison(*test, *width),
        Op::Shift(of, count) => before.after_shift(*of, *count),
        Op::Rlda => before.around_left_through_cc1(),
        Op::Rrda => before.around_right_through_cc1(),
        Op::Logic(of, constant) => before.after_word_logic(*of, *constant),
        Op::Tak => before.accus_exchanged(),
        Op::Push => before.accu_pushed(),
        Op::Pop => before.accu_popped(),
        Op::ExchangeAr => before.pointers_exchanged(),
        Op::AddAr(register, amount) => before.pointer_moved(*register, *amount),
        Op::ExchangeDb => before.dbs_exchanged(),
        _ => unreachable!(),
    };
    next_on(registers, state)
}

/// Does an instruction that is no call. A fault leaves the memory as it was.
pub fn effect_of(op: &Op, state: &mut State) -> Result<Effect, Fault>
    requires no_call { IsNoCall op.now }
    requires places { HasPlaces op.now state.old.frames }
    requires running { state.old.frames ≢ [] }
    requires room { state.old.at < 2 ^ 31 }
    ensures { Does (effect_of op.now (now_of state.old)) result state.old state.new }
{
    let status = state.registers.status;
    match op {
        Op::Check(of, argument) => check(*of, argument, state),
        Op::OrAlone => next_with(status.and_before_or(), state),
        Op::Bracket(of) => open(*of, state),
        Op::Close => close(state),
        Op::Assign(operand) => assign(operand, state),
        Op::Set(operand) => set_to(true, operand, state),
        Op::Reset(operand) => set_to(false, operand, state),
        Op::SetRlo => next_with(status.set_rlo(), state),
        Op::ClearRlo => next_with(status.clear_rlo(), state),
        Op::NotRlo => next_with(status.negated(), state),
        Op::Save => next_with(status.saved(), state),
        Op::EdgeUp(operand) => edge(true, operand, state),
        Op::EdgeDown(operand) => edge(false, operand, state),
        Op::Load(argument) => load(argument, state),
        Op::Transfer(operand, width) => transfer(operand, *width, state),
        Op::Unary(of) => on_accu1(*of, state),
        Op::LoadAr(register, from) => load_pointer(*register, from, state),
        Op::StoreAr(register, to) => store_pointer(*register, to, state),
        Op::OpenDb(argument) => open_db(argument, state),
        Op::OpenDi(argument) => open_di(argument, state),
        Op::Nop => Ok(Effect::Next),
        Op::Jump(test, to) => jump(*test, *to, state),
        Op::Loop(to) => count_down(*to, state),
        Op::JumpList(count, label) => choose(*count, *label, state),
        Op::BlockEnd => leave(state),
        Op::BlockEndIf => leave_if(state),
        _ => on_registers(op, state),
    }
}
