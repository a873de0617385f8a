//! The statements of an instruction.
//!
//! Each is a handful of assignments and area writes; a call has more, and CC an IF. So a block without a jump inside is one
//! node. Of the status word all bits but STA have variables.
ghost use Rattle.std.specs.Prelude.{◌≡◌, ◌<◌, ◌+◌, ◌^◌, ◌++◌, [], IfOk, OnOk, get_or, length};
ghost use Rattle.call_templates.specs.Calls.{call_of, types_of_call};
ghost use Rattle.instruction_lowering.specs.inner.Templates.{context_after, close_innermost, context_from, more, statements_of, unary_of, unit_called, with_bracket};
ghost use Rattle.instruction_lowering.specs.inner.Temporaries.{formals_called, types_of};
ghost use Rattle.instruction_lowering.specs.inner.UnitOrder.{unit_positions};

use crate::locals::{fixed_types_of, formals_called};
use accumulator_templates::{
    push_add_dword, push_add_word, push_block_exchange, push_block_open, push_cad, push_caw,
    push_dec, push_exchange, push_inc, push_invd, push_invi, push_itd, push_load, push_logic,
    push_number_load, push_pop, push_push, push_status_load, push_status_store, push_transfer,
};
use arithmetic_templates::{push_calculated, push_compared, push_negated};
use bit_templates::{
    OpenBracket, push_assigned, push_checked, push_closed, push_falling, push_inverted,
    push_opened, push_or_alone, push_reset, push_rising, push_rlo, push_saved, push_set,
};
use call_templates::{push_call, push_call_if, push_end_word, push_types_of_call};
use digit_templates::{push_btd, push_bti, push_dtb, push_itb};
use jump_templates::{push_end_if, push_jump, push_list, push_loop};
use pointer_templates::{
    push_pointer_exchange, push_pointer_load, push_pointer_move, push_pointer_store,
};
use s7_base::{Check, List, NoMemory, Reg, Width};
use shift_templates::{push_rlda, push_rrda, push_shift};
use st_tree::{StType, Stmt};
use std::alloc::Global;
use std::collections::LinkedList;
use stl_tree::{Block, BlockCall, Op, UnaryRow};

/// The state of the lowering between two instructions of a body.
#[derive(Drop)]
pub struct LoweringContext {
    /// How many locals the unit has so far.
    pub used: u32,

    /// The brackets that are open, the innermost one first.
    brackets: LinkedList<OpenBracket>,
}

impl LoweringContext {
    /// The state at the start of a block, where the unit has so many locals; no bracket is open there.
    pub fn from(alloc: Global, used: u32) -> LoweringContext
        ensures { result ≡ context_from used }
    {
        LoweringContext {
            used,
            brackets: LinkedList::new(alloc),
        }
    }

    /// Takes the next locals, of these types, and gives the number of the first.
    fn take(&mut self, types: &[StType]) -> Result<u32, NoMemory>
        ensures first { IfOk result (λ first. first ≡ self.old.used) }
        ensures few { IfOk result (λ first. first + 8 < 2 ^ 32) }
        ensures room { IfOk result (λ first. first + length types.now < 2 ^ 32) }
        ensures spot { OnOk result (self.new ≡ more types.now self.old) }
    {
        let first = self.used;
        let count = u32::try_from(types.len()).map_err(|_| NoMemory)?;
        let behind = first.checked_add(count).ok_or(NoMemory)?;
        if behind >= u32::MAX - 8 {
            return Err(NoMemory);
        }
        self.used = behind;
        Ok(first)
    }

    /// Opens a bracket whose chain is kept by the locals from `first` on.
    fn open(&mut self, first: u32, check: Check) -> Result<(), NoMemory>
        requires { first + 8 < 2 ^ 32 }
        ensures { OnOk result (self.new ≡ with_bracket first check self.old) }
    {
        self.brackets.push_front(OpenBracket::at(first, check))?;
        Ok(())
    }
}

/// Appends the statements of an instruction of a program with these blocks, whose units have these positions: the table
/// of all instructions.
pub fn push_statements(
    alloc: Global,
    steps: &mut List<Stmt>,
    spot: &mut LoweringContext,
    blocks: &[Block],
    units: &[u32],
    op: &Op,
) -> Result<(), NoMemory>
    requires { units.now ≡ unit_positions blocks.now }
    ensures steps { OnOk result (steps.new ≡ steps.old ++ statements_of blocks.now spot.old op.now) }
    ensures spot { OnOk result (spot.new ≡ context_after blocks.now op.now spot.old) }
{
    let first = take_for(alloc, spot, blocks, op)?;
    match op {
        Op::Check(check, arg) => push_checked(alloc, steps, first, *check, arg),
        Op::OrAlone => push_or_alone(alloc, steps),
        Op::Bracket(check) => {
            spot.open(first, *check)?;
            push_opened(steps, first)
        }
        Op::Close => push_innermost(alloc, steps, spot),
        Op::Assign(operand) => push_assigned(alloc, steps, first, operand),
        Op::Set(operand) => push_set(alloc, steps, first, operand),
        Op::Reset(operand) => push_reset(alloc, steps, first, operand),
        Op::SetRlo => push_rlo(steps, true),
        Op::ClearRlo => push_rlo(steps, false),
        Op::NotRlo => push_inverted(alloc, steps),
        Op::Save => push_saved(steps),
        Op::EdgeUp(operand) => push_rising(alloc, steps, first, operand),
        Op::EdgeDown(operand) => push_falling(alloc, steps, first, operand),
        Op::Load(argument) => push_load(alloc, steps, first, argument),
        Op::Transfer(operand, width) => push_transfer(alloc, steps, first, operand, *width),
        Op::LoadStw => push_status_load(alloc, steps),
        Op::TransferStw => push_status_store(alloc, steps),
        Op::LoadDbNo => push_number_load(alloc, steps, Reg::DbNo),
        Op::LoadDiNo => push_number_load(alloc, steps, Reg::DiNo),
        Op::Arith(row) => push_calculated(alloc, steps, first, *row),
        Op::AddWord(number) => push_add_word(alloc, steps, *number),
        Op::AddDword(number) => push_add_dword(alloc, steps, *number),
        Op::Inc(number) => push_inc(alloc, steps, *number),
        Op::Dec(number) => push_dec(alloc, steps, *number),
        Op::Compare(test, width) => push_compared(alloc, steps, first, *test, *width),
        Op::Shift(row, count) => push_shift(alloc, steps, first, *row, *count),
        Op::Rlda => push_rlda(alloc, steps, first),
        Op::Rrda => push_rrda(alloc, steps, first),
        Op::Logic(row, constant) => push_logic(alloc, steps, first, *row, *constant),
        Op::Unary(row) => push_unary(alloc, steps, first, *row),
        Op::Tak => push_exchange(steps, first),
        Op::Push => push_push(steps),
        Op::Pop => push_pop(steps),
        Op::LoadAr(register, from) => push_pointer_load(alloc, steps, first, *register, *from),
        Op::StoreAr(register, to) => push_pointer_store(alloc, steps, first, *register, *to),
        Op::ExchangeAr => push_pointer_exchange(steps, first),
        Op::AddAr(register, amount) => push_pointer_move(alloc, steps, *register, *amount),
        Op::OpenDb(block) => push_block_open(alloc, steps, first, Reg::DbNo, *block),
        Op::OpenDi(block) => push_block_open(alloc, steps, first, Reg::DiNo, *block),
        Op::ExchangeDb => push_block_exchange(steps, first),
        Op::Nop => Ok(()),
        Op::Jump(test, _) => push_jump(alloc, steps, first, *test),
        Op::Loop(_) => push_loop(alloc, steps, first),
        Op::JumpList(_, _) => push_list(alloc, steps, first),
        Op::BlockEnd => push_end_word(steps),
        Op::BlockEndIf => push_end_if(alloc, steps, first),
        Op::Call(call) => push_block_call(alloc, steps, first, blocks, units, call),
        Op::CallIf(call) => push_call_if(alloc, steps, first, unit_called(units, call)),
    }
}

/// Takes the locals of an instruction, and gives the number of the first.
fn take_for(
    alloc: Global,
    spot: &mut LoweringContext,
    blocks: &[Block],
    op: &Op,
) -> Result<u32, NoMemory>
    ensures first { IfOk result (λ first. first ≡ spot.old.used) }
    ensures few { IfOk result (λ first. first + 8 < 2 ^ 32) }
    ensures room { IfOk result (λ first. first + length (types_of blocks.now op.now) < 2 ^ 32) }
    ensures spot { OnOk result (spot.new ≡ more (types_of blocks.now op.now) spot.old) }
{
    match op {
        Op::Call(call) => {
            let mut types = List::new(alloc);
            push_types_of_call(&mut types, formals_called(blocks, call), call)?;
            spot.take(types.as_slice())
        }
        _ => spot.take(fixed_types_of(op)),
    }
}

/// Appends the statements of a `CALL`.
fn push_block_call(
    alloc: Global,
    steps: &mut List<Stmt>,
    first: u32,
    blocks: &[Block],
    units: &[u32],
    call: &BlockCall,
) -> Result<(), NoMemory>
    requires units { units.now ≡ unit_positions blocks.now }
    requires room { first + length (types_of_call (formals_called blocks.now call.now) call.now) < 2 ^ 32 }
    ensures { OnOk result (steps.new ≡ steps.old ++ call_of first (unit_called blocks.now call.now) (formals_called blocks.now call.now) call.now) }
{
    let formals = formals_called(blocks, call);
    push_call(alloc, steps, first, unit_called(units, call), formals, call)
}

/// The position of the unit of a call.
fn unit_called(units: &[u32], call: &BlockCall) -> u32
    ensures { result ≡ get_or units.now call.now.block 0 }
{
    units.get(call.block as usize).copied().unwrap_or(0)
}

/// Appends the statements that close the innermost bracket.
fn push_innermost(
    alloc: Global,
    steps: &mut List<Stmt>,
    spot: &mut LoweringContext,
) -> Result<(), NoMemory>
    ensures steps { OnOk result (steps.new ≡ steps.old ++ close_innermost spot.old.brackets) }
    ensures spot { OnOk result (spot.new ≡ context_after [] Op.Close spot.old) }
{
    match spot.brackets.pop_front() {
        Some(bracket) => push_closed(alloc, steps, bracket),
        None => Ok(()),
    }
}

/// Appends the statements of an instruction on ACCU1 alone.
fn push_unary(
    alloc: Global,
    steps: &mut List<Stmt>,
    first: u32,
    row: UnaryRow,
) -> Result<(), NoMemory>
    requires { first + 8 < 2 ^ 32 }
    ensures { OnOk result (steps.new ≡ steps.old ++ unary_of first row) }
{
    match row {
        UnaryRow::Bti => push_bti(alloc, steps, first),
        UnaryRow::Btd => push_btd(alloc, steps, first),
        UnaryRow::Itb => push_itb(alloc, steps, first),
        UnaryRow::Dtb => push_dtb(alloc, steps, first),
        UnaryRow::Itd => push_itd(alloc, steps),
        UnaryRow::Invi => push_invi(alloc, steps),
        UnaryRow::Invd => push_invd(alloc, steps),
        UnaryRow::Caw => push_caw(alloc, steps),
        UnaryRow::Cad => push_cad(alloc, steps),
        UnaryRow::Negi => push_negated(alloc, steps, first, Width::Word),
        UnaryRow::Negd => push_negated(alloc, steps, first, Width::Dword),
    }
}
