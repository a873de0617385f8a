//! The temporaries of a unit.
ghost use Rattle.std.specs.Prelude.{◌≡◌, ◌<◌, ◌^◌, ◌++◌, length, IfOk, OnOk};
ghost use Rattle.st_tree.specs.Naming.{is_new, key_of};
ghost use Rattle.st_tree.specs.WellTyped.{keys_of};
ghost use Rattle.instruction_lowering.specs.inner.Temporaries.{fixed_types_of, formals_called, number_after, temporaries, temporary_name, types_in, types_of, types_of_unary};

use crate::unit_names::has_name;
use accumulator_templates::{
    types_of_block_exchange, types_of_block_open, types_of_exchange, types_of_load, types_of_logic,
};
use arithmetic_templates::{types_of_calculated, types_of_compared, types_of_negated};
use bit_templates::{types_checked, types_of_bracket, types_of_edge};
use call_templates::{push_types_of_call, types_of_call_if};
use digit_templates::{types_of_btd, types_of_bti, types_of_dtb, types_of_itb};
use itoa::Buffer;
use jump_templates::{types_of_jump, types_of_list, types_of_test};
use pointer_templates::{types_of_pointer_exchange, types_of_pointer_load, types_of_pointer_store};
use s7_base::{List, NoMemory, Width};
use shift_templates::{types_of_shift, types_through_cc1};
use st_tree::{Local, StType};
use std::alloc::Global;
use stl_tree::{Block, BlockCall, Formal, Instr, Op, UnaryRow};
use template_parts::{types_fetched, types_reached};

/// The temporaries of the instructions of a body, in a unit with these formals; from `T1` on, where no formal is called
/// so.
pub fn locals_of(
    alloc: Global,
    blocks: &[Block],
    formals: &[Local],
    body: &[Instr],
) -> Result<List<Local>, NoMemory>
    ensures locals { IfOk result (λ locals. locals ≡ temporaries (keys_of formals.now) 0 (types_in blocks.now body.now)) }
    ensures few { OnOk result (length (types_in blocks.now body.now) < 2 ^ 32) }
{
    let types = types(alloc, blocks, body)?;
    temporaries(alloc, formals, types.as_slice())
}

/// The types of the temporaries of a body.
fn types(alloc: Global, blocks: &[Block], body: &[Instr]) -> Result<List<StType>, NoMemory>
    ensures { IfOk result (λ types. types ≡ types_in blocks.now body.now) }
{
    let mut types = List::new(alloc);
    let mut rest = body;
    while let Some((instr, behind)) = rest.split_first() {
        push_types(&mut types, blocks, &instr.op)?;
        rest = behind;
    }
    Ok(types)
}

/// Appends the types of the temporaries of an instruction.
fn push_types(types: &mut List<StType>, blocks: &[Block], op: &Op) -> Result<(), NoMemory>
    ensures { OnOk result (types.new ≡ types.old ++ types_of blocks.now op.now) }
{
    match op {
        Op::Call(call) => push_types_of_call(types, formals_called(blocks, call), call),
        _ => push_all(types, fixed_types_of(op)),
    }
}

/// The formals of the block of a call.
pub fn formals_called<'a>(blocks: &'a [Block], call: &BlockCall) -> &'a [Formal]
    ensures { result.now ≡ formals_called blocks.now call.now }
{
    match blocks.get(call.block as usize) {
        Some(block) => block.formals.as_slice(),
        None => &[],
    }
}

fn push_all(types: &mut List<StType>, more: &[StType]) -> Result<(), NoMemory>
    ensures { OnOk result (types.new ≡ types.old ++ more.now) }
{
    let mut rest = more;
    while let Some((ty, behind)) = rest.split_first() {
        types.push(*ty)?;
        rest = behind;
    }
    Ok(())
}

/// The types of the temporaries of an instruction that is no `CALL`.
pub fn fixed_types_of(op: &Op) -> &'static [StType]
    ensures { result.now ≡ fixed_types_of op.now }
{
    match op {
        Op::Check(_, arg) => types_checked(arg),
        Op::Assign(operand) | Op::Transfer(operand, _) => types_reached(operand),
        Op::Set(operand) | Op::Reset(operand) => types_fetched(operand, Width::Bit),
        Op::Load(argument) => types_of_load(argument),
        Op::LoadAr(_, from) => types_of_pointer_load(*from),
        Op::StoreAr(_, to) => types_of_pointer_store(*to),
        Op::ExchangeAr => types_of_pointer_exchange(),
        Op::OpenDb(block) | Op::OpenDi(block) => types_of_block_open(*block),
        Op::ExchangeDb => types_of_block_exchange(),
        Op::Bracket(_) => types_of_bracket(),
        Op::EdgeUp(operand) | Op::EdgeDown(operand) => types_of_edge(operand),
        Op::Arith(row) => types_of_calculated(*row),
        Op::Compare(_, width) => types_of_compared(*width),
        Op::Shift(row, count) => types_of_shift(*row, *count),
        Op::Rlda | Op::Rrda => types_through_cc1(),
        Op::Logic(row, constant) => types_of_logic(*row, *constant),
        Op::Unary(row) => types_of_unary(*row),
        Op::Tak => types_of_exchange(),
        Op::Jump(test, _) => types_of_jump(*test),
        Op::Loop(_) | Op::BlockEndIf => types_of_test(),
        Op::JumpList(_, _) => types_of_list(),
        Op::CallIf(_) => types_of_call_if(),
        _ => &[],
    }
}

/// The types of the temporaries of an instruction on ACCU1 alone.
fn types_of_unary(row: UnaryRow) -> &'static [StType]
    ensures { result.now ≡ types_of_unary row }
{
    match row {
        UnaryRow::Bti => types_of_bti(),
        UnaryRow::Btd => types_of_btd(),
        UnaryRow::Itb => types_of_itb(),
        UnaryRow::Dtb => types_of_dtb(),
        UnaryRow::Negi => types_of_negated(Width::Word),
        UnaryRow::Negd => types_of_negated(Width::Dword),
        UnaryRow::Itd | UnaryRow::Invi | UnaryRow::Invd | UnaryRow::Caw | UnaryRow::Cad => &[],
    }
}

/// Temporaries of these types, in a unit with these formals.
fn temporaries(alloc: Global, formals: &[Local], types: &[StType]) -> Result<List<Local>, NoMemory>
    ensures locals { IfOk result (λ locals. locals ≡ temporaries (keys_of formals.now) 0 types.now) }
    ensures few { OnOk result (length types.now < 2 ^ 32) }
{
    let mut locals = List::new(alloc);
    let mut number: u32 = 0;
    let mut rest = types;
    while let Some((ty, behind)) = rest.split_first() {
        number = number_after(alloc, formals, number)?;
        let name = temporary_name(alloc, number)?;
        locals.push(Local { name, ty: *ty })?;
        rest = behind;
    }
    Ok(locals)
}

/// The next number after one whose temporary has the name of no formal.
fn number_after(alloc: Global, formals: &[Local], number: u32) -> Result<u32, NoMemory>
    ensures next { IfOk result (λ next. next ≡ number_after (keys_of formals.now) number) }
    ensures few { IfOk result (λ next. next < 2 ^ 32) }
{
    let mut number = number;
    let mut rest = formals;
    while let Some((_, behind)) = rest.split_first() {
        let next = number.checked_add(1).ok_or(NoMemory)?;
        let name = temporary_name(alloc, next)?;
        if !has_name(alloc, formals, name.as_slice())? {
            return Ok(next);
        }
        number = next;
        rest = behind;
    }
    number.checked_add(1).ok_or(NoMemory)
}

/// The name of the temporary of a number.
fn temporary_name(alloc: Global, number: u32) -> Result<List<u8>, NoMemory>
    ensures { IfOk result (λ name. name ≡ temporary_name number) }
{
    let mut buffer = Buffer::new();
    let digits = buffer.format(number).as_bytes();
    let mut name = Vec::with_capacity(alloc, digits.len() + 1)?;
    name.push(b'T')?;
    name.extend_from_slice(digits)?;
    Ok(List::from_vec(name))
}
