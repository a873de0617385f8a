//! The instruction of a mnemonic and its operand.
ghost use Rattle.std.specs.Prelude.{◌≡◌, ◌≢◌, Some, None, if◌then◌else◌};
ghost use Rattle.s7_base.specs.declared.word.Width.TheVariants as wide;
ghost use Rattle.stl_rules.specs.Programs.{adding, combining, comparing, is_compared, loading_pointer, moving_pointer, op_by, op_or_rule, op_with, or_bad_operand, outside_rule, pointer_op, shifting, some_place, some_pointer, storing_pointer, with_number, within};
ghost use Rattle.stl_rules.specs.declared.resolved_operand.ResolvedOperand.TheVariants as behind;
ghost use Rattle.stl_tree.specs.Accepted.{is_of_pointers};
ghost use Rattle.memory_areas.specs.Access.{bits_wide};
ghost use Rattle.stl_tree.specs.Accumulators.{signed_part};
ghost use Rattle.stl_tree.specs.Arithmetic.{is_comparison};
ghost use Rattle.stl_tree.specs.declared.program.Op.{Op};
ghost use Rattle.stl_tree.specs.declared.program.Op.TheVariants as op;
ghost use Rattle.stl_tree.specs.declared.program.Operand.{Operand};

use crate::pointer::pointer_constant;
use memory_areas::AreaName;
use s7_base::{Check, Reason, Width};
use status_word::Test;
use stl_rules::ResolvedOperand;
use stl_statement_grammar::Mnemonic;
use stl_tree::{
    Ar, ArLoad, ArStore, BitArg, Constant, LoadArg, LogicRow, Op, OpenArg, Operand, ShiftRow,
    may_hold_pointers,
};
use symbol_layout::{fits, value_in};

/// Whether a test is one of the six signs of comparisons.
fn is_comparison(test: Test) -> bool
    ensures { result ≡ is_comparison test }
{
    match test {
        Test::Eq | Test::Ne | Test::Gt | Test::Lt | Test::Ge | Test::Le => true,
        Test::Uo | Test::Ov | Test::Os | Test::Br => false,
    }
}

/// Whether a test and a width are a comparison of words or of double words.
fn is_compared(test: Test, width: Width) -> bool
    ensures { result ≡ is_compared test width }
{
    match width {
        Width::Word | Width::Dword => is_comparison(test),
        Width::Bit | Width::Byte => false,
    }
}

fn comparing(test: Test, width: Width) -> Option<Op>
    ensures { result ≡ comparing test width behind.Nothing }
{
    if is_compared(test, width) {
        Some(Op::Compare(test, width))
    } else {
        None
    }
}

/// An instruction that takes no operand.
fn with_nothing(what: Mnemonic) -> Option<Op>
    ensures { result ≡ op_with what behind.Nothing }
{
    match what {
        Mnemonic::Check(Check::O) => Some(Op::OrAlone),
        Mnemonic::Bracket(check) => Some(Op::Bracket(check)),
        Mnemonic::Close => Some(Op::Close),
        Mnemonic::SetRlo => Some(Op::SetRlo),
        Mnemonic::ClearRlo => Some(Op::ClearRlo),
        Mnemonic::NotRlo => Some(Op::NotRlo),
        Mnemonic::Save => Some(Op::Save),
        Mnemonic::Arith(row) => Some(Op::Arith(row)),
        Mnemonic::Compare(test, width) => comparing(test, width),
        Mnemonic::Shift(row) => Some(Op::Shift(row, None)),
        Mnemonic::Rlda => Some(Op::Rlda),
        Mnemonic::Rrda => Some(Op::Rrda),
        Mnemonic::Logic(row) => Some(Op::Logic(row, None)),
        Mnemonic::Unary(row) => Some(Op::Unary(row)),
        Mnemonic::Tak => Some(Op::Tak),
        Mnemonic::Push => Some(Op::Push),
        Mnemonic::Pop => Some(Op::Pop),
        Mnemonic::LoadAr(ar) => Some(Op::LoadAr(ar, ArLoad::Accu1)),
        Mnemonic::StoreAr(ar) => Some(Op::StoreAr(ar, ArStore::Accu1)),
        Mnemonic::ExchangeAr => Some(Op::ExchangeAr),
        Mnemonic::AddAr(ar) => Some(Op::AddAr(ar, None)),
        Mnemonic::ExchangeDb => Some(Op::ExchangeDb),
        Mnemonic::BlockEnd => Some(Op::BlockEnd),
        Mnemonic::BlockEndIf => Some(Op::BlockEndIf),
        _ => None,
    }
}

/// An instruction on a bit.
fn with_bit(what: Mnemonic, bit: Operand) -> Option<Op>
    ensures { result ≡ op_with what (behind.At bit wide.Bit) }
{
    match what {
        Mnemonic::Check(check) => Some(Op::Check(check, BitArg::At(bit))),
        Mnemonic::Assign => Some(Op::Assign(bit)),
        Mnemonic::Set => Some(Op::Set(bit)),
        Mnemonic::Reset => Some(Op::Reset(bit)),
        Mnemonic::EdgeUp => Some(Op::EdgeUp(bit)),
        Mnemonic::EdgeDown => Some(Op::EdgeDown(bit)),
        _ => None,
    }
}

/// Whether the area of an operand is one of those of pointers.
fn is_of_pointers(place: Operand) -> bool
    ensures { result ≡ is_of_pointers place }
{
    match place {
        Operand::Direct(area, _, _)
        | Operand::ByMemory(area, _, _)
        | Operand::ByRegister(area, _, _) => may_hold_pointers(area),
        Operand::Opened(_, _, _) => true,
        Operand::Formal(_) => false,
        Operand::Crossing(_, _) => false,
    }
}

/// Whether an operand is a double word in an area where pointers may be stored.
fn is_pointed(place: Operand, width: Width) -> bool
    ensures { (o : Operand → Op) → (if result then Some (o place) else None) ≡ pointer_op o place width }
{
    match width {
        Width::Dword => is_of_pointers(place),
        Width::Bit | Width::Byte | Width::Word => false,
    }
}

/// An address register is loaded with a pointer in memory.
fn loading_pointer(ar: Ar, place: Operand, width: Width) -> Option<Op>
    ensures { result ≡ loading_pointer ar (behind.At place width) }
{
    if is_pointed(place, width) {
        Some(Op::LoadAr(ar, ArLoad::At(place)))
    } else {
        None
    }
}

/// An address register is stored in memory.
fn storing_pointer(ar: Ar, place: Operand, width: Width) -> Option<Op>
    ensures { result ≡ storing_pointer ar (behind.At place width) }
{
    if is_pointed(place, width) {
        Some(Op::StoreAr(ar, ArStore::At(place)))
    } else {
        None
    }
}

/// An instruction on a byte, a word or a double word.
fn with_place(what: Mnemonic, place: Operand, width: Width) -> Option<Op>
    requires { width ≢ wide.Bit }
    ensures { result ≡ op_with what (behind.At place width) }
{
    match what {
        Mnemonic::Load => Some(Op::Load(LoadArg::At(place, width))),
        Mnemonic::Transfer => Some(Op::Transfer(place, width)),
        Mnemonic::LoadAr(ar) => loading_pointer(ar, place, width),
        Mnemonic::StoreAr(ar) => storing_pointer(ar, place, width),
        _ => None,
    }
}

/// A check of the status word.
fn with_flag(what: Mnemonic, test: Test) -> Option<Op>
    ensures { result ≡ op_with what (behind.Flag test) }
{
    match what {
        Mnemonic::Check(check) => Some(Op::Check(check, BitArg::Flag(test))),
        _ => None,
    }
}

/// An instruction on the whole status word.
fn with_stw(what: Mnemonic) -> Option<Op>
    ensures { result ≡ op_with what behind.Stw }
{
    match what {
        Mnemonic::Load => Some(Op::LoadStw),
        Mnemonic::Transfer => Some(Op::TransferStw),
        _ => None,
    }
}

/// An instruction on the number in the DB register.
fn with_db_number(what: Mnemonic) -> Option<Op>
    ensures { result ≡ op_with what behind.DbNo }
{
    match what {
        Mnemonic::Load => Some(Op::LoadDbNo),
        _ => None,
    }
}

/// An instruction on the number in the DI register.
fn with_di_number(what: Mnemonic) -> Option<Op>
    ensures { result ≡ op_with what behind.DiNo }
{
    match what {
        Mnemonic::Load => Some(Op::LoadDiNo),
        _ => None,
    }
}

/// An instruction that copies AR2 to AR1, or AR1 to AR2.
fn with_other_ar(what: Mnemonic) -> Option<Op>
    ensures { result ≡ op_with what behind.OtherAr }
{
    match what {
        Mnemonic::LoadAr(Ar::One) => Some(Op::LoadAr(Ar::One, ArLoad::OtherAr)),
        Mnemonic::StoreAr(Ar::One) => Some(Op::StoreAr(Ar::One, ArStore::OtherAr)),
        _ => None,
    }
}

/// An instruction that opens the data block of a number.
fn with_db(what: Mnemonic, number: u16) -> Option<Op>
    ensures { result ≡ op_with what (behind.Db number) }
{
    match what {
        Mnemonic::Open => Some(Op::OpenDb(OpenArg::Number(number))),
        _ => None,
    }
}

/// An instruction that opens the instance of a number.
fn with_di(what: Mnemonic, number: u16) -> Option<Op>
    ensures { result ≡ op_with what (behind.Di number) }
{
    match what {
        Mnemonic::Open => Some(Op::OpenDi(OpenArg::Number(number))),
        _ => None,
    }
}

/// An instruction that opens the data block whose number is in a word.
fn with_db_by(what: Mnemonic, number: Operand) -> Option<Op>
    ensures { result ≡ op_with what (behind.DbBy number) }
{
    match what {
        Mnemonic::Open => Some(Op::OpenDb(OpenArg::At(number))),
        _ => None,
    }
}

/// An instruction that opens the instance whose number is in a word.
fn with_di_by(what: Mnemonic, number: Operand) -> Option<Op>
    ensures { result ≡ op_with what (behind.DiBy number) }
{
    match what {
        Mnemonic::Open => Some(Op::OpenDi(OpenArg::At(number))),
        _ => None,
    }
}

/// A constant as a number of 16 bits.
fn word_number(value: u32) -> i16
    ensures { result ≡ signed_part wide.Word value }
{
    ((value & 0xffff) as u16).cast_signed()
}

/// A constant as a number of 32 bits.
fn dword_number(value: u32) -> i32
    ensures { result ≡ signed_part wide.Dword value }
{
    value.cast_signed()
}

/// The addition of a constant: a plain number to the low word, another constant to the whole of ACCU1.
fn adding(constant: Constant) -> Op
    ensures { Some result ≡ adding (behind.Constant constant) }
{
    if constant.signed {
        Op::AddWord(word_number(constant.value))
    } else {
        Op::AddDword(dword_number(constant.value))
    }
}

/// A constant as a number of 8 bits, if it is one.
fn byte_of(constant: Constant) -> Option<u8>
    ensures { result ≡ within 8 constant.value }
{
    if constant.value < 256 {
        Some(constant.value as u8)
    } else {
        None
    }
}

fn incrementing(constant: Constant) -> Option<Op>
    ensures { result ≡ with_number op.Inc (behind.Constant constant) }
{
    Some(Op::Inc(byte_of(constant)?))
}

fn decrementing(constant: Constant) -> Option<Op>
    ensures { result ≡ with_number op.Dec (behind.Constant constant) }
{
    Some(Op::Dec(byte_of(constant)?))
}

fn passing(constant: Constant) -> Option<Op>
    ensures { result ≡ with_number (λ n. op.Nop) (behind.Constant constant) }
{
    match byte_of(constant) {
        Some(_) => Some(Op::Nop),
        None => None,
    }
}

/// An offset is added to an address register.
fn moving_pointer(ar: Ar, constant: Constant) -> Option<Op>
    ensures { result ≡ moving_pointer ar (behind.Constant constant) }
{
    if constant.value < 524_288 {
        Some(Op::AddAr(ar, Some(constant.value)))
    } else {
        None
    }
}

/// A shift or a rotation by a constant.
fn shifting(row: ShiftRow, constant: Constant) -> Option<Op>
    ensures { result ≡ shifting row (behind.Constant constant) }
{
    if constant.value <= u32::from(row.most_steps()) {
        Some(Op::Shift(row, Some(constant.value as u8)))
    } else {
        None
    }
}

/// A number, if it has room in a width.
fn within(width: Width, value: u32) -> Option<u32>
    ensures { result ≡ within (bits_wide width) value }
{
    let has_room = match width {
        Width::Bit => value < 2,
        Width::Byte => value < 256,
        Width::Word => value < 65_536,
        Width::Dword => true,
    };
    if has_room { Some(value) } else { None }
}

/// Word logic with a constant.
fn combining(row: LogicRow, constant: Constant) -> Option<Op>
    ensures { result ≡ combining row (behind.Constant constant) }
{
    let width = row.width();
    if fits(width, constant) {
        let value = within(width, value_in(width, constant))?;
        Some(Op::Logic(row, Some(value)))
    } else {
        None
    }
}

/// An instruction with a constant.
fn with_constant(what: Mnemonic, constant: Constant) -> Option<Op>
    ensures { result ≡ op_with what (behind.Constant constant) }
{
    match what {
        Mnemonic::Load => Some(Op::Load(LoadArg::Constant(constant.value))),
        Mnemonic::Plus => Some(adding(constant)),
        Mnemonic::Inc => incrementing(constant),
        Mnemonic::Dec => decrementing(constant),
        Mnemonic::Shift(row) => shifting(row, constant),
        Mnemonic::Logic(row) => combining(row, constant),
        Mnemonic::LoadAr(ar) => Some(Op::LoadAr(ar, ArLoad::Constant(constant.value))),
        Mnemonic::AddAr(ar) => moving_pointer(ar, constant),
        Mnemonic::Nop => passing(constant),
        _ => None,
    }
}

/// An instruction on a place of a width.
fn with_operand(what: Mnemonic, operand: Operand, width: Width) -> Option<Op>
    ensures { result ≡ op_with what (behind.At operand width) }
{
    match width {
        Width::Bit => with_bit(what, operand),
        Width::Byte | Width::Word | Width::Dword => with_place(what, operand, width),
    }
}

/// A jump to the position of a label; a jump list is made without its `JU`.
fn with_target(what: Mnemonic, to: u32) -> Option<Op>
    ensures { result ≡ op_with what (behind.Target to) }
{
    match what {
        Mnemonic::Jump(test) => Some(Op::Jump(test, to)),
        Mnemonic::Loop => Some(Op::Loop(to)),
        Mnemonic::JumpList => Some(Op::JumpList(0, to)),
        _ => None,
    }
}

/// The instruction of a mnemonic and its operand, if there is one.
#[tactic(auto, using(crate::proofs::Operands::none_fit))]
fn op_with(what: Mnemonic, resolved_operand: ResolvedOperand) -> Option<Op>
    ensures { result ≡ op_with what resolved_operand }
{
    match resolved_operand {
        ResolvedOperand::Nothing => with_nothing(what),
        ResolvedOperand::At(operand, width) => with_operand(what, operand, width),
        ResolvedOperand::Flag(test) => with_flag(what, test),
        ResolvedOperand::Stw => with_stw(what),
        ResolvedOperand::DbNo => with_db_number(what),
        ResolvedOperand::DiNo => with_di_number(what),
        ResolvedOperand::Constant(constant) => with_constant(what, constant),
        ResolvedOperand::Db(number) => with_db(what, number),
        ResolvedOperand::Di(number) => with_di(what, number),
        ResolvedOperand::OtherAr => with_other_ar(what),
        ResolvedOperand::DbBy(number) => with_db_by(what, number),
        ResolvedOperand::DiBy(number) => with_di_by(what, number),
        ResolvedOperand::Target(to) => with_target(what, to),
        ResolvedOperand::Outside(_, _)
        | ResolvedOperand::NoPointer
        | ResolvedOperand::NoNumber
        | ResolvedOperand::Unknown => None,
        ResolvedOperand::Unfit | ResolvedOperand::Unjudged => None,
    }
}

/// The instruction of a mnemonic, if it is one, and its operand.
fn op_by(what: Option<Mnemonic>, resolved_operand: ResolvedOperand) -> Option<Op>
    ensures { result ≡ op_by what resolved_operand }
{
    match what {
        Some(what) => op_with(what, resolved_operand),
        None => None,
    }
}

/// An instruction, or `BadOperand` where the mnemonic does not take the operand.
fn or_bad_operand(op: Option<Op>) -> Result<Op, Reason>
    ensures { result ≡ or_bad_operand op }
{
    op.ok_or(Reason::BadOperand)
}

/// The rule that an operand outside its range breaks: `BadOperand` where its width or kind is wrong too.
fn outside_rule(op: Option<Op>) -> Reason
    ensures { result ≡ outside_rule op }
{
    match op {
        Some(_) => Reason::BadAddress,
        None => Reason::BadOperand,
    }
}

/// The rule that a place outside its area breaks.
fn place_rule(what: Option<Mnemonic>, area: AreaName, width: Width) -> Reason
    ensures { result ≡ outside_rule (op_by what (behind.At (some_place area) width)) }
{
    let some_place = Operand::Direct(area, 0, 0);
    outside_rule(op_by(what, ResolvedOperand::At(some_place, width)))
}

/// The rule that a pointer outside its range breaks.
fn pointer_rule(what: Option<Mnemonic>) -> Reason
    ensures { result ≡ outside_rule (op_by what (behind.Constant some_pointer)) }
{
    outside_rule(op_by(what, ResolvedOperand::Constant(pointer_constant(0))))
}

/// The instruction that a mnemonic and its operand make, or the rule that is broken: `UnknownName`,
/// `BadOperand` or `BadAddress`, of several the one that comes first.
pub fn op_or_rule(what: Option<Mnemonic>, resolved_operand: ResolvedOperand) -> Result<Op, Reason>
    ensures { result ≡ op_or_rule what resolved_operand }
{
    match resolved_operand {
        ResolvedOperand::Unknown => Err(Reason::UnknownName),
        ResolvedOperand::Unfit => Err(Reason::BadOperand),
        ResolvedOperand::NoNumber => Err(Reason::BadAddress),
        ResolvedOperand::Unjudged => Ok(Op::Nop),
        ResolvedOperand::Outside(area, width) => Err(place_rule(what, area, width)),
        ResolvedOperand::NoPointer => Err(pointer_rule(what)),
        _ => or_bad_operand(op_by(what, resolved_operand)),
    }
}
