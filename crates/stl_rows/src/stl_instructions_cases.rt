//! Cases for what no clause says: that the table and the forms of operands give the instructions that the
//! language asks for.
use crate::wants::{wants, wants_text};
use memory_areas::AreaName;
use s7_base::{Check, Line, NoMemory, Reason, Rejection, Width};
use status_word::Test;
use std::alloc::Global;
use std::process::Abort;
use std::test::Fail;
use stl_instructions::instruction;
use stl_lexer::tokens;
use stl_mnemonics::mnemonic_named;
use stl_statement_grammar::Mnemonic;
use stl_tree::{Ar, Constant, JumpTest, RawInstr, RawName, RawOp, RawOperand, RawPlace};

/// The operand that a case wants.
#[derive(Clone, Copy, PartialEq)]
pub enum Wanted {
    Nothing,
    Bit(AreaName, u32, u32),
    Place(AreaName, Width, u32),

    /// A data block, a width, a byte and a bit of it.
    InBlock(u32, Width, u32, u32),
    OpenDi(u32),
    Status(Test),

    /// A plain number, by its pattern.
    Number(u32),

    /// A constant that is no plain number, by its width and its pattern.
    Value(Width, u32),

    /// A pointer: the code of its area, or 0, a byte and a bit.
    Pointer(u8, u32, u32),

    /// The other address register.
    OtherAr,

    /// An area and a width, and the area and the byte of a pointer.
    ByMemory(AreaName, Width, AreaName, u32),

    /// An area and a width, and the byte and the bit of an offset.
    ByRegister(AreaName, Width, Ar, u32, u32),
    Crossing(Width, Ar, u32, u32),

    /// The area and the byte of a word.
    OpenDbBy(AreaName, u32),
    OpenDiBy(AreaName, u32),
}

use Wanted::{
    Bit, ByMemory, ByRegister, Crossing, InBlock, Nothing, Number, OpenDbBy, OpenDi, OpenDiBy,
    OtherAr, Place, Pointer, Status, Value,
};

/// A case: a statement without its `;`, the name of its mnemonic, what that is, and the operand.
pub type Case = (&'static [u8], &'static [u8], Mnemonic, Wanted);

const AND: Mnemonic = Mnemonic::Check(Check::A);

const OR: Mnemonic = Mnemonic::Check(Check::O);

static MNEMONICS: [Case; 27] = [
    (b"A I 0.0", b"A", AND, Bit(AreaName::I, 0, 0)),
    (
        b"AN I 0.1",
        b"AN",
        Mnemonic::Check(Check::An),
        Bit(AreaName::I, 0, 1),
    ),
    (b"O Q 4.7", b"O", OR, Bit(AreaName::Q, 4, 7)),
    (
        b"ON M 8191.7",
        b"ON",
        Mnemonic::Check(Check::On),
        Bit(AreaName::M, 8191, 7),
    ),
    (
        b"X Q 2047.0",
        b"X",
        Mnemonic::Check(Check::X),
        Bit(AreaName::Q, 2047, 0),
    ),
    (
        b"XN M 7.7",
        b"XN",
        Mnemonic::Check(Check::Xn),
        Bit(AreaName::M, 7, 7),
    ),
    (b"O", b"O", OR, Nothing),
    (b"A(", b"A(", Mnemonic::Bracket(Check::A), Nothing),
    (b"AN(", b"AN(", Mnemonic::Bracket(Check::An), Nothing),
    (b"O(", b"O(", Mnemonic::Bracket(Check::O), Nothing),
    (b"ON(", b"ON(", Mnemonic::Bracket(Check::On), Nothing),
    (b"X(", b"X(", Mnemonic::Bracket(Check::X), Nothing),
    (b"XN(", b"XN(", Mnemonic::Bracket(Check::Xn), Nothing),
    (b")", b")", Mnemonic::Close, Nothing),
    (b"= Q 4.0", b"=", Mnemonic::Assign, Bit(AreaName::Q, 4, 0)),
    (b"S M 0.0", b"S", Mnemonic::Set, Bit(AreaName::M, 0, 0)),
    (b"R M 0.1", b"R", Mnemonic::Reset, Bit(AreaName::M, 0, 1)),
    (b"SET", b"SET", Mnemonic::SetRlo, Nothing),
    (b"CLR", b"CLR", Mnemonic::ClearRlo, Nothing),
    (b"NOT", b"NOT", Mnemonic::NotRlo, Nothing),
    (b"SAVE", b"SAVE", Mnemonic::Save, Nothing),
    (b"FP M 0.2", b"FP", Mnemonic::EdgeUp, Bit(AreaName::M, 0, 2)),
    (
        b"FN M 0.3",
        b"FN",
        Mnemonic::EdgeDown,
        Bit(AreaName::M, 0, 3),
    ),
    (b"NOP 0", b"NOP", Mnemonic::Nop, Number(0)),
    (b"NOP 1", b"NOP", Mnemonic::Nop, Number(1)),
    (b"BLD 255", b"BLD", Mnemonic::Nop, Number(255)),
    (b"BLD 7", b"BLD", Mnemonic::Nop, Number(7)),
];

/// Ways to write one instruction: any case, blanks, ends of lines, attributes and leading zeros.
static SPELLINGS: [Case; 18] = [
    (b"a i0.0", b"A", AND, Bit(AreaName::I, 0, 0)),
    (b"A I\n0.0", b"A", AND, Bit(AreaName::I, 0, 0)),
    (b"A{x} I 007.07", b"A", AND, Bit(AreaName::I, 7, 7)),
    (b"o q4.0", b"O", OR, Bit(AreaName::Q, 4, 0)),
    (b"=Q 4.0", b"=", Mnemonic::Assign, Bit(AreaName::Q, 4, 0)),
    (b"A (", b"A(", Mnemonic::Bracket(Check::A), Nothing),
    (b"an\t(", b"AN(", Mnemonic::Bracket(Check::An), Nothing),
    (b"O // x\n(", b"O(", Mnemonic::Bracket(Check::O), Nothing),
    (b"xn{x}(", b"XN(", Mnemonic::Bracket(Check::Xn), Nothing),
    (b"NOP -0", b"NOP", Mnemonic::Nop, Number(0)),
    (b"nop 0255", b"NOP", Mnemonic::Nop, Number(255)),
    (b"NOP{x}0", b"NOP", Mnemonic::Nop, Number(0)),
    (b"A==0", b"A", AND, Status(Test::Eq)),
    (b"A ==\n0", b"A", AND, Status(Test::Eq)),
    (b"A >{x}0", b"A", AND, Status(Test::Gt)),
    (b"A br", b"A", AND, Status(Test::Br)),
    (b"O ov", b"O", OR, Status(Test::Ov)),
    (b"Set", b"SET", Mnemonic::SetRlo, Nothing),
];

/// A test of the status word, as it is written.
type Question = (&'static [u8], Test);

static STATUS_OPERANDS: [Question; 10] = [
    (b"==0", Test::Eq),
    (b"<>0", Test::Ne),
    (b">0", Test::Gt),
    (b"<0", Test::Lt),
    (b">=0", Test::Ge),
    (b"<=0", Test::Le),
    (b"UO", Test::Uo),
    (b"OV", Test::Ov),
    (b"OS", Test::Os),
    (b"BR", Test::Br),
];

static CHECKS: [(&[u8], Check); 6] = [
    (b"A", Check::A),
    (b"AN", Check::An),
    (b"O", Check::O),
    (b"ON", Check::On),
    (b"X", Check::X),
    (b"XN", Check::Xn),
];

/// Texts that are no instruction; a source may have them where a statement begins.
static BAD: [&[u8]; 2] = [b"", b"NETWORK"];

fn place_of(place: &RawPlace) -> Option<Wanted> {
    match place {
        RawPlace {
            block: None,
            area,
            width: Width::Bit,
            byte,
            bit,
        } => Some(Bit(*area, *byte, *bit)),
        RawPlace {
            block: None,
            area,
            width,
            byte,
            bit: 0,
        } => Some(Place(*area, *width, *byte)),
        RawPlace {
            block: Some(number),
            area: AreaName::Db,
            width,
            byte,
            bit,
        } => Some(InBlock(*number, *width, *byte, *bit)),
        _ => None,
    }
}

fn constant_of(constant: &Constant) -> Option<Wanted> {
    match (constant.signed, constant.binary) {
        (true, false) if constant.width == Width::Word => Some(Number(constant.value)),
        (false, false) => Some(Value(constant.width, constant.value)),
        _ => None,
    }
}

/// The operand, where it is one that can be wanted.
fn operand_of(operand: &RawOperand) -> Option<Wanted> {
    match operand {
        RawOperand::Missing => Some(Nothing),
        RawOperand::At(place) => place_of(place),
        RawOperand::Flag(test) => Some(Status(*test)),
        RawOperand::OpenDi(RawName::Number(number)) => Some(OpenDi(*number)),
        RawOperand::Constant(constant) => constant_of(constant),
        RawOperand::Pointer(pointer) => Some(Pointer(pointer.code, pointer.byte, pointer.bit)),
        RawOperand::OtherAr => Some(OtherAr),
        RawOperand::ByMemory(area, width, at) => Some(ByMemory(*area, *width, at.area, at.byte)),
        RawOperand::ByRegister(area, width, register, offset) => {
            Some(ByRegister(*area, *width, *register, offset.byte, offset.bit))
        }
        RawOperand::Crossing(width, register, offset) => {
            Some(Crossing(*width, *register, offset.byte, offset.bit))
        }
        RawOperand::OpenDbBy(at) => Some(OpenDbBy(at.area, at.byte)),
        RawOperand::OpenDiBy(at) => Some(OpenDiBy(at.area, at.byte)),
        _ => None,
    }
}

/// Tests whether an instruction has this mnemonic and this operand.
fn wants_op(
    rt: &impl Abort,
    text: &[u8],
    op: &RawOp,
    (name, what): (&[u8], Mnemonic),
    operand: Wanted,
) {
    let mnemonic = op.mnemonic.as_slice();
    wants_text(rt, text, mnemonic, name);
    wants(rt, &text, &mnemonic_named(mnemonic), &Some(what));
    wants(
        rt,
        &text,
        &(operand_of(&op.operand) == Some(operand)),
        &true,
    );
}

/// The instruction that a text is.
fn read(alloc: Global, text: &[u8]) -> Result<RawInstr, Rejection> {
    let tokens = tokens(alloc, text)?;
    instruction(alloc, tokens.as_slice())
}

/// Tests whether a statement on line 1 is this instruction.
fn wants_instruction(
    rt: &impl Abort,
    alloc: Global,
    text: &[u8],
    mnemonic: (&[u8], Mnemonic),
    operand: Wanted,
) -> Result<(), Rejection> {
    let found = read(alloc, text)?;
    let place = (found.label.is_none(), found.line);
    wants(rt, &text, &place, &(true, Line(1)));
    wants_op(rt, text, &found.op, mnemonic, operand);
    Ok(())
}

pub fn want_instructions(rt: &impl Abort, alloc: Global, rows: &[Case]) -> Result<(), Rejection> {
    for (text, name, what, operand) in rows {
        wants_instruction(rt, alloc, text, (*name, *what), *operand)?;
    }
    Ok(())
}

#[test]
fn reads_bit_logic(rt: HostRuntime) -> Result<(), Fail> {
    want_instructions(&rt, rt.alloc(), &MNEMONICS)?;
    want_instructions(&rt, rt.alloc(), &SPELLINGS)?;
    Ok(())
}

/// A mnemonic and its operand, with a blank between.
fn statement(alloc: Global, name: &[u8], operand: &[u8]) -> Result<Vec<u8>, NoMemory> {
    let mut text = Vec::from_slice(alloc, name)?;
    text.push(b' ')?;
    text.extend_from_slice(operand)?;
    Ok(text)
}

/// Tests whether a check has a test of the status word as its operand.
fn wants_question(
    rt: &impl Abort,
    alloc: Global,
    name: &[u8],
    check: Check,
    question: &Question,
) -> Result<(), Rejection> {
    let (operand, test) = question;
    let text = statement(alloc, name, operand)?;
    let what = Mnemonic::Check(check);
    wants_instruction(rt, alloc, text.as_slice(), (name, what), Status(*test))
}

/// Tests whether a check takes each of these tests.
fn want_questions(
    rt: &impl Abort,
    alloc: Global,
    name: &[u8],
    check: Check,
    questions: &[Question],
) -> Result<(), Rejection> {
    for question in questions {
        wants_question(rt, alloc, name, check, question)?;
    }
    Ok(())
}

fn want_checks(rt: &impl Abort, alloc: Global, checks: &[(&[u8], Check)]) -> Result<(), Rejection> {
    for (name, check) in checks {
        want_questions(rt, alloc, name, *check, &STATUS_OPERANDS)?;
    }
    Ok(())
}

#[test]
fn reads_status_operands(rt: HostRuntime) -> Result<(), Fail> {
    want_checks(&rt, rt.alloc(), &CHECKS)?;
    Ok(())
}

/// A jump: the name of its mnemonic, and what that is.
type Jump = (&'static [u8], Mnemonic);

static JUMPS: [Jump; 18] = [
    (b"JU", Mnemonic::Jump(JumpTest::Always)),
    (b"JC", Mnemonic::Jump(JumpTest::Rlo(true))),
    (b"JCN", Mnemonic::Jump(JumpTest::Rlo(false))),
    (b"JCB", Mnemonic::Jump(JumpTest::RloSaved(true))),
    (b"JNB", Mnemonic::Jump(JumpTest::RloSaved(false))),
    (b"JBI", Mnemonic::Jump(JumpTest::Br(true))),
    (b"JNBI", Mnemonic::Jump(JumpTest::Br(false))),
    (b"JO", Mnemonic::Jump(JumpTest::Overflow)),
    (b"JOS", Mnemonic::Jump(JumpTest::StoredOverflow)),
    (b"JZ", Mnemonic::Jump(JumpTest::Result(Test::Eq))),
    (b"JN", Mnemonic::Jump(JumpTest::Result(Test::Ne))),
    (b"JP", Mnemonic::Jump(JumpTest::Result(Test::Gt))),
    (b"JM", Mnemonic::Jump(JumpTest::Result(Test::Lt))),
    (b"JPZ", Mnemonic::Jump(JumpTest::Result(Test::Ge))),
    (b"JMZ", Mnemonic::Jump(JumpTest::Result(Test::Le))),
    (b"JUO", Mnemonic::Jump(JumpTest::Result(Test::Uo))),
    (b"LOOP", Mnemonic::Loop),
    (b"JL", Mnemonic::JumpList),
];

/// The label that each of these jumps has.
const TARGET: &[u8] = b"Ju_1";

static BLOCK_ENDS: [Case; 3] = [
    (b"BE", b"BE", Mnemonic::BlockEnd, Nothing),
    (b"BEU", b"BEU", Mnemonic::BlockEnd, Nothing),
    (b"bec", b"BEC", Mnemonic::BlockEndIf, Nothing),
];

/// A statement with a label, the label, and the name of its mnemonic.
type Labelled = (&'static [u8], &'static [u8], &'static [u8]);

static LABELS: [Labelled; 6] = [
    (b"a: SET", b"a", b"SET"),
    (b"A1_z :jc a", b"A1_z", b"JC"),
    (b"_\n:\nBE", b"_", b"BE"),
    (b"A: A I 0.0", b"A", b"A"),
    (b"loop: LOOP loop", b"loop", b"LOOP"),
    (b"x: = Q 4.0", b"x", b"="),
];

/// The label that an operand is.
fn label_in(operand: &RawOperand) -> &[u8] {
    match operand {
        RawOperand::Label(label) => label.as_slice(),
        _ => b"",
    }
}

/// The label before an instruction.
fn label_before(raw: &RawInstr) -> &[u8] {
    match &raw.label {
        Some(label) => label.as_slice(),
        None => b"",
    }
}

fn wants_jump(rt: &impl Abort, alloc: Global, jump: &Jump) -> Result<(), Rejection> {
    let (name, what) = jump;
    let text = statement(alloc, name, TARGET)?;
    let found = read(alloc, text.as_slice())?;
    wants_text(rt, name, found.op.mnemonic.as_slice(), name);
    wants_text(rt, name, label_in(&found.op.operand), TARGET);
    wants(rt, name, &mnemonic_named(name), &Some(*what));
    Ok(())
}

fn want_jumps(rt: &impl Abort, alloc: Global, rows: &[Jump]) -> Result<(), Rejection> {
    for jump in rows {
        wants_jump(rt, alloc, jump)?;
    }
    Ok(())
}

fn want_labels(rt: &impl Abort, alloc: Global, rows: &[Labelled]) -> Result<(), Rejection> {
    for (text, label, name) in rows {
        let found = read(alloc, text)?;
        wants_text(rt, text, label_before(&found), label);
        wants_text(rt, text, found.op.mnemonic.as_slice(), name);
    }
    Ok(())
}

#[test]
fn reads_jumps_and_labels(rt: HostRuntime) -> Result<(), Fail> {
    want_jumps(&rt, rt.alloc(), &JUMPS)?;
    want_instructions(&rt, rt.alloc(), &BLOCK_ENDS)?;
    want_labels(&rt, rt.alloc(), &LABELS)?;
    Ok(())
}

fn want_bad(rt: &impl Abort, alloc: Global, rows: &[&[u8]]) {
    let bad = Rejection::Refused(Line(1), Reason::BadStatement);
    for text in rows {
        wants(rt, text, &read(alloc, text).err(), &Some(bad));
    }
}

#[test]
fn refuses_what_is_no_instruction(rt: HostRuntime) -> Result<(), Fail> {
    want_bad(&rt, rt.alloc(), &BAD);
    Ok(())
}
