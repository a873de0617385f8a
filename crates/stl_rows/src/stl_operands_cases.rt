//! Cases for what no clause says: that the instructions on the accumulators have the operands and constants
//! that the language asks for.
use crate::stl_instructions_cases::Wanted::{Bit, InBlock, Nothing, OpenDi, Place, Value};
use crate::stl_instructions_cases::{Case, want_instructions};
use memory_areas::AreaName;
use s7_base::{Check, Width};
use status_word::Test;
use std::test::Fail;
use stl_statement_grammar::Mnemonic;
use stl_tree::{Arith, LogicRow, ShiftRow, UnaryRow};

/// Mnemonics without an operand.
static ALONE: [Case; 53] = [
    (b"+I", b"+I", Mnemonic::Arith(Arith::AddI), Nothing),
    (b"+D", b"+D", Mnemonic::Arith(Arith::AddD), Nothing),
    (b"-I", b"-I", Mnemonic::Arith(Arith::SubI), Nothing),
    (b"-D", b"-D", Mnemonic::Arith(Arith::SubD), Nothing),
    (b"*I", b"*I", Mnemonic::Arith(Arith::MulI), Nothing),
    (b"*D", b"*D", Mnemonic::Arith(Arith::MulD), Nothing),
    (b"/I", b"/I", Mnemonic::Arith(Arith::DivI), Nothing),
    (b"/D", b"/D", Mnemonic::Arith(Arith::DivD), Nothing),
    (b"MOD", b"MOD", Mnemonic::Arith(Arith::Mod), Nothing),
    (
        b"==I",
        b"==I",
        Mnemonic::Compare(Test::Eq, Width::Word),
        Nothing,
    ),
    (
        b"==D",
        b"==D",
        Mnemonic::Compare(Test::Eq, Width::Dword),
        Nothing,
    ),
    (
        b"<>I",
        b"<>I",
        Mnemonic::Compare(Test::Ne, Width::Word),
        Nothing,
    ),
    (
        b"<>D",
        b"<>D",
        Mnemonic::Compare(Test::Ne, Width::Dword),
        Nothing,
    ),
    (
        b">I",
        b">I",
        Mnemonic::Compare(Test::Gt, Width::Word),
        Nothing,
    ),
    (
        b">D",
        b">D",
        Mnemonic::Compare(Test::Gt, Width::Dword),
        Nothing,
    ),
    (
        b"<I",
        b"<I",
        Mnemonic::Compare(Test::Lt, Width::Word),
        Nothing,
    ),
    (
        b"<D",
        b"<D",
        Mnemonic::Compare(Test::Lt, Width::Dword),
        Nothing,
    ),
    (
        b">=I",
        b">=I",
        Mnemonic::Compare(Test::Ge, Width::Word),
        Nothing,
    ),
    (
        b">=D",
        b">=D",
        Mnemonic::Compare(Test::Ge, Width::Dword),
        Nothing,
    ),
    (
        b"<=I",
        b"<=I",
        Mnemonic::Compare(Test::Le, Width::Word),
        Nothing,
    ),
    (
        b"<=D",
        b"<=D",
        Mnemonic::Compare(Test::Le, Width::Dword),
        Nothing,
    ),
    (b"SLW", b"SLW", Mnemonic::Shift(ShiftRow::Slw), Nothing),
    (b"SRW", b"SRW", Mnemonic::Shift(ShiftRow::Srw), Nothing),
    (b"SSI", b"SSI", Mnemonic::Shift(ShiftRow::Ssi), Nothing),
    (b"SLD", b"SLD", Mnemonic::Shift(ShiftRow::Sld), Nothing),
    (b"SRD", b"SRD", Mnemonic::Shift(ShiftRow::Srd), Nothing),
    (b"SSD", b"SSD", Mnemonic::Shift(ShiftRow::Ssd), Nothing),
    (b"RLD", b"RLD", Mnemonic::Shift(ShiftRow::Rld), Nothing),
    (b"RRD", b"RRD", Mnemonic::Shift(ShiftRow::Rrd), Nothing),
    (b"RLDA", b"RLDA", Mnemonic::Rlda, Nothing),
    (b"RRDA", b"RRDA", Mnemonic::Rrda, Nothing),
    (b"AW", b"AW", Mnemonic::Logic(LogicRow::Aw), Nothing),
    (b"OW", b"OW", Mnemonic::Logic(LogicRow::Ow), Nothing),
    (b"XOW", b"XOW", Mnemonic::Logic(LogicRow::Xow), Nothing),
    (b"AD", b"AD", Mnemonic::Logic(LogicRow::Ad), Nothing),
    (b"OD", b"OD", Mnemonic::Logic(LogicRow::Od), Nothing),
    (b"XOD", b"XOD", Mnemonic::Logic(LogicRow::Xod), Nothing),
    (b"BTI", b"BTI", Mnemonic::Unary(UnaryRow::Bti), Nothing),
    (b"BTD", b"BTD", Mnemonic::Unary(UnaryRow::Btd), Nothing),
    (b"ITB", b"ITB", Mnemonic::Unary(UnaryRow::Itb), Nothing),
    (b"DTB", b"DTB", Mnemonic::Unary(UnaryRow::Dtb), Nothing),
    (b"ITD", b"ITD", Mnemonic::Unary(UnaryRow::Itd), Nothing),
    (b"INVI", b"INVI", Mnemonic::Unary(UnaryRow::Invi), Nothing),
    (b"INVD", b"INVD", Mnemonic::Unary(UnaryRow::Invd), Nothing),
    (b"CAW", b"CAW", Mnemonic::Unary(UnaryRow::Caw), Nothing),
    (b"CAD", b"CAD", Mnemonic::Unary(UnaryRow::Cad), Nothing),
    (b"NEGI", b"NEGI", Mnemonic::Unary(UnaryRow::Negi), Nothing),
    (b"NEGD", b"NEGD", Mnemonic::Unary(UnaryRow::Negd), Nothing),
    (b"TAK", b"TAK", Mnemonic::Tak, Nothing),
    (b"PUSH", b"PUSH", Mnemonic::Push, Nothing),
    (b"POP", b"POP", Mnemonic::Pop, Nothing),
    (b"+{x}i", b"+I", Mnemonic::Arith(Arith::AddI), Nothing),
    (b"+\nI", b"+I", Mnemonic::Arith(Arith::AddI), Nothing),
];

/// Operands that are read and then refused for their width or address, and one that no data block has.
static PLACES: [Case; 11] = [
    (b"L M 0.0", b"L", Mnemonic::Load, Bit(AreaName::M, 0, 0)),
    (
        b"A MW 0",
        b"A",
        Mnemonic::Check(Check::A),
        Place(AreaName::M, Width::Word, 0),
    ),
    (
        b"A I 0.8",
        b"A",
        Mnemonic::Check(Check::A),
        Bit(AreaName::I, 0, 8),
    ),
    (
        b"L IW 2047",
        b"L",
        Mnemonic::Load,
        Place(AreaName::I, Width::Word, 2047),
    ),
    (
        b"L LB 256",
        b"L",
        Mnemonic::Load,
        Place(AreaName::L, Width::Byte, 256),
    ),
    (
        b"L DBW 65535",
        b"L",
        Mnemonic::Load,
        Place(AreaName::Db, Width::Word, 65535),
    ),
    (
        b"T DID4294967296",
        b"T",
        Mnemonic::Transfer,
        Place(AreaName::Di, Width::Dword, 4294967295),
    ),
    (
        b"L DB0.DBD 8",
        b"L",
        Mnemonic::Load,
        InBlock(0, Width::Dword, 8, 0),
    ),
    (b"opn di65536", b"OPN", Mnemonic::Open, OpenDi(65536)),
    (
        b"AW L#5",
        b"AW",
        Mnemonic::Logic(LogicRow::Aw),
        Value(Width::Dword, 5),
    ),
    (
        b"OD 'AB'",
        b"OD",
        Mnemonic::Logic(LogicRow::Od),
        Value(Width::Word, 16706),
    ),
];

#[test]
fn reads_instructions_in_the_accumulators(rt: HostRuntime) -> Result<(), Fail> {
    want_instructions(&rt, rt.alloc(), &ALONE)?;
    want_instructions(&rt, rt.alloc(), &PLACES)?;
    Ok(())
}
