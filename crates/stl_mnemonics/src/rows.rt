//! The table of mnemonics, and its lines by the first byte of a name.
ghost use Rattle.std.specs.Prelude.{◌≡◌, map};
ghost use Rattle.stl_mnemonics.specs.Rows.{view};
ghost use Rattle.stl_mnemonics.specs.inner.LowBits.{rows_by};

use crate::table::Row;
use s7_base::{Check, Kind, Width};
use status_word::Test;
use stl_statement_grammar::Mnemonic;
use stl_tree::{Ar, Arith, JumpTest, LogicRow, ShiftRow, UnaryRow};

// The mnemonics, by the low five bits of their first byte; a part has the name of a letter or sign with these bits. Of
// two that begin a statement the longer one comes first.

static A_ROWS: [Row; 10] = [
    Row("A", "(", Mnemonic::Bracket(Check::A)),
    Row("A", "", Mnemonic::Check(Check::A)),
    Row("AN", "(", Mnemonic::Bracket(Check::An)),
    Row("AN", "", Mnemonic::Check(Check::An)),
    Row("AW", "", Mnemonic::Logic(LogicRow::Aw)),
    Row("AD", "", Mnemonic::Logic(LogicRow::Ad)),
    Row("ABS", "", Mnemonic::LeftOut(Kind::Real)),
    Row("ASIN", "", Mnemonic::LeftOut(Kind::Real)),
    Row("ACOS", "", Mnemonic::LeftOut(Kind::Real)),
    Row("ATAN", "", Mnemonic::LeftOut(Kind::Real)),
];

static B_ROWS: [Row; 6] = [
    Row("BTI", "", Mnemonic::Unary(UnaryRow::Bti)),
    Row("BTD", "", Mnemonic::Unary(UnaryRow::Btd)),
    Row("BLD", "", Mnemonic::Nop),
    Row("BE", "", Mnemonic::BlockEnd),
    Row("BEU", "", Mnemonic::BlockEnd),
    Row("BEC", "", Mnemonic::BlockEndIf),
];

static C_ROWS: [Row; 10] = [
    Row("CLR", "", Mnemonic::ClearRlo),
    Row("CAW", "", Mnemonic::Unary(UnaryRow::Caw)),
    Row("CAD", "", Mnemonic::Unary(UnaryRow::Cad)),
    Row("CAR", "", Mnemonic::ExchangeAr),
    Row("CDB", "", Mnemonic::ExchangeDb),
    Row("CALL", "", Mnemonic::Call),
    Row("CC", "", Mnemonic::CallIf),
    Row("CU", "", Mnemonic::LeftOut(Kind::Counter)),
    Row("CD", "", Mnemonic::LeftOut(Kind::Counter)),
    Row("COS", "", Mnemonic::LeftOut(Kind::Real)),
];

static D_ROWS: [Row; 3] = [
    Row("DEC", "", Mnemonic::Dec),
    Row("DTB", "", Mnemonic::Unary(UnaryRow::Dtb)),
    Row("DTR", "", Mnemonic::LeftOut(Kind::Real)),
];

static E_ROWS: [Row; 2] = [
    Row("EXP", "", Mnemonic::LeftOut(Kind::Real)),
    Row("ENT", "", Mnemonic::LeftOut(Kind::Accumulators)),
];

static F_ROWS: [Row; 3] = [
    Row("FP", "", Mnemonic::EdgeUp),
    Row("FN", "", Mnemonic::EdgeDown),
    Row("FR", "", Mnemonic::TimerOrCounter),
];

static I_ROWS: [Row; 7] = [
    Row(")", "MCR", Mnemonic::LeftOut(Kind::MasterControl)),
    Row(")", "", Mnemonic::Close),
    Row("INC", "", Mnemonic::Inc),
    Row("ITB", "", Mnemonic::Unary(UnaryRow::Itb)),
    Row("ITD", "", Mnemonic::Unary(UnaryRow::Itd)),
    Row("INVI", "", Mnemonic::Unary(UnaryRow::Invi)),
    Row("INVD", "", Mnemonic::Unary(UnaryRow::Invd)),
];

static J_ROWS: [Row; 20] = [
    Row("*", "I", Mnemonic::Arith(Arith::MulI)),
    Row("*", "D", Mnemonic::Arith(Arith::MulD)),
    Row("*", "R", Mnemonic::LeftOut(Kind::Real)),
    Row("JU", "", Mnemonic::Jump(JumpTest::Always)),
    Row("JC", "", Mnemonic::Jump(JumpTest::Rlo(true))),
    Row("JCN", "", Mnemonic::Jump(JumpTest::Rlo(false))),
    Row("JCB", "", Mnemonic::Jump(JumpTest::RloSaved(true))),
    Row("JNB", "", Mnemonic::Jump(JumpTest::RloSaved(false))),
    Row("JBI", "", Mnemonic::Jump(JumpTest::Br(true))),
    Row("JNBI", "", Mnemonic::Jump(JumpTest::Br(false))),
    Row("JO", "", Mnemonic::Jump(JumpTest::Overflow)),
    Row("JOS", "", Mnemonic::Jump(JumpTest::StoredOverflow)),
    Row("JZ", "", Mnemonic::Jump(JumpTest::Result(Test::Eq))),
    Row("JN", "", Mnemonic::Jump(JumpTest::Result(Test::Ne))),
    Row("JP", "", Mnemonic::Jump(JumpTest::Result(Test::Gt))),
    Row("JM", "", Mnemonic::Jump(JumpTest::Result(Test::Lt))),
    Row("JPZ", "", Mnemonic::Jump(JumpTest::Result(Test::Ge))),
    Row("JMZ", "", Mnemonic::Jump(JumpTest::Result(Test::Le))),
    Row("JUO", "", Mnemonic::Jump(JumpTest::Result(Test::Uo))),
    Row("JL", "", Mnemonic::JumpList),
];

static PLUS_ROWS: [Row; 6] = [
    Row("+", "I", Mnemonic::Arith(Arith::AddI)),
    Row("+", "D", Mnemonic::Arith(Arith::AddD)),
    Row("+", "R", Mnemonic::LeftOut(Kind::Real)),
    Row("+", "AR1", Mnemonic::AddAr(Ar::One)),
    Row("+", "AR2", Mnemonic::AddAr(Ar::Two)),
    Row("+", "", Mnemonic::Plus),
];

static L_ROWS: [Row; 7] = [
    Row("L", "", Mnemonic::Load),
    Row("LAR1", "", Mnemonic::LoadAr(Ar::One)),
    Row("LAR2", "", Mnemonic::LoadAr(Ar::Two)),
    Row("LOOP", "", Mnemonic::Loop),
    Row("LC", "", Mnemonic::TimerOrCounter),
    Row("LN", "", Mnemonic::LeftOut(Kind::Real)),
    Row("LEAVE", "", Mnemonic::LeftOut(Kind::Accumulators)),
];

static M_ROWS: [Row; 7] = [
    Row("-", "I", Mnemonic::Arith(Arith::SubI)),
    Row("-", "D", Mnemonic::Arith(Arith::SubD)),
    Row("-", "R", Mnemonic::LeftOut(Kind::Real)),
    Row("MOD", "", Mnemonic::Arith(Arith::Mod)),
    Row("MCR", "(", Mnemonic::LeftOut(Kind::MasterControl)),
    Row("MCRA", "", Mnemonic::LeftOut(Kind::MasterControl)),
    Row("MCRD", "", Mnemonic::LeftOut(Kind::MasterControl)),
];

static N_ROWS: [Row; 5] = [
    Row("NOT", "", Mnemonic::NotRlo),
    Row("NEGI", "", Mnemonic::Unary(UnaryRow::Negi)),
    Row("NEGD", "", Mnemonic::Unary(UnaryRow::Negd)),
    Row("NOP", "", Mnemonic::Nop),
    Row("NEGR", "", Mnemonic::LeftOut(Kind::Real)),
];

static O_ROWS: [Row; 10] = [
    Row("O", "(", Mnemonic::Bracket(Check::O)),
    Row("O", "", Mnemonic::Check(Check::O)),
    Row("ON", "(", Mnemonic::Bracket(Check::On)),
    Row("ON", "", Mnemonic::Check(Check::On)),
    Row("/", "I", Mnemonic::Arith(Arith::DivI)),
    Row("/", "D", Mnemonic::Arith(Arith::DivD)),
    Row("/", "R", Mnemonic::LeftOut(Kind::Real)),
    Row("OW", "", Mnemonic::Logic(LogicRow::Ow)),
    Row("OD", "", Mnemonic::Logic(LogicRow::Od)),
    Row("OPN", "", Mnemonic::Open),
];

static P_ROWS: [Row; 2] = [
    Row("PUSH", "", Mnemonic::Push),
    Row("POP", "", Mnemonic::Pop),
];

static R_ROWS: [Row; 8] = [
    Row("R", "", Mnemonic::Reset),
    Row("RLD", "", Mnemonic::Shift(ShiftRow::Rld)),
    Row("RRD", "", Mnemonic::Shift(ShiftRow::Rrd)),
    Row("RLDA", "", Mnemonic::Rlda),
    Row("RRDA", "", Mnemonic::Rrda),
    Row("RND", "+", Mnemonic::LeftOut(Kind::Real)),
    Row("RND", "-", Mnemonic::LeftOut(Kind::Real)),
    Row("RND", "", Mnemonic::LeftOut(Kind::Real)),
];

static S_ROWS: [Row; 17] = [
    Row("S", "", Mnemonic::Set),
    Row("SET", "", Mnemonic::SetRlo),
    Row("SAVE", "", Mnemonic::Save),
    Row("SLW", "", Mnemonic::Shift(ShiftRow::Slw)),
    Row("SRW", "", Mnemonic::Shift(ShiftRow::Srw)),
    Row("SSI", "", Mnemonic::Shift(ShiftRow::Ssi)),
    Row("SLD", "", Mnemonic::Shift(ShiftRow::Sld)),
    Row("SRD", "", Mnemonic::Shift(ShiftRow::Srd)),
    Row("SSD", "", Mnemonic::Shift(ShiftRow::Ssd)),
    Row("SP", "", Mnemonic::LeftOut(Kind::Timer)),
    Row("SE", "", Mnemonic::LeftOut(Kind::Timer)),
    Row("SD", "", Mnemonic::LeftOut(Kind::Timer)),
    Row("SS", "", Mnemonic::LeftOut(Kind::Timer)),
    Row("SF", "", Mnemonic::LeftOut(Kind::Timer)),
    Row("SQR", "", Mnemonic::LeftOut(Kind::Real)),
    Row("SQRT", "", Mnemonic::LeftOut(Kind::Real)),
    Row("SIN", "", Mnemonic::LeftOut(Kind::Real)),
];

static T_ROWS: [Row; 6] = [
    Row("T", "", Mnemonic::Transfer),
    Row("TAK", "", Mnemonic::Tak),
    Row("TAR1", "", Mnemonic::StoreAr(Ar::One)),
    Row("TAR2", "", Mnemonic::StoreAr(Ar::Two)),
    Row("TRUNC", "", Mnemonic::LeftOut(Kind::Real)),
    Row("TAN", "", Mnemonic::LeftOut(Kind::Real)),
];

static U_ROWS: [Row; 1] = [Row("UC", "", Mnemonic::CallAlone)];

static X_ROWS: [Row; 6] = [
    Row("X", "(", Mnemonic::Bracket(Check::X)),
    Row("X", "", Mnemonic::Check(Check::X)),
    Row("XN", "(", Mnemonic::Bracket(Check::Xn)),
    Row("XN", "", Mnemonic::Check(Check::Xn)),
    Row("XOW", "", Mnemonic::Logic(LogicRow::Xow)),
    Row("XOD", "", Mnemonic::Logic(LogicRow::Xod)),
];

static LESS_ROWS: [Row; 9] = [
    Row("<>", "I", Mnemonic::Compare(Test::Ne, Width::Word)),
    Row("<>", "D", Mnemonic::Compare(Test::Ne, Width::Dword)),
    Row("<>", "R", Mnemonic::LeftOut(Kind::Real)),
    Row("<", "I", Mnemonic::Compare(Test::Lt, Width::Word)),
    Row("<", "D", Mnemonic::Compare(Test::Lt, Width::Dword)),
    Row("<", "R", Mnemonic::LeftOut(Kind::Real)),
    Row("<=", "I", Mnemonic::Compare(Test::Le, Width::Word)),
    Row("<=", "D", Mnemonic::Compare(Test::Le, Width::Dword)),
    Row("<=", "R", Mnemonic::LeftOut(Kind::Real)),
];

static EQUAL_ROWS: [Row; 4] = [
    Row("=", "", Mnemonic::Assign),
    Row("==", "I", Mnemonic::Compare(Test::Eq, Width::Word)),
    Row("==", "D", Mnemonic::Compare(Test::Eq, Width::Dword)),
    Row("==", "R", Mnemonic::LeftOut(Kind::Real)),
];

static GREATER_ROWS: [Row; 6] = [
    Row(">", "I", Mnemonic::Compare(Test::Gt, Width::Word)),
    Row(">", "D", Mnemonic::Compare(Test::Gt, Width::Dword)),
    Row(">", "R", Mnemonic::LeftOut(Kind::Real)),
    Row(">=", "I", Mnemonic::Compare(Test::Ge, Width::Word)),
    Row(">=", "D", Mnemonic::Compare(Test::Ge, Width::Dword)),
    Row(">=", "R", Mnemonic::LeftOut(Kind::Real)),
];

/// The lines of the table whose first part begins with a byte of these low five bits. Both cases of a letter have the
/// same.
pub fn rows_by(bits: u8) -> &'static [Row]
    ensures { map view result.now ≡ rows_by bits }
{
    match bits {
        1 => &A_ROWS,
        2 => &B_ROWS,
        3 => &C_ROWS,
        4 => &D_ROWS,
        5 => &E_ROWS,
        6 => &F_ROWS,
        9 => &I_ROWS,
        10 => &J_ROWS,
        11 => &PLUS_ROWS,
        12 => &L_ROWS,
        13 => &M_ROWS,
        14 => &N_ROWS,
        15 => &O_ROWS,
        16 => &P_ROWS,
        18 => &R_ROWS,
        19 => &S_ROWS,
        20 => &T_ROWS,
        21 => &U_ROWS,
        24 => &X_ROWS,
        28 => &LESS_ROWS,
        29 => &EQUAL_ROWS,
        30 => &GREATER_ROWS,
        _ => &[],
    }
}
