//! The words and letters of the language, all in capitals, and the precedence of operators.
ghost use Rattle.std.specs.Prelude.{◌≡◌};
ghost use Rattle.st_tree.specs.Words.{register_word, area_word, width_word, type_word, prefix_word, operator_word, shift_word};
ghost use Rattle.st_tree.specs.Form.{prefix_level, infix_level};

use crate::expr::{BinaryOp, ShiftOp, StType, UnaryOp};
use memory_areas::AreaName;
use s7_base::{Reg, Width};

/// The name of a register variable.
pub fn register_word(register: Reg) -> &'static str
    ensures { result.now ≡ register_word register }
{
    match register {
        Reg::Accu1 => "ACCU1",
        Reg::Accu2 => "ACCU2",
        Reg::Ar1 => "AR1",
        Reg::Ar2 => "AR2",
        Reg::DbNo => "DBNO",
        Reg::DiNo => "DINO",
        Reg::Nfc => "NFC",
        Reg::Rlo => "RLO",
        Reg::Sta => "STA",
        Reg::Orb => "ORB",
        Reg::Os => "OS",
        Reg::Ov => "OV",
        Reg::Cc0 => "CC0",
        Reg::Cc1 => "CC1",
        Reg::Br => "BR",
    }
}

/// The letters of an area.
pub fn area_word(area: AreaName) -> &'static str
    ensures { result.now ≡ area_word area }
{
    match area {
        AreaName::I => "I",
        AreaName::Q => "Q",
        AreaName::M => "M",
        AreaName::L => "L",
        AreaName::Db => "DB",
        AreaName::Di => "DI",
    }
}

/// The letter of a width.
pub fn width_word(width: Width) -> &'static str
    ensures { result.now ≡ width_word width }
{
    match width {
        Width::Bit => "X",
        Width::Byte => "B",
        Width::Word => "W",
        Width::Dword => "D",
    }
}

/// The name of a type.
pub fn type_word(ty: StType) -> &'static str
    ensures { result.now ≡ type_word ty }
{
    match ty {
        StType::Bool => "BOOL",
        StType::Byte => "BYTE",
        StType::Word => "WORD",
        StType::Dword => "DWORD",
        StType::Int => "INT",
        StType::Dint => "DINT",
        StType::Lint => "LINT",
    }
}

/// An operator before its operand, with the blank after NOT, or a function with its bracket.
pub fn prefix_word(op: UnaryOp) -> &'static str
    ensures { result.now ≡ prefix_word op }
{
    match op {
        UnaryOp::Minus => "-",
        UnaryOp::Not => "NOT ",
        UnaryOp::BcdToInt => "BCD_TO_INT(",
        UnaryOp::BcdToDint => "BCD_TO_DINT(",
    }
}

/// An operator between its operands.
pub fn operator_word(op: BinaryOp) -> &'static str
    ensures { result.now ≡ operator_word op }
{
    match op {
        BinaryOp::Mul => "*",
        BinaryOp::Div => "/",
        BinaryOp::Mod => "MOD",
        BinaryOp::Add => "+",
        BinaryOp::Sub => "-",
        BinaryOp::Lt => "<",
        BinaryOp::Gt => ">",
        BinaryOp::Le => "<=",
        BinaryOp::Ge => ">=",
        BinaryOp::Eq => "=",
        BinaryOp::Ne => "<>",
        BinaryOp::And => "AND",
        BinaryOp::Xor => "XOR",
        BinaryOp::Or => "OR",
    }
}

/// The name of a shift or a rotation.
pub fn shift_word(op: ShiftOp) -> &'static str
    ensures { result.now ≡ shift_word op }
{
    match op {
        ShiftOp::Shl => "SHL",
        ShiftOp::Shr => "SHR",
        ShiftOp::Rol => "ROL",
        ShiftOp::Ror => "ROR",
    }
}

/// The precedence of an operator before its operand: 0 for a function, the highest, 1 for minus, 2 for NOT.
pub fn prefix_level_of(op: UnaryOp) -> u8
    ensures { result ≡ prefix_level op }
{
    match op {
        UnaryOp::Minus => 1,
        UnaryOp::Not => 2,
        UnaryOp::BcdToInt | UnaryOp::BcdToDint => 0,
    }
}

/// The precedence of an operator between its operands, from 3 for `*` to 9 for OR, the lowest.
pub fn infix_level_of(op: BinaryOp) -> u8
    ensures { result ≡ infix_level op }
{
    match op {
        BinaryOp::Mul | BinaryOp::Div | BinaryOp::Mod => 3,
        BinaryOp::Add | BinaryOp::Sub => 4,
        BinaryOp::Lt | BinaryOp::Gt | BinaryOp::Le | BinaryOp::Ge => 5,
        BinaryOp::Eq | BinaryOp::Ne => 6,
        BinaryOp::And => 7,
        BinaryOp::Xor => 8,
        BinaryOp::Or => 9,
    }
}
