//! The tree of a text before its names are looked up: names as texts, and lines.
//!
//! Numbers of bytes, bits and blocks, the last index of a data block's bytes and the counts of its list
//! above 4,294,967,295 are kept as that number.

use crate::expr::{BinaryOp, ShiftOp, StType, UnaryOp};
use memory_areas::AreaName;
use s7_base::{Boxed, Line, List, Width};

/// A variable as it is written.
#[derive(Drop)]
pub enum RawVar {
    /// A register variable too.
    Name(List<u8>),

    /// The area, the number of a data block where one is written, the width, the byte and the bit.
    Direct(AreaName, Option<u32>, Width, u32, u32),
}

/// A declaration of a local or a formal. Its line is that of its name.
#[derive(Drop)]
pub struct RawLocal {
    pub name: List<u8>,
    pub line: Line,
    pub ty: StType,
}

/// The type of a global.
#[derive(Drop)]
pub enum RawGlobalType {
    Plain(StType),

    /// `ARRAY[0..k] OF BYTE`: `k`, and the written list as counts and bytes, empty where none is written.
    Bytes(u32, List<(u32, u8)>),
}

/// A declaration of a global. Its line is that of its name.
#[derive(Drop)]
pub struct RawGlobal {
    pub name: List<u8>,
    pub line: Line,
    pub at: RawVar,
    pub ty: RawGlobalType,
}

/// A unit. Its line is that of the word `PROGRAM` or `FUNCTION`.
#[derive(Drop)]
pub struct RawPou {
    pub program: bool,
    pub name: List<u8>,
    pub line: Line,
    pub formals: List<RawLocal>,
    pub locals: List<RawLocal>,
    pub body: List<RawStmt>,
}

/// A text: its globals and its units in their order.
#[derive(Drop)]
pub struct RawSt {
    pub globals: List<RawGlobal>,
    pub pous: List<RawPou>,
}

/// A statement, and the line of its first token.
#[derive(Drop)]
#[cycle(raw_statements)]
pub struct RawStmt {
    pub line: Line,
    pub kind: RawStmtKind,
}

/// A test of an `IF`, and the statements where it is TRUE.
#[derive(Drop)]
#[cycle(raw_statements)]
pub struct RawArm {
    pub test: RawExpr,
    pub body: List<RawStmt>,
}

/// Literals of a `CASE`, and the statements for them.
#[derive(Drop)]
#[cycle(raw_statements)]
pub struct RawCaseArm {
    pub labels: List<(StType, i64)>,
    pub body: List<RawStmt>,
}

/// What a statement does.
#[derive(Drop)]
#[cycle(raw_statements)]
pub enum RawStmtKind {
    Assign(RawVar, RawExpr),
    AreaWrite(Width, Boxed<RawExpr>, Boxed<RawExpr>),

    /// The unit's name, and the formals with their actuals in the order of the text.
    Invoke(List<u8>, List<(List<u8>, RawVar)>),

    If(List<RawArm>, List<RawStmt>),
    Case(RawExpr, List<RawCaseArm>, List<RawStmt>),
    While(RawExpr, List<RawStmt>),
    Exit,
    Continue,
    Return,
}

/// An expression without its brackets.
#[derive(Drop)]
pub enum RawExpr {
    Literal(StType, i64),
    Read(RawVar),
    Unary(UnaryOp, Boxed<RawExpr>),
    Binary(BinaryOp, Boxed<RawExpr>, Boxed<RawExpr>),
    Convert(StType, StType, Boxed<RawExpr>),
    Select(Boxed<RawExpr>, Boxed<RawExpr>, Boxed<RawExpr>),
    Shift(ShiftOp, Boxed<RawExpr>, Boxed<RawExpr>),
    AreaRead(Width, Boxed<RawExpr>),
}
