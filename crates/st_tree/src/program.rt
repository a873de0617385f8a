//! Statements, the units that hold them, and the whole of a text.

use crate::expr::{Expr, StType, Var};
use memory_areas::{DataBlock, Place};
use s7_base::{Boxed, List, Width};

/// A statement.
#[derive(Drop)]
#[cycle(statements)]
pub enum Stmt {
    /// The variable takes the value of the expression.
    Assign(Var, Expr),

    /// The first expression is a pointer, a DWORD; the place that it names takes the value of the second.
    AreaWrite(Width, Boxed<Expr>, Boxed<Expr>),

    /// Calls the unit at this position, with one variable for each of its formals, in their order.
    Invoke(u32, List<Var>),

    /// The first arm whose test is TRUE, or else the statements after them.
    If(List<Arm>, List<Stmt>),

    /// The first arm that has the expression's value, or else the statements after them.
    Case(Expr, List<CaseArm>, List<Stmt>),

    While(Expr, List<Stmt>),
    Exit,
    Continue,
    Return,
}

/// A test of an `IF`, and the statements where it is TRUE.
#[derive(Drop)]
#[cycle(statements)]
pub struct Arm {
    pub test: Expr,
    pub body: List<Stmt>,
}

/// Values of a `CASE`, and the statements for them.
#[derive(Drop)]
#[cycle(statements)]
pub struct CaseArm {
    pub labels: List<i64>,
    pub body: List<Stmt>,
}

/// A local, or a formal, of a unit.
#[derive(Drop)]
pub struct Local {
    pub name: List<u8>,
    pub ty: StType,
}

/// A global on I, Q or M.
#[derive(Drop)]
pub struct Located {
    pub name: List<u8>,
    pub place: Place,
    pub ty: StType,
}

/// A unit: a `PROGRAM`, or else a `FUNCTION`.
#[derive(Drop)]
pub struct Pou {
    pub program: bool,
    pub name: List<u8>,
    pub formals: List<Local>,
    pub locals: List<Local>,
    pub body: List<Stmt>,
}

/// A text: its data blocks by number, its other globals, and its units in their order.
#[derive(Drop)]
pub struct StProgram {
    pub dbs: List<DataBlock>,
    pub globals: List<Located>,
    pub pous: List<Pou>,
}
