//! Cases for what no clause says: that a copy is made while there is memory.
use crate::wants::wants;
use memory_areas::AreaName;
use s7_base::{Boxed, NoMemory, Reg, Width};
use st_tree::{BinaryOp, Expr, StType, UnaryOp, Var};
use std::alloc::Global;
use std::test::Fail;

fn read(alloc: Global, var: Var) -> Result<Boxed<Expr>, NoMemory> {
    Boxed::new(alloc, Expr::Read(var))
}

/// The RLO, or TRUE where the check is a first one.
fn before_check(alloc: Global) -> Result<Boxed<Expr>, NoMemory> {
    let nfc = read(alloc, Var::Register(Reg::Nfc))?;
    let not_nfc = Boxed::new(alloc, Expr::Unary(UnaryOp::Not, nfc))?;
    let rlo = read(alloc, Var::Register(Reg::Rlo))?;
    Boxed::new(alloc, Expr::Binary(BinaryOp::Or, rlo, not_nfc))
}

/// A first check of an input, as a translation has it.
fn first_check(alloc: Global) -> Result<Boxed<Expr>, NoMemory> {
    let left = before_check(alloc)?;
    let bit = read(alloc, Var::Direct(AreaName::I, 0, 1, Width::Bit))?;
    Boxed::new(alloc, Expr::Binary(BinaryOp::And, left, bit))
}

#[test]
fn copies_an_expression(rt: HostRuntime) -> Result<(), Fail> {
    let whole = first_check(rt.alloc())?;
    let copy = whole.get().copy(rt.alloc())?;
    wants(&rt, &"an expression", &(copy == *whole.get()), &true);
    Ok(())
}

#[test]
fn copies_a_literal(rt: HostRuntime) -> Result<(), Fail> {
    let literal = Expr::Literal(StType::Bool, 1);
    let is_same = literal.copy(rt.alloc())? == literal;
    wants(&rt, &"a literal", &is_same, &true);
    Ok(())
}
