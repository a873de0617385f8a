//! The opposite of a test, and how high an expression is.
ghost use Rattle.std.specs.Prelude.{◌≡◌, IfOk};
ghost use Rattle.st_tree.specs.declared.expr.Expr.TheVariants as expr;
ghost use Rattle.st_tree.specs.declared.expr.UnaryOp.TheVariants as unary;
ghost use Rattle.condition_laws.specs.inner.Negation.{has_low_negation, is_low, negation, opposite};

use s7_base::{Boxed, NoMemory};
use st_tree::{BinaryOp, Expr, UnaryOp};
use std::alloc::Global;

/// How high the test of a WHILE may be.
pub const HIGHEST: u32 = 32;

/// The comparison that holds where another does not.
fn opposite(op: BinaryOp) -> Option<BinaryOp>
    ensures { result ≡ opposite op }
{
    match op {
        BinaryOp::Lt => Some(BinaryOp::Ge),
        BinaryOp::Gt => Some(BinaryOp::Le),
        BinaryOp::Le => Some(BinaryOp::Gt),
        BinaryOp::Ge => Some(BinaryOp::Lt),
        BinaryOp::Eq => Some(BinaryOp::Ne),
        BinaryOp::Ne => Some(BinaryOp::Eq),
        _ => None,
    }
}

/// Whether an expression is at most so high.
#[cycle(height)]
pub fn is_low(expression: &Expr, most: u32) -> bool
    ensures { result ≡ is_low expression.now most }
{
    match expression {
        Expr::Literal(_, _) => most > 0,
        Expr::Read(_) => most > 0,
        Expr::Unary(_, operand) => most > 0 && is_low(operand.get(), most - 1),
        Expr::Binary(_, left, right) => {
            most > 0 && is_low(left.get(), most - 1) && is_low(right.get(), most - 1)
        }
        Expr::Convert(_, _, operand) => most > 0 && is_low(operand.get(), most - 1),
        Expr::Select(gate, first, second) => {
            most > 0
                && is_low(gate.get(), most - 1)
                && is_low(first.get(), most - 1)
                && is_low(second.get(), most - 1)
        }
        Expr::Shift(_, pattern, count) => {
            most > 0 && is_low(pattern.get(), most - 1) && is_low(count.get(), most - 1)
        }
        Expr::AreaRead(_, pointer) => most > 0 && is_low(pointer.get(), most - 1),
    }
}

/// Whether the opposite of a test is as low as the test of a WHILE.
pub fn has_low_negation(test: &Expr) -> bool
    ensures { result ≡ has_low_negation test.now }
{
    match test {
        Expr::Unary(UnaryOp::Not, operand) => is_low(operand.get(), HIGHEST),
        Expr::Binary(op, _, _) if opposite(*op).is_some() => is_low(test, HIGHEST),
        _ => is_low(test, HIGHEST - 1),
    }
}

fn not(alloc: Global, test: Expr) -> Result<Expr, NoMemory>
    ensures { IfOk result (λ new. new ≡ expr.Unary unary.Not test) }
{
    Ok(Expr::Unary(UnaryOp::Not, Boxed::new(alloc, test)?))
}

/// The opposite of a test: the operand of NOT, the other comparison, or else the test after NOT.
pub fn negation(alloc: Global, test: Expr) -> Result<Expr, NoMemory>
    ensures { IfOk result (λ new. new ≡ negation test) }
{
    match test {
        Expr::Unary(UnaryOp::Not, operand) => Ok(operand.into_inner()),
        Expr::Binary(op, left, right) => match opposite(op) {
            Some(other) => Ok(Expr::Binary(other, left, right)),
            None => not(alloc, Expr::Binary(op, left, right)),
        },
        test => not(alloc, test),
    }
}
