//! Expressions, with the brackets that precedence asks for.
ghost use Rattle.std.specs.Prelude.{◌≡◌, ◌++◌, codes, OnOk};
ghost use Rattle.st_tree.specs.Form.{level, wrap, unary_form, canon};
ghost use Rattle.st_tree.specs.Spelling.{form_text, expr_text, names_in};
ghost use Rattle.st_tree.specs.Words.{infix_word};

use crate::literal::put_literal;
use crate::text::put_text;
use crate::variable::put_var;
use s7_base::NoMemory;
use st_tree::{
    BinaryOp, Expr, Pou, StProgram, UnaryOp, infix_level_of, operator_word, prefix_level_of,
    prefix_word, shift_word, type_word, width_word,
};

/// The precedence of the text of an expression, 0 the highest.
fn level_of(expr: &Expr) -> u8
    ensures { result ≡ level (canon expr.now) }
{
    match expr {
        Expr::Unary(UnaryOp::Minus, _) => 1,
        Expr::Unary(UnaryOp::Not, _) => 2,
        Expr::Binary(op, _, _) => infix_level_of(*op),
        _ => 0,
    }
}

/// Appends an operator between its operands, with a blank on either side.
fn put_infix(out: &mut Vec<u8>, op: BinaryOp) -> Result<(), NoMemory>
    ensures { OnOk result (out.new.items ≡ out.old.items ++ infix_word op) }
{
    put_text(out, " ")?;
    put_text(out, operator_word(op))?;
    put_text(out, " ")
}

/// Appends the text of an expression of a unit, in brackets only where precedence asks for them.
#[cycle(expr)]
pub fn put_expr(
    out: &mut Vec<u8>,
    tree: &StProgram,
    unit: &Pou,
    expr: &Expr,
) -> Result<(), NoMemory>
    ensures { OnOk result (out.new.items ≡ out.old.items ++ expr_text (names_in tree.now unit.now) expr.now) }
{
    match expr {
        Expr::Literal(ty, value) => put_literal(out, *ty, *value),
        Expr::Read(var) => put_var(out, tree, unit, *var),
        Expr::Unary(op, operand) => put_unary(out, tree, unit, *op, operand.get()),
        Expr::Binary(op, left, right) => {
            put_operand(out, tree, unit, left.get(), infix_level_of(*op))?;
            put_infix(out, *op)?;
            put_operand(out, tree, unit, right.get(), infix_level_of(*op) - 1)
        }
        Expr::Convert(from, to, operand) => {
            put_text(out, type_word(*from))?;
            put_text(out, "_TO_")?;
            put_text(out, type_word(*to))?;
            put_in_brackets(out, tree, unit, operand.get())
        }
        Expr::Select(gate, first, second) => {
            put_text(out, "SEL(")?;
            put_expr(out, tree, unit, gate.get())?;
            put_next(out, tree, unit, first.get())?;
            put_last(out, tree, unit, second.get())
        }
        Expr::Shift(op, operand, count) => {
            put_text(out, shift_word(*op))?;
            put_text(out, "(")?;
            put_expr(out, tree, unit, operand.get())?;
            put_last(out, tree, unit, count.get())
        }
        Expr::AreaRead(width, pointer) => {
            put_text(out, "AREA_READ_")?;
            put_text(out, width_word(*width))?;
            put_in_brackets(out, tree, unit, pointer.get())
        }
    }
}

#[cycle(expr)]
fn put_unary(
    out: &mut Vec<u8>,
    tree: &StProgram,
    unit: &Pou,
    op: UnaryOp,
    operand: &Expr,
) -> Result<(), NoMemory>
    ensures { OnOk result (out.new.items ≡ out.old.items
        ++ form_text (names_in tree.now unit.now) (unary_form op (canon operand.now))) }
{
    put_text(out, prefix_word(op))?;
    match op {
        UnaryOp::Minus | UnaryOp::Not => put_operand(out, tree, unit, operand, prefix_level_of(op)),
        UnaryOp::BcdToInt | UnaryOp::BcdToDint => {
            put_expr(out, tree, unit, operand)?;
            put_text(out, ")")
        }
    }
}

/// Appends an operand, in brackets where its precedence is lower than its place takes.
#[cycle(expr)]
fn put_operand(
    out: &mut Vec<u8>,
    tree: &StProgram,
    unit: &Pou,
    expr: &Expr,
    limit: u8,
) -> Result<(), NoMemory>
    ensures { OnOk result (out.new.items ≡ out.old.items
        ++ form_text (names_in tree.now unit.now) (wrap limit (canon expr.now))) }
{
    if level_of(expr) <= limit {
        return put_expr(out, tree, unit, expr);
    }
    put_in_brackets(out, tree, unit, expr)
}

#[cycle(expr)]
fn put_in_brackets(
    out: &mut Vec<u8>,
    tree: &StProgram,
    unit: &Pou,
    expr: &Expr,
) -> Result<(), NoMemory>
    ensures { OnOk result (out.new.items ≡ out.old.items
        ++ codes "(" ++ expr_text (names_in tree.now unit.now) expr.now ++ codes ")") }
{
    put_text(out, "(")?;
    put_expr(out, tree, unit, expr)?;
    put_text(out, ")")
}

/// Appends a comma and a further operand.
#[cycle(expr)]
fn put_next(out: &mut Vec<u8>, tree: &StProgram, unit: &Pou, expr: &Expr) -> Result<(), NoMemory>
    ensures { OnOk result (out.new.items ≡ out.old.items
        ++ codes ", " ++ expr_text (names_in tree.now unit.now) expr.now) }
{
    put_text(out, ", ")?;
    put_expr(out, tree, unit, expr)
}

/// Appends the last operand and the closing bracket.
#[cycle(expr)]
fn put_last(out: &mut Vec<u8>, tree: &StProgram, unit: &Pou, expr: &Expr) -> Result<(), NoMemory>
    ensures { OnOk result (out.new.items ≡ out.old.items
        ++ codes ", " ++ expr_text (names_in tree.now unit.now) expr.now ++ codes ")") }
{
    put_text(out, ", ")?;
    put_expr(out, tree, unit, expr)?;
    put_text(out, ")")
}
