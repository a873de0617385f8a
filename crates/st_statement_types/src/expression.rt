//! Expressions: their types and what they are in the tree, and the rules that are broken in them.
ghost use Rattle.std.specs.Prelude.{◌≡◌, ◌++◌, IfOk, option_map};
ghost use Rattle.st_rules.specs.Expressions.{area_read_of, binary_of, choice_of, conversion_of, expression, literal_of, read_of, shift_of, typed_as, unary_of, variable_on};
ghost use Rattle.st_rules.specs.Judged.{IsJudged};
ghost use Rattle.st_statement_types.specs.inner.Operands.{IsJudgedOperand, typed_of};

use s7_base::{Boxed, Break, Line, List, NoMemory, Reason, Width, note};
use st_names::scope::NameScope;
use st_names::variable::{TypedVar, variable};
use st_rules::expression::Typed;
use st_tree::{
    BinaryOp, Expr, RawExpr, RawVar, ShiftOp, StType, UnaryOp, type_of_binary, type_of_choice,
    type_of_conversion, type_of_read, type_of_shift, type_of_unary,
};
use std::alloc::Global;

/// The context of an expression: what names mean in it, and its line.
#[derive(Clone, Copy)]
pub struct Context<'s> {
    pub alloc: Global,
    pub scope: &'s NameScope,
    pub line: Line,
}

/// An operand: an expression of the tree in the box in which a larger one has it, and its type.
#[derive(Drop)]
pub struct Operand {
    pub ty: StType,
    pub tree: Boxed<Expr>,
}

fn box_operand(alloc: Global, found: Option<Typed>) -> Result<Option<Operand>, NoMemory>
    ensures { IfOk result (λ operand. option_map typed_of operand ≡ found) }
{
    match found {
        Some(Typed { ty, tree }) => {
            let tree = Boxed::new(alloc, tree)?;
            Ok(Some(Operand { ty, tree }))
        }
        None => Ok(None),
    }
}

fn typed_as(
    line: Line,
    ty: Option<StType>,
    tree: Expr,
    breaks: &mut List<Break>,
) -> Result<Option<Typed>, NoMemory>
    ensures { IsJudged result breaks.old breaks.new (typed_as line ty tree) }
{
    let Some(ty) = ty else {
        drop(tree);
        note(breaks, line, Reason::TypeMismatch)?;
        return Ok(None);
    };
    Ok(Some(Typed { ty, tree }))
}

fn literal_of(ty: StType, value: i64) -> Typed
    ensures { result ≡ literal_of ty value }
{
    Typed {
        ty,
        tree: Expr::Literal(ty, value),
    }
}

fn read_of(variable: Option<TypedVar>) -> Option<Typed>
    ensures { result ≡ read_of variable }
{
    match variable {
        Some(variable) => Some(Typed {
            ty: variable.ty,
            tree: Expr::Read(variable.var),
        }),
        None => None,
    }
}

fn binary_of(
    line: Line,
    op: BinaryOp,
    left: Option<Operand>,
    right: Option<Operand>,
    breaks: &mut List<Break>,
) -> Result<Option<Typed>, NoMemory>
    ensures { IsJudged result breaks.old breaks.new
        (binary_of line op (option_map typed_of left) (option_map typed_of right)) }
{
    let Some(left) = left else {
        return Ok(None);
    };
    let Some(right) = right else {
        return Ok(None);
    };
    let ty = type_of_binary(op, left.ty, right.ty);
    typed_as(line, ty, Expr::Binary(op, left.tree, right.tree), breaks)
}

fn choice_of(
    line: Line,
    gate: Option<Operand>,
    first: Option<Operand>,
    second: Option<Operand>,
    breaks: &mut List<Break>,
) -> Result<Option<Typed>, NoMemory>
    ensures { IsJudged result breaks.old breaks.new
        (choice_of line (option_map typed_of gate) (option_map typed_of first) (option_map typed_of second)) }
{
    let Some(gate) = gate else {
        return Ok(None);
    };
    let Some(first) = first else {
        return Ok(None);
    };
    let Some(second) = second else {
        return Ok(None);
    };
    let ty = type_of_choice(gate.ty, first.ty, second.ty);
    let tree = Expr::Select(gate.tree, first.tree, second.tree);
    typed_as(line, ty, tree, breaks)
}

fn shift_of(
    line: Line,
    op: ShiftOp,
    pattern: Option<Operand>,
    count: Option<Operand>,
    breaks: &mut List<Break>,
) -> Result<Option<Typed>, NoMemory>
    ensures { IsJudged result breaks.old breaks.new
        (shift_of line op (option_map typed_of pattern) (option_map typed_of count)) }
{
    let Some(pattern) = pattern else {
        return Ok(None);
    };
    let Some(count) = count else {
        return Ok(None);
    };
    let ty = type_of_shift(pattern.ty, count.ty);
    typed_as(line, ty, Expr::Shift(op, pattern.tree, count.tree), breaks)
}

/// A variable; notes the rule that it breaks.
pub fn variable_on(
    at: Context<'_>,
    raw: &RawVar,
    breaks: &mut List<Break>,
) -> Result<Option<TypedVar>, NoMemory>
    ensures { IsJudged result breaks.old breaks.new (variable_on at.entry.scope.now at.entry.line raw.now) }
{
    match variable(at.alloc, at.scope, raw)? {
        Ok(variable) => Ok(Some(variable)),
        Err(rule) => {
            note(breaks, at.line, rule)?;
            Ok(None)
        }
    }
}

/// An expression that is the operand of another; notes the rules that are broken in it.
#[cycle(expression)]
pub fn operand_of(
    at: Context<'_>,
    raw: &RawExpr,
    breaks: &mut List<Break>,
) -> Result<Option<Operand>, NoMemory>
    ensures { IsJudgedOperand result breaks.old breaks.new (expression at.entry.scope.now at.entry.line raw.now) }
{
    box_operand(at.alloc, expression(at, raw, breaks)?)
}

/// Minus, NOT or a BCD conversion of an operand.
#[cycle(expression)]
fn unary(
    at: Context<'_>,
    op: UnaryOp,
    raw: &RawExpr,
    breaks: &mut List<Break>,
) -> Result<Option<Typed>, NoMemory>
    ensures { let operand = expression at.entry.scope.now at.entry.line raw.now in
        IsJudged result (breaks.old ++ operand.breaks) breaks.new (unary_of at.entry.line op operand.found) }
{
    let Some(operand) = operand_of(at, raw, breaks)? else {
        return Ok(None);
    };
    let ty = type_of_unary(op, operand.ty);
    typed_as(at.line, ty, Expr::Unary(op, operand.tree), breaks)
}

/// `A_TO_B` of an operand.
#[cycle(expression)]
fn conversion(
    at: Context<'_>,
    from: StType,
    to: StType,
    raw: &RawExpr,
    breaks: &mut List<Break>,
) -> Result<Option<Typed>, NoMemory>
    ensures { let operand = expression at.entry.scope.now at.entry.line raw.now in
        IsJudged result (breaks.old ++ operand.breaks) breaks.new (conversion_of at.entry.line from to operand.found) }
{
    let Some(operand) = operand_of(at, raw, breaks)? else {
        return Ok(None);
    };
    let ty = type_of_conversion(from, to, operand.ty);
    typed_as(at.line, ty, Expr::Convert(from, to, operand.tree), breaks)
}

/// A read through a pointer.
#[cycle(expression)]
fn area_read(
    at: Context<'_>,
    width: Width,
    raw: &RawExpr,
    breaks: &mut List<Break>,
) -> Result<Option<Typed>, NoMemory>
    ensures { let operand = expression at.entry.scope.now at.entry.line raw.now in
        IsJudged result (breaks.old ++ operand.breaks) breaks.new (area_read_of at.entry.line width operand.found) }
{
    let Some(operand) = operand_of(at, raw, breaks)? else {
        return Ok(None);
    };
    let ty = type_of_read(width, operand.ty);
    typed_as(at.line, ty, Expr::AreaRead(width, operand.tree), breaks)
}

/// An operator after its left operand.
#[cycle(expression)]
fn binary_with(
    at: Context<'_>,
    op: BinaryOp,
    left: Option<Operand>,
    raw: &RawExpr,
    breaks: &mut List<Break>,
) -> Result<Option<Typed>, NoMemory>
    ensures { let operand = expression at.entry.scope.now at.entry.line raw.now in
        IsJudged result (breaks.old ++ operand.breaks) breaks.new
        (binary_of at.entry.line op (option_map typed_of left) operand.found) }
{
    let right = operand_of(at, raw, breaks)?;
    binary_of(at.line, op, left, right, breaks)
}

/// A shift after what it shifts.
#[cycle(expression)]
fn shift_with(
    at: Context<'_>,
    op: ShiftOp,
    pattern: Option<Operand>,
    raw: &RawExpr,
    breaks: &mut List<Break>,
) -> Result<Option<Typed>, NoMemory>
    ensures { let operand = expression at.entry.scope.now at.entry.line raw.now in
        IsJudged result (breaks.old ++ operand.breaks) breaks.new
        (shift_of at.entry.line op (option_map typed_of pattern) operand.found) }
{
    let count = operand_of(at, raw, breaks)?;
    shift_of(at.line, op, pattern, count, breaks)
}

/// A choice after its gate and its first value.
#[cycle(expression)]
fn choice_with(
    at: Context<'_>,
    gate: Option<Operand>,
    first: Option<Operand>,
    raw: &RawExpr,
    breaks: &mut List<Break>,
) -> Result<Option<Typed>, NoMemory>
    ensures { let operand = expression at.entry.scope.now at.entry.line raw.now in
        IsJudged result (breaks.old ++ operand.breaks) breaks.new
        (choice_of at.entry.line (option_map typed_of gate) (option_map typed_of first) operand.found) }
{
    let second = operand_of(at, raw, breaks)?;
    choice_of(at.line, gate, first, second, breaks)
}

/// An expression; notes the rules that are broken in it.
#[cycle(expression)]
pub fn expression(
    at: Context<'_>,
    raw: &RawExpr,
    breaks: &mut List<Break>,
) -> Result<Option<Typed>, NoMemory>
    ensures { IsJudged result breaks.old breaks.new (expression at.entry.scope.now at.entry.line raw.now) }
{
    match raw {
        RawExpr::Literal(ty, value) => Ok(Some(literal_of(*ty, *value))),
        RawExpr::Read(raw) => Ok(read_of(variable_on(at, raw, breaks)?)),
        RawExpr::Unary(op, value) => unary(at, *op, value.get(), breaks),
        RawExpr::Binary(op, left, right) => {
            let left = operand_of(at, left.get(), breaks)?;
            binary_with(at, *op, left, right.get(), breaks)
        }
        RawExpr::Convert(from, to, value) => conversion(at, *from, *to, value.get(), breaks),
        RawExpr::Select(gate, first, second) => {
            let gate = operand_of(at, gate.get(), breaks)?;
            let first = operand_of(at, first.get(), breaks)?;
            choice_with(at, gate, first, second.get(), breaks)
        }
        RawExpr::Shift(op, pattern, count) => {
            let pattern = operand_of(at, pattern.get(), breaks)?;
            shift_with(at, *op, pattern, count.get(), breaks)
        }
        RawExpr::AreaRead(width, pointer) => area_read(at, *width, pointer.get(), breaks),
    }
}
