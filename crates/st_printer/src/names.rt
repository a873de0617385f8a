//! The names that positions mean, and the types that expressions have.
ghost use Rattle.std.specs.Prelude.{◌≡◌, slice_get};
ghost use Rattle.st_tree.specs.Spelling.{local_name, global_name, unit_name, formals_of, names_in};
ghost use Rattle.st_tree.specs.Typing.{local_type, global_type, var_type, unary_type, binary_type, type_of};

use st_tree::{
    BinaryOp, Expr, Local, Located, Pou, StProgram, StType, UnaryOp, Var, type_of_register,
    type_of_width,
};

/// The name of the formal or the local at a position; empty past the last.
pub fn local_name(locals: &[Local], position: u32) -> &[u8]
    ensures { result.now ≡ local_name (slice_get locals.now position) }
{
    match locals.get(position as usize) {
        Some(local) => local.name.as_slice(),
        None => &[],
    }
}

/// The name of the global at a position; empty past the last.
pub fn global_name(globals: &[Located], position: u32) -> &[u8]
    ensures { result.now ≡ global_name (slice_get globals.now position) }
{
    match globals.get(position as usize) {
        Some(global) => global.name.as_slice(),
        None => &[],
    }
}

/// The name of the unit at a position; empty past the last.
pub fn unit_name(units: &[Pou], position: u32) -> &[u8]
    ensures { result.now ≡ unit_name (slice_get units.now position) }
{
    match units.get(position as usize) {
        Some(unit) => unit.name.as_slice(),
        None => &[],
    }
}

/// The formals of the unit at a position; none past the last.
pub fn formals_of(units: &[Pou], position: u32) -> &[Local]
    ensures { result.now ≡ formals_of (slice_get units.now position) }
{
    match units.get(position as usize) {
        Some(unit) => unit.formals.as_slice(),
        None => &[],
    }
}

fn local_type(locals: &[Local], position: u32) -> StType
    ensures { result ≡ local_type (slice_get locals.now position) }
{
    match locals.get(position as usize) {
        Some(local) => local.ty,
        None => StType::Bool,
    }
}

fn global_type(globals: &[Located], position: u32) -> StType
    ensures { result ≡ global_type (slice_get globals.now position) }
{
    match globals.get(position as usize) {
        Some(global) => global.ty,
        None => StType::Bool,
    }
}

fn var_type(tree: &StProgram, unit: &Pou, var: Var) -> StType
    ensures { result ≡ var_type (names_in tree.now unit.now) var }
{
    match var {
        Var::Register(register) => type_of_register(register),
        Var::Local(position) => local_type(unit.locals.as_slice(), position),
        Var::Formal(position) => local_type(unit.formals.as_slice(), position),
        Var::Global(position) => global_type(tree.globals.as_slice(), position),
        Var::Direct(_, _, _, width) | Var::InBlock(_, _, _, width) => type_of_width(width),
    }
}

fn unary_type(op: UnaryOp, operand: StType) -> StType
    ensures { result ≡ unary_type op operand }
{
    match op {
        UnaryOp::Minus | UnaryOp::Not => operand,
        UnaryOp::BcdToInt => StType::Int,
        UnaryOp::BcdToDint => StType::Dint,
    }
}

fn binary_type(op: BinaryOp, left: StType) -> StType
    ensures { result ≡ binary_type op left }
{
    match op {
        BinaryOp::Lt | BinaryOp::Gt | BinaryOp::Le | BinaryOp::Ge | BinaryOp::Eq | BinaryOp::Ne =>
            StType::Bool,
        _ => left,
    }
}

/// The type of an expression of a unit.
pub fn type_of(tree: &StProgram, unit: &Pou, expr: &Expr) -> StType
    ensures { result ≡ type_of (names_in tree.now unit.now) expr.now }
{
    match expr {
        Expr::Literal(ty, _) => *ty,
        Expr::Read(var) => var_type(tree, unit, *var),
        Expr::Unary(op, operand) => unary_type(*op, type_of(tree, unit, operand.get())),
        Expr::Binary(op, left, _) => binary_type(*op, type_of(tree, unit, left.get())),
        Expr::Convert(_, to, _) => *to,
        Expr::Select(_, first, _) => type_of(tree, unit, first.get()),
        Expr::Shift(_, operand, _) => type_of(tree, unit, operand.get()),
        Expr::AreaRead(width, _) => type_of_width(*width),
    }
}
