//! Cases of exact texts: each rule of the canonical spelling.
use crate::wants::wants_text;
use memory_areas::{Area, AreaName, DataBlock, Place};
use s7_base::{Boxed, List, NoMemory, Reg, Width};
use st_printer::print;
use st_tree::{
    Arm, BinaryOp, CaseArm, Expr, Local, Located, Pou, ShiftOp, StProgram, StType, Stmt, UnaryOp,
    Var,
};
use std::alloc::Global;
use std::process::Abort;
use std::test::Fail;

fn name(alloc: Global, text: &str) -> Result<List<u8>, NoMemory> {
    Ok(List::from_vec(Vec::from_slice(alloc, text.as_bytes())?))
}

fn local(alloc: Global, text: &str, ty: StType) -> Result<Local, NoMemory> {
    Ok(Local {
        name: name(alloc, text)?,
        ty,
    })
}

fn program(alloc: Global, body: List<Stmt>) -> Result<Pou, NoMemory> {
    Ok(Pou {
        program: true,
        name: name(alloc, "OB1")?,
        formals: List::new(alloc),
        locals: List::new(alloc),
        body,
    })
}

fn tree(alloc: Global, unit: Pou) -> Result<StProgram, NoMemory> {
    let mut pous = List::new(alloc);
    pous.push(unit)?;
    Ok(StProgram {
        dbs: List::new(alloc),
        globals: List::new(alloc),
        pous,
    })
}

/// The tree with the program OB1 alone, of this body.
fn tree_of(alloc: Global, body: List<Stmt>) -> Result<StProgram, NoMemory> {
    let unit = program(alloc, body)?;
    tree(alloc, unit)
}

// Operands stand in their boxes, as a tree has them: what is alive where memory may be refused costs the
// prover, a box the least.

fn literal(alloc: Global, ty: StType, n: i64) -> Result<Boxed<Expr>, NoMemory> {
    Boxed::new(alloc, Expr::Literal(ty, n))
}

fn number(alloc: Global, n: i64) -> Result<Boxed<Expr>, NoMemory> {
    literal(alloc, StType::Dint, n)
}

fn read(alloc: Global, var: Var) -> Result<Boxed<Expr>, NoMemory> {
    Boxed::new(alloc, Expr::Read(var))
}

fn unary(alloc: Global, op: UnaryOp, operand: Boxed<Expr>) -> Result<Boxed<Expr>, NoMemory> {
    Boxed::new(alloc, Expr::Unary(op, operand))
}

fn binary(
    alloc: Global,
    op: BinaryOp,
    left: Boxed<Expr>,
    right: Boxed<Expr>,
) -> Result<Boxed<Expr>, NoMemory> {
    Boxed::new(alloc, Expr::Binary(op, left, right))
}

/// A program that assigns this expression alone.
fn assigning(alloc: Global, expr: Boxed<Expr>) -> Result<StProgram, NoMemory> {
    let mut body = List::new(alloc);
    body.push(Stmt::Assign(Var::Register(Reg::Rlo), expr.into_inner()))?;
    tree_of(alloc, body)
}

/// The text between `RLO := ` and `;` in the text of a program that assigns an expression.
fn value_in(text: &[u8]) -> &[u8] {
    let front = "PROGRAM OB1\n    RLO := ".len();
    let behind = ";\nEND_PROGRAM\n".len();
    text.get(front..text.len().saturating_sub(behind))
        .unwrap_or(&[])
}

/// Tests whether an expression has this text.
fn wants_expr(
    rt: &impl Abort,
    alloc: Global,
    expr: Boxed<Expr>,
    wanted: &str,
) -> Result<(), NoMemory> {
    let tree = assigning(alloc, expr)?;
    let text = print(alloc, &tree)?;
    let wanted = wanted.as_bytes();
    wants_text(rt, wanted, value_in(text.as_slice()), wanted);
    Ok(())
}

/// Tests whether a program of one unit has this text.
fn wants_unit(
    rt: &impl Abort,
    alloc: Global,
    tree: &StProgram,
    wanted: &[u8],
) -> Result<(), NoMemory> {
    let text = print(alloc, tree)?;
    wants_text(rt, b"a unit", text.as_slice(), wanted);
    Ok(())
}

static LITERALS: [(StType, i64, &str); 11] = [
    (StType::Bool, 0, "FALSE"),
    (StType::Bool, 1, "TRUE"),
    (StType::Byte, 15, "BYTE#16#0F"),
    (StType::Word, 5, "WORD#16#0005"),
    (StType::Dword, 4_294_967_295, "DWORD#16#FFFFFFFF"),
    (StType::Int, -5, "INT#-5"),
    (StType::Int, 5, "INT#5"),
    (StType::Dint, 0, "0"),
    (StType::Dint, 2_147_483_647, "2147483647"),
    (StType::Dint, -5, "DINT#-5"),
    (StType::Lint, 9, "LINT#9"),
];

fn want_literals(
    rt: &impl Abort,
    alloc: Global,
    rows: &[(StType, i64, &str)],
) -> Result<(), NoMemory> {
    for (ty, n, text) in rows {
        let literal = literal(alloc, *ty, *n)?;
        wants_expr(rt, alloc, literal, text)?;
    }
    Ok(())
}

#[test]
fn literals_have_their_type(rt: HostRuntime) -> Result<(), Fail> {
    Ok(want_literals(&rt, rt.alloc(), &LITERALS)?)
}

/// An operator, another one, and the two texts: the second one's value on the left, and on the right.
type Binding = (BinaryOp, BinaryOp, &'static str, &'static str);

static BINDINGS: [Binding; 9] = [
    (
        BinaryOp::And,
        BinaryOp::Or,
        "(1 OR 2) AND 3",
        "1 AND (2 OR 3)",
    ),
    (BinaryOp::Or, BinaryOp::And, "1 AND 2 OR 3", "1 OR 2 AND 3"),
    (BinaryOp::Or, BinaryOp::Xor, "1 XOR 2 OR 3", "1 OR 2 XOR 3"),
    (BinaryOp::Sub, BinaryOp::Sub, "1 - 2 - 3", "1 - (2 - 3)"),
    (BinaryOp::Mul, BinaryOp::Mod, "1 MOD 2 * 3", "1 * (2 MOD 3)"),
    (BinaryOp::Div, BinaryOp::Add, "(1 + 2) / 3", "1 / (2 + 3)"),
    (BinaryOp::Eq, BinaryOp::Lt, "1 < 2 = 3", "1 = 2 < 3"),
    (BinaryOp::Ge, BinaryOp::Ne, "(1 <> 2) >= 3", "1 >= (2 <> 3)"),
    (BinaryOp::Gt, BinaryOp::Le, "1 <= 2 > 3", "1 > (2 <= 3)"),
];

/// An operator between two numbers.
fn pair(alloc: Global, op: BinaryOp, left: i64, right: i64) -> Result<Boxed<Expr>, NoMemory> {
    let left = number(alloc, left)?;
    let right = number(alloc, right)?;
    binary(alloc, op, left, right)
}

/// The operator `outer` between the pair 1, 2 of `inner` and 3.
fn on_left(alloc: Global, outer: BinaryOp, inner: BinaryOp) -> Result<Boxed<Expr>, NoMemory> {
    let left = pair(alloc, inner, 1, 2)?;
    let right = number(alloc, 3)?;
    binary(alloc, outer, left, right)
}

/// The operator `outer` between 1 and the pair 2, 3 of `inner`.
fn on_right(alloc: Global, outer: BinaryOp, inner: BinaryOp) -> Result<Boxed<Expr>, NoMemory> {
    let left = number(alloc, 1)?;
    let right = pair(alloc, inner, 2, 3)?;
    binary(alloc, outer, left, right)
}

fn wants_binding(rt: &impl Abort, alloc: Global, row: &Binding) -> Result<(), NoMemory> {
    let (outer, inner, left, right) = row;
    let whole = on_left(alloc, *outer, *inner)?;
    wants_expr(rt, alloc, whole, left)?;
    let whole = on_right(alloc, *outer, *inner)?;
    wants_expr(rt, alloc, whole, right)
}

fn want_bindings(rt: &impl Abort, alloc: Global, rows: &[Binding]) -> Result<(), NoMemory> {
    for row in rows {
        wants_binding(rt, alloc, row)?;
    }
    Ok(())
}

#[test]
fn operators_have_the_brackets_that_binding_needs(rt: HostRuntime) -> Result<(), Fail> {
    Ok(want_bindings(&rt, rt.alloc(), &BINDINGS)?)
}

/// An operator on another one's value, and its text.
static SIGNS: [(UnaryOp, UnaryOp, &str); 6] = [
    (UnaryOp::Minus, UnaryOp::Minus, "--2"),
    (UnaryOp::Not, UnaryOp::Minus, "NOT -2"),
    (UnaryOp::Minus, UnaryOp::Not, "-(NOT 2)"),
    (UnaryOp::Not, UnaryOp::Not, "NOT NOT 2"),
    (UnaryOp::Minus, UnaryOp::BcdToInt, "-BCD_TO_INT(2)"),
    (UnaryOp::BcdToDint, UnaryOp::Not, "BCD_TO_DINT(NOT 2)"),
];

/// An operator on 2.
fn signed_two(alloc: Global, op: UnaryOp) -> Result<Boxed<Expr>, NoMemory> {
    let number = number(alloc, 2)?;
    unary(alloc, op, number)
}

fn want_signs(
    rt: &impl Abort,
    alloc: Global,
    rows: &[(UnaryOp, UnaryOp, &str)],
) -> Result<(), NoMemory> {
    for (outer, inner, text) in rows {
        let operand = signed_two(alloc, *inner)?;
        let whole = unary(alloc, *outer, operand)?;
        wants_expr(rt, alloc, whole, text)?;
    }
    Ok(())
}

/// The product of 1 and an operator on 2.
fn product(alloc: Global) -> Result<Boxed<Expr>, NoMemory> {
    let left = number(alloc, 1)?;
    let right = signed_two(alloc, UnaryOp::Not)?;
    binary(alloc, BinaryOp::Mul, left, right)
}

#[test]
fn signs_stand_before_their_operands(rt: HostRuntime) -> Result<(), Fail> {
    want_signs(&rt, rt.alloc(), &SIGNS)?;
    let product = product(rt.alloc())?;
    Ok(wants_expr(&rt, rt.alloc(), product, "1 * NOT 2")?)
}

fn select(alloc: Global) -> Result<Boxed<Expr>, NoMemory> {
    let gate = read(alloc, Var::Register(Reg::Rlo))?;
    let first = pair(alloc, BinaryOp::Or, 1, 2)?;
    let second = number(alloc, 3)?;
    Boxed::new(alloc, Expr::Select(gate, first, second))
}

fn rotated_accu1(alloc: Global) -> Result<Boxed<Expr>, NoMemory> {
    let pattern = read(alloc, Var::Register(Reg::Accu1))?;
    let count = literal(alloc, StType::Int, 1)?;
    Boxed::new(alloc, Expr::Shift(ShiftOp::Ror, pattern, count))
}

fn five_converted(alloc: Global) -> Result<Boxed<Expr>, NoMemory> {
    let five = literal(alloc, StType::Int, 5)?;
    Boxed::new(alloc, Expr::Convert(StType::Int, StType::Word, five))
}

fn area_read(alloc: Global) -> Result<Boxed<Expr>, NoMemory> {
    let pointer = read(alloc, Var::Register(Reg::Ar1))?;
    Boxed::new(alloc, Expr::AreaRead(Width::Byte, pointer))
}

#[test]
fn functions_have_their_operands_in_brackets(rt: HostRuntime) -> Result<(), Fail> {
    let alloc = rt.alloc();
    let call = five_converted(alloc)?;
    wants_expr(&rt, alloc, call, "INT_TO_WORD(INT#5)")?;
    let call = area_read(alloc)?;
    wants_expr(&rt, alloc, call, "AREA_READ_B(AR1)")?;
    let call = select(alloc)?;
    wants_expr(&rt, alloc, call, "SEL(RLO, 1 OR 2, 3)")?;
    let call = rotated_accu1(alloc)?;
    Ok(wants_expr(&rt, alloc, call, "ROR(ACCU1, INT#1)")?)
}

static VARIABLES: [(Var, &str); 7] = [
    (Var::Register(Reg::Nfc), "NFC"),
    (Var::Direct(AreaName::I, 0, 7, Width::Bit), "%IX0.7"),
    (Var::Direct(AreaName::Q, 4, 0, Width::Byte), "%QB4"),
    (Var::Direct(AreaName::L, 10, 0, Width::Dword), "%LD10"),
    (Var::Direct(AreaName::Di, 2, 1, Width::Bit), "%DIX2.1"),
    (Var::InBlock(5, 4, 0, Width::Word), "%DB5.DBW4"),
    (Var::InBlock(65_535, 0, 3, Width::Bit), "%DB65535.DBX0.3"),
];

fn want_variables(rt: &impl Abort, alloc: Global, rows: &[(Var, &str)]) -> Result<(), NoMemory> {
    for (var, text) in rows {
        let expr = read(alloc, *var)?;
        wants_expr(rt, alloc, expr, text)?;
    }
    Ok(())
}

#[test]
fn variables_have_their_names_or_places(rt: HostRuntime) -> Result<(), Fail> {
    Ok(want_variables(&rt, rt.alloc(), &VARIABLES)?)
}

const STATEMENTS: &[u8] = b"FUNCTION Limit
    VAR_IN_OUT
        a : WORD;
        b : BOOL;
    END_VAR
    VAR_TEMP
        n : INT;
    END_VAR
    IF b THEN
        n := INT#1;
    ELSIF FALSE THEN
    ELSE
        RETURN;
    END_IF;
    CASE n OF
        INT#1, INT#-2:
            WHILE b DO
                EXIT;
                CONTINUE;
            END_WHILE;
    ELSE
        AREA_WRITE_W(AR1, a);
    END_CASE;
    Limit(a := %MW0, b := b);
END_FUNCTION
";

fn turn(alloc: Global) -> Result<List<Stmt>, NoMemory> {
    let mut body = List::new(alloc);
    body.push(Stmt::Exit)?;
    body.push(Stmt::Continue)?;
    Ok(body)
}

fn labels(alloc: Global) -> Result<List<i64>, NoMemory> {
    let mut labels = List::new(alloc);
    labels.push(1)?;
    labels.push(-2)?;
    Ok(labels)
}

fn repeating(alloc: Global) -> Result<List<Stmt>, NoMemory> {
    let turn = turn(alloc)?;
    let mut body = List::new(alloc);
    body.push(Stmt::While(Expr::Read(Var::Formal(1)), turn))?;
    Ok(body)
}

fn case_arms(alloc: Global) -> Result<List<CaseArm>, NoMemory> {
    let body = repeating(alloc)?;
    let labels = labels(alloc)?;
    let mut arms = List::new(alloc);
    arms.push(CaseArm { labels, body })?;
    Ok(arms)
}

fn area_write(alloc: Global) -> Result<List<Stmt>, NoMemory> {
    let pointer = read(alloc, Var::Register(Reg::Ar1))?;
    let value = read(alloc, Var::Formal(0))?;
    let mut body = List::new(alloc);
    body.push(Stmt::AreaWrite(Width::Word, pointer, value))?;
    Ok(body)
}

fn case(alloc: Global) -> Result<Stmt, NoMemory> {
    let arms = case_arms(alloc)?;
    let other = area_write(alloc)?;
    Ok(Stmt::Case(Expr::Read(Var::Local(0)), arms, other))
}

fn one_assignment(alloc: Global) -> Result<List<Stmt>, NoMemory> {
    let mut body = List::new(alloc);
    body.push(Stmt::Assign(Var::Local(0), Expr::Literal(StType::Int, 1)))?;
    Ok(body)
}

fn choice_arms(alloc: Global) -> Result<List<Arm>, NoMemory> {
    let body = one_assignment(alloc)?;
    let mut arms = List::new(alloc);
    arms.push(Arm {
        test: Expr::Read(Var::Formal(1)),
        body,
    })?;
    arms.push(Arm {
        test: Expr::Literal(StType::Bool, 0),
        body: List::new(alloc),
    })?;
    Ok(arms)
}

fn choice(alloc: Global) -> Result<Stmt, NoMemory> {
    let arms = choice_arms(alloc)?;
    let mut other = List::new(alloc);
    other.push(Stmt::Return)?;
    Ok(Stmt::If(arms, other))
}

fn actuals(alloc: Global) -> Result<List<Var>, NoMemory> {
    let mut actuals = List::new(alloc);
    actuals.push(Var::Direct(AreaName::M, 0, 0, Width::Word))?;
    actuals.push(Var::Formal(1))?;
    Ok(actuals)
}

fn put_statements(alloc: Global, body: &mut List<Stmt>) -> Result<(), NoMemory> {
    let choice = choice(alloc)?;
    body.push(choice)?;
    let case = case(alloc)?;
    body.push(case)?;
    let actuals = actuals(alloc)?;
    body.push(Stmt::Invoke(0, actuals))
}

fn put_local(
    alloc: Global,
    locals: &mut List<Local>,
    text: &str,
    ty: StType,
) -> Result<(), NoMemory> {
    let local = local(alloc, text, ty)?;
    locals.push(local)
}

fn put_parts(alloc: Global, unit: &mut Pou) -> Result<(), NoMemory> {
    put_local(alloc, &mut unit.formals, "a", StType::Word)?;
    put_local(alloc, &mut unit.formals, "b", StType::Bool)?;
    put_local(alloc, &mut unit.locals, "n", StType::Int)?;
    put_statements(alloc, &mut unit.body)
}

fn function(alloc: Global) -> Result<Pou, NoMemory> {
    let mut unit = Pou {
        program: false,
        name: name(alloc, "Limit")?,
        formals: List::new(alloc),
        locals: List::new(alloc),
        body: List::new(alloc),
    };
    put_parts(alloc, &mut unit)?;
    Ok(unit)
}

#[test]
fn statements_stand_four_blanks_deeper_than_what_holds_them(rt: HostRuntime) -> Result<(), Fail> {
    let alloc = rt.alloc();
    let unit = function(alloc)?;
    let tree = tree(alloc, unit)?;
    Ok(wants_unit(&rt, alloc, &tree, STATEMENTS)?)
}

const GLOBALS: &[u8] = b"VAR_GLOBAL
    DB5 AT %DB5.DBB0 : ARRAY[0..5] OF BYTE := [16#01, 3(16#00), 2(16#FF)];
    Start AT %IX0.0 : BOOL;
    Speed AT %MW10 : INT;
END_VAR
PROGRAM OB1
    Speed := Start;
END_PROGRAM
";

fn data_block(alloc: Global) -> Result<DataBlock, NoMemory> {
    let bytes = List::from_vec(Vec::from_slice(alloc, &[1, 0, 0, 0, 255, 255])?);
    Ok(DataBlock { number: 5, bytes })
}

fn global(
    alloc: Global,
    text: &str,
    area: Area,
    byte: u32,
    ty: StType,
) -> Result<Located, NoMemory> {
    let place = Place { area, byte, bit: 0 };
    Ok(Located {
        name: name(alloc, text)?,
        place,
        ty,
    })
}

fn put_globals(alloc: Global, text: &mut StProgram) -> Result<(), NoMemory> {
    let block = data_block(alloc)?;
    text.dbs.push(block)?;
    let start = global(alloc, "Start", Area::I, 0, StType::Bool)?;
    text.globals.push(start)?;
    let speed = global(alloc, "Speed", Area::M, 10, StType::Int)?;
    text.globals.push(speed)
}

fn with_globals(alloc: Global) -> Result<StProgram, NoMemory> {
    let mut body = List::new(alloc);
    body.push(Stmt::Assign(Var::Global(1), Expr::Read(Var::Global(0))))?;
    let mut text = tree_of(alloc, body)?;
    put_globals(alloc, &mut text)?;
    Ok(text)
}

#[test]
fn globals_stand_behind_the_data_blocks(rt: HostRuntime) -> Result<(), Fail> {
    let alloc = rt.alloc();
    let tree = with_globals(alloc)?;
    Ok(wants_unit(&rt, alloc, &tree, GLOBALS)?)
}
