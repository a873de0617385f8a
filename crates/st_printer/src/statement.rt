//! Statements, each on lines of its own, four blanks deeper than what contains it.
ghost use Rattle.std.specs.Prelude.{◌≡◌, ◌+◌, ◌++◌, map, flat_map, codes, slice_get, IfOk, OnOk};
ghost use Rattle.st_tree.specs.Words.{width_word};
ghost use Rattle.st_tree.specs.Spelling.{blanks, line, comma_list, var_text, expr_text, names_in, texts_at, else_text, arms_text, actuals_text, call_text, label_text, labels_text, arm_text, case_text, statement_text, body_text};

use crate::expression::put_expr;
use crate::literal::put_literal;
use crate::names::{formals_of, type_of, unit_name};
use crate::text::{put_blanks, put_bytes, put_text};
use crate::variable::put_var;
use s7_base::{NoMemory, Width};
use st_tree::{Arm, CaseArm, Expr, Local, Pou, StProgram, StType, Stmt, Var, width_word};

/// Where something is printed: the tree and the unit that say what names mean there, and the level.
#[derive(Clone, Copy)]
pub struct Context<'t> {
    pub tree: &'t StProgram,
    pub unit: &'t Pou,
    pub level: usize,
}

/// The next level. No tree in a machine's memory has as many levels as a machine can count.
fn deeper(level: usize) -> Result<usize, NoMemory>
    ensures { IfOk result (λ next. next ≡ level + 1) }
{
    level.checked_add(1).ok_or(NoMemory)
}

/// Appends a line that is one word, at a level of four blanks each.
#[tactic(auto, unfolding(st_tree::specs::Spelling::line))]
pub fn put_line(out: &mut Vec<u8>, level: usize, text: &str) -> Result<(), NoMemory>
    ensures { OnOk result (out.new.items ≡ out.old.items ++ line level text.now) }
{
    put_blanks(out, level)?;
    put_text(out, text)?;
    put_text(out, "\n")
}

#[tactic(auto, unfolding(st_tree::specs::Spelling::line))]
fn put_assign(out: &mut Vec<u8>, at: Context<'_>, var: Var, value: &Expr) -> Result<(), NoMemory>
    ensures { let names = names_in at.entry.tree.now at.entry.unit.now in
        OnOk result (out.new.items ≡ out.old.items
        ++ line at.entry.level (var_text names var ++ codes " := " ++ expr_text names value.now ++ codes ";")) }
{
    put_blanks(out, at.level)?;
    put_var(out, at.tree, at.unit, var)?;
    put_text(out, " := ")?;
    put_expr(out, at.tree, at.unit, value)?;
    put_text(out, ";\n")
}

/// Appends the operands of an area write and the end of its line.
fn put_operands(
    out: &mut Vec<u8>,
    at: Context<'_>,
    pointer: &Expr,
    value: &Expr,
) -> Result<(), NoMemory>
    ensures { let names = names_in at.entry.tree.now at.entry.unit.now in
        OnOk result (out.new.items ≡ out.old.items
        ++ expr_text names pointer.now ++ codes ", " ++ expr_text names value.now ++ codes ");\n") }
{
    put_expr(out, at.tree, at.unit, pointer)?;
    put_text(out, ", ")?;
    put_expr(out, at.tree, at.unit, value)?;
    put_text(out, ");\n")
}

#[tactic(auto, unfolding(st_tree::specs::Spelling::line))]
fn put_area_write(
    out: &mut Vec<u8>,
    at: Context<'_>,
    width: Width,
    pointer: &Expr,
    value: &Expr,
) -> Result<(), NoMemory>
    ensures { let names = names_in at.entry.tree.now at.entry.unit.now in
        OnOk result (out.new.items ≡ out.old.items
        ++ line at.entry.level (codes "AREA_WRITE_" ++ width_word width ++ codes "("
        ++ expr_text names pointer.now ++ codes ", " ++ expr_text names value.now ++ codes ");")) }
{
    put_blanks(out, at.level)?;
    put_text(out, "AREA_WRITE_")?;
    put_text(out, width_word(width))?;
    put_text(out, "(")?;
    put_operands(out, at, pointer, value)
}

/// Appends a formal with its variable.
fn put_actual(out: &mut Vec<u8>, at: Context<'_>, formal: &Local, var: Var) -> Result<(), NoMemory>
    ensures { OnOk result (out.new.items ≡ out.old.items
        ++ formal.now.name ++ codes " := " ++ var_text (names_in at.entry.tree.now at.entry.unit.now) var) }
{
    put_bytes(out, formal.name.as_slice())?;
    put_text(out, " := ")?;
    put_var(out, at.tree, at.unit, var)
}

/// Appends the actuals after the first, each with its comma.
fn put_more_actuals(
    out: &mut Vec<u8>,
    at: Context<'_>,
    formals: &[Local],
    vars: &[Var],
) -> Result<(), NoMemory>
    ensures { let names = names_in at.entry.tree.now at.entry.unit.now in
        OnOk result (out.new.items ≡ out.old.items
        ++ flat_map (λ text. codes ", " ++ text) (actuals_text names formals.now vars.now)) }
{
    let [formal, formals @ ..] = formals else {
        return Ok(());
    };
    let [var, vars @ ..] = vars else {
        return Ok(());
    };
    put_text(out, ", ")?;
    put_actual(out, at, formal, *var)?;
    put_more_actuals(out, at, formals, vars)
}

fn put_actuals(
    out: &mut Vec<u8>,
    at: Context<'_>,
    formals: &[Local],
    vars: &[Var],
) -> Result<(), NoMemory>
    ensures { OnOk result (out.new.items ≡ out.old.items
        ++ comma_list (actuals_text (names_in at.entry.tree.now at.entry.unit.now) formals.now vars.now)) }
{
    let [formal, formals @ ..] = formals else {
        return Ok(());
    };
    let [var, vars @ ..] = vars else {
        return Ok(());
    };
    put_actual(out, at, formal, *var)?;
    put_more_actuals(out, at, formals, vars)
}

#[tactic(auto, unfolding(st_tree::specs::Spelling::line))]
fn put_call(out: &mut Vec<u8>, at: Context<'_>, callee: u32, vars: &[Var]) -> Result<(), NoMemory>
    ensures { let names = names_in at.entry.tree.now at.entry.unit.now in
        OnOk result (out.new.items ≡ out.old.items
        ++ line at.entry.level (call_text names (slice_get at.entry.tree.now.pous callee) vars.now)) }
{
    let units = at.tree.pous.as_slice();
    put_blanks(out, at.level)?;
    put_bytes(out, unit_name(units, callee))?;
    put_text(out, "(")?;
    put_actuals(out, at, formals_of(units, callee), vars)?;
    put_text(out, ");\n")
}

/// Appends a line of a word, an expression and a word.
#[tactic(auto, unfolding(st_tree::specs::Spelling::line))]
fn put_head(
    out: &mut Vec<u8>,
    at: Context<'_>,
    before: &str,
    expr: &Expr,
    behind: &str,
) -> Result<(), NoMemory>
    ensures { let names = names_in at.entry.tree.now at.entry.unit.now in
        OnOk result (out.new.items ≡ out.old.items
        ++ line at.entry.level (before.now ++ expr_text names expr.now ++ behind.now)) }
{
    put_blanks(out, at.level)?;
    put_text(out, before)?;
    put_expr(out, at.tree, at.unit, expr)?;
    put_text(out, behind)?;
    put_text(out, "\n")
}

#[tactic(auto, unfolding(st_tree::specs::Spelling::label_text))]
fn put_label(out: &mut Vec<u8>, ty: StType, label: i64) -> Result<(), NoMemory>
    ensures { OnOk result (out.new.items ≡ out.old.items ++ label_text ty label) }
{
    put_text(out, ", ")?;
    put_literal(out, ty, label)
}

fn put_more_labels(out: &mut Vec<u8>, ty: StType, labels: &[i64]) -> Result<(), NoMemory>
    ensures { OnOk result (out.new.items ≡ out.old.items ++ flat_map (label_text ty) labels.now) }
{
    for label in labels {
        put_label(out, ty, *label)?;
    }
    Ok(())
}

/// Appends the line of an arm's labels.
#[tactic(auto, unfolding(st_tree::specs::Spelling::line))]
fn put_labels(
    out: &mut Vec<u8>,
    level: usize,
    ty: StType,
    first: i64,
    more: &[i64],
) -> Result<(), NoMemory>
    ensures { OnOk result (out.new.items ≡ out.old.items ++ line level (labels_text ty first more.now ++ codes ":")) }
{
    put_blanks(out, level)?;
    put_literal(out, ty, first)?;
    put_more_labels(out, ty, more)?;
    put_text(out, ":\n")
}

/// Appends the statements of a body, each at this level.
#[cycle(statements)]
pub fn put_body(out: &mut Vec<u8>, at: Context<'_>, body: &[Stmt]) -> Result<(), NoMemory>
    ensures { OnOk result (out.new.items ≡ out.old.items
        ++ body_text (names_in at.entry.tree.now at.entry.unit.now) at.entry.level body.now) }
{
    for statement in body {
        put_statement(out, at, statement)?;
    }
    Ok(())
}

/// Appends the statements of a body, each one level further in.
#[cycle(statements)]
fn put_inner(out: &mut Vec<u8>, at: Context<'_>, body: &[Stmt]) -> Result<(), NoMemory>
    ensures { OnOk result (out.new.items ≡ out.old.items
        ++ body_text (names_in at.entry.tree.now at.entry.unit.now) (at.entry.level + 1) body.now) }
{
    let level = deeper(at.level)?;
    put_body(out, Context { level, ..at }, body)
}

#[cycle(statements)]
fn put_statement(out: &mut Vec<u8>, at: Context<'_>, statement: &Stmt) -> Result<(), NoMemory>
    ensures { OnOk result (out.new.items ≡ out.old.items
        ++ statement_text (names_in at.entry.tree.now at.entry.unit.now) statement.now at.entry.level) }
{
    match statement {
        Stmt::Assign(var, value) => put_assign(out, at, *var, value),
        Stmt::AreaWrite(width, pointer, value) => {
            let pointer = pointer.get();
            let value = value.get();
            put_area_write(out, at, *width, pointer, value)
        }
        Stmt::Invoke(callee, vars) => put_call(out, at, *callee, vars.as_slice()),
        Stmt::If(arms, other) => {
            put_arms(out, at, arms.as_slice())?;
            put_else(out, at, other.as_slice())?;
            put_line(out, at.level, "END_IF;")
        }
        Stmt::Case(selector, arms, other) => {
            let ty = type_of(at.tree, at.unit, selector);
            put_head(out, at, "CASE ", selector, " OF")?;
            put_cases(out, at, ty, arms.as_slice())?;
            put_else(out, at, other.as_slice())?;
            put_line(out, at.level, "END_CASE;")
        }
        Stmt::While(test, body) => {
            put_head(out, at, "WHILE ", test, " DO")?;
            put_inner(out, at, body.as_slice())?;
            put_line(out, at.level, "END_WHILE;")
        }
        Stmt::Exit => put_line(out, at.level, "EXIT;"),
        Stmt::Continue => put_line(out, at.level, "CONTINUE;"),
        Stmt::Return => put_line(out, at.level, "RETURN;"),
    }
}

/// Appends an arm of an IF after its word and a blank.
#[cycle(statements)]
fn put_arm(out: &mut Vec<u8>, at: Context<'_>, word: &str, arm: &Arm) -> Result<(), NoMemory>
    ensures { OnOk result (out.new.items ≡ out.old.items
        ++ arm_text (names_in at.entry.tree.now at.entry.unit.now) arm.now word.now at.entry.level) }
{
    put_head(out, at, word, &arm.test, " THEN")?;
    put_inner(out, at, arm.body.as_slice())
}

#[cycle(statements)]
fn put_arms(out: &mut Vec<u8>, at: Context<'_>, arms: &[Arm]) -> Result<(), NoMemory>
    ensures { OnOk result (out.new.items ≡ out.old.items
        ++ arms_text at.entry.level (map (arm_text (names_in at.entry.tree.now at.entry.unit.now)) arms.now)) }
{
    let [first, more @ ..] = arms else {
        return Ok(());
    };
    put_arm(out, at, "IF ", first)?;
    for arm in more {
        put_arm(out, at, "ELSIF ", arm)?;
    }
    Ok(())
}

#[cycle(statements)]
fn put_cases(
    out: &mut Vec<u8>,
    at: Context<'_>,
    ty: StType,
    arms: &[CaseArm],
) -> Result<(), NoMemory>
    ensures { let names = names_in at.entry.tree.now at.entry.unit.now in
        OnOk result (out.new.items ≡ out.old.items
        ++ flat_map (λ arm. arm ty at.entry.level) (map (case_text names) arms.now)) }
{
    for arm in arms {
        put_case(out, at, ty, arm)?;
    }
    Ok(())
}

#[cycle(statements)]
fn put_case(out: &mut Vec<u8>, at: Context<'_>, ty: StType, arm: &CaseArm) -> Result<(), NoMemory>
    ensures { OnOk result (out.new.items ≡ out.old.items
        ++ case_text (names_in at.entry.tree.now at.entry.unit.now) arm.now ty at.entry.level) }
{
    let [first, more @ ..] = arm.labels.as_slice() else {
        return Ok(());
    };
    let level = deeper(at.level)?;
    put_labels(out, level, ty, *first, more)?;
    put_inner(out, Context { level, ..at }, arm.body.as_slice())
}

#[cycle(statements)]
fn put_else(out: &mut Vec<u8>, at: Context<'_>, other: &[Stmt]) -> Result<(), NoMemory>
    ensures { let names = names_in at.entry.tree.now at.entry.unit.now in
        OnOk result (out.new.items ≡ out.old.items
        ++ else_text at.entry.level (map (statement_text names) other.now)) }
{
    if other.is_empty() {
        return Ok(());
    }
    put_line(out, at.level, "ELSE")?;
    put_inner(out, at, other)
}
