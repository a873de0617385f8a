//! The statements that are made: IF, loops, and what stands for an exit.
ghost use Rattle.std.specs.Prelude.{◌≡◌, [], ◌∷◌, ◌++◌, IfOk, OnOk};
ghost use Rattle.graph_rules.specs.Plain.{AreSettings};
ghost use Rattle.region_laws.specs.NextLocal.{set_next};
ghost use Rattle.region_laws.specs.Regions.{choice, forever};

use s7_base::{List, NoMemory};
use st_tree::{Arm, Expr, StType, Stmt, Var};
use std::alloc::Global;

/// A list of one statement.
pub fn one_statement(alloc: Global, statement: Stmt) -> Result<List<Stmt>, NoMemory>
    ensures { IfOk result (λ body. body ≡ statement ∷ []) }
{
    let body = vec![in alloc; statement]?;
    Ok(List::from_vec(body))
}

/// Puts statements behind others.
pub fn push_all(out: &mut List<Stmt>, statements: List<Stmt>) -> Result<(), NoMemory>
    ensures { OnOk result (out.new ≡ out.old ++ statements) }
{
    for statement in statements.into_vec() {
        out.push(statement)?;
    }
    Ok(())
}

/// Some statements where a test is TRUE, others where it is FALSE.
pub fn choice(
    alloc: Global,
    test: Expr,
    body: List<Stmt>,
    other: List<Stmt>,
) -> Result<Stmt, NoMemory>
    ensures { IfOk result (λ statement. statement ≡ choice test body other) }
{
    let arms = vec![in alloc; Arm { test, body }]?;
    Ok(Stmt::If(List::from_vec(arms), other))
}

/// WHILE TRUE.
pub fn endless(body: List<Stmt>) -> Stmt
    ensures { result ≡ forever body }
{
    Stmt::While(Expr::Literal(StType::Bool, 1), body)
}

/// The selector takes the number of a block.
pub fn select(selector: u32, number: u32) -> Stmt
    ensures { result ≡ set_next selector number }
{
    Stmt::Assign(
        Var::Local(selector),
        Expr::Literal(StType::Dint, i64::from(number)),
    )
}

/// A copy of statements that put literals into register variables.
pub fn settings(alloc: Global, statements: &[Stmt]) -> Result<List<Stmt>, NoMemory>
    requires { AreSettings statements.now }
    ensures { IfOk result (λ copy. copy ≡ statements.now) }
{
    let mut copy = List::new(alloc);
    for statement in statements {
        copy.push(setting(statement))?;
    }
    Ok(copy)
}

/// A copy of one of them.
fn setting(statement: &Stmt) -> Stmt
    requires { AreSettings (statement.now ∷ []) }
    ensures { result ≡ statement.now }
{
    match statement {
        Stmt::Assign(var, Expr::Literal(ty, value)) => {
            Stmt::Assign(*var, Expr::Literal(*ty, *value))
        }
        _ => unreachable!(),
    }
}
