//! What waits while statements run, and what comes next.

use s7_base::Fault;
use st_tree::{Expr, Stmt, Var};

/// What follows when the statements above it have ended. Statements come with the place of their parts in the
/// plan.
#[derive(Clone, Copy)]
pub enum Frame<'t> {
    /// The rest of a list of statements.
    Rest(&'t [Stmt], usize),

    /// The test of a loop again, and its body.
    Again(&'t Expr, &'t [Stmt], usize),

    /// The end of the running unit, which was called.
    Unit,
}

/// What a run does next. Statements come with the place of their parts in the plan.
#[derive(Clone, Copy)]
pub enum At<'t> {
    /// The statements that wait.
    Work,

    /// The test of a loop, for which a unit is taken, and its body.
    Test(&'t Expr, &'t [Stmt], usize),

    /// The call of a unit with its actuals, for which a unit is taken.
    Call(u32, &'t [Var]),

    /// Nothing: the run has ended.
    Over(Option<Fault>),
}
