//! The calls of functions in the statements of a unit, with their lines.
ghost use Rattle.std.specs.Prelude.{◌≡◌, ◌++◌, map, OnOk};
ghost use Rattle.st_rules.specs.Calls.{all_calls, call_on, calls_of, calls_of_action, calls_of_arm, calls_of_case_arm, join_calls};

use call_chains::Call;
use s7_base::{Line, List, NoMemory, Reason};
use st_names::scope::NameScope;
use st_statement_types::callee;
use st_tree::{RawArm, RawCaseArm, RawStmt, RawStmtKind, key_of};
use std::alloc::Global;

fn call_on(line: Line, called: Result<u32, Reason>, calls: &mut List<Call>) -> Result<(), NoMemory>
    ensures { OnOk result (calls.new ≡ calls.old ++ call_on line called) }
{
    match called {
        Ok(callee) => calls.push(Call { line, callee }),
        Err(_) => Ok(()),
    }
}

/// The calls in a list of statements.
#[cycle(calls)]
pub fn all_calls(
    alloc: Global,
    scope: &NameScope,
    raws: &[RawStmt],
    calls: &mut List<Call>,
) -> Result<(), NoMemory>
    ensures { OnOk result (calls.new ≡ calls.old ++ all_calls scope.now raws.now) }
{
    for raw in raws {
        calls_of_action(alloc, scope, raw.line, &raw.kind, calls)?;
    }
    Ok(())
}

#[cycle(calls)]
fn calls_of_arms(
    alloc: Global,
    scope: &NameScope,
    raws: &[RawArm],
    calls: &mut List<Call>,
) -> Result<(), NoMemory>
    ensures { OnOk result (calls.new ≡ calls.old ++ join_calls (map (calls_of_arm scope.now) raws.now)) }
{
    for raw in raws {
        all_calls(alloc, scope, raw.body.as_slice(), calls)?;
    }
    Ok(())
}

#[cycle(calls)]
fn calls_of_case_arms(
    alloc: Global,
    scope: &NameScope,
    raws: &[RawCaseArm],
    calls: &mut List<Call>,
) -> Result<(), NoMemory>
    ensures { OnOk result (calls.new ≡ calls.old ++ join_calls (map (calls_of_case_arm scope.now) raws.now)) }
{
    for raw in raws {
        all_calls(alloc, scope, raw.body.as_slice(), calls)?;
    }
    Ok(())
}

#[cycle(calls)]
fn calls_of_action(
    alloc: Global,
    scope: &NameScope,
    line: Line,
    raw: &RawStmtKind,
    calls: &mut List<Call>,
) -> Result<(), NoMemory>
    ensures { OnOk result (calls.new ≡ calls.old ++ calls_of_action scope.now raw.now line) }
{
    match raw {
        RawStmtKind::Invoke(name, _) => {
            let key = key_of(alloc, name.as_slice())?;
            call_on(line, callee(scope.meaning(key.as_slice())), calls)
        }
        RawStmtKind::If(arms, other) => {
            calls_of_arms(alloc, scope, arms.as_slice(), calls)?;
            all_calls(alloc, scope, other.as_slice(), calls)
        }
        RawStmtKind::Case(_, arms, other) => {
            calls_of_case_arms(alloc, scope, arms.as_slice(), calls)?;
            all_calls(alloc, scope, other.as_slice(), calls)
        }
        RawStmtKind::While(_, body) => all_calls(alloc, scope, body.as_slice(), calls),
        RawStmtKind::Assign(_, _) => Ok(()),
        RawStmtKind::AreaWrite(_, _, _) => Ok(()),
        RawStmtKind::Exit => Ok(()),
        RawStmtKind::Continue => Ok(()),
        RawStmtKind::Return => Ok(()),
    }
}
