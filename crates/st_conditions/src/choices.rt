//! IF statements whose ELSE is one IF.
ghost use Rattle.std.specs.Prelude.{◌≡◌, ◌++◌, IfOk, OnOk, true};
ghost use Rattle.condition_laws.specs.inner.Rewriting.{choice_of, is_choice};

use s7_base::{List, NoMemory};
use st_tree::{Arm, Stmt};

/// Whether statements are one IF.
fn is_choice(body: &[Stmt]) -> bool
    ensures { result ≡ is_choice body.now }
{
    match body {
        [only] => matches!(only, Stmt::If(_, _)),
        _ => false,
    }
}

fn push_arms(arms: &mut List<Arm>, more: List<Arm>) -> Result<(), NoMemory>
    ensures { OnOk result (arms.new ≡ arms.old ++ more) }
{
    for arm in more.into_vec() {
        arms.push(arm)?;
    }
    Ok(())
}

/// An IF with the arms of the IF that its ELSE is, and with its ELSE.
fn merge(arms: List<Arm>, other: List<Stmt>) -> Result<Stmt, NoMemory>
    requires { is_choice other ≡ true }
    ensures { IfOk result (λ new. new ≡ choice_of arms other) }
{
    let mut arms = arms;
    let mut rest = other.into_vec();
    match rest.remove(0) {
        Stmt::If(more, last) => {
            push_arms(&mut arms, more)?;
            Ok(Stmt::If(arms, last))
        }
        _ => unreachable!(),
    }
}

/// An IF, which takes the arms and the ELSE of an IF that stands alone after its own ELSE.
pub fn choice_of(arms: List<Arm>, other: List<Stmt>) -> Result<Stmt, NoMemory>
    ensures { IfOk result (λ new. new ≡ choice_of arms other) }
{
    if is_choice(other.as_slice()) {
        merge(arms, other)
    } else {
        Ok(Stmt::If(arms, other))
    }
}
