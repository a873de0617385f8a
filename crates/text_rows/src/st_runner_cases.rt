//! Cases for what no clause says: that a runner is made while there is memory; and for what no command shows:
//! a run that goes on after a portion of its units.
ghost use Rattle.st_tree.specs.Proper.{Proper};

use crate::wants::wants;
use memory_areas::{BlockName, Call, Memory};
use s7_base::{List, Outcome};
use st_parser::parse;
use st_runner::{Runner, RunnerRefusal};
use st_tree::StProgram;
use std::alloc::Global;
use std::process::Abort;
use std::test::Fail;

/// A program that counts a local from 0 to 2 in a loop.
const COUNTING: &str = "PROGRAM OB1\n    VAR_TEMP\n        count : DINT;\n    END_VAR\n\
    WHILE count < 2 DO\n        count := count + 1;\n    END_WHILE;\nEND_PROGRAM\n";

/// The units of a portion, and the outcome of the run of the loop after it.
type Portion = (u64, Outcome);

static PORTIONS: [Portion; 4] = [
    (0, Outcome::Going),
    (2, Outcome::Going),
    (3, Outcome::Ended(None)),
    (9, Outcome::Ended(None)),
];

/// A runner at the start of the program OB1, over a memory of zeros.
fn runner(alloc: Global, tree: &StProgram) -> Result<Runner<'_>, RunnerRefusal>
    requires { Proper tree.now }
{
    let memory = Memory::new(alloc, tree.dbs.as_slice())?;
    let call = Call {
        block: BlockName::Ob(1),
        instance: 0,
        actuals: List::new(alloc),
    };
    Runner::new(alloc, tree, memory, &call)
}

/// Tests a run after a portion, and that it is over three units later.
fn wants_portion(
    rt: &impl Abort,
    alloc: Global,
    tree: &StProgram,
    portion: &Portion,
) -> Result<(), RunnerRefusal>
    requires { Proper tree.now }
{
    let (units, outcome) = *portion;
    let mut runner = runner(alloc, tree)?;
    let found = (runner.run(units), runner.run(3));
    wants(rt, &units, &found, &(outcome, Outcome::Ended(None)));
    Ok(())
}

fn want_portions(
    rt: &impl Abort,
    alloc: Global,
    tree: &StProgram,
    portions: &[Portion],
) -> Result<(), RunnerRefusal>
    requires { Proper tree.now }
{
    for portion in portions {
        wants_portion(rt, alloc, tree, portion)?;
    }
    Ok(())
}

#[test]
fn each_test_of_a_loop_takes_a_unit(rt: HostRuntime) -> Result<(), Fail> {
    match parse(rt.alloc(), COUNTING.as_bytes()) {
        Ok(tree) => Ok(want_portions(&rt, rt.alloc(), &tree, &PORTIONS)?),
        Err(refused) => Err(refused.into()),
    }
}
