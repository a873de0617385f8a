//! Cases for what no command shows of the machine: that a run is the same in any portions of steps, and stays at
//! its end.
ghost use Rattle.stl_tree.specs.Accepted.{IsAccepted};

use crate::wants::wants;
use memory_areas::{Area, INPUT_BYTES, MARKER_BYTES, Memory, OUTPUT_BYTES};
use s7_base::{Fault, List, Outcome};
use std::alloc::Global;
use std::process::Abort;
use std::test::Fail;
use stl_checks::verdict;
use stl_machine::Machine;
use stl_tree::{BlockName, Call, Program};

const ENDED: Outcome = Outcome::Ended(None);

const GOING: Outcome = Outcome::Going;

const NOT_OPEN: Outcome = Outcome::Ended(Some(Fault::DbNotOpen));

/// Whether a memory is zero but for output byte 4.
fn is_zero_but(memory: &Memory, output_4: u8) -> bool {
    let mut outputs = [0; OUTPUT_BYTES];
    outputs[4] = output_4;
    memory.bytes(Area::I) == Some([0; INPUT_BYTES].as_slice())
        && memory.bytes(Area::Q) == Some(outputs.as_slice())
        && memory.bytes(Area::M) == Some([0; MARKER_BYTES].as_slice())
}

/// The steps of a portion, the outcome of the run after it, and output byte 4.
type Portion = (u64, Outcome, u8);

/// Tests a machine after each of these portions.
fn wants_steps(rt: &impl Abort, machine: &mut Machine<'_>, portions: &[Portion]) {
    for (steps, outcome, output_4) in portions {
        wants(rt, steps, &machine.run(*steps), outcome);
        wants(rt, steps, &is_zero_but(machine.memory(), *output_4), &true);
    }
}

/// Tests a run of OB 1 after each of these portions.
fn wants_portions(
    rt: &impl Abort,
    alloc: Global,
    program: &Program,
    portions: &[Portion],
) -> Result<(), Fail>
    requires { IsAccepted program.now }
{
    let memory = Memory::new(alloc, program.dbs.as_slice())?;
    let call = Call {
        block: BlockName::Ob(1),
        instance: 0,
        actuals: List::new(alloc),
    };
    let mut machine = Machine::new(alloc, program, memory, &call)?;
    wants_steps(rt, &mut machine, portions);
    Ok(())
}

/// Tests the run of a source in each of these rows of portions.
fn want_portions(
    rt: &impl Abort,
    alloc: Global,
    source: &str,
    rows: &[&[Portion]],
) -> Result<(), Fail> {
    let program = verdict(alloc, source.as_bytes())?;
    for portions in rows {
        wants_portions(rt, alloc, &program, portions)?;
    }
    Ok(())
}

const ONE_OUTPUT: &str = "ORGANIZATION_BLOCK OB 1 BEGIN AN I 0.0; = Q 4.0; END_ORGANIZATION_BLOCK";

static STRAIGHT: [&[Portion]; 7] = [
    &[(2, GOING, 1), (1, ENDED, 1)],
    &[(3, ENDED, 1)],
    &[(1, GOING, 0), (1, GOING, 1), (1, ENDED, 1)],
    &[(0, GOING, 0), (3, ENDED, 1)],
    &[(1, GOING, 0), (0, GOING, 0), (2, ENDED, 1)],
    &[(1, GOING, 0), (5, ENDED, 1), (1, ENDED, 1)],
    &[
        (u64::MAX, ENDED, 1),
        (0, ENDED, 1),
        (1, ENDED, 1),
        (u64::MAX, ENDED, 1),
    ],
];

#[test]
fn a_run_is_the_same_in_any_portions_and_stays_at_its_end(rt: HostRuntime) -> Result<(), Fail> {
    want_portions(&rt, rt.alloc(), ONE_OUTPUT, &STRAIGHT)
}

const EMPTY: &str = "ORGANIZATION_BLOCK OB 1 BEGIN END_ORGANIZATION_BLOCK";

static END_WORD: [&[Portion]; 1] = [&[(0, GOING, 0), (1, ENDED, 0), (0, ENDED, 0), (1, ENDED, 0)]];

#[test]
fn the_end_word_is_a_step(rt: HostRuntime) -> Result<(), Fail> {
    want_portions(&rt, rt.alloc(), EMPTY, &END_WORD)
}

/// Two turns of a LOOP before the output is set.
const COUNTED: &str =
    "ORGANIZATION_BLOCK OB 1 BEGIN L 2; n: LOOP n; AN I 0.0; = Q 4.0; END_ORGANIZATION_BLOCK";

static TURNS: [&[Portion]; 3] = [
    &[(5, GOING, 1), (1, ENDED, 1)],
    &[(1, GOING, 0), (1, GOING, 0), (1, GOING, 0), (3, ENDED, 1)],
    &[(2, GOING, 0), (0, GOING, 0), (u64::MAX, ENDED, 1)],
];

/// The second JU of a list is a step.
const CHOSEN: &str =
    "ORGANIZATION_BLOCK OB 1 BEGIN L 1; JL d; JU e; JU d; d: AN I 0.0; e: = Q 4.0; END_ORGANIZATION_BLOCK";

static CHOICES: [&[Portion]; 2] = [
    &[(2, GOING, 0), (1, GOING, 0), (2, GOING, 1), (1, ENDED, 1)],
    &[(6, ENDED, 1)],
];

const ENDED_EARLY: &str =
    "ORGANIZATION_BLOCK OB 1 BEGIN AN I 0.0; = Q 4.0; BEC; = Q 4.1; END_ORGANIZATION_BLOCK";

static END_IF: [&[Portion]; 2] = [
    &[(2, GOING, 1), (1, ENDED, 1), (1, ENDED, 1)],
    &[(u64::MAX, ENDED, 1)],
];

const ENDLESS: &str = "ORGANIZATION_BLOCK OB 1 BEGIN a: JU a; END_ORGANIZATION_BLOCK";

static NO_END: [&[Portion]; 1] = [&[(0, GOING, 0), (1, GOING, 0), (100_000, GOING, 0)]];

#[test]
fn jumps_go_on_where_they_lead_in_any_portions(rt: HostRuntime) -> Result<(), Fail> {
    let alloc = rt.alloc();
    want_portions(&rt, alloc, COUNTED, &TURNS)?;
    want_portions(&rt, alloc, CHOSEN, &CHOICES)?;
    want_portions(&rt, alloc, ENDED_EARLY, &END_IF)?;
    want_portions(&rt, alloc, ENDLESS, &NO_END)
}

/// A call, its end and the fault of a second call are a step each.
const CALLING: &str =
    "FUNCTION FC 1 : VOID VAR_IN_OUT b : BOOL; END_VAR BEGIN SET; = #b; END_FUNCTION ORGANIZATION_BLOCK OB 1 BEGIN CALL FC 1 (b := Q 4.0); CALL FC 1 (b := DBX 0.0); END_ORGANIZATION_BLOCK";

static CALLS: [&[Portion]; 3] = [
    &[
        (1, GOING, 0),
        (2, GOING, 1),
        (1, GOING, 1),
        (1, NOT_OPEN, 1),
    ],
    &[
        (4, GOING, 1),
        (1, NOT_OPEN, 1),
        (0, NOT_OPEN, 1),
        (1, NOT_OPEN, 1),
    ],
    &[(u64::MAX, NOT_OPEN, 1), (u64::MAX, NOT_OPEN, 1)],
];

#[test]
fn a_fault_in_a_call_ends_the_run_and_the_writes_before_it_stand(
    rt: HostRuntime,
) -> Result<(), Fail> {
    want_portions(&rt, rt.alloc(), CALLING, &CALLS)
}
