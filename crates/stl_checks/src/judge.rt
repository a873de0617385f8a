//! Judges a source text: its program, or the line and the reason of the first broken rule.
ghost use Rattle.std.specs.Prelude.{◌≡◌, IfOk, Some};
ghost use Rattle.s7_base.specs.Answers.{Answers, IfRefused};
ghost use Rattle.s7_base.specs.Broken.{first_of_all};
ghost use Rattle.stl_checks.specs.Refusals.{IsNamed};
ghost use Rattle.stl_checks.specs.inner.Chains.{program_by_chain};
ghost use Rattle.stl_rules.specs.Stages.{bodies};
ghost use Rattle.stl_rules.specs.Verdict.{checked_program, verdict};
ghost use Rattle.stl_tree.specs.Accepted.{IsAccepted};

use crate::bodies::first_in_bodies;
use crate::chain::first_in_chain;
use s7_base::{Break, Rejection};
use std::alloc::Global;
use stl_reader::read_blocks;
use stl_tree::{Program, RawProgram};
use symbol_names::{first_in_names, resolve};

/// The answer to a program, by the first rule that the chain of its calls breaks.
fn with_chain(alloc: Global, program: Program) -> Result<Program, Rejection>
    ensures { Answers result (program_by_chain program) }
{
    match first_in_chain(alloc, &program)? {
        Some(first) => Err(Rejection::Refused(first.line, first.rule)),
        None => Ok(program),
    }
}

/// The answer to a raw program whose bodies break a rule: that rule, if the names break none.
#[tactic(auto, using(crate::proofs::Judging::refused_laws))]
fn refused_by(alloc: Global, raw: &RawProgram, later: Break) -> Result<Program, Rejection>
    requires { Some later ≡ first_of_all (bodies raw.now) }
    ensures { Answers result (checked_program raw.now) }
{
    match first_in_names(alloc, raw)? {
        Some(first) => Err(Rejection::Refused(first.line, first.rule)),
        None => Err(Rejection::Refused(later.line, later.rule)),
    }
}

/// The program of a raw program, or its first broken rule. The bodies are judged before a program is made of the
/// names, so that no block has more formals than one may have then.
#[tactic(auto, using(crate::proofs::Judging::not_resolved, crate::proofs::Judging::chained_is))]
fn checked_program(alloc: Global, raw: RawProgram) -> Result<Program, Rejection>
    ensures { Answers result (checked_program raw) }
{
    match first_in_bodies(alloc, &raw)? {
        Some(later) => refused_by(alloc, &raw, later),
        None => with_chain(alloc, resolve(alloc, raw)?),
    }
}

/// The program of a text, or its first broken rule.
pub fn verdict(alloc: Global, bytes: &[u8]) -> Result<Program, Rejection>
    ensures verdict { Answers result (verdict bytes.now) }
    ensures accepted { IfOk result (λ program. IsAccepted program) }
    ensures refused { IfRefused result (IsNamed bytes.now) }
{
    match read_blocks(alloc, bytes) {
        Ok(raw) => checked_program(alloc, raw),
        Err(refused) => Err(refused),
    }
}
