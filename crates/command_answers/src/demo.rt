//! What the demo answers: a source of its own is translated, and the program and the text of its translation
//! are run.
//!
//! That both runs end alike is what `translate` promises of every program; the demo shows it.
ghost use Rattle.std.specs.Prelude.{◌≡◌, ◌≤◌, codes, IfOk};
ghost use Rattle.memory_areas.specs.Areas.{fresh};
ghost use Rattle.st_tree.specs.Proper.{Proper};
ghost use Rattle.stl_tree.specs.Accepted.{IsAccepted};
ghost use Rattle.stl_translate.specs.Same.{Same};
ghost use Rattle.s7_demo.specs.Demo.{demo_source};
ghost use Rattle.command_answers.specs.Answer.{AnswersDemo, AnswersStl, demo_call, instructions_in, summary};
ghost use Rattle.command_answers.specs.Inputs.{SaysRead};
ghost use Rattle.command_answers.specs.inner.Replies.{AnswersAsTranslated, IsWritten, reply_of};

use crate::reply::{Reply, call_reply, refusal_line, reply_of_text, text_call_reply};
use crate::status::Status;
use crate::text::{push_text, put_number};
use memory_areas::{BlockName, Call, Memory};
use s7_base::{List, NoMemory, Rejection};
use s7_demo::demo_source;
use st_parser::parse;
use st_printer::print;
use st_tree::StProgram;
use std::alloc::Global;
use std::mem::forget;
use stl_checks::verdict;
use stl_translate::translate;
use stl_tree::Program;

/// How many steps the program of a demo may take.
const STEPS: u64 = 1_000_000;

/// How many units the text of its translation may take: two for each step.
const UNITS: u64 = 2_000_000;

fn demo_call(alloc: Global) -> Call
    ensures { result ≡ demo_call }
{
    Call {
        block: BlockName::Ob(1),
        instance: 0,
        actuals: List::new(alloc),
    }
}

/// How many instructions a program has, end words counted.
fn instruction_count(program: &Program) -> u128
    ensures { result ≡ instructions_in program.now }
{
    let mut count = 0;
    for block in program.blocks.as_slice() {
        count += block.body.len() as u128;
    }
    count
}

/// The text of a demo whose runs are equal.
fn summary(alloc: Global, networks: u32, program: &Program) -> Result<Vec<u8>, NoMemory>
    ensures { IfOk result (λ text. text.items ≡ summary networks program.now) }
{
    let count = instruction_count(program);
    let instructions = format!(in alloc; "{count}")?;
    let mut text = Vec::new(alloc);
    push_text(&mut text, "networks ")?;
    put_number(&mut text, networks)?;
    push_text(&mut text, "\ninstructions ")?;
    push_text(&mut text, instructions.as_str())?;
    push_text(&mut text, "\nruns equal\n")?;
    Ok(text)
}

/// The translation of a program, read back from its text.
fn translation(alloc: Global, program: &Program) -> Result<StProgram, NoMemory>
    requires { IsAccepted program.now }
    ensures proper { IfOk result Proper }
    ensures same { IfOk result (λ tree. Same program.now tree) }
{
    let tree = translate(alloc, program)?;
    let text = print(alloc, &tree)?;
    forget(tree);
    match parse(alloc, text.as_slice()) {
        Ok(tree) => Ok(tree),
        // What is printed reads back.
        Err(Rejection::Refused(_, _)) => unreachable!(),
        Err(Rejection::NoMemory) => Err(NoMemory),
    }
}

/// Runs a call of the text of a program's translation from the memory at the start.
fn translation_reply(alloc: Global, program: &Program, call: &Call) -> Result<Reply, NoMemory>
    requires { IsAccepted program.now }
    ensures { IfOk result (λ reply. AnswersAsTranslated program.now call.now (reply_of reply)) }
{
    let tree = translation(alloc, program)?;
    let memory = Memory::new(alloc, tree.dbs.as_slice())?;
    let reply = text_call_reply(alloc, &tree, call, UNITS, memory);
    forget(tree);
    reply
}

/// What is answered to the program of a demo.
fn runs_reply(alloc: Global, networks: u32, program: &Program) -> Result<Reply, NoMemory>
    requires { IsAccepted program.now }
    ensures answer { IfOk result (λ reply. AnswersDemo networks program.now (reply_of reply)) }
    ensures status { IfOk result (λ reply. IsWritten reply.status × SaysRead reply.status) }
{
    let call = demo_call(alloc);
    let memory = Memory::new(alloc, program.dbs.as_slice())?;
    let reply = call_reply(alloc, program, &call, STEPS, memory)?;
    if reply.status != Status::Done {
        return Ok(reply);
    }
    let translated = translation_reply(alloc, program, &call)?;
    if translated.text.as_bytes() == reply.text.as_bytes() {
        Ok(reply_of_text(Status::Done, summary(alloc, networks, program)?))
    } else {
        // The text of a translation ends as the program does.
        unreachable!()
    }
}

/// What is answered to a demo of so many networks.
pub fn demo_reply(alloc: Global, networks: u32) -> Result<Reply, NoMemory>
    requires { networks ≤ 50000 }
    ensures answer { IfOk result (λ reply. AnswersStl (AnswersDemo networks) (demo_source networks) (reply_of reply)) }
    ensures status { IfOk result (λ reply. IsWritten reply.status × SaysRead reply.status) }
{
    let source = demo_source(alloc, networks)?;
    match verdict(alloc, source.as_slice()) {
        Ok(program) => {
            let reply = runs_reply(alloc, networks, &program);
            forget(program);
            reply
        }
        Err(Rejection::Refused(line, reason)) => Ok(reply_of_text(
            Status::Refused,
            refusal_line(alloc, line, reason)?,
        )),
        Err(Rejection::NoMemory) => Err(NoMemory),
    }
}
