//! What a command answers: a status and a text.
//!
//! `reply_to` chooses what each command does. `source_reply` and `text_reply` read and judge a source of
//! their language, `program_reply` does a job with a program, and runs read their image then; `demo` reads
//! neither. A program and its tree are not given back part by part, since the process ends behind the reply.
ghost use Rattle.std.specs.Prelude.{◌≡◌, ◌≢◌, ◌≤◌, Some, Ok, None, IfOk, IfErr, MatchOption, length};
ghost use Rattle.memory_areas.specs.Areas.{IsMemoryOf};
ghost use Rattle.st_tree.specs.Proper.{Proper};
ghost use Rattle.st_tree.specs.StRun.{FitsSt, st_run};
ghost use Rattle.stl_tree.specs.Accepted.{IsAccepted};
ghost use Rattle.stl_tree.specs.StlRun.{Fits, stl_run};
ghost use Rattle.command_answers.specs.Answer.{Answers, AnswersRow, AnswersRunSt, AnswersRunStl, WantsRow, stl, st, image_line, image_reply, refusal_line, run_status};
ghost use Rattle.command_words.specs.Command.{command_of_words};
ghost use Rattle.command_answers.specs.Devices.{input};
ghost use Rattle.command_answers.specs.Inputs.{IsReadPast, IsReadWhole, IsReadWithin, ReadsFor, ReadsInputs, SaysRead, Stopped};
ghost use Rattle.command_answers.specs.inner.Replies.{Answered, AnsweredCall, AnsweredTo, AnswersJob, AnswersTextJob, IsWritten, ReadsImage, ReadsWork, bytes_of_text, ending, reply_of, stop_status, task_of, text_work_of, work_of};

use crate::demo::demo_reply;
use crate::limits::{IMAGE_LIMIT, INPUT_LIMIT};
use crate::status::Status;
use crate::text::{push_text, put_number};
use command_words::{Command, WordsRefusal, read_words};
use image_text::{ImageRefusal, image_text, read_image};
use memory_areas::{Call, Memory};
use s7_base::{Line, NoMemory, Outcome, Reason, Rejection};
use s7_io::{ReadRefusal, Source, read_all};
use st_parser::parse;
use st_printer::print;
use st_runner::{Runner, RunnerRefusal};
use st_tree::StProgram;
use std::alloc::Global;
use std::mem::forget;
use stl_checks::verdict;
use stl_machine::{Machine, MachineRefusal};
use stl_translate::translate;
use stl_tree::Program;

/// The answer to arguments that are no command.
pub const USAGE_LINE: &str =
    "usage: stl2st translate | check | run-stl STEPS CALL IMAGE | run-st UNITS CALL IMAGE | demo N\n";

const TOO_LONG_LINE: &str = "too long\n";

const ACCEPTED_LINE: &str = "accepted\n";

const BAD_CALL_LINE: &str = "bad call\n";

/// A text to write, which takes memory only where it is made.
#[derive(Debug, Drop)]
pub enum Text {
    /// A line that is the same for every input.
    Fixed(&'static str),

    /// A text that was made for this input.
    Made(Vec<u8>),
}

impl Text {
    /// The bytes of the text.
    pub fn as_bytes(&self) -> &[u8]
        ensures { result.now ≡ bytes_of_text self.now }
    {
        match self {
            Text::Fixed(line) => line.as_bytes(),
            Text::Made(bytes) => bytes.as_slice(),
        }
    }
}

/// The answer of a command: a status and a text.
#[derive(Debug, Drop)]
pub struct Reply {
    pub status: Status,
    pub text: Text,
}

/// What keeps a command from answering.
#[derive(Clone, Copy, Debug, PartialEq, Eq)]
pub enum Stop {
    /// An input could not be read.
    ReadFault,

    /// Memory ran out.
    NoMemory,
}

impl From<NoMemory> for Stop {
    ghost use Rattle.std.specs.Prelude.{◌≡◌};
    ghost use Rattle.command_answers.specs.declared.reply.Stop.TheVariants as stop;

    ghost from_gives = { λ _ reply_of_text. reply_of_text ≡ stop.NoMemory };

    fn from(_error: NoMemory) -> Stop {
        Stop::NoMemory
    }
}

/// What is done with the program of an STL source.
#[derive(Debug, Drop)]
pub enum Job {
    /// The program is written as Structured Text.
    Translate,

    /// The answer is only that the program is accepted.
    Check,

    /// The program runs from a call on, for at most this many steps.
    Run(u64, Call),
}

/// What is done with the tree of a Structured Text.
#[derive(Debug, Drop)]
pub enum TextJob {
    /// The tree runs from a call on, for at most this many units.
    Run(u64, Call),
}

/// What a command asks for, by the language of the source that it reads.
#[derive(Debug, Drop)]
pub enum Task {
    /// A job with the program of an STL source.
    Stl(Job),

    /// A job with the tree of a Structured Text.
    St(TextJob),

    /// A demo of this many networks, which reads no source.
    Demo(u32),
}

fn task_of(command: Command) -> Task
    ensures { result ≡ task_of command }
{
    match command {
        Command::Translate => Task::Stl(Job::Translate),
        Command::Check => Task::Stl(Job::Check),
        Command::RunStl(steps, call) => Task::Stl(Job::Run(steps, call)),
        Command::RunSt(units, call) => Task::St(TextJob::Run(units, call)),
        Command::Demo(networks) => Task::Demo(networks),
    }
}

fn reply_of_line(status: Status, line: &'static str) -> Reply
    ensures { reply_of result ≡ (status, line.now) }
{
    Reply {
        status,
        text: Text::Fixed(line),
    }
}

pub fn reply_of_text(status: Status, text: Vec<u8>) -> Reply
    ensures { reply_of result ≡ (status, text.items) }
{
    Reply {
        status,
        text: Text::Made(text),
    }
}

/// The line that names a broken rule.
pub fn refusal_line(alloc: Global, line: Line, reason: Reason) -> Result<Vec<u8>, NoMemory>
    ensures { IfOk result (λ text. text.items ≡ refusal_line line reason) }
{
    let name = format!(in alloc; "{reason}")?;
    let mut text = Vec::new(alloc);
    push_text(&mut text, "line ")?;
    put_number(&mut text, line.0)?;
    push_text(&mut text, ": ")?;
    push_text(&mut text, name.as_str())?;
    push_text(&mut text, "\n")?;
    Ok(text)
}

/// The line that names a faulty line of an image.
fn image_line(alloc: Global, line: Line, name: &str) -> Result<Vec<u8>, NoMemory>
    ensures { IfOk result (λ text. text.items ≡ image_line line name.now) }
{
    let mut text = Vec::new(alloc);
    push_text(&mut text, "image line ")?;
    put_number(&mut text, line.0)?;
    push_text(&mut text, ": ")?;
    push_text(&mut text, name)?;
    push_text(&mut text, "\n")?;
    Ok(text)
}

fn image_reply(alloc: Global, refusal: ImageRefusal) -> Result<Reply, NoMemory>
    ensures value { IfOk result (λ reply. reply_of reply ≡ image_reply refusal) }
    ensures status { IfOk result (λ reply. IsWritten reply.status × SaysRead reply.status) }
{
    let text = match refusal {
        ImageRefusal::BadLine(line) => image_line(alloc, line, "BadLine")?,
        ImageRefusal::BadByte(line) => image_line(alloc, line, "BadByte")?,
        ImageRefusal::OutsideArea(line) => image_line(alloc, line, "OutsideArea")?,
        ImageRefusal::NoMemory => return Err(NoMemory),
    };
    Ok(reply_of_text(Status::BadImage, text))
}

fn run_status(outcome: Outcome) -> Status
    ensures value { result ≡ run_status outcome }
    ensures status { IsWritten result × SaysRead result }
{
    match outcome {
        Outcome::Ended(None) => Status::Done,
        Outcome::Ended(Some(_)) => Status::Faulted,
        Outcome::Going => Status::Going,
    }
}

/// An input, read to its end; `None` where it is longer than its limit.
fn read_input<S: Source>(
    alloc: Global,
    source: &mut S,
    limit: usize,
) -> Result<Option<Vec<u8>>, Stop>
    ensures found { IfOk result (λ found. MatchOption found
        (IsReadPast (input S.Source source.old source.new) limit)
        (λ bytes. IsReadWhole (input S.Source source.old source.new) bytes.items × (length bytes.items ≤ limit))) }
    ensures stopped { IfErr result (λ stop. Stopped (input S.Source source.old source.new) (stop_status stop)) }
    ensures within { result ≢ Ok None → IsReadWithin (input S.Source source.old source.new) limit }
    ensures later { S.faults source.old ≤ S.faults source.new }
{
    match read_all(alloc, source, limit) {
        Ok(bytes) => Ok(Some(bytes)),
        Err(ReadRefusal::TooLong) => Ok(None),
        Err(ReadRefusal::ReadFault) => Err(Stop::ReadFault),
        Err(ReadRefusal::NoMemory) => Err(Stop::NoMemory),
    }
}

/// Runs a call from a memory.
pub fn call_reply(
    alloc: Global,
    program: &Program,
    call: &Call,
    steps: u64,
    memory: Memory,
) -> Result<Reply, NoMemory>
    requires accepted { IsAccepted program.now }
    requires memory { IsMemoryOf program.now.dbs memory.areas }
    ensures answer { IfOk result (AnsweredCall (Fits program.now call.now)
        (λ start. stl_run program.now call.now start steps) memory.areas) }
    ensures status { IfOk result (λ reply. IsWritten reply.status × SaysRead reply.status) }
{
    let mut machine = match Machine::new(alloc, program, memory, call) {
        Ok(machine) => machine,
        Err(MachineRefusal::BadCall) => return Ok(reply_of_line(Status::BadCall, BAD_CALL_LINE)),
        Err(MachineRefusal::NoMemory) => return Err(NoMemory),
    };
    let outcome = machine.run(steps);
    let report = image_text(alloc, machine.memory(), outcome)?;
    Ok(reply_of_text(run_status(outcome), report))
}

/// Reads an image, and runs a call from it.
fn run_reply<M: Source>(
    alloc: Global,
    program: &Program,
    call: &Call,
    steps: u64,
    image: &mut M,
) -> Result<Reply, Stop>
    requires { IsAccepted program.now }
    ensures answer { IfOk result (AnsweredTo (λ bytes reply. AnswersRunStl steps call.now bytes program.now reply)
        (input M.Source image.old image.new)) }
    ensures reads { ReadsImage (input M.Source image.old image.new) (ending result) }
    ensures later { M.faults image.old ≤ M.faults image.new }
{
    let text = match read_input(alloc, image, IMAGE_LIMIT) {
        Ok(Some(text)) => text,
        Ok(None) => return Ok(reply_of_line(Status::TooLong, TOO_LONG_LINE)),
        Err(stop) => return Err(stop),
    };
    match read_image(alloc, text.as_slice(), program.dbs.as_slice()) {
        Ok(memory) => Ok(call_reply(alloc, program, call, steps, memory)?),
        Err(refusal) => Ok(image_reply(alloc, refusal)?),
    }
}

/// What is answered to a program that is accepted, by what is to be done with it.
fn program_reply<M: Source>(
    alloc: Global,
    job: &Job,
    program: &Program,
    image: &mut M,
) -> Result<Reply, Stop>
    requires { IsAccepted program.now }
    ensures answer { IfOk result (AnsweredTo (AnswersJob job.now program.now) (input M.Source image.old image.new)) }
    ensures reads { ReadsWork (work_of job.now) (input M.Source image.old image.new) (ending result) }
    ensures later { M.faults image.old ≤ M.faults image.new }
{
    match job {
        Job::Translate => {
            let tree = translate(alloc, program)?;
            let text = print(alloc, &tree)?;
            forget(tree);
            Ok(reply_of_text(Status::Done, text))
        }
        Job::Check => Ok(reply_of_line(Status::Done, ACCEPTED_LINE)),
        Job::Run(steps, call) => run_reply(alloc, program, call, *steps, image),
    }
}

/// What is answered to an STL source, and to an image where the job has one.
fn source_reply<P: Source, M: Source>(
    alloc: Global,
    job: &Job,
    program: &mut P,
    image: &mut M,
) -> Result<Reply, Stop>
    ensures answer { IfOk result (Answered (AnswersRow (stl (work_of job.now)))
        (input P.Source program.old program.new) (input M.Source image.old image.new)) }
    ensures reads { ReadsFor (WantsRow (stl (work_of job.now)))
        (input P.Source program.old program.new) (input M.Source image.old image.new) (ending result) }
    ensures program_later { P.faults program.old ≤ P.faults program.new }
    ensures image_later { M.faults image.old ≤ M.faults image.new }
{
    let source = match read_input(alloc, program, INPUT_LIMIT) {
        Ok(Some(source)) => source,
        Ok(None) => return Ok(reply_of_line(Status::TooLong, TOO_LONG_LINE)),
        Err(stop) => return Err(stop),
    };
    match verdict(alloc, source.as_slice()) {
        Ok(program) => {
            let reply = program_reply(alloc, job, &program, image);
            forget(program);
            reply
        }
        Err(Rejection::Refused(line, reason)) => Ok(reply_of_text(
            Status::Refused,
            refusal_line(alloc, line, reason)?,
        )),
        Err(Rejection::NoMemory) => Err(Stop::NoMemory),
    }
}

/// Runs a call of a Structured Text from a memory.
pub fn text_call_reply(
    alloc: Global,
    tree: &StProgram,
    call: &Call,
    units: u64,
    memory: Memory,
) -> Result<Reply, NoMemory>
    requires proper { Proper tree.now }
    requires memory { IsMemoryOf tree.now.dbs memory.areas }
    ensures answer { IfOk result (AnsweredCall (FitsSt tree.now call.now)
        (λ start. st_run tree.now call.now start units) memory.areas) }
    ensures status { IfOk result (λ reply. IsWritten reply.status × SaysRead reply.status) }
{
    let mut runner = match Runner::new(alloc, tree, memory, call) {
        Ok(runner) => runner,
        Err(RunnerRefusal::BadCall) => return Ok(reply_of_line(Status::BadCall, BAD_CALL_LINE)),
        Err(RunnerRefusal::NoMemory) => return Err(NoMemory),
    };
    let outcome = runner.run(units);
    let status = run_status(outcome);
    let report = image_text(alloc, runner.memory(), outcome)?;
    Ok(reply_of_text(status, report))
}

/// Reads an image, and runs a call of a Structured Text from it.
fn tree_reply<M: Source>(
    alloc: Global,
    tree: &StProgram,
    call: &Call,
    units: u64,
    image: &mut M,
) -> Result<Reply, Stop>
    requires { Proper tree.now }
    ensures answer { IfOk result (AnsweredTo (λ bytes reply. AnswersRunSt units call.now bytes tree.now reply)
        (input M.Source image.old image.new)) }
    ensures reads { ReadsImage (input M.Source image.old image.new) (ending result) }
    ensures later { M.faults image.old ≤ M.faults image.new }
{
    let text = match read_input(alloc, image, IMAGE_LIMIT) {
        Ok(Some(text)) => text,
        Ok(None) => return Ok(reply_of_line(Status::TooLong, TOO_LONG_LINE)),
        Err(stop) => return Err(stop),
    };
    match read_image(alloc, text.as_slice(), tree.dbs.as_slice()) {
        Ok(memory) => Ok(text_call_reply(alloc, tree, call, units, memory)?),
        Err(refusal) => Ok(image_reply(alloc, refusal)?),
    }
}

/// What is answered to a tree that was read, by what is to be done with it.
fn read_reply<M: Source>(
    alloc: Global,
    job: &TextJob,
    tree: &StProgram,
    image: &mut M,
) -> Result<Reply, Stop>
    requires { Proper tree.now }
    ensures answer { IfOk result (AnsweredTo (AnswersTextJob job.now tree.now) (input M.Source image.old image.new)) }
    ensures reads { ReadsWork (text_work_of job.now) (input M.Source image.old image.new) (ending result) }
    ensures later { M.faults image.old ≤ M.faults image.new }
{
    match job {
        TextJob::Run(units, call) => tree_reply(alloc, tree, call, *units, image),
    }
}

/// What is answered to a Structured Text, and to an image where the job has one.
fn text_reply<P: Source, M: Source>(
    alloc: Global,
    job: &TextJob,
    text: &mut P,
    image: &mut M,
) -> Result<Reply, Stop>
    ensures answer { IfOk result (Answered (AnswersRow (st (text_work_of job.now)))
        (input P.Source text.old text.new) (input M.Source image.old image.new)) }
    ensures reads { ReadsFor (WantsRow (st (text_work_of job.now)))
        (input P.Source text.old text.new) (input M.Source image.old image.new) (ending result) }
    ensures text_later { P.faults text.old ≤ P.faults text.new }
    ensures image_later { M.faults image.old ≤ M.faults image.new }
{
    let source = match read_input(alloc, text, INPUT_LIMIT) {
        Ok(Some(source)) => source,
        Ok(None) => return Ok(reply_of_line(Status::TooLong, TOO_LONG_LINE)),
        Err(stop) => return Err(stop),
    };
    match parse(alloc, source.as_slice()) {
        Ok(tree) => read_reply(alloc, job, &tree, image),
        Err(Rejection::Refused(line, reason)) => {
            let written = refusal_line(alloc, line, reason)?;
            Ok(reply_of_text(Status::Refused, written))
        }
        Err(Rejection::NoMemory) => Err(Stop::NoMemory),
    }
}

/// What the arguments ask for, done on the inputs.
pub fn reply_to<P: Source, M: Source>(
    alloc: Global,
    words: &[String],
    program: &mut P,
    image: &mut M,
) -> Result<Reply, Stop>
    ensures answer { IfOk result (Answered (Answers (command_of_words words.now))
        (input P.Source program.old program.new) (input M.Source image.old image.new)) }
    ensures reads { ReadsInputs (command_of_words words.now)
        (input P.Source program.old program.new) (input M.Source image.old image.new) (ending result) }
    ensures program_later { P.faults program.old ≤ P.faults program.new }
    ensures image_later { M.faults image.old ≤ M.faults image.new }
{
    match read_words(alloc, words) {
        Ok(command) => match task_of(command) {
            Task::Stl(job) => source_reply(alloc, &job, program, image),
            Task::St(job) => text_reply(alloc, &job, program, image),
            Task::Demo(networks) => Ok(demo_reply(alloc, networks)?),
        },
        Err(WordsRefusal::Usage) => Ok(reply_of_line(Status::Usage, USAGE_LINE)),
        Err(WordsRefusal::NoMemory) => Err(Stop::NoMemory),
    }
}
