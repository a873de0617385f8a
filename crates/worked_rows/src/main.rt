//! Runs worked cases: what the program is asked and what it is to answer, from the files that are named.
//!
//! A case shows what no clause says: that the definitions give the texts, reports and refusals which the
//! languages ask for. Each is answered by the one call that the program itself makes, `stl2st` of
//! `command_answers`, over sources and sinks in memory. `case_rows` reads a file, `answers` asks.
#![tactic(auto)]

use crate::answers::{Answer, answer};
use case_rows::{Case, Cases, Question, Stop, has_key};
use command_answers::Status;
use s7_base::NoMemory;
use std::alloc::Global;
use std::process::ExitCode;
use std::{env, fs};

mod answers;

/// How many cases were run, and how many of them were answered otherwise or could not be read.
#[derive(Clone, Copy)]
struct Tally {
    cases: u64,
    failed: u64,
}

impl Tally {
    const NONE: Tally = Tally {
        cases: 0,
        failed: 0,
    };

    /// The count of one case.
    fn of(is_wanted: bool) -> Tally {
        Tally {
            cases: 1,
            failed: u64::from(!is_wanted),
        }
    }

    /// Adds the counts of another tally.
    fn add(&mut self, other: Tally) {
        self.cases = self.cases.saturating_add(other.cases);
        self.failed = self.failed.saturating_add(other.failed);
    }
}

fn status_named(name: &str) -> Option<Status> {
    match name {
        "Done" => Some(Status::Done),
        "Refused" => Some(Status::Refused),
        "Usage" => Some(Status::Usage),
        "BadImage" => Some(Status::BadImage),
        "BadCall" => Some(Status::BadCall),
        "Faulted" => Some(Status::Faulted),
        "Going" => Some(Status::Going),
        "ReadFault" => Some(Status::ReadFault),
        "WriteFault" => Some(Status::WriteFault),
        "TooLong" => Some(Status::TooLong),
        _ => None,
    }
}

/// Whether a word stands in a text, between bytes that can't be part of one.
fn has_word(text: &[u8], word: &[u8]) -> bool {
    text.split(|byte| !byte.is_ascii_alphanumeric() && *byte != b'_')
        .any(|piece| piece == word)
}

/// Whether the text is the one that the case wants, or has the word that alone is asked of it.
fn is_text_wanted(case: &Case, text: &[u8]) -> bool {
    match &case.asked {
        Some(asked) => has_word(text, asked.word.as_bytes()) == asked.stands,
        None => text == case.answer.as_slice(),
    }
}

/// Shows what text a case wants, and with which status.
fn show_wanted(rt: &impl Print, case: &Case) -> Result<(), Stop> {
    let Some(asked) = &case.asked else {
        println!(rt; "  wanted: {} {}", case.status, case.answer.escape_ascii())?;
        return Ok(());
    };
    let key = if asked.stands { "with" } else { "without" };
    println!(rt; "  wanted: {} {key} {}", case.status, asked.word)?;
    Ok(())
}

/// Whether the answer is the one that the case wants; where it is another, both are shown.
fn is_wanted(rt: &impl Print, file: &str, case: &Case, found: &Answer) -> Result<bool, Stop> {
    let is_status = status_named(case.status.as_str()) == Some(found.0);
    if is_status && is_text_wanted(case, found.1.taken()) {
        return Ok(true);
    }
    println!(rt; "FAILED {file}:{}", case.line)?;
    show_wanted(rt, case)?;
    println!(rt;
        "  came:   {:?} {}",
        found.0,
        found.1.taken().escape_ascii()
    )?;
    Ok(false)
}

/// The answer to these words.
fn answer_to(
    alloc: Global,
    words: &[&str],
    source: &[u8],
    case: &Case,
) -> Result<Answer, NoMemory> {
    let words = words_of(alloc, words)?;
    answer(alloc, words.as_slice(), source, case)
}

fn words_of(alloc: Global, words: &[&str]) -> Result<Vec<String>, NoMemory> {
    let mut copies = Vec::new(alloc);
    for word in words {
        let word = String::from_str(alloc, word)?;
        copies.push(word)?;
    }
    Ok(copies)
}

/// Whether a run of a source or a text, by its command, a bound and a call, is answered as the case wants.
fn is_run_wanted(
    rt: &impl Print,
    alloc: Global,
    place: (&str, &Case),
    run: (&str, &str, &str),
    source: &[u8],
) -> Result<bool, Stop> {
    let (file, case) = place;
    let (command, bound, call) = run;
    let found = answer_to(alloc, &[command, bound, call, "image"], source, case)?;
    is_wanted(rt, file, case, &found)
}

/// Whether the answers to a run of the source and to one of its translation are as the case wants.
fn are_wanted(
    rt: &impl Print,
    alloc: Global,
    place: (&str, &Case),
    words: &[String],
) -> Result<bool, Stop> {
    let [bound, call] = words else {
        return Err(Stop::NoForm);
    };
    let (bound, call) = (bound.as_str(), call.as_str());
    let source = place.1.source.as_slice();
    if !is_run_wanted(rt, alloc, place, ("run-stl", bound, call), source)? {
        return Ok(false);
    }
    let text = answer_to(alloc, &["translate"], source, place.1)?;
    is_run_wanted(rt, alloc, place, ("run-st", bound, call), text.1.taken())
}

fn run_case(
    rt: &impl Print,
    alloc: Global,
    place: (&str, &Case),
    question: &Question,
) -> Result<bool, Stop> {
    let words = question.words.as_slice();
    if question.is_both {
        return are_wanted(rt, alloc, place, words);
    }
    let (file, case) = place;
    let found = answer(alloc, words, case.source.as_slice(), case)?;
    is_wanted(rt, file, case, &found)
}

/// Runs the case that ends here, if one does.
fn run_closed(
    rt: &impl Print,
    alloc: Global,
    file: &str,
    cases: &mut Cases,
) -> Result<Tally, Stop> {
    match cases.close()? {
        Some(case) => run_case(rt, alloc, (file, &case), cases.question()).map(Tally::of),
        None => Ok(Tally::NONE),
    }
}

/// Runs the cases of a text, up to the first line that has no form of one.
fn run_lines(
    rt: &impl Print,
    alloc: Global,
    file: &str,
    text: &str,
    cases: &mut Cases,
) -> Result<Tally, Stop> {
    let mut tally = Tally::NONE;
    for line in text.lines() {
        if has_key(line) {
            tally.add(run_closed(rt, alloc, file, cases)?);
        }
        if let Err(stop) = cases.read(line) {
            println!(rt; "FAILED {file}:{}: {stop:?}", cases.line())?;
            tally.add(Tally::of(false));
            return Ok(tally);
        }
    }
    tally.add(run_closed(rt, alloc, file, cases)?);
    Ok(tally)
}

/// Runs the cases of a file.
fn run_file(rt: &HostRuntime, file: &str) -> Result<Tally, Stop> {
    let text = fs::read_to_string(rt, file)?;
    let mut cases = Cases::new(rt.alloc());
    run_lines(rt, rt.alloc(), file, text.as_str(), &mut cases)
}

fn run(rt: &HostRuntime) -> Result<Tally, Stop> {
    let mut all = Tally::NONE;
    for file in env::args(rt)?.skip(1) {
        let tally = run_file(rt, file.as_str())?;
        println!(rt; "{file}: {} cases", tally.cases)?;
        all.add(tally);
    }
    println!(rt; "{} cases, {} failed", all.cases, all.failed)?;
    Ok(all)
}

fn main(rt: HostRuntime) -> ExitCode {
    match run(&rt) {
        Ok(all) if all.failed == 0 => ExitCode::SUCCESS,
        _ => ExitCode::FAILURE,
    }
}
