//! The arguments of the program.
ghost use Rattle.std.specs.Prelude.{◌≡◌, ◌≤◌, ◌-◌, map, option_map, string_bytes, IfOk, IfSome};
ghost use Rattle.command_words.specs.Command.{command_meant, demo_meant, networks_meant, run_meant, run_with, word_meant, steps_meant, image_meant, HasFewNetworks, Means};

use crate::call::{call_meant, number_in};
use memory_areas::Call;
use s7_base::NoMemory;
use std::alloc::Global;
use thiserror::Error;

/// What the arguments ask for.
#[derive(Debug, Drop, PartialEq)]
pub enum Command {
    /// Reads an STL source and writes it as Structured Text.
    Translate,

    /// Reads an STL source and says whether it is accepted.
    Check,

    /// Runs an STL source for this many steps at most, from a call on.
    RunStl(u64, Call),

    /// Runs a Structured Text for this many units at most, from a call on.
    RunSt(u64, Call),

    /// Makes an STL source of this many networks, and runs it and its translation. They are 50,000 at most.
    Demo(u32),
}

/// Why the arguments give no command.
#[derive(Clone, Copy, Debug, PartialEq, Eq, Error)]
pub enum WordsRefusal {
    #[error("the words are no command")]
    Usage,

    #[error("out of memory")]
    NoMemory,
}

impl From<NoMemory> for WordsRefusal {
    ghost use Rattle.std.specs.Prelude.{◌≡◌};
    ghost use Rattle.command_words.specs.declared.command.WordsRefusal.TheVariants as refusal;

    ghost from_gives = { λ _ made. made ≡ refusal.NoMemory };

    fn from(_error: NoMemory) -> WordsRefusal {
        WordsRefusal::NoMemory
    }
}

fn steps_meant(word: &[u8]) -> Option<u64>
    ensures { result ≡ steps_meant word.now }
{
    number_in(20, u64::MAX, word)
}

#[tactic(auto, unfolding(crate::specs::Command::run_with))]
fn run_with(
    alloc: Global,
    steps: &[u8],
    call: &[u8],
    image: &[u8],
) -> Result<Option<(u64, Call)>, NoMemory>
    ensures { IfOk result (λ run. run ≡ run_with steps.now call.now image.now) }
{
    if image.is_empty() {
        return Ok(None);
    }
    let Some(steps) = steps_meant(steps) else {
        return Ok(None);
    };
    match call_meant(alloc, call)? {
        Some(call) => Ok(Some((steps, call))),
        None => Ok(None),
    }
}

/// A run by the arguments after `run-stl` or `run-st`.
fn run_meant(alloc: Global, words: &[String]) -> Result<Option<(u64, Call)>, NoMemory>
    ensures { IfOk result (λ run. run ≡ run_meant (map (λ word. string_bytes word) words.now)) }
{
    match words {
        [steps, call, image] => run_with(
            alloc,
            steps.as_bytes(),
            call.as_bytes(),
            image.as_bytes(),
        ),
        _ => Ok(None),
    }
}

fn networks_meant(word: &[u8]) -> Option<u32>
    ensures value { result ≡ networks_meant word.now }
    ensures within { IfSome result (λ networks. networks ≤ 50000) }
{
    match number_in(5, 50_000, word) {
        Some(networks) => Some(networks as u32),
        None => None,
    }
}

/// How many networks by the arguments after `demo`.
fn demo_meant(words: &[String]) -> Option<u32>
    ensures value { result ≡ demo_meant (map (λ word. string_bytes word) words.now) }
    ensures within { IfSome result (λ networks. networks ≤ 50000) }
{
    match words {
        [networks] => networks_meant(networks.as_bytes()),
        _ => None,
    }
}

fn word_meant(word: &str) -> Option<Command>
    ensures value { result ≡ word_meant word.now }
    ensures within { IfSome result HasFewNetworks }
{
    match word {
        "translate" => Some(Command::Translate),
        "check" => Some(Command::Check),
        _ => None,
    }
}

fn command_meant(alloc: Global, words: &[String]) -> Result<Option<Command>, NoMemory>
    ensures value { IfOk result (λ command. command ≡ command_meant (map (λ word. string_bytes word) words.now)) }
    ensures within { IfOk result (λ command. IfSome command HasFewNetworks) }
{
    match words {
        [word] => Ok(word_meant(word.as_str())),
        [word, more @ ..] if word.as_str() == "demo" => match demo_meant(more) {
            Some(networks) => Ok(Some(Command::Demo(networks))),
            None => Ok(None),
        },
        [word, more @ ..] if word.as_str() == "run-stl" => match run_meant(alloc, more)? {
            Some((steps, call)) => Ok(Some(Command::RunStl(steps, call))),
            None => Ok(None),
        },
        [word, more @ ..] if word.as_str() == "run-st" => match run_meant(alloc, more)? {
            Some((units, call)) => Ok(Some(Command::RunSt(units, call))),
            None => Ok(None),
        },
        _ => Ok(None),
    }
}

/// The command that the arguments mean. The first is compared exactly, case counts.
pub fn read_words(alloc: Global, words: &[String]) -> Result<Command, WordsRefusal>
    ensures meant { Means (command_meant (map (λ word. string_bytes word) words.now)) result }
    ensures within { IfOk result HasFewNetworks }
{
    command_meant(alloc, words)?.ok_or(WordsRefusal::Usage)
}

/// The name of the file with the image, which is the fourth of four arguments.
pub fn image_name(words: &[String]) -> Option<&str>
    ensures { option_map (λ name. name.now) result ≡ image_meant (map (λ word. string_bytes word) words.now) }
{
    match words {
        [_, _, _, image] => Some(image.as_str()),
        _ => None,
    }
}
