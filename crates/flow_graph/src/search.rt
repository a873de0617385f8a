//! A search for the nodes that a path from the first one reaches.
ghost use Rattle.std.specs.Prelude.{◌≡◌, ◌<◌, ◌^◌, false, true, fold, get_or, length, replicate, slice_get, IfOk, OnOk};
ghost use Rattle.flow_graph.specs.Graphs.{ways_after, ways_of};
ghost use Rattle.flow_graph.specs.Reached.{AreReached};
ghost use Rattle.flow_graph.specs.inner.Reaching.{IsClosedButFor, IsSound, state_of, go_on, meet, next_of};

use crate::graph::Exit;
use s7_base::NoMemory;
use std::alloc::Global;

/// Notes that a node is reached.
fn meet(seen: &mut [bool], work: &mut Vec<usize>, number: usize) -> Result<(), NoMemory>
    ensures { OnOk result (state_of seen.new work.new.items ≡ meet (state_of seen.old work.old.items) number) }
{
    if seen.get(number).copied().unwrap_or(true) {
        return Ok(());
    }
    work.push(number)?;
    seen[number] = true;
    Ok(())
}

fn meet_all(seen: &mut [bool], work: &mut Vec<usize>, numbers: &[u32]) -> Result<(), NoMemory>
    ensures { OnOk result
        (state_of seen.new work.new.items ≡ fold meet (state_of seen.old work.old.items) numbers.now) }
{
    for number in numbers {
        meet(seen, work, *number as usize)?;
    }
    Ok(())
}

/// Notes the nodes that may follow a node with an exit.
fn meet_next(
    seen: &mut [bool],
    work: &mut Vec<usize>,
    number: usize,
    exit: &Exit,
) -> Result<(), NoMemory>
    requires { number < 2 ^ 63 }
    ensures { OnOk result (state_of seen.new work.new.items
        ≡ fold meet (state_of seen.old work.old.items) (next_of number (ways_of exit.now))) }
{
    match exit {
        Exit::Fall | Exit::EndIf => meet(seen, work, number + 1),
        Exit::Jump(to) => meet(seen, work, *to as usize),
        Exit::Branch(to) => {
            meet(seen, work, number + 1)?;
            meet(seen, work, *to as usize)
        }
        Exit::Table(entries, to) => {
            meet(seen, work, *to as usize)?;
            meet_all(seen, work, entries.as_slice())
        }
        Exit::End => Ok(()),
    }
}

fn go_on(
    seen: &mut [bool],
    work: &mut Vec<usize>,
    exits: &[Exit],
    number: usize,
) -> Result<(), NoMemory>
    ensures { OnOk result (state_of seen.new work.new.items
        ≡ go_on (slice_get exits.now number) number (state_of seen.old work.old.items)) }
{
    match exits.get(number) {
        Some(exit) => meet_next(seen, work, number, exit),
        None => Ok(()),
    }
}

/// Goes on from all nodes that wait, and from those that come to wait.
fn search(seen: &mut [bool], work: &mut Vec<usize>, exits: &[Exit]) -> Result<(), NoMemory>
    requires sound { IsSound (ways_after exits.now) (state_of seen.old work.old.items) }
    requires closed { IsClosedButFor (ways_after exits.now) (state_of seen.old work.old.items) }
    requires first { get_or seen.old 0 true ≡ true }
    ensures { OnOk result (AreReached (ways_after exits.now) seen.new) }
{
    while let Some(number) = work.pop() {
        go_on(seen, work, exits, number)?;
    }
    Ok(())
}

/// Goes on from the first node and from all nodes that come to wait.
fn search_from_first(alloc: Global, seen: &mut [bool], exits: &[Exit]) -> Result<(), NoMemory>
    requires { seen.old ≡ replicate (length exits.now) false }
    ensures { OnOk result (AreReached (ways_after exits.now) seen.new) }
{
    let mut work = Vec::new(alloc);
    meet(seen, &mut work, 0)?;
    search(seen, &mut work, exits)
}

/// Which of the nodes with these exits a path from the first one reaches.
pub fn reach(alloc: Global, exits: &[Exit]) -> Result<Vec<bool>, NoMemory>
    ensures { IfOk result (λ reached. AreReached (ways_after exits.now) reached.items) }
{
    let mut seen = Vec::new(alloc);
    seen.resize(exits.len(), false)?;
    search_from_first(alloc, seen.as_mut_slice(), exits)?;
    Ok(seen)
}
