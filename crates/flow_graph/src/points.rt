//! The points where the nodes of a body can be cut.
//!
//! A jump passes over the points after the lesser of its two nodes and before its end, which is the greater one, or for
//! a jump back the node after that. So a point is passed over where the greatest end of all jumps whose lesser node is
//! before it is after it.
ghost use Rattle.std.specs.Prelude.{◌≡◌, ◌<◌, ◌≤◌, fold, length, replicate, IfOk};
ghost use Rattle.stl_tree.specs.Segments.{AreCuts};
ghost use Rattle.flow_graph.specs.Graphs.{ways_after, ways_of};
ghost use Rattle.flow_graph.specs.Reached.{AreReached};
ghost use Rattle.flow_graph.specs.inner.Spans.{cuts_from, note, spans_from};

use crate::graph::Exit;
use s7_base::{List, NoMemory};
use std::alloc::Global;

/// Notes how far a jump from one node to another passes over points.
fn note(spans: &mut [usize], from: usize, to: usize)
    requires { from < length spans.old }
    ensures { spans.new ≡ note from spans.old to }
{
    let least = from.min(to);
    let end = to.max(from + 1);
    spans[least] = spans[least].max(end);
}

fn note_all(spans: &mut [usize], from: usize, numbers: &[u32])
    requires { from < length spans.old }
    ensures { spans.new ≡ fold (note from) spans.old numbers.now }
{
    for to in numbers {
        note(spans, from, *to as usize);
    }
}

/// Notes the jumps of an exit.
fn note_exit(spans: &mut [usize], from: usize, exit: &Exit)
    requires { from < length spans.old }
    ensures { spans.new ≡ fold (note from) spans.old (ways_of exit.now).jumps }
{
    match exit {
        Exit::Jump(to) | Exit::Branch(to) => note(spans, from, *to as usize),
        Exit::Table(entries, to) => {
            note(spans, from, *to as usize);
            note_all(spans, from, entries.as_slice());
        }
        Exit::Fall | Exit::EndIf | Exit::End => {}
    }
}

/// How far the jumps of nodes that are reached pass over points, by the lesser of their two nodes.
fn spans(alloc: Global, exits: &[Exit], reached: &[bool]) -> Result<Vec<usize>, NoMemory>
    requires { length reached.now ≡ length exits.now }
    ensures { IfOk result
        (λ spans. spans.items ≡ spans_from reached.now 0 exits.now (replicate (length exits.now) 0)) }
{
    let mut spans = Vec::new(alloc);
    spans.resize(exits.len(), 0)?;
    for (from, exit) in exits.iter().enumerate() {
        if reached[from] {
            note_exit(spans.as_mut_slice(), from, exit);
        }
    }
    Ok(spans)
}

/// The points over which no jump passes.
fn cuts_by(alloc: Global, spans: &[usize]) -> Result<List<u32>, NoMemory>
    requires { length spans.now ≤ 32769 }
    ensures { IfOk result (λ cuts. cuts ≡ cuts_from 0 0 spans.now) }
{
    let mut cuts = List::new(alloc);
    let mut until = 0;
    for (at, span) in spans.iter().enumerate() {
        if until <= at {
            cuts.push(at as u32)?;
        }
        until = until.max(*span);
    }
    Ok(cuts)
}

/// The cuts of the nodes with these exits, where it is known which of them are reached.
#[tactic(auto, using(crate::proofs::Passing::are_cuts, crate::proofs::Passing::size_of_spans_after, crate::proofs::Passing::size_of_reached))]
pub fn cuts(alloc: Global, exits: &[Exit], reached: &[bool]) -> Result<List<u32>, NoMemory>
    requires few { length exits.now ≤ 32769 }
    requires reached { AreReached (ways_after exits.now) reached.now }
    ensures { IfOk result (AreCuts (ways_after exits.now)) }
{
    let spans = spans(alloc, exits, reached)?;
    cuts_by(alloc, spans.as_slice())
}
