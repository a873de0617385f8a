//! Nodes are taken in their order, and their steps are moved.
ghost use Rattle.std.specs.Prelude.{◌≡◌, IfOk, drop};
ghost use Rattle.plan_texts.specs.inner.Steps.{HasSteps, list_in, test_in};

use dispatch_loops::push_all;
use s7_base::{List, NoMemory};
use st_tree::{Expr, StExit, StNode, Stmt};
use std::collections::VecDeque;

/// Takes so many nodes.
pub fn pass_nodes(nodes: &mut VecDeque<StNode>, count: u32)
    ensures { nodes.new.items ≡ drop count nodes.old.items }
{
    for _index in 0..count {
        let _node = nodes.pop_front();
    }
}

/// Takes the next node, writes its steps, and gives its exit.
pub fn push_steps(
    out: &mut List<Stmt>,
    nodes: &mut VecDeque<StNode>,
) -> Result<Option<StExit>, NoMemory>
    ensures { IfOk result (λ found. HasSteps nodes.old.items nodes.new.items out.old out.new found) }
{
    let Some(node) = nodes.pop_front() else {
        return Ok(None);
    };
    push_all(out, node.steps)?;
    Ok(Some(node.exit))
}

/// The test of an exit that branches.
pub fn test_in(exit: StExit) -> Option<Expr>
    ensures { result ≡ test_in exit }
{
    match exit {
        StExit::Branch(test, _) => Some(test),
        _ => None,
    }
}

/// The value of an exit that is a jump list, and where its entries lead.
pub fn list_in(exit: StExit) -> Option<(Expr, List<u32>)>
    ensures { result ≡ list_in exit }
{
    match exit {
        StExit::Table(value, targets, _) => Some((value, targets)),
        _ => None,
    }
}
