//! The search.

ghost use Rattle.std.specs.Prelude.{◌≡◌, ◌+◌, [], ◌++◌, IfOk, OnOk, length, replicate};
ghost use Rattle.league_core.specs.inside.Pending.{pending_of};
ghost use Rattle.depth_search.specs.declared.kind.CaseNode.TheVariants as node;
ghost use Rattle.depth_search.specs.inside.Searches.{IsEndOf};

use crate::kind::{CaseNode, Kind, SearchEnd, ZoneLook};
use crate::path::next_half;
use league_core::{Literal, OutOfMemory};
use std::alloc::Global;

/// Works on a question from its root, until an example is found, the whole tree is refuted, or the
/// budget is spent: each split and each refuted leaf is one unit of it. The yes half of a split is
/// worked on to its end before the no half.
pub fn work_through<K: Kind>(
    alloc: Global,
    kind: &mut K,
    budget: u32,
) -> Result<SearchEnd<K::Example, K::Reason>, OutOfMemory>
    requires { K.fits (K.subject kind.old) [] }
    ensures end { IfOk result (IsEndOf (K.shows (K.subject kind.old))
        (K.refutes (K.subject kind.old)) (K.splits (K.subject kind.old)) budget) }
    ensures same { K.subject kind.new ≡ K.subject kind.old }
{
    let mut nodes = Vec::new(alloc);
    let mut path = Vec::new(alloc);
    for spent in 0..budget {
        match kind.look(path.as_slice(), spent)? {
            ZoneLook::Won(example) => return Ok(SearchEnd::Won(example)),
            ZoneLook::Refuted(reason) => {
                nodes.push(CaseNode::Refuted(reason))?;
                if !next_half(&mut path)? {
                    return Ok(SearchEnd::Refuted(nodes));
                }
            }
            ZoneLook::Split(test) => {
                nodes.push(CaseNode::Split(test))?;
                path.push(Literal { test, yes: true })?;
            }
        }
    }
    leave_open(&mut nodes, &mut path)?;
    Ok(SearchEnd::Spent(nodes))
}

// An open leaf for each zone that is due, that at the end of the way among them.
fn leave_open<R: Drop>(
    nodes: &mut Vec<CaseNode<R>>,
    path: &mut Vec<Literal>,
) -> Result<(), OutOfMemory>
    ensures { OnOk result (nodes.new.items
        ≡ nodes.old.items ++ replicate (1 + length (pending_of path.old.items)) node.Open) }
{
    nodes.push(CaseNode::Open)?;
    while next_half(path)? {
        nodes.push(CaseNode::Open)?;
    }
    Ok(())
}
