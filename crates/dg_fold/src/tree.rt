//! The branches of a tree, and the steps of all of them.

ghost use Rattle.std.specs.Prelude.{◌≡◌, IfOk, IfErr};
ghost use Rattle.dg_fold.specs.Steps.{paired};
ghost use Rattle.dg_fold.specs.Trees.{all_edges};
ghost use Rattle.dg_fold.specs.TreeSteps.{AreStepped, FailsAt};

use crate::fault::FoldFault;
use crate::part::Part;
use crate::tree_step::{Stepped, steps_along};
use dg_graph::Event;
use dg_history::NodeId;
use dg_plan::Edge;
use std::alloc::{AllocError, Global};
use std::thread::Threads;

/// A branch of a tree, from a node of the tree so far to its target.
#[derive(Drop)]
pub struct Branch {
    pub from: NodeId,
    pub edges: Vec<Edge>,
    pub to: NodeId,
}

/// The edges of all branches, in order.
pub fn edges_of(alloc: Global, branches: &[Branch]) -> Result<Vec<Edge>, AllocError>
    ensures { IfOk result (λ v. v.items ≡ all_edges branches.now) }
{
    let mut edges = Vec::new(alloc);
    for branch in branches {
        edges.extend_from_slice(&branch.edges)?;
    }
    Ok(edges)
}

/// The steps of all branches, in order.
pub(crate) fn steps_of<R: Threads>(
    rt: &R,
    alloc: Global,
    name_count: u32,
    branches: &[Branch],
    parts: &[Part],
    recent: &[Event],
) -> Result<Vec<Stepped>, FoldFault>
    ensures ok { IfOk result (λ v. AreStepped name_count recent.now (paired (all_edges branches.now) parts.now) v.items) }
    ensures err { IfErr result (λ f. FailsAt f name_count recent.now (paired (all_edges branches.now) parts.now)) }
{
    let edges = edges_of(alloc, branches)?;
    steps_along(rt, alloc, name_count, &edges, parts, recent)
}
