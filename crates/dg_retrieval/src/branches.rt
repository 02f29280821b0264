//! The branches of a tree, and the walk along all of them.

ghost use Rattle.std.specs.Prelude.{◌≡◌, length, slice_get, IfOk};
ghost use Rattle.dg_plan.specs.TreePaths.{edges_at};
ghost use Rattle.dg_fold.specs.Trees.{all_edges};
ghost use Rattle.dg_planner.specs.Trees.{node_grafts};
ghost use Rattle.dg_retrieval.specs.Branches.{AreBranches};

use dg_fold::Branch;
use dg_history::NodeId;
use dg_plan::Edge;
use dg_planner::Graft;
use std::alloc::{AllocError, Global};

// The edge of this number.
fn edge_at(edges: &[Edge], number: u32) -> Option<Edge>
    ensures { result ≡ slice_get edges.now number }
{
    edges.get(number as usize).copied()
}

/// The edges of these numbers, in order.
pub(crate) fn edges_at(
    alloc: Global,
    edges: &[Edge],
    steps: &[u32],
) -> Result<Vec<Edge>, AllocError>
    ensures { IfOk result (λ walk. walk.items ≡ edges_at edges.now steps.now) }
{
    let mut walk = Vec::with_capacity(alloc, steps.len())?;
    for step in steps {
        if let Some(edge) = edge_at(edges, *step) {
            walk.push(edge)?;
        }
    }
    Ok(walk)
}

/// The branch of each graft, to its target.
pub fn branches_of(
    alloc: Global,
    edges: &[Edge],
    targets: &[NodeId],
    grafts: &[Graft],
) -> Result<Vec<Branch>, AllocError>
    requires { length grafts.now ≡ length targets.now }
    ensures { IfOk result (λ branches. AreBranches edges.now targets.now (node_grafts grafts.now) branches.items) }
{
    let mut branches = Vec::with_capacity(alloc, grafts.len())?;
    for (index, graft) in grafts.iter().enumerate() {
        let walk = edges_at(alloc, edges, &graft.steps)?;
        branches.push(Branch {
            from: graft.from,
            edges: walk,
            to: targets[index],
        })?;
    }
    Ok(branches)
}

/// The edges of all branches, one after another.
pub fn walk_along(alloc: Global, branches: &[Branch]) -> Result<Vec<Edge>, AllocError>
    ensures { IfOk result (λ walk. walk.items ≡ all_edges branches.now) }
{
    let mut walk = Vec::new(alloc);
    for branch in branches {
        walk.extend_from_slice(&branch.edges)?;
    }
    Ok(walk)
}
