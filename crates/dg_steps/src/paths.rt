//! Which of the paths to some nodes of a tree take which of its edges.

ghost use Rattle.std.specs.Prelude.{◌≡◌, ◌<◌, ℕ, Bool, get_or, length, reverse, IfOk};
ghost use Rattle.std.specs.Global.{Vec};
ghost use Rattle.std.specs.List.{All};
ghost use Rattle.dg_history.specs.declared.node.NodeId.TheVariants.{Root};
ghost use Rattle.dg_steps.specs.TreeStepWalks.{AreRooted, GoesBackOver, IsEntered};

use dg_fold::all_go_back;
use dg_history::NodeId;
use dg_plan::Edge;
use std::alloc::{AllocError, Global};

/// Which of the paths to the nodes take each edge, that of the last edge first. The last edge that enters a node is that
/// of its path, so the paths are found from their ends.
pub(crate) fn paths_to(
    alloc: Global,
    edges: &[Edge],
    nodes: &[NodeId],
) -> Result<Vec<Vec<bool>>, AllocError>
    requires rooted { AreRooted edges.now }
    requires entered { All (λ node. IsEntered node edges.now) nodes.now }
    ensures paths { IfOk result (λ v. (n : ℕ) → n < length nodes.now → GoesBackOver n (get_or nodes.now n Root) edges.now (reverse v.items) Root) }
    ensures count { IfOk result (λ v. length v.items ≡ length edges.now) }
    ensures all { IfOk result (λ v. All (λ (takes : Vec Bool). length takes.items ≡ length nodes.now) v.items) }
{
    let mut paths = Vec::with_capacity(alloc, edges.len())?;
    let mut at = Vec::from_slice(alloc, nodes)?;
    let mut left = edges.len();
    while left > 0 {
        left -= 1;
        paths.push(all_go_back(alloc, &mut at, edges[left])?)?;
    }
    Ok(paths)
}
