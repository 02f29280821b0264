//! What the paths of a tree begin with.

ghost use Rattle.std.specs.Prelude.{◌≡◌, length, map, reverse, IfOk};
ghost use Rattle.dg_plan.specs.IndexGraph.{is_root};
ghost use Rattle.dg_plan.specs.InstantPoint.{same_node};
ghost use Rattle.dg_retrieval.specs.Beginnings.{beginning_by, begun_within};

use crate::graph_lead::Beginning;
use dg_history::NodeId;
use dg_plan::{Edge, Via};
use std::alloc::{AllocError, Global};

// Whether the two are one node.
fn is_same(node: NodeId, other: NodeId) -> bool
    ensures { result ≡ same_node node other }
{
    node == other
}

// Whether the node is the root.
fn is_root(node: NodeId) -> bool
    ensures { result ≡ is_root node }
{
    node == NodeId::Root
}

// What a path begins with whose first edge leads on by this.
fn begun_by(via: Via) -> Beginning
    ensures { result ≡ beginning_by via }
{
    match via {
        Via::Now => Beginning::Now,
        Via::Base(handle) => Beginning::Base(handle),
        Via::Paid(_, _) | Via::Held(_, _) | Via::Recent(_) => Beginning::Nothing,
    }
}

// What the path to a node begins with, within the tree of these edges. The last edge into a node is that of its path.
fn beginning_of(walk: &[Edge], target: NodeId) -> Beginning
    ensures { result ≡ begun_within walk.now target }
{
    let mut node = target;
    for edge in walk.iter().rev() {
        if is_same(node, edge.to) {
            if is_root(edge.from) {
                return begun_by(edge.via);
            }
            node = edge.from;
        }
    }
    Beginning::Nothing
}

/// What the path to each of the targets begins with, within the tree of these edges.
pub(crate) fn beginnings_of(
    alloc: Global,
    walk: &[Edge],
    targets: &[NodeId],
) -> Result<Vec<Beginning>, AllocError>
    ensures { IfOk result (λ begins. begins.items ≡ map (begun_within walk.now) targets.now) }
{
    let mut begins = Vec::with_capacity(alloc, targets.len())?;
    for target in targets {
        begins.push(beginning_of(walk, *target))?;
    }
    Ok(begins)
}
