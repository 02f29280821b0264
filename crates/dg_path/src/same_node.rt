//! A node among others.
ghost use Rattle.std.specs.Prelude.{◌≡◌, position};
ghost use Rattle.dg_plan.specs.InstantPoint.{same_node};

use dg_history::NodeId;

/// Whether the two are one node.
pub(crate) fn is_same(node: NodeId, other: NodeId) -> bool
    ensures { result ≡ same_node node other }
{
    node == other
}

/// The first index at which the node stands.
pub(crate) fn index_of(nodes: &[NodeId], node: NodeId) -> Option<usize>
    ensures { result ≡ position (same_node node) nodes.now }
{
    nodes.iter().position(|other| is_same(node, *other))
}
