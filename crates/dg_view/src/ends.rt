//! Edges at their ends.
ghost use Rattle.std.specs.Prelude.{◌≡◌, ℕ, ◌==◌, [], ◌++◌, map, OnOk, if◌then◌else◌};
ghost use Rattle.std.specs.Option.{option_to_list};
ghost use Rattle.dg_query.specs.Queries.{edge_at};
ghost use Rattle.dg_view.specs.EdgeEnds.{edges_ending_at, RiseByNode};

use crate::elements::edge_at;
use dg_graph::Element;
use dg_query::Neighbour;
use std::alloc::{AllocError, AllocFailed};

/// An edge at one of its ends.
#[derive(Clone, Copy)]
pub struct EdgeEnd {
    /// The node.
    pub node: u64,
    /// The edge, as the node sees it.
    pub edge: Neighbour,
}

// Puts the element last as an edge at the node, if it is one.
fn push_end(
    ends: &mut Vec<EdgeEnd>,
    node: u64,
    element: &Element,
) -> Result<(), AllocFailed<EdgeEnd>>
    ensures { OnOk result ((n : ℕ) → edges_ending_at ends.new.items n ≡ edges_ending_at ends.old.items n ++ (if node == n then option_to_list (edge_at n element.now) else [])) }
{
    match edge_at(node, element) {
        Some(edge) => ends.push(EdgeEnd { node, edge }),
        None => Ok(()),
    }
}

/// Puts the element last at its ends, if it is an edge. A loop has one end.
pub(crate) fn push_ends(
    ends: &mut Vec<EdgeEnd>,
    element: &Element,
) -> Result<(), AllocFailed<EdgeEnd>>
    ensures { OnOk result ((n : ℕ) → edges_ending_at ends.new.items n ≡ edges_ending_at ends.old.items n ++ option_to_list (edge_at n element.now)) }
{
    let Element::Edge { src, dst, .. } = *element else {
        return Ok(());
    };
    push_end(ends, src, element)?;
    if src == dst {
        return Ok(());
    }
    push_end(ends, dst, element)
}

/// Brings the ends in the order of their nodes; those at one node keep their order. O(E log E). An `Err` says
/// that memory ran out.
pub(crate) fn sort(ends: &mut Vec<EdgeEnd>) -> Result<(), AllocError>
    ensures rises { OnOk result (RiseByNode ends.new.items) }
    ensures stays { (n : ℕ) → edges_ending_at ends.new.items n ≡ edges_ending_at ends.old.items n }
{
    ends.sort_by_key(|end| end.node)
}

/// The ends at the node, which follow one another. O(log E).
pub(crate) fn at(ends: &[EdgeEnd], node: u64) -> &[EdgeEnd]
    requires { RiseByNode ends.now }
    ensures { map (λ end. end.edge) result.now ≡ edges_ending_at ends.now node }
{
    let first = ends.partition_point(|end| end.node < node);
    let from = &ends[first..];
    &from[..from.partition_point(|end| end.node == node)]
}
