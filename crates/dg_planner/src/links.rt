//! The edges of an index by the indices of their ends.
ghost use Rattle.std.specs.Prelude.{◌≡◌, ℕ, ◌<◌, ◌^◌, ◌≤◌, map, IfOk};
ghost use Rattle.std.specs.List.{All};
ghost use Rattle.dg_planner.specs.Order.{AreStarts, HasEnds};
ghost use Rattle.dg_planner.specs.Links.{link_in};

use crate::node_order::{Form, node_index};
use dg_path::Link;
use dg_plan::Edge;
use std::alloc::{AllocError, Global};

/// The edges by the indices of their ends in the order of nodes.
pub fn make_links(
    alloc: Global,
    form: Form,
    starts: &[u32],
    edges: &[Edge],
) -> Result<Vec<Link>, AllocError>
    requires leaves { form.leaves < 2 ^ 28 }
    requires starts { AreStarts form.leaves form.arity starts.now }
    requires ends { All (HasEnds form.leaves form.arity) edges.now }
    ensures { IfOk result (λ v. v.items ≡ map (link_in form.leaves form.arity form.memory) edges.now) }
{
    let mut links = Vec::with_capacity(alloc, edges.len())?;
    for edge in edges {
        links.push(link_of(form, starts, edge))?;
    }
    Ok(links)
}

// One edge by the indices of its ends.
fn link_of(form: Form, starts: &[u32], edge: &Edge) -> Link
    requires leaves { form.leaves < 2 ^ 28 }
    requires starts { AreStarts form.leaves form.arity starts.now }
    requires ends { HasEnds form.leaves form.arity edge.now }
    ensures { result ≡ link_in form.leaves form.arity form.memory edge.now }
{
    Link {
        tail: node_index(form, starts, edge.from),
        head: node_index(form, starts, edge.to),
        weight: edge.weight,
    }
}
