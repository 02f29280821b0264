//! The order of the nodes of an index: the index of each, and how many there are.
ghost use Rattle.std.specs.Prelude.{◌≡◌, ℕ, ◌+◌, ◌<◌, ◌≤◌, ◌^◌, length, IfOk, slice_index};
ghost use Rattle.dg_planner.specs.Order.{count_in, node_index_in, inners_below, AreStarts, IsGraphNode};

use dg_history::NodeId;
use std::alloc::{AllocError, Global};

/// What decides which nodes the graph of an index has.
#[derive(Clone, Copy)]
pub struct Form {
    /// The number of leaves.
    pub leaves: u32,
    /// The children of an interior node.
    pub arity: u32,
    /// Whether the graph after all events is in memory.
    pub memory: bool,
}

/// The number of interior nodes below each height, from height 1 on, and last that of all.
pub fn level_starts(alloc: Global, leaves: u32, arity: u32) -> Result<Vec<u32>, AllocError>
    requires leaves { leaves < 2 ^ 28 }
    requires low { 2 ≤ arity }
    requires high { arity ≤ 64 }
    ensures { IfOk result (λ v. AreStarts leaves arity v.items) }
{
    let mut starts = Vec::new(alloc);
    let mut width = arity as u64;
    let mut total: u32 = 0;
    while width <= leaves as u64 {
        starts.push(total)?;
        total += (leaves as u64 / width) as u32;
        width *= arity as u64;
    }
    starts.push(total)?;
    Ok(starts)
}

/// The index of a node in the order of nodes.
pub fn node_index(form: Form, starts: &[u32], node: NodeId) -> u32
    requires leaves { form.leaves < 2 ^ 28 }
    requires starts { AreStarts form.leaves form.arity starts.now }
    requires node { IsGraphNode form.leaves form.arity node }
    ensures { result ≡ node_index_in form.leaves form.arity form.memory node }
{
    let first = if form.memory { 3 } else { 1 };
    match node {
        NodeId::Root => 0,
        NodeId::Now => 1,
        NodeId::Recent => 2,
        NodeId::Leaf(j) => first + (j - 1),
        NodeId::List(i) => first + form.leaves + i,
        NodeId::Inner(h, j) => first + form.leaves + form.leaves + starts[h as usize - 1] + (j - 1),
    }
}

/// The number of nodes.
pub fn node_count(form: Form, starts: &[u32]) -> u32
    requires leaves { form.leaves < 2 ^ 28 }
    requires starts { AreStarts form.leaves form.arity starts.now }
    ensures { result ≡ count_in form.leaves form.arity form.memory }
{
    let first = if form.memory { 3 } else { 1 };
    first + form.leaves + form.leaves + starts[starts.len() - 1]
}
