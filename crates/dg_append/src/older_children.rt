//! The older children of the interior nodes that a batch completes.

ghost use Rattle.std.specs.Prelude.{◌≡◌, ◌≤◌, ◌<◌, ◌^◌, ◌++◌, ◌-◌, ◌+◌, map, reverse, IfOk, OnOk};
ghost use Rattle.dg_append.specs.OlderGroups.{leaves_after, leaves_before, older_children};
ghost use Rattle.dg_build.specs.OlderSteps.{older_in_time};
ghost use Rattle.dg_history.specs.declared.limits.TheConstants.{EVENTS_MAX};
ghost use Rattle.dg_index.specs.Hierarchy.{numbers};
ghost use Rattle.dg_index.specs.OlderNodes.{node_at, older};
ghost use Rattle.dg_index.specs.OpenedIndex.{event_total};

use dg_catalogue::leaves;
use dg_file::Index;
use dg_history::NodeId;
use std::alloc::{AllocError, Global};

// The node of this number at a height, where the leaves have height 0.
fn node_at(height: u32, number: u32) -> NodeId
    ensures { result ≡ node_at height number }
{
    if height == 0 {
        NodeId::Leaf(number)
    } else {
        NodeId::Inner(height, number)
    }
}

// Adds the nodes of the height behind the first `done` of them, up to the one numbered `there`.
fn add_nodes(height: u32, done: u32, there: u32, nodes: &mut Vec<NodeId>) -> Result<(), AllocError>
    ensures { OnOk result (nodes.new.items ≡ nodes.old.items ++ map (node_at height) (numbers (done + 1) (there - done))) }
{
    for number in done..there {
        nodes.push(node_at(height, number + 1))?;
    }
    Ok(())
}

// The older children of the interior nodes that `after` leaves give beside those that the first `before` of
// them gave, by height and number.
fn older_nodes(
    alloc: Global,
    arity: u32,
    before: u32,
    after: u32,
) -> Result<Vec<NodeId>, AllocError>
    requires arity { 2 ≤ arity }
    requires some { before ≤ after }
    requires few { after < 2 ^ 31 }
    ensures { IfOk result (λ nodes. nodes.items ≡ older arity before after) }
{
    let mut nodes = Vec::new(alloc);
    let mut height = 0;
    let mut low = before;
    let mut high = after;
    // A height of which no node is new has none above it that is.
    while low / arity < high / arity {
        add_nodes(height, low / arity * arity, low, &mut nodes)?;
        height += 1;
        low /= arity;
        high /= arity;
    }
    Ok(nodes)
}

/// The older children of the interior nodes that a batch of so many events completes behind the index, by height and
/// number. An `Err` says that memory ran out.
pub(crate) fn older_children(
    alloc: Global,
    index: &Index,
    count: u64,
) -> Result<Vec<NodeId>, AllocError>
    requires { event_total index.now.opening.batches + count ≤ EVENTS_MAX }
    ensures { IfOk result (λ nodes. nodes.items ≡ older_children index.now.opening count) }
{
    index.facts();
    let params = index.params();
    let events = index.events_len();
    let before = leaves(params, events);
    older_nodes(alloc, params.k, before, leaves(params, events + count))
}

// Adds the nodes of the height behind the first `done` of them, from the one numbered `there` back.
fn add_back(height: u32, done: u32, there: u32, nodes: &mut Vec<NodeId>) -> Result<(), AllocError>
    requires { done ≤ there }
    ensures { OnOk result (reverse nodes.new.items ≡ map (node_at height) (numbers (done + 1) (there - done)) ++ reverse nodes.old.items) }
{
    let mut number = there;
    while number > done {
        nodes.push(node_at(height, number))?;
        number -= 1;
    }
    Ok(())
}

// The older children of the interior nodes that `after` leaves give beside those that the first `before` of
// them gave, in the order of time.
fn nodes_in_time(
    alloc: Global,
    arity: u32,
    before: u32,
    after: u32,
) -> Result<Vec<NodeId>, AllocError>
    requires arity { 2 ≤ arity }
    requires some { before ≤ after }
    requires few { after < 2 ^ 31 }
    ensures { IfOk result (λ nodes. nodes.items ≡ older_in_time arity before after) }
{
    let mut nodes = Vec::new(alloc);
    let mut height = 0;
    let mut low = before;
    let mut high = after;
    // From the last of them back: a greater height was before a lower one.
    while low / arity < high / arity {
        add_back(height, low / arity * arity, low, &mut nodes)?;
        height += 1;
        low /= arity;
        high /= arity;
    }
    nodes.reverse();
    Ok(nodes)
}

/// The same older children in the order of time: those of the greatest height first. An `Err` says that memory ran out.
pub(crate) fn children_in_time(
    alloc: Global,
    index: &Index,
    count: u64,
) -> Result<Vec<NodeId>, AllocError>
    requires { event_total index.now.opening.batches + count ≤ EVENTS_MAX }
    ensures { IfOk result (λ nodes. nodes.items ≡ older_in_time index.now.opening.params.k (leaves_before index.now.opening) (leaves_after index.now.opening count)) }
{
    index.facts();
    let params = index.params();
    let events = index.events_len();
    let before = leaves(params, events);
    nodes_in_time(alloc, params.k, before, leaves(params, events + count))
}
