//! The nodes of the graph of an index, in their order.
ghost use Rattle.std.specs.Prelude.{◌≡◌, ◌+◌, ◌/◌, ◌^◌, ◌<◌, ◌≤◌, ◌++◌, map, IfOk, OnOk};
ghost use Rattle.std.specs.List.{flat_map};
ghost use Rattle.dg_history.specs.declared.node.NodeId.TheVariants as node;
ghost use Rattle.dg_index.specs.Hierarchy.{numbers};
ghost use Rattle.dg_index.specs.IndexRecords.{heights};
ghost use Rattle.dg_plan.specs.IndexGraph.{nodes_of};
ghost use Rattle.dg_planner.specs.Order.{bare_ground, inners_of};

use crate::node_order::Form;
use dg_history::NodeId;
use std::alloc::{AllocError, Global};

// Adds the leaves.
fn add_leaves(nodes: &mut Vec<NodeId>, leaves: u32) -> Result<(), AllocError>
    ensures { OnOk result (nodes.new.items ≡ nodes.old.items ++ map (λ j. node.Leaf j) (numbers 1 leaves)) }
{
    for n in 0..leaves {
        nodes.push(NodeId::Leaf(n + 1))?;
    }
    Ok(())
}

// Adds the lists of events.
fn add_lists(nodes: &mut Vec<NodeId>, leaves: u32) -> Result<(), AllocError>
    ensures { OnOk result (nodes.new.items ≡ nodes.old.items ++ map (λ i. node.List i) (numbers 0 leaves)) }
{
    for i in 0..leaves {
        nodes.push(NodeId::List(i))?;
    }
    Ok(())
}

// Adds the interior nodes of a height.
fn add_height(nodes: &mut Vec<NodeId>, height: u32, count: u32) -> Result<(), AllocError>
    ensures { OnOk result (nodes.new.items ≡ nodes.old.items ++ map (λ j. node.Inner height j) (numbers 1 count)) }
{
    for n in 0..count {
        nodes.push(NodeId::Inner(height, n + 1))?;
    }
    Ok(())
}

// Adds the interior nodes of all heights.
fn add_inners(nodes: &mut Vec<NodeId>, leaves: u32, arity: u32) -> Result<(), AllocError>
    requires leaves { leaves < 2 ^ 28 }
    requires low { 2 ≤ arity }
    requires high { arity ≤ 64 }
    ensures { OnOk result (nodes.new.items ≡ nodes.old.items ++ flat_map (inners_of leaves arity) (heights arity leaves)) }
{
    let mut below = 0;
    let mut width = arity as u64;
    while width <= leaves as u64 {
        add_height(nodes, below + 1, (leaves as u64 / width) as u32)?;
        below += 1;
        width *= arity as u64;
    }
    Ok(())
}

/// The nodes of the graph, in their order.
pub fn list_nodes(alloc: Global, form: Form) -> Result<Vec<NodeId>, AllocError>
    requires leaves { form.leaves < 2 ^ 28 }
    requires low { 2 ≤ form.arity }
    requires high { form.arity ≤ 64 }
    ensures { IfOk result (λ v. v.items ≡ nodes_of (bare_ground form.leaves form.arity form.memory)) }
{
    let mut nodes = Vec::new(alloc);
    nodes.push(NodeId::Root)?;
    if form.memory {
        nodes.push(NodeId::Now)?;
        nodes.push(NodeId::Recent)?;
    }
    add_leaves(&mut nodes, form.leaves)?;
    add_lists(&mut nodes, form.leaves)?;
    add_inners(&mut nodes, form.leaves, form.arity)?;
    Ok(nodes)
}
