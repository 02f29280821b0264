//! The edges of the graph of an index, in their order, by its catalogue and the bases.
ghost use Rattle.std.specs.Prelude.{◌≡◌, ℕ, ◌+◌, ◌-◌, ◌*◌, ◌/◌, ◌^◌, ◌<◌, ◌≤◌, List, [], ◌∷◌, ◌++◌, length, map, OnOk, IfOk};
ghost use Rattle.std.specs.List.{flat_map};
ghost use Rattle.dg_history.specs.declared.node.Key.{Key};
ghost use Rattle.dg_planner.specs.AskedLengths.{asked_length_of};
ghost use Rattle.dg_planner.specs.Bases.{base_of};
ghost use Rattle.dg_index.specs.Hierarchy.{numbers};
ghost use Rattle.dg_index.specs.IndexRecords.{heights};
ghost use Rattle.dg_plan.specs.IndexGraph.{Ground, inners_at, leaf, level_node, is_root, edge, kept, list_edges, child_edges, inner_edges, level_edges, first_edges, recent_edges, edges_of, top_edge, base_edge};

use crate::lengths::asked_length;
use crate::node_order::Form;
use dg_catalogue::Catalogue;
use dg_graph::Columns;
use dg_history::{Key, NodeId};
use dg_plan::{Edge, Via, Way};
use std::alloc::{AllocError, Global};

/// A base that can serve: the handle that holds the graph of a node.
#[derive(Clone, Copy)]
pub struct Base {
    /// The number of the handle.
    pub handle: u32,
    /// The node whose graph it holds.
    pub node: NodeId,
}

// Adds an edge, unless it enters the root.
fn add(
    edges: &mut Vec<Edge>,
    from: NodeId,
    to: NodeId,
    weight: u64,
    via: Via,
) -> Result<(), AllocError>
    ensures { OnOk result (edges.new.items ≡ edges.old.items ++ kept (edge from to weight via ∷ [])) }
{
    if to != NodeId::Root {
        edges.push(Edge {
            from,
            to,
            weight,
            via,
        })?;
    }
    Ok(())
}

// Leaf 0 is the root.
fn leaf_node(j: u32) -> NodeId
    ensures { result ≡ leaf j }
{
    if j == 0 {
        NodeId::Root
    } else {
        NodeId::Leaf(j)
    }
}

// The node of a level, where level 0 is the leaves.
fn node_of_level(h: u32, j: u32) -> NodeId
    ensures { result ≡ level_node h j }
{
    if h == 0 {
        NodeId::Leaf(j)
    } else {
        NodeId::Inner(h, j)
    }
}

// Adds the edges into a list of events, and out of it.
fn add_list(
    edges: &mut Vec<Edge>,
    catalogue: &Catalogue,
    cols: Columns,
    i: u32,
) -> Result<(), AllocError>
    requires { i < 2 ^ 31 }
    ensures { OnOk result (edges.new.items ≡ edges.old.items ++ kept (list_edges (asked_length_of catalogue.now cols) i)) }
{
    let list = NodeId::List(i);
    let key = Key::List(i);
    let weight = asked_length(catalogue, cols, key);
    let before = leaf_node(i);
    let after = leaf_node(i + 1);
    add(edges, before, list, weight, Via::Paid(key, Way::Same))?;
    add(edges, after, list, weight, Via::Paid(key, Way::Back))?;
    add(edges, list, before, 0, Via::Held(key, Way::Same))?;
    add(edges, list, after, 0, Via::Held(key, Way::Forward))?;
    Ok(())
}

// Adds the edges of all lists of events.
fn add_lists(
    edges: &mut Vec<Edge>,
    catalogue: &Catalogue,
    cols: Columns,
    leaves: u32,
) -> Result<(), AllocError>
    requires { leaves < 2 ^ 28 }
    ensures { OnOk result (edges.new.items ≡ edges.old.items ++ kept (flat_map (list_edges (asked_length_of catalogue.now cols)) (numbers 0 leaves))) }
{
    for i in 0..leaves {
        add_list(edges, catalogue, cols, i)?;
    }
    Ok(())
}

// Adds the edges between an interior node and its children, whose height is `below`.
fn add_children(
    edges: &mut Vec<Edge>,
    catalogue: &Catalogue,
    cols: Columns,
    arity: u32,
    below: u32,
    j: u32,
) -> Result<(), AllocError>
    requires below { below < 2 ^ 31 }
    requires j { 1 ≤ j }
    requires fits { j * arity ≤ 2 ^ 28 }
    ensures { OnOk result (edges.new.items ≡ edges.old.items ++ kept (inner_edges (asked_length_of catalogue.now cols) arity below j)) }
{
    let first = (j - 1) * arity + 1;
    for n in 0..arity {
        add_child(edges, catalogue, cols, below, j, first + n)?;
    }
    Ok(())
}

// Adds the edges between an interior node and one of its children.
fn add_child(
    edges: &mut Vec<Edge>,
    catalogue: &Catalogue,
    cols: Columns,
    below: u32,
    j: u32,
    c: u32,
) -> Result<(), AllocError>
    requires { below < 2 ^ 31 }
    ensures { OnOk result (edges.new.items ≡ edges.old.items ++ kept (child_edges (asked_length_of catalogue.now cols) below j c)) }
{
    let node = NodeId::Inner(below + 1, j);
    let child = node_of_level(below, c);
    let key = Key::Down(below + 1, c);
    let weight = asked_length(catalogue, cols, key);
    add(edges, node, child, weight, Via::Paid(key, Way::Forward))?;
    add(edges, child, node, weight, Via::Paid(key, Way::Back))?;
    Ok(())
}

// Adds the edges of so many interior nodes, whose children have the height `below`.
fn add_level(
    edges: &mut Vec<Edge>,
    catalogue: &Catalogue,
    cols: Columns,
    arity: u32,
    below: u32,
    count: u32,
) -> Result<(), AllocError>
    requires below { below < 2 ^ 31 }
    requires fits { count * arity ≤ 2 ^ 28 }
    ensures { OnOk result (edges.new.items ≡ edges.old.items ++ kept (flat_map (inner_edges (asked_length_of catalogue.now cols) arity below) (numbers 1 count))) }
{
    for n in 0..count {
        add_children(edges, catalogue, cols, arity, below, n + 1)?;
    }
    Ok(())
}

// Adds the edges of all interior nodes, by height. `width` is the number of leaves below one of them.
fn add_levels(
    edges: &mut Vec<Edge>,
    catalogue: &Catalogue,
    cols: Columns,
    leaves: u32,
    arity: u32,
) -> Result<(), AllocError>
    requires leaves { leaves < 2 ^ 28 }
    requires low { 2 ≤ arity }
    requires high { arity ≤ 64 }
    ensures { OnOk result (edges.new.items ≡ edges.old.items ++ kept (flat_map (level_edges (asked_length_of catalogue.now cols) leaves arity) (heights arity leaves))) }
{
    let mut below = 0;
    let mut width = arity as u64;
    while width <= leaves as u64 {
        add_level(
            edges,
            catalogue,
            cols,
            arity,
            below,
            (leaves as u64 / width) as u32,
        )?;
        below += 1;
        width *= arity as u64;
    }
    Ok(())
}

// Adds the edges from the root to the bases.
fn add_bases(edges: &mut Vec<Edge>, bases: &[Base]) -> Result<(), AllocError>
    ensures { OnOk result (edges.new.items ≡ edges.old.items ++ kept (map base_edge (map base_of bases.now))) }
{
    for base in bases {
        add(edges, NodeId::Root, base.node, 0, Via::Base(base.handle))?;
    }
    Ok(())
}

// Adds the edges from the root to the first interior node of each height.
fn add_tops(
    edges: &mut Vec<Edge>,
    catalogue: &Catalogue,
    cols: Columns,
    leaves: u32,
    arity: u32,
) -> Result<(), AllocError>
    requires leaves { leaves < 2 ^ 28 }
    requires low { 2 ≤ arity }
    requires high { arity ≤ 64 }
    ensures { OnOk result (edges.new.items ≡ edges.old.items ++ kept (map (top_edge (asked_length_of catalogue.now cols)) (heights arity leaves))) }
{
    let mut below = 0;
    let mut width = arity as u64;
    while width <= leaves as u64 {
        let key = Key::Top(below + 1);
        let weight = asked_length(catalogue, cols, key);
        add(
            edges,
            NodeId::Root,
            NodeId::Inner(below + 1, 1),
            weight,
            Via::Paid(key, Way::Forward),
        )?;
        below += 1;
        width *= arity as u64;
    }
    Ok(())
}

// Adds the edges between the current graph, the recent events and the last leaf.
fn add_recent(edges: &mut Vec<Edge>, leaves: u32) -> Result<(), AllocError>
    ensures { OnOk result (edges.new.items ≡ edges.old.items ++ kept (recent_edges leaves)) }
{
    let last = leaf_node(leaves);
    add(
        edges,
        NodeId::Now,
        NodeId::Recent,
        0,
        Via::Recent(Way::Back),
    )?;
    add(
        edges,
        NodeId::Recent,
        NodeId::Now,
        0,
        Via::Recent(Way::Forward),
    )?;
    add(edges, NodeId::Recent, last, 0, Via::Recent(Way::Same))?;
    add(edges, last, NodeId::Recent, 0, Via::Recent(Way::Same))?;
    Ok(())
}

/// The edges of the graph of an index, in their order (the index graph, as `dg_plan` defines it): from
/// the root, by lists of events, by height, and behind the last leaf. A step that reads a record weighs the
/// bytes of its asked columns.
pub fn build_edges(
    alloc: Global,
    form: Form,
    bases: &[Base],
    catalogue: &Catalogue,
    cols: Columns,
) -> Result<Vec<Edge>, AllocError>
    requires leaves { form.leaves < 2 ^ 28 }
    requires low { 2 ≤ form.arity }
    requires high { form.arity ≤ 64 }
    ensures { IfOk result (λ v. v.items ≡ edges_of (record { leaves = form.leaves; arity = form.arity; bases = map base_of bases.now; memory = form.memory; weight = asked_length_of catalogue.now cols })) }
{
    let mut edges = Vec::new(alloc);
    if form.memory {
        add(&mut edges, NodeId::Root, NodeId::Now, 0, Via::Now)?;
    }
    add_bases(&mut edges, bases)?;
    add_tops(&mut edges, catalogue, cols, form.leaves, form.arity)?;
    add_lists(&mut edges, catalogue, cols, form.leaves)?;
    add_levels(&mut edges, catalogue, cols, form.leaves, form.arity)?;
    if form.memory {
        add_recent(&mut edges, form.leaves)?;
    }
    Ok(edges)
}
