//! The tree of several targets, which grows by one plan after another.
ghost use Rattle.std.specs.Prelude.{true, false, ◌≡◌, ℕ, ◌<◌, ◌^◌, List, ◌++◌, length, IfOk, OnOk};
ghost use Rattle.std.specs.List.{All};
ghost use Rattle.dg_history.specs.declared.node.NodeId.{NodeId};
ghost use Rattle.dg_path.specs.declared.search.TheConstants.{UNREACHED};
ghost use Rattle.dg_path.specs.Search.{AreAdjacent, AreLinks, Falls, CostsFit, AreCostsSettled, IsTable, arcs, label_at};
ghost use Rattle.dg_plan.specs.IndexGraph.{arcs_of};
ghost use Rattle.dg_plan.specs.Walks.{IsPlan, Leads, entered};
ghost use Rattle.dg_planner.specs.Trees.{costs_now};

use dg_history::NodeId;
use dg_path::{Adjacency, Cost, Link, grow, plan_to};
use dg_plan::Edge;
use std::alloc::{AllocError, Global};

/// What a target adds to a tree.
#[derive(Drop)]
pub struct Graft {
    /// The node of the tree at which its plan begins.
    pub from: NodeId,
    /// The numbers of the plan's edges, in the order of the walk.
    pub steps: Vec<u32>,
}

/// The tree of several targets: for each in order the plan that begins at the nearest node of the tree so
/// far.
#[derive(Drop)]
pub struct Tree {
    /// What each target adds, in the order of targets.
    pub grafts: Vec<Graft>,
    /// What all grafts weigh together, in bytes.
    pub weight: u64,
    /// What the plan of each target from the root weighs, in bytes, in the order of targets.
    pub singles: Vec<u64>,
    /// What these plans weigh together, in bytes.
    pub sum: u64,
}

/// The node at which a walk to the target begins: the target itself, where there is no step.
pub fn beginning(edges: &[Edge], steps: &[u32], target: NodeId) -> NodeId
    requires { All (λ i. i < length edges.now) steps.now }
    ensures { (a : NodeId) → Leads (arcs_of edges.now) a steps.now target → result ≡ a }
{
    match steps.first() {
        Some(step) => edges[*step as usize].from,
        None => target,
    }
}

/// What a target at an index adds to a tree from which these are the costs. An `Err` says that memory ran out.
pub fn graft_at(
    alloc: Global,
    edges: &[Edge],
    links: &[Link],
    ins: &Adjacency,
    costs: &[Cost],
    at: u32,
    target: NodeId,
) -> Result<Graft, AllocError>
    requires count { length links.now ≡ length edges.now }
    requires node { at < length costs.now }
    requires links { AreLinks links.now (length costs.now) }
    requires few { length links.now < 2 ^ 32 }
    requires chained { AreAdjacent false links.now ins.now.first.items ins.now.next.items (length costs.now) }
    requires table { (starts : List ℕ) × IsTable (arcs links.now) starts costs.now }
    requires near { (label_at costs.now at).weight < UNREACHED.weight }
    ensures plan { IfOk result (λ x. (starts : List ℕ) → IsTable (arcs links.now) starts costs.now → IsPlan (arcs links.now) starts at x.steps.items) }
    ensures steps { IfOk result (λ x. All (λ i. i < length links.now) x.steps.items) }
    ensures begins { IfOk result (λ x. (a : NodeId) → Leads (arcs_of edges.now) a x.steps.items target → x.from ≡ a) }
{
    let steps = plan_to(alloc, links, &ins.first, &ins.next, costs, at)?;
    let from = beginning(edges, &steps, target);
    Ok(Graft { from, steps })
}

/// The least weight of the node at an index.
pub fn weight_at(costs: &[Cost], node_index: u32) -> u64
    requires { node_index < length costs.now }
    ensures { result ≡ (label_at costs.now node_index).weight }
{
    costs[node_index as usize].weight
}

/// The costs from a tree so far: those that are kept from the root, until it has grown.
pub fn costs_now<'a>(kept: &'a [Cost], grown: &'a [Cost]) -> &'a [Cost]
    ensures { result.now ≡ costs_now kept.now grown.now }
{
    if grown.is_empty() { kept } else { grown }
}

// Copies the costs that are kept, where the tree has not grown.
fn begin(kept: &[Cost], grown: &mut Vec<Cost>) -> Result<(), AllocError>
    ensures { OnOk result (grown.new.items ≡ costs_now kept.now grown.old.items) }
{
    if grown.is_empty() {
        grown.extend_from_slice(kept)?;
    }
    Ok(())
}

/// Grows the costs from a tree by steps that are added to it: those that are kept are copied once, when it first grows.
/// An `Err` says that memory ran out: the costs are then of no use.
pub fn grow_on(
    alloc: Global,
    links: &[Link],
    outs: &Adjacency,
    kept: &[Cost],
    steps: &[u32],
    grown: &mut Vec<Cost>,
) -> Result<(), AllocError>
    requires some { 0 < length (costs_now kept.now grown.old.items) }
    requires links { AreLinks links.now (length (costs_now kept.now grown.old.items)) }
    requires outs { AreAdjacent true links.now outs.now.first.items outs.now.next.items (length (costs_now kept.now grown.old.items)) }
    requires fits { CostsFit (costs_now kept.now grown.old.items) }
    requires settled { AreCostsSettled (arcs links.now) (costs_now kept.now grown.old.items) }
    requires steps { All (λ i. i < length links.now) steps.now }
    ensures table { OnOk result ((starts : List ℕ) → IsTable (arcs links.now) starts (costs_now kept.now grown.old.items)
        → IsTable (arcs links.now) (starts ++ entered (arcs links.now) steps.now) (costs_now kept.now grown.new.items)) }
    ensures falls { OnOk result (Falls (costs_now kept.now grown.old.items) (costs_now kept.now grown.new.items)) }
    ensures fits { OnOk result (CostsFit (costs_now kept.now grown.new.items)) }
    ensures len { OnOk result (length (costs_now kept.now grown.new.items) ≡ length (costs_now kept.now grown.old.items)) }
{
    begin(kept, grown)?;
    grow(alloc, links, &outs.first, &outs.next, steps, grown)
}
