//! The least costs of all nodes, by a search that corrects labels; and how they fall as a tree grows.
ghost use Rattle.std.specs.Prelude.{true, ◌≡◌, ℕ, List, [], ◌∷◌, ◌++◌, ◌<◌, ◌≤◌, ◌+◌, ◌^◌, length, IfOk, OnOk};
ghost use Rattle.std.specs.BinaryHeap.{heap_items};
ghost use Rattle.std.specs.List.{All};
ghost use Rattle.dg_plan.specs.Walks.{entered};
ghost use Rattle.dg_path.specs.Search.{AreLinks, AreAdjacent, arcs, AreCostsSettled, IsTable, CostsFit, Falls, AllKnown, WithStarts};

use crate::search::{Waiting, settle};
use crate::{Cost, Link, UNREACHED};
use std::alloc::{AllocError, Global};
use std::cmp::Reverse;
use std::collections::BinaryHeap;

/// Makes a node a starting node, which costs nothing; it then waits.
fn add_start(
    node: u32,
    costs: &mut [Cost],
    queue: &mut BinaryHeap<Reverse<Waiting>>,
) -> Result<(), AllocError>
    requires node { node < length costs.old }
    requires fits { CostsFit costs.old }
    ensures added { OnOk result (WithStarts (node ∷ []) costs.old (heap_items queue.old) costs.new (heap_items queue.new)) }
{
    costs[node as usize] = Cost {
        weight: 0,
        edges: 0,
    };
    queue.push(Reverse(Waiting {
        weight: 0,
        edges: 0,
        node,
    }))?;
    Ok(())
}

/// The least costs of the walks from the starting nodes so far and from one more.
fn start_at(
    alloc: Global,
    links: &[Link],
    first: &[u32],
    next: &[u32],
    node: u32,
    costs: &mut [Cost],
) -> Result<(), AllocError>
    requires node { node < length costs.old }
    requires links { AreLinks links.now (length costs.old) }
    requires adjacent { AreAdjacent true links.now first.now next.now (length costs.old) }
    requires fits { CostsFit costs.old }
    requires settled { AreCostsSettled (arcs links.now) costs.old }
    ensures table { OnOk result ((starts : List ℕ) → IsTable (arcs links.now) starts costs.old → IsTable (arcs links.now) (starts ++ node ∷ []) costs.new) }
    ensures fits { OnOk result (CostsFit costs.new) }
{
    let mut queue = BinaryHeap::new(alloc);
    add_start(node, costs, &mut queue)?;
    settle(links, first, next, costs, &mut queue)
}

/// The least cost of each node, by the walks from the start: `UNREACHED` where there is none. `first` and
/// `next` are the lists of the edges that leave each of so many nodes (`thread`). Takes time E log V, and
/// memory for each node once beside the queue. An `Err` says that memory ran out.
pub fn costs_from(
    alloc: Global,
    links: &[Link],
    first: &[u32],
    next: &[u32],
    nodes: usize,
    start: u32,
) -> Result<Vec<Cost>, AllocError>
    requires start { start < nodes }
    requires few { nodes + 1 < 2 ^ 32 }
    requires links { AreLinks links.now nodes }
    requires chained { AreAdjacent true links.now first.now next.now nodes }
    ensures table { IfOk result (λ v. IsTable (arcs links.now) (start ∷ []) v.items) }
    ensures fits { IfOk result (λ v. CostsFit v.items) }
    ensures len { IfOk result (λ v. length v.items ≡ nodes) }
{
    let mut costs = vec![in alloc; UNREACHED; nodes]?;
    start_at(alloc, links, first, next, start, &mut costs)?;
    Ok(costs)
}

/// Lowers the costs to those of the walks from the starting nodes so far and from the nodes that the steps
/// enter; a step is the number of an edge. `first` and `next` are the lists of the edges that leave each
/// node (`thread`). Takes time for the steps, and for what they lower as `costs_from` does. An `Err` says
/// that memory ran out: the costs are then of no use.
pub fn grow(
    alloc: Global,
    links: &[Link],
    first: &[u32],
    next: &[u32],
    steps: &[u32],
    costs: &mut [Cost],
) -> Result<(), AllocError>
    requires links { AreLinks links.now (length costs.old) }
    requires chained { AreAdjacent true links.now first.now next.now (length costs.old) }
    requires fits { CostsFit costs.old }
    requires settled { AreCostsSettled (arcs links.now) costs.old }
    requires steps { All (λ i. i < length links.now) steps.now }
    ensures table { OnOk result ((starts : List ℕ) → IsTable (arcs links.now) starts costs.old → IsTable (arcs links.now) (starts ++ entered (arcs links.now) steps.now) costs.new) }
    ensures falls { OnOk result (Falls costs.old costs.new) }
    ensures settled { OnOk result (AreCostsSettled (arcs links.now) costs.new) }
    ensures fits { OnOk result (CostsFit costs.new) }
{
    let mut queue = BinaryHeap::with_capacity(alloc, steps.len())?;
    for step in steps {
        add_start(links[*step as usize].head, costs, &mut queue)?;
    }
    settle(links, first, next, costs, &mut queue)
}
