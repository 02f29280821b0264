//! Edges between numbered nodes, and what lowers the cost of one by an edge.
ghost use Rattle.std.specs.Prelude.{true, ◌≡◌, ℕ, List, ◌<◌, ◌≤◌, ◌+◌, ◌-◌, ◌^◌, length, OnOk};
ghost use Rattle.std.specs.BinaryHeap.{heap_items};
ghost use Rattle.dg_plan.specs.Walks.{AtMost};
ghost use Rattle.dg_path.specs.Search.{AreLinks, AreAdjacent, arcs, cheaper, AreCostsSettled, Walked, CostsFit, AllKnown, Falls, Lowered, Lowers, cost_at, seen};

use std::alloc::AllocError;
use std::cmp::Reverse;
use std::collections::BinaryHeap;

/// An edge between two nodes, which are given by their numbers.
#[derive(Clone, Copy)]
pub struct Link {
    /// The node that it leaves.
    pub tail: u32,
    /// The node that it enters.
    pub head: u32,
    /// What it weighs, in bytes.
    pub weight: u64,
}

/// What a walk costs.
#[derive(Clone, Copy)]
pub struct Cost {
    /// The weight of its edges together, in bytes.
    pub weight: u64,
    /// How many edges it has.
    pub edges: u32,
}

/// The cost of a node to which no walk is known that weighs less than 2^64 - 1 bytes.
pub const UNREACHED: Cost = Cost {
    weight: u64::MAX,
    edges: 0,
};

/// The cost of what is not reached, as numbers: bytes and edges. Does nothing.
pub fn search_limits()
    ensures weight { UNREACHED.weight ≡ 2 ^ 64 - 1 }
    ensures edges { UNREACHED.edges ≡ 0 }
{}

impl Cost {
    /// Whether it comes before the other: by weight, and with equal weights by the number of edges.
    fn is_below(self, other: Cost) -> bool
        ensures { result ≡ cheaper self other }
    {
        self.weight < other.weight || (self.weight == other.weight && self.edges < other.edges)
    }
}

/// A node from which the search has to go on, with the cost that it had when it was lowered. The order is
/// that in which the search goes on.
#[derive(Clone, Copy, PartialEq, Eq, PartialOrd, Ord)]
pub(crate) struct Waiting {
    pub(crate) weight: u64,
    pub(crate) edges: u32,
    pub(crate) node: u32,
}

/// Lowers the head of an edge to the cost of the walk through it, if that is less; the head then waits.
fn lower(
    from: Cost,
    link: Link,
    costs: &mut [Cost],
    queue: &mut BinaryHeap<Reverse<Waiting>>,
) -> Result<(), AllocError>
    requires head { link.head < length costs.old }
    requires edges { from.edges + 1 < 2 ^ 32 }
    requires far { AtMost (cost_at costs.old link.head) (seen UNREACHED) }
    ensures lowers { OnOk result (Lowers from link costs.old (heap_items queue.old) costs.new (heap_items queue.new)) }
{
    if let Some(weight) = from.weight.checked_add(link.weight) {
        let through = Cost {
            weight,
            edges: from.edges + 1,
        };
        if through.is_below(costs[link.head as usize]) {
            costs[link.head as usize] = through;
            queue.push(Reverse(Waiting {
                weight,
                edges: through.edges,
                node: link.head,
            }))?;
        }
    }
    Ok(())
}

/// Lowers the heads of the edges that leave a node.
fn relax(
    links: &[Link],
    first: &[u32],
    next: &[u32],
    costs: &mut [Cost],
    queue: &mut BinaryHeap<Reverse<Waiting>>,
    node: u32,
) -> Result<(), AllocError>
    requires node { node < length costs.old }
    requires links { AreLinks links.now (length costs.old) }
    requires adjacent { AreAdjacent true links.now first.now next.now (length costs.old) }
    requires fits { CostsFit costs.old }
    ensures lowered { OnOk result (Lowered links.now node (length links.now) costs.old (heap_items queue.old) costs.new (heap_items queue.new)) }
{
    let from = costs[node as usize];
    let mut edge = first[node as usize] as usize;
    while edge < links.len() {
        lower(from, links[edge], costs, queue)?;
        edge = next[edge] as usize;
    }
    Ok(())
}

/// Lowers costs along edges until no edge can lower one. Each node whose edges may lower a cost waits in the
/// queue. The cheapest goes on first, for speed alone: a node then mostly goes on once.
pub(crate) fn settle(
    links: &[Link],
    first: &[u32],
    next: &[u32],
    costs: &mut [Cost],
    queue: &mut BinaryHeap<Reverse<Waiting>>,
) -> Result<(), AllocError>
    requires links { AreLinks links.now (length costs.old) }
    requires adjacent { AreAdjacent true links.now first.now next.now (length costs.old) }
    requires fits { CostsFit costs.old }
    requires waits { AllKnown (arcs links.now) costs.old (heap_items queue.old) }
    ensures settled { OnOk result (AreCostsSettled (arcs links.now) costs.new) }
    ensures walks { OnOk result ((starts : List ℕ) → Walked (arcs links.now) starts costs.old → Walked (arcs links.now) starts costs.new) }
    ensures falls { OnOk result (Falls costs.old costs.new) }
    ensures fits { OnOk result (CostsFit costs.new) }
{
    while let Some(Reverse(top)) = queue.pop() {
        if (top.node as usize) < costs.len() {
            // A node that was lowered again waits again, at its present cost: older entries say nothing.
            let cost = costs[top.node as usize];
            if cost.weight == top.weight && cost.edges == top.edges {
                relax(links, first, next, costs, queue, top.node)?;
            }
        }
    }
    Ok(())
}
