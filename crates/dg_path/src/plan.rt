//! The plan of a target by a table of least costs, read off backwards.
ghost use Rattle.std.specs.Prelude.{IsTrue, ◌↔◌, false, ◌≡◌, ℕ, List, ◌<◌, ◌≤◌, ◌+◌, ◌^◌, length, IfOk, slice_get, Some};
ghost use Rattle.std.specs.List.{All};
ghost use Rattle.dg_plan.specs.Walks.{IsPlan};
ghost use Rattle.dg_path.specs.declared.search.Link.{Link};
ghost use Rattle.dg_path.specs.declared.search.TheConstants.{UNREACHED};
ghost use Rattle.dg_path.specs.Search.{AreLinks, AreAdjacent, arcs, IsTable, Meets, IsFirstInto, label_at, CostsFit};

use crate::{Cost, Link};
use std::alloc::{AllocError, Global};

/// Whether the edge attains the cost of its head.
fn meets(costs: &[Cost], link: Link) -> bool
    requires tail { link.tail < length costs.now }
    requires head { link.head < length costs.now }
    ensures { IsTrue result ↔ Meets costs.now link }
{
    let before = costs[link.tail as usize];
    let after = costs[link.head as usize];
    before.weight <= after.weight
        && after.weight - before.weight == link.weight
        && before.edges < after.edges
        && after.edges - before.edges == 1
}

/// The least-numbered edge into a node that attains the cost of the node. One does.
fn best(links: &[Link], first: &[u32], next: &[u32], costs: &[Cost], node: usize) -> usize
    requires node { node < length costs.now }
    requires links { AreLinks links.now (length costs.now) }
    requires adjacent { AreAdjacent false links.now first.now next.now (length costs.now) }
    requires some { (k : ℕ) × (l : Link) × (slice_get links.now k ≡ Some l) × (l.head ≡ node) × Meets costs.now l }
    ensures { IsFirstInto links.now costs.now node result }
{
    // The list of the edges into the node rises.
    let mut edge = first[node] as usize;
    while !meets(costs, links[edge]) {
        edge = next[edge] as usize;
    }
    edge
}

/// The plan of a target, as the numbers of its edges from a starting node on, by a table of least costs.
/// `first` and `next` are the lists of the edges that enter each node (`thread`). Takes time for the edges
/// that enter the nodes of the plan, and memory for its steps. An `Err` says that memory ran out.
pub fn plan_to(
    alloc: Global,
    links: &[Link],
    first: &[u32],
    next: &[u32],
    costs: &[Cost],
    target: u32,
) -> Result<Vec<u32>, AllocError>
    requires node { target < length costs.now }
    requires links { AreLinks links.now (length costs.now) }
    requires few { length links.now < 2 ^ 32 }
    requires chained { AreAdjacent false links.now first.now next.now (length costs.now) }
    requires table { (starts : List ℕ) × IsTable (arcs links.now) starts costs.now }
    requires near { (label_at costs.now target).weight < UNREACHED.weight }
    ensures plan { IfOk result (λ v. (starts : List ℕ) → IsTable (arcs links.now) starts costs.now → IsPlan (arcs links.now) starts target v.items) }
    ensures steps { IfOk result (λ v. All (λ i. i < length links.now) v.items) }
{
    let mut node = target as usize;
    let mut steps = Vec::with_capacity(alloc, costs[node].edges as usize)?;
    while costs[node].edges > 0 {
        let edge = best(links, first, next, costs, node);
        steps.push(edge as u32)?;
        node = links[edge].tail as usize;
    }
    steps.reverse();
    Ok(steps)
}
