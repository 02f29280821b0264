//! What a target adds to a tree: its plan from the nearest node of the tree.
ghost use Rattle.std.specs.Prelude.{true, false, ◌≡◌, ℕ, List, [], ◌∷◌, ◌++◌, ◌<◌, ◌≤◌, ◌+◌, ◌^◌, length, IfOk, OnOk};
ghost use Rattle.std.specs.List.{All};
ghost use Rattle.dg_plan.specs.Walks.{IsTree, Leads};
ghost use Rattle.dg_path.specs.Search.{AreLinks, AreAdjacent, arcs, IsTable, CostsFit, IsTarget, grafts_of};

use crate::{Adjacency, Cost, Link, grow, plan_to};
use std::alloc::{AllocError, Global};

/// What a target adds to a tree.
#[derive(Drop)]
pub struct Grafted {
    /// The node of the tree at which the target's plan begins.
    pub from: u32,
    /// The numbers of the plan's edges, from that node on: none where the target is in the tree already.
    pub steps: Vec<u32>,
}

/// The node at which a plan of the target begins.
fn first_node(links: &[Link], steps: &[u32], target: u32) -> u32
    requires { All (λ i. i < length links.now) steps.now }
    ensures { (a : ℕ) → Leads (arcs links.now) a steps.now target → result ≡ a }
{
    match steps.first() {
        Some(step) => links[*step as usize].tail,
        None => target,
    }
}

/// The tree of several targets: for each in order the plan from the nearest node of the tree so far is
/// added. `outs` and `ins` have the edges that leave and that enter each node. `costs` are the least costs
/// from the nodes with which the tree begins, and are used up: afterwards they are of no use. Takes the time
/// and the memory of `plan_to` and of `grow` for each target. An `Err` says that memory ran out.
pub fn graft(
    alloc: Global,
    links: &[Link],
    outs: &Adjacency,
    ins: &Adjacency,
    costs: &mut [Cost],
    targets: &[u32],
) -> Result<Vec<Grafted>, AllocError>
    requires links { AreLinks links.now (length costs.old) }
    requires few { length links.now < 2 ^ 32 }
    requires outs { AreAdjacent true links.now outs.now.first.items outs.now.next.items (length costs.old) }
    requires ins { AreAdjacent false links.now ins.now.first.items ins.now.next.items (length costs.old) }
    requires fits { CostsFit costs.old }
    requires table { (starts : List ℕ) × IsTable (arcs links.now) starts costs.old }
    requires targets { All (IsTarget costs.old) targets.now }
    ensures tree { IfOk result (λ v. (starts : List ℕ) → IsTable (arcs links.now) starts costs.old → IsTree (arcs links.now) starts targets.now (grafts_of v.items)) }
{
    let mut grafts = Vec::with_capacity(alloc, targets.len())?;
    for (i, target) in targets.iter().enumerate() {
        let steps = plan_to(alloc, links, &ins.first, &ins.next, costs, *target)?;
        let from = first_node(links, &steps, *target);
        // Behind the last target no plan follows that needs the costs.
        if i + 1 < targets.len() {
            grow(alloc, links, &outs.first, &outs.next, &steps, costs)?;
        }
        grafts.push(Grafted { from, steps })?;
    }
    Ok(grafts)
}
