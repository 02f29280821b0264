//! The plan of a target with the potentials that certify it.
ghost use Rattle.std.specs.Prelude.{false, ◌≡◌, ℕ, List, [], ◌∷◌, ◌<◌, ◌≤◌, ◌^◌, length, IfOk, map, min, slice_index};
ghost use Rattle.dg_plan.specs.Walks.{IsPlan, Leads, IsCertificate, IsPotential, weight_of};
ghost use Rattle.dg_path.specs.Search.{AreLinks, AreAdjacent, arcs, IsTable, IsTarget};

use crate::{Adjacency, Cost, Link, plan_to};
use std::alloc::{AllocError, Global};

/// The plan of a target, with what certifies it.
#[derive(Drop)]
pub struct Route {
    /// The numbers of the plan's edges, from the root on.
    pub steps: Vec<u32>,
    /// What they weigh together, in bytes.
    pub weight: u64,
    /// The potential of each node, in bytes: its least weight, cut at the plan's.
    pub potentials: Vec<u64>,
}

/// The least weights, cut at a weight.
fn cut(alloc: Global, costs: &[Cost], weight: u64) -> Result<Vec<u64>, AllocError>
    ensures { IfOk result (λ v. v.items ≡ map (λ c. min c.weight weight) costs.now) }
{
    costs
        .iter()
        .map(|cost| cost.weight.min(weight))
        .collect(alloc)
}

/// The plan of a target from the root, which is node 0, with the potential of each node. `ins` has the edges
/// that enter each node, and `costs` are the least costs from the root. Takes time and memory for each node
/// once, beside `plan_to`. An `Err` says that memory ran out.
pub fn route_to(
    alloc: Global,
    links: &[Link],
    ins: &Adjacency,
    costs: &[Cost],
    target: u32,
) -> Result<Route, AllocError>
    requires links { AreLinks links.now (length costs.now) }
    requires few { length links.now < 2 ^ 32 }
    requires ins { AreAdjacent false links.now ins.now.first.items ins.now.next.items (length costs.now) }
    requires table { IsTable (arcs links.now) (0 ∷ []) costs.now }
    requires target { IsTarget costs.now target }
    ensures plan { IfOk result (λ r. IsPlan (arcs links.now) (0 ∷ []) target r.steps.items) }
    ensures weight { IfOk result (λ r. r.weight ≡ weight_of (arcs links.now) r.steps.items) }
    ensures least { IfOk result (λ r. (others : List ℕ) → Leads (arcs links.now) 0 others target → r.weight ≤ weight_of (arcs links.now) others) }
    ensures certificate { IfOk result (λ r. ((v : ℕ) → v < length costs.now → IsTarget costs.now v) → IsCertificate (arcs links.now) 0 target (λ v. slice_index r.potentials.items v) r.steps.items r.weight) }
    ensures len { IfOk result (λ r. length r.potentials.items ≡ length costs.now) }
    ensures potentials { IfOk result (λ r. (v : ℕ) → IsTarget costs.now v → IsPotential (arcs links.now) (0 ∷ []) r.weight v (slice_index r.potentials.items v)) }
{
    let steps = plan_to(alloc, links, &ins.first, &ins.next, costs, target)?;
    let weight = costs[target as usize].weight;
    let potentials = cut(alloc, costs, weight)?;
    Ok(Route {
        steps,
        weight,
        potentials,
    })
}
