//! The interior nodes of a height, by the exact steps between their children.

ghost use Rattle.std.specs.Prelude.{◌≡◌, ◌≤◌, ◌<◌, ◌+◌, ◌-◌, ◌*◌, ◌^◌, ◌∷◌, ℕ, List, length, take, drop, get_or, IfOk, IfErr, OnOk};
ghost use Rattle.dg_graph.specs.declared.event.Event.{Event};
ghost use Rattle.dg_graph.specs.Composition.{chained};
ghost use Rattle.dg_graph.specs.DifferentialFunction.{inward};
ghost use Rattle.dg_index.specs.ExactSteps.{ways_of};
ghost use Rattle.dg_build.specs.InteriorDeltas.{AreMade, DiffersInDeltas, IsBehind, IsNextNode, downs_by, inner_by, last_way};
ghost use Rattle.dg_build.specs.SpelledRecords.{IsFaultBelow, IsFaultOfDeltas};
ghost use Rattle.dg_build.specs.GivenDeltas.{AreAdded, later_downs, later_steps};
ghost use Rattle.dg_build.specs.declared.fault.BuildFault.TheVariants.{Memory};

use crate::family::{add_downs, chain_on, chain_with, next_step, ways};
use crate::fault::BuildFault;
use dg_delta::Delta;
use dg_diff::inward;
use dg_history::Params;
use dg_segment::Segment;
use std::alloc::{AllocError, Global};
use std::collections::VecDeque;

/// An interior node, by exact deltas.
#[derive(Drop)]
pub(crate) struct Interior {
    /// From its first child to it.
    pub(crate) inner: Delta,
    /// From its first child to each other one.
    pub(crate) ways: Vec<Delta>,
}

/// Makes the interior node of the next group of children, by the exact steps from each of them to the next,
/// which are taken from the front of the row. An `Err` says that memory ran out.
pub(crate) fn interior_node(
    alloc: Global,
    params: Params,
    row: &mut VecDeque<Delta>,
) -> Result<Interior, AllocError>
    requires arity { 2 ≤ params.k }
    requires there { params.k - 1 ≤ length row.old.items }
    ensures inner { IfOk result (λ f. f.inner ≡ inward params.function (ways_of (take (params.k - 1) row.old.items))) }
    ensures ways { IfOk result (λ f. f.ways.items ≡ ways_of (take (params.k - 1) row.old.items)) }
    ensures rest { OnOk result (row.new.items ≡ drop (params.k - 1) row.old.items) }
{
    let k = params.k as usize;
    let ways = ways(alloc, k - 1, row)?;
    let inner = inward(alloc, params.function, ways.as_slice())?;
    Ok(Interior { inner, ways })
}

// The exact step from a node to the first child of the next one, by the delta to its last child, and the step
// at the front of the row, which is taken. An `Err` says that memory ran out.
fn step_across(last: Delta, row: &mut VecDeque<Delta>) -> Result<Delta, AllocError>
    requires { 1 ≤ length row.old.items }
    ensures step { IfOk result (λ step. step ≡ chained last (get_or row.old.items 0 last)) }
    ensures rest { OnOk result (row.new.items ≡ drop 1 row.old.items) }
{
    chain_on(&last, next_step(row))
}

// Makes the interior node behind another one, by the delta from that one to its last child, and the exact
// steps from that child on, which are taken from the front of the row. Answers it behind the exact step to it
// from the other node. An `Err` says that memory ran out.
fn linked_node(
    alloc: Global,
    params: Params,
    last: Delta,
    row: &mut VecDeque<Delta>,
) -> Result<(Delta, Interior), AllocError>
    requires arity { 2 ≤ params.k }
    requires there { params.k ≤ length row.old.items }
    ensures step { IfOk result (λ made. made.0 ≡ chained (chained last (get_or row.old.items 0 last)) made.1.inner) }
    ensures inner { IfOk result (λ made. made.1.inner ≡ inward params.function (ways_of (take (params.k - 1) (drop 1 row.old.items)))) }
    ensures ways { IfOk result (λ made. made.1.ways.items ≡ ways_of (take (params.k - 1) (drop 1 row.old.items))) }
    ensures rest { IfOk result (λ made. row.new.items ≡ drop (params.k - 1) (drop 1 row.old.items)) }
{
    let step = step_across(last, row)?;
    let node = interior_node(alloc, params, row)?;
    let step = chain_with(step, &node.inner)?;
    Ok((step, node))
}

/// Makes the interior node behind another one, by the delta from that one to its last child, and the exact
/// steps from that child on, which are taken from the front of the row. Gives the segment the deltas to its
/// children. Answers the exact step from the one node to the other, and the delta to its own last child.
fn next_node(
    alloc: Global,
    params: Params,
    last: Delta,
    row: &mut VecDeque<Delta>,
    segment: &mut Segment,
) -> Result<(Delta, Delta), BuildFault>
    requires arity { 2 ≤ params.k }
    requires there { params.k ≤ length row.old.items }
    ensures rest { OnOk result (row.new.items ≡ drop params.k row.old.items) }
    ensures frame { OnOk result (DiffersInDeltas segment.old segment.new) }
    ensures adds { OnOk result (length segment.new.deltas ≡ length segment.old.deltas + params.k) }
    ensures is { IfOk result (λ made. (events : List Event) (h j more : ℕ) → 1 ≤ more → IsBehind params events h j more last row.old.items
        → IsNextNode params events h j more made.0 made.1 row.new.items segment.old segment.new) }
    ensures fault { IfErr result (λ e. (events : List Event) (h j more : ℕ) → 1 ≤ more → IsBehind params events h j more last row.old.items
        → length events < 2 ^ 32 → e ≡ Memory) }
    ensures wide { IfErr result (λ e. IsFaultBelow (length segment.old.deltas + params.k) e) }
    ensures step { IfOk result (λ made. made.0 ≡ chained (chained last (get_or row.old.items 0 last)) (inner_by params (drop 1 row.old.items))) }
    ensures last { IfOk result (λ made. made.1 ≡ last_way (downs_by params (drop 1 row.old.items))) }
    ensures given { IfOk result (λ made. AreAdded (downs_by params (drop 1 row.old.items)) segment.old.deltas segment.new.deltas) }
    ensures first { IfErr result (λ e. IsFaultOfDeltas (length segment.old.deltas) (downs_by params (drop 1 row.old.items)) e) }
{
    let (step, node) = linked_node(alloc, params, last, row)?;
    let down = add_downs(alloc, node.inner, node.ways, segment)?;
    Ok((step, down))
}

/// Makes so many interior nodes behind another one, by the delta from that one to its last child, and the
/// exact steps from that child on. Gives the segment the deltas from each to its children. Answers the exact
/// steps from each node to the next. Each step of the row is let go of as soon as it is used.
pub(crate) fn later_nodes(
    alloc: Global,
    params: Params,
    more: usize,
    last: Delta,
    row: VecDeque<Delta>,
    segment: &mut Segment,
) -> Result<Vec<Delta>, BuildFault>
    requires arity { 2 ≤ params.k }
    requires long { length row.items ≡ more * params.k }
    ensures steps { IfOk result (λ up. length up.items ≡ more) }
    ensures frame { OnOk result (DiffersInDeltas segment.old segment.new) }
    ensures adds { OnOk result (length segment.new.deltas ≡ length segment.old.deltas + more * params.k) }
    ensures is { IfOk result (λ up. (events : List Event) (h j : ℕ) → IsBehind params events h j more last row.items
        → AreMade params events h j more up.items segment.old segment.new) }
    ensures fault { IfErr result (λ e. (events : List Event) (h j : ℕ) → IsBehind params events h j more last row.items
        → length events < 2 ^ 32 → e ≡ Memory) }
    ensures wide { IfErr result (λ e. IsFaultBelow (length segment.old.deltas + more * params.k) e) }
    ensures up { IfOk result (λ up. up.items ≡ later_steps params more last row.items) }
    ensures given { IfOk result (λ up. AreAdded (later_downs params more row.items) segment.old.deltas segment.new.deltas) }
    ensures first { IfErr result (λ e. IsFaultOfDeltas (length segment.old.deltas) (later_downs params more row.items) e) }
{
    let mut last = last;
    let mut row = row;
    let mut steps = Vec::with_capacity(alloc, more)?;
    while steps.len() < more {
        let (step, down) = next_node(alloc, params, last, &mut row, segment)?;
        steps.push(step)?;
        last = down;
    }
    Ok(steps)
}
