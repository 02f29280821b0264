//! The new leaves of a batch, and the interior nodes above them.

ghost use Rattle.std.specs.Prelude.{◌≡◌, ◌≤◌, ◌<◌, ◌+◌, ◌-◌, ◌*◌, ◌^◌, ◌++◌, [], ℕ, List, length, map, take, drop, get_or, IfOk, IfErr, OnOk};
ghost use Rattle.dg_graph.specs.declared.event.Event.{Event};
ghost use Rattle.dg_graph.specs.Composition.{nothing};
ghost use Rattle.dg_graph.specs.ExactEvents.{AreChangesOf};
ghost use Rattle.dg_graph.specs.Replay.{replay};
ghost use Rattle.dg_index.specs.ExactSteps.{steps_at};
ghost use Rattle.dg_index.specs.Hierarchy.{leaves, set_at};
ghost use Rattle.dg_index.specs.IndexRecords.{record_among, deltas_due, recent_of};
ghost use Rattle.dg_index.specs.FileOfHistory.{stored};
ghost use Rattle.dg_build.specs.InteriorDeltas.{AreNewNodes, DiffersInDeltas};
ghost use Rattle.dg_build.specs.OlderSteps.{AreOlderSteps, IsTopDue, older_in_time};
ghost use Rattle.dg_build.specs.SpelledRecords.{IsFaultBelow};
ghost use Rattle.dg_build.specs.GivenDeltas.{AddsSuch, AreGivenBetween, AreNewLeaves, IsExactNet, IsFaultOfSuch};
ghost use Rattle.dg_build.specs.declared.fault.BuildFault.TheVariants.{Memory};

use crate::fault::BuildFault;
use crate::first_list::list_at;
use crate::heights::{NewNodes, add_heights};
use crate::start::base_set;
use dg_delta::Delta;
use dg_event::Event;
use dg_history::Params;
use dg_net::exact_net;
use dg_segment::Segment;
use dg_set::Set;
use std::alloc::{AllocError, Global};

// The exact steps from each of the first `count` new leaves to the next, by the events of the first list, and
// the later ones. An `Err` says that memory ran out.
fn leaf_steps(
    alloc: Global,
    params: Params,
    count: usize,
    first_list: &[Event],
    later: &[Event],
) -> Result<Vec<Delta>, AllocError>
    requires some { 1 ≤ count }
    requires first { length first_list.now ≡ params.l }
    requires long { count * params.l ≤ length first_list.now + length later.now }
    ensures long { IfOk result (λ steps. length steps.items + 1 ≡ count) }
    ensures is { IfOk result (λ steps. (before more : List Event) → 1 ≤ params.l → first_list.now ++ later.now ≡ recent_of params before ++ more → AreChangesOf [] (before ++ more)
        → steps.items ≡ steps_at params (before ++ more) 0 (leaves params (length before) + 1) (count - 1)) }
    ensures nets { IfOk result (λ steps. (i : ℕ) → i < length steps.items → IsExactNet (take params.l (drop ((i + 1) * params.l) (first_list.now ++ later.now))) (get_or steps.items i nothing)) }
{
    let l = params.l as usize;
    let mut steps = Vec::with_capacity(alloc, count - 1)?;
    for i in 1..count {
        steps.push(exact_net(alloc, list_at(first_list, later, l, i))?)?;
    }
    Ok(steps)
}

/// The first `count` new leaves behind the last one that was there before, by the events of the first list, and
/// the later ones. An `Err` says that memory ran out.
fn new_leaves(
    alloc: Global,
    params: Params,
    count: usize,
    first_list: &[Event],
    later: &[Event],
) -> Result<NewNodes, AllocError>
    requires some { 1 ≤ count }
    requires first { length first_list.now ≡ params.l }
    requires long { count * params.l ≤ length first_list.now + length later.now }
    ensures long { IfOk result (λ new. length new.steps.items + 1 ≡ count) }
    ensures is { IfOk result (λ new. (before more : List Event) → 1 ≤ params.l → first_list.now ++ later.now ≡ recent_of params before ++ more → AreChangesOf [] (before ++ more)
        → AreNewNodes params (before ++ more) 0 (leaves params (length before)) (leaves params (length before) + count) (set_at params (before ++ more) 0 (leaves params (length before))) new.up new.steps.items) }
    ensures given { IfOk result (λ new. AreNewLeaves params.l count (first_list.now ++ later.now) (record { up = new.up; steps = new.steps.items })) }
{
    let up = exact_net(alloc, first_list)?;
    let steps = leaf_steps(alloc, params, count, first_list, later)?;
    Ok(NewNodes { up, steps })
}

/// Gives the segment the deltas of all interior nodes that are due between `m` and `after` leaves, by the
/// events behind the last leaf, which are those of the first list and the later ones, and the steps of the older
/// children in the order of time. Where a node is due that is the first of its height, a whole set is made of `now`,
/// the current graph, back over the recent events and these steps; else nothing is made of it.
pub(crate) fn add_interior(
    alloc: Global,
    params: Params,
    m: usize,
    after: usize,
    now: &Set,
    recent: &[Event],
    first_list: &[Event],
    later: &[Event],
    older_steps: &[Delta],
    segment: &mut Segment,
) -> Result<(), BuildFault>
    requires arity { 2 ≤ params.k }
    requires first { m < after → length first_list.now ≡ params.l }
    requires long { (after - m) * params.l ≤ length first_list.now + length later.now }
    requires older { length older_steps.now ≡ length (older_in_time params.k m after) }
    ensures frame { OnOk result (DiffersInDeltas segment.old segment.new) }
    ensures count { OnOk result (length segment.new.deltas ≡ length segment.old.deltas + length (deltas_due params.k m after)) }
    ensures is { OnOk result ((before more : List Event) → 1 ≤ params.l → leaves params (length before) ≡ m
        → recent.now ≡ recent_of params before → first_list.now ++ later.now ≡ recent_of params before ++ more → (IsTopDue params.k m after → now.now ≡ replay before)
        → AreChangesOf [] (before ++ more) → AreOlderSteps params before after older_steps.now
        → segment.new.deltas ≡ segment.old.deltas ++ map (λ key. stored (record_among params (before ++ more) [] key)) (deltas_due params.k m after)) }
    ensures fault { IfErr result (λ e. (before more : List Event) → 1 ≤ params.l → leaves params (length before) ≡ m
        → recent.now ≡ recent_of params before → first_list.now ++ later.now ≡ recent_of params before ++ more → (IsTopDue params.k m after → now.now ≡ replay before)
        → AreChangesOf [] (before ++ more) → AreOlderSteps params before after older_steps.now
        → length (before ++ more) < 2 ^ 32 → e ≡ Memory) }
    ensures wide { IfErr result (λ e. IsFaultBelow (length segment.old.deltas + length (deltas_due params.k m after)) e) }
    ensures given { OnOk result (AddsSuch (AreGivenBetween params m after now.now recent.now (first_list.now ++ later.now) older_steps.now) segment.old.deltas segment.new.deltas) }
    ensures first { IfErr result (λ e. IsFaultOfSuch (AreGivenBetween params m after now.now recent.now (first_list.now ++ later.now) older_steps.now) (length segment.old.deltas) e) }
{
    let k = params.k as usize;
    if m / k >= after / k {
        return Ok(());
    }
    let base = base_set(alloc, k, m, after, now, recent, older_steps)?;
    let fresh = new_leaves(alloc, params, after - m, first_list, later)?;
    add_heights(alloc, params, m, after, fresh, older_steps, &base, segment)
}
