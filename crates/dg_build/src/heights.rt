//! The interior nodes that are due, height after height.

ghost use Rattle.std.specs.Prelude.{◌≡◌, ◌≤◌, ◌<◌, ◌+◌, ◌-◌, ◌*◌, ◌/◌, ◌^◌, ◌++◌, ◌⊎◌, [], ℕ, None, List, length, map, drop, IfOk, IfErr, OnOk};
ghost use Rattle.dg_graph.specs.declared.element.Element.{Element};
ghost use Rattle.dg_graph.specs.declared.event.Event.{Event};
ghost use Rattle.dg_graph.specs.Composition.{applied};
ghost use Rattle.dg_index.specs.Hierarchy.{leaves};
ghost use Rattle.dg_index.specs.IndexRecords.{record_among, deltas_due};
ghost use Rattle.dg_index.specs.FileOfHistory.{stored};
ghost use Rattle.dg_build.specs.InteriorDeltas.{AreNewNodes, AreStepsTo, DiffersInDeltas, Rises, deltas_added, downs_by, inner_by, last_way, start_above, stored_delta, top_to, up_by};
ghost use Rattle.dg_build.specs.OlderSteps.{AreOlderSteps, IsTopDue, first_in_time, last_leaf, older_in_time};
ghost use Rattle.dg_build.specs.SpelledRecords.{first_wide, IsFaultBelow, IsFaultOfDeltas};
ghost use Rattle.dg_build.specs.GivenDeltas.{AreAdded, first_by, given_above, given_on, risen};
ghost use Rattle.dg_build.specs.declared.fault.BuildFault.TheVariants.{Memory};

use crate::climb::{Interior, interior_node, later_nodes};
use crate::family::{add_downs, chain_with};
use crate::fault::BuildFault;
use crate::records::add_delta;
use crate::row::row_steps;
use dg_delta::Delta;
use dg_history::Params;
use dg_segment::Segment;
use dg_set::Set;
use std::alloc::{AllocError, Global};
use std::collections::VecDeque;

/// The new nodes of a height.
#[derive(Drop)]
pub(crate) struct NewNodes {
    /// The exact delta to the first, from where the height starts: from the first in time of the older children of
    /// the heights below it, or from the last leaf that was there before, where there is none.
    pub(crate) up: Delta,
    /// The exact steps from each to the next.
    pub(crate) steps: Vec<Delta>,
}

// Gives the segment the delta from the root to the first node of a height, where it is among the new ones, by the
// exact delta to it from a set.
fn add_top(
    alloc: Global,
    below: usize,
    up: &Delta,
    base: &Set,
    segment: &mut Segment,
) -> Result<(), BuildFault>
    ensures ok { OnOk result (segment.new ≡ record segment.old { deltas = segment.old.deltas ++ map stored_delta (top_to below (applied up.now base.now)) }) }
    ensures narrow { OnOk result (first_wide (length segment.old.deltas) (top_to below (applied up.now base.now)) ≡ None) }
    ensures fault { IfErr result (λ e. IsFaultOfDeltas (length segment.old.deltas) (top_to below (applied up.now base.now)) e) }
{
    if below == 0 {
        let first = up.apply(base)?;
        let top = Delta::between(&Set::new(alloc), &first)?;
        add_delta(alloc, &top, segment)?;
    }
    Ok(())
}

// The exact delta to the first new node of the next height from where that starts, by the delta to the node from its
// first child. The height starts at that child, where it is an older one, or else where this height does. An `Err`
// says that memory ran out.
fn delta_up(older: &[Delta], up: Delta, inner: &Delta) -> Result<Delta, AllocError>
    ensures { IfOk result (λ above. above ≡ up_by older.now up inner.now) }
{
    if older.is_empty() {
        chain_with(up, inner)
    } else {
        inner.copy()
    }
}

// Makes the first new node of a height, which is behind so many others, by the exact steps between its children, which
// are taken from the front of the row. Gives the segment the delta from the root to it, where it is the first of
// the height, and those to its children. Answers the delta to it from where its height starts, and that to its last
// child.
fn first_node(
    alloc: Global,
    params: Params,
    below: usize,
    older: &[Delta],
    up: Delta,
    base: &Set,
    row: &mut VecDeque<Delta>,
    segment: &mut Segment,
) -> Result<(Delta, Delta), BuildFault>
    requires arity { 2 ≤ params.k }
    requires there { params.k - 1 ≤ length row.old.items }
    ensures up { IfOk result (λ made. made.0 ≡ up_by older.now up (inner_by params row.old.items)) }
    ensures last { IfOk result (λ made. made.1 ≡ last_way (downs_by params row.old.items)) }
    ensures rest { IfOk result (λ made. row.new.items ≡ drop (params.k - 1) row.old.items) }
    ensures adds { IfOk result (λ made. segment.new ≡ record segment.old { deltas = segment.old.deltas ++ map stored_delta (top_to below (first_by params older.now up row.old.items base.now) ++ downs_by params row.old.items) }) }
    ensures fault { IfErr result (λ e. IsFaultOfDeltas (length segment.old.deltas) (top_to below (first_by params older.now up row.old.items base.now)) e
        ⊎ IsFaultOfDeltas (length segment.old.deltas + length (top_to below (first_by params older.now up row.old.items base.now))) (downs_by params row.old.items) e) }
    ensures given { IfOk result (λ made. AreAdded (top_to below (first_by params older.now up row.old.items base.now) ++ downs_by params row.old.items) segment.old.deltas segment.new.deltas) }
    ensures first { IfErr result (λ e. IsFaultOfDeltas (length segment.old.deltas) (top_to below (first_by params older.now up row.old.items base.now) ++ downs_by params row.old.items) e) }
{
    let Interior { inner, ways } = interior_node(alloc, params, row)?;
    let up = delta_up(older, up, &inner)?;
    add_top(alloc, below, &up, base, segment)?;
    let last = add_downs(alloc, inner, ways, segment)?;
    Ok((up, last))
}

/// Makes the new nodes of the next height, of those of this one, of which there were `q` and are `end`, and
/// of the steps of the older ones that are children of the first. Gives the segment the deltas from each to its
/// children, and before them the one from the root to the first node of the height, which is led to from `base`.
fn rise(
    alloc: Global,
    params: Params,
    q: usize,
    end: usize,
    nodes: NewNodes,
    older: &[Delta],
    base: &Set,
    segment: &mut Segment,
) -> Result<NewNodes, BuildFault>
    requires arity { 2 ≤ params.k }
    requires due { q / params.k < end / params.k }
    requires long { length nodes.steps.items + 1 ≡ end - q }
    requires older { length older.now ≡ q - q / params.k * params.k }
    ensures long { IfOk result (λ above. length above.steps.items + 1 ≡ end / params.k - q / params.k) }
    ensures frame { IfOk result (λ above. DiffersInDeltas segment.old segment.new) }
    ensures adds { IfOk result (λ above. length segment.new.deltas ≡ length segment.old.deltas + deltas_added params.k (q / params.k) (end / params.k)) }
    ensures is { IfOk result (λ above. (events : List Event) (h : ℕ) (start : List Element) → AreNewNodes params events h q end start nodes.up nodes.steps.items → AreStepsTo params events h q start older.now
        → (q / params.k ≡ 0 → base.now ≡ start_above params events h q start)
        → Rises params events h (q / params.k) (end / params.k) (start_above params events h q start) above.up above.steps.items segment.old segment.new) }
    ensures fault { IfErr result (λ e. (events : List Event) (h : ℕ) (start : List Element) → AreNewNodes params events h q end start nodes.up nodes.steps.items → AreStepsTo params events h q start older.now
        → (q / params.k ≡ 0 → base.now ≡ start_above params events h q start)
        → length events < 2 ^ 32 → e ≡ Memory) }
    ensures wide { IfErr result (λ e. IsFaultBelow (length segment.old.deltas + deltas_added params.k (q / params.k) (end / params.k)) e) }
    ensures up { IfOk result (λ above. record { up = above.up; steps = above.steps.items } ≡ risen params q end older.now (record { up = nodes.up; steps = nodes.steps.items })) }
    ensures given { IfOk result (λ above. AreAdded (given_above params q end older.now base.now (record { up = nodes.up; steps = nodes.steps.items })) segment.old.deltas segment.new.deltas) }
    ensures first { IfErr result (λ e. IsFaultOfDeltas (length segment.old.deltas) (given_above params q end older.now base.now (record { up = nodes.up; steps = nodes.steps.items })) e) }
{
    let k = params.k as usize;
    let below = q / k;
    let above = end / k;
    let NewNodes { up, steps } = nodes;
    let row = row_steps(alloc, older, &up, steps, above * k - q - 1)?;
    let mut row = VecDeque::from_vec(row);
    let (to_first, last) = first_node(alloc, params, below, older, up, base, &mut row, segment)?;
    let steps = later_nodes(alloc, params, above - below - 1, last, row, segment)?;
    Ok(NewNodes {
        up: to_first,
        steps,
    })
}

/// Gives the segment the deltas of all interior nodes that are due between `m` and `after` leaves, in the
/// order of the segment, from the new leaves and the steps of the older nodes in the order of time. Where a node is
/// due that is the first of its height, `base` is the set of the first of those in time, or that of the last leaf
/// that was there before.
pub(crate) fn add_heights(
    alloc: Global,
    params: Params,
    m: usize,
    after: usize,
    new_leaves: NewNodes,
    older_steps: &[Delta],
    base: &Set,
    segment: &mut Segment,
) -> Result<(), BuildFault>
    requires arity { 2 ≤ params.k }
    requires some { m < after }
    requires long { length new_leaves.steps.items + 1 ≡ after - m }
    requires older { length older_steps.now ≡ length (older_in_time params.k m after) }
    ensures frame { OnOk result (DiffersInDeltas segment.old segment.new) }
    ensures count { OnOk result (length segment.new.deltas ≡ length segment.old.deltas + length (deltas_due params.k m after)) }
    ensures is { OnOk result ((before more : List Event) → 1 ≤ params.l → leaves params (length before) ≡ m
        → AreNewNodes params (before ++ more) 0 m after (last_leaf params before) new_leaves.up new_leaves.steps.items → AreOlderSteps params before after older_steps.now
        → (IsTopDue params.k m after → base.now ≡ first_in_time params before after)
        → segment.new.deltas ≡ segment.old.deltas ++ map (λ key. stored (record_among params (before ++ more) [] key)) (deltas_due params.k m after)) }
    ensures fault { IfErr result (λ e. (before more : List Event) → 1 ≤ params.l → leaves params (length before) ≡ m
        → AreNewNodes params (before ++ more) 0 m after (last_leaf params before) new_leaves.up new_leaves.steps.items → AreOlderSteps params before after older_steps.now
        → (IsTopDue params.k m after → base.now ≡ first_in_time params before after)
        → length (before ++ more) < 2 ^ 32 → e ≡ Memory) }
    ensures wide { IfErr result (λ e. IsFaultBelow (length segment.old.deltas + length (deltas_due params.k m after)) e) }
    ensures given { OnOk result (AreAdded (given_on params after m after older_steps.now base.now (record { up = new_leaves.up; steps = new_leaves.steps.items })) segment.old.deltas segment.new.deltas) }
    ensures first { IfErr result (λ e. IsFaultOfDeltas (length segment.old.deltas) (given_on params after m after older_steps.now base.now (record { up = new_leaves.up; steps = new_leaves.steps.items })) e) }
{
    let k = params.k as usize;
    let mut nodes = new_leaves;
    let mut q = m;
    let mut end = after;
    // The older children of the lower heights come later in time.
    let mut at = older_steps.len();
    while q / k < end / k {
        let next = at - (q - q / k * k);
        nodes = rise(
            alloc,
            params,
            q,
            end,
            nodes,
            &older_steps[next..at],
            base,
            segment,
        )?;
        at = next;
        q = q / k;
        end = end / k;
    }
    Ok(())
}
