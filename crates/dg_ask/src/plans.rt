//! The plans over the index of a session: the graph in which they are made, its instants and the node of one, and
//! what is said of them.

ghost use Rattle.std.specs.Prelude.{◌≡◌, ℕ, ◌≤◌, ◌<◌, ◌*◌, ◌^◌, true, false, List, ◌++◌, Some, length, nat_le, slice_get, IfOk, OnOk};
ghost use Rattle.dg_history.specs.declared.limits.TheConstants.{BATCH_LINES_MAX};
ghost use Rattle.dg_history.specs.History.{in_range};
ghost use Rattle.dg_index.specs.OpenedIndex.{event_total};
ghost use Rattle.dg_machine.specs.Answer.{potential_lines, step_lines};
ghost use Rattle.dg_plan.specs.CertificateLines.{judged};
ghost use Rattle.dg_planner.specs.HistoryLaws.{first_time_in};
ghost use Rattle.dg_history.specs.declared.node.NodeId.{NodeId};
ghost use Rattle.dg_retrieval.specs.KeptGraph.{kept_edges, kept_nodes};
ghost use Rattle.dg_ask.specs.HeldIndex.{HasNodes, has_node_held, point_over, span_held};
ghost use Rattle.dg_ask.specs.KeptPlanner.{IsGraphFor};
ghost use Rattle.dg_ask.specs.Plans.{IsPlanReply};

use dg_file::Index;
use dg_graph::{Columns, Event};
use dg_handles::Handles;
use dg_history::{NodeId, Params};
use dg_machine::{BodyLine, BodyLines, Head, Reply};
use dg_path::{Route, certify};
use dg_plan::{Edge, PlanLine, Verdict};
use dg_planner::{Planner, law_nodes_are_listed};
use dg_retrieval::shape_of;
use std::alloc::{AllocError, Global};

/// The first and the last instant of the history of an index, where there is an event.
pub fn span(index: &Index) -> Option<(u64, u64)>
    ensures { result ≡ span_held (Some index.now.opening) }
{
    let ends = index.catalogue().span()?;
    Some((ends.first, ends.last))
}

// Whether so many nodes of the height, of this arity, have no more than so many leaves below them.
fn have_leaves(arity: u64, leaves: u64, height: u32, count: u32) -> bool
    requires arity { (2 ≤ arity) × (arity ≤ 64) }
    requires leaves { leaves < 2 ^ 32 }
    requires some { 1 ≤ count }
    ensures { result ≡ nat_le (count * arity ^ height) leaves }
{
    let mut width = u64::from(count);
    for _ in 0..height {
        if width > leaves {
            return false;
        }
        width *= arity;
    }
    width <= leaves
}

/// Whether the index has this node, and it is a leaf or an interior node. Takes no memory.
pub fn has_node(index: &Index, node: NodeId) -> bool
    ensures { result ≡ has_node_held (Some index.now.opening) node }
{
    index.facts();
    let Params { l, k, .. } = index.params();
    let leaves = index.events_len() / u64::from(l);
    match node {
        NodeId::Leaf(j) => 1 <= j && u64::from(j) <= leaves,
        NodeId::Inner(h, j) => 1 <= h && 1 <= j && have_leaves(u64::from(k), leaves, h, j),
        NodeId::Root | NodeId::Now | NodeId::Recent | NodeId::List(_) => false,
    }
}

/// The graph of an index, for the asked columns, with the handles that can serve. The index has the nodes that
/// handles hold.
pub fn planner_of(
    alloc: Global,
    index: &Index,
    handles: &Handles,
    cols: Columns,
) -> Result<Planner, AllocError>
    requires nodes { HasNodes (Some index.now.opening) handles.now.table }
    ensures graph { IfOk result (λ p. IsGraphFor index.now.opening handles.now.table cols p) }
{
    index.facts();
    law_nodes_are_listed();
    let events = index.events_len();
    let shape = shape_of(index);
    let bases = handles.bases(alloc, cols)?;
    Planner::new(alloc, shape, index.catalogue(), cols, &bases, events > 0)
}

// The instant of the first of the events, where there is one.
fn first_time(events: &[Event]) -> Option<u64>
    ensures { result ≡ first_time_in events.now }
{
    Some(events.first()?.time)
}

/// The node from which the graph as of the instant `t` is reached, where these are the recent events. Takes at most
/// 30 look-ups by hash.
pub fn point_of(index: &Index, recent: &[Event], t: u64) -> NodeId
    ensures { result ≡ point_over index.now.opening recent.now t }
{
    match index.catalogue().point(t, first_time(recent)) {
        Some(node) => node,
        None => NodeId::Root,
    }
}

// The edge of this number.
fn edge_at(edges: &[Edge], number: u32) -> Option<Edge>
    ensures { result ≡ slice_get edges.now number }
{
    edges.get(number as usize).copied()
}

// Adds a line for each step.
fn add_steps(lines: &mut Vec<BodyLine>, edges: &[Edge], steps: &[u32]) -> Result<(), AllocError>
    ensures { OnOk result (lines.new.items ≡ lines.old.items ++ step_lines edges.now steps.now) }
{
    for step in steps {
        if let Some(edge) = edge_at(edges, *step) {
            lines.push(BodyLine::Step {
                edge: *step,
                head: edge.to,
                weight: edge.weight,
            })?;
        }
    }
    Ok(())
}

// Adds a line for each potential that is below the weight, in the order of nodes.
fn add_potentials(
    lines: &mut Vec<BodyLine>,
    weight: u64,
    nodes: &[NodeId],
    potentials: &[u64],
) -> Result<(), AllocError>
    ensures { OnOk result (lines.new.items ≡ lines.old.items ++ potential_lines weight nodes.now potentials.now) }
{
    let count = nodes.len().min(potentials.len());
    for i in 0..count {
        if potentials[i] < weight {
            lines.push(BodyLine::Potential {
                node: nodes[i],
                value: potentials[i],
            })?;
        }
    }
    Ok(())
}

// The lines of a plan: its steps, and behind them the potentials below its weight.
fn plan_lines(
    alloc: Global,
    edges: &[Edge],
    nodes: &[NodeId],
    route: &Route,
) -> Result<Vec<BodyLine>, AllocError>
    ensures { IfOk result (λ lines. lines.items ≡ step_lines edges.now route.now.steps.items ++ potential_lines route.now.weight nodes.now route.now.potentials.items) }
{
    let mut lines = Vec::new(alloc);
    lines.reserve(route.steps.len())?;
    add_steps(&mut lines, edges, &route.steps)?;
    lines.reserve(nodes.len())?;
    add_potentials(&mut lines, route.weight, nodes, &route.potentials)?;
    Ok(lines)
}

/// The reply with the least plan of the instant `t`, which is in the history, for the asked columns, over the index
/// and its recent events, by a planner with these bases.
pub fn plan_reply(
    alloc: Global,
    planner: &Planner,
    index: &Index,
    recent: &[Event],
    t: u64,
    cols: Columns,
) -> Result<Reply, AllocError>
    requires there { in_range (span_held (Some index.now.opening)) t ≡ true }
    requires nodes { planner.now.nodes ≡ kept_nodes index.now.opening (event_total index.now.opening.batches) cols }
    ensures { IfOk result (λ reply. (bases : List (ℕ × NodeId)) → planner.now.edges ≡ kept_edges index.now.opening (event_total index.now.opening.batches) cols bases
        → IsPlanReply index.now.opening recent.now bases t cols reply) }
{
    index.facts();
    let nodes = planner.nodes(alloc)?;
    let route = planner.plan(alloc, point_of(index, recent, t))?;
    let lines = plan_lines(alloc, planner.edges(), &nodes, &route)?;
    Ok(Reply::Answered {
        head: Head::Plan {
            weight: route.weight,
            steps: route.steps.len() as u64,
        },
        body: BodyLines::from_vec(lines),
    })
}

/// What is said of the certificate that the lines write for the instant `t`, in the graph of the planner, over the
/// index and its recent events. `None` is a line in no form.
pub fn judge(
    alloc: Global,
    planner: &Planner,
    index: &Index,
    recent: &[Event],
    t: u64,
    lines: &[Option<PlanLine>],
) -> Result<Verdict, AllocError>
    requires there { in_range (span_held (Some index.now.opening)) t ≡ true }
    requires few_lines { length lines.now ≤ BATCH_LINES_MAX }
    ensures { IfOk result (λ verdict. verdict ≡ judged planner.now.edges planner.now.nodes (point_over index.now.opening recent.now t) lines.now) }
{
    let nodes = planner.nodes(alloc)?;
    let target = point_of(index, recent, t);
    certify(alloc, planner.edges(), &nodes, target, lines)
}
