//! Retrievals over the index of a session: the graphs as of several instants, by one tree, and the new
//! handles for them.

ghost use Rattle.std.specs.Prelude.{◌≡◌, ◌≤◌, ◌+◌, ◌<◌, ◌∷◌, [], false, true, not, Some, List, length, IfOk, IfSome};
ghost use Rattle.std.specs.List.{list_any};
ghost use Rattle.dg_ask.specs.HeldIndex.{has_node_held, points_over, span_held};
ghost use Rattle.dg_file.specs.Images.{IsOpenedAs};
ghost use Rattle.dg_graph.specs.declared.element.Element.{Element};
ghost use Rattle.dg_history.specs.History.{History, in_range};
ghost use Rattle.dg_index.specs.OpenedIndex.{event_total};
ghost use Rattle.dg_machine.specs.Answer.{handle_lines};
ghost use Rattle.dg_machine.specs.declared.command.TheConstants.{TIMES_MAX};
ghost use Rattle.dg_machine.specs.declared.limits.TheConstants.{HANDLE_MAX};
ghost use Rattle.dg_retrieval.specs.Calls.{IsRetrieval, LeadsToNode, LeadsToNodeOver, ReadsRecords, RetrievesOver, TellsDamage};
ghost use Rattle.dg_retrieval.specs.KeptGraph.{IsKeptGraph, index_edges, kept_nodes};
ghost use Rattle.dg_retrieval.specs.NodeSets.{IsIndexOver};
ghost use Rattle.dg_retrieval.specs.Planned.{IsOverFile};
ghost use Rattle.dg_retrieval.specs.Retrieval.{IsOver};
ghost use Rattle.dg_session.specs.Retrievals.{LeadsOver, LeadsToInstants, TellsLeadDamage};

use dg_ask::point_of;
use dg_disk::Disk;
use dg_file::Index;
use dg_graph::{Columns, Event};
use dg_history::NodeId;
use dg_machine::BodyLine;
use dg_messages::hear;
use dg_planner::{Planner, law_nodes_are_listed};
use dg_records::RecordFault;
use dg_retrieval::{NodeLead, PlannedIndex, Retrieved, record_planner, retrieve, retrieve_node};
use std::alloc::{AllocError, Global};
use std::thread::Threads;

// The nodes from which the graphs as of the instants are reached.
fn points_of(
    alloc: Global,
    index: &Index,
    recent: &[Event],
    times: &[u64],
) -> Result<Vec<NodeId>, AllocError>
    ensures { IfOk result (λ points. points.items ≡ points_over index.now.opening recent.now times.now) }
{
    let mut points = Vec::with_capacity(alloc, times.len())?;
    for t in times {
        points.push(point_of(index, recent, *t))?;
    }
    Ok(points)
}

// What leads to the graphs as of the instants in these columns without their messages, by one tree through the graph of
// the planner.
fn tree_leads<R: Threads, D: Disk>(
    rt: &R,
    from: &PlannedIndex,
    disk: &mut D,
    times: &[u64],
) -> Result<Retrieved, RecordFault>
    requires over { IsOverFile (D.image disk.old) from.now }
    requires nodes { from.now.planner.now.nodes ≡ kept_nodes from.now.index.now.opening
        (event_total from.now.index.now.opening.batches) from.now.cols }
    requires few { length times.now ≤ TIMES_MAX }
    requires there { list_any (λ t. not (in_range (span_held (Some from.now.index.now.opening)) t)) times.now ≡ false }
    ensures done { IfOk result (IsRetrieval from.now.name_count from.now.recent.now
        from.now.planner.now.edges (points_over from.now.index.now.opening from.now.recent.now times.now)) }
    ensures over { IfSome (D.image disk.old) (λ image.
        (z : History) (now : List Element)
        → IsOver z image from.now.index.now.opening from.now.name_count now from.now.recent.now
        → RetrievesOver z now from.now.planner.now.edges from.now.cols
        (points_over from.now.index.now.opening from.now.recent.now times.now) times.now (D.taken disk.old) (D.taken disk.new) result) }
    ensures damage { IfSome (D.image disk.old) (λ image.
        TellsDamage from.now.name_count from.now.planner.now.edges from.now.index.now.opening
        from.now.cols (points_over from.now.index.now.opening from.now.recent.now times.now) image result) }
    ensures reads { ReadsRecords D.Disk disk.old disk.new result }
{
    from.index.facts();
    let targets = points_of(from.alloc, from.index, from.recent, times)?;
    retrieve(rt, from, disk, &targets, times)
}

/// What leads to the graphs as of the instants in these columns, by one tree through the graph of the planner, and, where
/// messages are asked for, to the messages of exactly each of them. The history has so many names; its current graph and
/// its recent events are in memory, and the instants are in it. The records of the tree are read first.
pub fn leads_at<R: Threads, D: Disk>(
    rt: &R,
    alloc: Global,
    index: &Index,
    disk: &mut D,
    name_count: u32,
    recent: &[Event],
    planner: &Planner,
    times: &[u64],
    cols: Columns,
) -> Result<Retrieved, RecordFault>
    requires image { IfSome (D.image disk.old) (λ image. IsOpenedAs image index.now.opening) }
    requires edges { IsKeptGraph index.now.opening cols planner.now.edges }
    requires nodes { planner.now.nodes ≡ kept_nodes index.now.opening (event_total index.now.opening.batches) cols }
    requires few { length times.now ≤ TIMES_MAX }
    requires there { list_any (λ t. not (in_range (span_held (Some index.now.opening)) t)) times.now ≡ false }

    // what it gives, of which the second holds over an image of a history
    ensures done { IfOk result (LeadsToInstants name_count recent.now planner.now.edges index.now.opening
        (points_over index.now.opening recent.now times.now) times.now cols) }
    ensures over { IfSome (D.image disk.old) (λ image. (z : History) (now : List Element) → IsOver z image index.now.opening name_count now recent.now
        → LeadsOver z now planner.now.edges index.now.opening (points_over index.now.opening recent.now times.now) times.now cols
        (D.taken disk.old) (D.taken disk.new) result) }

    // where columns are damaged
    ensures damage { IfSome (D.image disk.old) (λ image. TellsLeadDamage name_count planner.now.edges index.now.opening
        (points_over index.now.opening recent.now times.now) times.now cols image result) }

    // what it leaves, and why a read failed
    ensures reads { ReadsRecords D.Disk disk.old disk.new result }
{
    let from = PlannedIndex {
        alloc,
        index,
        name_count,
        recent,
        planner,
        cols,
    };
    let retrieved = match tree_leads(rt, &from, disk, times) {
        Ok(retrieved) => retrieved,
        Err(fault) => return Err(fault),
    };
    if !cols.transient {
        return Ok(retrieved);
    }
    hear(alloc, index, disk, name_count, recent, times, retrieved)
}

/// What leads from nothing to the set of a leaf or an interior node of the index, in these columns, by its least plan
/// over the records alone. The history has so many names.
pub fn node_lead<R: Threads + Sync, D: Disk>(
    rt: &R,
    alloc: Global,
    index: &Index,
    disk: &mut D,
    name_count: u32,
    node: NodeId,
    cols: Columns,
) -> Result<NodeLead, RecordFault>
    requires image { IfSome (D.image disk.old) (λ image. IsOpenedAs image index.now.opening) }
    requires node { has_node_held (Some index.now.opening) node ≡ true }
    ensures done { IfOk result (LeadsToNode name_count (index_edges index.now.opening cols false []) index.now.opening cols node (D.image disk.old)) }
    ensures over { IfSome (D.image disk.old) (λ image. (z : History) → IsIndexOver z image index.now.opening name_count
        → LeadsToNodeOver z (index_edges index.now.opening cols false []) cols node (D.taken disk.old) (D.taken disk.new) result) }
    ensures damage { IfSome (D.image disk.old) (λ image.
        TellsDamage name_count (index_edges index.now.opening cols false []) index.now.opening cols (node ∷ []) image result) }
    ensures reads { ReadsRecords D.Disk disk.old disk.new result }
{
    index.facts();
    law_nodes_are_listed();
    let planner = record_planner(alloc, index, cols)?;
    let records = PlannedIndex {
        alloc,
        index,
        name_count,
        recent: &[],
        planner: &planner,
        cols,
    };
    retrieve_node(rt, &records, disk, node)
}

/// The lines of new handles from `next` on: each with its instant and the weight of its single plan.
pub fn handle_lines(
    alloc: Global,
    next: u64,
    times: &[u64],
    singles: &[u64],
) -> Result<Vec<BodyLine>, AllocError>
    requires { next + length times.now ≤ HANDLE_MAX + 1 }
    ensures { IfOk result (λ lines. lines.items ≡ handle_lines next times.now singles.now) }
{
    let count = times.len().min(singles.len());
    let mut lines = Vec::with_capacity(alloc, count)?;
    for i in 0..count {
        lines.push(BodyLine::Handle {
            handle: (next + i as u64) as u32,
            t: times[i],
            single: singles[i],
        })?;
    }
    Ok(lines)
}
