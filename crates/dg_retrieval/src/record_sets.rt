//! The sets of nodes of an index, by its records alone.

ghost use Rattle.std.specs.Prelude.{◌≡◌, ◌≤◌, [], length, map, IfOk, IfSome};
ghost use Rattle.std.specs.List.{All, Contains};
ghost use Rattle.dg_graph.specs.Composition.{applied};
ghost use Rattle.dg_history.specs.History.{History};
ghost use Rattle.dg_plan.specs.HistoryGraph.{all_columns};
ghost use Rattle.dg_retrieval.specs.Beginnings.{GraphLead, leads_in};
ghost use Rattle.dg_retrieval.specs.Calls.{AreLedByTree, AreNodeSets, GivesSetOver, GivesSetsOver, ReadsRecords, TellsDamage, TellsPlan};
ghost use Rattle.dg_retrieval.specs.NamesThere.{NamesAreThere};
ghost use Rattle.dg_retrieval.specs.NodeSets.{HasNoEvents, IsIndexOver};
ghost use Rattle.dg_retrieval.specs.Planned.{IsOverRecords};

use crate::graph_lead::Leads;
use crate::node_lead::retrieve_node;
use crate::planned_index::{ALL_COLUMNS, PlannedIndex};
use crate::retrieval::{Retrieved, retrieve};
use dg_disk::Disk;
use dg_fold::compose_for;
use dg_history::NodeId;
use dg_records::RecordFault;
use dg_set::Set;
use std::alloc::{AllocError, Global};
use std::thread::Threads;

/// The set of a node, by its least plan over the records of the index alone. Each record that the plan enters is
/// read once, with all its columns but messages, and nothing else. Records of up to 64 MiB are composed as they are read;
/// more are composed by halves, once all are read. The history has `name_count` names; each one in the set is among them.
///
/// `Disk` where a read failed, `Damaged` with the first column that is in no spelling, in the order of the plan's
/// steps and of structure, node attributes, edge attributes, and `Memory`.
pub fn plan_set<R: Threads + Sync, D: Disk>(
    rt: &R,
    from: &PlannedIndex,
    disk: &mut D,
    node: NodeId,
) -> Result<Set, RecordFault>
    requires over { IsOverRecords (D.image disk.old) all_columns from.now }
    requires node { Contains from.now.planner.now.nodes node }
    // the set
    ensures named { IfOk result (NamesAreThere from.now.name_count) }
    // over an image of a history: which set it is, and the bytes read
    ensures over { IfSome (D.image disk.old) (λ image.
        (z : History) → IsIndexOver z image from.now.index.now.opening from.now.name_count
        → GivesSetOver z from.now.planner.now.edges node (D.taken disk.old) (D.taken disk.new) result) }
    // over whatever image: what the records lead to, and where they are damaged
    ensures led { IfSome (D.image disk.old) (λ image.
        TellsPlan from.now.name_count image from.now.index.now.opening node result) }
    // what it leaves, and why a read failed
    ensures reads { ReadsRecords D.Disk disk.old disk.new result }
{
    let whole = PlannedIndex {
        cols: ALL_COLUMNS,
        ..*from
    };
    let lead = retrieve_node(rt, &whole, disk, node)?;
    // From nothing it comes to what it puts in.
    let (_, set) = lead.delta.into_sets();
    Ok(set)
}

// An instant for each of the nodes: it is not looked at, since they are no lists.
fn no_instants(alloc: Global, nodes: &[NodeId]) -> Result<Vec<u64>, AllocError>
    ensures { IfOk result (λ times. length times.items ≡ length nodes.now) }
{
    nodes.iter().map(|_| 0).collect(alloc)
}

// The set to which each lead comes from the empty set.
fn sets_led(alloc: Global, leads: &Leads) -> Result<Vec<Set>, AllocError>
    ensures { IfOk result (λ sets. sets.items ≡ map (λ (l : GraphLead). applied l.delta []) (leads_in leads.now)) }
{
    let mut sets = Vec::with_capacity(alloc, leads.begins.len())?;
    for n in 0..leads.begins.len() {
        let delta = compose_for(alloc, &leads.writings, n)?;
        // From nothing it comes to what it puts in.
        let (_, set) = delta.into_sets();
        sets.push(set)?;
    }
    Ok(sets)
}

/// The sets of several nodes, 32 of them at the most, by one tree over the records of the index alone. Each record that
/// the tree enters is read once, with all its columns but messages, and nothing else. The history has `name_count` names;
/// each one in the sets is among them.
///
/// `Disk` where a read failed, `Damaged` with the first column that is in no spelling, in the order of the tree's
/// steps and of structure, node attributes, edge attributes, and `Memory`.
pub fn node_sets<R: Threads, D: Disk>(
    rt: &R,
    from: &PlannedIndex,
    disk: &mut D,
    nodes: &[NodeId],
) -> Result<Vec<Set>, RecordFault>
    requires over { IsOverRecords (D.image disk.old) all_columns from.now }
    requires nodes { All (Contains from.now.planner.now.nodes) nodes.now }
    requires leaves { All HasNoEvents nodes.now }
    requires few { length nodes.now ≤ 32 }
    // the sets
    ensures done { IfOk result (λ sets. AreNodeSets from.now.name_count nodes.now sets.items) }
    // over an image of a history: which sets they are, and the bytes read
    ensures over { IfSome (D.image disk.old) (λ image.
        (z : History) → IsIndexOver z image from.now.index.now.opening from.now.name_count
        → GivesSetsOver z from.now.planner.now.edges nodes.now (D.taken disk.old) (D.taken disk.new) result) }
    // over whatever image: which sets the records lead to, and where these are damaged
    ensures led { IfSome (D.image disk.old) (λ image. IfOk result (λ sets.
        AreLedByTree from.now.name_count image from.now.index.now.opening nodes.now sets.items)) }
    ensures damage { IfSome (D.image disk.old) (λ image.
        TellsDamage from.now.name_count from.now.planner.now.edges
        from.now.index.now.opening all_columns nodes.now image result) }
    // what it leaves, and why a read failed
    ensures reads { ReadsRecords D.Disk disk.old disk.new result }
{
    let records = PlannedIndex {
        recent: &[],
        cols: ALL_COLUMNS,
        ..*from
    };
    let times = no_instants(from.alloc, nodes)?;
    let Retrieved { leads, .. } = retrieve(rt, &records, disk, nodes, &times)?;
    Ok(sets_led(from.alloc, &leads)?)
}
