//! What leads to the graphs as of several instants, by one tree, and what it weighs.
ghost use Rattle.std.specs.Prelude.{◌≡◌, ◌≤◌, List, length, IfOk, IfSome};
ghost use Rattle.std.specs.List.{All, Contains};
ghost use Rattle.dg_graph.specs.declared.element.Element.{Element};
ghost use Rattle.dg_history.specs.History.{History};
ghost use Rattle.dg_retrieval.specs.Calls.{IsLedAlongTree, IsRetrieval, ReadsRecords, RetrievesOver, TakesAlongTree, TellsDamage};
ghost use Rattle.dg_retrieval.specs.NodeSets.{IsIndexOver};
ghost use Rattle.dg_retrieval.specs.Planned.{IsOverFile};
ghost use Rattle.dg_retrieval.specs.Retrieval.{IsOver};

use crate::beginnings::beginnings_of;
use crate::graph_lead::Leads;
use crate::planned_index::PlannedIndex;
use crate::tree_parts::{TreeParts, read_tree};
use dg_disk::Disk;
use dg_fold::write_tree;
use dg_history::NodeId;
use dg_records::RecordFault;
use std::thread::Threads;

/// What leads to the graphs as of several instants, and what the tree to them weighs.
#[derive(Drop)]
pub struct Retrieved {
    /// What leads to the graph as of each instant: what its path begins with, and the deltas from there. The graph is
    /// what comes, cut to the asked columns.
    pub leads: Leads,
    /// The bytes of the records that the tree enters, in the asked columns, without messages.
    pub weight: u64,
    /// What the single plan of each instant weighs, in bytes.
    pub singles: Vec<u64>,
    /// What all single plans weigh together, in bytes.
    pub sum: u64,
}

/// Retrieves what leads to the graphs as of the instants, 32 of them at the most, in the asked columns, by one tree
/// through the graph of the index to the targets: the node from which the graph as of each instant is reached. The
/// graph may have bases, of which none holds the graph of a list. Each record that the tree enters is read once, and
/// nothing else; the recent events are in memory. Each name that a lead puts in is among those of the history, where
/// those of the recent events are. No delta is composed, and no graph is made.
///
/// `Disk` where a read failed, `Damaged` with the first column that is in no spelling, in the order of the
/// tree's steps and of structure, node attributes, edge attributes, and `Memory`.
pub fn retrieve<R: Threads, D: Disk>(
    rt: &R,
    from: &PlannedIndex,
    disk: &mut D,
    targets: &[NodeId],
    times: &[u64],
) -> Result<Retrieved, RecordFault>
    requires over { IsOverFile (D.image disk.old) from.now }
    requires targets { All (Contains from.now.planner.now.nodes) targets.now }
    requires few { length targets.now ≤ 32 }
    requires times { length times.now ≡ length targets.now }
    // what leads to the graphs, and the weights
    ensures done { IfOk result (IsRetrieval from.now.name_count from.now.recent.now from.now.planner.now.edges
        targets.now) }
    // over whatever image: which records lead to them
    ensures led { IfOk result (λ r. IfSome (D.image disk.old) (λ image.
        IsLedAlongTree from.now.name_count from.now.recent.now from.now.planner.now.edges from.now.index.now.opening
        from.now.cols targets.now times.now image r)) }
    // over an image of a history: the bytes read, and with the memory of the history the graphs
    ensures takes { IfSome (D.image disk.old) (λ image.
        (z : History) → IsIndexOver z image from.now.index.now.opening from.now.name_count
        → TakesAlongTree from.now.planner.now.edges targets.now (D.taken disk.old) (D.taken disk.new) result) }
    ensures over { IfSome (D.image disk.old) (λ image.
        (z : History) (now : List Element)
        → IsOver z image from.now.index.now.opening from.now.name_count now from.now.recent.now
        → RetrievesOver z now from.now.planner.now.edges from.now.cols targets.now times.now (D.taken disk.old)
        (D.taken disk.new) result) }
    // over whatever image: where the records are damaged
    ensures damage { IfSome (D.image disk.old) (λ image.
        TellsDamage from.now.name_count from.now.planner.now.edges from.now.index.now.opening from.now.cols
        targets.now image result) }
    // what it leaves, and why a read failed
    ensures reads { ReadsRecords D.Disk disk.old disk.new result }
{
    let TreeParts {
        tree,
        branches,
        walk,
        parts,
    } = read_tree(from, disk, targets)?;
    let PlannedIndex {
        alloc,
        name_count,
        recent,
        ..
    } = *from;
    let writings = write_tree(rt, alloc, name_count, &branches, &parts, recent, times)?;
    let begins = beginnings_of(alloc, &walk, targets)?;
    Ok(Retrieved {
        leads: Leads { begins, writings },
        weight: tree.weight,
        singles: tree.singles,
        sum: tree.sum,
    })
}
