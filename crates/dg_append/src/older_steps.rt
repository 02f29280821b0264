//! The exact steps of the older children, by the records of the index alone.

ghost use Rattle.std.specs.Prelude.{◌≡◌, ◌≤◌, ◌++◌, ◌∷◌, [], List, length, IfOk, IfSome, IsTrue};
ghost use Rattle.std.specs.List.{All, Contains};
ghost use Rattle.dg_append.specs.BatchSegments.{IsNext, StandsForKept};
ghost use Rattle.dg_append.specs.OlderChildSteps.{AreLedByOneTree, AreLedOlder, GivesOlderSteps};
ghost use Rattle.dg_append.specs.OlderGroups.{TellsGroupDamage, leaves_after, leaves_before, older_children};
ghost use Rattle.dg_build.specs.OlderSteps.{older_in_time};
ghost use Rattle.dg_file.specs.Images.{IsOpenedAs};
ghost use Rattle.dg_history.specs.declared.node.NodeId.{NodeId};
ghost use Rattle.dg_history.specs.declared.node.NodeId.TheVariants.{Leaf};
ghost use Rattle.dg_history.specs.History.{History};
ghost use Rattle.dg_plan.specs.HistoryGraph.{all_columns};
ghost use Rattle.dg_retrieval.specs.Calls.{ReadsRecords};
ghost use Rattle.dg_retrieval.specs.KeptGraph.{record_edges, record_nodes};
ghost use Rattle.dg_retrieval.specs.NodeSets.{HasNoEvents, IsIndexOver};
ghost use Rattle.dg_retrieval.specs.Planned.{IsOverRecords};

use crate::next_batch::NextBatch;
use crate::older_children::{children_in_time, older_children};
use crate::older_sets::{GROUP_MAX, steps_by_sets};
use dg_catalogue::leaves;
use dg_delta::Delta;
use dg_disk::Disk;
use dg_file::Index;
use dg_history::NodeId;
use dg_records::RecordFault;
use dg_retrieval::{ALL_COLUMNS, PlannedIndex, record_planner};
use dg_steps::node_steps;
use std::alloc::Global;
use std::thread::Threads;

// Whether the last of the nodes is the last leaf behind the index.
fn ends_at_last_leaf(index: &Index, nodes: &[NodeId]) -> bool
    ensures { IsTrue result → (front : List NodeId) × (nodes.now ≡ front ++ Leaf (leaves_before index.now.opening) ∷ []) }
{
    index.facts();
    let last = leaves(index.params(), index.events_len());
    match nodes.last() {
        Some(NodeId::Leaf(number)) => *number == last,
        _ => false,
    }
}

// Whether one tree gives all steps: it has all of the nodes, and the last of them in time is the last leaf behind the
// index.
fn has_one_tree(index: &Index, nodes: &[NodeId], in_time: &[NodeId]) -> bool
    ensures few { IsTrue result → length nodes.now ≤ 32 }
    ensures last { IsTrue result → (front : List NodeId) × (in_time.now ≡ front ++ Leaf (leaves_before index.now.opening) ∷ []) }
{
    nodes.len() <= GROUP_MAX as usize && ends_at_last_leaf(index, in_time)
}

// The steps of the nodes in time, of which the last is the last leaf, by one tree: the step from it to itself changes
// nothing.
fn steps_by_tree<R: Threads, D: Disk>(
    rt: &R,
    from: &PlannedIndex,
    disk: &mut D,
    nodes: &[NodeId],
    in_time: &[NodeId],
) -> Result<Vec<Delta>, RecordFault>
    requires over { IsOverRecords (D.image disk.old) all_columns from.now }
    requires nodes { All (Contains from.now.planner.now.nodes) nodes.now }
    requires some { 1 ≤ length nodes.now }
    requires few { length nodes.now ≤ 32 }
    requires in_time { All (Contains nodes.now) in_time.now }
    requires last { (front : List NodeId) × (in_time.now ≡ front ++ Leaf (leaves_before from.now.index.now.opening) ∷ []) }

    // the steps, and over an image of a history which they are and the bytes read
    ensures count { IfOk result (λ steps. length steps.items ≡ length in_time.now) }
    ensures over { IfSome (D.image disk.old) (λ image.
        (z : History) → IsIndexOver z image from.now.index.now.opening from.now.name_count
        → GivesOlderSteps z (record_edges from.now.index.now.opening) nodes.now in_time.now (D.taken disk.old)
        (D.taken disk.new) result) }

    // over whatever image: which steps the records lead to, and where these are damaged
    ensures led { IfSome (D.image disk.old) (λ image. IfOk result (λ steps.
        AreLedByOneTree from.now.name_count image from.now.index.now.opening nodes.now in_time.now steps.items)) }
    ensures damage { IfSome (D.image disk.old) (λ image.
        TellsGroupDamage from.now.name_count from.now.index.now.opening image nodes.now result) }

    // what it leaves, and why a read failed
    ensures reads { ReadsRecords D.Disk disk.old disk.new result }
{
    let mut steps = node_steps(rt, from, disk, nodes, in_time)?;
    steps.push(Delta::new(from.alloc))?;
    Ok(steps)
}

// The steps of these nodes in time, of which there is one at least.
fn steps_of<R: Threads, D: Disk>(
    rt: &R,
    alloc: Global,
    index: &Index,
    next: &NextBatch,
    disk: &mut D,
    nodes: &[NodeId],
    in_time: &[NodeId],
) -> Result<Vec<Delta>, RecordFault>
    requires image { IfSome (D.image disk.old) (λ image. IsOpenedAs image index.now.opening) }
    requires known { next.now.known ≤ length next.now.names.now }
    requires nodes { All (Contains (record_nodes index.now.opening)) nodes.now }
    requires leaves { All HasNoEvents nodes.now }
    requires some { 1 ≤ length nodes.now }
    requires in_time { All (Contains nodes.now) in_time.now }

    // the steps, and over an image of a history which they are and the bytes read
    ensures count { IfOk result (λ steps. length steps.items ≡ length in_time.now) }
    ensures over { IfSome (D.image disk.old) (λ image. (z : History) → StandsForKept z image index.now.opening next.now next.now.current.now.graph
        → GivesOlderSteps z (record_edges index.now.opening) nodes.now in_time.now (D.taken disk.old) (D.taken disk.new) result) }

    // over whatever image: which steps the records lead to, and where these are damaged
    ensures led { IfSome (D.image disk.old) (λ image. IfOk result (λ steps.
        AreLedOlder next.now.known image index.now.opening nodes.now in_time.now next.now.recent.now next.now.current.now.graph steps.items)) }
    ensures damage { IfSome (D.image disk.old) (λ image. TellsGroupDamage next.now.known index.now.opening image nodes.now result) }

    // what it leaves, and why a read failed
    ensures reads { ReadsRecords D.Disk disk.old disk.new result }
{
    let planner = record_planner(alloc, index, ALL_COLUMNS)?;
    let records = PlannedIndex {
        alloc,
        index,
        name_count: next.known,
        recent: next.recent,
        planner: &planner,
        cols: ALL_COLUMNS,
    };
    if has_one_tree(index, nodes, in_time) {
        steps_by_tree(rt, &records, disk, nodes, in_time)
    } else {
        steps_by_sets(rt, &records, next, disk, nodes, in_time)
    }
}

/// The exact steps of the older children of the interior nodes that the batch completes behind the index, in the order of
/// time: from each to the next, and from the last to the last leaf. Where there are none nothing is planned or read.
///
/// They are read in groups of `GROUP_MAX`, by height and number, each by one tree over the records alone, with all their
/// columns. Where one group has all of them and the last leaf is among them, the steps are those of its tree, and no set is
/// made. Else the sets of all of them are made: the nodes of several groups are in no one tree, and where the last leaf is
/// not among them, no record that is read leads to it.
///
/// `Disk` where a read failed, `Damaged` with the first column that is in no spelling in the first group that has one,
/// and `Memory`.
pub(crate) fn older_steps<R: Threads, D: Disk>(
    rt: &R,
    alloc: Global,
    index: &Index,
    next: &NextBatch,
    disk: &mut D,
) -> Result<Vec<Delta>, RecordFault>
    requires image { IfSome (D.image disk.old) (λ image. IsOpenedAs image index.now.opening) }
    requires next { IsNext index.now.opening next.now next.now.current.now.graph }

    // the steps, and over an image of a history which they are and the bytes read: at most those of the single plans
    ensures count { IfOk result (λ steps. length steps.items
        ≡ length (older_in_time index.now.opening.params.k (leaves_before index.now.opening) (leaves_after index.now.opening (length next.now.events.now)))) }
    ensures over { IfSome (D.image disk.old) (λ image. (z : History) → StandsForKept z image index.now.opening next.now next.now.current.now.graph
        → GivesOlderSteps z (record_edges index.now.opening) (older_children index.now.opening (length next.now.events.now))
        (older_in_time index.now.opening.params.k (leaves_before index.now.opening) (leaves_after index.now.opening (length next.now.events.now)))
        (D.taken disk.old) (D.taken disk.new) result) }

    // over whatever image: which steps the records lead to, and where these are damaged
    ensures led { IfSome (D.image disk.old) (λ image. IfOk result (λ steps.
        AreLedOlder next.now.known image index.now.opening (older_children index.now.opening (length next.now.events.now))
        (older_in_time index.now.opening.params.k (leaves_before index.now.opening) (leaves_after index.now.opening (length next.now.events.now)))
        next.now.recent.now next.now.current.now.graph steps.items)) }
    ensures damage { IfSome (D.image disk.old) (λ image. TellsGroupDamage next.now.known index.now.opening image (older_children index.now.opening (length next.now.events.now)) result) }

    // what it leaves, and why a read failed
    ensures reads { ReadsRecords D.Disk disk.old disk.new result }
{
    index.facts();
    let count = next.events.len() as u64;
    let nodes = older_children(alloc, index, count)?;
    let in_time = children_in_time(alloc, index, count)?;
    if nodes.is_empty() {
        return Ok(Vec::new(alloc));
    }
    steps_of(rt, alloc, index, next, disk, &nodes, &in_time)
}
