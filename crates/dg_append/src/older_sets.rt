//! The steps of the older children by their sets, where one tree does not give them: the sets are read group after group,
//! each group by a tree over the records of the index alone.

ghost use Rattle.std.specs.Prelude.{◌≡◌, ◌<◌, ◌+◌, List, drop, get_or, length, map, IfOk, IfSome};
ghost use Rattle.std.specs.List.{All, Contains};
ghost use Rattle.dg_append.specs.BatchSegments.{StandsForKept};
ghost use Rattle.dg_append.specs.OlderChildSteps.{AreLedByGroups, AreLedBySets, GivesOlderSteps, set_among};
ghost use Rattle.dg_append.specs.OlderGroups.{TellsGroupDamage, in_groups};
ghost use Rattle.dg_build.specs.GivenDeltas.{taken_back};
ghost use Rattle.dg_build.specs.InteriorDeltas.{steps_to};
ghost use Rattle.dg_graph.specs.declared.element.Element.{Element};
ghost use Rattle.dg_graph.specs.Elements.{IsSet};
ghost use Rattle.dg_graph.specs.ExactEvents.{AreChangesOf};
ghost use Rattle.dg_graph.specs.Replay.{replay_from};
ghost use Rattle.dg_history.specs.declared.node.NodeId.{NodeId};
ghost use Rattle.dg_history.specs.History.{History};
ghost use Rattle.dg_plan.specs.HistoryGraph.{all_columns};
ghost use Rattle.dg_retrieval.specs.Calls.{GivesSetsOver, ReadsRecords};
ghost use Rattle.dg_retrieval.specs.KeptGraph.{record_edges};
ghost use Rattle.dg_retrieval.specs.NodeSets.{HasNoEvents, IsIndexOver};
ghost use Rattle.dg_retrieval.specs.Planned.{IsOverRecords};

use crate::current_set::set_before;
use crate::next_batch::NextBatch;
use dg_current::Now;
use dg_delta::Delta;
use dg_disk::Disk;
use dg_fold::is_same_node;
use dg_graph::Event;
use dg_history::NodeId;
use dg_net::net_back;
use dg_records::RecordFault;
use dg_retrieval::{PlannedIndex, node_sets};
use dg_set::Set;
use std::alloc::{AllocError, Global};
use std::thread::Threads;

/// The most older children that are reached by one tree.
pub const GROUP_MAX: u32 = 32;

/// The limit as a number, since code and definitions alike name the constant. Does nothing.
pub fn group_limit()
    ensures { GROUP_MAX ≡ 32 }
{}

// The sets of the nodes, group after group, each by one tree.
fn read_groups<R: Threads, D: Disk>(
    rt: &R,
    from: &PlannedIndex,
    disk: &mut D,
    nodes: &[NodeId],
) -> Result<Vec<Set>, RecordFault>
    requires over { IsOverRecords (D.image disk.old) all_columns from.now }
    requires nodes { All (Contains from.now.planner.now.nodes) nodes.now }
    requires leaves { All HasNoEvents nodes.now }

    // the sets, and over an image of a history which they are and the bytes read: at most those of the single plans
    ensures count { IfOk result (λ sets. length sets.items ≡ length nodes.now) }
    ensures over { IfSome (D.image disk.old) (λ image.
        (z : History) → IsIndexOver z image from.now.index.now.opening from.now.name_count
        → GivesSetsOver z (record_edges from.now.index.now.opening) nodes.now (D.taken disk.old)
        (D.taken disk.new) result) }

    // over whatever image: which sets the records lead to, and where these are damaged
    ensures led { IfSome (D.image disk.old) (λ image. IfOk result (λ sets.
        AreLedByGroups from.now.name_count image from.now.index.now.opening (in_groups nodes.now) sets.items)) }
    ensures damage { IfSome (D.image disk.old) (λ image.
        TellsGroupDamage from.now.name_count from.now.index.now.opening image nodes.now result) }

    // what it leaves, and why a read failed
    ensures reads { ReadsRecords D.Disk disk.old disk.new result }
{
    let mut sets = Vec::new(from.alloc);
    let mut done = 0;
    while done < nodes.len() {
        let size = (nodes.len() - done).min(GROUP_MAX as usize);
        let group = &nodes[done..done + size];
        let mut more = node_sets(rt, from, disk, group)?;
        sets.append(&mut more)?;
        done += size;
    }
    Ok(sets)
}

// The set of the last leaf, from the current graph before the batch and the events behind that leaf.
fn last_leaf(alloc: Global, current: &Now, recent: &[Event]) -> Result<Set, AllocError>
    ensures back { IfOk result (λ leaf. leaf ≡ taken_back current.now.graph recent.now) }
    ensures is { IfOk result (λ leaf. (set : List Element) → IsSet set → AreChangesOf set recent.now → current.now.graph ≡ replay_from set recent.now → leaf ≡ set) }
{
    let now = set_before(alloc, current)?;
    // Its clause says that the set rises.
    now.items();
    let back = net_back(alloc, recent)?;
    back.apply(&now)
}

// The set of a node that is among these, whose sets these are; or the other set.
fn set_of_node<'a>(nodes: &[NodeId], sets: &'a [Set], node: NodeId, other: &'a Set) -> &'a Set
    requires { length sets.now ≡ length nodes.now }
    ensures { result.now ≡ set_among nodes.now sets.now other.now node }
{
    for i in 0..nodes.len() {
        if is_same_node(nodes[i], node) {
            return &sets[i];
        }
    }
    other
}

// The set to which the step from the node at the index, of those in time, leads: that of the next one, or `end`.
fn next_set<'a>(
    nodes: &[NodeId],
    sets: &'a [Set],
    in_time: &[NodeId],
    index: usize,
    end: &'a Set,
) -> &'a Set
    requires sets { length sets.now ≡ length nodes.now }
    requires index { index < length in_time.now }
    ensures { result.now ≡ get_or (map (set_among nodes.now sets.now end.now) (drop (index + 1) in_time.now)) 0 end.now }
{
    if index + 1 < in_time.len() {
        set_of_node(nodes, sets, in_time[index + 1], end)
    } else {
        end
    }
}

// The exact step from each of the nodes in time to the next, and from the last to the set `end`.
fn steps_between(
    alloc: Global,
    nodes: &[NodeId],
    sets: &[Set],
    in_time: &[NodeId],
    end: &Set,
) -> Result<Vec<Delta>, AllocError>
    requires { length sets.now ≡ length nodes.now }
    ensures count { IfOk result (λ steps. length steps.items ≡ length in_time.now) }
    ensures steps { IfOk result (λ steps. steps.items ≡ steps_to (map (set_among nodes.now sets.now end.now) in_time.now) end.now) }
{
    let mut steps = Vec::with_capacity(alloc, in_time.len())?;
    for i in 0..in_time.len() {
        let from = set_of_node(nodes, sets, in_time[i], end);
        let to = next_set(nodes, sets, in_time, i, end);
        let step = Delta::between(from, to)?;
        steps.push(step)?;
    }
    Ok(steps)
}

/// The exact steps from each of the nodes in time to the next, and from the last to the last leaf, by the sets of all the
/// nodes and of that leaf, which is led back to from the current graph before the batch. The sets are read in groups of
/// `GROUP_MAX`, each by one tree over the records alone, with all their columns.
///
/// `Disk` where a read failed, `Damaged` with the first column that is in no spelling in the first group that has one,
/// and `Memory`.
pub(crate) fn steps_by_sets<R: Threads, D: Disk>(
    rt: &R,
    from: &PlannedIndex,
    next: &NextBatch,
    disk: &mut D,
    nodes: &[NodeId],
    in_time: &[NodeId],
) -> Result<Vec<Delta>, RecordFault>
    requires over { IsOverRecords (D.image disk.old) all_columns from.now }
    requires nodes { All (Contains from.now.planner.now.nodes) nodes.now }
    requires leaves { All HasNoEvents nodes.now }
    requires in_time { All (Contains nodes.now) in_time.now }

    // the steps, and over an image of a history which they are and the bytes read
    ensures count { IfOk result (λ steps. length steps.items ≡ length in_time.now) }
    ensures over { IfSome (D.image disk.old) (λ image.
        (z : History) → IsIndexOver z image from.now.index.now.opening from.now.name_count
        → StandsForKept z image from.now.index.now.opening next.now next.now.current.now.graph
        → GivesOlderSteps z (record_edges from.now.index.now.opening) nodes.now in_time.now (D.taken disk.old)
        (D.taken disk.new) result) }

    // over whatever image: which steps the records lead to, and where these are damaged
    ensures led { IfSome (D.image disk.old) (λ image. IfOk result (λ steps.
        AreLedBySets from.now.name_count image from.now.index.now.opening nodes.now in_time.now
        (taken_back next.now.current.now.graph next.now.recent.now) steps.items)) }
    ensures damage { IfSome (D.image disk.old) (λ image.
        TellsGroupDamage from.now.name_count from.now.index.now.opening image nodes.now result) }

    // what it leaves, and why a read failed
    ensures reads { ReadsRecords D.Disk disk.old disk.new result }
{
    let sets = read_groups(rt, from, disk, nodes)?;
    let leaf = last_leaf(from.alloc, next.current, next.recent)?;
    Ok(steps_between(from.alloc, nodes, &sets, in_time, &leaf)?)
}
