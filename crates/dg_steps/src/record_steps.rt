//! The exact steps between nodes of an index, by one tree over its records.

ghost use Rattle.std.specs.Prelude.{◌≡◌, ◌≤◌, ◌-◌, length, IfOk, IfSome};
ghost use Rattle.std.specs.List.{All, Contains};
ghost use Rattle.dg_history.specs.History.{History};
ghost use Rattle.dg_plan.specs.HistoryGraph.{all_columns};
ghost use Rattle.dg_retrieval.specs.Calls.{ReadsRecords, TellsDamage};
ghost use Rattle.dg_retrieval.specs.NodeSets.{IsIndexOver};
ghost use Rattle.dg_retrieval.specs.Planned.{IsOverRecords};
ghost use Rattle.dg_steps.specs.NodeSteps.{AreLedSteps, GivesStepsOver};

use crate::tree::tree_steps;
use dg_delta::Delta;
use dg_disk::Disk;
use dg_history::NodeId;
use dg_records::RecordFault;
use dg_retrieval::{ALL_COLUMNS, PlannedIndex, TreeParts, read_tree};
use std::thread::Threads;

/// The exact steps from each of the nodes to the next one. The nodes are among the targets, 32 of them at the most, to
/// which one tree over the records of the index alone is planned. Each record that the tree enters is read once, with all
/// its columns but messages, and nothing else; no set of a node is made. The history has `name_count` names.
///
/// `Disk` where a read failed, `Damaged` with the first column that is in no spelling, in the order of the tree's steps
/// and of structure, node attributes, edge attributes, and `Memory`.
pub fn node_steps<R: Threads, D: Disk>(
    rt: &R,
    from: &PlannedIndex,
    disk: &mut D,
    targets: &[NodeId],
    nodes: &[NodeId],
) -> Result<Vec<Delta>, RecordFault>
    requires over { IsOverRecords (D.image disk.old) all_columns from.now }
    requires targets { All (Contains from.now.planner.now.nodes) targets.now }
    requires few { length targets.now ≤ 32 }
    requires nodes { All (Contains targets.now) nodes.now }

    // the steps, and over an image of a history which they are and the bytes read
    ensures count { IfOk result (λ steps. length steps.items ≡ length nodes.now - 1) }
    ensures over { IfSome (D.image disk.old) (λ image.
        (z : History) → IsIndexOver z image from.now.index.now.opening from.now.name_count
        → GivesStepsOver z from.now.planner.now.edges targets.now nodes.now (D.taken disk.old) (D.taken disk.new) result) }

    // over whatever image: by which records they lead, and where these are damaged
    ensures led { IfSome (D.image disk.old) (λ image. IfOk result (λ steps.
        AreLedSteps from.now.name_count image from.now.index.now.opening targets.now nodes.now steps.items)) }
    ensures damage { IfSome (D.image disk.old) (λ image.
        TellsDamage from.now.name_count from.now.planner.now.edges from.now.index.now.opening all_columns
        targets.now image result) }

    // what it leaves, and why a read failed
    ensures reads { ReadsRecords D.Disk disk.old disk.new result }
{
    let PlannedIndex {
        alloc,
        name_count,
        ..
    } = *from;
    let whole = PlannedIndex {
        cols: ALL_COLUMNS,
        ..*from
    };
    let TreeParts {
        branches,
        parts,
        ..
    } = read_tree(&whole, disk, targets)?;
    Ok(tree_steps(rt, alloc, name_count, &branches, &parts, nodes)?)
}
