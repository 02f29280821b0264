//! What leads to the set of a node of an index, by its records alone.

ghost use Rattle.std.specs.Prelude.{◌≡◌, ◌∷◌, [], IfOk, IfSome, IsErrOf, OnOk};
ghost use Rattle.std.specs.List.{All, Contains};
ghost use Rattle.dg_disk.specs.Calls.{Fails, ReadsDisk};
ghost use Rattle.dg_file.specs.Images.{IsOpenedAs};
ghost use Rattle.dg_fold.specs.BytesRead.{HoldsWhatIsEntered, IsKept, Takes, TakesAtMost, entered_length, kept_in};
ghost use Rattle.dg_fold.specs.Foldings.{HasParts};
ghost use Rattle.dg_fold.specs.Parts.{Folds, parts_in};
ghost use Rattle.dg_history.specs.declared.node.NodeId.TheVariants.{Root};
ghost use Rattle.dg_history.specs.History.{History};
ghost use Rattle.dg_plan.specs.declared.edge.Edge.{Edge};
ghost use Rattle.dg_plan.specs.IndexGraph.{arcs_of};
ghost use Rattle.dg_plan.specs.Walks.{IsPlan, weight_of};
ghost use Rattle.dg_retrieval.specs.Calls.{LeadsToNode, LeadsToNodeOver, ReadsRecords, TellsDamage};
ghost use Rattle.dg_retrieval.specs.NodeSets.{IsIndexOver};
ghost use Rattle.dg_retrieval.specs.Planned.{IsOverRecords};

use crate::branches::edges_at;
use crate::planned_index::PlannedIndex;
use dg_delta::Delta;
use dg_disk::Disk;
use dg_file::FetchFault;
use dg_fold::{FoldFault, Open, compose_plan, fetch_walk, fold_walk};
use dg_history::NodeId;
use dg_plan::Edge;
use dg_planner::{Graft, Planner};
use dg_records::RecordFault;
use std::alloc::{AllocError, Global};
use std::thread::Threads;

/// A plan of so many bytes, or of fewer, is composed in one thread, as it is read. Each thread takes memory of its own from
/// the system, which up to there costs what the other thread saves.
const ALONE_BYTES_MAX: u64 = 64 * 1024 * 1024;

/// What leads from nothing to the set of a node.
#[derive(Drop)]
pub struct NodeLead {
    /// What is put in; the set is what comes, cut to the asked columns.
    pub delta: Delta,
    /// The bytes of the records that the node's least plan enters, in the asked columns, without messages.
    pub weight: u64,
}

/// Retrieves what leads from nothing to the set of a node, in the asked columns, by its least plan over the records of the
/// index alone. Each record that the plan enters is read once, and nothing else; where they have 64 MiB at the most, they
/// are composed as they are read, and else once all are read. The history has `name_count` names; each one that is put in
/// is among them.
///
/// `Disk` where a read failed, `Damaged` with the first column that is in no spelling, in the order of the plan's
/// steps and of structure, node attributes, edge attributes, and `Memory`.
pub fn retrieve_node<R: Threads + Sync, D: Disk>(
    rt: &R,
    from: &PlannedIndex,
    disk: &mut D,
    node: NodeId,
) -> Result<NodeLead, RecordFault>
    requires over { IsOverRecords (D.image disk.old) from.now.cols from.now }
    requires node { Contains from.now.planner.now.nodes node }
    // what leads to the set, and the weight
    ensures done { IfOk result (LeadsToNode from.now.name_count from.now.planner.now.edges from.now.index.now.opening
        from.now.cols node (D.image disk.old)) }
    // over an image of a history: the set, and the bytes read
    ensures over { IfSome (D.image disk.old) (λ image.
        (z : History) → IsIndexOver z image from.now.index.now.opening from.now.name_count
        → LeadsToNodeOver z from.now.planner.now.edges from.now.cols node (D.taken disk.old) (D.taken disk.new) result) }
    // over whatever image: where the records are damaged
    ensures damage { IfSome (D.image disk.old) (λ image.
        TellsDamage from.now.name_count from.now.planner.now.edges from.now.index.now.opening
        from.now.cols (node ∷ []) image result) }
    // what it leaves, and why a read failed
    ensures reads { ReadsRecords D.Disk disk.old disk.new result }
{
    // Its clauses say which records the index keeps.
    from.index.facts();
    let route = plan_of(from.alloc, from.planner, node)?;
    let walk = edges_at(from.alloc, from.planner.edges(), &route.steps)?;
    let folded = fold(rt, from, disk, &walk, route.weight)?;
    let delta = folded?;
    Ok(NodeLead {
        delta,
        weight: route.weight,
    })
}

// What the records of the walk compose to, of a plan of so many bytes.
fn fold<R: Threads + Sync, D: Disk>(
    rt: &R,
    from: &PlannedIndex,
    disk: &mut D,
    walk: &[Edge],
    weight: u64,
) -> Result<Result<Delta, FoldFault>, FetchFault>
    requires kept { All (λ (e : Edge). IsKept from.now.index.now.opening e.via) walk.now }
    requires entered { HoldsWhatIsEntered [] walk.now }
    requires image { IfSome (D.image disk.old) (λ image. IsOpenedAs image from.now.index.now.opening) }
    ensures folded { IfOk result (λ folded.
        HasParts (D.image disk.old) from.now.index.now.opening
        from.now.cols walk.now (λ parts. Folds folded (parts_in from.now.name_count parts))) }
    ensures takes { OnOk result (IfSome (D.image disk.old) (λ image.
        Takes (entered_length (kept_in image from.now.index.now.opening) from.now.cols walk.now) (D.taken disk.old)
        (D.taken disk.new))) }
    ensures most { IfSome (D.image disk.old) (λ image.
        TakesAtMost (entered_length (kept_in image from.now.index.now.opening) from.now.cols walk.now)
        (D.taken disk.old) (D.taken disk.new)) }

    // errors
    ensures cause { IsErrOf result FetchFault.Disk → Fails D.Disk disk.old disk.new }

    // frame
    ensures frame { ReadsDisk D.Disk disk.old disk.new }
{
    let PlannedIndex {
        alloc,
        index,
        name_count,
        cols,
        ..
    } = *from;
    if weight <= ALONE_BYTES_MAX {
        return fold_walk(rt, alloc, index, disk, name_count, walk, cols);
    }
    let parts = fetch_walk(alloc, index, disk, walk, cols)?;
    Ok(compose_plan(rt, alloc, &Open, name_count, &parts))
}

// The steps of a least plan, and their weight in bytes.
#[derive(Drop)]
struct NodePlan {
    steps: Vec<u32>,
    weight: u64,
}

// The least plan of a node: that of the tree of this node alone, for which no potentials are made.
fn plan_of(alloc: Global, planner: &Planner, node: NodeId) -> Result<NodePlan, AllocError>
    requires node { Contains planner.now.nodes node }
    ensures plan { IfOk result (λ plan. IsPlan (arcs_of planner.now.edges) (Root ∷ []) node plan.steps.items) }
    ensures weight { IfOk result (λ plan. plan.weight ≡ weight_of (arcs_of planner.now.edges) plan.steps.items) }
{
    let mut tree = planner.plan_several(alloc, &[node])?;
    let Graft { steps, .. } = tree.grafts.remove(0);
    Ok(NodePlan {
        steps,
        weight: tree.weight,
    })
}
