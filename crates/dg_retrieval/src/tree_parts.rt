//! The tree of several targets, and the records that it enters.

ghost use Rattle.std.specs.Prelude.{◌≡◌, ℕ, ◌≤◌, ◌∷◌, [], length, IfErr, IfOk, IfSome};
ghost use Rattle.std.specs.List.{All, Contains, sum};
ghost use Rattle.dg_history.specs.declared.node.NodeId.TheVariants.{Root};
ghost use Rattle.dg_history.specs.History.{History};
ghost use Rattle.dg_plan.specs.IndexGraph.{arcs_of};
ghost use Rattle.dg_plan.specs.Walks.{AreSingles, tree_weight};
ghost use Rattle.dg_planner.specs.Trees.{grafts_in};
ghost use Rattle.dg_planner.specs.Whole.{TREE_WEIGHT_MAX};
ghost use Rattle.dg_retrieval.specs.Calls.{HasTreeParts, ReadsRecords, TakesTree};
ghost use Rattle.dg_retrieval.specs.NodeSets.{IsIndexOver};
ghost use Rattle.dg_retrieval.specs.Retrieval.{IsNoDamage};
ghost use Rattle.dg_retrieval.specs.Planned.{IsOverFile};
ghost use Rattle.dg_retrieval.specs.TreeParts.{IsTreeWalk};

use crate::branches::{branches_of, walk_along};
use crate::planned_index::PlannedIndex;
use dg_disk::Disk;
use dg_fold::{Branch, Part, fetch_walk};
use dg_history::NodeId;
use dg_plan::Edge;
use dg_planner::{Planner, Tree};
use dg_records::RecordFault;
use std::alloc::{AllocError, Global};

// A tree of several targets, the branch of each target, and the edges of all branches, one after another.
#[derive(Drop)]
struct TreeWalk {
    tree: Tree,
    branches: Vec<Branch>,
    walk: Vec<Edge>,
}

// Plans the tree of the targets.
fn plan_tree(alloc: Global, planner: &Planner, targets: &[NodeId]) -> Result<TreeWalk, AllocError>
    requires targets { All (Contains planner.now.nodes) targets.now }
    requires few { length targets.now ≤ 32 }
    ensures walk { IfOk result (λ r. IsTreeWalk planner.now.edges targets.now (grafts_in r.tree) r.branches.items r.walk.items) }
    ensures weight { IfOk result (λ r. r.tree.weight ≡ tree_weight (arcs_of planner.now.edges) (grafts_in r.tree)) }
    ensures singles { IfOk result (λ r. AreSingles (arcs_of planner.now.edges) (Root ∷ []) targets.now r.tree.singles.items) }
    ensures sum { IfOk result (λ r. r.tree.sum ≡ sum r.tree.singles.items) }
    ensures shared { IfOk result (λ r. r.tree.weight ≤ sum r.tree.singles.items) }
    ensures light { IfOk result (λ r. r.tree.weight ≤ TREE_WEIGHT_MAX) }
    ensures light_sum { IfOk result (λ r. r.tree.sum ≤ TREE_WEIGHT_MAX) }
{
    let tree = planner.plan_several(alloc, targets)?;
    let branches = branches_of(alloc, planner.edges(), targets, &tree.grafts)?;
    let walk = walk_along(alloc, &branches)?;
    Ok(TreeWalk {
        tree,
        branches,
        walk,
    })
}

/// A tree of several targets, and the parts of the records that it enters.
#[derive(Drop)]
pub struct TreeParts {
    /// The tree, and what it weighs.
    pub tree: Tree,
    /// The branch of each target, in the order of targets.
    pub branches: Vec<Branch>,
    /// The edges of all branches, one after another.
    pub walk: Vec<Edge>,
    /// A part for each of these edges that names a record, in order.
    pub parts: Vec<Part>,
}

/// Plans the tree of the targets, 32 of them at the most, through the graph of the index, with the current graph
/// or without, and with bases of which none holds the graph of a list. Reads the records that it enters, each once.
///
/// `Disk` where a read failed, and `Memory`.
pub fn read_tree<D: Disk>(
    from: &PlannedIndex,
    disk: &mut D,
    targets: &[NodeId],
) -> Result<TreeParts, RecordFault>
    requires over { IsOverFile (D.image disk.old) from.now }
    requires targets { All (Contains from.now.planner.now.nodes) targets.now }
    requires few { length targets.now ≤ 32 }
    // the tree, and its parts
    ensures done { IfOk result (HasTreeParts from.now.planner.now.edges from.now.index.now.opening from.now.cols
        targets.now (D.image disk.old)) }
    // over an image of a history: the bytes read
    ensures over { (name_count : ℕ) → IfSome (D.image disk.old) (λ image.
        (z : History) → IsIndexOver z image from.now.index.now.opening name_count
        → TakesTree from.now.planner.now.edges targets.now (D.taken disk.old) (D.taken disk.new)
        (λ r. r.tree.weight) result) }
    // what it leaves, and why it fails
    ensures never { IfErr result IsNoDamage }
    ensures reads { ReadsRecords D.Disk disk.old disk.new result }
{
    let PlannedIndex {
        alloc,
        index,
        planner,
        cols,
        ..
    } = *from;
    // Its clauses say which records the index keeps.
    index.facts();
    let TreeWalk {
        tree,
        branches,
        walk,
    } = plan_tree(alloc, planner, targets)?;
    let parts = fetch_walk(alloc, index, disk, &walk, cols)?;
    Ok(TreeParts {
        tree,
        branches,
        walk,
        parts,
    })
}
