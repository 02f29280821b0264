//! The exact steps between nodes of a tree.

ghost use Rattle.std.specs.Prelude.{◌≡◌, [], List, map, IfErr, IfOk, OnOk, Ok};
ghost use Rattle.std.specs.List.{All, Contains};
ghost use Rattle.dg_fold.specs.declared.tree.Branch.{Branch};
ghost use Rattle.dg_fold.specs.Ends.{FailsIn};
ghost use Rattle.dg_fold.specs.Steps.{paired, steps_in};
ghost use Rattle.dg_fold.specs.Trees.{Grow, LeadsToTarget, all_edges};
ghost use Rattle.dg_graph.specs.Composition.{Delta};
ghost use Rattle.dg_steps.specs.TreeSteps.{AreStepsBetween};

use crate::between::steps_over;
use crate::crossing::crossings_of;
use crate::paths::paths_to;
use dg_delta::Delta;
use dg_fold::{Branch, FoldFault, Part, edges_of};
use dg_history::NodeId;
use std::alloc::{AllocError, Global};
use std::thread::Threads;

/// The exact steps from each of the nodes to the next one, by the paths of a tree to them. The parts are those that
/// `fetch_walk` gives for the edges of all branches in order, over records alone. Each record is decoded; one that is on
/// the paths of all the nodes or of none is dropped at once, any other is decoded once more the other way, and no set of a
/// node is made. `Damaged` names the first part, and of it the first column, that is damaged, exactly where one is;
/// `Memory` says that memory ran out.
pub fn tree_steps<R: Threads>(
    rt: &R,
    alloc: Global,
    name_count: u32,
    branches: &[Branch],
    parts: &[Part],
    nodes: &[NodeId],
) -> Result<Vec<Delta>, FoldFault>
    requires lead { All LeadsToTarget branches.now }
    requires grow { Grow [] branches.now }
    requires reached { All (Contains (map (λ (b : Branch). b.to) branches.now)) nodes.now }
    ensures ok { IfOk result (λ v. AreStepsBetween name_count (paired (all_edges branches.now) parts.now) nodes.now v.items) }
    ensures read { OnOk result ((list : List Delta) × (steps_in name_count [] (paired (all_edges branches.now) parts.now) ≡ Ok list)) }
    ensures err { IfErr result (λ f. FailsIn f (steps_in name_count [] (paired (all_edges branches.now) parts.now))) }
{
    let edges = edges_of(alloc, branches)?;
    let paths = paths_to(alloc, &edges, nodes)?;
    let kept = match crossings_of(rt, alloc, name_count, &edges, parts, paths) {
        Ok(kept) => kept,
        Err(fault) => return Err(fault),
    };
    Ok(steps_over(alloc, &kept, nodes.len())?)
}
