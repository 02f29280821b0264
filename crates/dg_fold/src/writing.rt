//! The deltas of a tree, each written once for all targets behind it.

ghost use Rattle.std.specs.Prelude.{◌≡◌, ◌<◌, ℕ, false, [], List, get_or, length, map, IfOk, IfErr, IsTrue, OnOk, Ok};
ghost use Rattle.std.specs.List.{All};
ghost use Rattle.dg_fold.specs.Ends.{AreLedUntil, FailsIn, Lead, lasts_in};
ghost use Rattle.dg_fold.specs.Parts.{beside};
ghost use Rattle.dg_fold.specs.Steps.{paired, steps_in};
ghost use Rattle.dg_fold.specs.Trees.{Grow, LeadsToTarget, all_edges};
ghost use Rattle.dg_fold.specs.Writings.{AreWrittenFrom};
ghost use Rattle.dg_fold.specs.WritingSteps.{AreLasts, AreRooted, GoesBack, IsEnteredNode, IsForOnly, IsWritten};
ghost use Rattle.dg_fold.specs.declared.tree.Branch.{Branch};
ghost use Rattle.dg_graph.specs.Composition.{Delta};
ghost use Rattle.dg_history.specs.declared.node.NodeId.TheVariants.{Root};

use crate::ends::last_delta;
use crate::fault::FoldFault;
use crate::part::Part;
use crate::tree::{Branch, steps_of};
use crate::tree_step::Stepped;
use dg_delta::Delta;
use dg_graph::Event;
use dg_history::NodeId;
use dg_plan::Edge;
use std::alloc::{AllocError, Global};
use std::thread::Threads;

/// A delta of a tree, and the targets whose paths take it.
#[derive(Drop)]
pub struct Writing {
    /// What is taken out and put in.
    pub delta: Delta,
    /// For each branch whether the path to its target takes the delta.
    pub targets: Vec<bool>,
}

// The nodes to which the branches lead.
fn ends_of(alloc: Global, branches: &[Branch]) -> Result<Vec<NodeId>, AllocError>
    ensures { IfOk result (λ v. v.items ≡ map (λ (b : Branch). b.to) branches.now) }
{
    let mut nodes = Vec::with_capacity(alloc, branches.len())?;
    for branch in branches {
        nodes.push(branch.to)?;
    }
    Ok(nodes)
}

/// Whether the two are one node.
pub fn is_same_node(left: NodeId, right: NodeId) -> bool
    ensures same { IsTrue result → left ≡ right }
    ensures all { left ≡ right → IsTrue result }
{
    left == right
}

// Goes back by an edge: a path that has still to reach the node behind it has then to reach the one before it. Answers
// whether the path takes the edge.
fn goes_back(at: &mut NodeId, edge: Edge) -> bool
    ensures { GoesBack edge at.old at.new result }
{
    if !is_same_node(*at, edge.to) {
        return false;
    }
    *at = edge.from;
    true
}

/// Goes back by an edge with the path to each node: a path that has still to reach the node behind the edge has then to
/// reach the one before it. Answers which of the paths take the edge.
pub fn all_go_back(alloc: Global, at: &mut [NodeId], edge: Edge) -> Result<Vec<bool>, AllocError>
    ensures len { length at.new ≡ length at.old }
    ensures count { IfOk result (λ takes. length takes.items ≡ length at.old) }
    ensures back { IfOk result (λ takes. (n : ℕ) → n < length at.old → GoesBack edge (get_or at.old n Root) (get_or at.new n Root) (get_or takes.items n false)) }
{
    let mut takes = Vec::with_capacity(alloc, at.len())?;
    for n in 0..at.len() {
        takes.push(goes_back(&mut at[n], edge))?;
    }
    Ok(takes)
}

// What the steps do, each for the targets whose paths take it. The last step that enters a node is that of its path, so
// the paths are found from their ends.
fn write_back(
    alloc: Global,
    steps: Vec<Stepped>,
    ends: Vec<NodeId>,
) -> Result<Vec<Writing>, AllocError>
    requires rooted { AreRooted steps.items }
    requires entered { All (λ node. IsEnteredNode node steps.items) ends.items }
    ensures { IfOk result (λ v. (n : ℕ) → n < length ends.items → IsWritten steps.items n (get_or ends.items n Root) v.items) }
{
    let mut writings = Vec::with_capacity(alloc, steps.len())?;
    let mut rest = steps;
    let mut at = ends;
    while let Some(step) = rest.pop() {
        let targets = all_go_back(alloc, &mut at, step.edge)?;
        writings.push(Writing {
            delta: step.delta,
            targets,
        })?;
    }
    writings.reverse();
    Ok(writings)
}

// The delta for one of so many targets alone.
fn write_for(
    alloc: Global,
    delta: Delta,
    target: usize,
    count: usize,
) -> Result<Writing, AllocError>
    requires { target < count }
    ensures delta { IfOk result (λ w. w.delta ≡ delta) }
    ensures targets { IfOk result (λ w. IsForOnly target w) }
{
    let mut targets = vec![in alloc; false; count]?;
    targets[target] = true;
    Ok(Writing { delta, targets })
}

// The last events of each target, for it alone.
fn write_lasts<R: Threads>(
    rt: &R,
    alloc: Global,
    name_count: u32,
    branches: &[Branch],
    parts: &[Part],
    recent: &[Event],
    times: &[u64],
) -> Result<Vec<Writing>, FoldFault>
    requires times { length times.now ≡ length branches.now }
    ensures ok { IfOk result (λ v. AreLasts name_count recent.now parts.now 0 branches.now times.now v.items) }
    ensures err { IfErr result (λ f. FailsIn f (lasts_in name_count recent.now parts.now branches.now times.now)) }
{
    let mut writings = Vec::with_capacity(alloc, branches.len())?;
    for n in 0..branches.len() {
        let to = branches[n].to;
        let last = match last_delta(rt, alloc, name_count, to, times[n], parts, recent) {
            Ok(last) => last,
            Err(fault) => return Err(fault),
        };
        writings.push(write_for(alloc, last, n, branches.len())?)?;
    }
    Ok(writings)
}

/// The deltas that lead along a tree to the targets of its branches, in the order of the tree's steps: each with the
/// targets whose paths from the root take its step; and behind them one for each target alone: where that is a list or
/// the recent events, those of its node's events that are up to the branch's instant, and else a delta that changes
/// nothing. The instant of another target is not looked at. The parts are those that `fetch_walk` gives for the edges of
/// all branches in order; each record is decoded once, but a list that is a target, which is decoded once more for its own
/// events up to the instant; none is composed. `Damaged` names the first part, and of it
/// the first column, that is damaged, exactly where one is.
pub fn write_tree<R: Threads>(
    rt: &R,
    alloc: Global,
    name_count: u32,
    branches: &[Branch],
    parts: &[Part],
    recent: &[Event],
    times: &[u64],
) -> Result<Vec<Writing>, FoldFault>
    requires lead { All LeadsToTarget branches.now }
    requires grow { Grow [] branches.now }
    requires times { length times.now ≡ length branches.now }
    ensures ok { IfOk result (λ v. (leads : List Lead) × AreLedUntil name_count recent.now parts.now (paired (all_edges branches.now) parts.now) branches.now times.now leads
        × AreWrittenFrom 0 leads v.items) }
    ensures read { OnOk result ((list : List Delta) × (steps_in name_count recent.now (paired (all_edges branches.now) parts.now) ≡ Ok list)) }
    ensures err { IfErr result (λ f. FailsIn f (beside (steps_in name_count recent.now (paired (all_edges branches.now) parts.now)) (lasts_in name_count recent.now parts.now branches.now times.now))) }
{
    let steps = match steps_of(rt, alloc, name_count, branches, parts, recent) {
        Ok(steps) => steps,
        Err(fault) => return Err(fault),
    };
    let ends = ends_of(alloc, branches)?;
    let mut writings = write_back(alloc, steps, ends)?;
    let mut lasts = match write_lasts(rt, alloc, name_count, branches, parts, recent, times) {
        Ok(lasts) => lasts,
        Err(fault) => return Err(fault),
    };
    writings.append(&mut lasts)?;
    Ok(writings)
}
