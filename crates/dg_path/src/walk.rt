//! The walk that steps claim.
ghost use Rattle.std.specs.Prelude.{◌≡◌, ◌≤◌, ◌<◌, ◌^◌, length, map, slice_get};
ghost use Rattle.dg_history.specs.declared.limits.TheConstants.{BATCH_LINES_MAX};
ghost use Rattle.dg_history.specs.declared.node.NodeId.TheVariants.{Root};
ghost use Rattle.dg_plan.specs.CertificateLines.{is_as_written, bad_step};
ghost use Rattle.dg_path.specs.Claims.{line_step};

use crate::claim::WrittenStep;
use crate::same_node::is_same;
use dg_history::NodeId;
use dg_plan::Edge;

/// The number of the first step, from 1, that is no edge of the graph from the node reached; or one
/// past the last, where the walk ends elsewhere than at the target.
pub(crate) fn first_bad_step(edges: &[Edge], target: NodeId, steps: &[WrittenStep]) -> Option<u32>
    requires few { length steps.now ≤ BATCH_LINES_MAX }
    ensures { result ≡ bad_step edges.now target 1 Root (map line_step steps.now) }
{
    let mut reached = NodeId::Root;
    let mut number = 1;
    for step in steps {
        if !is_step(edges, reached, step) {
            return Some(number);
        }
        reached = step.head;
        number += 1;
    }
    if is_same(reached, target) {
        None
    } else {
        Some(number)
    }
}

// Whether the step is an edge from the node reached, with the head and the weight that it writes.
fn is_step(edges: &[Edge], reached: NodeId, step: &WrittenStep) -> bool
    ensures { result ≡ is_as_written (slice_get edges.now step.now.edge) reached (line_step step.now) }
{
    match edges.get(step.edge as usize) {
        Some(edge) => {
            is_same(edge.from, reached) && is_same(edge.to, step.head) && edge.weight == step.weight
        }
        None => false,
    }
}
