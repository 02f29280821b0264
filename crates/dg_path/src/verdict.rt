//! What is said of a certificate: the first step or potential that is not right, or that it holds.
ghost use Rattle.std.specs.Prelude.{◌≡◌, ◌≤◌, ℕ, List, length, IfOk};
ghost use Rattle.dg_history.specs.declared.limits.TheConstants.{BATCH_LINES_MAX};
ghost use Rattle.dg_history.specs.declared.node.NodeId.TheVariants.{Root};
ghost use Rattle.dg_plan.specs.declared.certificate.Verdict.TheVariants.{Valid};
ghost use Rattle.dg_plan.specs.CertificateLines.{judged, verdict_of, potential_in};
ghost use Rattle.dg_plan.specs.IndexGraph.{arcs_of};
ghost use Rattle.dg_plan.specs.Walks.{Leads, IsCertificate, weight_of};
ghost use Rattle.dg_path.specs.Claims.{claim_of};
ghost use Rattle.dg_path.specs.WrittenLines.{written_steps, written_weight, written_potentials};

use crate::claim::Claim;
use crate::potentials::Potentials;
use crate::walk::first_bad_step;
use dg_history::NodeId;
use dg_plan::{Edge, PlanLine, Verdict};
use std::alloc::{AllocError, Global};

/// What is said of the certificate that the lines write, over the graph with these edges and nodes.
/// Edges are numbered by their indices; potentials come in the order of `nodes`; a `None` is a line in
/// no form. An `Err` says that memory ran out. The time is linear in the lines, the edges and the nodes
/// together, with one look-up by hash for each potential that is asked of.
pub fn certify(
    alloc: Global,
    edges: &[Edge],
    nodes: &[NodeId],
    target: NodeId,
    lines: &[Option<PlanLine>],
) -> Result<Verdict, AllocError>
    requires few { length lines.now ≤ BATCH_LINES_MAX }
    ensures verdict { IfOk result (λ v. v ≡ judged edges.now nodes.now target lines.now) }

    // The steps of valid lines are a walk to the target that their potentials certify, and no walk weighs less.
    ensures certificate { IfOk result (λ v. v ≡ Valid → IsCertificate (arcs_of edges.now) Root target
        (potential_in (written_weight lines.now) (written_potentials lines.now)) (written_steps lines.now) (written_weight lines.now)) }
    ensures sound { IfOk result (λ v. v ≡ Valid → (others : List ℕ) → Leads (arcs_of edges.now) Root others target
        → weight_of (arcs_of edges.now) (written_steps lines.now) ≤ weight_of (arcs_of edges.now) others) }
{
    match Claim::read(alloc, nodes, lines)? {
        Ok(claim) => verdict_on(alloc, edges, target, &claim),
        Err(line) => Ok(Verdict::Line(line)),
    }
}

// What is said of what lines claim.
fn verdict_on(
    alloc: Global,
    edges: &[Edge],
    target: NodeId,
    claim: &Claim,
) -> Result<Verdict, AllocError>
    requires few { length claim.now.steps.items ≤ BATCH_LINES_MAX }
    ensures { IfOk result (λ v. v ≡ verdict_of edges.now target (Ok (claim_of claim.now))) }
{
    if let Some(step) = first_bad_step(edges, target, &claim.steps) {
        return Ok(Verdict::Step(step));
    }
    let potentials = Potentials::new(alloc, &claim.potentials, claim.weight)?;
    Ok(match potentials.first_bad_node(edges) {
        Some(node) => Verdict::Potential(node),
        None if potentials.of(target) == claim.weight => Verdict::Valid,
        None => Verdict::NotTight,
    })
}
