//! What the lines of a certificate claim.
ghost use Rattle.std.specs.Prelude.{◌≡◌, ◌+◌, ◌<◌, ◌≤◌, length, IfOk, OnOk, position, drop};
ghost use Rattle.std.specs.Bool.{then_some};
ghost use Rattle.dg_history.specs.declared.limits.TheConstants.{BATCH_LINES_MAX};
ghost use Rattle.dg_graph.specs.declared.limits.TheConstants.{TIME_MAX};
ghost use Rattle.dg_plan.specs.CertificateLines.{no_claim, claim_with, claimed, with_potential};
ghost use Rattle.dg_plan.specs.InstantPoint.{same_node};
ghost use Rattle.dg_path.specs.Claims.{claim_of, read_of, line_step, with_step};

use crate::same_node::index_of;
use dg_graph::TIME_MAX;
use dg_history::NodeId;
use dg_plan::PlanLine;
use std::alloc::{AllocError, Global};

/// A step as a line writes it: the number of its edge, the node that it enters, and its weight in
/// bytes.
#[derive(Clone, Copy)]
pub(crate) struct WrittenStep {
    pub(crate) edge: u32,
    pub(crate) head: NodeId,
    pub(crate) weight: u64,
}

/// What lines claim: the steps of a walk, and potentials in bytes.
#[derive(Drop)]
pub(crate) struct Claim {
    pub(crate) steps: Vec<WrittenStep>,
    // The sum of the weights of the steps, in bytes.
    pub(crate) weight: u64,
    pub(crate) potentials: Vec<(NodeId, u64)>,
    // The first index, in the order of nodes, at which the node of the next potential may stand.
    next: usize,
}

impl Claim {
    /// What the lines claim, or the number of the first bad one, from 1. Passes each node once at the
    /// most.
    pub(crate) fn read(
        alloc: Global,
        nodes: &[NodeId],
        lines: &[Option<PlanLine>],
    ) -> Result<Result<Claim, u32>, AllocError>
        requires few { length lines.now ≤ BATCH_LINES_MAX }
        ensures claimed { IfOk result (λ read. read_of read ≡ claimed nodes.now 1 no_claim lines.now) }
        ensures few { IfOk result (λ read. IfOk read (λ claim. length claim.steps.items ≤ length lines.now)) }
    {
        let mut claim = Claim::empty(alloc, lines.len())?;
        let mut number = 1;
        for line in lines {
            if !claim.take(nodes, *line)? {
                return Ok(Err(number));
            }
            number += 1;
        }
        Ok(Ok(claim))
    }

    // What no lines claim, with room for so many.
    fn empty(alloc: Global, lines: usize) -> Result<Claim, AllocError>
        ensures { IfOk result (λ claim. claim_of claim ≡ no_claim) }
    {
        Ok(Claim {
            steps: Vec::with_capacity(alloc, lines)?,
            weight: 0,
            potentials: Vec::with_capacity(alloc, lines)?,
            next: 0,
        })
    }

    // Takes one more line, and tells whether it did: it does not where the line is bad.
    fn take(&mut self, nodes: &[NodeId], line: Option<PlanLine>) -> Result<bool, AllocError>
        requires fits { self.old.weight ≤ TIME_MAX }
        requires within { self.old.next ≤ length nodes.now }
        ensures taken { IfOk result (λ taken. claim_with nodes.now (claim_of self.old) line ≡ then_some taken (claim_of self.new)) }
        ensures fits { OnOk result (self.new.weight ≤ TIME_MAX) }
        ensures within { OnOk result (self.new.next ≤ length nodes.now) }
        ensures steps { OnOk result (length self.new.steps.items ≤ length self.old.steps.items + 1) }
    {
        match line {
            None => Ok(false),
            Some(PlanLine::Step { edge, head, weight }) => self.take_step(WrittenStep {
                edge,
                head,
                weight,
            }),
            Some(PlanLine::Potential { node, value }) => self.take_potential(nodes, node, value),
        }
    }

    // Takes a step, unless a potential stands before it or the weights pass the last instant.
    fn take_step(&mut self, step: WrittenStep) -> Result<bool, AllocError>
        requires fits { self.old.weight ≤ TIME_MAX }
        ensures taken { IfOk result (λ taken. with_step (claim_of self.old) (line_step step) ≡ then_some taken (claim_of self.new)) }
        ensures fits { OnOk result (self.new.weight ≤ TIME_MAX) }
        ensures next { OnOk result (self.new.next ≡ self.old.next) }
        ensures steps { OnOk result (length self.new.steps.items ≤ length self.old.steps.items + 1) }
    {
        if self.next > 0 || step.weight > TIME_MAX - self.weight {
            return Ok(false);
        }
        self.steps.push(step)?;
        self.weight += step.weight;
        Ok(true)
    }

    // Takes a potential, unless its node stands nowhere from the next index on, or it is not below the
    // weight of the steps.
    fn take_potential(
        &mut self,
        nodes: &[NodeId],
        node: NodeId,
        value: u64,
    ) -> Result<bool, AllocError>
        requires within { self.old.next ≤ length nodes.now }
        ensures taken { IfOk result (λ taken. with_potential (claim_of self.old) node value (position (same_node node) (drop self.old.next nodes.now)) ≡ then_some taken (claim_of self.new)) }
        ensures within { OnOk result (self.new.next ≤ length nodes.now) }
        ensures kept { OnOk result ((self.new.weight ≡ self.old.weight) × (self.new.steps ≡ self.old.steps)) }
    {
        let Some(past) = index_of(&nodes[self.next..], node) else {
            return Ok(false);
        };
        if self.weight <= value {
            return Ok(false);
        }
        self.potentials.push((node, value))?;
        self.next += past + 1;
        Ok(true)
    }
}
