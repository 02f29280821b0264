//! Potentials by node.
ghost use Rattle.std.specs.Prelude.{◌≡◌, ◌+◌, IfOk, find, unwrap_or, nat_lt};
ghost use Rattle.std.specs.Map.{lookup};
ghost use Rattle.dg_history.specs.declared.node.NodeId.{NodeId};
ghost use Rattle.dg_plan.specs.CertificateLines.{potential_in, rises_above, bad_potential, head_if};
ghost use Rattle.dg_path.specs.Potentials.{potential_at};

use dg_history::NodeId;
use dg_plan::Edge;
use indexmap::IndexMap;
use std::alloc::{AllocError, Global};

/// The potential of each node, in bytes.
#[derive(Drop)]
pub(crate) struct Potentials {
    written: IndexMap<NodeId, u64>,
    // The potential of a node of which none is written.
    other: u64,
}

impl Potentials {
    /// The potentials that are written, and `other` for each other node. Of two for one node the first
    /// counts.
    pub(crate) fn new(
        alloc: Global,
        potentials: &[(NodeId, u64)],
        other: u64,
    ) -> Result<Potentials, AllocError>
        ensures { IfOk result (λ p. (node : NodeId) → potential_at p node ≡ potential_in other potentials.now node) }
    {
        let mut written = IndexMap::with_capacity(alloc, potentials.len())?;
        // From the last on, so that of two for one node the first stays.
        for i in (0..potentials.len()).rev() {
            let (node, value) = potentials[i];
            written.insert(node, value)?;
        }
        Ok(Potentials { written, other })
    }

    /// The potential of a node.
    pub(crate) fn of(&self, node: NodeId) -> u64
        ensures { result ≡ potential_at self.now node }
    {
        match self.written.get(&node) {
            Some(value) => *value,
            None => self.other,
        }
    }

    /// The root, where its potential is not 0, or the head of the first edge that rises more than its
    /// weight.
    pub(crate) fn first_bad_node(&self, edges: &[Edge]) -> Option<NodeId>
        ensures { result ≡ bad_potential edges.now (potential_at self.now) }
    {
        if self.of(NodeId::Root) != 0 {
            return Some(NodeId::Root);
        }
        self.first_rise(edges)
    }

    // The head of the first edge that rises more than its weight.
    fn first_rise(&self, edges: &[Edge]) -> Option<NodeId>
        ensures { result ≡ head_if (find (rises_above (potential_at self.now)) edges.now) }
    {
        let edge = edges.iter().find(|edge| self.rises(edge))?;
        Some(edge.to)
    }

    // Whether the potential of the edge's head is above that of its tail by more than the edge weighs.
    fn rises(&self, edge: &Edge) -> bool
        ensures { result ≡ rises_above (potential_at self.now) edge.now }
    {
        u128::from(self.of(edge.from)) + u128::from(edge.weight) < u128::from(self.of(edge.to))
    }
}
