//! An edge of the graph of an index: what it leads by, and how its record is applied.
use dg_history::{Key, NodeId};

/// How a record is applied.
#[derive(Clone, Copy)]
pub enum Way {
    /// Nothing of it is applied.
    Same,
    /// The delta, or the net of the list.
    Forward,
    /// The reverse of it.
    Back,
}

/// By what an edge leads on.
#[derive(Clone, Copy)]
pub enum Via {
    /// The current graph, which is in memory.
    Now,
    /// The graph that a handle with this number holds.
    Base(u32),
    /// A record that is read here.
    Paid(Key, Way),
    /// A record that a step before it has read.
    Held(Key, Way),
    /// The events behind the last leaf, which are in memory.
    Recent(Way),
}

/// An edge of the graph of an index.
#[derive(Clone, Copy)]
pub struct Edge {
    /// The node that it leaves.
    pub from: NodeId,
    /// The node that it enters.
    pub to: NodeId,
    /// The bytes of the asked columns of the record that it reads, and 0 where it reads none.
    pub weight: u64,
    /// By what it leads on.
    pub via: Via,
}
