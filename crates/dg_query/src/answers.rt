//! What queries answer.

/// How many elements a graph has of each kind.
#[derive(Clone, Copy)]
pub struct Counts {
    /// Nodes.
    pub nodes: u64,
    /// Edges.
    pub edges: u64,
    /// Values of keys at nodes.
    pub node_attrs: u64,
    /// Values of keys at edges.
    pub edge_attrs: u64,
    /// Messages.
    pub messages: u64,
}

/// An attribute of a node: the numbers of a key and of its value in the history's list of names.
#[derive(Clone, Copy)]
pub struct KeyValue {
    /// The key.
    pub key: u32,
    /// The value.
    pub value: u32,
}

/// On which side of a node an edge lies.
#[derive(Clone, Copy)]
pub enum Side {
    /// The edge is directed, and leaves the node. A directed loop is such an edge.
    Out,
    /// The edge is directed, and comes to the node from another.
    Inward,
    /// The edge is not directed.
    Both,
}

/// An edge at a node.
#[derive(Clone, Copy)]
pub struct Neighbour {
    /// The id of the edge.
    pub edge: u64,
    /// The node at its other end; of a loop the node itself.
    pub node: u64,
    /// The side of the node on which it lies.
    pub side: Side,
}
