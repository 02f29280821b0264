//! What a query for a node answers.

use dg_query::KeyValue;

/// A node of a graph.
#[derive(Drop)]
pub struct NodeView {
    /// How many edges it has. A loop counts once.
    pub degree: u64,
    /// Its attributes, by key and then by value.
    pub attributes: Vec<KeyValue>,
}
