//! What a record has by column.
/// What a record has of each column.
#[derive(Clone, Copy)]
pub struct PerColumn<T> {
    /// Of the structure.
    pub structure: T,
    /// Of the attributes of nodes.
    pub node_attrs: T,
    /// Of the attributes of edges.
    pub edge_attrs: T,
    /// Of the messages.
    pub transient: T,
}
