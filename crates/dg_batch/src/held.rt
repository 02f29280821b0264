//! What a session lives on.

use dg_append::Live;
use dg_ask::KeptAdjacency;
use dg_handles::Handles;

/// What a session lives on: a history, the pool in which graphs are overlaid on its current one, the live handles on these,
/// and the adjacencies that are kept for them.
#[derive(Drop)]
pub struct Held {
    /// The history, and the pool of its current graph and of those of the handles, once there are any.
    pub live: Live,
    /// The live handles, each with its slot of the pool.
    pub handles: Handles,
    /// The adjacencies of the handles that were asked last.
    pub adjacency: KeptAdjacency,
}
