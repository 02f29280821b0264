//! What changed since the start.

use dg_set::Set;

/// The graph at the start, and what has changed since: without those lost, and with those gained, it is the graph now.
#[derive(Drop)]
pub struct SinceStart<'a> {
    /// The elements at the start.
    pub start: &'a Set,
    /// Those of them that are there no more.
    pub lost: Set,
    /// The elements that were not there.
    pub gained: Set,
}
