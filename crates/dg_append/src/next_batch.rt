//! A batch whose events are known, with what it follows.

use dg_current::Now;
use dg_graph::Event;
use dg_names::Names;
use dg_set::Set;

/// A batch whose events are known, with the names and the events that it follows.
#[derive(Drop)]
pub(crate) struct NextBatch<'a> {
    /// How many names there were before those of the batch.
    pub(crate) known: u32,
    /// These names, and those of the batch.
    pub(crate) names: &'a Names,
    /// The events behind the last closed list.
    pub(crate) recent: &'a [Event],
    /// The current graph before the batch, with its events pending.
    pub(crate) current: &'a Now,
    /// This graph as a set, where the batch completes an interior node that is the first of its height. Else it is not looked
    /// at, and no clause says which set it is.
    pub(crate) top: &'a Set,
    /// The events of the batch.
    pub(crate) events: &'a [Event],
}
