//! What leads to graphs: what each begins with, and the deltas from there.
use dg_fold::Writing;

/// What a graph that is retrieved begins with, all of it held in memory.
#[derive(Clone, Copy)]
pub enum Beginning {
    /// Nothing: the empty graph.
    Nothing,
    /// The current graph.
    Now,
    /// The set of a node, which the handle of this number holds.
    Base(u32),
}

/// What leads to several graphs: what each begins with, and the deltas from there, each once for all graphs to which it
/// leads. Each graph is what comes of the deltas that are for it, in order, cut to the columns that were asked for.
#[derive(Drop)]
pub struct Leads {
    /// What each graph begins with.
    pub begins: Vec<Beginning>,
    /// What is taken out and put in from there, and for which of the graphs.
    pub writings: Vec<Writing>,
}
