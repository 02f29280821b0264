//! What is kept beside an index: names, current graph and recent events.
ghost use Rattle.std.specs.Prelude.{◌≡◌, [], None};

use dg_current::Now;
use dg_file::Index;
use dg_graph::Event;
use dg_names::Names;
use dg_seed::Seed;
use std::alloc::Global;

/// An index, if there is one, and what is kept in memory of the history that its file holds.
#[derive(Drop)]
pub struct StoredHistory {
    /// The index.
    pub index: Option<Index>,
    /// The names of the history.
    pub names: Names,
    /// The graph of all its events.
    pub now: Now,
    /// The events behind the last closed list, in their order.
    pub recent: Vec<Event>,
}

impl StoredHistory {
    /// No index. Names and current graph hash with the seed. Takes no memory.
    pub fn empty(alloc: Global, seed: Seed) -> StoredHistory
        ensures index { result.index ≡ None }
        ensures names { result.names ≡ [] }
        ensures graph { result.now.graph ≡ [] }
        ensures pending { result.now.pending ≡ [] }
        ensures recent { result.recent.items ≡ [] }
    {
        StoredHistory {
            index: None,
            names: Names::new(alloc, seed),
            now: Now::new(alloc, seed),
            recent: Vec::new(alloc),
        }
    }
}
