//! The nodes of an index, and the keys of its records in their order.
ghost use Rattle.std.specs.Prelude.{◌≡◌};
ghost use Rattle.dg_history.specs.Keys.{key_cmp};

use std::cmp::Ordering;

/// A node of the index: a graph that the index can give without the events that led to it.
#[derive(Clone, Copy, PartialEq, Eq, Hash)]
pub enum NodeId {
    /// The empty graph, with which every history starts.
    Root,
    /// The graph after all events.
    Now,
    /// The graph after the last closed list of events, from which the recent events go on.
    Recent,
    /// The graph after this many closed lists of events, from 1.
    Leaf(u32),
    /// The graph before the closed list of events of this number, from 0.
    List(u32),
    /// An interior node: its height above the leaves, from 1, and its number at that height, from 1.
    Inner(u32, u32),
}

/// A record of the index. Keys are ordered lists first, then pieces, tops and downs, each by their
/// numbers.
#[derive(Clone, Copy, Debug, PartialEq, Eq, PartialOrd, Ord, Hash)]
pub enum Key {
    /// The closed list of events of this number, from 0.
    List(u32),
    /// The events of a batch after its last closed list, by the number of the batch's segment.
    Piece(u32),
    /// The delta from the root to the first interior node of this height.
    Top(u32),
    /// The delta from an interior node of this height to its child of this number, counted over all
    /// nodes of the child's height.
    Down(u32, u32),
}

impl Key {
    /// How two keys stand in the order of keys. The derived comparison answers the same.
    pub fn compare(&self, other: &Key) -> Ordering
        ensures { result ≡ key_cmp self.now other.now }
    {
        self.cmp(other)
    }
}
