//! The node from which the graph as of an instant is reached, by the times of the lists.
ghost use Rattle.std.specs.Prelude.{◌≡◌, ◌≤◌, ◌&&◌, nat_le};
ghost use Rattle.dg_catalogue.specs.Held.{ends_of};
ghost use Rattle.dg_catalogue.specs.Points.{ListsRise, begin_by, end_by, has_begun, begun_by, has_come, point_in_lists, point_of};

use crate::{Catalogue, LISTS_MAX};
use dg_history::NodeId;
use dg_index::Ends;

// Whether the instant is one of these or between them.
fn is_within(t: u64, span: Ends) -> bool
    ensures { result ≡ (nat_le span.first t && nat_le t span.last) }
{
    span.first <= t && t <= span.last
}

// Whether there is a first event, and it has come by the instant.
fn has_come(t: u64, first: Option<u64>) -> bool
    ensures { result ≡ has_come t first }
{
    match first {
        Some(first) => first <= t,
        None => false,
    }
}

impl Catalogue {
    // Whether a list is held and has begun by the instant.
    fn has_begun(&self, t: u64, list: u32) -> bool
        ensures { result ≡ has_begun self.now t list }
    {
        match self.list_ends(list) {
            Some(ends) => ends.first <= t,
            None => false,
        }
    }

    // Whether a list is held and has ended by the instant.
    fn has_ended(&self, t: u64, list: u32) -> bool
        ensures { result ≡ end_by t (ends_of self.now list) }
    {
        match self.list_ends(list) {
            Some(ends) => ends.last <= t,
            None => false,
        }
    }

    // How many lists have begun by the instant. The lists begin one after another, so the last that
    // has begun is found by halves.
    fn lists_begun(&self, t: u64) -> u32
        requires { ListsRise self.now }
        ensures { result ≡ begun_by self.now t }
    {
        // Its clauses tell that a list's number is below the most.
        self.facts();
        let mut low = 0;
        let mut high = LISTS_MAX;
        while low < high {
            let middle = low + (high - low) / 2;
            if self.has_begun(t, middle) {
                low = middle + 1;
            } else {
                high = middle;
            }
        }
        low
    }

    // The node for an instant before the recent events.
    fn point_in_lists(&self, t: u64) -> NodeId
        requires { ListsRise self.now }
        ensures { result ≡ point_in_lists self.now t (begun_by self.now t) }
    {
        let begun = self.lists_begun(t);
        if begun == 0 {
            return NodeId::Root;
        }
        if self.has_ended(t, begun - 1) {
            NodeId::Leaf(begun)
        } else {
            NodeId::List(begun - 1)
        }
    }

    /// The node from which the graph as of an instant is reached, by the events up to it where the node
    /// is `Recent` or a list. `recent` is the instant of the first event behind the last closed list.
    /// The numbers of the lists that are held go from 0 on, and each begins no earlier than the one
    /// before it. `None` exactly where the instant is before the history's first or after its last, or
    /// no batch was added. Takes at most 30 look-ups by hash.
    pub fn point(&self, t: u64, recent: Option<u64>) -> Option<NodeId>
        requires { ListsRise self.now }
        ensures { result ≡ point_of self.now t recent }
    {
        let span = self.span()?;
        if !is_within(t, span) {
            return None;
        }
        if t == span.last {
            return Some(NodeId::Now);
        }
        if has_come(t, recent) {
            return Some(NodeId::Recent);
        }
        Some(self.point_in_lists(t))
    }
}
