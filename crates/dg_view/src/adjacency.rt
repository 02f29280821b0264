//! The edges of a graph by their ends.
ghost use Rattle.std.specs.Prelude.{◌≡◌, ℕ, List, length, filter, IfOk};
ghost use Rattle.dg_graph.specs.declared.element.Element.{Element};
ghost use Rattle.dg_query.specs.Queries.{is_an_edge};
ghost use Rattle.dg_view.specs.EdgeEnds.{edges_ending_at, IsAdjacencyOf};

use crate::ends::{EdgeEnd, at, sort};
use dg_query::Neighbour;
use std::alloc::{AllocError, Global};
use std::marker::Model;

/// The edges of a graph by their ends, in which those at a node are found by search. It takes 64 bytes an edge.
#[derive(Drop)]
pub struct Adjacency {
    // by their nodes, and at one node by their edges
    ends: Vec<EdgeEnd>,
}

impl Model for Adjacency {
    ghost use Rattle.std.specs.Prelude.{List};
    ghost use Rattle.dg_view.specs.declared.ends.EdgeEnd.{EdgeEnd};
    ghost use Rattle.dg_view.specs.EdgeEnds.{RiseByNode};

    ghost Value = { List EdgeEnd };

    ghost view = { λ adjacency. adjacency.ends.items };

    ghost invariant = { λ adjacency. RiseByNode adjacency.ends.items };
}

impl Adjacency {
    // The ends in their order; those at one node keep theirs.
    pub(crate) fn sorted(ends: Vec<EdgeEnd>) -> Result<Adjacency, AllocError>
        ensures { IfOk result (λ adjacency. (n : ℕ) → edges_ending_at adjacency n ≡ edges_ending_at ends.items n) }
    {
        let mut ends = ends;
        sort(&mut ends)?;
        Ok(Adjacency { ends })
    }

    /// What is an adjacency of one graph is one of each graph with the same edges. Does nothing.
    pub fn facts(&self)
        ensures { (a b : List Element) → filter is_an_edge a ≡ filter is_an_edge b → IsAdjacencyOf a self.now → IsAdjacencyOf b self.now }
    {
        let _ = &self.ends;
    }

    /// The edges at the node, by their ids; a loop is one of them. O(log E), and the edges. An `Err` says that
    /// memory ran out.
    pub fn neighbours(&self, alloc: Global, id: u64) -> Result<Vec<Neighbour>, AllocError>
        ensures { IfOk result (λ list. list.items ≡ edges_ending_at self.now id) }
    {
        let ends = at(&self.ends, id);
        let mut list = Vec::with_capacity(alloc, ends.len())?;
        for end in ends {
            list.push(end.edge)?;
        }
        Ok(list)
    }

    /// How many edges the node has. A loop counts once. O(log E).
    pub fn degree(&self, id: u64) -> u64
        ensures { result ≡ length (edges_ending_at self.now id) }
    {
        at(&self.ends, id).len() as u64
    }
}
