//! A graph that never changes, as its elements in their order.
ghost use Rattle.std.specs.Prelude.{◌≡◌, ◌<◌, ◌^◌, [], length, IfOk, IsErrOf};
ghost use Rattle.std.specs.List.{count_by};
ghost use Rattle.dg_graph.specs.Graph.{IsGraph};
ghost use Rattle.dg_current.specs.ElementIds.{at, needs_id};
ghost use Rattle.dg_current.specs.Sorted.{has_end};

use crate::element_id::ElementId;
use crate::ends::{count_edges, count_sorted, sorted_ends};
use crate::fault::FromFault;
use crate::graph_test::is_graph;
use crate::search::{count_values, find};
use dg_graph::Element;
use dg_set::Set;
use std::alloc::{AllocError, Global};
use std::marker::Model;

/// A graph as its elements in their order, in which an element is found by search. It never changes.
#[derive(Drop)]
pub(crate) struct SortedGraph {
    elements: Set,
    // The ends of the edges in their order, once they are asked for.
    ends: Option<Vec<u64>>,
}

impl Model for SortedGraph {
    ghost use Rattle.std.specs.Prelude.{List, IfSome};
    ghost use Rattle.dg_graph.specs.declared.element.Element.{Element};
    ghost use Rattle.dg_graph.specs.Graph.{IsGraph};
    ghost use Rattle.dg_current.specs.Sorted.{AreEndsOf};

    ghost Value = { List Element };

    ghost view = { λ graph. graph.elements };

    ghost invariant = { λ graph. IsGraph graph.elements × IfSome graph.ends (λ ends. AreEndsOf graph.elements ends.items) };
}

impl SortedGraph {
    /// The empty graph. Takes no memory.
    pub(crate) fn new(alloc: Global) -> SortedGraph
        ensures { result ≡ [] }
    {
        SortedGraph {
            elements: Set::new(alloc),
            ends: None,
        }
    }

    /// The graph of these elements; an `Err` where they are no graph, or for want of memory.
    pub(crate) fn from_set(alloc: Global, set: Set) -> Result<SortedGraph, FromFault>
        ensures ok { IfOk result (λ graph. graph ≡ set) }
        ensures not_graph { IsErrOf result FromFault.NotGraph → IsGraph set → ⊥ }
    {
        if !is_graph(alloc, set.items())? {
            return Err(FromFault::NotGraph);
        }
        Ok(SortedGraph {
            elements: set,
            ends: None,
        })
    }

    /// What holds of each graph. Does nothing.
    pub(crate) fn facts(&self)
        ensures { IsGraph self.now }
    {
        let _ = &self.elements;
    }

    /// How many elements it has.
    pub(crate) fn len(&self) -> usize
        ensures len { result ≡ length self.now }
        ensures small { result < 2 ^ 62 }
    {
        self.elements.items().len()
    }

    /// The element with the id, if there is one.
    pub(crate) fn element_at(&self, id: ElementId) -> Option<Element>
        ensures { result ≡ at self.now id }
    {
        find(self.elements.items(), id)
    }

    /// Its elements.
    pub(crate) fn elements(&self) -> &Set
        ensures { result.now ≡ self.now }
    {
        &self.elements
    }

    /// Sorts the ends of the edges, unless that is done, so that `uses` finds them by search. An `Err`
    /// says that memory ran out.
    pub(crate) fn sort_ends(&mut self, alloc: Global) -> Result<(), AllocError>
        ensures { self.new ≡ self.old }
    {
        if self.ends.is_none() {
            self.ends = Some(sorted_ends(alloc, self.elements.items())?);
        }
        Ok(())
    }

    // How many edges have this end. Passes over all elements until the ends are sorted.
    fn edges_at(&self, id: u64) -> usize
        ensures { result ≡ count_by (has_end id) self.now }
    {
        match &self.ends {
            Some(ends) => count_sorted(ends, id),
            None => count_edges(self.elements.items(), id),
        }
    }

    /// How many elements need the one with the id.
    pub(crate) fn uses(&self, id: ElementId) -> usize
        ensures { result ≡ count_by (needs_id id) self.now }
    {
        let values = count_values(self.elements.items(), id);
        match id {
            ElementId::Node(node) => self.edges_at(node) + values,
            _ => values,
        }
    }
}
