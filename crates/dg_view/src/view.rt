//! Queries of the graph of a slot.
ghost use Rattle.std.specs.Prelude.{◌≡◌, IfOk};
ghost use Rattle.dg_pool.specs.Graphs.{slot_graph};
ghost use Rattle.dg_pool.specs.Slots.{IsLive};
ghost use Rattle.dg_pool.specs.Sweeps.{members_as};
ghost use Rattle.dg_query.specs.Queries.{counts_of, neighbours_of, degree_of, attribute_of};
ghost use Rattle.dg_view.specs.EdgeEnds.{IsAdjacencyOf};
ghost use Rattle.dg_view.specs.NodeAnswer.{IsNodeOf};

use crate::adjacency::Adjacency;
use crate::answers::NodeView;
use crate::queries;
use dg_graph::Element;
use dg_pool::{Pool, Slot};
use dg_query::{Counts, Neighbour};
use std::alloc::{AllocError, Global};
use std::marker::Model;

/// The graph of a live slot, seen as the set of its elements. The pool cannot change while it is held.
#[derive(Drop)]
pub struct View<'a> {
    pool: &'a Pool,
    slot: Slot,
}

impl<'a> Model for View<'a> {
    ghost use Rattle.std.specs.Prelude.{List};
    ghost use Rattle.dg_graph.specs.declared.element.Element.{Element};
    ghost use Rattle.dg_pool.specs.Graphs.{slot_graph};
    ghost use Rattle.dg_pool.specs.Slots.{IsLive};
    ghost use Rattle.dg_pool.specs.Sweeps.{members_as};

    ghost Value = { List Element };

    ghost view = { λ v. members_as (slot_graph v.pool.now v.slot.0) };

    ghost invariant = { λ v. IsLive v.pool.now v.slot };
}

impl<'a> View<'a> {
    /// The graph of a live slot.
    pub fn of(pool: &'a Pool, slot: Slot) -> View<'a>
        requires { IsLive pool.now slot }
        ensures { result ≡ members_as (slot_graph pool.now slot.0) }
    {
        View { pool, slot }
    }

    /// How many elements of each kind the graph has. O(1).
    pub fn counts(&self) -> Counts
        ensures { result ≡ counts_of self.now }
    {
        self.pool.counts(self.slot)
    }

    /// The elements of the graph, in their order. An `Err` says that memory ran out.
    pub fn list(&self, alloc: Global) -> Result<Vec<Element>, AllocError>
        ensures { IfOk result (λ list. list.items ≡ self.now) }
    {
        queries::list(alloc, self.pool, self.slot)
    }

    /// How many edges the node has. A loop counts once.
    pub fn degree(&self, id: u64) -> u64
        ensures { result ≡ degree_of self.now id }
    {
        queries::degree(self.pool, self.slot, id)
    }

    /// The least value of the key at the node, if it has one. A search, O(log n), and a walk over the cells of the
    /// key's values at the node up to the first that the graph has.
    pub fn attribute(&self, id: u64, key: u32) -> Option<u32>
        ensures { result ≡ attribute_of self.now id key }
    {
        queries::attribute(self.pool, self.slot, id, key)
    }

    /// The node with its attributes; none where the graph has no such node. An `Err` says that memory
    /// ran out.
    pub fn node(&self, alloc: Global, id: u64) -> Result<Option<NodeView>, AllocError>
        ensures { IfOk result (λ node. IsNodeOf self.now id node) }
    {
        if !self.pool.member(self.slot, &Element::Node { id }) {
            return Ok(None);
        }
        let degree = queries::degree(self.pool, self.slot, id);
        let attributes = queries::values(alloc, self.pool, self.slot, id)?;
        Ok(Some(NodeView { degree, attributes }))
    }

    /// The edges at the node, by their ids. An `Err` says that memory ran out.
    pub fn neighbours(&self, alloc: Global, id: u64) -> Result<Vec<Neighbour>, AllocError>
        ensures { IfOk result (λ list. list.items ≡ neighbours_of self.now id) }
    {
        queries::neighbours(alloc, self.pool, self.slot, id)
    }

    /// The edges of the graph by their ends, for many queries of this graph. A walk over the cells of all edges,
    /// and O(E log E). An `Err` says that memory ran out.
    pub fn adjacency(&self, alloc: Global) -> Result<Adjacency, AllocError>
        ensures { IfOk result (λ adjacency. IsAdjacencyOf self.now adjacency) }
    {
        Adjacency::sorted(queries::ends(alloc, self.pool, self.slot)?)
    }

    /// As `node`, with the degree from the adjacency of the graph: three searches, and a walk over the node's
    /// attributes. An `Err` says that memory ran out.
    pub fn node_with(
        &self,
        alloc: Global,
        adjacency: &Adjacency,
        id: u64,
    ) -> Result<Option<NodeView>, AllocError>
        requires { IsAdjacencyOf self.now adjacency.now }
        ensures { IfOk result (λ node. IsNodeOf self.now id node) }
    {
        let node = Element::Node { id };
        if !self.pool.member(self.slot, &node) {
            return Ok(None);
        }
        let degree = adjacency.degree(id);
        let attributes = queries::values(alloc, self.pool, self.slot, id)?;
        Ok(Some(NodeView { degree, attributes }))
    }
}
