//! The adjacencies that a session keeps between commands: the edges of a graph by their ends, for the handle that was
//! asked last and for the one that was asked before it. Without one each query of a node walks over all edges of the
//! graph.

ghost use Rattle.std.specs.Prelude.{◌≡◌, None, IfOk};
ghost use Rattle.dg_query.specs.Queries.{neighbours_of};
ghost use Rattle.dg_ask.specs.KeptAdjacency.{AreTurned, BothServe, KeepsAlone, ServesFor, TurnsTo, both_but, kept_but};
ghost use Rattle.dg_view.specs.NodeAnswer.{IsNodeOf};

use dg_query::Neighbour;
use dg_view::{Adjacency, NodeView, View};
use std::alloc::{AllocError, Global};
use std::marker::Model;
use std::mem;

// The query of a handle, while it is one of the two, at which the edges of its graph are sorted. To walk passes them
// once and to sort them about log E times, so by then the walks have cost what the sort may cost: a handle that is
// asked less often never pays for it, and one that is asked more often pays at most some times the sort.
const QUERY_THAT_SORTS: u32 = 8;

/// A handle that is asked, and the adjacency of its graph, once it was asked often.
#[derive(Drop)]
struct AskedHandle {
    // any, where none was asked
    handle: u32,
    // how often it was asked
    queries: u32,
    adjacency: Option<Adjacency>,
}

impl Model for AskedHandle {
    ghost use Rattle.std.specs.Option.{option_map};
    ghost use Rattle.dg_ask.specs.KeptAdjacency.{KeptEnds};

    ghost Value = { KeptEnds };

    ghost view = { λ k. option_map (λ ends. (k.handle, ends)) k.adjacency };
}

impl AskedHandle {
    // The handle is to be asked.
    fn new(handle: u32) -> AskedHandle
        ensures { result ≡ None }
    {
        AskedHandle {
            handle,
            queries: 0,
            adjacency: None,
        }
    }

    // Forgets what is kept, where it is of this handle.
    fn forget(&mut self, handle: u32)
        ensures { self.new ≡ kept_but handle self.old }
    {
        if self.handle == handle {
            *self = AskedHandle::new(handle);
        }
    }

    // Counts a query of the handle, whose graph this is: what was kept of another one is forgotten, and at the query
    // that sorts the adjacency is made. Where memory for it lacks, it is not tried again.
    fn count(&mut self, alloc: Global, handle: u32, graph: &View<'_>)
        requires { ServesFor handle graph.now self.old }
        ensures { KeepsAlone handle graph.now self.new }
    {
        if self.handle != handle {
            self.handle = handle;
            self.queries = 0;
            self.adjacency = None;
        }
        self.queries = self.queries.saturating_add(1);
        if self.queries == QUERY_THAT_SORTS {
            self.adjacency = graph.adjacency(alloc).ok();
        }
    }
}

/// The adjacencies of the graphs of the handle that was asked last and of the one that was asked before it, so that
/// two graphs may be compared by queries in turn: each once its handle was asked often while it was one of the two,
/// and while it lives.
#[derive(Drop)]
pub struct KeptAdjacency {
    last: AskedHandle,
    before: AskedHandle,
}

impl Model for KeptAdjacency {
    ghost use Rattle.dg_ask.specs.KeptAdjacency.{KeptEnds};

    ghost Value = { KeptEnds × KeptEnds };

    ghost view = { λ k. (k.last, k.before) };
}

impl KeptAdjacency {
    /// Nothing is kept, and no handle was asked.
    pub fn new() -> KeptAdjacency
        ensures { result ≡ (None, None) }
    {
        KeptAdjacency {
            last: AskedHandle::new(0),
            before: AskedHandle::new(0),
        }
    }

    /// Forgets what is kept.
    pub fn forget(&mut self)
        ensures { self.new ≡ (None, None) }
    {
        *self = KeptAdjacency::new();
    }

    /// Forgets what is kept of this handle, which ends. Its place is the first to be taken then.
    pub fn forget_handle(&mut self, handle: u32)
        ensures { AreTurned (both_but handle self.old) self.new }
    {
        self.last.forget(handle);
        self.before.forget(handle);
        self.turn_where(self.last.handle == handle);
    }

    // Puts the two in the other order, where that is asked for.
    fn turn_where(&mut self, is_asked: bool)
        ensures { AreTurned self.old self.new }
    {
        if is_asked {
            mem::swap(&mut self.last, &mut self.before);
        }
    }

    // Counts a query of the handle, whose graph this is, as the last one. A third handle takes the place of the one
    // that was asked longest ago.
    fn count(&mut self, alloc: Global, handle: u32, graph: &View<'_>)
        requires { BothServe handle graph.now self.old }
        ensures { TurnsTo handle graph.now self.old self.new }
    {
        self.turn_where(self.last.handle != handle);
        self.last.count(alloc, handle, graph);
    }

    /// A node of the handle, whose graph this is, with its attributes; none where the graph has no such node. An `Err`
    /// says that memory ran out.
    pub fn node(
        &mut self,
        alloc: Global,
        handle: u32,
        graph: &View<'_>,
        id: u64,
    ) -> Result<Option<NodeView>, AllocError>
        requires kept { BothServe handle graph.now self.old }
        ensures node { IfOk result (λ node. IsNodeOf graph.now id node) }
        ensures kept { TurnsTo handle graph.now self.old self.new }
    {
        self.count(alloc, handle, graph);
        match &self.last.adjacency {
            Some(adjacency) => graph.node_with(alloc, adjacency, id),
            None => graph.node(alloc, id),
        }
    }

    /// The edges at a node of the handle, whose graph this is, by their ids. An `Err` says that memory ran out.
    pub fn neighbours(
        &mut self,
        alloc: Global,
        handle: u32,
        graph: &View<'_>,
        id: u64,
    ) -> Result<Vec<Neighbour>, AllocError>
        requires kept { BothServe handle graph.now self.old }
        ensures neighbours { IfOk result (λ list. list.items ≡ neighbours_of graph.now id) }
        ensures kept { TurnsTo handle graph.now self.old self.new }
    {
        self.count(alloc, handle, graph);
        match &self.last.adjacency {
            Some(adjacency) => adjacency.neighbours(alloc, id),
            None => graph.neighbours(alloc, id),
        }
    }
}
