//! The current graph, and the events of a batch that are pending.
ghost use Rattle.std.specs.Prelude.{◌≡◌, ◌<◌, ◌≤◌, ◌^◌, [], Ok, length, IfOk, IfErr, IfSome, OnErr, OnOk, IsErrOf, if◌then◌else◌};
ghost use Rattle.dg_graph.specs.Completion.{has_node, edge_of, node_value, edge_value, is_change_of};
ghost use Rattle.dg_graph.specs.Effect.{forwards};
ghost use Rattle.dg_graph.specs.ExactEvents.{AreChangesOf};
ghost use Rattle.dg_graph.specs.Graph.{IsGraph};
ghost use Rattle.dg_graph.specs.Replay.{replay_from};
ghost use Rattle.dg_graph.specs.Sets.{unioned, without_all};
ghost use Rattle.dg_set.specs.Apart.{AreApart};
ghost use Rattle.dg_current.specs.ElementIds.{at};
ghost use Rattle.dg_current.specs.Now.{NowState, earliest_time_after, completed_batch, FaultOf, ends_in};

use crate::completion::{is_change_of, value_in};
use crate::element_id::{ElementId, element_before};
use crate::event_effect::{apply, complete_all, ready_for_changes, ready_for_event, undo};
use crate::fault::{FromFault, PrepareFault};
use crate::held_graph::HeldGraph;
use crate::since_start::SinceStart;
use dg_graph::{Change, Element, Event};
use dg_seed::Seed;
use dg_set::Set;
use std::alloc::{AllocError, Global};
use std::marker::Model;
use std::mem;

/// The current graph, and the events of a batch that are pending.
///
/// What is held is the graph with the pending events, so `commit` only hands them out, and `abandon`
/// undoes them. A look-up passes over the pending events first, one after another, and then takes one
/// hash and a binary search: it is meant for when nothing is pending.
#[derive(Drop)]
pub struct Now {
    held: HeldGraph,
    pending: Vec<Event>,
}

impl Model for Now {
    ghost use Rattle.dg_current.specs.Now.{NowState};
    ghost use Rattle.dg_current.specs.EventEffect.{rewound, Led};

    ghost Value = { NowState };

    ghost view = { λ now. record { graph = rewound now.held.set now.pending.items; pending = now.pending.items } };

    ghost invariant = { λ now. Led (rewound now.held.set now.pending.items) now.pending.items now.held };
}

impl Now {
    /// The empty graph, and nothing pending. Takes no memory yet.
    pub fn new(alloc: Global, seed: Seed) -> Now
        ensures graph { result.graph ≡ [] }
        ensures pending { result.pending ≡ [] }
    {
        Now {
            held: HeldGraph::new(alloc, seed),
            pending: Vec::new(alloc),
        }
    }

    /// The graph of these elements, and nothing pending. `FromFault::NotGraph` where they are no graph:
    /// an element lacks what it needs, or two elements have one id; `FromFault::Memory` for want of
    /// memory.
    pub fn from_set(alloc: Global, seed: Seed, set: Set) -> Result<Now, FromFault>
        ensures ok { IfOk result (λ now. (now.graph ≡ set) × (now.pending ≡ []) × IsGraph set) }
        ensures not_graph { IsErrOf result FromFault.NotGraph → IsGraph set → ⊥ }
    {
        let held = HeldGraph::from_set(alloc, seed, set)?;
        // What is held is a graph.
        held.facts();
        Ok(Now {
            held,
            pending: Vec::new(alloc),
        })
    }

    /// What holds of each current graph, and of the pending events. Does nothing.
    pub fn facts(&self)
        ensures graph { IsGraph self.now.graph }
        ensures changes { AreChangesOf self.now.graph self.now.pending }
    {
        let _ = &self.held;
    }

    /// Completes the changes of a batch to events, each in the graph that those before it leave, none
    /// before the one before it and all after the time `last` of the last event of the history. The
    /// events are pending then.
    ///
    /// `PrepareFault::BadChange` for the least line that is refused; `PrepareFault::Memory` for want of
    /// memory. After an `Err` nothing has changed.
    pub fn prepare(&mut self, last: Option<u64>, changes: &[Change]) -> Result<(), PrepareFault>
        requires none_pending { self.old.pending ≡ [] }
        requires some { 1 ≤ length changes.now }
        requires few { length changes.now ≤ 2 ^ 20 }
        requires last { IfSome last (λ t. t < 2 ^ 63) }

        // The events are those of the changes, and are pending.
        ensures ok { OnOk result (completed_batch self.old.graph last changes.now ≡ Ok self.new.pending) }

        // A refusal is that of the changes.
        ensures bad { IfErr result (FaultOf (completed_batch self.old.graph last changes.now)) }
        ensures err { OnErr result (self.new ≡ self.old) }

        // The graph stays.
        ensures same_graph { self.new.graph ≡ self.old.graph }
    {
        let earliest = earliest_time_after(last);
        let alloc = *self.pending.allocator();
        ready_for_changes(&mut self.held, alloc, changes)?;
        self.held.reserve(changes.len())?;
        self.pending.reserve(changes.len())?;
        if let Err(fault) = complete_all(&mut self.held, &mut self.pending, earliest, changes) {
            self.abandon();
            return Err(fault);
        }
        Ok(())
    }

    /// The pending events, in their order.
    pub fn pending(&self) -> &[Event]
        ensures { result.now ≡ self.now.pending }
    {
        &self.pending
    }

    /// The graph past the pending events, as a set of its own. An `Err` says that memory ran out.
    pub fn set_past(&self, alloc: Global) -> Result<Set, AllocError>
        ensures { IfOk result (λ set. set ≡ replay_from self.now.graph self.now.pending) }
    {
        self.held.set(alloc)
    }

    /// What leads from the graph at the start, which stays, to the one past the pending events. An `Err` says that
    /// memory ran out.
    pub fn since_start(&self, alloc: Global) -> Result<SinceStart<'_>, AllocError>
        ensures leads { IfOk result (λ since. unioned (without_all since.start.now since.lost) since.gained ≡ replay_from self.now.graph self.now.pending) }
        ensures apart { IfOk result (λ since. AreApart since.lost since.gained) }
    {
        self.held.since_start(alloc)
    }

    /// How many elements the graph past the pending events has. Takes no memory.
    pub fn len_past(&self) -> u64
        ensures { result ≡ length (replay_from self.now.graph self.now.pending) }
    {
        self.held.len()
    }

    /// Takes the graph past the pending events, and hands them out. Takes no memory.
    pub fn commit(&mut self) -> Vec<Event>
        ensures events { result.items ≡ self.old.pending }
        ensures graph { self.new.graph ≡ replay_from self.old.graph self.old.pending }
        ensures none { self.new.pending ≡ [] }
    {
        let none = Vec::new(*self.pending.allocator());
        mem::replace(&mut self.pending, none)
    }

    /// Forgets the pending events, whose memory is given back. Takes no memory.
    pub fn abandon(&mut self)
        ensures graph { self.new.graph ≡ self.old.graph }
        ensures none { self.new.pending ≡ [] }
    {
        undo(&mut self.held, &mut self.pending);
        // None is left, so this only gives their memory back.
        drop(self.commit());
    }

    /// Takes the graph past the event, where some change comes to it there, and answers whether one does.
    /// An `Err` says that memory ran out, and nothing has changed.
    pub fn follow(&mut self, event: &Event) -> Result<bool, AllocError>
        requires none_pending { self.old.pending ≡ [] }

        // The graph is past the event, or as before.
        ensures went { IfOk result (λ went. went ≡ is_change_of self.old.graph event.now.body) }
        ensures on { IfOk result (λ went. self.new.graph ≡ (if went then forwards self.old.graph event.now else self.old.graph)) }

        // Nothing is pending, and want of memory changes nothing.
        ensures none { self.new.pending ≡ [] }
        ensures err { OnErr result (self.new ≡ self.old) }
    {
        ready_for_event(&mut self.held, *self.pending.allocator(), event)?;
        if !is_change_of(&self.held, &event.body) {
            return Ok(false);
        }
        apply(&mut self.held, event)?;
        Ok(true)
    }

    // The element with the id in the graph: that before the first pending event that changes it, or
    // the one that is held.
    fn element_at(&self, id: ElementId) -> Option<Element>
        ensures { result ≡ at self.now.graph id }
    {
        for event in &self.pending {
            if ElementId::changed_by(&event.body) == id {
                return element_before(&event.body);
            }
        }
        self.held.element_at(id)
    }

    /// Whether the node is in the graph.
    pub fn node(&self, id: u64) -> bool
        ensures { result ≡ has_node self.now.graph id }
    {
        self.element_at(ElementId::Node(id)).is_some()
    }

    /// The source and the destination of the edge of this id, and whether it is directed; `None` where
    /// no such edge is in the graph.
    pub fn edge(&self, id: u64) -> Option<(u64, u64, bool)>
        ensures { result ≡ ends_in (edge_of self.now.graph id) }
    {
        match self.element_at(ElementId::Edge(id)) {
            Some(
                Element::Edge {
                    src,
                    dst,
                    directed,
                    ..
                },
            ) => Some((src, dst, directed)),
            _ => None,
        }
    }

    /// The value of the key at the node, by their numbers in the history's list of names.
    pub fn node_value(&self, id: u64, key: u32) -> Option<u32>
        ensures { result ≡ node_value self.now.graph id key }
    {
        value_in(self.element_at(ElementId::NodeValue { key, id }))
    }

    /// The value of the key at the edge.
    pub fn edge_value(&self, id: u64, key: u32) -> Option<u32>
        ensures { result ≡ edge_value self.now.graph id key }
    {
        value_in(self.element_at(ElementId::EdgeValue { key, id }))
    }
}

// The earliest time of a batch after the last one.
fn earliest_time_after(last: Option<u64>) -> u64
    requires { IfSome last (λ t. t < 2 ^ 63) }
    ensures { result ≡ earliest_time_after last }
{
    match last {
        None => 0,
        Some(last) => last + 1,
    }
}
