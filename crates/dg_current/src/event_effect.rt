//! A graph taken past an event or back, and made ready for it first, so that this takes no memory.
ghost use Rattle.std.specs.Prelude.{◌≡◌, ◌≤◌, true, false, IfOk, IfErr, IfSome, OnOk, OnErr, length, vec_capacity, [], map, None, Some, Ok};
ghost use Rattle.std.specs.List.{list_any};
ghost use Rattle.std.specs.Option.{option_or};
ghost use Rattle.dg_graph.specs.declared.event.Change.{Change};
ghost use Rattle.dg_graph.specs.CompletedChanges.{completed};
ghost use Rattle.dg_graph.specs.Effect.{forwards, backwards};
ghost use Rattle.dg_graph.specs.Elements.{has, without, with_one};
ghost use Rattle.dg_graph.specs.Graph.{IsGraph, has_needs};
ghost use Rattle.dg_current.specs.declared.element_id.ElementId.{ElementId};
ghost use Rattle.dg_current.specs.EventEffect.{CanHappen, CameBy, KnowsEvent, Led, rewound};
ghost use Rattle.dg_current.specs.HeldGraph.{HasRoom, IsKnown, KeepsIds};
ghost use Rattle.dg_current.specs.ElementIds.{element_id_of, at, needs_id};
ghost use Rattle.dg_current.specs.Now.{FaultOf};

use crate::completion::event_of;
use crate::fault::PrepareFault;
use crate::held_graph::HeldGraph;
use dg_event::effect;
use dg_graph::{Body, Change, Element, Event, What};
use std::alloc::{AllocError, Global};

// Whether the change is to remove a node.
fn removes_node(change: &Change) -> bool {
    matches!(change.what, What::RemoveNode { .. })
}

/// Makes the graph ready for the removals of nodes among the changes. An `Err` says that memory ran out.
pub(crate) fn ready_for_changes(
    graph: &mut HeldGraph,
    alloc: Global,
    changes: &[Change],
) -> Result<(), AllocError>
    ensures { graph.new ≡ graph.old }
{
    if changes.iter().any(removes_node) {
        return graph.sort_ends(alloc);
    }
    Ok(())
}

/// Makes the graph ready for the event. An `Err` says that memory ran out.
pub(crate) fn ready_for_event(
    graph: &mut HeldGraph,
    alloc: Global,
    event: &Event,
) -> Result<(), AllocError>
    ensures { graph.new ≡ graph.old }
{
    match event.body {
        Body::NodeRemoved { .. } => graph.sort_ends(alloc),
        _ => Ok(()),
    }
}

// Puts an element in the place of another of its id, each where there is one.
fn replace(graph: &mut HeldGraph, out: Option<Element>, into: Option<Element>)
    requires loose { IfSome out (λ x. (has graph.old.set x ≡ true) × (list_any (needs_id (element_id_of x)) graph.old.set ≡ false)) }
    requires fits { IfSome into (λ y. (at (without graph.old.set out) (element_id_of y) ≡ None) × (has_needs (without graph.old.set out) y ≡ true)) }
    requires alike { IfSome out (λ x. IfSome into (λ y. (element_id_of y ≡ element_id_of x) × ((p : ElementId) → needs_id p y ≡ needs_id p x))) }
    requires room { IfSome (option_or out into) (HasRoom graph.old) }
    ensures set { graph.new.set ≡ with_one (without graph.old.set out) into }
    ensures keeps { KeepsIds graph.old graph.new }
    ensures out { IfSome out (IsKnown graph.new) }
    ensures into { IfSome into (IsKnown graph.new) }
{
    match (out, into) {
        (Some(old), Some(new)) => graph.replace(&old, new),
        (Some(old), None) => graph.take_out(&old),
        (None, Some(new)) => graph.put(new),
        (None, None) => {}
    }
}

// Makes room for the element, if there is one.
fn make_room(graph: &mut HeldGraph, element: Option<Element>) -> Result<(), AllocError>
    requires { IfSome element (λ x. has_needs graph.old.set x ≡ true) }
    ensures set { graph.new.set ≡ graph.old.set }
    ensures keeps { KeepsIds graph.old graph.new }
    ensures room { OnOk result (IfSome element (HasRoom graph.new)) }
{
    match element {
        Some(element) => graph.make_room(&element),
        None => Ok(()),
    }
}

/// Takes the graph past an event that can happen in it. An `Err` says that memory ran out, and the graph
/// is as before.
pub(crate) fn apply(graph: &mut HeldGraph, event: &Event) -> Result<(), AllocError>
    requires graph { IsGraph graph.old.set }
    requires happens { CanHappen graph.old.set event.now.body }
    ensures set { OnOk result (graph.new.set ≡ forwards graph.old.set event.now) }
    ensures known { OnOk result (KnowsEvent graph.new event.now) }
    ensures keeps { KeepsIds graph.old graph.new }
    ensures err { OnErr result (graph.new.set ≡ graph.old.set) }
{
    let (removed, added) = effect(event);
    // Where there are both, they need the same, and have one id.
    make_room(graph, removed.or(added))?;
    replace(graph, removed, added);
    Ok(())
}

// Takes the graph back before an event that led to it.
fn undo_one(graph: &mut HeldGraph, event: &Event)
    requires came { CameBy graph.old.set event.now }
    requires known { KnowsEvent graph.old event.now }
    ensures set { graph.new.set ≡ backwards graph.old.set event.now }
    ensures keeps { KeepsIds graph.old graph.new }
{
    let (removed, added) = effect(event);
    replace(graph, added, removed);
}

/// Takes the graph back before the events that led to it, the last one first, and leaves none of them.
pub(crate) fn undo(graph: &mut HeldGraph, events: &mut Vec<Event>)
    requires { Led (rewound graph.old.set events.old.items) events.old.items graph.old }
    ensures set { graph.new.set ≡ rewound graph.old.set events.old.items }
    ensures none { events.new.items ≡ [] }
{
    while let Some(event) = events.pop() {
        undo_one(graph, &event);
    }
}

/// Completes the changes, one after another, and takes the graph past each event. The events are put
/// into an empty list that has room for all of them. An `Err` is the first line that is refused, from 1,
/// with the first reason against it, or want of memory; the list then has the events before it.
pub(crate) fn complete_all(
    graph: &mut HeldGraph,
    events: &mut Vec<Event>,
    earliest: u64,
    changes: &[Change],
) -> Result<(), PrepareFault>
    requires empty { events.old.items ≡ [] }
    requires graph { IsGraph graph.old.set }
    requires few { length changes.now ≤ u32.MAX }
    requires capacity { length changes.now ≤ vec_capacity events.old }
    ensures led { Led graph.old.set events.new.items graph.new }
    ensures done { IfOk result (λ _. completed 1 earliest graph.old.set (map (λ (c : Change). Some c) changes.now) ≡ Ok events.new.items) }
    ensures refused { IfErr result (FaultOf (completed 1 earliest graph.old.set (map (λ (c : Change). Some c) changes.now))) }
{
    let mut from = earliest;
    let mut line: u32 = 0;
    for change in changes {
        line += 1;
        let event = match event_of(from, graph, change) {
            Ok(event) => event,
            Err(reason) => return Err(PrepareFault::BadChange { line, reason }),
        };
        apply(graph, &event)?;
        // There is room, so this cannot fail.
        events.push(event).unwrap();
        from = event.time;
    }
    Ok(())
}
